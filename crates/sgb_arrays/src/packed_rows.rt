//! The lists of all vertices of a graph, one after another, in little memory: as compressed sparse rows whose lengths are
//! not kept where all arcs have one.
ghost use Rattle.std.specs.Prelude.{◌≡◌, ◌⊎◌, ◌++◌, ◌∷◌, ◌<◌, ◌≤◌, ◌+◌, ◌-◌, ◌^◌, [], length, map, slice_index, slice_range, IfOk, IsOkUnless, OnOk};
ghost use Rattle.std.specs.Bool.{OnTrue};
ghost use Rattle.sgb_graph.specs.Graphs.{chain_of};
ghost use Rattle.sgb_arrays.specs.inner.Cuts.{arcs_cut, starts_cut, values_cut};
ghost use Rattle.sgb_arrays.specs.inner.Packed.{lengths_kept};

use sgb_graph::Graph;
use sgb_vec::Panic;
use std::alloc::{AllocError, Global};

// The lists of all vertices, one after another: that of vertex v is what stands from `starts[v]` up to `starts[v + 1]`.
#[derive(Drop)]
pub(crate) struct PackedRows {
    pub(crate) starts: Vec<u64>,
    pub(crate) tips: Vec<u32>,
    pub(crate) lengths: Lengths,
}

// Lengths of arcs: the first ones are the same, and only how many these are is kept; all others stand one after another.
#[derive(Drop)]
pub(crate) struct Lengths {
    len: i64,
    same: usize,
    others: Vec<i64>,
}

impl Lengths {
    // None. It takes no memory.
    fn new(alloc: Global) -> Lengths
        ensures { lengths_kept result ≡ [] }
    {
        Lengths {
            len: 1,
            same: 0,
            others: Vec::new(alloc),
        }
    }

    // Appends a length. Where it is the first other one, room is taken for so many.
    #[inline(always)]
    fn push(&mut self, len: i64, room: usize) -> Result<(), AllocError>
        ensures ok { OnOk result (lengths_kept self.new ≡ lengths_kept self.old ++ len ∷ []) }
    {
        if self.are_all(len) {
            self.len = len;
            self.same += 1;
            return Ok(());
        }
        self.push_other(len, room)
    }

    // Whether all, and one more, are this length.
    #[inline(always)]
    fn are_all(&self, len: i64) -> bool
        ensures none { OnTrue result (self.now.others.items ≡ []) }
        ensures few { OnTrue result (self.now.same + 1 < 2 ^ 64) }
        ensures same { OnTrue result ((self.now.same ≡ 0) ⊎ (self.now.len ≡ len)) }
    {
        if !self.others.is_empty() || self.same == usize::MAX {
            return false;
        }
        self.same == 0 || self.len == len
    }

    // Appends one behind the others.
    fn push_other(&mut self, len: i64, room: usize) -> Result<(), AllocError>
        ensures ok { OnOk result (lengths_kept self.new ≡ lengths_kept self.old ++ len ∷ []) }
    {
        if self.others.is_empty() {
            self.others.reserve(room)?;
        }
        self.others.push(len)?;
        Ok(())
    }

    // Puts those from one place up to another into an array of their length.
    fn put(&self, begin: usize, end: usize, lengths: &mut [i64])
        requires order { begin ≤ end }
        requires within { end ≤ length (lengths_kept self.now) }
        requires lengths { length lengths.old ≡ end - begin }
        ensures { lengths.new ≡ slice_range (lengths_kept self.now) begin end }
    {
        if end <= self.same {
            lengths.fill(self.len);
            return;
        }
        let others = self.others.as_slice();
        if begin >= self.same {
            lengths.copy_from_slice(&others[begin - self.same..end - self.same]);
            return;
        }
        let (first, rest) = lengths.split_at_mut(self.same - begin);
        first.fill(self.len);
        rest.copy_from_slice(&others[..end - self.same]);
    }
}

impl PackedRows {
    // No lists, and room for those of so many vertices, with so many arcs.
    pub(crate) fn new(alloc: Global, vertices: usize, arcs: usize) -> Result<PackedRows, Panic>
        ensures starts { IfOk result (λ rows. rows.starts.items ≡ 0 ∷ []) }
        ensures tips { IfOk result (λ rows. rows.tips.items ≡ []) }
        ensures lengths { IfOk result (λ rows. lengths_kept rows.lengths ≡ []) }
        ensures memory { IsOkUnless result Panic.NoRoom }
    {
        let mut starts = Vec::with_capacity(alloc, vertices.saturating_add(1))?;
        starts.push(0)?;
        let tips = Vec::with_capacity(alloc, arcs)?;
        Ok(PackedRows {
            starts,
            tips,
            lengths: Lengths::new(alloc),
        })
    }

    // Puts the list of vertex v behind the others. `false` where there is no room for all of it.
    pub(crate) fn push_list(&mut self, graph: &Graph, v: u32) -> Result<bool, Panic>
        requires { v < length graph.now.vertices }
        ensures starts { OnOk result (self.new.starts.items ≡ self.old.starts.items) }
        ensures tips { IfOk result (λ whole. OnTrue whole (self.new.tips.items
            ≡ self.old.tips.items ++ map (λ l. l.tip) (chain_of graph.now v))) }
        ensures lengths { IfOk result (λ whole. OnTrue whole (lengths_kept self.new.lengths
            ≡ lengths_kept self.old.lengths ++ map (λ l. l.len) (chain_of graph.now v))) }
        ensures memory { IsOkUnless result Panic.NoRoom }
    {
        for link in graph.arcs(v) {
            if self.tips.len() >= self.tips.capacity() {
                return Ok(false);
            }
            let room = self.tips.capacity() - self.tips.len();
            self.tips.push_reserved(link.tip);
            self.lengths.push(link.len, room)?;
        }
        Ok(true)
    }

    // Ends a list: the next one starts here.
    pub(crate) fn push_start(&mut self) -> Result<(), Panic>
        ensures starts { OnOk result (self.new.starts.items
            ≡ self.old.starts.items ++ length self.old.tips.items ∷ []) }
        ensures tips { OnOk result (self.new.tips.items ≡ self.old.tips.items) }
        ensures lengths { OnOk result (lengths_kept self.new.lengths ≡ lengths_kept self.old.lengths) }
        ensures memory { IsOkUnless result Panic.NoRoom }
    {
        self.starts.push(self.tips.len() as u64)?;
        Ok(())
    }

    // How many arcs are on the lists of a run of its vertices.
    pub(crate) fn arcs_in(&self, first: u32, count: u32) -> u64
        requires { first + count < length self.now.starts.items }
        ensures { result ≡ arcs_cut self.now.starts.items first count }
    {
        let starts = self.starts.as_slice();
        starts[first as usize + count as usize].saturating_sub(starts[first as usize])
    }

    // Puts where the lists of a run of its vertices start, counted from the first of them, and where their arcs lead, into
    // arrays of the right lengths.
    pub(crate) fn put_cut_tips(&self, first: u32, count: u32, starts: &mut [u64], tips: &mut [u32])
        requires there { first + count < length self.now.starts.items }
        requires rising { slice_index self.now.starts.items first
            ≤ slice_index self.now.starts.items (first + count) }
        requires within { slice_index self.now.starts.items (first + count)
            ≤ length self.now.tips.items }
        requires starts { length starts.old ≡ count + 1 }
        requires tips { length tips.old ≡ arcs_cut self.now.starts.items first count }
        ensures starts { starts.new ≡ starts_cut self.now.starts.items first count }
        ensures tips { tips.new
            ≡ values_cut self.now.tips.items self.now.starts.items first count }
    {
        let begin = first as usize;
        let end = begin + count as usize;
        let own = self.starts.as_slice();
        put_starts(starts, &own[begin..end + 1], own[begin]);
        tips.copy_from_slice(&self.tips.as_slice()[own[begin] as usize..own[end] as usize]);
    }

    // Puts the lengths of the arcs of a run of its vertices into an array of the right length.
    pub(crate) fn put_cut_lengths(&self, first: u32, count: u32, lengths: &mut [i64])
        requires there { first + count < length self.now.starts.items }
        requires rising { slice_index self.now.starts.items first
            ≤ slice_index self.now.starts.items (first + count) }
        requires within { slice_index self.now.starts.items (first + count)
            ≤ length (lengths_kept self.now.lengths) }
        requires lengths { length lengths.old ≡ arcs_cut self.now.starts.items first count }
        ensures { lengths.new
            ≡ values_cut (lengths_kept self.now.lengths) self.now.starts.items first count }
    {
        let begin = first as usize;
        let end = begin + count as usize;
        let own = self.starts.as_slice();
        self.lengths
            .put(own[begin] as usize, own[end] as usize, lengths);
    }
}

// Puts starts, counted from this one, into an array of their length.
fn put_starts(starts: &mut [u64], own: &[u64], from: u64)
    requires { length starts.old ≡ length own.now }
    ensures { starts.new ≡ map (λ start. start - from) own.now }
{
    for k in 0..own.len() {
        starts[k] = own[k].saturating_sub(from);
    }
}
