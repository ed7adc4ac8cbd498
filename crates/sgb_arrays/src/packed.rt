//! A graph with its lists of arcs as arrays.
//!
//! Records lie far apart, so a walk over lists takes longer than all else that fetching does. To make the arrays makes
//! opening longer by what it spares the first fetch, and who fetches twice walks once. In a file vertices may share
//! records, so that a few stand on lists with any number of arcs. Then the arrays are not kept, so that a small file
//! cannot take much memory, but how long each list is: only who asks for arrays walks the lists.
ghost use Rattle.std.specs.Prelude.{◌≡◌, length, OnOk, IfErr, IfOk, IfSome, IsOkUnless};
ghost use Rattle.sgb_graph.specs.Graphs.{chain_of};
ghost use Rattle.sgb_arrays.specs.Runs.{AreRows, AreTips, HaveRowLengths, HaveTipLengths, IsFillRefusal, IsThere, parts_of};
ghost use Rattle.sgb_arrays.specs.inner.Packed.{HoldsLists, lengths_kept};
ghost use Rattle.sgb_arrays.specs.inner.Sizes.{AreListSizes};
ghost use Rattle.sgb_vec.specs.declared.panics.Panic.TheVariants as Panic;
ghost use Rattle.sgb_arrays.specs.declared.refusals.Wrong.TheVariants as wrong;

use crate::graph_rows::{fill_counted_rows, fill_counted_tips};
use crate::list_sizes::{arcs_len_by, list_sizes};
use crate::packed_rows::PackedRows;
use crate::refusals::Wrong;
use crate::runs::{have_places, have_row_places, is_there};
use sgb_graph::Graph;
use sgb_vec::Panic;
use std::alloc::Global;
use std::marker::Model;

/// A graph with its lists of arcs as arrays: so they are walked once, and then copied to whoever asks for them. Contracts see
/// the graph.
pub struct PackedGraph {
    graph: Graph,
    lists: Lists,
}

// One function drops it, as it does a graph.
impl Drop for PackedGraph {
    fn drop(self) {
        let PackedGraph { graph: _, lists: _ } = self;
    }
}

// What is kept of the lists of a graph.
#[derive(Drop)]
enum Lists {
    // All of them.
    Whole(PackedRows),
    // How long each is, where vertices share records, so that more arcs are on lists than there are records.
    Shared(Vec<usize>),
}

impl Model for PackedGraph {
    ghost use Rattle.sgb_graph.specs.Graphs.{GraphData};
    ghost use Rattle.sgb_arrays.specs.inner.Packed.{HoldsLists};

    ghost Value = { GraphData };

    ghost view = { λ p. p.graph };

    ghost invariant = { λ p. HoldsLists p.graph p.lists };
}

impl PackedGraph {
    /// Puts the lists of the graph into arrays: four bytes for each arc, eight more for each from the first on that has another
    /// length than those before it, and eight for each vertex. Of lists that share so
    /// many records that they have more arcs than the graph has records, how long each is: eight bytes for each vertex, and
    /// for each record while they are counted.
    ///
    /// `NoRoom` out of memory.
    pub fn new(alloc: Global, graph: Graph) -> Result<PackedGraph, Panic>
        ensures graph { IfOk result (λ p. p ≡ graph) }
        ensures memory { IsOkUnless result Panic.NoRoom }
    {
        let lists = lists_of(alloc, &graph)?;
        Ok(PackedGraph { graph, lists })
    }

    /// The graph.
    pub fn graph(&self) -> &Graph
        ensures { result.now ≡ self.now }
    {
        &self.graph
    }

    /// How many arcs are on the lists of `count` vertices, from vertex `first` on, as `arcs_len` says; at once, or where
    /// vertices share records in a step for each vertex.
    ///
    /// `Vertices` where there are not so many vertices.
    pub fn arcs_len(&self, first: u32, count: u32) -> Result<u128, Wrong>
        ensures count { IfOk result (λ m. IsThere self.now first count
            × (m ≡ length (parts_of (chain_of self.now) first count))) }
        ensures refused { IfErr result (λ why. (why ≡ wrong.Vertices)
            × (IsThere self.now first count → ⊥)) }
    {
        match &self.lists {
            Lists::Whole(rows) => count_rows(&self.graph, rows, first, count),
            Lists::Shared(sizes) => arcs_len_by(&self.graph, sizes.as_slice(), first, count),
        }
    }

    /// Puts the lists of arcs of a run into arrays, as `fill_rows` does. No memory is taken.
    ///
    /// Refused as it is.
    pub fn fill_rows(
        &self,
        first: u32,
        count: u32,
        starts: &mut [u64],
        tips: &mut [u32],
        lengths: &mut [i64],
    ) -> Result<(), Wrong>
        ensures filled { OnOk result (IsThere self.now first count
            × HaveRowLengths self.now first count starts.old tips.old lengths.old
            × AreRows self.now first count starts.new tips.new lengths.new) }
        ensures refused { IfErr result (λ why. IsFillRefusal self.now first count
            (HaveRowLengths self.now first count starts.old tips.old lengths.old) ⊥ why
            × (starts.new ≡ starts.old) × (tips.new ≡ tips.old) × (lengths.new ≡ lengths.old)) }
    {
        match &self.lists {
            Lists::Whole(rows) => copy_rows(&self.graph, rows, first, count, starts, tips, lengths),
            Lists::Shared(sizes) => fill_shared_rows(
                &self.graph,
                sizes.as_slice(),
                first,
                count,
                starts,
                tips,
                lengths,
            ),
        }
    }

    /// Puts where the lists of a run start and where their arcs lead into arrays, as `fill_tips` does. No memory is taken.
    ///
    /// Refused as it is.
    pub fn fill_tips(
        &self,
        first: u32,
        count: u32,
        starts: &mut [u64],
        tips: &mut [u32],
    ) -> Result<(), Wrong>
        ensures filled { OnOk result (IsThere self.now first count
            × HaveTipLengths self.now first count starts.old tips.old
            × AreTips self.now first count starts.new tips.new) }
        ensures refused { IfErr result (λ why. IsFillRefusal self.now first count
            (HaveTipLengths self.now first count starts.old tips.old) ⊥ why
            × (starts.new ≡ starts.old) × (tips.new ≡ tips.old)) }
    {
        match &self.lists {
            Lists::Whole(rows) => copy_tips(&self.graph, rows, first, count, starts, tips),
            Lists::Shared(sizes) => {
                fill_shared_tips(&self.graph, sizes.as_slice(), first, count, starts, tips)
            }
        }
    }
}

// How many arcs are on the lists of a run, out of those of the graph.
fn count_rows(graph: &Graph, rows: &PackedRows, first: u32, count: u32) -> Result<u128, Wrong>
    requires { AreRows graph.now 0 (length graph.now.vertices) rows.now.starts.items
        rows.now.tips.items (lengths_kept rows.now.lengths) }
    ensures count { IfOk result (λ m. IsThere graph.now first count
        × (m ≡ length (parts_of (chain_of graph.now) first count))) }
    ensures refused { IfErr result (λ why. (why ≡ wrong.Vertices)
        × (IsThere graph.now first count → ⊥)) }
{
    if !is_there(graph.n(), first, count) {
        return Err(Wrong::Vertices);
    }
    Ok(u128::from(rows.arcs_in(first, count)))
}

// Copies the lists of a run out of those of the graph into arrays of their lengths.
fn copy_rows(
    graph: &Graph,
    rows: &PackedRows,
    first: u32,
    count: u32,
    starts: &mut [u64],
    tips: &mut [u32],
    lengths: &mut [i64],
) -> Result<(), Wrong>
    requires { AreRows graph.now 0 (length graph.now.vertices) rows.now.starts.items
        rows.now.tips.items (lengths_kept rows.now.lengths) }
    ensures filled { OnOk result (IsThere graph.now first count
        × HaveRowLengths graph.now first count starts.old tips.old lengths.old
        × AreRows graph.now first count starts.new tips.new lengths.new) }
    ensures refused { IfErr result (λ why. IsFillRefusal graph.now first count
        (HaveRowLengths graph.now first count starts.old tips.old lengths.old) ⊥ why
        × (starts.new ≡ starts.old) × (tips.new ≡ tips.old) × (lengths.new ≡ lengths.old)) }
{
    if !is_there(graph.n(), first, count) {
        return Err(Wrong::Vertices);
    }
    let arcs = u128::from(rows.arcs_in(first, count));
    if !have_row_places(starts.len(), tips.len(), lengths.len(), count, arcs) {
        return Err(Wrong::Length);
    }
    rows.put_cut_tips(first, count, starts, tips);
    rows.put_cut_lengths(first, count, lengths);
    Ok(())
}

// The same without the lengths of the arcs.
fn copy_tips(
    graph: &Graph,
    rows: &PackedRows,
    first: u32,
    count: u32,
    starts: &mut [u64],
    tips: &mut [u32],
) -> Result<(), Wrong>
    requires { AreRows graph.now 0 (length graph.now.vertices) rows.now.starts.items
        rows.now.tips.items (lengths_kept rows.now.lengths) }
    ensures filled { OnOk result (IsThere graph.now first count
        × HaveTipLengths graph.now first count starts.old tips.old
        × AreTips graph.now first count starts.new tips.new) }
    ensures refused { IfErr result (λ why. IsFillRefusal graph.now first count
        (HaveTipLengths graph.now first count starts.old tips.old) ⊥ why
        × (starts.new ≡ starts.old) × (tips.new ≡ tips.old)) }
{
    if !is_there(graph.n(), first, count) {
        return Err(Wrong::Vertices);
    }
    let arcs = u128::from(rows.arcs_in(first, count));
    if !have_places(starts.len(), tips.len(), count, arcs) {
        return Err(Wrong::Length);
    }
    rows.put_cut_tips(first, count, starts, tips);
    Ok(())
}

// Puts the lists of a run into arrays, where it is known how long all lists are.
fn fill_shared_rows(
    graph: &Graph,
    sizes: &[usize],
    first: u32,
    count: u32,
    starts: &mut [u64],
    tips: &mut [u32],
    lengths: &mut [i64],
) -> Result<(), Wrong>
    requires { AreListSizes graph.now sizes.now }
    ensures filled { OnOk result (IsThere graph.now first count
        × HaveRowLengths graph.now first count starts.old tips.old lengths.old
        × AreRows graph.now first count starts.new tips.new lengths.new) }
    ensures refused { IfErr result (λ why. IsFillRefusal graph.now first count
        (HaveRowLengths graph.now first count starts.old tips.old lengths.old) ⊥ why
        × (starts.new ≡ starts.old) × (tips.new ≡ tips.old) × (lengths.new ≡ lengths.old)) }
{
    let arcs = arcs_len_by(graph, sizes, first, count)?;
    fill_counted_rows(graph, first, count, arcs, starts, tips, lengths)
}

// The same without the lengths of the arcs.
fn fill_shared_tips(
    graph: &Graph,
    sizes: &[usize],
    first: u32,
    count: u32,
    starts: &mut [u64],
    tips: &mut [u32],
) -> Result<(), Wrong>
    requires { AreListSizes graph.now sizes.now }
    ensures filled { OnOk result (IsThere graph.now first count
        × HaveTipLengths graph.now first count starts.old tips.old
        × AreTips graph.now first count starts.new tips.new) }
    ensures refused { IfErr result (λ why. IsFillRefusal graph.now first count
        (HaveTipLengths graph.now first count starts.old tips.old) ⊥ why
        × (starts.new ≡ starts.old) × (tips.new ≡ tips.old)) }
{
    let arcs = arcs_len_by(graph, sizes, first, count)?;
    fill_counted_tips(graph, first, count, arcs, starts, tips)
}

// What is kept of the lists of a graph: all of them, or how long each is.
fn lists_of(alloc: Global, graph: &Graph) -> Result<Lists, Panic>
    ensures lists { IfOk result (HoldsLists graph.now) }
    ensures memory { IsOkUnless result Panic.NoRoom }
{
    if let Some(rows) = packed_rows(alloc, graph)? {
        return Ok(Lists::Whole(rows));
    }
    let sizes = list_sizes(alloc, graph)?;
    Ok(Lists::Shared(sizes))
}

// The lists of a graph, by one walk: lists are followed eight side by side, and then put while their records are at hand.
// `None` where more arcs are on them than the graph has records, as may be where vertices share records: so what is kept
// takes no more than the graph does.
fn packed_rows(alloc: Global, graph: &Graph) -> Result<Option<PackedRows>, Panic>
    ensures rows { IfOk result (λ kept. IfSome kept (λ rows. AreRows graph.now 0
        (length graph.now.vertices) rows.starts.items rows.tips.items (lengths_kept rows.lengths))) }
    ensures memory { IsOkUnless result Panic.NoRoom }
{
    let mut rows = PackedRows::new(alloc, graph.n() as usize, graph.records_len())?;
    for v in 0..graph.n() {
        graph.read_ahead(v);
        if !rows.push_list(graph, v)? {
            return Ok(None);
        }
        rows.push_start()?;
    }
    Ok(Some(rows))
}
