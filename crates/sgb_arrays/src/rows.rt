//! Lists of arcs as arrays: compressed sparse rows.
ghost use Rattle.std.specs.Prelude.{◌≡◌, ◌++◌, ◌∷◌, [], length, pos, IfErr, IfOk, IsOkUnless, OnOk};
ghost use Rattle.std.specs.Bool.{OnTrue, OnFalse};
ghost use Rattle.sgb_vec.specs.declared.panics.Panic.TheVariants as Panic;
ghost use Rattle.sgb_arrays.specs.Copies.{HaveLengthsOfRows, HaveLengthsOfTips};
ghost use Rattle.sgb_arrays.specs.declared.refusals.Wrong.TheVariants as wrong;

use crate::refusals::Wrong;
use sgb_vec::Panic;
use std::alloc::Global;

/// The lists of some vertices, one after another: that of vertex k of them is what stands in `tips` and `lengths` from
/// `starts[k]` up to `starts[k + 1]`.
#[derive(Drop)]
pub struct Rows {
    /// Where each list starts, and then where the last one ends.
    pub starts: Vec<u64>,
    /// Where each arc leads: a vertex of the graph, counted from its first one.
    pub tips: Vec<u32>,
    /// The length of each arc.
    pub lengths: Vec<i64>,
}

impl Rows {
    // No lists, and room for those of so many vertices; for so many arcs too, where it can be had.
    pub(crate) fn new(alloc: Global, vertices: usize, arcs: usize) -> Result<Rows, Panic>
        ensures starts { IfOk result (λ rows. rows.starts.items ≡ 0 ∷ []) }
        ensures tips { IfOk result (λ rows. rows.tips.items ≡ []) }
        ensures lengths { IfOk result (λ rows. rows.lengths.items ≡ []) }
        ensures memory { IsOkUnless result Panic.NoRoom }
    {
        let mut starts = Vec::with_capacity(alloc, vertices.saturating_add(1))?;
        starts.push(0)?;
        // Without room they take it as they come: whoever asks for too much is not out of memory for that.
        let mut lengths = Vec::new(alloc);
        let _room = lengths.reserve(arcs);
        let mut tips = Vec::new(alloc);
        let _room = tips.reserve(arcs);
        Ok(Rows {
            starts,
            tips,
            lengths,
        })
    }

    // Ends a list: the next one starts here.
    pub(crate) fn push_start(&mut self) -> Result<(), Panic>
        ensures starts { OnOk result (self.new.starts.items
            ≡ self.old.starts.items ++ length self.old.tips.items ∷ []) }
        ensures tips { OnOk result (self.new.tips.items ≡ self.old.tips.items) }
        ensures lengths { OnOk result (self.new.lengths.items ≡ self.old.lengths.items) }
        ensures memory { IsOkUnless result Panic.NoRoom }
    {
        self.starts.push(self.tips.len() as u64)?;
        Ok(())
    }

    // Appends an arc of this length to a vertex.
    #[inline(always)]
    pub(crate) fn push_arc(&mut self, tip: u32, len: u32) -> Result<(), Panic>
        ensures tips { OnOk result (self.new.tips.items ≡ self.old.tips.items ++ tip ∷ []) }
        ensures lengths { OnOk result (self.new.lengths.items
            ≡ self.old.lengths.items ++ pos len ∷ []) }
        ensures starts { OnOk result (self.new.starts.items ≡ self.old.starts.items) }
        ensures memory { IsOkUnless result Panic.NoRoom }
    {
        self.tips.push(tip)?;
        self.lengths.push(i64::from(len))?;
        Ok(())
    }

    /// Copies the lists into arrays of their lengths. No memory is taken.
    ///
    /// `Length` where an array has another length.
    pub fn copy_to(
        &self,
        starts: &mut [u64],
        tips: &mut [u32],
        lengths: &mut [i64],
    ) -> Result<(), Wrong>
        ensures copied { OnOk result (HaveLengthsOfRows self.now starts.old tips.old lengths.old
            × (starts.new ≡ self.now.starts.items) × (tips.new ≡ self.now.tips.items)
            × (lengths.new ≡ self.now.lengths.items)) }
        ensures refused { IfErr result (λ why. (why ≡ wrong.Length)
            × (HaveLengthsOfRows self.now starts.old tips.old lengths.old → ⊥)
            × (starts.new ≡ starts.old) × (tips.new ≡ tips.old) × (lengths.new ≡ lengths.old)) }
    {
        if !self.have_lengths(starts, tips, lengths) {
            return Err(Wrong::Length);
        }
        starts.copy_from_slice(self.starts.as_slice());
        tips.copy_from_slice(self.tips.as_slice());
        lengths.copy_from_slice(self.lengths.as_slice());
        Ok(())
    }

    /// Copies the lists into arrays of their lengths, without the lengths of the arcs. No memory is taken.
    ///
    /// `Length` where an array has another length.
    pub fn copy_tips_to(&self, starts: &mut [u64], tips: &mut [u32]) -> Result<(), Wrong>
        ensures copied { OnOk result (HaveLengthsOfTips self.now starts.old tips.old
            × (starts.new ≡ self.now.starts.items) × (tips.new ≡ self.now.tips.items)) }
        ensures refused { IfErr result (λ why. (why ≡ wrong.Length)
            × (HaveLengthsOfTips self.now starts.old tips.old → ⊥)
            × (starts.new ≡ starts.old) × (tips.new ≡ tips.old)) }
    {
        if starts.len() != self.starts.len() || tips.len() != self.tips.len() {
            return Err(Wrong::Length);
        }
        starts.copy_from_slice(self.starts.as_slice());
        tips.copy_from_slice(self.tips.as_slice());
        Ok(())
    }

    // Whether these arrays have the lengths of its own.
    fn have_lengths(&self, starts: &[u64], tips: &[u32], lengths: &[i64]) -> bool
        ensures same { OnTrue result
            (HaveLengthsOfRows self.now starts.now tips.now lengths.now) }
        ensures other { OnFalse result
            (HaveLengthsOfRows self.now starts.now tips.now lengths.now → ⊥) }
    {
        starts.len() == self.starts.len()
            && tips.len() == self.tips.len()
            && lengths.len() == self.lengths.len()
    }
}
