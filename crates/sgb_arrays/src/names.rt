//! Names as arrays.
ghost use Rattle.std.specs.Prelude.{◌≡◌, ◌∷◌, [], IfErr, IfOk, IsOkUnless, OnOk};
ghost use Rattle.std.specs.Bool.{OnTrue, OnFalse};
ghost use Rattle.sgb_vec.specs.declared.panics.Panic.TheVariants as Panic;
ghost use Rattle.sgb_arrays.specs.Copies.{HaveLengthsOfNames};
ghost use Rattle.sgb_arrays.specs.declared.refusals.Wrong.TheVariants as wrong;

use crate::refusals::Wrong;
use sgb_vec::Panic;
use std::alloc::Global;

/// The names of some vertices, one after another: that of vertex k of them is what stands in `bytes` from `starts[k]` up
/// to `starts[k + 1]`.
#[derive(Drop)]
pub struct Names {
    /// Where each name starts, and then where the last one ends.
    pub starts: Vec<u64>,
    /// The bytes of the names.
    pub bytes: Vec<u8>,
}

impl Names {
    // No names, and room for where those of so many vertices start.
    pub(crate) fn new(alloc: Global, vertices: usize) -> Result<Names, Panic>
        ensures starts { IfOk result (λ names. names.starts.items ≡ 0 ∷ []) }
        ensures bytes { IfOk result (λ names. names.bytes.items ≡ []) }
        ensures memory { IsOkUnless result Panic.NoRoom }
    {
        let mut starts = Vec::with_capacity(alloc, vertices.saturating_add(1))?;
        starts.push(0)?;
        Ok(Names {
            starts,
            bytes: Vec::new(alloc),
        })
    }

    /// Copies the names into arrays of their lengths. No memory is taken.
    ///
    /// `Length` where an array has another length.
    pub fn copy_to(&self, starts: &mut [u64], bytes: &mut [u8]) -> Result<(), Wrong>
        ensures copied { OnOk result (HaveLengthsOfNames self.now starts.old bytes.old
            × (starts.new ≡ self.now.starts.items) × (bytes.new ≡ self.now.bytes.items)) }
        ensures refused { IfErr result (λ why. (why ≡ wrong.Length)
            × (HaveLengthsOfNames self.now starts.old bytes.old → ⊥)
            × (starts.new ≡ starts.old) × (bytes.new ≡ bytes.old)) }
    {
        if !self.have_lengths(starts, bytes) {
            return Err(Wrong::Length);
        }
        starts.copy_from_slice(self.starts.as_slice());
        bytes.copy_from_slice(self.bytes.as_slice());
        Ok(())
    }

    // Whether these arrays have the lengths of its own.
    fn have_lengths(&self, starts: &[u64], bytes: &[u8]) -> bool
        ensures same { OnTrue result (HaveLengthsOfNames self.now starts.now bytes.now) }
        ensures other { OnFalse result (HaveLengthsOfNames self.now starts.now bytes.now → ⊥) }
    {
        starts.len() == self.starts.len() && bytes.len() == self.bytes.len()
    }
}
