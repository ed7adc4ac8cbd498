//! What the utility fields of a graph hold, in an array.
ghost use Rattle.std.specs.Prelude.{◌≡◌, length, map, OnOk, IfErr};
ghost use Rattle.sgb_graph.specs.Kinds.{letter_of};
ghost use Rattle.sgb_arrays.specs.declared.refusals.Wrong.TheVariants as wrong;

use crate::refusals::Wrong;
use sgb_graph::{Graph, Kind};

/// Puts what the utility fields hold into an array, a letter of Z I V S A each: of vertices u v w x y z, of arcs a b, of the
/// graph uu vv ww xx yy zz (GB_GRAPH, util_types). No memory is taken.
///
/// `Length` where there are not 14 places.
pub fn fill_kinds(graph: &Graph, letters: &mut [u8]) -> Result<(), Wrong>
    ensures filled { OnOk result ((length letters.old ≡ 14)
        × (letters.new ≡ map letter_of graph.now.kinds)) }
    ensures refused { IfErr result (λ why. (why ≡ wrong.Length)
        × (length letters.old ≡ 14 → ⊥) × (letters.new ≡ letters.old)) }
{
    copy_letters(&graph.kinds(), letters)
}

// Puts the letters of kinds into an array, which has to have 14 places.
pub(crate) fn copy_letters(kinds: &[Kind; 14], letters: &mut [u8]) -> Result<(), Wrong>
    ensures filled { OnOk result ((length letters.old ≡ 14)
        × (letters.new ≡ map letter_of kinds.now)) }
    ensures refused { IfErr result (λ why. (why ≡ wrong.Length)
        × (length letters.old ≡ 14 → ⊥) × (letters.new ≡ letters.old)) }
{
    if letters.len() != 14 {
        return Err(Wrong::Length);
    }
    put_letters(kinds, letters);
    Ok(())
}

// Puts the letters of kinds into an array of as many places.
fn put_letters(kinds: &[Kind; 14], letters: &mut [u8])
    requires { length letters.old ≡ 14 }
    ensures { letters.new ≡ map letter_of kinds.now }
{
    for place in 0..14 {
        letters[place] = kinds[place].letter();
    }
}
