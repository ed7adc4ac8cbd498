//! The id of a graph, in an array.
ghost use Rattle.std.specs.Prelude.{◌≡◌, length, OnOk, IfErr};
ghost use Rattle.sgb_arrays.specs.declared.refusals.Wrong.TheVariants as wrong;

use crate::puts::put_all_bytes;
use crate::refusals::Wrong;
use sgb_graph::{Graph, Id};

/// Puts the id of a graph into an array. No memory is taken.
///
/// `Length` where there are not as many bytes as the id has.
pub fn fill_id(graph: &Graph, bytes: &mut [u8]) -> Result<(), Wrong>
    ensures filled { OnOk result ((length bytes.old ≡ length graph.now.id)
        × (bytes.new ≡ graph.now.id)) }
    ensures refused { IfErr result (λ why. (why ≡ wrong.Length)
        × (length bytes.old ≡ length graph.now.id → ⊥) × (bytes.new ≡ bytes.old)) }
{
    copy_id(graph.id(), bytes)
}

// Puts an id into an array of its length.
pub(crate) fn copy_id(id: &Id, bytes: &mut [u8]) -> Result<(), Wrong>
    ensures filled { OnOk result ((length bytes.old ≡ length id.now) × (bytes.new ≡ id.now)) }
    ensures refused { IfErr result (λ why. (why ≡ wrong.Length)
        × (length bytes.old ≡ length id.now → ⊥) × (bytes.new ≡ bytes.old)) }
{
    let id = id.bytes();
    if bytes.len() != id.len() {
        return Err(Wrong::Length);
    }
    put_all_bytes(bytes, id);
    Ok(())
}
