//! The `.gb` file of a graph, in an array.
//!
//! The size of the file is had by making it. To fill an array makes it twice, first to count: nothing is written into
//! an array of another length, and no memory is taken.
ghost use Rattle.std.specs.Prelude.{◌≡◌, ◌^◌, ◌-◌, length, min, OnOk, IfErr};
ghost use Rattle.sgb_file.specs.Saving.{text_of_graph};
ghost use Rattle.sgb_arrays.specs.declared.refusals.Wrong.TheVariants as wrong;

// A sink that counts.
mod counting;
// A sink over a slice.
mod filling;
// Bytes that only clauses read.
mod seen;

use crate::refusals::Wrong;
use counting::CountSink;
use filling::FillSink;
use sgb_file::write_gb;
use sgb_graph::Graph;

/// How many bytes the `.gb` file of a graph has, or 2^64 - 1 where there are more (GB_SAVE, save_graph). No memory is taken.
pub fn file_len(graph: &Graph) -> u64
    ensures { result ≡ min (length (text_of_graph graph.now)) (2 ^ 64 - 1) }
{
    let mut sink = CountSink::new();
    // Never refused, as the sink never fails.
    let _ = write_gb(graph, &mut sink);
    sink.count()
}

/// Puts the `.gb` file of a graph into an array (GB_SAVE, save_graph). No memory is taken.
///
/// `Length` where there are not as many bytes as the file has.
pub fn fill_file(graph: &Graph, bytes: &mut [u8]) -> Result<(), Wrong>
    ensures filled { OnOk result ((length bytes.old ≡ length (text_of_graph graph.now))
        × (bytes.new ≡ text_of_graph graph.now)) }
    ensures refused { IfErr result (λ why. (why ≡ wrong.Length)
        × (length bytes.old ≡ length (text_of_graph graph.now) → ⊥) × (bytes.new ≡ bytes.old)) }
{
    if bytes.len() as u64 != file_len(graph) {
        return Err(Wrong::Length);
    }
    put_file(graph, bytes);
    Ok(())
}

// Puts the file into an array of its length.
fn put_file(graph: &Graph, bytes: &mut [u8])
    requires { length bytes.old ≡ length (text_of_graph graph.now) }
    ensures { bytes.new ≡ text_of_graph graph.now }
{
    let mut sink = FillSink {
        out: bytes,
        at: 0,
        failed: false,
    };
    // Never refused: all of the file fits.
    let _ = write_gb(graph, &mut sink);
}
