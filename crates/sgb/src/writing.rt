//! Texts written to a sink.
ghost use Rattle.std.specs.Prelude.{◌≡◌, false, IfErr};
ghost use Rattle.sgb_file.specs.Devices.{change};
ghost use Rattle.sgb.specs.Writing.{IsWritten};

// The lines of arcs.
mod arc_lines;
// Listings from a generator's vectors.
pub mod families;
// `.gb` files.
pub(crate) mod files;
// Random numbers.
pub(crate) mod flips;
// Names of vectors that are kept.
mod kept_names;
// The lines of arcs that are handed out one by one.
mod line_sink;
// Answers to requests for the listing of a generator's graph.
pub(crate) mod list_answers;
// Listings of graphs.
pub(crate) mod listing;
// Names of a generator's vectors.
pub(crate) mod names;
// Texts of small numbers.
mod numerals;
// Pages of output.
mod pages;
// Where the names and the listing of a generator's vectors begin.
pub(crate) mod resumed;
// Names of a graph's vertices.
pub(crate) mod vertices;

use sgb_file::{Sink, put_all};
use sgb_requests::Fault;

/// Writes bytes.
///
/// `Write` where the sink fails, with a prefix written.
pub fn write_bytes<W: Sink>(out: &mut W, bytes: &[u8]) -> Result<(), Fault>
    requires { W.has_failed out.old ≡ false }
    ensures written { IsWritten bytes.now (change W.written W.has_failed out.old out.new) result }
    ensures fault { IfErr result (λ f. f ≡ Fault.Write) }
{
    put_all(out, bytes).map_err(|_| Fault::Write)
}
