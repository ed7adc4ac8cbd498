//! The `.gb` file of a graph, written to a sink.
ghost use Rattle.std.specs.Prelude.{◌≡◌, false, IfErr};
ghost use Rattle.sgb_file.specs.Devices.{change};
ghost use Rattle.sgb_file.specs.Saving.{text_of_graph};
ghost use Rattle.sgb.specs.Writing.{IsWritten};

use sgb_file::{Sink, write_gb};
use sgb_graph::Graph;
use sgb_requests::Fault;

/// Writes the `.gb` file of a graph (GB_SAVE, save_graph).
pub(crate) fn write_file<W: Sink>(graph: &Graph, out: &mut W) -> Result<(), Fault>
    requires { W.has_failed out.old ≡ false }
    ensures written { IsWritten (text_of_graph graph.now)
        (change W.written W.has_failed out.old out.new) result }
    ensures fault { IfErr result (λ f. f ≡ Fault.Write) }
{
    write_gb(graph, out).map_err(|_| Fault::Write)
}
