//! The graph that standard input is a file of.
//!
//! The bytes are whole: the definition of an answer reads them before anything is written.
ghost use Rattle.std.specs.Prelude.{◌≡◌, true, length, nat_le, Result, Err};
ghost use Rattle.sgb_vec.specs.Results.{IsValue};
ghost use Rattle.sgb_vec.specs.declared.panics.Panic.{Panic};
ghost use Rattle.sgb_graph.specs.Graphs.{GraphData};
ghost use Rattle.sgb_values.specs.FirstRefusals.{IsInputRefused};
ghost use Rattle.sgb_values.specs.Values.{IsStdinValue, most_input};
ghost use Rattle.sgb_values.specs.inner.Inputs.{left_after};

use crate::kept::Kept;
use sgb_file::read_gb;
use sgb_graph::Graph;
use sgb_vec::Panic;
use std::alloc::Global;

/// A file on standard input has at most this many bytes.
pub const MOST_INPUT: usize = 1 << 30;

/// The graph that standard input is a file of. What is kept of it is then dropped, unless `more` says that it is read
/// again.
///
/// The code of a text that is a file of none; `Syntax` where it has more than 2^30 bytes; `NoRoom` when out of memory.
#[inline(never)]
pub(crate) fn read_kept(alloc: Global, input: &mut Kept<'_>, more: bool) -> Result<Graph, Panic>
    ensures value { (value : Result GraphData Panic) → IsStdinValue input.old value
        → IsValue value result }
    ensures left { input.new ≡ left_after more true input.old }
    ensures refused { (p : Panic) → IsInputRefused input.old p → result ≡ Err p }
{
    let graph = stdin_graph(alloc, input.bytes());
    if more {
        return graph;
    }
    input.clear();
    graph
}

// The graph that standard input is a file of, from its bytes (GB_SAVE, restore_graph).
fn stdin_graph(alloc: Global, input: &[u8]) -> Result<Graph, Panic>
    ensures value { (value : Result GraphData Panic) → IsStdinValue input.now value
        → IsValue value result }
    ensures refused { (p : Panic) → IsInputRefused input.now p → result ≡ Err p }
{
    if !is_read(input) {
        return Err(Panic::Syntax);
    }
    read_gb(alloc, input)
}

// Whether standard input is read as a file: it has not too many bytes.
fn is_read(input: &[u8]) -> bool
    ensures { result ≡ nat_le (length input.now) most_input }
{
    input.len() <= MOST_INPUT
}
