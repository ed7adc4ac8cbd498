//! Complete bipartite graphs (GB_BASIC, bi_complete).
ghost use Rattle.std.specs.Prelude.{◌≡◌, Ok, Err, IfOk, IfErr};
ghost use Rattle.sgb_graph.specs.Descriptions.{IsAnswerOf};
ghost use Rattle.sgb_ops.specs.BiComplete.{accepted_parts, bi_complete_of};

use crate::boards::pair_of_vertices;
use crate::compounds::numbers_id;
use crate::induced_graphs::{Entry, induced};
use sgb_graph::Graph;
use sgb_vec::{MOST_VERTICES, Panic};
use std::alloc::Global;

/// The complete bipartite graph with `n1` and `n2` vertices (GB_BASIC, bi_complete): `induced` of the board of two
/// vertices, with `n1` copies of the first and `n2` of the second, so that each of the first is joined to each of the
/// second, with arcs where `directed` and edges where not. Its own utility field uu has `n1`. The id is
/// `bi_complete(n1,n2,directed)`.
///
/// `Bad` where `n1` or `n2` is negative; else `VeryBad` where they make more than 1,000,000,000 vertices; both whatever
/// memory there is. `NoRoom` when out of memory.
pub fn bi_complete(alloc: Global, n1: i64, n2: i64, directed: bool) -> Result<Graph, Panic>
    ensures answer { IsAnswerOf (bi_complete_of n1 n2 directed) result }
    ensures refused { (e : Panic) → accepted_parts n1 n2 ≡ Err e → result ≡ Err e }
{
    let parts = accepted_parts(n1, n2)?;
    bi_complete_by(alloc, n1, n2, &parts, directed)
}

// The complete bipartite graph of these numbers, whose entries these are.
fn bi_complete_by(
    alloc: Global,
    n1: i64,
    n2: i64,
    parts: &[Entry],
    directed: bool,
) -> Result<Graph, Panic>
    requires { accepted_parts n1 n2 ≡ Ok parts.now }
    ensures { IsAnswerOf (bi_complete_of n1 n2 directed) result }
{
    let pair = pair_of_vertices(alloc, directed)?;
    let mut built = induced(alloc, &pair, parts, false, false, directed)?;
    built.set_uu(n1);
    built.set_id(numbers_id(b"bi_complete(", n1, n2, directed));
    Ok(built)
}

// The entries of so many copies.
fn accepted_parts(n1: i64, n2: i64) -> Result<[Entry; 2], Panic>
    ensures ok { IfOk result (λ parts. accepted_parts n1 n2 ≡ Ok parts) }
    ensures refused { IfErr result (λ e. accepted_parts n1 n2 ≡ Err e) }
{
    if n1 < 0 || n2 < 0 {
        return Err(Panic::Bad);
    }
    let most = i64::from(MOST_VERTICES);
    if n1 > most || n2 > most || n1 + n2 > most {
        return Err(Panic::VeryBad);
    }
    Ok([Entry::Copies(n1 as u32), Entry::Copies(n2 as u32)])
}
