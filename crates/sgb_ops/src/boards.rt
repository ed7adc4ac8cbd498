//! The two boards that complete bipartite graphs and wheels are made of (GB_BASIC, bi_complete and wheel).
ghost use Rattle.std.specs.Prelude.{◌≡◌, Err};
ghost use Rattle.sgb_graph.specs.Descriptions.{IsAnswerOf};
ghost use Rattle.sgb_gen.specs.Boards.{board};
ghost use Rattle.sgb_ops.specs.Boards.{pair_of_vertices};
ghost use Rattle.sgb_ops.specs.inner.Boards.{rim_of_wheel};

use sgb_gen::board;
use sgb_graph::Graph;
use sgb_vec::Panic;
use std::alloc::Global;

/// The board of two vertices, with one arc or edge from 0 to 1.
///
/// `NoRoom` when out of memory, and nothing else.
pub(crate) fn pair_of_vertices(alloc: Global, directed: bool) -> Result<Graph, Panic>
    ensures { IsAnswerOf (board (pair_of_vertices directed)) result }
{
    board(alloc, 2, 0, 0, 0, 1, 0, directed)
}

/// The board of `n` vertices in a circle; where `n` is not positive, the board of 8 by 8.
///
/// `VeryBad` above 1,000,000,000 vertices, whatever memory there is. `NoRoom` when out of memory.
pub(crate) fn rim_of_wheel(alloc: Global, n: i64, directed: bool) -> Result<Graph, Panic>
    ensures answer { IsAnswerOf (board (rim_of_wheel n directed)) result }
    ensures refused { (e : Panic) → board (rim_of_wheel n directed) ≡ Err e → result ≡ Err e }
{
    board(alloc, n, 0, 0, 0, 1, 1, directed)
}
