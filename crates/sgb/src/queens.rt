//! The graph of queens' moves (QUEEN).
ghost use Rattle.std.specs.Prelude.{◌≡◌, Err};
ghost use Rattle.sgb_vec.specs.Results.{IsValue};
ghost use Rattle.sgb.specs.Outcomes.{moves_of, queen_moves};
ghost use Rattle.sgb_values.specs.Values.{value_of};

use sgb_gen::{BoardParams, Generator};
use sgb_graph::Graph;
use sgb_ops::gunion;
use sgb_vec::Panic;
use std::alloc::Global;

/// The moves of queens on a board of three rows and four columns: those of rooks and those of bishops (QUEEN).
///
/// `NoRoom` when out of memory.
pub(crate) fn queen_moves(alloc: Global) -> Result<Graph, Panic>
    ensures { IsValue (value_of (Err Panic.Early) queen_moves) result }
{
    let rooks = moves_of(-1).graph(alloc)?;
    let bishops = moves_of(-2).graph(alloc)?;
    gunion(alloc, &rooks, &bishops, false, false)
}

// The moves of a piece on that board.
fn moves_of(piece: i64) -> Generator
    ensures { result ≡ moves_of piece }
{
    Generator::Board(BoardParams {
        n1: 3,
        n2: 4,
        n3: 0,
        n4: 0,
        piece,
        wrap: 0,
        directed: false,
    })
}
