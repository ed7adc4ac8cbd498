//! The short names of some boards and subsets, as the parameters that they stand for (GB_BASIC).
//!
//! What is said of the graph of each holds for `n` of 1 and more; any other `n` gives the graph of the parameters that
//! the name stands for, as the board of 8 by 8 for 0.
ghost use Rattle.std.specs.Prelude.{◌≡◌, ◌-ℤ◌, pos, FitsSigned};
ghost use Rattle.std.specs.Int.{w64};
ghost use Rattle.sgb_gen.specs.Shorthands.{complete, transitive, empty, circuit, cycle, disjoint_subsets, line, petersen};

use crate::params::{BoardParams, SubsetsParams};

/// The complete graph of `n` vertices, with an edge between any two: `board(n,0,0,0,-1,0,0)` (GB_BASIC, complete).
pub fn complete(n: i64) -> BoardParams
    ensures { result ≡ complete n }
{
    line(n, -1, 0, false)
}

/// The transitive tournament of `n` vertices, with an arc from each vertex to each later one:
/// `board(n,0,0,0,-1,0,1)` (GB_BASIC, transitive).
pub fn transitive(n: i64) -> BoardParams
    ensures { result ≡ transitive n }
{
    line(n, -1, 0, true)
}

/// The graph of `n` vertices with no arcs: `board(n,0,0,0,2,0,0)` (GB_BASIC, empty).
pub fn empty(n: i64) -> BoardParams
    ensures { result ≡ empty n }
{
    line(n, 2, 0, false)
}

/// The undirected cycle of `n` vertices: `board(n,0,0,0,1,1,0)` (GB_BASIC, circuit).
pub fn circuit(n: i64) -> BoardParams
    ensures { result ≡ circuit n }
{
    line(n, 1, 1, false)
}

/// The directed cycle of `n` vertices: `board(n,0,0,0,1,1,1)` (GB_BASIC, cycle).
pub fn cycle(n: i64) -> BoardParams
    ensures { result ≡ cycle n }
{
    line(n, 1, 1, true)
}

/// The subsets of `k` of `n` elements, with an edge between any two that are disjoint:
/// `subsets(k,1,1-n,0,0,0,0x1,0)` (GB_BASIC, disjoint_subsets).
///
/// 1 - n has to be an i64. It is one for each `n` but `i64::MIN` and `i64::MIN + 1`, so for each of at most 18 digits.
pub fn disjoint_subsets(n: i64, k: i64) -> SubsetsParams
    requires { FitsSigned w64 (pos 1 -ℤ n) }
    ensures { result ≡ disjoint_subsets n k }
{
    SubsetsParams {
        n: k,
        n0: 1,
        n1: 1 - n,
        n2: 0,
        n3: 0,
        n4: 0,
        size_bits: 1,
        directed: false,
    }
}

/// The Petersen graph: `disjoint_subsets(5,2)` (GB_BASIC, petersen).
pub fn petersen() -> SubsetsParams
    ensures { result ≡ petersen }
{
    disjoint_subsets(5, 2)
}

// A board of one dimension.
fn line(n: i64, piece: i64, wrap: i64, directed: bool) -> BoardParams
    ensures { result ≡ line n piece wrap directed }
{
    BoardParams {
        n1: n,
        n2: 0,
        n3: 0,
        n4: 0,
        piece,
        wrap,
        directed,
    }
}
