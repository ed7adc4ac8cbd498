//! The generators (GB_BASIC).
ghost use Rattle.std.specs.Prelude.{◌≡◌, Err};
ghost use Rattle.sgb_vec.specs.Bounds.{simplex_of};
ghost use Rattle.sgb_graph.specs.Descriptions.{IsAnswerOf};
ghost use Rattle.sgb_gen.specs.Boards.{board};
ghost use Rattle.sgb_gen.specs.Generators.{IsGeneratorRefused, generator_value};
ghost use Rattle.sgb_gen.specs.Simplexes.{simplex};
ghost use Rattle.sgb_gen.specs.Subsets.{subsets};

use crate::accepted::{Board, Simplex, Subsets};
use crate::params::{BoardParams, Generator, SimplexParams, SubsetsParams};
use sgb_graph::Graph;
use sgb_vec::Panic;
use std::alloc::Global;

/// The graph of a board (GB_BASIC, board): its vertices are the vectors of its sizes, with their coordinates as
/// names and in the utility fields x, y, z; an arc, or an edge, for each move of the piece, whose length is the
/// number of steps.
///
/// Refused as `BoardParams` tells. `NoRoom` when out of memory.
pub fn board(
    alloc: Global,
    n1: i64,
    n2: i64,
    n3: i64,
    n4: i64,
    piece: i64,
    wrap: i64,
    directed: bool,
) -> Result<Graph, Panic>
    ensures answer { IsAnswerOf (board (record
        { n1 = n1; n2 = n2; n3 = n3; n4 = n4; piece = piece; wrap = wrap; directed = directed }))
        result }
    ensures refused { (e : Panic) → board (record
        { n1 = n1; n2 = n2; n3 = n3; n4 = n4; piece = piece; wrap = wrap; directed = directed })
        ≡ Err e
        → result ≡ Err e }
{
    BoardParams {
        n1,
        n2,
        n3,
        n4,
        piece,
        wrap,
        directed,
    }
    .graph(alloc)
}

/// The graph of a simplex (GB_BASIC, simplex): its vertices are the vectors of the sum `n` within its bounds, with
/// their coordinates as names and in the utility fields x, y, z; an arc, or an edge, of length 1 to each vertex
/// from each one that it becomes when a unit of a coordinate goes to a later one.
///
/// Refused as `SimplexParams` tells. `NoRoom` when out of memory.
pub fn simplex(
    alloc: Global,
    n: i64,
    n0: i64,
    n1: i64,
    n2: i64,
    n3: i64,
    n4: i64,
    directed: bool,
) -> Result<Graph, Panic>
    ensures answer { IsAnswerOf (simplex (record
        { n = n; n0 = n0; n1 = n1; n2 = n2; n3 = n3; n4 = n4; directed = directed })) result }
    ensures refused { (e : Panic) → simplex_of n n0 n1 n2 n3 n4 ≡ Err e → result ≡ Err e }
{
    SimplexParams {
        n,
        n0,
        n1,
        n2,
        n3,
        n4,
        directed,
    }
    .graph(alloc)
}

/// The graph of subsets (GB_BASIC, subsets): its vertices are the vectors of the sum `n` within the bounds that `n0` to
/// `n4` tell, as multisets of `n` elements, with their entries as names and in the utility fields x, y, z; an arc of
/// length 1, or an edge, from each vertex to each that is not before it, itself too, where bit c of `size_bits` is 1
/// and c is how many elements the two have in common.
///
/// Refused as `SimplexParams` tells. `NoRoom` when out of memory.
pub fn subsets(
    alloc: Global,
    n: i64,
    n0: i64,
    n1: i64,
    n2: i64,
    n3: i64,
    n4: i64,
    size_bits: u128,
    directed: bool,
) -> Result<Graph, Panic>
    ensures answer { IsAnswerOf (subsets (record {
      n = n;
      n0 = n0;
      n1 = n1;
      n2 = n2;
      n3 = n3;
      n4 = n4;
      size_bits = size_bits;
      directed = directed;
    })) result }
    ensures refused { (e : Panic) → simplex_of n n0 n1 n2 n3 n4 ≡ Err e → result ≡ Err e }
{
    SubsetsParams {
        n,
        n0,
        n1,
        n2,
        n3,
        n4,
        size_bits,
        directed,
    }
    .graph(alloc)
}

impl BoardParams {
    /// The graph of the board of these parameters, as `board` returns it (GB_BASIC, board).
    ///
    /// Refused as `BoardParams` tells. `NoRoom` when out of memory.
    pub fn graph(&self, alloc: Global) -> Result<Graph, Panic>
        ensures answer { IsAnswerOf (board self.now) result }
        ensures refused { (e : Panic) → board self.now ≡ Err e → result ≡ Err e }
    {
        Board::from_params(self)?.graph(alloc)
    }
}

impl SimplexParams {
    /// The graph of the simplex of these parameters, as `simplex` returns it (GB_BASIC, simplex).
    ///
    /// Refused as `SimplexParams` tells. `NoRoom` when out of memory.
    pub fn graph(&self, alloc: Global) -> Result<Graph, Panic>
        ensures answer { IsAnswerOf (simplex self.now) result }
        ensures refused { (e : Panic) → simplex_of self.now.n self.now.n0 self.now.n1 self.now.n2
            self.now.n3 self.now.n4 ≡ Err e
            → result ≡ Err e }
    {
        Simplex::from_params(alloc, self)?.graph(alloc)
    }
}

impl SubsetsParams {
    /// The graph of the subsets of these parameters, as `subsets` returns it (GB_BASIC, subsets).
    ///
    /// Refused as `SimplexParams` tells. `NoRoom` when out of memory.
    pub fn graph(&self, alloc: Global) -> Result<Graph, Panic>
        ensures answer { IsAnswerOf (subsets self.now) result }
        ensures refused { (e : Panic) → simplex_of self.now.n self.now.n0 self.now.n1 self.now.n2
            self.now.n3 self.now.n4 ≡ Err e
            → result ≡ Err e }
    {
        Subsets::from_params(alloc, self)?.graph(alloc)
    }
}

impl Generator {
    /// The graph of these parameters, as their generator returns it.
    ///
    /// Its refusal, whatever memory there is where that needs none; `NoRoom` when out of memory.
    pub fn graph(&self, alloc: Global) -> Result<Graph, Panic>
        ensures answer { IsAnswerOf (generator_value self.now) result }
        ensures refused { (p : Panic) → IsGeneratorRefused self.now p → result ≡ Err p }
    {
        match self {
            Generator::Board(params) => params.graph(alloc),
            Generator::Simplex(params) => params.graph(alloc),
            Generator::Subsets(params) => params.graph(alloc),
        }
    }
}
