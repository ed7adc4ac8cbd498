//! The accepted parameters of a generator: what is known of its graph without the graph.
ghost use Rattle.std.specs.Prelude.{◌≡◌, ◌≢◌, ◌≤◌, length, map, Err, Ok, IfErr, IfOk, IsOkUnless};
ghost use Rattle.sgb_graph.specs.Descriptions.{IsAnswerOf};
ghost use Rattle.sgb_gen.specs.Generators.{IsAcceptedAtOnce, IsGeneratorRefused, IsLocalOf, described, generator_value, sort_made, sort_of, vector_graph_of, vectors_of};
ghost use Rattle.sgb_vec.specs.Limits.{most_vertices};
ghost use Rattle.sgb_vec.specs.Names.{name_of_vector};
ghost use Rattle.sgb_graph.specs.Made.{graph_described};
ghost use Rattle.sgb_gen.specs.Boards.{BoardData, accepted_board};
ghost use Rattle.sgb_gen.specs.Simplexes.{SimplexData, accepted_simplex};
ghost use Rattle.sgb_gen.specs.declared.params.BoardParams.{BoardParams};
ghost use Rattle.sgb_gen.specs.declared.params.SimplexParams.{SimplexParams};

use crate::accepted::{Board, Simplex, Subsets};
use crate::links::Links;
use crate::params::Generator;
use sgb_graph::{Graph, Id, Kind, Names};
use sgb_vec::{Family, Panic};
use std::alloc::Global;

/// The accepted parameters of a generator: its vertices are known without its graph.
#[derive(Drop)]
pub enum Local {
    Board(Board),
    Simplex(Simplex),
    Subsets(Subsets),
}

/// The accepted parameters of a generator.
///
/// The generator's refusal, or `NoRoom` when out of memory: never of a board, and never of a sum of one bound.
pub fn local_of(alloc: Global, generator: &Generator) -> Result<Local, Panic>
    ensures value { IsLocalOf (generator_value generator.now) result }
    ensures sort { IfOk result (λ l. sort_of l ≡ sort_made generator.now) }
    ensures refused { (p : Panic) → IsGeneratorRefused generator.now p → result ≡ Err p }
    ensures board { (p : BoardParams) (b : BoardData) → generator.now ≡ Generator.Board p
        → accepted_board p ≡ Ok b → result ≡ Ok (Local.Board b) }
    ensures simplex { (p : SimplexParams) → generator.now ≡ Generator.Simplex p
        → IfOk result (λ l. (s : SimplexData) × (accepted_simplex p ≡ Ok s) × (l ≡ Local.Simplex s)) }
    ensures certain { IsAcceptedAtOnce generator.now → IfErr result (λ p. p ≢ Panic.NoRoom) }
{
    match generator {
        Generator::Board(params) => {
            let board = Board::from_params(params)?;
            Ok(Local::Board(board))
        }
        Generator::Simplex(params) => {
            let simplex = Simplex::from_params(alloc, params)?;
            Ok(Local::Simplex(simplex))
        }
        Generator::Subsets(params) => {
            let subsets = Subsets::from_params(alloc, params)?;
            Ok(Local::Subsets(subsets))
        }
    }
}

impl Local {
    /// How many vertices the graph has. No memory is taken.
    pub fn size(&self) -> u32
        ensures { result ≡ length (graph_described (described self.now)).vertices }
    {
        match self {
            Local::Board(board) => board.family().size(),
            Local::Simplex(simplex) => simplex.family().size(),
            Local::Subsets(subsets) => subsets.family().size(),
        }
    }

    /// How many arcs the graph has, where an edge counts as two. They are counted without the graph.
    ///
    /// `NoRoom` when out of memory, and nothing else.
    pub fn arcs_count(&self, alloc: Global) -> Result<u128, Panic>
        ensures count { IfOk result (λ m. m ≡ (graph_described (described self.now)).m) }
        ensures memory { IsOkUnless result Panic.NoRoom }
    {
        match self {
            Local::Board(board) => board.arcs_count(),
            Local::Simplex(simplex) => simplex.arcs_count(&Links::new(alloc)),
            Local::Subsets(subsets) => Ok(subsets.arcs_count(alloc)),
        }
    }

    /// The id of the graph. No memory is taken.
    pub fn id(&self) -> Id
        ensures { result ≡ (graph_described (described self.now)).id }
    {
        match self {
            Local::Board(board) => board.id(),
            Local::Simplex(simplex) => simplex.id(),
            Local::Subsets(subsets) => subsets.id(),
        }
    }

    /// What the utility fields of the graph hold (GB_GRAPH, util_types): those of its vertices x, y and z integers, if there is
    /// a vertex. No memory is taken.
    pub fn kinds(&self) -> [Kind; 14]
        ensures { result ≡ (graph_described (described self.now)).kinds }
    {
        if self.size() == 0 {
            return [Kind::Z; 14];
        }
        let mut kinds = [Kind::Z; 14];
        kinds[3] = Kind::I;
        kinds[4] = Kind::I;
        kinds[5] = Kind::I;
        kinds
    }

    /// Whether the graph has arcs, and not edges. No memory is taken.
    pub fn is_directed(&self) -> bool
        ensures { result ≡ (vector_graph_of self.now).directed }
    {
        match self {
            Local::Board(board) => board.is_directed(),
            Local::Simplex(simplex) => simplex.is_directed(),
            Local::Subsets(subsets) => subsets.is_directed(),
        }
    }

    /// The names of its vertices, in order.
    ///
    /// `NoRoom` when out of memory, and nothing else.
    pub(crate) fn names(&self, alloc: Global) -> Result<Names, Panic>
        ensures ok { IfOk result (λ names. names ≡ map name_of_vector (vectors_of self.now)) }
        ensures few { length (vectors_of self.now) ≤ most_vertices }
        ensures memory { IsOkUnless result Panic.NoRoom }
    {
        match self {
            Local::Board(board) => board.names(alloc),
            Local::Simplex(simplex) => simplex.names(alloc),
            Local::Subsets(subsets) => subsets.names(alloc),
        }
    }

    /// The graph, with its arcs (GB_BASIC).
    ///
    /// `NoRoom` when out of memory, and nothing else.
    pub fn graph(&self, alloc: Global) -> Result<Graph, Panic>
        ensures { IsAnswerOf (Ok (described self.now)) result }
    {
        match self {
            Local::Board(board) => board.graph(alloc),
            Local::Simplex(simplex) => simplex.graph(alloc),
            Local::Subsets(subsets) => subsets.graph(alloc),
        }
    }
}
