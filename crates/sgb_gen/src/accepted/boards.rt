ghost use Rattle.std.specs.Prelude.{◌≡◌, ◌<◌, ◌≤◌, All, nat_abs, IfOk, length, map, option_map, slice_get, Some, Ok, IfSome, OnOk, IsOkUnless};
ghost use Rattle.sgb_gen.specs.Boards.{accepted_board, board_id, piece_of, board_vector_graph, moves_of_board};
ghost use Rattle.sgb_moves.specs.Limits.{most_piece};
ghost use Rattle.std.specs.List.{flat_map};
ghost use Rattle.sgb_vec.specs.Boxes.{box};
ghost use Rattle.sgb_vec.specs.Limits.{most_vertices};
ghost use Rattle.sgb_vec.specs.Names.{name_of_vector};
ghost use Rattle.sgb_vec.specs.Lexicographic.{IsBelow};
ghost use Rattle.sgb_graph.specs.Descriptions.{IsAnswerOf};
ghost use Rattle.sgb_graph.specs.Growth.{AddsEvents, HasPlainArcs};
ghost use Rattle.sgb_graph.specs.Made.{graph_described};
ghost use Rattle.sgb_gen.specs.VectorGraphs.{described_by, event_among, vertex_among};
ghost use Rattle.sgb_gen.specs.inner.StridedMoves.{LeadsOn};
ghost use Rattle.sgb_moves.specs.Moves.{sides_of, moves_from};
ghost use Rattle.sgb_moves.specs.inner.EntryBounds.{displacements_within, entry_bounds};
ghost use Rattle.sgb_moves.specs.inner.Moves.{destination, longest_move};

mod board_lists;
mod counts;
mod edges;
mod given;
mod lists;
mod ordered_boards;
mod orders;
mod runs;
mod strided_moves;
mod strides;
mod turns;

use crate::displacement_tables::DisplacementTable;
use crate::params::BoardParams;
use crate::vector_graphs::{put_coordinates, vector_names};
pub use board_lists::BoardLists;
pub use ordered_boards::OrderedBoard;
use sgb_graph::{Graph, Id, IdWriter, Names};
use sgb_moves::{FallingDisplacements, Step, entry_bounds};
use sgb_vec::{BoxFamily, Family, Panic, Shape, Vector, Vectors, board_sizes};
use std::alloc::Global;
use std::marker::Model;

// The piece of a board is at most this number, and at least its negative.
const MOST_PIECE: u64 = 2_147_483_647;

/// The parameters of a board that is accepted (GB_BASIC, board): its sizes, its piece, which is not 0, which of
/// its sides wrap around, and whether its graph is directed.
#[derive(Drop)]
pub struct Board {
    shape: Shape,
    family: BoxFamily,
    piece: i64,
    wrap: i64,
    directed: bool,
}

impl Model for Board {
    ghost use Rattle.std.specs.Prelude.{◌≡◌};
    ghost use Rattle.sgb_gen.specs.Boards.{BoardData};
    ghost use Rattle.sgb_gen.specs.inner.Boards.{IsAccepted};

    ghost Value = { BoardData };

    ghost view = { λ b. record {
      params = b.shape.params;
      sizes = b.family;
      piece = b.piece;
      wrap = b.wrap;
      directed = b.directed;
    } };

    ghost invariant = { λ b. (b.shape.sizes ≡ b.family)
        × IsAccepted b.shape.params b.family b.piece };
}

impl Board {
    /// The board of these parameters (GB_BASIC, board). `n1` to `n4` tell the sizes, `piece` the moves, where 0
    /// stands for 1 and a negative piece rides, and bit k-1 of `wrap` whether coordinate k wraps around.
    ///
    /// Refused as `BoardParams` tells.
    pub fn new(
        n1: i64,
        n2: i64,
        n3: i64,
        n4: i64,
        piece: i64,
        wrap: i64,
        directed: bool,
    ) -> Result<Board, Panic>
        ensures { result ≡ accepted_board
            (record {
              n1 = n1;
              n2 = n2;
              n3 = n3;
              n4 = n4;
              piece = piece;
              wrap = wrap;
              directed = directed;
            }) }
    {
        Board::from_params(&BoardParams {
            n1,
            n2,
            n3,
            n4,
            piece,
            wrap,
            directed,
        })
    }

    /// The board of these parameters (GB_BASIC, board).
    ///
    /// Refused as `BoardParams` tells.
    pub fn from_params(params: &BoardParams) -> Result<Board, Panic>
        ensures { result ≡ accepted_board params.now }
    {
        let shape = board_sizes(params.n1, params.n2, params.n3, params.n4)?;
        let family = BoxFamily::new(shape.sizes())?;
        let piece = piece_of(params.piece)?;
        Ok(Board {
            shape,
            family,
            piece,
            wrap: params.wrap,
            directed: params.directed,
        })
    }

    /// The vectors that are the vertices of the board's graph.
    pub fn family(&self) -> &BoxFamily
        ensures { result.now ≡ self.now.sizes }
    {
        &self.family
    }

    // The sizes of the board.
    #[inline(always)]
    fn sizes(&self) -> &[u32]
        ensures { result.now ≡ self.now.sizes }
    {
        self.shape.sizes()
    }

    /// The names of its vertices, in order.
    ///
    /// `NoRoom` when out of memory, and nothing else.
    pub(crate) fn names(&self, alloc: Global) -> Result<Names, Panic>
        ensures ok { IfOk result (λ names. names ≡ map name_of_vector (box self.now.sizes)) }
        ensures few { length (box self.now.sizes) ≤ most_vertices }
        ensures memory { IsOkUnless result Panic.NoRoom }
    {
        vector_names(alloc, &self.family)
    }

    /// Whether its graph has arcs, and not edges.
    pub fn is_directed(&self) -> bool
        ensures { result ≡ self.now.directed }
    {
        self.directed
    }

    /// The id of the board's graph: `board(n1,n2,n3,n4,piece,wrap,directed)`, with 0 for what stands after the
    /// parameter that ends the sizes, and 1 for a piece of 0 (GB_BASIC, board).
    pub fn id(&self) -> Id
        ensures { result ≡ board_id self.now }
    {
        let mut id = IdWriter::new();
        id.push_text(b"board(");
        id.push_numbers(self.shape.params());
        id.push_numbers(&[self.piece, self.wrap]);
        id.push_flag(self.directed);
        id.push_text(b")");
        id.id()
    }

    // The graph of the board. `NoRoom` when out of memory, and nothing else.
    pub(crate) fn graph(&self, alloc: Global) -> Result<Graph, Panic>
        ensures { IsAnswerOf (Ok (described_by (board_vector_graph self.now))) result }
    {
        let names = vector_names(alloc, &self.family)?;
        let mut graph = Graph::new(alloc, names)?;
        graph.reserve(self.records_count()?)?;
        self.add_arcs(alloc, &mut graph)?;
        put_coordinates(alloc, &mut graph, &self.family)?;
        graph.set_id(self.id());
        Ok(graph)
    }

    // How many arc records the board's graph has. `NoRoom` where no memory holds so many, and nothing else.
    fn records_count(&self) -> Result<usize, Panic>
        ensures count { IfOk result (λ m.
            m ≡ (graph_described (described_by (board_vector_graph self.now))).m) }
        ensures memory { IsOkUnless result Panic.NoRoom }
    {
        let arcs = self.arcs_count()?;
        usize::try_from(arcs).map_err(|_great| Panic::NoRoom)
    }

    // The displacements by which the piece can move on the board, from the last on.
    fn displacements(&self) -> FallingDisplacements
        ensures all { result ≡ displacements_within (nat_abs self.now.piece)
            (entry_bounds (nat_abs self.now.piece) (sides_of self.now.sizes self.now.wrap)) }
        ensures dimensions { All (λ t. length t ≡ length self.now.sizes) result }
        ensures small { All (λ t. All (λ e. nat_abs e ≤ most_piece) t) result }
    {
        let piece = self.piece.unsigned_abs() as u32;
        let bounds = entry_bounds(self.sizes(), self.wrap, piece);
        FallingDisplacements::new(piece, bounds)
    }

    // The greatest length that a move may have.
    fn longest_move(&self) -> u32
        ensures { result ≡ longest_move (sides_of self.now.sizes self.now.wrap) self.now.piece }
    {
        if self.piece < 0 {
            self.family.size()
        } else {
            1
        }
    }

    // The vertex where the piece moves from `x` by the displacement `t` at length `l`, if it does.
    // `there` is what it is found with: what it holds is open.
    fn vertex_at(&self, x: &[u32], t: &Step, l: u32, there: &mut Vector) -> Option<u32>
        requires below { IsBelow x.now self.now.sizes }
        requires dimensions { length t.now ≡ length self.now.sizes }
        ensures vertex { result ≡ option_map (vertex_among (box self.now.sizes))
            (destination (sides_of self.now.sizes self.now.wrap) self.now.piece x.now t.now l) }
        ensures within { IfSome result (λ v. v < length (box self.now.sizes)) }
    {
        if !self.lands(x, t, l, there) {
            return None;
        }
        Some(self.vertex_of(there.as_slice()))
    }

    // The vertex of `x`.
    fn vertex_of(&self, x: &[u32]) -> u32
        requires { IsBelow x.now self.now.sizes }
        ensures vertex { result ≡ vertex_among (box self.now.sizes) x.now }
        ensures within { result < length (box self.now.sizes) }
    {
        self.family.place_of(x)
    }

    // Adds the moves from vertex `u`, which is the vector `x`, by the displacement `t`.
    fn add_moves(
        &self,
        graph: &mut Graph,
        u: u32,
        x: &[u32],
        t: &Step,
        there: &mut Vector,
    ) -> Result<(), Panic>
        requires vertex { slice_get (box self.now.sizes) u ≡ Some x.now }
        requires dimensions { length t.now ≡ length self.now.sizes }
        requires vertices { length graph.old.vertices ≡ length (box self.now.sizes) }
        requires plain { HasPlainArcs graph.old }
        ensures ok { OnOk result (AddsEvents self.now.directed graph.old graph.new
            (map (event_among (box self.now.sizes))
            (moves_from (sides_of self.now.sizes self.now.wrap) self.now.piece x.now t.now))) }
        ensures memory { IsOkUnless result Panic.NoRoom }
    {
        for shorter in 0..self.longest_move() {
            let Some(v) = self.vertex_at(x, t, shorter + 1, there) else {
                return Ok(());
            };
            graph.add_event(self.directed, u, v, i64::from(shorter + 1))?;
        }
        Ok(())
    }

    // Adds the moves by the displacement `t`, from each vertex in order.
    fn add_moves_by(&self, graph: &mut Graph, t: &Step) -> Result<(), Panic>
        requires dimensions { length t.now ≡ length self.now.sizes }
        requires vertices { length graph.old.vertices ≡ length (box self.now.sizes) }
        requires plain { HasPlainArcs graph.old }
        ensures ok { OnOk result (AddsEvents self.now.directed graph.old graph.new
            (map (event_among (box self.now.sizes))
            (flat_map (λ x. moves_from (sides_of self.now.sizes self.now.wrap) self.now.piece x
            t.now) (box self.now.sizes)))) }
        ensures memory { IsOkUnless result Panic.NoRoom }
    {
        let places = self.places_by(t);
        let mut there = Vector::new();
        let mut left = Vectors::all(&self.family);
        for u in 0..self.family.size() {
            let Some(x) = left.front() else {
                return Ok(());
            };
            self.add_moves_from(graph, u, x, t, places, &mut there)?;
            let _some = left.advance();
        }
        Ok(())
    }

    // Adds those from vertex `u`, which is the vector `x`: by sums, where a unit of length leads so many places on.
    #[inline(always)]
    fn add_moves_from(
        &self,
        graph: &mut Graph,
        u: u32,
        x: &[u32],
        t: &Step,
        places: Option<u32>,
        there: &mut Vector,
    ) -> Result<(), Panic>
        requires vertex { slice_get (box self.now.sizes) u ≡ Some x.now }
        requires dimensions { length t.now ≡ length self.now.sizes }
        requires places { IfSome places (LeadsOn self.now t.now) }
        requires vertices { length graph.old.vertices ≡ length (box self.now.sizes) }
        requires plain { HasPlainArcs graph.old }
        ensures ok { OnOk result (AddsEvents self.now.directed graph.old graph.new
            (map (event_among (box self.now.sizes))
            (moves_from (sides_of self.now.sizes self.now.wrap) self.now.piece x.now t.now))) }
        ensures memory { IsOkUnless result Panic.NoRoom }
    {
        match places {
            Some(places) => self.add_strided_moves(graph, u, x, t, places),
            None => self.add_moves(graph, u, x, t, there),
        }
    }

    // Adds the arcs of the board, or its edges: for each displacement, for each vertex in order.
    fn add_arcs(&self, alloc: Global, graph: &mut Graph) -> Result<(), Panic>
        requires vertices { length graph.old.vertices ≡ length (box self.now.sizes) }
        requires plain { HasPlainArcs graph.old }
        ensures ok { OnOk result (AddsEvents self.now.directed graph.old graph.new
            (map (event_among (box self.now.sizes)) (moves_of_board self.now))) }
        ensures memory { IsOkUnless result Panic.NoRoom }
    {
        let Some(table) = DisplacementTable::new(alloc, usize::MAX, self.displacements()) else {
            return Err(Panic::NoRoom);
        };
        self.add_arcs_by(graph, &table)
    }

    // The same by the displacements in a table.
    fn add_arcs_by(&self, graph: &mut Graph, table: &DisplacementTable) -> Result<(), Panic>
        requires table { table.now ≡ displacements_within (nat_abs self.now.piece)
            (entry_bounds (nat_abs self.now.piece) (sides_of self.now.sizes self.now.wrap)) }
        requires dimensions { All (λ t. length t ≡ length self.now.sizes) table.now }
        requires vertices { length graph.old.vertices ≡ length (box self.now.sizes) }
        requires plain { HasPlainArcs graph.old }
        ensures ok { OnOk result (AddsEvents self.now.directed graph.old graph.new
            (map (event_among (box self.now.sizes)) (moves_of_board self.now))) }
        ensures memory { IsOkUnless result Panic.NoRoom }
    {
        for k in 0..table.len() {
            self.add_moves_by(graph, &table.at(k).ahead())?;
        }
        Ok(())
    }
}

// The piece that the parameter stands for: 1 in the place of 0. `VeryBad` where it is above 2,147,483,647 or below
// its negative.
fn piece_of(piece: i64) -> Result<i64, Panic>
    ensures value { result ≡ piece_of piece }
    ensures some { IfOk result (λ p. 0 < nat_abs p) }
    ensures small { IfOk result (λ p. nat_abs p ≤ most_piece) }
{
    if piece.unsigned_abs() > MOST_PIECE {
        return Err(Panic::VeryBad);
    }
    if piece == 0 {
        return Ok(1);
    }
    Ok(piece)
}
