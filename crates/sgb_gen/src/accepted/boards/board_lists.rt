//! The lists of a board's vertices, one after another.
//!
//! They have their displacements in common, with their opposites. Where these are too many for a table, or there is no
//! memory, they are walked over for each vertex, from the last on. A body that built the whole graph would meet the
//! contracts, which do not speak of room; the checks from outside see it (`great`).
ghost use Rattle.std.specs.Prelude.{◌≡◌, [], length, nat_abs, All, Contains, IfErr, IfOk, IfSome, OnOk, OnErr, IsOkUnless};
ghost use Rattle.sgb_vec.specs.Boxes.{box};
ghost use Rattle.sgb_gen.specs.ArcSinks.{AreGiven};
ghost use Rattle.sgb_gen.specs.Boards.{moves_of_board};
ghost use Rattle.sgb_gen.specs.LocalLists.{list_at};
ghost use Rattle.sgb_moves.specs.Moves.{sides_of};
ghost use Rattle.sgb_moves.specs.inner.EntryBounds.{displacements_within, entry_bounds};

use super::Board;
use super::runs::{have_runs, lead_onward, widest_of};
use super::strides::{have_strides, kept_strides, strides_of};
use crate::arc_sinks::ArcSink;
use crate::displacement_tables::DisplacementTable;
use crate::kept_arcs::KeptArcs;
use crate::links::Links;
use sgb_moves::Starts;
use sgb_vec::{Family, Panic};
use std::alloc::Global;
use std::marker::Model;

/// The lists of a board's vertices, one after another: what they have in common is found once (GB_BASIC, board).
/// Contracts see it as its board.
#[derive(Drop)]
pub struct BoardLists<'a> {
    pub(crate) board: &'a Board,
    // The displacements by which the piece can move, where they are few.
    pub(super) table: Option<DisplacementTable>,
    // Whether all of these lead to later vectors.
    pub(super) straight: bool,
    // Whether the piece is a leaper, and all of these lead to later vectors from where no side is near.
    pub(super) leaping: bool,
    // Whether the arcs by each of these are had in order with no sort.
    in_order: bool,
    // No entry of theirs is greater.
    pub(super) widest: u32,
    // How many places each of these leads on, where no side is crossed that wraps around.
    pub(super) strides: Option<Vec<u32>>,
}

impl<'a> Model for BoardLists<'a> {
    ghost use Rattle.std.specs.Prelude.{◌≡◌, ◌≤◌, map, nat_abs, pos, All, IfSome};
    ghost use Rattle.std.specs.Bool.{OnTrue};
    ghost use Rattle.sgb_gen.specs.inner.StraightLists.{AreOnward, IsLeaper, NeedsNoSort};
    ghost use Rattle.sgb_gen.specs.Boards.{BoardData};
    ghost use Rattle.sgb_moves.specs.Moves.{sides_of};
    ghost use Rattle.sgb_moves.specs.inner.EntryBounds.{displacements_within, entry_bounds};
    ghost use Rattle.sgb_gen.specs.inner.Strides.{stride_of};

    ghost Value = { BoardData };

    ghost view = { λ b. b.board.now };

    ghost invariant = { λ b. IfSome b.table (λ d. d
        ≡ displacements_within (nat_abs b.board.now.piece)
        (entry_bounds (nat_abs b.board.now.piece) (sides_of b.board.now.sizes b.board.now.wrap)))
        × OnTrue b.straight (IfSome b.table (AreOnward b.board.now.wrap))
        × IfSome b.table (All (All (λ e. nat_abs e ≤ b.widest)))
        × OnTrue b.leaping (IsLeaper b.board.now)
        × OnTrue b.leaping (IfSome b.table (AreOnward (pos 0)))
        × IfSome b.strides (λ s. IfSome b.table (λ d. map pos s.items
        ≡ map (stride_of b.board.now.sizes) d))
        × OnTrue b.in_order (IfSome b.table (All (NeedsNoSort b.board.now))) };
}

impl Board {
    /// The board, ready to list its vertices one after another, which is faster than `arcs_at` for each of them. A small
    /// table is kept in memory from where that of the links comes; where it would be large, or there is no memory, the
    /// lists are made with none.
    pub fn lists(&self, links: &Links) -> BoardLists<'_>
        ensures { result ≡ self.now }
    {
        let mut lists = BoardLists::new(self);
        lists.prepare(links);
        lists
    }

    // The displacements by which the piece can move. `None` where they are too many for a table, or out of memory.
    pub(super) fn kept_displacements(&self, alloc: Global) -> Option<DisplacementTable>
        ensures all { IfSome result (λ d. d ≡ displacements_within (nat_abs self.now.piece)
            (entry_bounds (nat_abs self.now.piece) (sides_of self.now.sizes self.now.wrap))) }
        ensures dimensions { IfSome result (All (λ t. length t ≡ length self.now.sizes)) }
    {
        let most = DisplacementTable::most(self.family.dims());
        DisplacementTable::new(alloc, most, self.displacements())
    }
}

impl<'a> BoardLists<'a> {
    /// The board, to list its vertices one after another, with no table of its displacements yet: without one each list is
    /// made by a walk over them. No memory is taken.
    pub fn new(board: &'a Board) -> BoardLists<'a>
        ensures { result ≡ board.now }
    {
        BoardLists {
            board,
            table: None,
            straight: false,
            leaping: false,
            in_order: false,
            widest: 0,
            strides: None,
        }
    }

    /// Makes the table that is kept, once before the first list: the lists are then made faster. It takes memory from where
    /// that of the links comes; where it would be large, or there is no memory, there is none.
    pub fn prepare(&mut self, links: &Links)
        ensures { self.new ≡ self.old }
    {
        let board = self.board;
        let table = board.kept_displacements(links.alloc());
        self.straight = lead_onward(board.wrap, &table);
        self.leaping = board.is_leaping(&table);
        self.in_order = board.is_in_order_by(&table);
        self.widest = widest_of(&table);
        self.strides = strides_of(links.alloc(), board.sizes(), &table);
        self.table = table;
    }

    /// Puts the arcs of the vertex of `x` into `links`, in the order of its list in the board's graph: from the
    /// vector alone, by undoing displacements (GB_BASIC, board). What `links` held before is dropped.
    ///
    /// `x` is a vector of the board. `NoRoom` when out of memory, and nothing else; the links are then empty.
    pub fn arcs_at(&mut self, x: &[u32], links: &mut Links) -> Result<(), Panic>
        requires { Contains (box self.old.sizes) x.now }
        ensures ok { OnOk result (links.new.arcs
            ≡ list_at self.old.directed (box self.old.sizes) (moves_of_board self.old) x.now) }
        ensures err { OnErr result (links.new.arcs ≡ []) }
        ensures memory { IsOkUnless result Panic.NoRoom }
        ensures same { self.new ≡ self.old }
    {
        links.clear(x.len());
        let mut starts = links.take_starts()?;
        let put = self.give(x, &mut starts, &KeptArcs::of(x.len()), links, &mut ());
        links.keep_starts(starts);
        links.ended(put)
    }

    /// Hands the arcs of the vertex of `x`, which is a vector of the board, to a sink one by one. `starts` is what they are found
    /// with: what it holds does not count. No memory is wanted but by the sink.
    pub(crate) fn give<K: ArcSink<R, S>, R, S>(
        &self,
        x: &[u32],
        starts: &mut Starts,
        sink: &K,
        room: &mut R,
        out: &mut S,
    ) -> Result<(), K::Fault>
        requires member { Contains (box self.now.sizes) x.now }
        requires at { K.at sink.now (box self.now.sizes) x.now }
        requires width { K.width sink.now ≡ length x.now }
        requires ready { K.ready sink.now room.old out.old }
        ensures given { AreGiven (K.took sink.now) (K.cut sink.now) room.old out.old
            (list_at self.now.directed (box self.now.sizes) (moves_of_board self.now) x.now)
            room.new out.new result }
        ensures ready { OnOk result (K.ready sink.now room.new out.new) }
    {
        let board = self.board;
        match &self.table {
            Some(table) => {
                let near = board.is_inside(x, self.widest);
                if have_runs(self.straight, self.leaping, near) {
                    let flat = have_strides(self.straight, board.is_flat(), self.leaping, near);
                    let strides = kept_strides(&self.strides, flat);
                    return board.give_runs(x, table, strides, near, sink, room, out);
                }
                board.give_kept(x, table, self.in_order, starts, sink, room, out)
            }
            None => board.give_walked(x, starts, sink, room, out),
        }
    }

    /// The same, with room for starts from links, whose arcs stay.
    ///
    /// The sink's fault, inside; or `NoRoom` when out of memory for a start, and nothing else: the sink was then handed nothing.
    pub(crate) fn give_with<K: ArcSink<R, S>, R, S>(
        &self,
        x: &[u32],
        links: &mut Links,
        sink: &K,
        room: &mut R,
        out: &mut S,
    ) -> Result<Result<(), K::Fault>, Panic>
        requires member { Contains (box self.now.sizes) x.now }
        requires at { K.at sink.now (box self.now.sizes) x.now }
        requires width { K.width sink.now ≡ length x.now }
        requires ready { K.ready sink.now room.old out.old }
        ensures given { IfOk result (AreGiven (K.took sink.now) (K.cut sink.now) room.old out.old
            (list_at self.now.directed (box self.now.sizes) (moves_of_board self.now) x.now)
            room.new out.new) }
        ensures ready { IfOk result (λ r. OnOk r (K.ready sink.now room.new out.new)) }
        ensures memory { IsOkUnless result Panic.NoRoom }
        ensures unput { IfErr result (λ p. (room.new ≡ room.old) × (out.new ≡ out.old)) }
    {
        let mut starts = links.take_starts()?;
        let given = self.give(x, &mut starts, sink, room, out);
        links.keep_starts(starts);
        Ok(given)
    }
}
