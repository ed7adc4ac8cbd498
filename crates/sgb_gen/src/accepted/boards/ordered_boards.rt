//! A board whose arcs are handed out in order: no list is kept, and no memory is wanted after the start.
//!
//! Where the arcs by a displacement want a sort, their starts are found a range at a time, in room for one of them at least.
ghost use Rattle.std.specs.Prelude.{◌≡◌, length, Contains, IfOk, IsOkUnless, OnOk};
ghost use Rattle.sgb_vec.specs.Boxes.{box};
ghost use Rattle.sgb_gen.specs.ArcSinks.{AreGiven};
ghost use Rattle.sgb_gen.specs.Boards.{moves_of_board};
ghost use Rattle.sgb_gen.specs.LocalLists.{list_at};

use super::{Board, BoardLists};
use crate::arc_sinks::ArcSink;
use crate::links::Links;
use sgb_moves::Starts;
use sgb_vec::Panic;
use std::marker::Model;

/// A board whose arcs are handed out in order, with no list kept (GB_BASIC, board). Contracts see it as its board.
#[derive(Drop)]
pub struct OrderedBoard<'a> {
    pub(crate) lists: BoardLists<'a>,
    // Room for starts that are sorted.
    starts: Starts,
}

impl<'a> Model for OrderedBoard<'a> {
    ghost use Rattle.sgb_gen.specs.Boards.{BoardData};

    ghost Value = { BoardData };

    ghost view = { λ b. b.lists };
}

impl Board {
    /// The board, ready to hand out the arcs of its vertices one by one, with no list kept. There is no table of its displacements
    /// yet (`prepare` of `Listed`), so that it takes no time.
    ///
    /// `NoRoom` when out of memory for one start, and nothing else. The memory is from where that of the links comes.
    pub fn in_order(&self, links: &Links) -> Result<OrderedBoard<'_>, Panic>
        ensures board { IfOk result (λ b. b ≡ self.now) }
        ensures memory { IsOkUnless result Panic.NoRoom }
    {
        let starts = Starts::new(Vec::new(links.alloc()))?;
        let lists = BoardLists::new(self);
        Ok(OrderedBoard { lists, starts })
    }
}

impl<'a> OrderedBoard<'a> {
    /// Hands the arcs of the vertex of `x`, which is a vector of the board, to a sink one by one. No memory is taken but by the
    /// sink.
    pub(crate) fn give<K: ArcSink<R, S>, R, S>(
        &mut self,
        x: &[u32],
        sink: &K,
        room: &mut R,
        out: &mut S,
    ) -> Result<(), K::Fault>
        requires member { Contains (box self.old.sizes) x.now }
        requires at { K.at sink.now (box self.old.sizes) x.now }
        requires width { K.width sink.now ≡ length x.now }
        requires ready { K.ready sink.now room.old out.old }
        ensures given { AreGiven (K.took sink.now) (K.cut sink.now) room.old out.old
            (list_at self.old.directed (box self.old.sizes) (moves_of_board self.old) x.now)
            room.new out.new result }
        ensures ready { OnOk result (K.ready sink.now room.new out.new) }
        ensures same { self.new ≡ self.old }
    {
        self.lists.give(x, &mut self.starts, sink, room, out)
    }
}
