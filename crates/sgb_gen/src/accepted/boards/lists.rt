//! The list of one vector of a board.
//!
//! Of the moves by one displacement some start at the vector, and others lead to it; these are found by the opposite
//! displacement. Where they come in order with no sort they are handed out as they are found (`give_by`); else their starts are
//! sorted (`give_sorted`). The displacements are walked over from the last on.
ghost use Rattle.std.specs.Prelude.{◌≡◌, [], length, None, Some, Contains, OnOk, OnErr, IsOkUnless};
ghost use Rattle.std.specs.Bool.{OnTrue, OnFalse};
ghost use Rattle.sgb_vec.specs.Boxes.{box};
ghost use Rattle.sgb_vec.specs.Lexicographic.{IsBelow};
ghost use Rattle.sgb_gen.specs.Boards.{moves_of_board};
ghost use Rattle.sgb_gen.specs.LocalLists.{list_at};
ghost use Rattle.sgb_moves.specs.Moves.{sides_of};
ghost use Rattle.sgb_moves.specs.inner.Moves.{destination};
// For the search alone.
ghost use Rattle.std.specs.Prelude.{◌<◌, ◌≤◌, ◌==◌};

use super::{Board, BoardLists};
use crate::links::Links;
use sgb_moves::{Step, destination};
use sgb_vec::{Panic, Vector};

impl Board {
    /// Puts the arcs of the vertex of `x` into `links`, in the order of its list in the board's graph: from the
    /// vector alone, by undoing displacements (GB_BASIC, board). What `links` held before is dropped.
    ///
    /// `x` is a vector of the board. `NoRoom` when out of memory, and nothing else; the links are then empty.
    pub fn arcs_at(&self, x: &[u32], links: &mut Links) -> Result<(), Panic>
        requires { Contains (box self.now.sizes) x.now }
        ensures ok { OnOk result (links.new.arcs
            ≡ list_at self.now.directed (box self.now.sizes) (moves_of_board self.now) x.now) }
        ensures err { OnErr result (links.new.arcs ≡ []) }
        ensures memory { IsOkUnless result Panic.NoRoom }
    {
        BoardLists::new(self).arcs_at(x, links)
    }

    // Puts the vector where the piece moves from `x` by the displacement `t` at length `l` into `there`, if it moves there.
    pub(super) fn lands(&self, x: &[u32], t: &Step, l: u32, there: &mut Vector) -> bool
        requires below { IsBelow x.now self.now.sizes }
        requires dimensions { length t.now ≡ length self.now.sizes }
        ensures leads { OnTrue result (destination (sides_of self.now.sizes self.now.wrap)
            self.now.piece x.now t.now l ≡ Some there.new.items) }
        ensures nowhere { OnFalse result
            (destination (sides_of self.now.sizes self.now.wrap) self.now.piece x.now t.now l
            ≡ None) }
    {
        destination(self.sizes(), self.wrap, self.piece, x, t, l, there)
    }
}
