//! The arcs of a board's vector by the edges of one displacement whose first side wraps around.
//!
//! Where the moves go around that side once at most, the vectors behind fall as the lengths rise, but where they go around:
//! first come those before the vector itself, and then those after it. So the starts are in order with no sort, and no move
//! is made twice.
ghost use Rattle.std.specs.Prelude.{◌≡◌, ◌++◌, ◌+◌, ◌-◌, ◌<◌, ◌≤◌, false, get_or, length, map, pos, reverse};
ghost use Rattle.std.specs.Bool.{OnTrue, OnFalse};
ghost use Rattle.std.specs.List.{range_with_len};
ghost use Rattle.sgb_vec.specs.Boxes.{box};
ghost use Rattle.sgb_vec.specs.Lexicographic.{IsBelow};
ghost use Rattle.sgb_moves.specs.MovedCoordinates.{parts_of};
ghost use Rattle.sgb_moves.specs.Moves.{opposite, sides_of};
ghost use Rattle.sgb_gen.specs.Spans.{arc_along};
ghost use Rattle.sgb_gen.specs.inner.Spans.{arcs_along};
ghost use Rattle.sgb_gen.specs.inner.LocalBoards.{arcs_onward, moves_by};
ghost use Rattle.sgb_gen.specs.inner.StraightLists.{GoesAroundOnce, IsInOrder, arcs_back, arcs_from};

use super::Board;
use super::counts::first_stop;
use sgb_moves::{Step, leads_onward, times_within};

impl Board {
    // Whether the arcs of a vector by the edges of `t` are had in order with no sort, where so many moves lead back from it:
    // where there are arcs alone, or `t` leads onward, or those moves go around a side once at most.
    pub(super) fn is_in_order(&self, t: &Step, behind: u32) -> bool
        requires dimensions { length t.now ≡ length self.now.sizes }
        ensures order { OnTrue result (IsInOrder self.now t.now behind) }
        ensures edges { OnFalse result (self.now.directed ≡ false) }
    {
        if self.directed {
            return true;
        }
        if leads_onward(self.wrap, t) {
            return true;
        }
        self.goes_around_once(t, behind)
    }

    // Whether so many steps ahead by `t` lead around the first side that it moves on once at most. `false` where `t` leads
    // back on it.
    pub(super) fn goes_around_once(&self, t: &Step, steps: u32) -> bool
        requires dimensions { length t.now ≡ length self.now.sizes }
        ensures { OnTrue result (0 < length (parts_of t.now)
            × GoesAroundOnce self.now.sizes (get_or (parts_of t.now) 0 (0, pos 0)) steps) }
    {
        let parts = t.parts();
        if parts.is_empty() {
            return false;
        }
        let (k, entry) = parts[0];
        entry > 0 && u64::from(steps) * u64::from(entry.unsigned_abs()) < u64::from(self.sizes()[k])
    }

    // How many lengths edges lead back from `x`: none where there are arcs alone.
    pub(super) fn lengths_back(&self, x: &[u32], back: &Step) -> u32
        requires below { IsBelow x.now self.now.sizes }
        requires dimensions { length back.now ≡ length self.now.sizes }
        ensures { arcs_back self.now x.now back.now ≡ arcs_along self.now.sizes self.now.wrap x.now
            (parts_of back.now) result }
    {
        if self.directed {
            return 0;
        }
        self.lengths_by(x, back)
    }

    // How many of so many moves back from `x` lead to vectors before it: the shortest. The others lead around, to those after
    // it.
    pub(super) fn lengths_near(&self, x: &[u32], t: &Step, behind: u32) -> u32
        requires below { IsBelow x.now self.now.sizes }
        requires dimensions { length t.now ≡ length self.now.sizes }
        requires sorted { IsInOrder self.now t.now behind }
        requires behind { arcs_back self.now x.now (opposite t.now) ≡ arcs_along self.now.sizes
            self.now.wrap x.now (parts_of (opposite t.now)) behind }
        ensures within { result ≤ behind }
        ensures order { reverse (arcs_onward self.now.directed x.now
            (moves_by (sides_of self.now.sizes self.now.wrap) self.now.piece (box self.now.sizes)
            t.now))
            ≡ (map (arc_along self.now.sizes self.now.wrap x.now (parts_of (opposite t.now)))
            (range_with_len (result + 1) (behind - result))
            ++ reverse (arcs_from self.now x.now t.now))
            ++ arcs_along self.now.sizes self.now.wrap x.now (parts_of (opposite t.now)) result }
    {
        if self.directed {
            return behind;
        }
        if leads_onward(self.wrap, t) {
            return behind;
        }
        self.lengths_before(x, t, behind)
    }

    // The same where edges lead back around a side, once at most.
    fn lengths_before(&self, x: &[u32], t: &Step, behind: u32) -> u32
        requires below { IsBelow x.now self.now.sizes }
        requires dimensions { length t.now ≡ length self.now.sizes }
        requires some { 0 < length (parts_of t.now) }
        requires once { GoesAroundOnce self.now.sizes (get_or (parts_of t.now) 0 (0, pos 0))
            behind }
        requires behind { arcs_from self.now x.now (opposite t.now) ≡ arcs_along self.now.sizes
            self.now.wrap x.now (parts_of (opposite t.now)) behind }
        ensures within { result ≤ behind }
        ensures order { reverse (arcs_onward false x.now
            (moves_by (sides_of self.now.sizes self.now.wrap) self.now.piece (box self.now.sizes)
            t.now))
            ≡ (map (arc_along self.now.sizes self.now.wrap x.now (parts_of (opposite t.now)))
            (range_with_len (result + 1) (behind - result))
            ++ reverse (arcs_from self.now x.now t.now))
            ++ arcs_along self.now.sizes self.now.wrap x.now (parts_of (opposite t.now)) result }
    {
        let (k, entry) = t.parts()[0];
        times_within(x[k], entry.unsigned_abs(), behind)
    }

    // How many lengths the piece moves from `x` by `t`.
    pub(super) fn lengths_by(&self, x: &[u32], t: &Step) -> u32
        requires below { IsBelow x.now self.now.sizes }
        requires dimensions { length t.now ≡ length self.now.sizes }
        ensures { arcs_from self.now x.now t.now ≡ arcs_along self.now.sizes self.now.wrap x.now
            (parts_of t.now) result }
    {
        if self.piece > 0 {
            return self.farthest(x, t, false);
        }
        let entries = t.entries();
        if first_stop(self.wrap, entries, 0) == entries.len() {
            return self.lengths_around(entries);
        }
        self.farthest(x, t, false)
    }
}
