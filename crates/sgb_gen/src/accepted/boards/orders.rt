//! Whether the arcs of a board's vectors are had in order with no sort, by each displacement: it is asked once, before the
//! first list.
//!
//! What a yes means is proved, and not when it comes. A rider whose moves go around a side twice has none, nor a leaper
//! that goes once around a side at one step.
ghost use Rattle.std.specs.Prelude.{◌≡◌, ◌<◌, ◌≤◌, ℕ, List, length, true, All, IfSome};
ghost use Rattle.std.specs.Bool.{OnTrue};
ghost use Rattle.sgb_vec.specs.Lexicographic.{IsBelow};
ghost use Rattle.sgb_moves.specs.Moves.{opposite};
ghost use Rattle.sgb_gen.specs.inner.BoardCounts.{stops_at};
ghost use Rattle.sgb_gen.specs.inner.StraightLists.{NeedsNoSort, arcs_from};

use super::Board;
use super::counts::{first_stop, lengths_along};
use crate::displacement_tables::DisplacementTable;
use sgb_moves::Step;
use sgb_vec::Family;

impl Board {
    /// Whether the arcs by each displacement in this table are had in order with no sort.
    pub(super) fn is_in_order_by(&self, table: &Option<DisplacementTable>) -> bool
        requires { IfSome table.now (All (λ t. length t ≡ length self.now.sizes)) }
        ensures { OnTrue result (IfSome table.now (All (NeedsNoSort self.now))) }
    {
        match table {
            Some(table) => self.all_in_order(table),
            None => false,
        }
    }

    // Whether those by each of these displacements are.
    fn all_in_order(&self, table: &DisplacementTable) -> bool
        requires { All (λ t. length t ≡ length self.now.sizes) table.now }
        ensures { OnTrue result (All (NeedsNoSort self.now) table.now) }
    {
        for k in 0..table.len() {
            let pair = table.at(k);
            if !self.needs_no_sort(&pair.ahead(), &pair.back()) {
                return false;
            }
        }
        true
    }

    // Whether the arcs by the edges of this displacement are had in order with no sort, from each vector: where there are arcs
    // alone, or it leads onward, or the moves back go around a side once at most.
    fn needs_no_sort(&self, t: &Step, back: &Step) -> bool
        requires dimensions { length t.now ≡ length self.now.sizes }
        requires back { back.now ≡ opposite t.now }
        ensures { OnTrue result (NeedsNoSort self.now t.now) }
    {
        self.is_in_order(t, self.most_lengths(back))
    }

    // A number of lengths that the piece moves by `t` at most, from each vector.
    fn most_lengths(&self, t: &Step) -> u32
        requires dimensions { length t.now ≡ length self.now.sizes }
        ensures { (x : List ℕ) → IsBelow x self.now.sizes
            → length (arcs_from self.now x t.now) ≤ result }
    {
        if self.piece > 0 {
            return self.longest_move();
        }
        if self.family.size() == 0 {
            return 0;
        }
        let entries = t.entries();
        let stop = first_stop(self.wrap, entries, 0);
        if stop == entries.len() {
            return self.lengths_around(entries);
        }
        self.most_along(entries, stop)
    }

    // The same by a displacement that side number `k` stops.
    fn most_along(&self, t: &[i32], k: usize) -> u32
        requires dimensions { length t.now ≡ length self.now.sizes }
        requires entry { k < length t.now }
        requires stop { stops_at self.now.wrap t.now k ≡ true }
        ensures { (x : List ℕ) → IsBelow x self.now.sizes
            → length (arcs_from self.now x t.now) ≤ result }
    {
        let size = self.sizes()[k];
        if size == 0 {
            return 0;
        }
        lengths_along(size, t[k].unsigned_abs())
    }
}
