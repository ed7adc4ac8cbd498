//! The list of a board's vertex where all displacements lead onward from it: by each of them there are so many arcs ahead and
//! so many back, which are two spans.
//!
//! Around a torus a leaper's vertex that no side is near has such runs too: one step leads to the same place whether
//! sides wrap around or not (`place_alike`), and back to an earlier vector. No side is near where each coordinate has
//! as much room on both sides as the greatest entry of a displacement. All moves of length 1 then stay on the board,
//! which is looked at once for the vertex. What a yes of `is_inside` and of `lead_onward` means is proved, and not when
//! it comes.
ghost use Rattle.std.specs.Prelude.{◌≡◌, ◌<◌, ◌≤◌, ◌&&◌, ◌||◌, ℕ, length, map, nat_abs, pos, reverse, slice_get, true, All, Contains, IfNone, IfSome, None, OnOk, Some};
ghost use Rattle.std.specs.Bool.{OnTrue};
ghost use Rattle.sgb_vec.specs.Boxes.{box, product_of};
ghost use Rattle.sgb_vec.specs.Lexicographic.{IsBelow};
ghost use Rattle.sgb_vec.specs.Limits.{most_vertices};
ghost use Rattle.sgb_gen.specs.ArcSinks.{AreGiven};
ghost use Rattle.sgb_gen.specs.Boards.{moves_of_board};
ghost use Rattle.sgb_gen.specs.LocalLists.{list_at};
ghost use Rattle.sgb_moves.specs.MovedCoordinates.{parts_of};
ghost use Rattle.sgb_moves.specs.Moves.{place, sides_of};
ghost use Rattle.sgb_gen.specs.inner.Spans.{arcs_along};
ghost use Rattle.sgb_moves.specs.inner.EntryBounds.{displacements_within, entry_bounds};
ghost use Rattle.sgb_moves.specs.inner.Moves.{destination, longest_move};
ghost use Rattle.sgb_moves.specs.inner.MovedCoordinates.{IsInside, StayAtOne, parts_stay};
ghost use Rattle.sgb_gen.specs.inner.LocalBoards.{arcs_onward, moves_by};
ghost use Rattle.sgb_gen.specs.inner.StraightLists.{AreOnward, IsLeaper, IsRun, arcs_back, arcs_from};
ghost use Rattle.sgb_gen.specs.inner.Strides.{LeadsByStride, stride_of};
// For the search alone.
ghost use Rattle.sgb_moves.specs.Moves.{opposite};

use super::Board;
use crate::arc_sinks::ArcSink;
use crate::displacement_tables::{DisplacementTable, KeptPair};
use sgb_moves::{Step, is_inside, leads_onward, reach_from};

impl Board {
    /// Whether the piece is a leaper, and all displacements in this table lead onward where no side wraps around.
    pub(super) fn is_leaping(&self, table: &Option<DisplacementTable>) -> bool
        ensures leaper { OnTrue result (IsLeaper self.now) }
        ensures onward { OnTrue result (IfSome table.now (AreOnward (pos 0))) }
    {
        match table {
            Some(table) => self.leaps_onward(table),
            None => false,
        }
    }

    /// The same of a table that is there.
    pub(super) fn leaps_onward(&self, table: &DisplacementTable) -> bool
        ensures leaper { OnTrue result (IsLeaper self.now) }
        ensures onward { OnTrue result (AreOnward (pos 0) table.now) }
    {
        if self.piece <= 0 {
            return false;
        }
        all_lead_onward(0, table)
    }

    // Whether each coordinate of `x` has this much room on both sides.
    pub(super) fn is_inside(&self, x: &[u32], room: u32) -> bool
        requires { IsBelow x.now self.now.sizes }
        ensures { OnTrue result (IsInside room self.now.sizes x.now) }
    {
        is_inside(self.sizes(), x, room)
    }

    // How far the moves from `x` by `t` lead, where these never come home.
    #[inline(always)]
    pub(super) fn farthest(&self, x: &[u32], t: &Step, near: bool) -> u32
        requires below { IsBelow x.now self.now.sizes }
        requires dimensions { length t.now ≡ length self.now.sizes }
        requires away { (l : ℕ) → 0 < l
            → destination (sides_of self.now.sizes self.now.wrap) self.now.piece x.now t.now l
            ≡ place (sides_of self.now.sizes self.now.wrap) x.now t.now l }
        requires near { OnTrue near
            (parts_stay self.now.sizes self.now.wrap x.now 1 (parts_of t.now) ≡ true) }
        ensures arcs { arcs_from self.now x.now t.now ≡ arcs_along self.now.sizes self.now.wrap
            x.now (parts_of t.now) result }
        ensures stay { (l : ℕ) → 0 < l → l ≤ result
            → parts_stay self.now.sizes self.now.wrap x.now l (parts_of t.now) ≡ true }
        ensures within { result
            ≤ longest_move (sides_of self.now.sizes self.now.wrap) self.now.piece }
        ensures few { product_of self.now.sizes ≤ most_vertices }
    {
        reach_from(
            near,
            self.sizes(),
            self.wrap,
            x,
            t.parts(),
            self.longest_move(),
        )
    }

    // How far edges lead back: not at all where there are arcs alone.
    #[inline(always)]
    fn farthest_back(&self, x: &[u32], t: &Step, near: bool) -> u32
        requires below { IsBelow x.now self.now.sizes }
        requires dimensions { length t.now ≡ length self.now.sizes }
        requires away { (l : ℕ) → 0 < l
            → destination (sides_of self.now.sizes self.now.wrap) self.now.piece x.now t.now l
            ≡ place (sides_of self.now.sizes self.now.wrap) x.now t.now l }
        requires near { OnTrue near
            (parts_stay self.now.sizes self.now.wrap x.now 1 (parts_of t.now) ≡ true) }
        ensures arcs { arcs_back self.now x.now t.now ≡ arcs_along self.now.sizes self.now.wrap
            x.now (parts_of t.now) result }
        ensures stay { (l : ℕ) → 0 < l → l ≤ result
            → parts_stay self.now.sizes self.now.wrap x.now l (parts_of t.now) ≡ true }
        ensures within { result
            ≤ longest_move (sides_of self.now.sizes self.now.wrap) self.now.piece }
    {
        if self.directed {
            return 0;
        }
        self.farthest(x, t, near)
    }

    // Hands the arcs of the vertex of `x` to a sink, run by run, by the displacements in a table, of which no entry is greater than
    // `widest`: where all of them lead to later vectors (`straight`), or those of a leaper do (`leaping`) and no side is near. The
    // strides tell how many places each of them leads on, where no side is crossed that wraps around.
    pub(super) fn give_runs<K: ArcSink<R, S>, R, S>(
        &self,
        x: &[u32],
        table: &DisplacementTable,
        strides: Option<&[u32]>,
        near: bool,
        sink: &K,
        room: &mut R,
        out: &mut S,
    ) -> Result<(), K::Fault>
        requires member { Contains (box self.now.sizes) x.now }
        requires table { table.now ≡ displacements_within (nat_abs self.now.piece)
            (entry_bounds (nat_abs self.now.piece) (sides_of self.now.sizes self.now.wrap)) }
        requires runs { All (IsRun self.now x.now) table.now }
        requires near { OnTrue near
            (All (StayAtOne self.now.sizes self.now.wrap x.now) table.now) }
        requires strides { IfSome strides (λ s. map pos s.now ≡ map (stride_of self.now.sizes) table.now) }
        requires leads { IfSome strides (λ _. All (LeadsByStride self.now x.now) table.now) }
        requires at { K.at sink.now (box self.now.sizes) x.now }
        requires width { K.width sink.now ≡ length x.now }
        requires ready { K.ready sink.now room.old out.old }
        ensures given { AreGiven (K.took sink.now) (K.cut sink.now) room.old out.old
            (list_at self.now.directed (box self.now.sizes) (moves_of_board self.now) x.now)
            room.new out.new result }
        ensures ready { OnOk result (K.ready sink.now room.new out.new) }
    {
        for k in (0..table.len()).rev() {
            let stride = stride_kept(strides, k);
            self.give_run(x, table.at(k), stride, near, sink, room, out)?;
        }
        Ok(())
    }

    // Hands out those by a displacement, which leads so many places on where that is known, and its opposite.
    #[inline(always)]
    fn give_run<K: ArcSink<R, S>, R, S>(
        &self,
        x: &[u32],
        pair: &KeptPair,
        stride: Option<u32>,
        near: bool,
        sink: &K,
        room: &mut R,
        out: &mut S,
    ) -> Result<(), K::Fault>
        requires below { IsBelow x.now self.now.sizes }
        requires dimensions { length pair.now ≡ length self.now.sizes }
        requires run { IsRun self.now x.now pair.now }
        requires near { OnTrue near (StayAtOne self.now.sizes self.now.wrap x.now pair.now) }
        requires stride { IfSome stride (λ s. pos s ≡ stride_of self.now.sizes pair.now) }
        requires leads { IfSome stride (λ _. LeadsByStride self.now x.now pair.now) }
        requires at { K.at sink.now (box self.now.sizes) x.now }
        requires width { K.width sink.now ≡ length x.now }
        requires ready { K.ready sink.now room.old out.old }
        ensures given { AreGiven (K.took sink.now) (K.cut sink.now) room.old out.old
            (reverse (arcs_onward self.now.directed x.now
            (moves_by (sides_of self.now.sizes self.now.wrap) self.now.piece (box self.now.sizes)
            pair.now))) room.new out.new result }
        ensures ready { OnOk result (K.ready sink.now room.new out.new) }
    {
        let (t, back) = (pair.ahead(), pair.back());
        let farthest = self.farthest(x, &t, near);
        let onward = self.span_down(x, &t, farthest, stride);
        sink.put_span(&onward, room, out)?;
        let behind = self.farthest_back(x, &back, near);
        let before = self.span_from(x, &back, 0, behind, stride);
        sink.put_span(&before, room, out)
    }
}

// The stride of displacement number `k`, where strides are known.
#[inline(always)]
fn stride_kept(strides: Option<&[u32]>, k: usize) -> Option<u32>
    ensures kept { IfSome result (λ r. IfSome strides.entry (λ s. slice_get s.now k ≡ Some r)) }
    ensures none { IfNone strides.entry (result ≡ None) }
{
    let kept = strides?;
    kept.get(k).copied()
}

// Whether lists are had so: all of them, or those of vertices that no side is near.
pub(super) fn have_runs(straight: bool, leaping: bool, near: bool) -> bool
    ensures { result ≡ straight || (leaping && near) }
{
    straight || (leaping && near)
}

/// The greatest size of the entries of displacements in a table.
pub(super) fn widest_of(table: &Option<DisplacementTable>) -> u32
    ensures { IfSome table.now (All (All (λ e. nat_abs e ≤ result))) }
{
    match table {
        Some(table) => widest_in(table),
        None => 0,
    }
}

/// The greatest size of the entries of these displacements.
pub(super) fn widest_in(table: &DisplacementTable) -> u32
    ensures { All (All (λ e. nat_abs e ≤ result)) table.now }
{
    let mut widest = 0;
    for k in 0..table.len() {
        widest = widest.max(table.at(k).widest());
    }
    widest
}

/// Whether there are displacements in a table, and all of them lead onward.
pub(super) fn lead_onward(wrap: i64, table: &Option<DisplacementTable>) -> bool
    ensures { OnTrue result (IfSome table.now (AreOnward wrap)) }
{
    match table {
        Some(table) => all_lead_onward(wrap, table),
        None => false,
    }
}

/// Whether all displacements lead onward.
pub(super) fn all_lead_onward(wrap: i64, table: &DisplacementTable) -> bool
    ensures { OnTrue result (AreOnward wrap table.now) }
{
    for k in 0..table.len() {
        if !leads_onward(wrap, &table.at(k).ahead()) {
            return false;
        }
    }
    true
}
