//! The arcs of a board's vector that are handed out one by one, by one displacement after another, of a table or with none: no
//! list is kept.
//!
//! Where the arcs by a displacement come in order with no sort they are handed out as they are found; else their starts are
//! sorted, as many as there is room for (`give_sorted`). No memory is wanted.
ghost use Rattle.std.specs.Prelude.{◌≡◌, ◌+◌, ◌-◌, ◌≤◌, false, length, map, nat_abs, reverse, All, Contains, IfSome, OnOk};
ghost use Rattle.std.specs.Bool.{OnFalse, OnTrue};
ghost use Rattle.std.specs.List.{range_with_len};
ghost use Rattle.sgb_vec.specs.Boxes.{box};
ghost use Rattle.sgb_vec.specs.Lexicographic.{IsBelow};
ghost use Rattle.sgb_gen.specs.ArcSinks.{AreGiven};
ghost use Rattle.sgb_gen.specs.Boards.{moves_of_board};
ghost use Rattle.sgb_gen.specs.LocalLists.{list_at};
ghost use Rattle.sgb_moves.specs.MovedCoordinates.{parts_of};
ghost use Rattle.sgb_moves.specs.Moves.{opposite, sides_of};
ghost use Rattle.sgb_gen.specs.Spans.{arc_along, arcs_of_span};
ghost use Rattle.sgb_gen.specs.inner.Spans.{LeadBack, LeadOn, arcs_along};
ghost use Rattle.sgb_moves.specs.inner.EntryBounds.{displacements_within, entry_bounds};
ghost use Rattle.sgb_gen.specs.inner.LocalBoards.{arcs_onward, moves_by};
ghost use Rattle.sgb_gen.specs.inner.StraightLists.{IsInOrder, NeedsNoSort, arcs_back};

use super::Board;
use crate::arc_sinks::ArcSink;
use crate::displacement_tables::DisplacementTable;
use crate::spans::Span;
use sgb_moves::{Displacement, Parts, Starts, Step, put_opposite, put_parts_of};
use sgb_vec::Family;

impl Board {
    /// Hands the arcs of the vertex of `x` to a sink, by the displacements in a table: with no sort where the arcs by each of
    /// them are had in order, as `in_order` tells. `starts` is what others are found with: what it holds does not count. No memory
    /// is wanted but by the sink.
    pub(crate) fn give_kept<K: ArcSink<R, S>, R, S>(
        &self,
        x: &[u32],
        table: &DisplacementTable,
        in_order: bool,
        starts: &mut Starts,
        sink: &K,
        room: &mut R,
        out: &mut S,
    ) -> Result<(), K::Fault>
        requires member { Contains (box self.now.sizes) x.now }
        requires table { table.now ≡ displacements_within (nat_abs self.now.piece)
            (entry_bounds (nat_abs self.now.piece) (sides_of self.now.sizes self.now.wrap)) }
        requires sorted { OnTrue in_order (All (NeedsNoSort self.now) table.now) }
        requires at { K.at sink.now (box self.now.sizes) x.now }
        requires width { K.width sink.now ≡ length x.now }
        requires ready { K.ready sink.now room.old out.old }
        ensures given { AreGiven (K.took sink.now) (K.cut sink.now) room.old out.old
            (list_at self.now.directed (box self.now.sizes) (moves_of_board self.now) x.now)
            room.new out.new result }
        ensures ready { OnOk result (K.ready sink.now room.new out.new) }
    {
        for k in (0..table.len()).rev() {
            let pair = table.at(k);
            let (ahead, back) = (pair.ahead(), pair.back());
            self.give_both(x, &ahead, &back, in_order, starts, sink, room, out)?;
        }
        Ok(())
    }

    /// The same with no table: by a walk over the displacements from the last on.
    ///
    /// It stands by itself, so that its stack is not that of those who hand out other lists.
    #[inline(never)]
    pub(crate) fn give_walked<K: ArcSink<R, S>, R, S>(
        &self,
        x: &[u32],
        starts: &mut Starts,
        sink: &K,
        room: &mut R,
        out: &mut S,
    ) -> Result<(), K::Fault>
        requires member { Contains (box self.now.sizes) x.now }
        requires at { K.at sink.now (box self.now.sizes) x.now }
        requires width { K.width sink.now ≡ length x.now }
        requires ready { K.ready sink.now room.old out.old }
        ensures given { AreGiven (K.took sink.now) (K.cut sink.now) room.old out.old
            (list_at self.now.directed (box self.now.sizes) (moves_of_board self.now) x.now)
            room.new out.new result }
        ensures ready { OnOk result (K.ready sink.now room.new out.new) }
    {
        let mut turned = Displacement::new();
        let mut parts = Parts::new();
        let mut turned_parts = Parts::new();
        let mut left = self.displacements();
        while let Some(t) = left.back() {
            put_opposite(t, &mut turned);
            put_parts_of(t, &mut parts);
            put_parts_of(turned.as_slice(), &mut turned_parts);
            let ahead = Step::of(t, parts.as_slice());
            let back = Step::of(turned.as_slice(), turned_parts.as_slice());
            self.give_both(x, &ahead, &back, false, starts, sink, room, out)?;
            left.retreat();
        }
        Ok(())
    }

    // Hands out the arcs of `x` by the edges of the displacement `t`, whose opposite is `back`: with no sort where `in_order`
    // tells that none is wanted.
    #[inline(always)]
    fn give_both<K: ArcSink<R, S>, R, S>(
        &self,
        x: &[u32],
        t: &Step,
        back: &Step,
        in_order: bool,
        starts: &mut Starts,
        sink: &K,
        room: &mut R,
        out: &mut S,
    ) -> Result<(), K::Fault>
        requires below { IsBelow x.now self.now.sizes }
        requires dimensions { length t.now ≡ length self.now.sizes }
        requires back { back.now ≡ opposite t.now }
        requires sorted { OnTrue in_order (NeedsNoSort self.now t.now) }
        requires at { K.at sink.now (box self.now.sizes) x.now }
        requires width { K.width sink.now ≡ length x.now }
        requires ready { K.ready sink.now room.old out.old }
        ensures given { AreGiven (K.took sink.now) (K.cut sink.now) room.old out.old
            (reverse (arcs_onward self.now.directed x.now
            (moves_by (sides_of self.now.sizes self.now.wrap) self.now.piece (box self.now.sizes)
            t.now))) room.new out.new result }
        ensures ready { OnOk result (K.ready sink.now room.new out.new) }
    {
        let behind = self.lengths_back(x, back);
        if !self.has_order(t, behind, in_order) {
            return self.give_sorted(x, t, back, starts, sink, room, out);
        }
        self.give_by(x, t, back, behind, sink, room, out)
    }

    // Whether the arcs of a vector by the edges of `t` are had in order with no sort, where so many moves lead back from it:
    // it is looked at where it is not known.
    #[inline(always)]
    fn has_order(&self, t: &Step, behind: u32, known: bool) -> bool
        requires dimensions { length t.now ≡ length self.now.sizes }
        requires known { OnTrue known (IsInOrder self.now t.now behind) }
        ensures order { OnTrue result (IsInOrder self.now t.now behind) }
        ensures edges { OnFalse result (self.now.directed ≡ false) }
    {
        if known {
            return true;
        }
        self.is_in_order(t, behind)
    }

    // Hands out the arcs of `x` by the edges of the displacement `t`, whose opposite is `back`, where so many moves lead back
    // from `x`: those back to vectors after `x`, those ahead, the longer first, and those back to vectors before it.
    pub(super) fn give_by<K: ArcSink<R, S>, R, S>(
        &self,
        x: &[u32],
        t: &Step,
        back: &Step,
        behind: u32,
        sink: &K,
        room: &mut R,
        out: &mut S,
    ) -> Result<(), K::Fault>
        requires below { IsBelow x.now self.now.sizes }
        requires dimensions { length t.now ≡ length self.now.sizes }
        requires back { back.now ≡ opposite t.now }
        requires sorted { IsInOrder self.now t.now behind }
        requires behind { arcs_back self.now x.now back.now ≡ arcs_along self.now.sizes
            self.now.wrap x.now (parts_of back.now) behind }
        requires at { K.at sink.now (box self.now.sizes) x.now }
        requires width { K.width sink.now ≡ length x.now }
        requires ready { K.ready sink.now room.old out.old }
        ensures given { AreGiven (K.took sink.now) (K.cut sink.now) room.old out.old
            (reverse (arcs_onward self.now.directed x.now
            (moves_by (sides_of self.now.sizes self.now.wrap) self.now.piece (box self.now.sizes)
            t.now))) room.new out.new result }
        ensures ready { OnOk result (K.ready sink.now room.new out.new) }
    {
        let near = self.lengths_near(x, t, behind);
        let ahead = self.lengths_by(x, t);
        let around = self.span_from(x, back, near, behind, None);
        sink.put_span(&around, room, out)?;
        let onward = self.span_down(x, t, ahead, None);
        sink.put_span(&onward, room, out)?;
        let before = self.span_from(x, back, 0, near, None);
        sink.put_span(&before, room, out)
    }

    // The arcs from `x` by `t` of the lengths above `from` up to `to`, the shortest first; and how many places back a unit of length
    // leads, where that is known.
    #[inline(always)]
    pub(super) fn span_from<'b>(
        &'b self,
        x: &'b [u32],
        t: &'b Step<'_>,
        from: u32,
        to: u32,
        stride: Option<u32>,
    ) -> Span<'b>
        requires below { IsBelow x.now self.now.sizes }
        requires dimensions { length t.now ≡ length self.now.sizes }
        requires lengths { from ≤ to }
        requires stride { IfSome stride (LeadBack self.now.sizes self.now.wrap x.now (parts_of t.now) to) }
        ensures vector { result.x ≡ x.now }
        ensures sizes { result.sizes ≡ self.now.sizes }
        ensures arcs { arcs_of_span result ≡ map
            (arc_along self.now.sizes self.now.wrap x.now (parts_of t.now))
            (range_with_len (from + 1) (to - from)) }
    {
        prove!(self.sizes().len() == self.family.dims());
        Span::rising(self.sizes(), self.wrap, x, t.parts(), from, to, stride)
    }

    // Those of the lengths from `to` down to 1; and how many places on a unit of length leads, where that is known.
    #[inline(always)]
    pub(super) fn span_down<'b>(
        &'b self,
        x: &'b [u32],
        t: &'b Step<'_>,
        to: u32,
        stride: Option<u32>,
    ) -> Span<'b>
        requires below { IsBelow x.now self.now.sizes }
        requires dimensions { length t.now ≡ length self.now.sizes }
        requires stride { IfSome stride (LeadOn self.now.sizes self.now.wrap x.now (parts_of t.now) to) }
        ensures vector { result.x ≡ x.now }
        ensures sizes { result.sizes ≡ self.now.sizes }
        ensures arcs { arcs_of_span result ≡ reverse
            (arcs_along self.now.sizes self.now.wrap x.now (parts_of t.now) to) }
    {
        prove!(self.sizes().len() == self.family.dims());
        Span::falling(self.sizes(), self.wrap, x, t.parts(), to, stride)
    }
}
