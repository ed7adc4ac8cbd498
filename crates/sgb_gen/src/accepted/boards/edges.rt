//! The arcs of a board's vector by the edges of one displacement, in the order of their starts.
//!
//! The starts are the vector itself and those where the opposite displacement leads: for a rider they are sorted. Where
//! there is no room for all of them, those at the later vertices are found, sorted and handed out first, and then the
//! others: so no memory is wanted. A range of two starts or more can be cut in two, and there is room for one.
ghost use Rattle.std.specs.Prelude.{◌≡◌, ◌<◌, ◌++◌, false, length, reverse, OnOk};
ghost use Rattle.std.specs.Bool.{OnFalse, OnTrue};
ghost use Rattle.std.specs.List.{filter};
ghost use Rattle.sgb_vec.specs.Boxes.{box};
ghost use Rattle.sgb_vec.specs.Lexicographic.{IsBelow};
ghost use Rattle.sgb_gen.specs.ArcSinks.{AreGiven};
ghost use Rattle.sgb_gen.specs.inner.LocalBoards.{edge_arcs, own_starts, other_starts, arcs_of_starts, arcs_onward, moves_by};
ghost use Rattle.sgb_moves.specs.Moves.{moves_from, sides_of, opposite};
ghost use Rattle.sgb_moves.specs.inner.Moves.{destination};
ghost use Rattle.sgb_moves.specs.inner.Starts.{is_within};
ghost use Rattle.sgb_gen.specs.inner.Starts.{arcs_within, starts_within};
ghost use Rattle.sgb_gen.specs.VectorGraphs.{vertex_among};
// For the search alone.
ghost use Rattle.std.specs.Prelude.{◌==◌, Some};
ghost use Rattle.sgb_moves.specs.inner.Moves.{longest_move};

use super::Board;
use crate::arc_sinks::ArcSink;
use sgb_moves::{StartRange, Starts, Step, either};
use sgb_vec::{Family, Vector};

impl Board {
    // Hands out the arcs of `x` by the edges of the displacement `t`, whose opposite is `back`, the last of their starts first.
    // `starts` is what they are found with: what it holds does not count.
    pub(super) fn give_sorted<K: ArcSink<R, S>, R, S>(
        &self,
        x: &[u32],
        t: &Step,
        back: &Step,
        starts: &mut Starts,
        sink: &K,
        room: &mut R,
        out: &mut S,
    ) -> Result<(), K::Fault>
        requires below { IsBelow x.now self.now.sizes }
        requires dimensions { length t.now ≡ length self.now.sizes }
        requires back { back.now ≡ opposite t.now }
        requires width { K.width sink.now ≡ length x.now }
        requires ready { K.ready sink.now room.old out.old }
        ensures given { AreGiven (K.took sink.now) (K.cut sink.now) room.old out.old
            (reverse (arcs_onward false x.now
            (moves_by (sides_of self.now.sizes self.now.wrap) self.now.piece (box self.now.sizes)
            t.now))) room.new out.new result }
        ensures ready { OnOk result (K.ready sink.now room.new out.new) }
    {
        let u = self.vertex_of(x);
        let range = StartRange {
            low: 0,
            high: self.family.size(),
            from: 0,
            to: self.longest_move(),
        };
        let mut there = Vector::new();
        self.give_within(u, x, t, back, range, &mut there, starts, sink, room, out)
    }

    // Hands out those of the arcs of `x`, which is vertex `u`, whose starts are within a range.
    fn give_within<K: ArcSink<R, S>, R, S>(
        &self,
        u: u32,
        x: &[u32],
        t: &Step,
        back: &Step,
        range: StartRange,
        there: &mut Vector,
        starts: &mut Starts,
        sink: &K,
        room: &mut R,
        out: &mut S,
    ) -> Result<(), K::Fault>
        requires below { IsBelow x.now self.now.sizes }
        requires dimensions { length t.now ≡ length self.now.sizes }
        requires back { back.now ≡ opposite t.now }
        requires vertex { u ≡ vertex_among (box self.now.sizes) x.now }
        requires width { K.width sink.now ≡ length x.now }
        requires ready { K.ready sink.now room.old out.old }
        ensures given { AreGiven (K.took sink.now) (K.cut sink.now) room.old out.old
            (arcs_within self.now x.now t.now range) room.new out.new result }
        ensures ready { OnOk result (K.ready sink.now room.new out.new) }
    {
        if self.put_starts(u, x, t, back, range, there, starts) {
            starts.grow();
            starts.sort();
            return self.give_edges(u, x, &*t, &*back, starts, there, sink, room, out);
        }
        let Some((earlier, later)) = range.halves(self.sizes()) else {
            return Ok(());
        };
        self.give_within(u, x, t, back, later, there, starts, sink, room, out)?;
        self.give_within(u, x, t, back, earlier, there, starts, sink, room, out)
    }

    // Makes `starts` those within a range where the moves by `t` start that touch `x`, with their lengths: `x` itself, which is
    // vertex `u`, and those where the moves from `x` by the opposite of `t` lead. `false` where there is no room for all of them,
    // which are two at least.
    fn put_starts(
        &self,
        u: u32,
        x: &[u32],
        t: &Step,
        back: &Step,
        range: StartRange,
        there: &mut Vector,
        starts: &mut Starts,
    ) -> bool
        requires below { IsBelow x.now self.now.sizes }
        requires dimensions { length t.now ≡ length self.now.sizes }
        requires back { back.now ≡ opposite t.now }
        requires vertex { u ≡ vertex_among (box self.now.sizes) x.now }
        ensures all { OnTrue result (starts.new ≡ starts_within self.now x.now t.now range) }
        ensures many { OnFalse result (1 < length (starts_within self.now x.now t.now range)) }
    {
        starts.clear();
        if !self.put_own(u, x, t, range, starts) {
            return false;
        }
        self.put_others(u, x, back, range, there, starts)
    }

    // Puts the moves from `x`, which is vertex `u`, by `t` behind the others, those within a range. `false` where there is no room
    // for one of them: with the others there are two at least.
    fn put_own(&self, u: u32, x: &[u32], t: &Step, range: StartRange, starts: &mut Starts) -> bool
        requires below { IsBelow x.now self.now.sizes }
        requires dimensions { length t.now ≡ length self.now.sizes }
        ensures all { OnTrue result (starts.new ≡ starts.old ++ filter (is_within range)
            (own_starts u (moves_from (sides_of self.now.sizes self.now.wrap) self.now.piece x.now
            t.now))) }
        ensures many { OnFalse result (1 < length (starts.old ++ filter (is_within range)
            (own_starts u (moves_from (sides_of self.now.sizes self.now.wrap) self.now.piece x.now
            t.now)))) }
    {
        if !range.has_vertex(u) {
            return true;
        }
        let count = self.lengths_by(x, t);
        for shorter in range.from..range.to.min(count) {
            if !starts.put(range, u, shorter + 1) {
                return false;
            }
        }
        true
    }

    // Puts the moves from other vertices to `x`, which is vertex `u`, by the opposite of `back` behind the others, those within a
    // range. `false` as above.
    fn put_others(
        &self,
        u: u32,
        x: &[u32],
        back: &Step,
        range: StartRange,
        there: &mut Vector,
        starts: &mut Starts,
    ) -> bool
        requires below { IsBelow x.now self.now.sizes }
        requires back { length back.now ≡ length self.now.sizes }
        ensures all { OnTrue result (starts.new ≡ starts.old ++ filter (is_within range)
            (other_starts (box self.now.sizes) u
            (moves_from (sides_of self.now.sizes self.now.wrap) self.now.piece x.now back.now))) }
        ensures many { OnFalse result (1 < length (starts.old ++ filter (is_within range)
            (other_starts (box self.now.sizes) u
            (moves_from (sides_of self.now.sizes self.now.wrap) self.now.piece x.now
            back.now)))) }
    {
        if range.is_of(u) {
            return true;
        }
        for shorter in 0..self.longest_move() {
            let Some(v) = self.vertex_at(x, back, shorter + 1, there) else {
                return true;
            };
            if v == u {
                continue;
            }
            if !starts.put(range, v, shorter + 1) {
                return false;
            }
        }
        true
    }

    // Hands out the arcs of `x`, which is vertex `u`, by the edges with these starts, those of the last start first.
    fn give_edges<'s, K: ArcSink<R, S>, R, S>(
        &self,
        u: u32,
        x: &[u32],
        t: &'s Step<'_>,
        back: &'s Step<'_>,
        starts: &Starts,
        there: &mut Vector,
        sink: &K,
        room: &mut R,
        out: &mut S,
    ) -> Result<(), K::Fault>
        requires below { IsBelow x.now self.now.sizes }
        requires dimensions { length t.now ≡ length self.now.sizes }
        requires back { length back.now ≡ length self.now.sizes }
        requires width { K.width sink.now ≡ length x.now }
        requires ready { K.ready sink.now room.old out.old }
        ensures given { AreGiven (K.took sink.now) (K.cut sink.now) room.old out.old
            (reverse (arcs_of_starts (sides_of self.now.sizes self.now.wrap) self.now.piece u
            x.now t.now back.now starts.now)) room.new out.new result }
        ensures ready { OnOk result (K.ready sink.now room.new out.new) }
    {
        for k in (0..starts.len()).rev() {
            let (v, l) = starts.at(k);
            let step = either(v == u, t, back);
            self.give_edge(x, &step, l, there, sink, room, out)?;
        }
        Ok(())
    }

    // Hands out the arc of `x` by the edge of length `l`, both arcs where the edge leads to `x` itself.
    fn give_edge<K: ArcSink<R, S>, R, S>(
        &self,
        x: &[u32],
        t: &Step,
        l: u32,
        there: &mut Vector,
        sink: &K,
        room: &mut R,
        out: &mut S,
    ) -> Result<(), K::Fault>
        requires below { IsBelow x.now self.now.sizes }
        requires dimensions { length t.now ≡ length self.now.sizes }
        requires width { K.width sink.now ≡ length x.now }
        requires ready { K.ready sink.now room.old out.old }
        ensures given { AreGiven (K.took sink.now) (K.cut sink.now) room.old out.old
            (edge_arcs x.now l (destination (sides_of self.now.sizes self.now.wrap)
            self.now.piece x.now t.now l)) room.new out.new result }
        ensures ready { OnOk result (K.ready sink.now room.new out.new) }
    {
        if !self.lands(x, t, l, there) {
            return Ok(());
        }
        sink.put_arc(there.as_slice(), l, room, out)?;
        if there.as_slice() != x {
            return Ok(());
        }
        sink.put_arc(x, l, room, out)
    }
}
