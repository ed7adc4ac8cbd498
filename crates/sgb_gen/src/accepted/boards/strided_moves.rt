//! The moves by a displacement from the vertices of a board with no side that wraps around: they lead by equal strides.
ghost use Rattle.std.specs.Prelude.{◌≡◌, ◌+◌, ◌*◌, ◌<◌, ◌≤◌, ℕ, length, map, slice_get, All, IfSome, IsOkUnless, OnOk, Some};
ghost use Rattle.sgb_vec.specs.Boxes.{box};
ghost use Rattle.sgb_vec.specs.Lexicographic.{IsBelow};
ghost use Rattle.sgb_vec.specs.Limits.{most_vertices};
ghost use Rattle.sgb_graph.specs.Growth.{AddsEvents, HasPlainArcs};
ghost use Rattle.sgb_moves.specs.Moves.{moves_from, sides_of};
ghost use Rattle.sgb_gen.specs.VectorGraphs.{event_among};
ghost use Rattle.sgb_gen.specs.inner.StridedMoves.{IsFarthest, LeadsOn, events_of_stride};
// For the search alone.
ghost use Rattle.sgb_moves.specs.MovedCoordinates.{parts_of};

use super::Board;
use super::strides::stride_by;
use sgb_graph::Graph;
use sgb_moves::{Part, Step, leads_onward, reach};
use sgb_vec::Panic;

impl Board {
    // How many vertices a unit of length leads on by `t`, where no side wraps around and `t` leads onward.
    pub(super) fn places_by(&self, t: &Step) -> Option<u32>
        requires dimensions { length t.now ≡ length self.now.sizes }
        ensures { IfSome result (LeadsOn self.now t.now) }
    {
        if !self.is_flat() || !leads_onward(self.wrap, t) {
            return None;
        }
        stride_by(self.sizes(), t.entries())
    }

    // Adds the moves from vertex `u`, which is the vector `x`, by the displacement `t`, where a unit of length leads so many places
    // on.
    #[inline(always)]
    pub(super) fn add_strided_moves(
        &self,
        graph: &mut Graph,
        u: u32,
        x: &[u32],
        t: &Step,
        places: u32,
    ) -> Result<(), Panic>
        requires vertex { slice_get (box self.now.sizes) u ≡ Some x.now }
        requires dimensions { length t.now ≡ length self.now.sizes }
        requires places { LeadsOn self.now t.now places }
        requires vertices { length graph.old.vertices ≡ length (box self.now.sizes) }
        requires plain { HasPlainArcs graph.old }
        ensures ok { OnOk result (AddsEvents self.now.directed graph.old graph.new
            (map (event_among (box self.now.sizes))
            (moves_from (sides_of self.now.sizes self.now.wrap) self.now.piece x.now t.now))) }
        ensures memory { IsOkUnless result Panic.NoRoom }
    {
        let farthest = self.reach_by(t.parts(), x);
        self.add_run(graph, u, places, farthest)
    }

    // How many lengths the piece moves from `x` by these coordinates.
    #[inline(always)]
    fn reach_by(&self, parts: &[Part], x: &[u32]) -> u32
        requires below { IsBelow x.now self.now.sizes }
        requires parts { All (λ p. p.0 < length self.now.sizes) parts.now }
        ensures { IsFarthest self.now x.now parts.now result }
    {
        reach(self.sizes(), self.wrap, x, parts, self.longest_move())
    }

    // Adds the moves from vertex `u` of the lengths up to `farthest`, where a unit of length leads so many places on.
    #[inline(always)]
    fn add_run(&self, graph: &mut Graph, u: u32, places: u32, farthest: u32) -> Result<(), Panic>
        requires vertex { u < length graph.old.vertices }
        requires tips { (l : ℕ) → 0 < l → l ≤ farthest
            → u + l * places < length graph.old.vertices }
        requires few { (l : ℕ) → 0 < l → l ≤ farthest → u + l * places < most_vertices }
        requires plain { HasPlainArcs graph.old }
        ensures ok { OnOk result (AddsEvents self.now.directed graph.old graph.new
            (events_of_stride u places farthest)) }
        ensures memory { IsOkUnless result Panic.NoRoom }
    {
        for shorter in 0..farthest {
            let l = shorter + 1;
            graph.add_event(self.directed, u, u + l * places, i64::from(l))?;
        }
        Ok(())
    }
}
