//! The list of one vector of the subsets.
ghost use Rattle.std.specs.Prelude.{◌≡◌, [], length, sum, Contains, OnOk, OnErr, IsOkUnless};
ghost use Rattle.sgb_vec.specs.Sums.{bounded_sums};
ghost use Rattle.sgb_gen.specs.ArcSinks.{AreGiven};
ghost use Rattle.sgb_gen.specs.LocalLists.{list_at};
ghost use Rattle.sgb_gen.specs.inner.Descents.{IsBegun, arcs_under, down_from};
ghost use Rattle.sgb_gen.specs.inner.LocalSubsets.{arcs_by_walk};
ghost use Rattle.sgb_gen.specs.Subsets.{subsets_vectors, moves_of_subsets};

use super::Subsets;
use super::descents::{Begun, push_from, push_to};
use super::sizes::WantedSizes;
use crate::arc_sinks::ArcSink;
use crate::kept_arcs::KeptArcs;
use crate::links::Links;
use crate::shifts::copy_of;
use sgb_vec::Panic;

impl Subsets {
    /// Puts the arcs of the vertex of `x` into `links`, in the order of its list in the graph of the subsets: its vectors
    /// are taken entry by entry, and those that begin alike are left together where none has a wanted size in common
    /// (GB_BASIC, subsets). What `links` held before is dropped.
    ///
    /// `x` is a vector of the family. `NoRoom` when out of memory, and nothing else; the links are then empty.
    pub fn arcs_at(&self, x: &[u32], links: &mut Links) -> Result<(), Panic>
        requires { Contains (subsets_vectors self.now) x.now }
        ensures ok { OnOk result (links.new.arcs
            ≡ list_at self.now.directed (subsets_vectors self.now) (moves_of_subsets self.now)
            x.now) }
        ensures err { OnErr result (links.new.arcs ≡ []) }
        ensures memory { IsOkUnless result Panic.NoRoom }
    {
        links.clear(x.len());
        let put = self.push_all(x, &KeptArcs::of(x.len()), links, &mut ());
        links.ended(put)
    }

    // Puts the arcs from the vertex of `x` down to the first one into `links`. What these held before is dropped.
    pub(super) fn put_earlier(&self, x: &[u32], links: &mut Links) -> Result<(), Panic>
        requires { Contains (subsets_vectors self.now) x.now }
        ensures ok { OnOk result (links.new.arcs
            ≡ arcs_under self.now.size_bits [] 0 x.now (down_from self.now.sum.bounds x.now)) }
        ensures memory { IsOkUnless result Panic.NoRoom }
    {
        links.clear(x.len());
        self.push_earlier(x, &KeptArcs::of(x.len()), links, &mut ())
    }

    // Hands the arcs from the vertex of `x` down to the first one to a sink.
    pub(super) fn push_earlier<K: ArcSink<R, S>, R, S>(
        &self,
        x: &[u32],
        sink: &K,
        room: &mut R,
        out: &mut S,
    ) -> Result<(), K::Fault>
        requires member { Contains (subsets_vectors self.now) x.now }
        requires width { K.width sink.now ≡ length x.now }
        requires ready { K.ready sink.now room.old out.old }
        ensures given { AreGiven (K.took sink.now) (K.cut sink.now) room.old out.old
            (arcs_under self.now.size_bits [] 0 x.now (down_from self.now.sum.bounds x.now)) room.new
            out.new result }
        ensures ready { OnOk result (K.ready sink.now room.new out.new) }
    {
        let sizes = WantedSizes::of(self.size_bits);
        let bounds = self.sizes();
        let mut tip = copy_of(x);
        push_from(
            &sizes,
            self.begun(),
            bounds,
            x,
            tip.as_mut_slice(),
            sink,
            room,
            out,
        )
    }

    // Hands the arcs of `x` to a sink.
    pub(crate) fn push_all<K: ArcSink<R, S>, R, S>(
        &self,
        x: &[u32],
        sink: &K,
        room: &mut R,
        out: &mut S,
    ) -> Result<(), K::Fault>
        requires member { Contains (subsets_vectors self.now) x.now }
        requires width { K.width sink.now ≡ length x.now }
        requires ready { K.ready sink.now room.old out.old }
        ensures given { AreGiven (K.took sink.now) (K.cut sink.now) room.old out.old
            (list_at self.now.directed (subsets_vectors self.now) (moves_of_subsets self.now) x.now)
            room.new out.new result }
        ensures ready { OnOk result (K.ready sink.now room.new out.new) }
    {
        let bounds = self.sizes();
        let mut tip = copy_of(x);
        push_both(
            self.directed,
            self.begun(),
            bounds,
            x,
            tip.as_mut_slice(),
            sink,
            room,
            out,
        )
    }
}

// Hands out the arcs to the vectors down to `x`, and where undirected then those from `x` on down.
fn push_both<K: ArcSink<R, S>, R, S>(
    directed: bool,
    begun: Begun,
    bounds: &[u32],
    x: &[u32],
    tip: &mut [u32],
    sink: &K,
    room: &mut R,
    out: &mut S,
) -> Result<(), K::Fault>
    requires begun { IsBegun bounds.now x.now begun.room begun.shared begun.left begun.common }
    requires none { begun.common ≡ 0 }
    requires all { begun.left ≡ sum x.now }
    requires place { length tip.old ≡ length x.now }
    requires width { length tip.old ≡ K.width sink.now }
    requires ready { K.ready sink.now room.old out.old }
    ensures given { AreGiven (K.took sink.now) (K.cut sink.now) room.old out.old
        (arcs_by_walk directed begun.size_bits (bounded_sums begun.left bounds.now) x.now) room.new
        out.new result }
    ensures ready { OnOk result (K.ready sink.now room.new out.new) }
{
    let sizes = WantedSizes::of(begun.size_bits);
    push_to(&sizes, begun, bounds, x, tip, sink, room, out)?;
    if directed {
        return Ok(());
    }
    push_from(&sizes, begun, bounds, x, tip, sink, room, out)
}
