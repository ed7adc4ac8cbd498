//! The list of one vector of a simplex.
ghost use Rattle.std.specs.Prelude.{◌≡◌, ◌≢◌, ◌<◌, [], length, reverse, Contains, OnOk, OnErr, IsOkUnless};
ghost use Rattle.sgb_gen.specs.ArcSinks.{AreGiven};
ghost use Rattle.sgb_gen.specs.LocalLists.{list_at};
ghost use Rattle.sgb_gen.specs.inner.LocalSimplexes.{arc_by_unit, arcs_back, arcs_on, arcs_by_pairs, pairs_down, pairs_back};
ghost use Rattle.sgb_gen.specs.Simplexes.{simplex_vectors, moves_of_simplex, pairs_of_places};

use super::Simplex;
use crate::arc_sinks::ArcSink;
use crate::kept_arcs::KeptArcs;
use crate::links::Links;
use crate::shifts::{can_move_unit, copy_of, move_unit};
use sgb_vec::Panic;

impl Simplex {
    /// Puts the arcs of the vertex of `x` into `links`, in the order of its list in the simplex's graph: from the
    /// vector alone, by pairs of its places (GB_BASIC, simplex). What `links` held before is dropped.
    ///
    /// `x` is a vector of the simplex. `NoRoom` when out of memory, and nothing else; the links are then empty.
    pub fn arcs_at(&self, x: &[u32], links: &mut Links) -> Result<(), Panic>
        requires { Contains (simplex_vectors self.now) x.now }
        ensures ok { OnOk result (links.new.arcs
            ≡ list_at self.now.directed (simplex_vectors self.now) (moves_of_simplex self.now)
            x.now) }
        ensures err { OnErr result (links.new.arcs ≡ []) }
        ensures memory { IsOkUnless result Panic.NoRoom }
    {
        links.clear(x.len());
        let put = self.push_all(x, &KeptArcs::of(x.len()), links, &mut ());
        links.ended(put)
    }

    // Hands the arcs of `x` to a sink.
    pub(crate) fn push_all<K: ArcSink<R, S>, R, S>(
        &self,
        x: &[u32],
        sink: &K,
        room: &mut R,
        out: &mut S,
    ) -> Result<(), K::Fault>
        requires member { Contains (simplex_vectors self.now) x.now }
        requires width { K.width sink.now ≡ length x.now }
        requires ready { K.ready sink.now room.old out.old }
        ensures given { AreGiven (K.took sink.now) (K.cut sink.now) room.old out.old
            (list_at self.now.directed (simplex_vectors self.now) (moves_of_simplex self.now) x.now)
            room.new out.new result }
        ensures ready { OnOk result (K.ready sink.now room.new out.new) }
    {
        let bounds = self.sizes();
        let mut tip = copy_of(x);
        push_both(self.directed, bounds, tip.as_mut_slice(), sink, room, out)
    }
}

// Hands out the arcs of the vector `tip`.
fn push_both<K: ArcSink<R, S>, R, S>(
    directed: bool,
    bounds: &[u32],
    tip: &mut [u32],
    sink: &K,
    room: &mut R,
    out: &mut S,
) -> Result<(), K::Fault>
    requires bounds { length tip.old ≡ length bounds.now }
    requires width { length tip.old ≡ K.width sink.now }
    requires ready { K.ready sink.now room.old out.old }
    ensures given { AreGiven (K.took sink.now) (K.cut sink.now) room.old out.old
        (arcs_by_pairs directed bounds.now tip.old) room.new out.new result }
    ensures ready { OnOk result (K.ready sink.now room.new out.new) }
{
    push_back(bounds, tip, sink, room, out)?;
    if directed {
        return Ok(());
    }
    push_on(bounds, tip, sink, room, out)
}

// Hands out the arcs by a unit that goes to a lower place.
fn push_back<K: ArcSink<R, S>, R, S>(
    bounds: &[u32],
    tip: &mut [u32],
    sink: &K,
    room: &mut R,
    out: &mut S,
) -> Result<(), K::Fault>
    requires bounds { length tip.old ≡ length bounds.now }
    requires width { length tip.old ≡ K.width sink.now }
    requires ready { K.ready sink.now room.old out.old }
    ensures same { OnOk result (tip.new ≡ tip.old) }
    ensures given { AreGiven (K.took sink.now) (K.cut sink.now) room.old out.old
        (arcs_back bounds.now tip.old (pairs_back (length tip.old))) room.new out.new result }
    ensures ready { OnOk result (K.ready sink.now room.new out.new) }
{
    for lower in 0..tip.len() {
        push_back_to(bounds, tip, lower, sink, room, out)?;
    }
    Ok(())
}

// Hands out the arcs by a unit that goes to this lower place, those from the highest place first.
fn push_back_to<K: ArcSink<R, S>, R, S>(
    bounds: &[u32],
    tip: &mut [u32],
    lower: usize,
    sink: &K,
    room: &mut R,
    out: &mut S,
) -> Result<(), K::Fault>
    requires entry { lower < length tip.old }
    requires bounds { length tip.old ≡ length bounds.now }
    requires width { length tip.old ≡ K.width sink.now }
    requires ready { K.ready sink.now room.old out.old }
    ensures same { OnOk result (tip.new ≡ tip.old) }
    ensures given { AreGiven (K.took sink.now) (K.cut sink.now) room.old out.old
        (arcs_back bounds.now tip.old (pairs_down (length tip.old) lower)) room.new out.new result }
    ensures ready { OnOk result (K.ready sink.now room.new out.new) }
{
    for higher in (lower + 1..tip.len()).rev() {
        push_one(bounds, tip, higher, lower, sink, room, out)?;
    }
    Ok(())
}

// Hands out the arcs by a unit that goes to a higher place.
fn push_on<K: ArcSink<R, S>, R, S>(
    bounds: &[u32],
    tip: &mut [u32],
    sink: &K,
    room: &mut R,
    out: &mut S,
) -> Result<(), K::Fault>
    requires bounds { length tip.old ≡ length bounds.now }
    requires width { length tip.old ≡ K.width sink.now }
    requires ready { K.ready sink.now room.old out.old }
    ensures same { OnOk result (tip.new ≡ tip.old) }
    ensures given { AreGiven (K.took sink.now) (K.cut sink.now) room.old out.old
        (arcs_on bounds.now tip.old (reverse (pairs_of_places (length tip.old))))
        room.new out.new result }
    ensures ready { OnOk result (K.ready sink.now room.new out.new) }
{
    for lower in (0..tip.len()).rev() {
        push_on_from(bounds, tip, lower, sink, room, out)?;
    }
    Ok(())
}

// Hands out the arcs by a unit that goes from this lower place, those to the highest place first.
fn push_on_from<K: ArcSink<R, S>, R, S>(
    bounds: &[u32],
    tip: &mut [u32],
    lower: usize,
    sink: &K,
    room: &mut R,
    out: &mut S,
) -> Result<(), K::Fault>
    requires entry { lower < length tip.old }
    requires bounds { length tip.old ≡ length bounds.now }
    requires width { length tip.old ≡ K.width sink.now }
    requires ready { K.ready sink.now room.old out.old }
    ensures same { OnOk result (tip.new ≡ tip.old) }
    ensures given { AreGiven (K.took sink.now) (K.cut sink.now) room.old out.old
        (arcs_on bounds.now tip.old (pairs_down (length tip.old) lower)) room.new out.new result }
    ensures ready { OnOk result (K.ready sink.now room.new out.new) }
{
    for higher in (lower + 1..tip.len()).rev() {
        push_one(bounds, tip, lower, higher, sink, room, out)?;
    }
    Ok(())
}

// Hands out the arc by a unit that goes from one place to another, if one can: it comes back afterwards.
fn push_one<K: ArcSink<R, S>, R, S>(
    bounds: &[u32],
    tip: &mut [u32],
    from: usize,
    to: usize,
    sink: &K,
    room: &mut R,
    out: &mut S,
) -> Result<(), K::Fault>
    requires apart { from ≢ to }
    requires from { from < length tip.old }
    requires to { to < length tip.old }
    requires bounds { length tip.old ≡ length bounds.now }
    requires width { length tip.old ≡ K.width sink.now }
    requires ready { K.ready sink.now room.old out.old }
    ensures same { OnOk result (tip.new ≡ tip.old) }
    ensures given { AreGiven (K.took sink.now) (K.cut sink.now) room.old out.old
        (arc_by_unit bounds.now tip.old from to) room.new out.new result }
    ensures ready { OnOk result (K.ready sink.now room.new out.new) }
{
    if !can_move_unit(bounds, tip, from, to) {
        return Ok(());
    }
    let (before, there) = (tip[from], tip[to]);
    move_unit(bounds, tip, from, to);
    sink.put_arc(tip, 1, room, out)?;
    tip[from] = before;
    tip[to] = there;
    Ok(())
}
