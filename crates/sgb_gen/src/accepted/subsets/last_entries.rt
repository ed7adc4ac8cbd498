//! The arcs of one vector of the subsets to those that begin alike, where at most 1 is left to be placed: no descent is needed.
ghost use Rattle.std.specs.Prelude.{◌≡◌, ◌+◌, ◌-◌, ◌^◌, ◌≤◌, ◌<◌, ◌&&◌, min, nat_lt, pos, [], ◌∷◌, ◌++◌, length, take, drop, replicate, reverse, set, slice_get, Some, if◌then◌else◌, OnOk};
ghost use Rattle.sgb_vec.specs.Lexicographic.{IsWithin};
ghost use Rattle.sgb_vec.specs.Sums.{bounded_sums};
ghost use Rattle.sgb_gen.specs.ArcSinks.{AreGiven};
ghost use Rattle.sgb_gen.specs.Subsets.{is_wanted_size};
ghost use Rattle.sgb_gen.specs.inner.Descents.{IsBegun, arcs_under, front_of};

use super::descents::Begun;
use super::is_wanted;
use crate::arc_sinks::ArcSink;

// Hands out the arcs to all vectors that begin as `tip` does, where at most 1 is left to be placed.
pub(super) fn push_last<K: ArcSink<R, S>, R, S>(
    begun: Begun,
    bounds: &[u32],
    x: &[u32],
    tip: &mut [u32],
    sink: &K,
    room: &mut R,
    out: &mut S,
) -> Result<(), K::Fault>
    requires begun { IsBegun bounds.now x.now begun.room begun.shared begun.left begun.common }
    requires few { begun.left ≤ 1 }
    requires width { length tip.old ≡ K.width sink.now }
    requires ready { K.ready sink.now room.old out.old }
    requires place { length x.now ≤ length tip.old }
    ensures same { OnOk result (front_of tip.new x.now ≡ front_of tip.old x.now) }
    ensures given { AreGiven (K.took sink.now) (K.cut sink.now) room.old out.old
        (arcs_under begun.size_bits (front_of tip.old x.now) begun.common
        x.now (reverse (bounded_sums begun.left bounds.now))) room.new out.new result }
    ensures ready { OnOk result (K.ready sink.now room.new out.new) }
{
    if begun.left == 0 {
        return push_zeros(begun, bounds, x, tip, sink, room, out);
    }
    let start = tip.len() - x.len();
    put_zeros(tip, start);
    push_units(begun, bounds, x, tip, sink, room, out)
}

// Hands out the arcs to the vectors that go on with a single 1: the other entries of `tip` are 0.
fn push_units<K: ArcSink<R, S>, R, S>(
    begun: Begun,
    bounds: &[u32],
    x: &[u32],
    tip: &mut [u32],
    sink: &K,
    room: &mut R,
    out: &mut S,
) -> Result<(), K::Fault>
    requires begun { IsBegun bounds.now x.now begun.room begun.shared begun.left begun.common }
    requires one { begun.left ≡ 1 }
    requires width { length tip.old ≡ K.width sink.now }
    requires ready { K.ready sink.now room.old out.old }
    requires place { length x.now ≤ length tip.old }
    requires zeros { drop (length tip.old - length x.now) tip.old ≡ replicate (length x.now) 0 }
    ensures same { OnOk result (tip.new ≡ tip.old) }
    ensures given { AreGiven (K.took sink.now) (K.cut sink.now) room.old out.old
        (arcs_under begun.size_bits (front_of tip.old x.now) begun.common
        x.now (reverse (bounded_sums begun.left bounds.now))) room.new out.new result }
    ensures ready { OnOk result (K.ready sink.now room.new out.new) }
{
    let start = tip.len() - x.len();
    for i in 0..x.len() {
        let wanted = is_unit_wanted(begun, bounds[i], x[i]);
        push_unit(wanted, tip, start + i, sink, room, out)?;
    }
    Ok(())
}

// Whether a vector that goes on with a single 1, at a place with this bound and this entry of `x`, is one of those that are
// joined.
fn is_unit_wanted(begun: Begun, bound: u32, own: u32) -> bool
    requires few { begun.common + 1 < 2 ^ 32 }
    ensures { result
        ≡ (nat_lt 0 bound && is_wanted_size begun.size_bits (begun.common + min own 1)) }
{
    bound > 0 && is_wanted(begun.size_bits, u64::from(begun.common + own.min(1)))
}

// Hands out the arc to the vector that has a 1 at this place, if it is wanted. `tip` has a 0 there.
fn push_unit<K: ArcSink<R, S>, R, S>(
    wanted: bool,
    tip: &mut [u32],
    place: usize,
    sink: &K,
    room: &mut R,
    out: &mut S,
) -> Result<(), K::Fault>
    requires width { length tip.old ≡ K.width sink.now }
    requires ready { K.ready sink.now room.old out.old }
    requires zero { slice_get tip.old place ≡ Some 0 }
    ensures same { OnOk result (tip.new ≡ tip.old) }
    ensures given { AreGiven (K.took sink.now) (K.cut sink.now) room.old out.old
        (if wanted then record { tip = set tip.old place 1; len = pos 1 } ∷ [] else []) room.new
        out.new result }
    ensures ready { OnOk result (K.ready sink.now room.new out.new) }
{
    if !wanted {
        return Ok(());
    }
    tip[place] = 1;
    sink.put_arc(tip, 1, room, out)?;
    tip[place] = 0;
    Ok(())
}

// Hands out the arc to the vector whose other entries are 0, if it has a wanted size in common.
pub(super) fn push_zeros<K: ArcSink<R, S>, R, S>(
    begun: Begun,
    bounds: &[u32],
    x: &[u32],
    tip: &mut [u32],
    sink: &K,
    room: &mut R,
    out: &mut S,
) -> Result<(), K::Fault>
    requires within { IsWithin x.now bounds.now }
    requires none { begun.left ≡ 0 }
    requires width { length tip.old ≡ K.width sink.now }
    requires ready { K.ready sink.now room.old out.old }
    requires place { length x.now ≤ length tip.old }
    ensures same { OnOk result (front_of tip.new x.now ≡ front_of tip.old x.now) }
    ensures given { AreGiven (K.took sink.now) (K.cut sink.now) room.old out.old
        (arcs_under begun.size_bits (front_of tip.old x.now) begun.common
        x.now (reverse (bounded_sums begun.left bounds.now))) room.new out.new result }
    ensures ready { OnOk result (K.ready sink.now room.new out.new) }
{
    if !is_wanted(begun.size_bits, u64::from(begun.common)) {
        return Ok(());
    }
    let start = tip.len() - x.len();
    put_zeros(tip, start);
    sink.put_arc(tip, 1, room, out)
}

// Makes the entries from this place on 0.
fn put_zeros(tip: &mut [u32], start: usize)
    requires { start ≤ length tip.old }
    ensures { tip.new ≡ take start tip.old ++ replicate (length tip.old - start) 0 }
{
    tip[start..].fill(0);
}
