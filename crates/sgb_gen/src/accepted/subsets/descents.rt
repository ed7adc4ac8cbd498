//! The arcs of one vector of the subsets, by a descent: the vectors are taken entry by entry, the greatest entry first,
//! and a beginning is left as soon as no vector that has it can have a wanted size in common.
//!
//! So its time grows with the arcs and the bounds, and not with the vertices.
ghost use Rattle.std.specs.Prelude.{◌≡◌, ◌+◌, ◌-◌, ◌^◌, ◌≤◌, ◌<◌, min, ℕ, List, false, ◌∷◌, length, reverse, sum, OnOk};
ghost use Rattle.std.specs.Bool.{OnFalse};
ghost use Rattle.sgb_vec.specs.Limits.{most_dimensions, most_vertices};
ghost use Rattle.sgb_vec.specs.Sums.{bounded_sums};
ghost use Rattle.sgb_gen.specs.ArcSinks.{AreGiven};
ghost use Rattle.sgb_gen.specs.Subsets.{is_wanted_size};
ghost use Rattle.sgb_gen.specs.inner.Descents.{AreBetween, IsBegun, arcs_under, down_from, down_to, front_of, rows};

use super::Subsets;
use super::last_entries::{push_last, push_zeros};
use super::sizes::{WantedSizes, may_be_among, wanted_entries};
use crate::arc_sinks::ArcSink;

// What is known where some entries of a vector are placed: which sizes are wanted, what the bounds of the other entries
// add to and what the other entries of `x` do, what is left to be placed, and how many elements are in common so far.
#[derive(Clone, Copy)]
pub(super) struct Begun {
    pub size_bits: u128,
    pub room: u64,
    pub shared: u64,
    pub left: u32,
    pub common: u32,
}

// The entries from one on, so many.
#[derive(Clone, Copy)]
pub(super) struct EntryRange {
    pub least: u32,
    pub count: u32,
}

impl Subsets {
    // What is known where no entry of a vector is placed.
    pub(super) fn begun(&self) -> Begun
        ensures value { result ≡ record {
          size_bits = self.now.size_bits;
          room = sum self.now.sum.bounds;
          shared = self.now.sum.total;
          left = self.now.sum.total;
          common = 0;
        } }
        ensures small { self.now.sum.total ≤ most_vertices }
    {
        Begun {
            size_bits: self.size_bits,
            room: sum_of_entries(self.sizes()),
            shared: u64::from(self.family.total()),
            left: self.family.total(),
            common: 0,
        }
    }
}

// Hands out the arcs to the vectors down to `x`, or to what is left of them. They begin as `tip` does.
pub(super) fn push_to<K: ArcSink<R, S>, R, S>(
    sizes: &WantedSizes,
    begun: Begun,
    bounds: &[u32],
    x: &[u32],
    tip: &mut [u32],
    sink: &K,
    room: &mut R,
    out: &mut S,
) -> Result<(), K::Fault>
    requires begun { IsBegun bounds.now x.now begun.room begun.shared begun.left begun.common }
    requires all { begun.left ≡ sum x.now }
    requires sizes { AreBetween begun.size_bits sizes.now.first sizes.now.last }
    requires width { length tip.old ≡ K.width sink.now }
    requires ready { K.ready sink.now room.old out.old }
    requires place { length x.now ≤ length tip.old }
    ensures same { OnOk result (front_of tip.new x.now ≡ front_of tip.old x.now) }
    ensures given { AreGiven (K.took sink.now) (K.cut sink.now) room.old out.old
        (arcs_under begun.size_bits (front_of tip.old x.now) begun.common
        x.now (down_to bounds.now x.now)) room.new out.new result }
    ensures ready { OnOk result (K.ready sink.now room.new out.new) }
{
    if !may_be_among(sizes, begun) {
        return Ok(());
    }
    let place = tip.len() - x.len();
    let (Some((bound, bounds)), Some((own, x))) = (bounds.split_first(), x.split_first()) else {
        return push_zeros(begun, bounds, x, tip, sink, room, out);
    };
    let end = begun.left.min(*bound) + 1;
    let entries = with_room(begun.left, begun.room - u64::from(*bound), *own + 1, end);
    push_rows(
        sizes, begun, *bound, *own, bounds, x, entries, tip, sink, room, out,
    )?;
    tip[place] = *own;
    push_to(
        sizes,
        placed(begun, *bound, *own, *own),
        bounds,
        x,
        tip,
        sink,
        room,
        out,
    )
}

// Hands out the arcs to the vectors from `x` on down, or to what is left of them. They begin as `tip` does.
pub(super) fn push_from<K: ArcSink<R, S>, R, S>(
    sizes: &WantedSizes,
    begun: Begun,
    bounds: &[u32],
    x: &[u32],
    tip: &mut [u32],
    sink: &K,
    room: &mut R,
    out: &mut S,
) -> Result<(), K::Fault>
    requires begun { IsBegun bounds.now x.now begun.room begun.shared begun.left begun.common }
    requires all { begun.left ≡ sum x.now }
    requires sizes { AreBetween begun.size_bits sizes.now.first sizes.now.last }
    requires width { length tip.old ≡ K.width sink.now }
    requires ready { K.ready sink.now room.old out.old }
    requires place { length x.now ≤ length tip.old }
    ensures same { OnOk result (front_of tip.new x.now ≡ front_of tip.old x.now) }
    ensures given { AreGiven (K.took sink.now) (K.cut sink.now) room.old out.old
        (arcs_under begun.size_bits (front_of tip.old x.now) begun.common
        x.now (down_from bounds.now x.now)) room.new out.new result }
    ensures ready { OnOk result (K.ready sink.now room.new out.new) }
{
    if !may_be_among(sizes, begun) {
        return Ok(());
    }
    let place = tip.len() - x.len();
    let (Some((bound, bounds)), Some((own, x))) = (bounds.split_first(), x.split_first()) else {
        return push_zeros(begun, bounds, x, tip, sink, room, out);
    };
    tip[place] = *own;
    push_from(
        sizes,
        placed(begun, *bound, *own, *own),
        bounds,
        x,
        tip,
        sink,
        room,
        out,
    )?;
    let entries = with_room(begun.left, begun.room - u64::from(*bound), 0, *own);
    push_rows(
        sizes, begun, *bound, *own, bounds, x, entries, tip, sink, room, out,
    )
}

// Hands out the arcs to all vectors that begin as `tip` does. Of the entries with which a vector may go on, the
// least comes last: with that one the loop goes on, and into each greater one it descends.
#[cycle(descent)]
fn push_all<K: ArcSink<R, S>, R, S>(
    sizes: &WantedSizes,
    begun: Begun,
    bounds: &[u32],
    x: &[u32],
    tip: &mut [u32],
    sink: &K,
    room: &mut R,
    out: &mut S,
) -> Result<(), K::Fault>
    requires begun { IsBegun bounds.now x.now begun.room begun.shared begun.left begun.common }
    requires sizes { AreBetween begun.size_bits sizes.now.first sizes.now.last }
    requires width { length tip.old ≡ K.width sink.now }
    requires ready { K.ready sink.now room.old out.old }
    requires place { length x.now ≤ length tip.old }
    ensures same { OnOk result (front_of tip.new x.now ≡ front_of tip.old x.now) }
    ensures given { AreGiven (K.took sink.now) (K.cut sink.now) room.old out.old
        (arcs_under begun.size_bits (front_of tip.old x.now) begun.common
        x.now (reverse (bounded_sums begun.left bounds.now))) room.new out.new result }
    ensures ready { OnOk result (K.ready sink.now room.new out.new) }
{
    let start = tip.len() - x.len();
    let mut state = begun;
    let mut i = 0;
    while state.left > 1 {
        if i == x.len() {
            return Ok(());
        }
        let entries = wanted_entries(sizes, state, bounds[i], x[i]);
        if entries.count == 0 {
            return Ok(());
        }
        push_greater(
            sizes,
            state,
            bounds[i],
            x[i],
            &bounds[i + 1..],
            &x[i + 1..],
            entries,
            tip,
            sink,
            room,
            out,
        )?;
        tip[start + i] = entries.least;
        state = placed(state, bounds[i], x[i], entries.least);
        i += 1;
    }
    push_last(state, &bounds[i..], &x[i..], tip, sink, room, out)
}

// Hands out the arcs to the vectors that go on with one of these entries, but not with the least.
#[cycle(descent)]
fn push_greater<K: ArcSink<R, S>, R, S>(
    sizes: &WantedSizes,
    begun: Begun,
    bound: u32,
    own: u32,
    bounds: &[u32],
    x: &[u32],
    entries: EntryRange,
    tip: &mut [u32],
    sink: &K,
    room: &mut R,
    out: &mut S,
) -> Result<(), K::Fault>
    requires begun { IsBegun (bound ∷ bounds.now) (own ∷ x.now) begun.room begun.shared begun.left
        begun.common }
    requires entries { entries.least + entries.count ≤ begun.left + 1 }
    requires sizes { AreBetween begun.size_bits sizes.now.first sizes.now.last }
    requires width { length tip.old ≡ K.width sink.now }
    requires ready { K.ready sink.now room.old out.old }
    requires place { length x.now < length tip.old }
    ensures same { OnOk result (front_of tip.new (own ∷ x.now) ≡ front_of tip.old (own ∷ x.now)) }
    ensures given { AreGiven (K.took sink.now) (K.cut sink.now) room.old out.old
        (arcs_under begun.size_bits (front_of tip.old (own ∷ x.now))
        begun.common (own ∷ x.now)
        (rows begun.left bounds.now (entries.least + 1) (entries.count - 1)))
        room.new out.new result }
    ensures ready { OnOk result (K.ready sink.now room.new out.new) }
{
    if entries.count < 2 {
        return Ok(());
    }
    let greater = EntryRange {
        least: entries.least + 1,
        count: entries.count - 1,
    };
    push_rows(
        sizes, begun, bound, own, bounds, x, greater, tip, sink, room, out,
    )
}

// Hands out the arcs to the vectors that go on with one of these entries.
#[cycle(descent)]
fn push_rows<K: ArcSink<R, S>, R, S>(
    sizes: &WantedSizes,
    begun: Begun,
    bound: u32,
    own: u32,
    bounds: &[u32],
    x: &[u32],
    entries: EntryRange,
    tip: &mut [u32],
    sink: &K,
    room: &mut R,
    out: &mut S,
) -> Result<(), K::Fault>
    requires begun { IsBegun (bound ∷ bounds.now) (own ∷ x.now) begun.room begun.shared begun.left
        begun.common }
    requires entries { entries.least + entries.count ≤ begun.left + 1 }
    requires sizes { AreBetween begun.size_bits sizes.now.first sizes.now.last }
    requires width { length tip.old ≡ K.width sink.now }
    requires ready { K.ready sink.now room.old out.old }
    requires place { length x.now < length tip.old }
    ensures same { OnOk result (front_of tip.new (own ∷ x.now) ≡ front_of tip.old (own ∷ x.now)) }
    ensures given { AreGiven (K.took sink.now) (K.cut sink.now) room.old out.old
        (arcs_under begun.size_bits (front_of tip.old (own ∷ x.now))
        begun.common (own ∷ x.now) (rows begun.left bounds.now entries.least entries.count))
        room.new out.new result }
    ensures ready { OnOk result (K.ready sink.now room.new out.new) }
{
    let place = tip.len() - x.len() - 1;
    for k in (0..entries.count).rev() {
        let entry = entries.least + k;
        let further = placed(begun, bound, own, entry);
        if !may_be_among(sizes, further) {
            continue;
        }
        tip[place] = entry;
        push_all(sizes, further, bounds, x, tip, sink, room, out)?;
    }
    Ok(())
}

// What is known with one more entry, whose bound and whose own entry of `x` these are.
pub(super) fn placed(begun: Begun, bound: u32, own: u32, entry: u32) -> Begun
    requires room { bound ≤ begun.room }
    requires shared { own ≤ begun.shared }
    requires left { entry ≤ begun.left }
    requires few { begun.common + begun.left < 2 ^ 32 }
    ensures { result
        ≡ record begun {
          room = begun.room - bound;
          shared = begun.shared - own;
          left = begun.left - entry;
          common = begun.common + min own entry;
        } }
{
    Begun {
        size_bits: begun.size_bits,
        room: begun.room - u64::from(bound),
        shared: begun.shared - u64::from(own),
        left: begun.left - entry,
        common: begun.common + own.min(entry),
    }
}

// The entries from `low` on and below `end` that leave no more than there is room for.
pub(super) fn with_room(left: u32, room: u64, low: u32, end: u32) -> EntryRange
    requires low { low ≤ left + 1 }
    requires end { end ≤ left + 1 }
    ensures few { result.least + result.count ≤ left + 1 }
    ensures same { (bounds : List ℕ) → sum bounds ≡ room →
        rows left bounds low (end - low) ≡ rows left bounds result.least result.count }
{
    let least = u64::from(left).saturating_sub(room).max(u64::from(low)) as u32;
    EntryRange {
        least,
        count: end.saturating_sub(least),
    }
}

// Whether a size from one to another is wanted: the least wanted one that is not below the first tells. Where none is,
// the answer may still be yes, which costs time alone.
pub(super) fn any_wanted(size_bits: u128, from: u64, to: u64) -> bool
    requires { from + 128 < 2 ^ 64 }
    ensures { OnFalse result ((k : ℕ) → from ≤ k → k ≤ to → is_wanted_size size_bits k ≡ false) }
{
    if from > 127 {
        return false;
    }
    let later = size_bits >> from;
    from + u64::from(later.trailing_zeros()) <= to
}

// What these entries add to.
fn sum_of_entries(entries: &[u32]) -> u64
    requires { length entries.now ≤ most_dimensions + 1 }
    ensures { result ≡ sum entries.now }
{
    entries.iter().map(|entry| u64::from(*entry)).sum()
}
