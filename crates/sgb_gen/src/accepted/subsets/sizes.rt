//! Which sizes in common are wanted, as the descents of the subsets ask for them.
ghost use Rattle.std.specs.Prelude.{◌≡◌, ◌+◌, ◌-◌, ◌^◌, ◌≤◌, ◌<◌, ℕ, List, false, ◌∷◌, reverse};
ghost use Rattle.std.specs.Bool.{OnFalse};
ghost use Rattle.sgb_vec.specs.Limits.{most_vertices};
ghost use Rattle.sgb_vec.specs.Sums.{bounded_sums};
ghost use Rattle.sgb_gen.specs.Subsets.{is_wanted_size};
ghost use Rattle.sgb_gen.specs.inner.Descents.{AreBetween, HasNoArcs, IsBegun, arcs_under, rows};

use super::descents::{Begun, EntryRange, any_wanted, placed, with_room};

// The least wanted size and the greatest one, and whether all between them are wanted too.
#[derive(Drop)]
pub(super) struct WantedSizes {
    pub first: u64,
    pub last: u64,
    pub is_run: bool,
}

impl WantedSizes {
    // Those of these bits; of no bits, none is between the two.
    pub(super) fn of(size_bits: u128) -> WantedSizes
        ensures { AreBetween size_bits result.first result.last }
    {
        let first = u64::from(size_bits.trailing_zeros());
        let last = 127_u64.saturating_sub(u64::from(size_bits.leading_zeros()));
        WantedSizes {
            first,
            last,
            is_run: first + u64::from(size_bits.count_ones()) == last + 1,
        }
    }
}

// Whether a vector that begins so may have a wanted size in common. Where all sizes from the least wanted one to the
// greatest are wanted, these two tell.
pub(super) fn may_be_among(sizes: &WantedSizes, begun: Begun) -> bool
    requires sizes { AreBetween begun.size_bits sizes.now.first sizes.now.last }
    requires few { begun.common + begun.left < 2 ^ 32 }
    ensures { OnFalse result ((k : ℕ) → begun.left ≤ k + (begun.room - begun.shared) →
        k ≤ begun.left → k ≤ begun.shared →
        is_wanted_size begun.size_bits (k + begun.common) ≡ false) }
{
    let left = u64::from(begun.left);
    let common = u64::from(begun.common);
    let least = common + left.saturating_sub(begun.room.saturating_sub(begun.shared));
    let most = common + left.min(begun.shared);
    least <= sizes.last
        && sizes.first <= most
        && (sizes.is_run || any_wanted(begun.size_bits, least, most))
}

// The entries with which a vector that begins so may have a wanted size in common, and what is between them.
pub(super) fn wanted_entries(sizes: &WantedSizes, begun: Begun, bound: u32, own: u32) -> EntryRange
    requires sizes { AreBetween begun.size_bits sizes.now.first sizes.now.last }
    requires room { bound ≤ begun.room }
    requires shared { own ≤ begun.shared }
    requires few { begun.common + begun.left ≤ most_vertices }
    ensures few { result.least + result.count ≤ begun.left + 1 }
    ensures same { (front bounds x : List ℕ) →
        IsBegun (bound ∷ bounds) (own ∷ x) begun.room begun.shared begun.left begun.common →
        arcs_under begun.size_bits front begun.common (own ∷ x)
        (reverse (bounded_sums begun.left (bound ∷ bounds)))
        ≡ arcs_under begun.size_bits front begun.common (own ∷ x)
        (rows begun.left bounds result.least result.count) }
{
    let end = begun.left.min(bound) + 1;
    let entries = with_room(begun.left, begun.room - u64::from(bound), 0, end);
    let end = entries.least + entries.count;
    let least = least_wanted(sizes, begun, bound, own, entries.least, end);
    let end = end_of_wanted(sizes, begun, bound, own, least, end);
    EntryRange {
        least,
        count: end - least,
    }
}

// The least entry from `low` on and below `end` with which a vector that begins so may have a wanted size in common, else
// `end`.
fn least_wanted(sizes: &WantedSizes, begun: Begun, bound: u32, own: u32, low: u32, end: u32) -> u32
    requires sizes { AreBetween begun.size_bits sizes.now.first sizes.now.last }
    requires room { bound ≤ begun.room }
    requires shared { own ≤ begun.shared }
    requires few { begun.common + begun.left ≤ most_vertices }
    requires low { low ≤ end }
    requires end { end ≤ begun.left + 1 }
    ensures from { low ≤ result }
    ensures end { result ≤ end }
    ensures none { (e : ℕ) → low ≤ e → e < result →
        HasNoArcs begun.size_bits begun.room begun.shared begun.left begun.common bound own e }
{
    let mut least = low;
    while least < end {
        if may_be_among(sizes, placed(begun, bound, own, least)) {
            return least;
        }
        least += 1;
    }
    least
}

// The end of those entries.
fn end_of_wanted(sizes: &WantedSizes, begun: Begun, bound: u32, own: u32, low: u32, end: u32) -> u32
    requires sizes { AreBetween begun.size_bits sizes.now.first sizes.now.last }
    requires room { bound ≤ begun.room }
    requires shared { own ≤ begun.shared }
    requires few { begun.common + begun.left ≤ most_vertices }
    requires low { low ≤ end }
    requires end { end ≤ begun.left + 1 }
    ensures from { low ≤ result }
    ensures end { result ≤ end }
    ensures none { (e : ℕ) → result ≤ e → e < end →
        HasNoArcs begun.size_bits begun.room begun.shared begun.left begun.common bound own e }
{
    let mut after = end;
    while low + 1 < after {
        if may_be_among(sizes, placed(begun, bound, own, after - 1)) {
            return after;
        }
        after -= 1;
    }
    after
}
