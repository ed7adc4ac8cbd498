//! Events with the same two ends made into one (GB_BASIC, gunion).
//!
//! A map of their ends is made only where nothing cheaper tells them apart: sums of ends that rise, the sums of few events
//! compared in pairs, or a table of 16,384 bits, in which each event sets the bit at the sum of its ends. So a vertex of
//! a union without parallel arcs is hashed nowhere, on up to 16,384 vertices, nor is one in the middle of a wheel,
//! however great.
ghost use Rattle.std.specs.Prelude.{◌≡◌, ◌≢◌, ◌+◌, Bool, false, map, All, OnOk, IfOk, IsOkUnless};
ghost use Rattle.std.specs.Bool.{OnFalse, OnTrue};
ghost use Rattle.sgb_taken.specs.inner.Ends.{ends_key};
ghost use Rattle.sgb_ops.specs.inner.Ends.{with_event};
ghost use Rattle.sgb_ops.specs.Merged.{merged, merged_unless};
ghost use Rattle.sgb_ops.specs.inner.Merged.{HaveDifferentEnds};

use indexmap::IndexSet;
use sgb_taken::Event;
use sgb_vec::Panic;
use std::alloc::Global;

/// The events as they are where parallel ones are wanted, else of those with the same two ends one, at the first one's
/// place, with the least length of them all (GB_BASIC, gunion). It takes the expected time of their number.
///
/// `NoRoom` when out of memory, and nothing else.
pub(crate) fn merged_unless(
    alloc: Global,
    multi: bool,
    directed: bool,
    events: Vec<Event>,
) -> Result<Vec<Event>, Panic>
    ensures ok { IfOk result (λ left. left.items ≡ merged_unless multi directed events.items) }
    ensures memory { IsOkUnless result Panic.NoRoom }
{
    if are_merged(multi, &events) {
        return Ok(events);
    }
    merged(alloc, directed, &events)
}

/// Whether the events stay as they are: parallel ones are wanted, or no two have the same ends, as far as `are_apart` tells.
#[inline(always)]
pub(crate) fn are_merged(multi: bool, events: &[Event]) -> bool
    ensures same { OnTrue result ((directed : Bool)
        → merged_unless multi directed events.now ≡ events.now) }
    ensures others { OnFalse result (multi ≡ false) }
{
    multi || are_apart(events)
}

// So many events are compared in pairs, where a table of bits would have to be cleared.
const FEW: usize = 8;

// Whether no two of the events have the same ends, as far as the sums of their ends tell. The answer is also `false`
// where two events with different ends have the same sum, or share a bit. It needs no hashing.
#[inline(always)]
fn are_apart(events: &[Event]) -> bool
    ensures { OnTrue result (HaveDifferentEnds events.now) }
{
    if are_rising(events) {
        return true;
    }
    if events.len() > FEW {
        return have_own_bits(events);
    }
    have_own_sums(events)
}

// Whether the sums of the ends rise: then no two of the events have the same ends. It needs no table, for any number of
// events, as those of one vertex that is joined to others in their order.
#[inline(always)]
fn are_rising(events: &[Event]) -> bool
    ensures { OnTrue result (HaveDifferentEnds events.now) }
{
    // One more than the sum of the event before.
    let mut least = 0;
    for event in events {
        let sum = event.ends_sum();
        if sum < least {
            return false;
        }
        least = sum + 1;
    }
    true
}

// Whether no two of the events have the same sum of their ends. It takes the time of their pairs.
fn have_own_sums(events: &[Event]) -> bool
    ensures { OnTrue result (HaveDifferentEnds events.now) }
{
    for i in 0..events.len() {
        if has_sum(&events[..i], events[i].ends_sum()) {
            return false;
        }
    }
    true
}

// Whether one of the events has this sum of its ends.
#[inline(always)]
fn has_sum(events: &[Event], sum: u64) -> bool
    ensures { OnFalse result (All (λ e. e.from + e.to ≢ sum) events.now) }
{
    for event in events {
        if event.ends_sum() == sum {
            return true;
        }
    }
    false
}

// Whether no two of the events have the same bit in a table.
fn have_own_bits(events: &[Event]) -> bool
    ensures { OnTrue result (HaveDifferentEnds events.now) }
{
    // The bits at the places of the events so far.
    let mut seen = [0_u64; 256];
    for event in events {
        let place = event.bit_place();
        let word = place / 64;
        let bit = place % 64;
        let known = (seen[word] >> bit) & 1;
        if known == 1 {
            return false;
        }
        seen[word] |= 1 << bit;
    }
    true
}

/// Of the events with the same two ends one, at the first one's place, with the least length (GB_BASIC, gunion).
///
/// `NoRoom` when out of memory, and nothing else.
pub(crate) fn merged(alloc: Global, directed: bool, events: &[Event]) -> Result<Vec<Event>, Panic>
    ensures ok { IfOk result (λ left. left.items ≡ merged directed events.now) }
    ensures memory { IsOkUnless result Panic.NoRoom }
{
    let mut left = Vec::with_capacity(alloc, events.len())?;
    // The ends of the events that are left, in the same order.
    let mut ends = IndexSet::with_capacity(alloc, events.len())?;
    for event in events {
        merge_event(&mut left, &mut ends, directed, *event)?;
    }
    Ok(left)
}

// Shortens the event that has the ends of this one, or puts this one last. `ends` has the ends of those in `left`.
fn merge_event(
    left: &mut Vec<Event>,
    ends: &mut IndexSet<(u32, u32)>,
    directed: bool,
    event: Event,
) -> Result<(), Panic>
    requires ends { ends.old.keys ≡ map (ends_key directed) left.old.items }
    ensures ok { OnOk result (left.new.items ≡ with_event directed left.old.items event) }
    ensures ends { OnOk result (ends.new.keys ≡ map (ends_key directed) left.new.items) }
    ensures memory { IsOkUnless result Panic.NoRoom }
{
    let (place, is_new) = ends.insert_full(event.ends(directed))?;
    if is_new {
        left.push(event)?;
        return Ok(());
    }
    left[place] = left[place].shortened(event);
    Ok(())
}
