//! The vectors of a bounded sum.
//!
//! The vector after another, and the one before it, are found by carries: from the right the place that can rise (or
//! fall), and after it the least (or greatest) vector of what is left. That is one look from the right and one refill,
//! at most two visits for each entry.
ghost use Rattle.std.specs.Prelude.{◌≡◌, ◌+◌, ◌<◌, ◌≤◌, ◌<ℤ◌, pos, ◌^◌, ◌⊎◌, ◌↔◌, length, drop, sum, Contains, IsTrue, IfSome, IfNone, slice_index, slice_get, nat_le, Some};
ghost use Rattle.std.specs.Bool.{OnTrue, OnFalse};
ghost use Rattle.std.specs.List.{list_all, zip};
ghost use Rattle.sgb_vec.specs.Lexicographic.{IsWithin};
ghost use Rattle.sgb_vec.specs.Limits.{most_dimensions, most_vertices};
ghost use Rattle.sgb_vec.specs.Order.{HasNoneBefore, IsFinal, IsFirst, IsLast, IsNext, IsPrevious};
ghost use Rattle.sgb_vec.specs.Visits.{HasVisited, changed_entries};
ghost use Rattle.sgb_vec.specs.Sums.{bounded_sums};

use crate::entries::{count_of, put_zeros};
use crate::families::{Family, Vector};
use crate::limits::MOST_VERTICES;
use crate::panics::Panic;
use crate::steps::Steps;
use arrayvec::ArrayVec;
use counts::count_vectors;
use places::{place_among, put_at};
use std::alloc::Global;
use std::marker::Model;

mod counts;
mod places;
mod rows;
mod triples;

/// The vectors of a bounded sum: all `(x0, .., xd)` with `xk` at most the k-th bound that add to `n`, in
/// lexicographic order (GB_BASIC, simplex). at most 251 bounds and 1,000,000,000 vectors. Contracts see it
/// as its sum and its bounds.
#[derive(Drop)]
pub struct SumFamily {
    total: u32,
    bounds: ArrayVec<u32, 251>,
    count: u32,
}

impl Model for SumFamily {
    ghost use Rattle.std.specs.Prelude.{◌≡◌, ◌≤◌, length};
    ghost use Rattle.sgb_vec.specs.Limits.{most_vertices};
    ghost use Rattle.sgb_vec.specs.Sums.{BoundedSum, bounded_sums};

    ghost Value = { BoundedSum };

    ghost view = { λ s. record { total = s.total; bounds = s.bounds.items } };

    ghost invariant = { λ s. (s.count ≡ length (bounded_sums s.total s.bounds.items))
        × (s.count ≤ most_vertices) × (s.total ≤ most_vertices) };
}

impl SumFamily {
    ghost use Rattle.sgb_vec.specs.Sums.{sum_of};
    ghost use Rattle.sgb_vec.specs.declared.panics.Panic.TheVariants.{NoRoom};

    /// The vectors within the bounds that add to `n`; there may be none.
    ///
    /// `Bad` where `n` is negative; `VeryBad` where it is above 1,000,000,000, both whatever memory there is, or
    /// where for some j from 1 to d and some k up to `n` more than 1,000,000,000 vectors within the first j+1
    /// bounds add to k; `NoRoom` when out of memory, and never for one bound or none. Memory grows with the smaller of `n`
    /// and the sum of all bounds but the two greatest, and stays small where that is refused; so does the time for each
    /// bound.
    pub fn new(alloc: Global, n: i64, bounds: &[u32]) -> Result<SumFamily, Panic>
        requires { length bounds.now ≤ most_dimensions + 1 }
        ensures value { (result ≡ sum_of n bounds.now) ⊎ (result ≡ Err NoRoom) }
        ensures negative { n <ℤ pos 0 → result ≡ Err Panic.Bad }
        ensures great { pos most_vertices <ℤ n → result ≡ Err Panic.VeryBad }
        ensures few { length bounds.now < 2 → result ≡ sum_of n bounds.now }
    {
        if n < 0 {
            return Err(Panic::Bad);
        }
        if n > i64::from(MOST_VERTICES) {
            return Err(Panic::VeryBad);
        }
        let total = n as u32;
        let count = count_vectors(alloc, total, bounds)?;
        let bounds = ArrayVec::try_from(bounds).unwrap();
        Ok(SumFamily {
            total,
            bounds,
            count,
        })
    }

    /// What the vectors add to, at most 1,000,000,000.
    pub fn total(&self) -> u32
        ensures total { result ≡ self.now.total }
        ensures small { result ≤ most_vertices }
    {
        self.total
    }

    /// The place of a vector among them, counted from 0. It is found by counting, at most once for each entry, and no
    /// memory is taken. Where the counts have no room in place, which no sum is known to need, a walk finds it.
    pub fn place_of(&self, vector: &[u32]) -> u32
        requires { Contains (bounded_sums self.now.total self.now.bounds) vector.now }
        ensures { slice_get (bounded_sums self.now.total self.now.bounds) result ≡ Some vector.now }
    {
        if let Some(place) = place_among(self.bounds.as_slice(), vector, self.total) {
            return place;
        }
        self.place_by_walk(vector)
    }

    // Puts the member at this place there: those before it are walked.
    fn walk_to(&self, place: u32, vector: &mut Vector)
        requires { place < length (bounded_sums self.now.total self.now.bounds) }
        ensures { slice_get (bounded_sums self.now.total self.now.bounds) place ≡ Some
            vector.new.items }
    {
        let _some = self.first(vector, &mut Steps::new());
        for _k in 0..place {
            let _more = self.advance(vector.as_mut_slice(), &mut Steps::new());
        }
    }

    // The place of a member: those before it are walked.
    fn place_by_walk(&self, vector: &[u32]) -> u32
        requires { Contains (bounded_sums self.now.total self.now.bounds) vector.now }
        ensures { slice_get (bounded_sums self.now.total self.now.bounds) result ≡ Some vector.now }
    {
        let mut walked = Vector::new();
        let _some = self.first(&mut walked, &mut Steps::new());
        let last = self.count - 1;
        for place in 0..last {
            if walked.as_slice() == vector {
                return place;
            }
            let _more = self.advance(walked.as_mut_slice(), &mut Steps::new());
        }
        last
    }

    // Puts the vector after `entries` into it: the last entry that can grow at the cost of those after it grows by 1,
    // and these become the first vector of what is left to them. `false` where none can, and `entries` is then as
    // before.
    fn advance(&self, entries: &mut [u32], steps: &mut Steps) -> bool
        requires member { Contains (bounded_sums self.now.total self.now.bounds) entries.old }
        requires few { length entries.old ≤ 251 }
        requires count { steps.old ≤ 2 ^ 63 }
        ensures found { OnTrue result
            (IsNext (bounded_sums self.now.total self.now.bounds) entries.old entries.new) }
        ensures last { OnFalse result
            (IsLast (bounded_sums self.now.total self.now.bounds) entries.old) }
        ensures unchanged { OnFalse result (entries.new ≡ entries.old) }
        ensures visits { HasVisited (length self.now.bounds)
            (changed_entries entries.old entries.new) steps.old steps.new }
    {
        let bounds = self.bounds.as_slice();
        let Some((place, after)) = last_growing(bounds, entries, steps) else {
            return false;
        };
        entries[place] += 1;
        put_least(
            &bounds[place + 1..],
            &mut entries[place + 1..],
            after - 1,
            steps,
        );
        true
    }

    // Puts the vector before `entries` into it: the last entry that can fall to the benefit of those after it falls
    // by 1, and these become the last vector of what they then have. `false` where none can, and `entries` is then
    // as before.
    fn retreat(&self, entries: &mut [u32], steps: &mut Steps) -> bool
        requires member { Contains (bounded_sums self.now.total self.now.bounds) entries.old }
        requires few { length entries.old ≤ 251 }
        requires count { steps.old ≤ 2 ^ 63 }
        ensures found { OnTrue result
            (IsPrevious (bounded_sums self.now.total self.now.bounds) entries.old entries.new) }
        ensures first { OnFalse result
            (HasNoneBefore (bounded_sums self.now.total self.now.bounds) entries.old) }
        ensures unchanged { OnFalse result (entries.new ≡ entries.old) }
        ensures visits { HasVisited (length self.now.bounds)
            (changed_entries entries.old entries.new) steps.old steps.new }
    {
        let bounds = self.bounds.as_slice();
        let Some((place, after)) = last_falling(bounds, entries, steps) else {
            return false;
        };
        entries[place] -= 1;
        put_greatest(
            &bounds[place + 1..],
            &mut entries[place + 1..],
            after + 1,
            steps,
        );
        true
    }
}

impl Family for SumFamily {
    ghost members = { λ s. bounded_sums s.total s.bounds };

    ghost width = { λ s. length s.bounds };

    fn dims(&self) -> usize {
        count_of(self.bounds.as_slice())
    }

    fn size(&self) -> u32 {
        self.count
    }

    fn holds(&self, vector: &[u32]) -> bool {
        each_within(vector, self.bounds.as_slice()) && total_of(vector) == u64::from(self.total)
    }

    // It is found by counting; where the counts have no room in place, the members before it are walked.
    fn at(&self, place: u32, vector: &mut Vector) -> bool {
        if place >= self.count {
            return false;
        }
        put_zeros(vector, self.bounds.len(), &mut Steps::new());
        if put_at(
            self.bounds.as_slice(),
            vector.as_mut_slice(),
            self.total,
            place,
        ) {
            return true;
        }
        self.walk_to(place, vector);
        true
    }

    fn first(&self, vector: &mut Vector, steps: &mut Steps) -> bool {
        if self.size() == 0 {
            return false;
        }
        put_zeros(vector, self.bounds.len(), steps);
        put_least(
            self.bounds.as_slice(),
            vector.as_mut_slice(),
            self.total,
            steps,
        );
        true
    }

    fn last(&self, vector: &mut Vector, steps: &mut Steps) -> bool {
        if self.size() == 0 {
            return false;
        }
        put_zeros(vector, self.bounds.len(), steps);
        put_greatest(
            self.bounds.as_slice(),
            vector.as_mut_slice(),
            self.total,
            steps,
        );
        true
    }

    fn next(&self, vector: &mut Vector, steps: &mut Steps) -> bool {
        self.advance(vector.as_mut_slice(), steps)
    }

    fn prev(&self, vector: &mut Vector, steps: &mut Steps) -> bool {
        self.retreat(vector.as_mut_slice(), steps)
    }

    ghost use Rattle.sgb_vec.specs.inner.SumWidth.{length-sum_member};

    ghost each_width = { length-sum_member };

    ghost use Rattle.sgb_vec.specs.inner.Rising.{sum_vectors_rise};

    ghost rising = { sum_vectors_rise };
}

// Whether there are as many entries as bounds, each at most its bound.
fn each_within(entries: &[u32], bounds: &[u32]) -> bool
    ensures { IsTrue result ↔ IsWithin entries.now bounds.now }
{
    entries.len() == bounds.len() && pairs_within(entries, bounds)
}

// Whether each entry is at most the bound beside it.
fn pairs_within(entries: &[u32], bounds: &[u32]) -> bool
    ensures { result ≡ list_all (λ p. nat_le p.0 p.1) (zip entries.now bounds.now) }
{
    entries.iter().zip(bounds).all(|(x, b)| *x <= *b)
}

// What the entries, or the bounds, add to; that may be above 32 bits.
fn total_of(entries: &[u32]) -> u64
    requires { length entries.now ≤ most_dimensions + 1 }
    ensures { result ≡ sum entries.now }
{
    entries.iter().map(|entry| u64::from(*entry)).sum()
}

// Makes `entries` the first of the vectors within the bounds that add to `total`. From the right, each
// entry takes as much of it as its bound lets.
fn put_least(bounds: &[u32], entries: &mut [u32], total: u32, steps: &mut Steps)
    requires same_length { length entries.old ≡ length bounds.now }
    requires room { total ≤ sum bounds.now }
    requires count { steps.old + length entries.old < 2 ^ 64 }
    ensures first { IsFirst (bounded_sums total bounds.now) entries.new }
    ensures visits { steps.new ≡ steps.old + length entries.old }
{
    let mut rest = total;
    for place in (0..bounds.len()).rev() {
        steps.visit();
        let entry = rest.min(bounds[place]);
        entries[place] = entry;
        rest -= entry;
    }
}

// Makes `entries` the last of the vectors within the bounds that add to `total`. From the left, each entry takes as
// much of it as its bound lets.
fn put_greatest(bounds: &[u32], entries: &mut [u32], total: u32, steps: &mut Steps)
    requires same_length { length entries.old ≡ length bounds.now }
    requires room { total ≤ sum bounds.now }
    requires count { steps.old + length entries.old < 2 ^ 64 }
    ensures last { IsFinal (bounded_sums total bounds.now) entries.new }
    ensures visits { steps.new ≡ steps.old + length entries.old }
{
    let mut rest = total;
    for place in 0..bounds.len() {
        steps.visit();
        let taken = rest.min(bounds[place]);
        entries[place] = taken;
        rest -= taken;
    }
}

// The last place whose entry can grow by 1 at the cost of the entries after it, with what these add to.
fn last_growing(bounds: &[u32], entries: &[u32], steps: &mut Steps) -> Option<(usize, u32)>
    requires within { IsWithin entries.now bounds.now }
    requires small { sum entries.now ≤ most_vertices }
    requires count { steps.old + length entries.now < 2 ^ 64 }
    ensures below { IfSome result (λ p. (p.0 < length entries.now)
        × (slice_index entries.now p.0 < slice_index bounds.now p.0)) }
    ensures after { IfSome result (λ p. (0 < p.1) × (p.1 ≡ sum (drop (p.0 + 1) entries.now))) }
    ensures last_after { IfSome result
        (λ p. IsLast (bounded_sums p.1 (drop (p.0 + 1) bounds.now)) (drop (p.0 + 1) entries.now)) }
    ensures last { IfNone result (IsLast (bounded_sums (sum entries.now) bounds.now) entries.now) }
    ensures visits { IfSome result (λ p. steps.new + p.0 ≡ steps.old + length entries.now) }
    ensures all_visited { IfNone result (steps.new ≡ steps.old + length entries.now) }
{
    let mut after: u32 = 0;
    for place in (0..entries.len()).rev() {
        steps.visit();
        if after > 0 && entries[place] < bounds[place] {
            return Some((place, after));
        }
        after += entries[place];
    }
    None
}

// The last place whose entry can fall by 1 to the benefit of the entries after it, with what these add to.
fn last_falling(bounds: &[u32], entries: &[u32], steps: &mut Steps) -> Option<(usize, u32)>
    requires within { IsWithin entries.now bounds.now }
    requires small { sum entries.now ≤ most_vertices }
    requires count { steps.old + length entries.now < 2 ^ 64 }
    ensures above { IfSome result (λ p. (p.0 < length entries.now)
        × (0 < slice_index entries.now p.0)) }
    ensures after { IfSome result (λ p. (p.1 ≡ sum (drop (p.0 + 1) entries.now))
        × (p.1 < sum (drop (p.0 + 1) bounds.now))) }
    ensures first_after { IfSome result
        (λ p. IsFirst (bounded_sums p.1 (drop (p.0 + 1) bounds.now)) (drop (p.0 + 1) entries.now)) }
    ensures first { IfNone result (IsFirst (bounded_sums (sum entries.now) bounds.now)
        entries.now) }
    ensures visits { IfSome result (λ p. steps.new + p.0 ≡ steps.old + length entries.now) }
    ensures all_visited { IfNone result (steps.new ≡ steps.old + length entries.now) }
{
    let mut after: u32 = 0;
    let mut has_room = false;
    for place in (0..entries.len()).rev() {
        steps.visit();
        if has_room && entries[place] > 0 {
            return Some((place, after));
        }
        has_room = has_room || entries[place] < bounds[place];
        after += entries[place];
    }
    None
}
