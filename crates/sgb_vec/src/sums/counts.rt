//! How many vectors a bounded sum has, and whether these are too many.
//!
//! The two greatest bounds stand in no row: a row has the number of vectors within the other bounds for each sum, and
//! the pairs of the two are counted by a formula. The count rises up to half the sum of all bounds and falls after it,
//! so two counts decide: at the lesser of n and that half, and at n. Where n and three bounds are 44,720 or more these
//! three alone have too many vectors, and no row is made: so rows are short.
ghost use Rattle.std.specs.Prelude.{◌≡◌, ◌+◌, ◌-◌, ◌/◌, ◌<◌, ◌≤◌, ◌^◌, ◌++◌, ◌⊎◌, ℕ, List, [], ◌∷◌, All, length, take, sum, min, slice_index, nat_lt, nat_le, true, false, IfOk, IsOk, IfErr, IfSome, IfNone};
ghost use Rattle.std.specs.List.{list_any};
ghost use Rattle.sgb_vec.specs.Limits.{most_dimensions, most_vertices};
ghost use Rattle.sgb_vec.specs.Sums.{has_great_count};
ghost use Rattle.sgb_vec.specs.inner.SumRows.{CountsSums, HasGreatSum, count_of_sum, great_bound, has_great_three};

use super::total_of;
use crate::families::Vector;
use crate::limits::MOST_VERTICES;
use crate::panics::Panic;
use arrayvec::ArrayVec;
use std::alloc::Global;

// A bound from which three such bounds alone have too many vectors.
const GREAT_BOUND: u32 = 44_720;

// How many vectors within the bounds add to `total`. The counts of all bounds but the two greatest stand in a row, so
// that it is short. `VeryBad` where for some of the first bounds, two or more, and some sum up to `total` there are
// more than 1,000,000,000: then there are so many for all bounds too. `NoRoom` when out of memory, and never for one bound.
pub(super) fn count_vectors(alloc: Global, total: u32, bounds: &[u32]) -> Result<u32, Panic>
    requires low { total ≤ most_vertices }
    requires few { length bounds.now ≤ most_dimensions + 1 }
    ensures ok { IfOk result (λ count. (has_great_count total bounds.now ≡ false)
        × (count ≡ count_of_sum total bounds.now) × (count ≤ most_vertices)) }
    ensures err { IfErr result (λ panic.
        ((panic ≡ Panic.VeryBad) × (has_great_count total bounds.now ≡ true))
        ⊎ (panic ≡ Panic.NoRoom)) }
    ensures few { length bounds.now < 2 → IsOk result }
{
    if bounds.len() < 2 {
        return Ok(count_of_one(total, bounds));
    }
    let mut others = ArrayVec::try_from(bounds).unwrap();
    let a = take_greatest(&mut others);
    let b = take_greatest(&mut others);
    let greatest = sum_of_greatest_count(total, bounds);
    count_with_two(alloc, total, greatest, a, b, others.as_slice())
}

// The count for one bound or none, which needs no row: one vector, as far as the bound goes.
fn count_of_one(total: u32, bounds: &[u32]) -> u32
    requires { length bounds.now < 2 }
    ensures count { result ≡ count_of_sum total bounds.now }
    ensures small { result ≤ 1 }
{
    if u64::from(total) <= total_of(bounds) {
        1
    } else {
        0
    }
}

// Takes the greatest of the bounds out of them.
pub(super) fn take_greatest(bounds: &mut Vector) -> u32
    requires { 0 < length bounds.old.items }
    ensures greatest { (k : ℕ) → k < length bounds.old.items
        → slice_index bounds.old.items k ≤ result }
    ensures counts { (k : ℕ) → count_of_sum k bounds.old.items
        ≡ count_of_sum k (result ∷ bounds.new.items) }
    ensures len { length bounds.new.items + 1 ≡ length bounds.old.items }
{
    let place = place_of_greatest(bounds.as_slice());
    bounds.remove(place)
}

// The place of the first of the greatest bounds.
fn place_of_greatest(bounds: &[u32]) -> usize
    requires { 0 < length bounds.now }
    ensures place { result < length bounds.now }
    ensures greatest { (k : ℕ) → k < length bounds.now
        → slice_index bounds.now k ≤ slice_index bounds.now result }
{
    let mut greatest = 0;
    for place in 1..bounds.len() {
        if bounds[place] > bounds[greatest] {
            greatest = place;
        }
    }
    greatest
}

// The sum up to `total` that the most vectors have: the counts rise up to half the sum of the bounds, and fall after.
fn sum_of_greatest_count(total: u32, bounds: &[u32]) -> u32
    requires { length bounds.now ≤ most_dimensions + 1 }
    ensures { result ≡ min total (sum bounds.now / 2) }
{
    u64::from(total).min(total_of(bounds) / 2) as u32
}

// How many vectors within `a`, `b` and the others add to `total`. `VeryBad` where more than 1,000,000,000 add to
// `greatest` or to `total`, or where that is seen before; `NoRoom` when out of memory.
fn count_with_two(
    alloc: Global,
    total: u32,
    greatest: u32,
    a: u32,
    b: u32,
    others: &[u32],
) -> Result<u32, Panic>
    requires low { total ≤ most_vertices }
    requires few { length others.now ≤ most_dimensions + 1 }
    requires before { greatest ≤ total }
    ensures ok { IfOk result (λ count. (count ≡ count_of_sum total (a ∷ b ∷ others.now))
        × (count ≤ most_vertices) × (count_of_sum greatest (a ∷ b ∷ others.now) ≤ most_vertices)) }
    ensures err { IfErr result (λ panic.
        ((panic ≡ Panic.VeryBad) × HasGreatSum total (a ∷ b ∷ others.now))
        ⊎ (panic ≡ Panic.NoRoom)) }
{
    if three_are_great(total, a, b, others) {
        return Err(Panic::VeryBad);
    }
    let row = row_of(alloc, total, others)?;
    if count_at(row.as_slice(), a, b, greatest).is_none() {
        return Err(Panic::VeryBad);
    }
    count_at(row.as_slice(), a, b, total).ok_or(Panic::VeryBad)
}

// Whether `a`, `b` and one of the others have too many vectors by themselves, being great bounds. Where they have not,
// no bound of the others, or no sum, is great, and the row of the others is short.
fn three_are_great(total: u32, a: u32, b: u32, others: &[u32]) -> bool
    ensures { result ≡ has_great_three total a b others.now }
{
    total.min(a).min(b) >= GREAT_BOUND && has_great_bound(others)
}

// Whether some bound is great.
fn has_great_bound(bounds: &[u32]) -> bool
    ensures { result ≡ list_any (λ bound. nat_le great_bound bound) bounds.now }
{
    bounds.iter().any(|bound| *bound >= GREAT_BOUND)
}

// The row of the counts of the bounds for the sums up to `total`; it takes one bound after another. `VeryBad` where
// some count is above 1,000,000,000; `NoRoom` when out of memory.
fn row_of(alloc: Global, total: u32, bounds: &[u32]) -> Result<Vec<u64>, Panic>
    requires low { total ≤ most_vertices }
    requires few { length bounds.now ≤ most_dimensions + 1 }
    ensures counts { IfOk result (λ row. CountsSums total row.items bounds.now) }
    ensures small { IfOk result (λ row. All (λ count. count ≤ most_vertices) row.items) }
    ensures err { IfErr result (λ panic. ((panic ≡ Panic.VeryBad) × HasGreatSum total bounds.now)
        ⊎ (panic ≡ Panic.NoRoom)) }
{
    let mut row = vec![in alloc; 1]?;
    for place in 0..bounds.len() {
        row.resize(row_length(total, &bounds[..=place]), 0)?;
        add_bound(row.as_mut_slice(), bounds[place]);
        if has_great(row.as_slice()) {
            return Err(Panic::VeryBad);
        }
    }
    Ok(row)
}

// How many sums from 0 up have to be counted: those up to `total`, and none above the sum of the bounds,
// which no vector has.
pub(super) fn row_length(total: u32, bounds: &[u32]) -> usize
    requires { length bounds.now ≤ most_dimensions + 1 }
    ensures { result ≡ min total (sum bounds.now) + 1 }
{
    u64::from(total).min(total_of(bounds)) as usize + 1
}

// Makes the row of some bounds that of these and one more: an entry of at most `bound` comes after each vector.
pub(super) fn add_bound(row: &mut [u64], bound: u32)
    requires short { length row.old ≤ most_vertices + 1 }
    requires small { All (λ count. count ≤ most_vertices) row.old }
    ensures { (n : ℕ) (bounds : List ℕ) → CountsSums n row.old bounds → length row.old ≤ n + 1
        → min n (sum (bounds ++ bound ∷ [])) < length row.old
        → CountsSums n row.new (bounds ++ bound ∷ []) }
{
    add_up(row);
    take_off(row, bound as usize + 1);
}

// Puts into each place the sum of the row up to there.
fn add_up(row: &mut [u64])
    requires { sum row.old < 2 ^ 64 }
    ensures { (k : ℕ) → k < length row.old → slice_index row.new k ≡ sum (take (k + 1) row.old) }
{
    let mut total = 0;
    for count in row.iter_mut() {
        total += *count;
        *count = total;
    }
}

// Takes off each entry the one that stood `width` places before it, if there is one.
fn take_off(row: &mut [u64], width: usize)
    requires some { 0 < width }
    requires rising { (k : ℕ) → width ≤ k → k < length row.old
        → slice_index row.old (k - width) ≤ slice_index row.old k }
    ensures prefix { (k : ℕ) → k < width → slice_index row.new k ≡ slice_index row.old k }
    ensures after { (k : ℕ) → width ≤ k → k < length row.old
        → slice_index row.new k + slice_index row.old (k - width) ≡ slice_index row.old k }
{
    for place in (width..row.len()).rev() {
        row[place] -= row[place - width];
    }
}

// Whether some count is above 1,000,000,000.
pub(super) fn has_great(row: &[u64]) -> bool
    ensures { result ≡ list_any (λ count. nat_lt most_vertices count) row.now }
{
    row.iter().any(|count| *count > u64::from(MOST_VERTICES))
}

// How many vectors within `a`, `b` and the bounds that the row counts add to `total`: each vector of these goes with
// the pairs that add to the rest. `None` where there are more than 1,000,000,000.
fn count_at(row: &[u64], a: u32, b: u32, total: u32) -> Option<u32>
    requires { All (λ count. count ≤ most_vertices) row.now }
    ensures some { (bounds : List ℕ) → CountsSums total row.now bounds
        → IfSome result (λ count. (count ≡ count_of_sum total (a ∷ b ∷ bounds))
        × (count ≤ most_vertices)) }
    ensures none { (bounds : List ℕ) → CountsSums total row.now bounds
        → IfNone result (most_vertices < count_of_sum total (a ∷ b ∷ bounds)) }
{
    let mut count: u64 = 0;
    for place in 0..row.len().min(total as usize + 1) {
        count += row[place] * pairs(a, b, total - place as u32);
        if count > u64::from(MOST_VERTICES) {
            return None;
        }
    }
    Some(count as u32)
}

// How many pairs of a number up to `a` and one up to `b` add to `sum`: the second is from `sum - a` up to the lesser
// of `b` and `sum`.
fn pairs(a: u32, b: u32, sum: u32) -> u64
    ensures count { result ≡ count_of_sum sum (a ∷ b ∷ []) }
    ensures small { result ≤ 4_294_967_296 }
{
    (u64::from(sum.min(b)) + 1).saturating_sub(u64::from(sum.saturating_sub(a)))
}
