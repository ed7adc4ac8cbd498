//! How many vectors a bounded sum has, counted with no memory.
//!
//! The triples within the three greatest bounds are counted in closed form, the vectors within the other bounds in a
//! row of 2,048 counts. Where that is too short there is no count, and vectors are walked in its place. No sum that
//! `SumFamily::new` accepts needs a longer row; that is not proved.
ghost use Rattle.std.specs.Prelude.{◌≡◌, ◌+◌, ◌≤◌, ℕ, List, ◌∷◌, All, length, sum, min, IfSome};
ghost use Rattle.std.specs.Bool.{OnTrue};
ghost use Rattle.sgb_vec.specs.Limits.{most_dimensions, most_vertices};
ghost use Rattle.sgb_vec.specs.inner.SumRows.{CountsSums, count_of_sum};
// For the search alone.
ghost use Rattle.std.specs.Prelude.{◌<◌};

use super::counts::{add_bound, has_great, row_length, take_greatest};
use super::triples::triples;
use crate::families::Vector;
use crate::limits::MOST_VERTICES;
use arrayvec::ArrayVec;

// So many counts stand in place. Of a sum that is accepted, all bounds but the three greatest have fewer.
const MOST_COUNTS: usize = 2_048;

// How many vectors within `first` and the bounds add to `total`. The counts of all bounds but the three greatest stand in
// a row in place, so that no memory is taken. `None` where they are too many for it, or too great.
pub(super) fn count_in_place(total: u32, first: u32, bounds: &[u32]) -> Option<u32>
    requires low { total ≤ most_vertices }
    requires few { length bounds.now ≤ most_dimensions }
    ensures { IfSome result (λ count. count ≡ count_of_sum total (first ∷ bounds.now)) }
{
    let mut others = ArrayVec::try_from(bounds).unwrap();
    others.push(first);
    let a = take_greatest_or_zero(&mut others);
    let b = take_greatest_or_zero(&mut others);
    let c = take_greatest_or_zero(&mut others);
    count_with_three(total, a, b, c, others.as_slice())
}

// Takes the greatest of the bounds out of them; where there is none, a bound of 0 changes no count.
fn take_greatest_or_zero(bounds: &mut Vector) -> u32
    ensures { (k : ℕ) → count_of_sum k bounds.old.items
        ≡ count_of_sum k (result ∷ bounds.new.items) }
{
    if bounds.len() == 0 {
        return 0;
    }
    take_greatest(bounds)
}

// How many vectors within `a`, `b`, `c` and the others add to `total`. `None` as above.
fn count_with_three(total: u32, a: u32, b: u32, c: u32, others: &[u32]) -> Option<u32>
    requires low { total ≤ most_vertices }
    requires few { length others.now ≤ most_dimensions + 1 }
    ensures { IfSome result (λ count. count ≡ count_of_sum total (a ∷ b ∷ c ∷ others.now)) }
{
    let length = row_length(total, others);
    if length > MOST_COUNTS {
        return None;
    }
    let mut row = [0; MOST_COUNTS];
    count_by_row(&mut row[..length], total, a, b, c, others)
}

// How many vectors within `a`, `b`, `c` and the others add to `total`, where the row has a place for each sum that is
// counted. `None` as above.
fn count_by_row(row: &mut [u64], total: u32, a: u32, b: u32, c: u32, others: &[u32]) -> Option<u32>
    requires low { total ≤ most_vertices }
    requires long { length row.old ≡ min total (sum others.now) + 1 }
    ensures { IfSome result (λ count. count ≡ count_of_sum total (a ∷ b ∷ c ∷ others.now)) }
{
    if !fill_row(row, total, others) {
        return None;
    }
    count_with_row(row, total, a, b, c)
}

// Makes the row that of the counts of the bounds, one bound after another. `false` where some count is above
// 1,000,000,000.
fn fill_row(row: &mut [u64], total: u32, bounds: &[u32]) -> bool
    requires low { total ≤ most_vertices }
    requires long { length row.old ≡ min total (sum bounds.now) + 1 }
    ensures counts { OnTrue result (CountsSums total row.new bounds.now) }
    ensures small { OnTrue result (All (λ count. count ≤ most_vertices) row.new) }
{
    row.fill(0);
    row[0] = 1;
    for place in 0..bounds.len() {
        add_bound(row, bounds[place]);
        if has_great(row) {
            return false;
        }
    }
    true
}

// How many vectors within `a`, `b`, `c` and the bounds that the row counts add to `total`: each vector of these goes with
// the triples that add to the rest. `None` where there are more than 1,000,000,000.
fn count_with_row(row: &[u64], total: u32, a: u32, b: u32, c: u32) -> Option<u32>
    requires low { total ≤ most_vertices }
    requires small { All (λ count. count ≤ most_vertices) row.now }
    ensures { (bounds : List ℕ) → CountsSums total row.now bounds
        → IfSome result (λ count. count ≡ count_of_sum total (a ∷ b ∷ c ∷ bounds)) }
{
    let mut count: u64 = 0;
    for place in 0..row.len().min(total as usize + 1) {
        let ways = triples(a, b, c, total - place as u32);
        if ways > u64::from(MOST_VERTICES) {
            return None;
        }
        count += row[place] * ways;
        if count > u64::from(MOST_VERTICES) {
            return None;
        }
    }
    Some(count as u32)
}
