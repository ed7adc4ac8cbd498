//! The vector at a place of a bounded sum, and the place of a vector.
//!
//! Each entry is found by how many vectors have a smaller one there, so nothing is walked.
ghost use Rattle.std.specs.Prelude.{◌≡◌, ◌+◌, ◌<◌, ◌≤◌, ◌∷◌, length, Contains, IfSome, Some, slice_get};
ghost use Rattle.std.specs.Bool.{OnTrue};
ghost use Rattle.sgb_vec.specs.Limits.{most_dimensions, most_vertices};
ghost use Rattle.sgb_vec.specs.Sums.{bounded_sums};
ghost use Rattle.sgb_vec.specs.inner.SumRows.{count_of_sum};
ghost use Rattle.sgb_vec.specs.inner.SumPlaces.{count_below};

use super::rows::count_in_place;

// Makes `entries` the vector at this place of those within the bounds that add to `total`: each entry is the greatest
// with which no more vectors than the place come before it. `false` where these cannot be counted in place.
pub(super) fn put_at(bounds: &[u32], entries: &mut [u32], total: u32, place: u32) -> bool
    requires same_length { length entries.old ≡ length bounds.now }
    requires few { length bounds.now ≤ most_dimensions + 1 }
    requires low { total ≤ most_vertices }
    requires within { place < count_of_sum total bounds.now }
    ensures { OnTrue result (slice_get (bounded_sums total bounds.now) place ≡ Some entries.new) }
{
    let mut left = total;
    let mut rest = place;
    for k in 0..bounds.len() {
        let Some((entry, before)) = entry_at(left, bounds[k], &bounds[k + 1..], rest) else {
            return false;
        };
        entries[k] = entry;
        left -= entry;
        rest -= before;
    }
    true
}

// The first entry of the vector at this place of those within `bound` and the bounds after it that add to `total`, with
// how many vectors have a smaller one. It is found by halving. `None` where these cannot be counted in place.
fn entry_at(total: u32, bound: u32, after: &[u32], place: u32) -> Option<(u32, u32)>
    requires few { length after.now ≤ most_dimensions }
    requires low { total ≤ most_vertices }
    requires within { place < count_of_sum total (bound ∷ after.now) }
    ensures bounded { IfSome result (λ p. (p.0 ≤ bound) × (p.0 ≤ total)) }
    ensures before { IfSome result (λ p. (p.1 ≡ count_below total p.0 after.now) × (p.1 ≤ place)) }
    ensures next { IfSome result (λ p. place < count_below total (p.0 + 1) after.now) }
{
    let mut entry = 0;
    let mut before = 0;
    let mut top = bound.min(total);
    while entry < top {
        let middle = top - (top - entry) / 2;
        let count = vectors_below(total, middle, after)?;
        if count <= place {
            entry = middle;
            before = count;
        } else {
            top = middle - 1;
        }
    }
    Some((entry, before))
}

// How many vectors add to `total` whose first entry is below `entry`, with the bounds after it. `None` where these cannot
// be counted in place.
fn vectors_below(total: u32, entry: u32, after: &[u32]) -> Option<u32>
    requires few { length after.now ≤ most_dimensions }
    requires low { total ≤ most_vertices }
    ensures { IfSome result (λ count. count ≡ count_below total entry after.now) }
{
    if entry == 0 {
        return Some(0);
    }
    count_in_place(total, entry - 1, after)
}

// The place of a vector among those within the bounds that add to `total`: at each entry the vectors that have a
// smaller one there. `None` where these cannot be counted in place.
pub(super) fn place_among(bounds: &[u32], vector: &[u32], total: u32) -> Option<u32>
    requires few { length bounds.now ≤ most_dimensions + 1 }
    requires low { total ≤ most_vertices }
    requires count { count_of_sum total bounds.now ≤ most_vertices }
    requires member { Contains (bounded_sums total bounds.now) vector.now }
    ensures { IfSome result (λ place. slice_get (bounded_sums total bounds.now) place ≡ Some
        vector.now) }
{
    let mut left = total;
    let mut place = 0;
    for k in 0..bounds.len() {
        place += vectors_below(left, vector[k], &bounds[k + 1..])?;
        left -= vector[k];
    }
    Some(place)
}
