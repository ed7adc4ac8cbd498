ghost use Rattle.std.specs.Prelude.{◌≡◌, ◌+◌, ◌<◌, ◌≤◌, pos, ◌∷◌, length, map, min};
ghost use Rattle.sgb_vec.specs.Limits.{most_dimensions};
ghost use Rattle.sgb_vec.specs.Sizes.{before_stop, count_by_stop, stop_of, repeated};
ghost use Rattle.sgb_vec.specs.Bounds.{first_parameter, bounds_to_repeat, clamped_parameter, simplex_by_stop, simplex_of};
// For the search alone.
ghost use Rattle.sgb_vec.specs.Sizes.{zero_after_stop};

use super::entries::{before_stop, stop_of, zero_after_stop};
use super::{MOST_DIMENSIONS, Shape};
use crate::limits::MOST_VERTICES;
use crate::panics::Panic;
use arrayvec::ArrayVec;

/// The parameters n, n0 to n4 of a simplex normalised, and its bounds (GB_BASIC, simplex): the entries of
/// n0 to n4 before the first that is not positive, repeated to d + 1 bounds where that one is -d; d + 1
/// bounds of n where n0 itself is -d, and an n0 of 0 counts as -2. No bound is above n: one that is becomes
/// n, among the parameters too.
///
/// `Bad` where n is negative, or else above 250 dimensions, one less than bounds; else `VeryBad` where n is
/// above 1,000,000,000. Whether there are too many vectors is left to `SumFamily::new`.
pub fn simplex_bounds(n: i64, n0: i64, n1: i64, n2: i64, n3: i64, n4: i64) -> Result<Shape, Panic>
    ensures { result ≡ simplex_of n n0 n1 n2 n3 n4 }
{
    if n < 0 {
        return Err(Panic::Bad);
    }
    simplex_of(n.unsigned_abs(), &[first_parameter(n0), n1, n2, n3, n4])
}

// n0 as the official name has it.
fn first_parameter(n0: i64) -> i64
    ensures { result ≡ first_parameter n0 }
{
    if n0 == 0 { -2 } else { n0 }
}

// The simplex of the sum n and five entries.
fn simplex_of(n: u64, entries: &[i64; 5]) -> Result<Shape, Panic>
    ensures { result ≡ simplex_by_stop n entries.now (bounds_to_repeat n (before_stop entries.now))
        (stop_of entries.now) }
{
    let to_repeat = bounds_to_repeat(n, before_stop(entries));
    let count = bounds_count(to_repeat.as_slice(), stop_of(entries));
    if count > MOST_DIMENSIONS + 1 {
        return Err(Panic::Bad);
    }
    if n > u64::from(MOST_VERTICES) {
        return Err(Panic::VeryBad);
    }
    let sizes = clamped_bounds(n as u32, to_repeat.as_slice(), count as usize);
    let params = clamped_parameters(n as u32, zero_after_stop(entries).as_slice());
    Ok(Shape { params, sizes })
}

// The bounds that are repeated: those before the stop, or n alone where there are none.
fn bounds_to_repeat(n: u64, mut before: ArrayVec<u64, 5>) -> ArrayVec<u64, 5>
    ensures { result.items ≡ bounds_to_repeat n before.items }
{
    if before.is_empty() {
        before.push(n);
    }
    before
}

// How many bounds the simplex has; -stop may be as great as 2^63.
fn bounds_count(to_repeat: &[u64], stop: i64) -> u64
    ensures { result ≡ count_by_stop 1 to_repeat.now stop }
{
    if stop < 0 {
        return stop.unsigned_abs() + 1;
    }
    to_repeat.len() as u64
}

// The first `count` bounds of `to_repeat` repeated in turn, n in the place of each above n.
fn clamped_bounds(n: u32, to_repeat: &[u64], count: usize) -> ArrayVec<u32, 251>
    requires some { 0 < length to_repeat.now }
    requires few { count ≤ most_dimensions + 1 }
    ensures { result.items ≡ map (λ b. min b n) (repeated to_repeat.now count) }
{
    let mut bounds = ArrayVec::new();
    for place in 0..count {
        let bound = to_repeat[place % to_repeat.len()];
        bounds.push(bound.min(u64::from(n)) as u32);
    }
    bounds
}

// The parameters as the official name has them: n, and then the entries, n in the place of each above n.
fn clamped_parameters(n: u32, entries: &[i64]) -> ArrayVec<i64, 6>
    requires { length entries.now ≤ 5 }
    ensures { result.items ≡ pos n ∷ map (clamped_parameter n) entries.now }
{
    let n = i64::from(n);
    let mut params = ArrayVec::new();
    params.push(n);
    for entry in entries {
        params.push((*entry).min(n));
    }
    params
}
