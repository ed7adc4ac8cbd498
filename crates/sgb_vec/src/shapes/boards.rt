ghost use Rattle.std.specs.Prelude.{◌≡◌, ◌<◌, ◌≤◌, length, true, false, MatchResult};
ghost use Rattle.sgb_vec.specs.Limits.{most_dimensions};
ghost use Rattle.sgb_vec.specs.Sizes.{before_stop, stop_of, repeated, count_by_stop, board_by_stop, board_of};
ghost use Rattle.sgb_vec.specs.inner.Sizes.{has_great_size};

use super::entries::{before_stop, stop_of, zero_after_stop};
use super::{MOST_DIMENSIONS, Shape};
use crate::panics::Panic;
use arrayvec::ArrayVec;

/// The parameters n1 to n4 of a board normalised, and its sizes (GB_BASIC, board): the entries before
/// the first that is not positive, repeated to d sizes where that one is -d; 8 by 8 where there are none.
///
/// `Bad` above 250 dimensions; else `VeryBad` where a size is above 4,294,967,295. That there are at most
/// 1,000,000,000 vertices is left to `BoxFamily::new`.
pub fn board_sizes(n1: i64, n2: i64, n3: i64, n4: i64) -> Result<Shape, Panic>
    ensures { result ≡ board_of n1 n2 n3 n4 }
{
    if n1 <= 0 {
        return board_of(&[8, 8, 0, 0]);
    }
    board_of(&[n1, n2, n3, n4])
}

// The board of four entries, of which the first is positive.
fn board_of(entries: &[i64; 4]) -> Result<Shape, Panic>
    requires { 0 < length (before_stop entries.now) }
    ensures { result ≡ board_by_stop entries.now (before_stop entries.now) (stop_of entries.now) }
{
    let before = before_stop(entries);
    let count = dimension_count(before.as_slice(), stop_of(entries));
    if count > MOST_DIMENSIONS {
        return Err(Panic::Bad);
    }
    let sizes = repeated(before.as_slice(), count as usize)?;
    let params = zero_after_stop(entries);
    Ok(Shape { params, sizes })
}

// How many sizes the board has; -stop may be as great as 2^63.
fn dimension_count(before: &[u64], stop: i64) -> u64
    ensures { result ≡ count_by_stop 0 before.now stop }
{
    if stop < 0 {
        return stop.unsigned_abs();
    }
    before.len() as u64
}

// The first `count` sizes of `before` repeated in turn; `VeryBad` where one is above 4,294,967,295.
fn repeated(before: &[u64], count: usize) -> Result<ArrayVec<u32, 251>, Panic>
    requires some { 0 < length before.now }
    requires few { count ≤ most_dimensions }
    ensures { MatchResult result
        (λ s. (s.items ≡ repeated before.now count) × (has_great_size s.items ≡ false))
        (λ e. (e ≡ Panic.VeryBad) × (has_great_size (repeated before.now count) ≡ true)) }
{
    let mut sizes = ArrayVec::new();
    for place in 0..count {
        match u32::try_from(before[place % before.len()]) {
            Ok(size) => sizes.push(size),
            Err(_) => return Err(Panic::VeryBad),
        }
    }
    Ok(sizes)
}
