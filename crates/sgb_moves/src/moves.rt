//! Where a piece moves from a place of a board.
//!
//! A coordinate within its side is taken as it is, and divided by the side's size only where it leaves it.
ghost use Rattle.std.specs.Prelude.{◌≡◌, ℕ, ◌+◌, pos, ◌+ℤ◌, ◌*ℤ◌, ◌<◌, ◌≤◌, ◌/◌, min, length, nat_abs, true, false, is_some, All, None, Some};
ghost use Rattle.std.specs.Int.{int_rem_euclid};
ghost use Rattle.std.specs.Bool.{OnTrue, OnFalse};
ghost use Rattle.sgb_vec.specs.Limits.{most_dimensions};
ghost use Rattle.sgb_vec.specs.Lexicographic.{IsBelow};
ghost use Rattle.sgb_moves.specs.inner.Moves.{destination, leads_onward};
ghost use Rattle.sgb_moves.specs.Moves.{is_bit_set, coordinate_on, sides_of, place};
ghost use Rattle.sgb_moves.specs.MovedCoordinates.{part_at, parts_put};
ghost use Rattle.sgb_moves.specs.inner.MovedCoordinates.{IsInside, parts_stay};
ghost use Rattle.sgb_moves.specs.inner.EntryBounds.{entry_bound, entry_bounds};
// For the search alone.
ghost use Rattle.std.specs.Prelude.{get_or, IfSome};

use crate::displacements::EntrySizes;
use crate::steps::{Part, Step};
use arrayvec::ArrayVec;
use sgb_vec::Vector;

/// Whether coordinate k, counted from 0, wraps around: its bit of `wrap`, with the sign carried on (GB_BASIC, board).
pub fn wraps(wrap: i64, k: usize) -> bool
    ensures { result ≡ is_bit_set wrap k }
{
    (wrap >> k.min(63)) & 1 == 1
}

// The coordinate at `y` on a side: modulo its size where the side wraps around, else only where it is within it.
fn coordinate_on(size: u32, wraps: bool, y: i64) -> Option<u32>
    requires { 0 < size }
    ensures { result ≡ coordinate_on (record { size = size; wraps = wraps }) y }
{
    if y >= 0 && y < i64::from(size) {
        return Some(y as u32);
    }
    if wraps {
        return Some(around(size, y));
    }
    None
}

// The coordinate at `y` on a side that wraps around, where `y` is not on it: mostly one turn away, which takes no division.
fn around(size: u32, y: i64) -> u32
    requires { 0 < size }
    ensures { result ≡ nat_abs (int_rem_euclid y (pos size)) }
{
    let size = i64::from(size);
    if y < 0 && y + size >= 0 {
        return (y + size) as u32;
    }
    if y >= size && y - size < size {
        return (y - size) as u32;
    }
    y.rem_euclid(size) as u32
}

// The coordinate at length `l` from `x` by `t` for each unit of length, which may lie outside of a board.
fn moved(x: u32, t: i32, l: u32) -> i64
    ensures { result ≡ pos x +ℤ pos l *ℤ t }
{
    i64::from(x) + i64::from(l) * i64::from(t)
}

/// How many steps of `t` from the coordinate `x` on stay on a side, of `most` at most.
#[inline(always)]
pub fn steps_on(size: u32, wraps: bool, x: u32, t: i32, most: u32) -> u32
    requires { x < size }
    ensures within { result ≤ most }
    ensures stay { (l : ℕ) → l ≤ result
        → is_some (coordinate_on (record { size = size; wraps = wraps }) (pos x +ℤ pos l *ℤ t))
        ≡ true }
    ensures end { result < most
        → is_some (coordinate_on (record { size = size; wraps = wraps })
        (pos x +ℤ pos (result + 1) *ℤ t)) ≡ false }
{
    if wraps || t == 0 {
        return most;
    }
    if t > 0 {
        return times_within(size - 1 - x, t.unsigned_abs(), most);
    }
    times_within(x, t.unsigned_abs(), most)
}

/// How many times `step` fits into `room`, of `most` at most. One time is told with no division.
pub fn times_within(room: u32, step: u32, most: u32) -> u32
    requires { 0 < step }
    ensures { result ≡ min most (room / step) }
{
    if room < step {
        return 0;
    }
    if most == 1 {
        return 1;
    }
    most.min(room / step)
}

/// How many steps from `x` on, by a displacement that moves these coordinates, lead to a place of the board, of `most` at
/// most.
#[inline(never)]
pub fn reach(sizes: &[u32], wrap: i64, x: &[u32], parts: &[Part], most: u32) -> u32
    requires below { IsBelow x.now sizes.now }
    requires parts { All (λ p. p.0 < length sizes.now) parts.now }
    ensures within { result ≤ most }
    ensures stay { (l : ℕ) → l ≤ result
        → parts_stay sizes.now wrap x.now l parts.now ≡ true }
    ensures end { result < most
        → parts_stay sizes.now wrap x.now (result + 1) parts.now ≡ false }
{
    let mut reach = most;
    for (k, amount) in parts {
        reach = steps_on(sizes[*k], wraps(wrap, *k), x[*k], *amount, reach);
    }
    reach
}

/// What `reach` answers, where `near` tells that the steps of length 1 lead to a place: it is then not looked at once more.
pub fn reach_from(near: bool, sizes: &[u32], wrap: i64, x: &[u32], parts: &[Part], most: u32) -> u32
    requires below { IsBelow x.now sizes.now }
    requires parts { All (λ p. p.0 < length sizes.now) parts.now }
    requires near { OnTrue near (parts_stay sizes.now wrap x.now 1 parts.now ≡ true) }
    ensures within { result ≤ most }
    ensures stay { (l : ℕ) → l ≤ result
        → parts_stay sizes.now wrap x.now l parts.now ≡ true }
    ensures end { result < most
        → parts_stay sizes.now wrap x.now (result + 1) parts.now ≡ false }
{
    if near && most == 1 {
        return 1;
    }
    reach(sizes, wrap, x, parts, most)
}

/// Whether each coordinate of `x` has this much room on both sides.
pub fn is_inside(sizes: &[u32], x: &[u32], room: u32) -> bool
    requires { IsBelow x.now sizes.now }
    ensures { OnTrue result (IsInside room sizes.now x.now) }
{
    for (k, size) in sizes.iter().enumerate() {
        if x[k] < room || size - 1 - x[k] < room {
            return false;
        }
    }
    true
}

/// Where coordinate number `k` leads at length `l` from `x`, if it does, where it moves so far for each unit of length.
pub fn part_at(sizes: &[u32], wrap: i64, x: &[u32], l: u32, k: usize, amount: i32) -> Option<u32>
    requires below { IsBelow x.now sizes.now }
    requires within { k < length sizes.now }
    ensures { result ≡ part_at sizes.now wrap x.now l (k, amount) }
{
    coordinate_on(sizes[k], wraps(wrap, k), moved(x[k], amount, l))
}

/// Puts these coordinates where they lead at length `l` from `x` into their places of `there`.
pub fn put_parts(sizes: &[u32], wrap: i64, x: &[u32], parts: &[Part], l: u32, there: &mut [u32])
    requires below { IsBelow x.now sizes.now }
    requires parts { All (λ p. p.0 < length sizes.now) parts.now }
    requires there { length there.old ≡ length sizes.now }
    ensures { there.new ≡ parts_put sizes.now wrap x.now l parts.now there.old }
{
    for (k, amount) in parts {
        there[*k] = part_at(sizes, wrap, x, l, *k, *amount).unwrap_or(0);
    }
}

// Puts these coordinates where they lead at length `l` from `x` into their places of `there`, where all of them lead to
// coordinates. `false` where one does not; what `there` holds is then open.
fn move_parts(
    sizes: &[u32],
    wrap: i64,
    x: &[u32],
    parts: &[Part],
    l: u32,
    there: &mut [u32],
) -> bool
    requires below { IsBelow x.now sizes.now }
    requires parts { All (λ p. p.0 < length sizes.now) parts.now }
    requires there { length there.old ≡ length sizes.now }
    ensures stay { result ≡ parts_stay sizes.now wrap x.now l parts.now }
    ensures put { OnTrue result
        (there.new ≡ parts_put sizes.now wrap x.now l parts.now there.old) }
{
    for (k, amount) in parts {
        let Some(coordinate) = part_at(sizes, wrap, x, l, *k, *amount) else {
            return false;
        };
        there[*k] = coordinate;
    }
    true
}

/// Puts the vector `x` into `there`, which is as long as it as a rule.
pub fn put_vector(x: &[u32], there: &mut Vector)
    requires { length x.now ≤ most_dimensions }
    ensures { there.new.items ≡ x.now }
{
    if there.len() == x.len() {
        there.as_mut_slice().copy_from_slice(x);
        return;
    }
    there.clear();
    let _written = there.try_extend_from_slice(x);
}

// Puts the place at length `l` from `x` by the displacement `t` into `there`, where it exists (GB_BASIC, board): each
// coordinate is modulo its size where it wraps around, and has to be within it elsewhere. Those that `t` does not move
// stay as they are. `false` where it does not exist; what `there` holds is then open.
fn place(sizes: &[u32], wrap: i64, x: &[u32], t: &Step, l: u32, there: &mut Vector) -> bool
    requires few { length sizes.now ≤ most_dimensions }
    requires below { IsBelow x.now sizes.now }
    requires dimensions { length t.now ≡ length sizes.now }
    ensures leads { OnTrue result (place (sides_of sizes.now wrap) x.now t.now l
        ≡ Some there.new.items) }
    ensures nowhere { OnFalse result (place (sides_of sizes.now wrap) x.now t.now l ≡ None) }
{
    put_vector(x, there);
    if !move_parts(sizes, wrap, x, t.parts(), l, there.as_mut_slice()) {
        return false;
    }
    true
}

/// Puts the vector where a piece moves from `x` by the displacement `t` at length `l` into `there`, if it moves there
/// (GB_BASIC, board): a leaper to the place there, where it exists; a rider, which is a negative piece, only where that
/// is not `x` again. `false` where it does not; what `there` holds is then open.
pub fn destination(
    sizes: &[u32],
    wrap: i64,
    piece: i64,
    x: &[u32],
    t: &Step,
    l: u32,
    there: &mut Vector,
) -> bool
    requires few { length sizes.now ≤ most_dimensions }
    requires below { IsBelow x.now sizes.now }
    requires dimensions { length t.now ≡ length sizes.now }
    ensures leads { OnTrue result (destination (sides_of sizes.now wrap) piece x.now t.now l
        ≡ Some there.new.items) }
    ensures nowhere { OnFalse result
        (destination (sides_of sizes.now wrap) piece x.now t.now l ≡ None) }
{
    if !place(sizes, wrap, x, t, l, there) {
        return false;
    }
    if piece < 0 && there.as_slice() == x {
        return false;
    }
    true
}

/// Whether the first entry of a displacement that is not 0 is positive, and its side does not wrap around: each step then
/// leads to a later vector.
pub fn leads_onward(wrap: i64, t: &Step) -> bool
    ensures { result ≡ leads_onward wrap 0 t.now }
{
    let parts = t.parts();
    if parts.is_empty() {
        return false;
    }
    let (k, entry) = parts[0];
    entry > 0 && !wraps(wrap, k)
}

// The greatest entry of a displacement on a side that leads to a place: less than its size where it does not wrap
// around. Where it does any entry leads to one, and none is greater than the piece.
fn entry_bound(size: u32, wraps: bool, piece: u32) -> u32
    ensures { result ≡ entry_bound piece (record { size = size; wraps = wraps }) }
{
    if wraps {
        return piece;
    }
    size.saturating_sub(1)
}

/// The greatest entries of the displacements by which a piece can move (GB_BASIC, board).
pub fn entry_bounds(sizes: &[u32], wrap: i64, piece: u32) -> EntrySizes
    requires few { length sizes.now ≤ most_dimensions }
    ensures { result.items ≡ entry_bounds piece (sides_of sizes.now wrap) }
{
    let mut bounds = ArrayVec::new();
    for (k, size) in sizes.iter().enumerate() {
        bounds.push(entry_bound(*size, wraps(wrap, k), piece));
    }
    bounds
}
