//! The number of arcs of a board's graph, with no list made.
//!
//! It goes by displacements. Where all sides that one moves on wrap around, each place has as many moves by it as there
//! are lengths before a rider is home. Where one side does not, the places from which it moves so far fall by equal
//! steps from length to length, and are added by a formula. Where two or more do not, it goes length by length, of
//! which there are at most 31,622.
//!
//! A board that wraps around in hundreds of dimensions has more arcs than 128 bits count. The answer is out of memory
//! then, and exactly then (`great`): such a listing could never be written.
ghost use Rattle.std.specs.Prelude.{◌≡◌, ◌≢◌, ◌≤◌, ◌<◌, ◌==◌, ℕ, ◌+◌, ◌-◌, ◌*◌, ◌%◌, ◌*ℤ◌, ◌^◌, true, false, length, min, pos, IfOk, IfErr, IfSome, IfNone, IsOkUnless};
ghost use Rattle.std.specs.Bool.{OnTrue};
ghost use Rattle.sgb_graph.specs.Made.{graph_described};
ghost use Rattle.sgb_vec.specs.Boxes.{box, product_of};
ghost use Rattle.sgb_vec.specs.Limits.{most_vertices};
ghost use Rattle.sgb_gen.specs.Boards.{board_vector_graph, moves_of_board};
ghost use Rattle.sgb_gen.specs.VectorGraphs.{described_by};
ghost use Rattle.sgb_moves.specs.Moves.{sides_of};
ghost use Rattle.sgb_gen.specs.inner.LocalBoards.{moves_by};
ghost use Rattle.sgb_gen.specs.inner.BoardCounts.{starts_on, is_home_on, starts_product, is_home, comes_home, stops_on, stops_at, starts_along};
ghost use Rattle.sgb_moves.specs.inner.Moves.{longest_move};

use super::Board;
use crate::displacement_tables::DisplacementTable;
use sgb_moves::wraps;
use sgb_vec::{Family, Panic};

impl Board {
    /// The number of arcs of the board's graph (GB_BASIC, board), where an edge counts as two. It is found by one
    /// displacement after another, with no arc made: at once for each that moves on at most one side that does not wrap
    /// around, and length by length for the others.
    ///
    /// `NoRoom` where the number is 2^128 or more, and nothing else: only a board that wraps around in hundreds of
    /// dimensions has so many arcs, and no time would do to list them.
    pub fn arcs_count(&self) -> Result<u128, Panic>
        ensures count { IfOk result (λ m.
            m ≡ (graph_described (described_by (board_vector_graph self.now))).m) }
        ensures great { IfErr result (λ e.
            2 ^ 128 ≤ (graph_described (described_by (board_vector_graph self.now))).m) }
        ensures memory { IsOkUnless result Panic.NoRoom }
    {
        let Some(moves) = self.moves_count() else {
            return Err(Panic::NoRoom);
        };
        if self.directed {
            return Ok(moves);
        }
        let Some(arcs) = moves.checked_mul(2) else {
            return Err(Panic::NoRoom);
        };
        Ok(arcs)
    }

    /// Whether 128 bits are known to hold the number of arcs, since the displacements are as few as a table holds: so
    /// `arcs_count` tells it. `false` tells nothing.
    pub fn has_countable_arcs(&self) -> bool
        ensures { OnTrue result
            ((graph_described (described_by (board_vector_graph self.now))).m < 2 ^ 128) }
    {
        let mut left = self.displacements();
        for _passed in 0..DisplacementTable::most(self.family.dims()) + 1 {
            let Some(_next) = left.back() else {
                return true;
            };
            left.retreat();
        }
        false
    }

    // The number of moves, where 128 bits hold it: those by one displacement after another.
    fn moves_count(&self) -> Option<u128>
        ensures some { IfSome result (λ n. n ≡ length (moves_of_board self.now)) }
        ensures none { IfNone result (2 ^ 128 ≤ length (moves_of_board self.now)) }
    {
        let mut counted: u128 = 0;
        let mut left = self.displacements();
        while let Some(t) = left.back() {
            let Some(more) = self.count_by(t, counted) else {
                return None;
            };
            counted = more;
            left.retreat();
        }
        Some(counted)
    }

    // A number and that of the moves by the displacement `t` together, where 128 bits hold them: at once where at most
    // one side stops the piece, else length by length.
    fn count_by(&self, t: &[i32], before: u128) -> Option<u128>
        requires dimensions { length t.now ≡ length self.now.sizes }
        ensures some { IfSome result (λ n. n ≡ before + length
            (moves_by (sides_of self.now.sizes self.now.wrap) self.now.piece (box self.now.sizes)
            t.now)) }
        ensures none { IfNone result (2 ^ 128 ≤ before + length
            (moves_by (sides_of self.now.sizes self.now.wrap) self.now.piece (box self.now.sizes)
            t.now)) }
    {
        if self.family.size() == 0 {
            return Some(before);
        }
        let stop = first_stop(self.wrap, t, 0);
        if stop == t.len() {
            return before.checked_add(self.count_around(t));
        }
        if first_stop(self.wrap, t, stop + 1) == t.len() {
            return before.checked_add(self.count_along(t, stop));
        }
        self.count_one_by_one(t, before)
    }

    // The number of moves by a displacement that moves on sides that wrap around alone: from each place those of each
    // length at which the piece is not home yet.
    fn count_around(&self, t: &[i32]) -> u128
        requires dimensions { length t.now ≡ length self.now.sizes }
        requires some { 0 < product_of self.now.sizes }
        requires free { (k : ℕ) → k < length t.now → stops_at self.now.wrap t.now k ≡ false }
        ensures { result ≡ length (moves_by (sides_of self.now.sizes self.now.wrap) self.now.piece
            (box self.now.sizes) t.now) }
    {
        u128::from(self.family.size()) * u128::from(self.lengths_around(t))
    }

    // How many lengths a piece moves by such a displacement: a rider those before it is home.
    pub(super) fn lengths_around(&self, t: &[i32]) -> u32
        requires dimensions { length t.now ≡ length self.now.sizes }
        requires some { 0 < product_of self.now.sizes }
        requires free { (k : ℕ) → k < length t.now → stops_at self.now.wrap t.now k ≡ false }
        ensures within { result
            ≤ longest_move (sides_of self.now.sizes self.now.wrap) self.now.piece }
        ensures away { (l : ℕ) → 0 < l → l ≤ result
            → comes_home (sides_of self.now.sizes self.now.wrap) self.now.piece t.now l ≡ false }
        ensures end { result < longest_move (sides_of self.now.sizes self.now.wrap) self.now.piece
            → comes_home (sides_of self.now.sizes self.now.wrap) self.now.piece t.now (result + 1)
            ≡ true }
    {
        if self.piece < 0 {
            return home(self.sizes(), self.wrap, t) - 1;
        }
        1
    }

    // The number of moves by a displacement that only side number `k` stops: each length leaves so many coordinates on
    // it as it is from its end.
    fn count_along(&self, t: &[i32], k: usize) -> u128
        requires dimensions { length t.now ≡ length self.now.sizes }
        requires some { 0 < product_of self.now.sizes }
        requires entry { k < length t.now }
        requires stop { stops_at self.now.wrap t.now k ≡ true }
        requires free { (j : ℕ) → j < length t.now → j ≢ k
            → stops_at self.now.wrap t.now j ≡ false }
        ensures { result ≡ length (moves_by (sides_of self.now.sizes self.now.wrap) self.now.piece
            (box self.now.sizes) t.now) }
    {
        let size = self.sizes()[k];
        let step = t[k].unsigned_abs();
        let lengths = lengths_along(size, step).min(self.longest_move());
        let rest = self.family.size() / size;
        starts_along(rest, size, step, lengths)
    }

    // A number and that of the moves by the displacement `t` together, where 128 bits hold them: for each length, the
    // places from which the piece moves so far. It never comes home.
    fn count_one_by_one(&self, t: &[i32], before: u128) -> Option<u128>
        requires dimensions { length t.now ≡ length self.now.sizes }
        requires away { (l : ℕ) → 0 < l
            → comes_home (sides_of self.now.sizes self.now.wrap) self.now.piece t.now l ≡ false }
        ensures some { IfSome result (λ n. n ≡ before + length
            (moves_by (sides_of self.now.sizes self.now.wrap) self.now.piece (box self.now.sizes)
            t.now)) }
        ensures none { IfNone result (2 ^ 128 ≤ before + length
            (moves_by (sides_of self.now.sizes self.now.wrap) self.now.piece (box self.now.sizes)
            t.now)) }
    {
        let mut counted = before;
        for shorter in 0..self.longest_move() {
            let starts = self.starts_of_steps(t, shorter + 1);
            if starts == 0 {
                return Some(counted);
            }
            let Some(more) = counted.checked_add(u128::from(starts)) else {
                return None;
            };
            counted = more;
        }
        Some(counted)
    }

    // From how many places `l` steps of the displacement `t` lead to a place of the board.
    fn starts_of_steps(&self, t: &[i32], l: u32) -> u64
        requires dimensions { length t.now ≡ length self.now.sizes }
        ensures { result ≡ starts_product (sides_of self.now.sizes self.now.wrap) t.now l }
    {
        starts_product(self.sizes(), self.wrap, t, l)
    }
}

// Whether a side can stop a piece that moves by `t` on it: one that does not wrap around, where `t` is not 0.
fn stops(wraps: bool, t: i32) -> bool
    ensures { result ≡ stops_on wraps t }
{
    if wraps {
        return false;
    }
    t.unsigned_abs() > 0
}

// The number of the first side, from number `from` on, that can stop a piece that moves by the displacement `t`; where
// there is none, how many sides there are.
pub(super) fn first_stop(wrap: i64, t: &[i32], from: usize) -> usize
    requires from { from ≤ length t.now }
    ensures within { result ≤ length t.now }
    ensures after { from ≤ result }
    ensures free { (k : ℕ) → from ≤ k → k < result → stops_at wrap t.now k ≡ false }
    ensures stop { result < length t.now → stops_at wrap t.now result ≡ true }
{
    for k in from..t.len() {
        if stops(wraps(wrap, k), t[k]) {
            return k;
        }
    }
    t.len()
}

// The least length at which a rider that no side stops is home.
fn home(sizes: &[u32], wrap: i64, t: &[i32]) -> u32
    requires positive { 0 < product_of sizes.now }
    requires dimensions { length t.now ≡ length sizes.now }
    requires few { product_of sizes.now ≤ most_vertices }
    requires free { (k : ℕ) → k < length t.now → stops_at wrap t.now k ≡ false }
    ensures some { 0 < result }
    ensures small { result ≤ product_of sizes.now }
    ensures home { (l : ℕ) → is_home (sides_of sizes.now wrap) t.now l ≡ (l % result == 0) }
{
    let mut home = 1;
    for (k, size) in sizes.iter().enumerate() {
        home *= turns(*size, wraps(wrap, k), t[k], home);
    }
    home
}

// The least number of times so many steps of `t` on a side that lead from a coordinate back to it.
fn turns(size: u32, wraps: bool, t: i32, steps: u32) -> u32
    requires positive { 0 < size }
    requires free { stops_on wraps t ≡ false }
    ensures some { 0 < result }
    ensures small { result ≤ size }
    ensures home { (i : ℕ) → is_home_on (record { size = size; wraps = wraps })
        (pos (i * steps) *ℤ t) ≡ (i % result == 0) }
{
    if !wraps {
        return 1;
    }
    let step = u64::from(steps) * u64::from(t.unsigned_abs());
    times_around(size, (step % u64::from(size)) as u32)
}

// The least number of times `step`, above 0, that is some times `size`, found as their greatest common divisor is.
fn times_around(size: u32, step: u32) -> u32
    requires { step < size }
    ensures some { 0 < result }
    ensures small { result ≤ size }
    ensures times { (i : ℕ) → (i * step % size == 0) ≡ (i % result == 0) }
{
    if step == 0 {
        return 1;
    }
    let times = times_around(step, size % step);
    (u64::from(times) * u64::from(size) / u64::from(step)) as u32
}

// The greatest length at which steps of `step` can stay on a side.
pub(super) fn lengths_along(size: u32, step: u32) -> u32
    requires size { 0 < size }
    requires step { 0 < step }
    ensures on { result * step < size }
    ensures off { size ≤ (result + 1) * step }
{
    (size - 1) / step
}

// From how many coordinates of a side steps of `step` stay on it, at each of so many lengths, for so many places of the
// other sides. The greatest and the least of these numbers, and so each two, have the same sum.
fn starts_along(rest: u32, size: u32, step: u32, lengths: u32) -> u128
    requires { lengths * step < size }
    ensures { result ≡ rest * starts_along size step lengths }
{
    let steps = (u128::from(lengths) + 1) * u128::from(step);
    let both = (u128::from(size) * 2).saturating_sub(steps);
    u128::from(rest) * (u128::from(lengths) * both / 2)
}

// From how many places of a board `l` steps of the displacement `t` lead to a place: the product over its sides, or
// the greatest number of 64 bits where it is more.
fn starts_product(sizes: &[u32], wrap: i64, t: &[i32], l: u32) -> u64
    requires dimensions { length t.now ≡ length sizes.now }
    ensures { result ≡ min (starts_product (sides_of sizes.now wrap) t.now l) (2 ^ 64 - 1) }
{
    let mut product: u64 = 1;
    for (k, size) in sizes.iter().enumerate() {
        let starts = starts_on(*size, wraps(wrap, k), step(t[k], l));
        product = product.saturating_mul(starts);
    }
    product
}

// `l` steps of `t` together.
fn step(t: i32, l: u32) -> i64
    ensures { result ≡ pos l *ℤ t }
{
    i64::from(l) * i64::from(t)
}

// From how many coordinates of a side a step of `u` stays on it: from all where it wraps around.
fn starts_on(size: u32, wraps: bool, u: i64) -> u64
    ensures { result ≡ starts_on (record { size = size; wraps = wraps }) u }
{
    if wraps {
        return u64::from(size);
    }
    u64::from(size).saturating_sub(u.unsigned_abs())
}
