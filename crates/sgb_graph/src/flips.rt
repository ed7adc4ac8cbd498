//! The random number generator of GB_FLIP.
//!
//! Of any 1760 draws in a row one is not thrown away (`uniform_draw_law`), so the search for a uniform draw is bounded.
ghost use Rattle.std.specs.Prelude.{◌≡◌, ℕ, ℤ, ◌+◌, ◌<◌, ◌≤◌};
ghost use Rattle.sgb_graph.specs.Draws.{IsUniformDraw, IsAtDraw, difference, draw, modulus, seed_of};
ghost use Rattle.sgb_graph.specs.inner.Flips.{HandsOut, IsCycle, IsFirstCycle, IsNextCycle, rotated_once};
// For the search alone.
ghost use Rattle.std.specs.Prelude.{◌%◌};

use jumps::jump;
use std::marker::Model;

// Jumps over many numbers.
mod jumps;

// The numbers of a cycle.
const CYCLE: usize = 55;

// The numbers are below 2^31, and their differences are taken modulo 2^31.
const MODULUS: u32 = 0x8000_0000;

// So many cycles are thrown away at the start.
const THROWN_AWAY: usize = 5;

/// The random number generator of GB_FLIP, whose numbers are the same on every machine. Contracts see it as
/// the 55 numbers of its cycle and how many of them are still to come.
#[derive(Drop)]
pub struct Flip {
    numbers: [u32; CYCLE],
    left: usize,
}

impl Model for Flip {
    ghost use Rattle.sgb_graph.specs.Flips.{FlipData};
    ghost use Rattle.sgb_graph.specs.inner.Flips.{flip_data, IsFlip};

    ghost Value = { FlipData };

    ghost view = { λ flip. flip_data flip.numbers flip.left };

    ghost invariant = { λ flip. IsFlip flip.numbers flip.left };
}

impl Flip {
    /// A generator started from this value, which counts modulo 2^31 (GB_FLIP, gb_init_rand).
    pub fn new(start: i64) -> Flip
        ensures { IsAtDraw start 0 result.numbers result.left }
    {
        let mut numbers = first_cycle(seed_of(start));
        for _thrown in 0..THROWN_AWAY {
            step_cycle(&mut numbers);
        }
        Flip {
            numbers,
            left: CYCLE - 1,
        }
    }

    /// The next number, from 0 to 2^31 - 1 (GB_FLIP, gb_next_rand).
    pub fn draw(&mut self) -> u32
        ensures stands { (start : ℤ) (k : ℕ) → IsAtDraw start k self.old.numbers self.old.left
            → (result ≡ draw (seed_of start) k)
            × IsAtDraw start (k + 1) self.new.numbers self.new.left }
        ensures below { result < modulus }
    {
        hand_out(&mut self.numbers, &mut self.left)
    }

    /// Leaves out so many draws: as many calls of `draw` would (GB_FLIP, gb_next_rand).
    pub fn skip(&mut self, count: u64)
        ensures { (start : ℤ) (k : ℕ) → IsAtDraw start k self.old.numbers self.old.left
            → IsAtDraw start (k + count) self.new.numbers self.new.left }
    {
        let cycle = CYCLE as u64;
        jump(&mut self.numbers, count / cycle);
        let rest = (count % cycle) as usize;
        if self.left < rest {
            step_cycle(&mut self.numbers);
            self.left += CYCLE;
        }
        self.left -= rest;
    }

    /// A uniform number below `m`, for `m` from 1 to 2^31 (GB_FLIP, gb_unif_rand): draws are thrown
    /// away until one is below the greatest multiple of `m` up to 2^31.
    pub fn below(&mut self, m: u32) -> u32
        requires positive { 1 ≤ m }
        requires small { m ≤ modulus }
        ensures stands { (start : ℤ) (k : ℕ) → IsAtDraw start k self.old.numbers self.old.left
            → (last : ℕ) × IsUniformDraw (seed_of start) m k result last
            × IsAtDraw start (last + 1) self.new.numbers self.new.left }
        ensures below { result < m }
    {
        let bound = MODULUS - MODULUS % m;
        loop {
            let number = hand_out(&mut self.numbers, &mut self.left);
            if number < bound {
                return number % m;
            }
        }
    }
}

// Hands out the next number of the cycle, from the last to the first, or else the last one of the next cycle.
fn hand_out(numbers: &mut [u32; CYCLE], left: &mut usize) -> u32
    requires cycle { IsCycle numbers.old }
    requires few { left.old ≤ 54 }
    ensures { HandsOut numbers.old left.old result numbers.new left.new }
{
    if *left == 0 {
        step_cycle(numbers);
        *left = CYCLE;
    }
    *left -= 1;
    numbers[*left]
}

// Puts the next cycle in the place of one: each number is the 55th before it less the 24th before it
// (GB_FLIP, gb_flip_cycle).
fn step_cycle(numbers: &mut [u32; CYCLE])
    requires { IsCycle numbers.old }
    ensures { IsNextCycle numbers.old numbers.new }
{
    for i in 0..CYCLE {
        numbers[i] = difference(numbers[i], numbers[(i + 31) % CYCLE]);
    }
}

// The start value modulo 2^31.
fn seed_of(start: i64) -> u32
    ensures value { result ≡ seed_of start }
    ensures below { result < modulus }
{
    start.rem_euclid(i64::from(MODULUS)) as u32
}

// The first cycle: number 21k modulo 55 is Y(k), where number 55 counts as 0 (GB_FLIP, gb_init_rand).
fn first_cycle(seed: u32) -> [u32; CYCLE]
    requires { seed < modulus }
    ensures { IsFirstCycle seed result }
{
    let mut numbers = [0; CYCLE];
    let mut number = seed;
    let mut next = 1;
    let mut rotated = seed;
    for k in 0..CYCLE {
        numbers[(21 * k + CYCLE - 1) % CYCLE] = number;
        rotated = rotated_once(rotated);
        let after_next = difference(difference(number, next), rotated);
        number = next;
        next = after_next;
    }
    numbers
}

// The number rotated right by one place within 31 bits.
fn rotated_once(number: u32) -> u32
    requires { number < modulus }
    ensures { result ≡ rotated_once number }
{
    number / 2 + number % 2 * (MODULUS / 2)
}

// a - b modulo 2^31.
fn difference(a: u32, b: u32) -> u32
    requires first { a < modulus }
    requires second { b < modulus }
    ensures { result ≡ difference a b }
{
    (a + MODULUS - b) % MODULUS
}
