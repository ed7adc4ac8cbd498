//! Random numbers, put into an array.
ghost use Rattle.std.specs.Prelude.{◌≡◌, ◌≤◌, length, OnOk, IfErr};
ghost use Rattle.sgb_graph.specs.Draws.{modulus, plain_draws, seed_of, uniform_draws};
ghost use Rattle.sgb_arrays.specs.declared.refusals.Wrong.TheVariants as wrong;
// For the search alone.
ghost use Rattle.std.specs.Prelude.{ℕ, ℤ};
ghost use Rattle.sgb_graph.specs.Draws.{IsAtDraw};
ghost use Rattle.sgb_arrays.specs.inner.Puts.{put_from};

use crate::refusals::Wrong;
use sgb_graph::Flip;

// A uniform draw is below this at most.
const MOST_BOUND: u32 = 0x8000_0000;

/// Puts draws of a generator that is started from this value into an array, after so many that are left out (GB_FLIP,
/// gb_next_rand). No memory is taken.
pub fn fill_draws(start: i64, skip: u64, out: &mut [u32])
    ensures { out.new ≡ plain_draws (seed_of start) skip (length out.old) }
{
    let mut flip = Flip::new(start);
    flip.skip(skip);
    for place in 0..out.len() {
        out[place] = flip.draw();
    }
}

/// Puts uniform draws below `m` of a generator that is started from this value into an array, after so many plain draws
/// that are left out (GB_FLIP, gb_unif_rand). No memory is taken.
///
/// `Bound` where m is not from 1 to 2^31.
pub fn fill_uniform_draws(start: i64, skip: u64, m: u32, out: &mut [u32]) -> Result<(), Wrong>
    ensures filled { OnOk result ((1 ≤ m) × (m ≤ modulus)
        × (out.new ≡ uniform_draws (seed_of start) m skip (length out.old))) }
    ensures refused { IfErr result (λ why. (why ≡ wrong.Bound) × ((1 ≤ m) × (m ≤ modulus) → ⊥)
        × (out.new ≡ out.old)) }
{
    if m < 1 || MOST_BOUND < m {
        return Err(Wrong::Bound);
    }
    put_uniform_draws(start, skip, m, out);
    Ok(())
}

// Puts uniform draws into an array.
fn put_uniform_draws(start: i64, skip: u64, m: u32, out: &mut [u32])
    requires some { 1 ≤ m }
    requires bound { m ≤ modulus }
    ensures { out.new ≡ uniform_draws (seed_of start) m skip (length out.old) }
{
    let mut flip = Flip::new(start);
    flip.skip(skip);
    for place in 0..out.len() {
        out[place] = flip.below(m);
    }
}
