//! The entries of a vector: all of them 0, and how many there are.
ghost use Rattle.std.specs.Prelude.{◌≡◌, ◌+◌, ◌<◌, ◌≤◌, ◌^◌, ℕ, length, replicate, slice_index};

use crate::families::Vector;
use crate::steps::Steps;

// Makes `vector` one of `count` zeros.
pub(crate) fn put_zeros(vector: &mut Vector, count: usize, steps: &mut Steps)
    requires few { count ≤ 251 }
    requires count { steps.old ≤ 2 ^ 63 }
    ensures zeros { vector.new.items ≡ replicate count 0 }
    ensures visits { steps.new ≡ steps.old + count }
{
    vector.clear();
    for _i in 0..count {
        steps.visit();
        vector.push(0);
    }
}

// How many numbers there are, each below 2^32.
pub(crate) fn count_of(numbers: &[u32]) -> usize
    ensures count { result ≡ length numbers.now }
    ensures small { (k : ℕ) → slice_index numbers.now k < 2 ^ 32 }
{
    numbers.len()
}
