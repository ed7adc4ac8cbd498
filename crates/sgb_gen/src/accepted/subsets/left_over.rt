//! The sum by which the pairs of subsets are counted.
//!
//! What a vector leaves of the bounds is a vector, too: it adds to M - n where the vector adds to n and the bounds add
//! to M. Two vectors have n + n - M elements more in common than what they leave. So where M - n is less than n the pairs
//! are counted of the sum M - n, with all wanted sizes less by n + n - M: a table for the sum 60 of 65 bounds of 1 becomes
//! one for the sum 5.
ghost use Rattle.std.specs.Prelude.{◌≡◌, ◌≤◌, ◌-◌, ◌/◌, ◌^◌, min};
ghost use Rattle.std.specs.List.{sum};
ghost use Rattle.sgb_gen.specs.inner.SubsetsPairs.{pairs_of_sums};

// What the vectors add to whose pairs are counted, and how many elements two of them may have in common.
#[derive(Clone, Copy)]
pub(super) struct Counted {
    pub total: u32,
    pub size_bits: u128,
}

// By which sum the pairs of this one are counted: by what the vectors leave of the bounds, where it adds to less.
pub(super) fn lesser_of(bounds: &[u32], total: u32, size_bits: u128) -> Counted
    ensures no_more { result.total ≤ total }
    ensures same { pairs_of_sums result.size_bits bounds.now result.total result.total 0
        ≡ pairs_of_sums size_bits bounds.now total total 0 }
{
    let all = sum_of_bounds(bounds);
    let n = u64::from(total);
    if all < n || n + n <= all {
        return Counted { total, size_bits };
    }
    Counted {
        total: (all - n) as u32,
        size_bits: moved_down(size_bits, n + n - all),
    }
}

// The sum of the bounds, or the greatest number of 64 bits where it is more.
fn sum_of_bounds(bounds: &[u32]) -> u64
    ensures { result ≡ min (sum bounds.now) (2 ^ 64 - 1) }
{
    let mut all: u64 = 0;
    for bound in bounds {
        all = all.saturating_add(u64::from(*bound));
    }
    all
}

// The wanted sizes less by `d`; those below it are gone.
fn moved_down(size_bits: u128, d: u64) -> u128
    ensures { result ≡ size_bits / 2 ^ d }
{
    if d > 127 {
        return 0;
    }
    size_bits >> d
}
