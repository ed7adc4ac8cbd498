ghost use Rattle.std.specs.Prelude.{◌≡◌, ◌+◌, ◌*◌, ◌≤◌, ◌^◌, [], ◌∷◌};
ghost use Rattle.sgb_vec.specs.Limits.{most_vertices};
ghost use Rattle.sgb_vec.specs.inner.SumRows.{count_of_sum};

// How many triples of a number up to `a`, one up to `b` and one up to `c` add to `sum`: the pairs of the last two that
// add to at most `sum`, without those that leave more than `a`.
pub(super) fn triples(a: u32, b: u32, c: u32, sum: u32) -> u64
    requires { sum ≤ most_vertices }
    ensures { result ≡ count_of_sum sum (a ∷ b ∷ c ∷ []) }
{
    let pairs = pairs_up_to(b, c, sum);
    if sum <= a {
        return pairs;
    }
    pairs - pairs_up_to(b, c, sum - a - 1)
}

// How many pairs of a number up to `a` and one up to `b` add to at most `sum`, so that a third number makes up for the
// rest: all pairs, without those above either bound, which take off twice those above both.
fn pairs_up_to(a: u32, b: u32, sum: u32) -> u64
    requires { sum ≤ most_vertices }
    ensures { result ≡ count_of_sum sum (sum ∷ a ∷ b ∷ []) }
{
    let above_a = sum.saturating_sub(a);
    let above_b = sum.saturating_sub(b);
    let above_both = above_a.saturating_sub(1).saturating_sub(b);
    triangle(sum + 1) + triangle(above_both) - triangle(above_a) - triangle(above_b)
}

// The sum of the numbers up to `n`.
fn triangle(n: u32) -> u64
    requires { n ≤ most_vertices + 1 }
    ensures twice { 2 * result ≡ n * (n + 1) }
    ensures small { result ≤ 2 ^ 60 }
{
    u64::from(n) * (u64::from(n) + 1) / 2
}
