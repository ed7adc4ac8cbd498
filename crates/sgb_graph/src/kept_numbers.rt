//! The number of an arc record, or none, as vertices and records keep it: in one word.
ghost use Rattle.std.specs.Prelude.{◌≡◌, ◌<◌, ◌+◌, ◌^◌, IfSome};
ghost use Rattle.sgb_graph.specs.inner.KeptRecords.{kept_number};

// The number that stands for no record. No list of records is that long.
const NONE: usize = usize::MAX;

// The word that keeps this number.
pub(crate) fn keep_number(number: Option<usize>) -> usize
    requires { IfSome number (λ k. k + 1 < 2 ^ 64) }
    ensures { kept_number result ≡ number }
{
    number.unwrap_or(NONE)
}

// The number that this word keeps.
pub(crate) fn read_number(kept: usize) -> Option<usize>
    ensures value { result ≡ kept_number kept }
    ensures small { IfSome result (λ k. k + 1 < 2 ^ 64) }
{
    (kept != NONE).then_some(kept)
}
