ghost use Rattle.std.specs.Prelude.{◌≡◌, ◌≤◌, length};
ghost use Rattle.sgb_vec.specs.Sizes.{before_stop, stop_of, zero_after_stop};

use arrayvec::ArrayVec;

// The entries before the stop, which is the first that is not positive.
pub(super) fn before_stop(entries: &[i64]) -> ArrayVec<u64, 5>
    requires { length entries.now ≤ 5 }
    ensures { result.items ≡ before_stop entries.now }
{
    let mut before = ArrayVec::new();
    for entry in entries {
        if *entry <= 0 {
            return before;
        }
        before.push(entry.unsigned_abs());
    }
    before
}

// The first entry that is not positive; 0 where each is.
pub(super) fn stop_of(entries: &[i64]) -> i64
    ensures { result ≡ stop_of entries.now }
{
    for entry in entries {
        if *entry <= 0 {
            return *entry;
        }
    }
    0
}

// The parameters as the official name has them: those up to the stop, and 0 after it.
pub(super) fn zero_after_stop(entries: &[i64]) -> ArrayVec<i64, 6>
    requires { length entries.now ≤ 6 }
    ensures { result.items ≡ zero_after_stop entries.now }
{
    let mut params = ArrayVec::new();
    let mut stopped = false;
    for entry in entries {
        if stopped {
            params.push(0);
            continue;
        }
        params.push(*entry);
        stopped = *entry <= 0;
    }
    params
}
