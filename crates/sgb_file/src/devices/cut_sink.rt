//! A sink that takes few bytes at once and fails after so many, for tests of what writes to it.
ghost use Rattle.std.specs.Prelude.{◌≡◌, ◌<◌, ◌++◌, ◌-◌, ◌==◌, ◌||◌, [], true, false, Some, IfOk, OnOk, OnErr, length, min, take, is_err};
ghost use Rattle.std.specs.Io.{WritesAtMost};
ghost use Rattle.std.specs.Io.KnownBytes.{WriteAppends, Keeps};
ghost use Rattle.sgb_file.specs.Devices.{nothing_held};

use super::single_calls::give_up;
use super::{Failed, Sink};
use arrayvec::ArrayVec;
use std::marker::Model;

/// A sink for at most `N` bytes that takes no memory: at most so many a call, until so many were taken or it is
/// full. The next call fails.
#[derive(Drop)]
pub struct CutSink<const N: usize> {
    taken: ArrayVec<u8, N>,
    each: usize,
    left: usize,
    flush_fails: bool,
    failed: bool,
}

impl<const N: usize> Model for CutSink<N> {
    ghost use Rattle.std.specs.Prelude.{◌<◌};
    ghost use Rattle.sgb_file.specs.Devices.{CutSinkState};

    ghost Value = { CutSinkState };

    ghost view = { λ sink. record {
      taken = sink.taken.items;
      each = sink.each;
      left = sink.left;
      flush_fails = sink.flush_fails;
      failed = sink.failed;
    } };

    ghost invariant = { λ sink. 0 < sink.each };
}

impl<const N: usize> CutSink<N> {
    /// An empty sink that takes at most `each` bytes (1 or more) a call, fails at the first `put` after `limit`
    /// or `N` bytes were taken, and fails at `flush` where `flush_fails`.
    pub fn new(each: usize, limit: usize, flush_fails: bool) -> CutSink<N>
        requires { 0 < each }
        ensures empty { result.taken ≡ [] }
        ensures each { result.each ≡ each }
        ensures limit { result.left ≡ limit }
        ensures flush { result.flush_fails ≡ flush_fails }
        ensures sound { result.failed ≡ false }
    {
        CutSink {
            taken: ArrayVec::new(),
            each,
            left: limit,
            flush_fails,
            failed: false,
        }
    }

    /// The bytes that the sink took.
    pub fn bytes(&self) -> &[u8]
        ensures { result.now ≡ self.now.taken }
    {
        self.taken.as_slice()
    }
}

impl<const N: usize> Sink for CutSink<N> {
    ghost written = { λ sink. Some sink.taken };

    ghost held = { λ _. nothing_held };

    ghost has_failed = { λ sink. sink.failed };

    /// Takes a prefix of `bytes`. `Failed` where the sink had failed, has taken its limit or is full.
    fn put(&mut self, bytes: &[u8]) -> Result<usize, Failed>
        ensures bound { WritesAtMost result bytes.now }
        ensures progress { IfOk result (λ count. 0 < length bytes.now → 0 < count) }
        ensures took { WriteAppends (Some self.old.taken) (Some self.new.taken) result bytes.now }
        ensures failed { self.new.failed ≡ is_err result }
        ensures stays_failed { self.old.failed ≡ true → self.new.failed ≡ true }
        ensures fails { is_err result
            ≡ (self.old.failed || (self.old.left == 0 || length self.old.taken == N)) }
        ensures count { IfOk result (λ count. count ≡ min (min (min self.old.each self.old.left)
            (N - length self.old.taken)) (length bytes.now)) }
        ensures held { IfOk result (λ count. self.new ≡ record self.old {
          taken = self.old.taken ++ take count bytes.now;
          left = self.old.left - count;
        }) }
        ensures refused { OnErr result (self.new ≡ record self.old { failed = true }) }
    {
        if self.failed || self.left == 0 || self.taken.is_full() {
            return give_up(&mut self.failed);
        }
        let room = self.taken.remaining_capacity();
        let count = self.each.min(self.left).min(room).min(bytes.len());
        // Never refused, as count is at most the room.
        let _ = self.taken.try_extend_from_slice(&bytes[..count]);
        self.left -= count;
        Ok(count)
    }

    /// Holds nothing back. `Failed` where the sink had failed, or was made to fail here.
    fn flush(&mut self) -> Result<(), Failed>
        ensures kept { Keeps (Some self.old.taken) (Some self.new.taken) }
        ensures passed_on { OnOk result (nothing_held ≡ []) }
        ensures failed { self.new.failed ≡ is_err result }
        ensures stays_failed { self.old.failed ≡ true → self.new.failed ≡ true }
        ensures fails { is_err result ≡ (self.old.failed || self.old.flush_fails) }
        ensures same { self.new ≡ record self.old { failed = is_err result } }
    {
        if self.failed || self.flush_fails {
            return give_up(&mut self.failed);
        }
        Ok(())
    }

    /// Whether a `put` or a `flush` failed.
    fn failed(&self) -> bool
        ensures { result ≡ self.now.failed }
    {
        self.failed
    }
}
