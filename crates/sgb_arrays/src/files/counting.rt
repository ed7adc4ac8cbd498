//! A sink that counts what it is given.
ghost use Rattle.std.specs.Prelude.{◌≡◌, ◌<◌, ◌^◌, ◌-◌, [], true, false, Some, IfOk, OnOk, length, min, is_err};
ghost use Rattle.std.specs.Io.{WritesAtMost};
ghost use Rattle.std.specs.Io.KnownBytes.{WriteAppends, Keeps};
ghost use Rattle.sgb_file.specs.Devices.{nothing_held};

use crate::files::seen::{Seen, see};
use sgb_file::{Failed, Sink};

/// A sink that counts its bytes and lets them go. It never fails. A count of 2^64 - 1 stands for more too.
#[derive(Drop)]
pub(crate) struct CountSink {
    count: u64,
    seen: Seen,
    ghost counted: { count ≡ min (length seen.bytes) (2 ^ 64 - 1) },
}

impl CountSink {
    /// A sink that was given nothing yet.
    pub(crate) fn new() -> CountSink
        ensures { result.seen.bytes ≡ [] }
    {
        CountSink {
            count: 0,
            seen: Seen::none(),
        }
    }

    /// How many bytes it was given.
    pub(crate) fn count(&self) -> u64
        ensures { result ≡ min (length self.now.seen.bytes) (2 ^ 64 - 1) }
    {
        self.count
    }
}

impl Sink for CountSink {
    ghost written = { λ sink. Some sink.seen.bytes };

    ghost held = { λ _. nothing_held };

    ghost has_failed = { λ _. false };

    /// Counts all of the bytes.
    fn put(&mut self, bytes: &[u8]) -> Result<usize, Failed>
        ensures bound { WritesAtMost result bytes.now }
        ensures progress { IfOk result (λ count. 0 < length bytes.now → 0 < count) }
        ensures took { WriteAppends (Some self.old.seen.bytes) (Some self.new.seen.bytes) result
            bytes.now }
        ensures failed { false ≡ is_err result }
        ensures stays_failed { false ≡ true → false ≡ true }
    {
        self.count = self.count.saturating_add(bytes.len() as u64);
        see(&mut self.seen, bytes);
        Ok(bytes.len())
    }

    /// Changes nothing.
    fn flush(&mut self) -> Result<(), Failed>
        ensures kept { Keeps (Some self.old.seen.bytes) (Some self.new.seen.bytes) }
        ensures passed_on { OnOk result (nothing_held ≡ []) }
        ensures failed { false ≡ is_err result }
        ensures stays_failed { false ≡ true → false ≡ true }
    {
        Ok(())
    }

    /// False.
    fn failed(&self) -> bool
        ensures { result ≡ false }
    {
        false
    }
}
