//! A sink over a slice.
ghost use Rattle.std.specs.Prelude.{◌≡◌, ◌<◌, ◌≤◌, [], ◌∷◌, true, Some, IfOk, OnOk, length, take, is_err};
ghost use Rattle.std.specs.Io.{WritesAtMost};
ghost use Rattle.std.specs.Io.KnownBytes.{WriteAppends, Keeps};
ghost use Rattle.sgb_file.specs.Devices.{nothing_held};

use sgb_file::{Failed, Sink};

/// A sink that fills a slice from its start. It fails only where the slice is full.
#[derive(Drop)]
pub(super) struct FillSink<'a> {
    pub(super) out: &'a mut [u8],
    pub(super) at: usize,
    pub(super) failed: bool,
    ghost within: { at ≤ length out.now },
    ghost full: { failed ≡ true → at ≡ length out.now },
}

impl<'a> Sink for FillSink<'a> {
    // The bytes, after the name of the slice's borrow: so it is the same slice that holds them at the end.
    ghost written = { λ sink. Some (sink.out.ghost_name ∷ take sink.at sink.out.now) };

    ghost held = { λ _. nothing_held };

    ghost has_failed = { λ sink. sink.failed };

    /// Puts as many of the bytes as fit behind those before. `Failed` where the slice is full.
    fn put(&mut self, bytes: &[u8]) -> Result<usize, Failed>
        ensures bound { WritesAtMost result bytes.now }
        ensures progress { IfOk result (λ count. 0 < length bytes.now → 0 < count) }
        ensures took { WriteAppends
            (Some (self.old.out.ghost_name ∷ take self.old.at self.old.out.now))
            (Some (self.new.out.ghost_name ∷ take self.new.at self.new.out.now)) result bytes.now }
        ensures failed { self.new.failed ≡ is_err result }
        ensures stays_failed { self.old.failed ≡ true → self.new.failed ≡ true }
    {
        let room = self.out.len() - self.at;
        if room == 0 {
            self.failed = true;
            return Err(Failed);
        }
        let count = bytes.len().min(room);
        self.out[self.at..self.at + count].copy_from_slice(&bytes[..count]);
        self.at += count;
        Ok(count)
    }

    /// Changes nothing. `Failed` where the sink had failed.
    fn flush(&mut self) -> Result<(), Failed>
        ensures kept { Keeps (Some (self.old.out.ghost_name ∷ take self.old.at self.old.out.now))
            (Some (self.new.out.ghost_name ∷ take self.new.at self.new.out.now)) }
        ensures passed_on { OnOk result (nothing_held ≡ []) }
        ensures failed { self.new.failed ≡ is_err result }
        ensures stays_failed { self.old.failed ≡ true → self.new.failed ≡ true }
    {
        if self.failed { Err(Failed) } else { Ok(()) }
    }

    /// Whether more bytes came than fit.
    fn failed(&self) -> bool
        ensures { result ≡ self.now.failed }
    {
        self.failed
    }
}
