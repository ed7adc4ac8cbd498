//! std's writers as sinks. The first fault of any kind is final, and so is a write that takes nothing.
ghost use Rattle.std.specs.Prelude.{◌≡◌, ◌<◌, [], true, false, IfOk, OnOk, length, is_err};
ghost use Rattle.std.specs.Io.{WritesAtMost};
ghost use Rattle.std.specs.Io.KnownBytes.{WriteAppends, Keeps};
ghost use Rattle.sgb_file.specs.Devices.{nothing_held};

use super::single_calls::{keep_fault, write_once};
use super::{Failed, Sink};
use std::io::Write;
use std::marker::Model;

/// A writer as a sink. It tells its bytes where the writer does.
#[derive(Drop)]
pub struct ToWrite<W> {
    writer: W,
    failed: bool,
}

impl<W> Model for ToWrite<W> {
    ghost use Rattle.sgb_file.specs.Devices.{Adapted};
    ghost use Rattle.sgb_file.specs.inner.Devices.{adapted_code};

    ghost Value = { Adapted W };

    ghost coded = { adapted_code W.code };

    ghost view = { λ sink. record { inner = sink.writer; failed = sink.failed } };
}

impl<W> ToWrite<W> {
    /// A sink that writes to `writer`.
    pub fn new(writer: W) -> ToWrite<W>
        ensures inner { result.inner ≡ writer }
        ensures sound { result.failed ≡ false }
    {
        ToWrite {
            writer,
            failed: false,
        }
    }
}

impl<W: Write> Sink for ToWrite<W> {
    ghost written = { λ sink. W.contents sink.inner };

    ghost held = { λ _. nothing_held };

    ghost has_failed = { λ sink. sink.failed };

    /// Writes once. `Failed` where the sink had failed, and then the writer is left alone, or where the write
    /// fails, also by an interrupt, or takes none of bytes that are not empty.
    fn put(&mut self, bytes: &[u8]) -> Result<usize, Failed>
        ensures bound { WritesAtMost result bytes.now }
        ensures progress { IfOk result (λ count. 0 < length bytes.now → 0 < count) }
        ensures took { WriteAppends (W.contents self.old.inner) (W.contents self.new.inner) result
            bytes.now }
        ensures failed { self.new.failed ≡ is_err result }
        ensures stays_failed { self.old.failed ≡ true → self.new.failed ≡ true }
        ensures left_alone { self.old.failed ≡ true → self.new ≡ self.old }
    {
        write_once(&mut self.writer, &mut self.failed, bytes)
    }

    /// Flushes the writer. `Failed` where the sink had failed, and then the writer is left alone, or where the
    /// flush fails.
    fn flush(&mut self) -> Result<(), Failed>
        ensures kept { Keeps (W.contents self.old.inner) (W.contents self.new.inner) }
        ensures passed_on { OnOk result (nothing_held ≡ []) }
        ensures failed { self.new.failed ≡ is_err result }
        ensures stays_failed { self.old.failed ≡ true → self.new.failed ≡ true }
        ensures left_alone { self.old.failed ≡ true → self.new ≡ self.old }
    {
        if self.failed {
            return Err(Failed);
        }
        let returned = self.writer.flush();
        keep_fault(&mut self.failed, returned)
    }

    /// Whether a write or a flush failed.
    fn failed(&self) -> bool
        ensures { result ≡ self.now.failed }
    {
        self.failed
    }
}
