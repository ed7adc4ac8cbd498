//! std's readers as sources. The first fault of any kind is final.
ghost use Rattle.std.specs.Prelude.{◌≡◌, true, false, is_err};
ghost use Rattle.std.specs.Io.{ReadsAtMost};
ghost use Rattle.std.specs.Io.KnownBytes.{ReadConsumes};

use super::single_calls::keep_fault;
use super::{Failed, Source};
use std::io::Read;
use std::marker::Model;

/// A reader as a source. It tells its bytes where the reader does.
#[derive(Drop)]
pub struct FromRead<R> {
    reader: R,
    failed: bool,
}

impl<R> Model for FromRead<R> {
    ghost use Rattle.sgb_file.specs.Devices.{Adapted};
    ghost use Rattle.sgb_file.specs.inner.Devices.{adapted_code};

    ghost Value = { Adapted R };

    ghost coded = { adapted_code R.code };

    ghost view = { λ source. record { inner = source.reader; failed = source.failed } };
}

impl<R> FromRead<R> {
    /// A source that reads from `reader`.
    pub fn new(reader: R) -> FromRead<R>
        ensures inner { result.inner ≡ reader }
        ensures sound { result.failed ≡ false }
    {
        FromRead {
            reader,
            failed: false,
        }
    }
}

impl<R: Read> Source for FromRead<R> {
    ghost remaining = { λ source. R.remaining source.inner };

    ghost has_failed = { λ source. source.failed };

    /// Reads once. `Failed` where the source had failed, and then the reader is left alone, or where the read
    /// fails, also by an interrupt.
    fn take(&mut self, buffer: &mut [u8]) -> Result<usize, Failed>
        ensures bound { ReadsAtMost result buffer.new }
        ensures gave { ReadConsumes (R.remaining self.old.inner) (R.remaining self.new.inner) result
            buffer.new }
        ensures failed { self.new.failed ≡ is_err result }
        ensures stays_failed { self.old.failed ≡ true → self.new.failed ≡ true }
        ensures left_alone { self.old.failed ≡ true → self.new ≡ self.old }
        ensures untouched { self.old.failed ≡ true → buffer.new ≡ buffer.old }
    {
        if self.failed {
            return Err(Failed);
        }
        let returned = self.reader.read(buffer);
        keep_fault(&mut self.failed, returned)
    }

    /// Whether a read failed.
    fn failed(&self) -> bool
        ensures { result ≡ self.now.failed }
    {
        self.failed
    }
}
