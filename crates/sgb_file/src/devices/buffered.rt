//! std's writers as sinks with a buffer before them, which is given up with the first fault.
//!
//! std's `BufWriter` is in it, and no `ToWrite` around one: that the buffer is empty after a flush is a clause of
//! `BufWriter`'s own. Its drop alone would write what it holds once more after a fault.
ghost use Rattle.std.specs.Prelude.{◌≡◌, ◌<◌, [], true, false, length, is_err, IfOk, IfErr, OnOk};
ghost use Rattle.std.specs.Io.{WritesAtMost};
ghost use Rattle.std.specs.Io.Buffered.{writer_buffer, writer_contents, writer_inner};
ghost use Rattle.std.specs.Io.KnownBytes.{WriteAppends, Keeps};
ghost use Rattle.std.specs.IoError.{error_kind};

use super::single_calls::{keep_fault, write_once};
use super::{Failed, Sink};
use std::alloc::Global;
use std::io::{self, BufWriter, ErrorKind, Write};

/// A writer as a sink, with a buffer before it. After its first fault nothing more is written: what the buffer holds
/// then is dropped with it. It tells its bytes where the writer does.
pub struct Buffered<W: Write + Drop> {
    writer: BufWriter<W>,
    failed: bool,
}

impl<W: Write + Drop> Buffered<W> {
    /// A sink that writes to `writer`. An error of the kind `OutOfMemory` when out of memory.
    pub fn new(alloc: Global, writer: W) -> io::Result<Buffered<W>>
        ensures inner { IfOk result (λ s. writer_inner s.writer ≡ writer) }
        ensures empty { IfOk result (λ s. writer_buffer s.writer ≡ []) }
        ensures sound { IfOk result (λ s. s.failed ≡ false) }
        ensures memory { IfErr result (λ e. error_kind e ≡ ErrorKind.OutOfMemory) }
    {
        let writer = BufWriter::new(alloc, writer)?;
        Ok(Buffered {
            writer,
            failed: false,
        })
    }
}

impl<W: Write + Drop> Sink for Buffered<W> {
    ghost written = { λ s. writer_contents W.contents s.writer };

    ghost held = { λ s. writer_buffer s.writer };

    ghost has_failed = { λ s. s.failed };

    /// Puts bytes into the buffer, and writes what it holds where they do not fit. `Failed` where the sink had failed,
    /// and then buffer and writer are left alone, or where a write fails.
    fn put(&mut self, bytes: &[u8]) -> Result<usize, Failed>
        ensures bound { WritesAtMost result bytes.now }
        ensures progress { IfOk result (λ count. 0 < length bytes.now → 0 < count) }
        ensures took { WriteAppends (writer_contents W.contents self.old.writer)
            (writer_contents W.contents self.new.writer) result bytes.now }
        ensures failed { self.new.failed ≡ is_err result }
        ensures stays_failed { self.old.failed ≡ true → self.new.failed ≡ true }
        ensures left_alone { self.old.failed ≡ true → self.new ≡ self.old }
    {
        write_once(&mut self.writer, &mut self.failed, bytes)
    }

    /// Writes what the buffer holds and flushes the writer. `Failed` where the sink had failed, and then buffer and
    /// writer are left alone, or where one of the two fails.
    fn flush(&mut self) -> Result<(), Failed>
        ensures kept { Keeps (writer_contents W.contents self.old.writer)
            (writer_contents W.contents self.new.writer) }
        ensures passed_on { OnOk result (writer_buffer self.new.writer ≡ []) }
        ensures failed { self.new.failed ≡ is_err result }
        ensures stays_failed { self.old.failed ≡ true → self.new.failed ≡ true }
        ensures left_alone { self.old.failed ≡ true → self.new ≡ self.old }
    {
        if self.failed {
            return Err(Failed);
        }
        let returned = self.writer.flush();
        keep_fault(&mut self.failed, returned)
    }

    /// Whether a write or a flush failed.
    fn failed(&self) -> bool
        ensures { result ≡ self.now.failed }
    {
        self.failed
    }
}

impl<W: Write + Drop> Drop for Buffered<W> {
    fn drop(self) {
        let Buffered { writer, failed } = self;
        if failed {
            let (_writer, _held) = writer.into_parts();
        } else {
            drop(writer);
        }
    }
}
