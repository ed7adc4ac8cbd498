//! Where bytes come from and go to: sources and sinks that may fail, over memory, over std's readers and
//! writers, and cut short for tests.
//!
//! They say what they hold by ghost members in the manner of std's `Read` and `Write`: `None` is a device that does not
//! tell. What a sink holds back until a flush is known also of one that does not tell its bytes: so an answer without
//! its flush is refused by the contract of a run, and a `Buffered` whose flush leaves the buffer as it is by that of
//! the trait. What a failure means the caller says: nothing turns it into a fault.
ghost use Rattle.std.specs.Prelude.{◌≡◌, ℕ, ◌<◌, Bool, true, List, [], Option, length, is_err, IfOk, OnOk};
ghost use Rattle.std.specs.Io.{ReadsAtMost, WritesAtMost};
ghost use Rattle.std.specs.Io.KnownBytes.{ReadConsumes, WriteAppends, Keeps};

mod buffered;
mod cut_sink;
mod cut_source;
mod from_read;
mod memory;
mod single_calls;
mod to_write;
mod whole_puts;

pub use buffered::Buffered;
pub use cut_sink::CutSink;
pub use cut_source::CutSource;
pub use from_read::FromRead;
pub use memory::{MemSink, MemSource};
pub use to_write::ToWrite;
pub use whole_puts::put_all;

/// A device gave up. It stays so.
#[derive(Clone, Copy, Debug, PartialEq, Eq)]
pub struct Failed;

/// Where bytes come from.
pub trait Source {
    // The bytes that are still to come, where the source tells them.
    ghost remaining: { Self → Option (List ℕ) };

    // Whether the source has failed.
    ghost has_failed: { Self → Bool };

    /// Puts the next bytes at the start of `buffer` and returns how many: 0 in a buffer that is not empty
    /// is the end. `Failed` exactly where `failed()` is true afterwards; nothing was then given.
    fn take(&mut self, buffer: &mut [u8]) -> Result<usize, Failed>
        ensures bound { ReadsAtMost result buffer.new }
        ensures gave { ReadConsumes (remaining self.old) (remaining self.new) result buffer.new }
        ensures failed { has_failed self.new ≡ is_err result }
        ensures stays_failed { has_failed self.old ≡ true → has_failed self.new ≡ true };

    /// Whether the source has failed.
    fn failed(&self) -> bool
        ensures { result ≡ has_failed self.now };
}

/// Where bytes go to.
pub trait Sink {
    // The bytes that the sink holds, where it tells them.
    ghost written: { Self → Option (List ℕ) };

    // The bytes that it was given and holds back until a flush.
    ghost held: { Self → List ℕ };

    // Whether the sink has failed.
    ghost has_failed: { Self → Bool };

    /// Takes a prefix of `bytes` and returns its length: at least one of bytes that are not empty.
    /// `Failed` exactly where `failed()` is true afterwards; nothing was then taken.
    fn put(&mut self, bytes: &[u8]) -> Result<usize, Failed>
        ensures bound { WritesAtMost result bytes.now }
        ensures progress { IfOk result (λ count. 0 < length bytes.now → 0 < count) }
        ensures took { WriteAppends (written self.old) (written self.new) result bytes.now }
        ensures failed { has_failed self.new ≡ is_err result }
        ensures stays_failed { has_failed self.old ≡ true → has_failed self.new ≡ true };

    /// Passes on what the sink holds back, so that it holds nothing. `Failed` exactly where `failed()` is true
    /// afterwards.
    fn flush(&mut self) -> Result<(), Failed>
        ensures kept { Keeps (written self.old) (written self.new) }
        ensures passed_on { OnOk result (held self.new ≡ []) }
        ensures failed { has_failed self.new ≡ is_err result }
        ensures stays_failed { has_failed self.old ≡ true → has_failed self.new ≡ true };

    /// Whether the sink has failed.
    fn failed(&self) -> bool
        ensures { result ≡ has_failed self.now };
}
