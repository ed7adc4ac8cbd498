//! A source and a sink over memory.
ghost use Rattle.std.specs.Prelude.{◌≡◌, ◌+◌, ◌<◌, ◌++◌, [], true, false, Some, Ok, IsOk, IfOk, OnOk, OnErr, length, min, take, drop, is_err};
ghost use Rattle.std.specs.Io.{ReadsAtMost, WritesAtMost};
ghost use Rattle.std.specs.Io.KnownBytes.{ReadConsumes, WriteAppends, Keeps};
ghost use Rattle.sgb_file.specs.Devices.{nothing_held};

use super::single_calls::{copy_prefix, give_up};
use super::{Failed, Sink, Source};
use std::alloc::Global;
use std::marker::Model;

/// The bytes of a slice, as a source that never fails.
#[derive(Drop)]
pub struct MemSource<'a> {
    bytes: &'a [u8],
}

impl<'a> Model for MemSource<'a> {
    ghost use Rattle.std.specs.Prelude.{List, ℕ};

    ghost Value = { List ℕ };

    ghost view = { λ source. source.bytes.now };
}

impl<'a> MemSource<'a> {
    /// A source that gives these bytes, and then is at its end.
    pub fn new(bytes: &'a [u8]) -> MemSource<'a>
        ensures { result ≡ bytes.now }
    {
        MemSource { bytes }
    }
}

impl<'a> Source for MemSource<'a> {
    ghost remaining = { λ source. Some source };

    ghost has_failed = { λ _. false };

    /// Fills the buffer as far as the bytes go. It never fails.
    fn take(&mut self, buffer: &mut [u8]) -> Result<usize, Failed>
        ensures bound { ReadsAtMost result buffer.new }
        ensures gave { ReadConsumes (Some self.old) (Some self.new) result buffer.new }
        ensures failed { false ≡ is_err result }
        ensures stays_failed { false ≡ true → false ≡ true }
        ensures count { result ≡ Ok (min (length self.old) (length buffer.old)) }
        ensures copied { IfOk result (λ count. buffer.new ≡ take count self.old
            ++ drop count buffer.old) }
        ensures rest { IfOk result (λ count. self.new ≡ drop count self.old) }
    {
        let bytes = self.bytes;
        let count = copy_prefix(bytes, buffer);
        self.bytes = &bytes[count..];
        Ok(count)
    }

    /// False.
    fn failed(&self) -> bool
        ensures { result ≡ false }
    {
        false
    }
}

/// A sink that keeps all that it is given, and fails when out of memory.
#[derive(Drop)]
pub struct MemSink {
    bytes: Vec<u8>,
    failed: bool,
}

impl Model for MemSink {
    ghost use Rattle.std.specs.Vec.{vec_capacity};
    ghost use Rattle.sgb_file.specs.Devices.{MemSinkState};

    ghost Value = { MemSinkState };

    ghost view = { λ sink. record {
      bytes = sink.bytes.items;
      room = vec_capacity sink.bytes;
      failed = sink.failed;
    } };
}

impl MemSink {
    /// A sink that holds nothing yet. It takes no memory; each `put` does.
    pub fn new(alloc: Global) -> MemSink
        ensures empty { result.bytes ≡ [] }
        ensures sound { result.failed ≡ false }
    {
        MemSink {
            bytes: Vec::new(alloc),
            failed: false,
        }
    }

    /// The bytes that the sink holds.
    pub fn bytes(&self) -> &[u8]
        ensures { result.now ≡ self.now.bytes }
    {
        self.bytes.as_slice()
    }
}

impl Sink for MemSink {
    ghost written = { λ sink. Some sink.bytes };

    ghost held = { λ _. nothing_held };

    ghost has_failed = { λ sink. sink.failed };

    /// Takes all of the bytes. `Failed` where the sink had failed or when out of memory: nothing was taken then.
    fn put(&mut self, bytes: &[u8]) -> Result<usize, Failed>
        ensures bound { WritesAtMost result bytes.now }
        ensures progress { IfOk result (λ count. 0 < length bytes.now → 0 < count) }
        ensures took { WriteAppends (Some self.old.bytes) (Some self.new.bytes) result bytes.now }
        ensures failed { self.new.failed ≡ is_err result }
        ensures stays_failed { self.old.failed ≡ true → self.new.failed ≡ true }
        ensures all_taken { IfOk result (λ count. count ≡ length bytes.now) }
        ensures held { OnOk result (self.new.bytes ≡ self.old.bytes ++ bytes.now) }
        ensures kept { OnErr result (self.new.bytes ≡ self.old.bytes) }
        ensures refused { OnErr result
            (self.old.failed ≡ false → self.old.room < length self.old.bytes + length bytes.now) }
        ensures takes_none { self.old.failed ≡ false → length bytes.now ≡ 0 → IsOk result }
    {
        if self.failed {
            return Err(Failed);
        }
        match self.bytes.extend_from_slice(bytes) {
            Ok(()) => Ok(bytes.len()),
            Err(_) => give_up(&mut self.failed),
        }
    }

    /// Changes nothing. `Failed` where the sink had failed.
    fn flush(&mut self) -> Result<(), Failed>
        ensures kept { Keeps (Some self.old.bytes) (Some self.new.bytes) }
        ensures passed_on { OnOk result (nothing_held ≡ []) }
        ensures failed { self.new.failed ≡ is_err result }
        ensures stays_failed { self.old.failed ≡ true → self.new.failed ≡ true }
        ensures same { self.new ≡ self.old }
    {
        if self.failed { Err(Failed) } else { Ok(()) }
    }

    /// Whether a `put` was out of memory.
    fn failed(&self) -> bool
        ensures { result ≡ self.now.failed }
    {
        self.failed
    }
}
