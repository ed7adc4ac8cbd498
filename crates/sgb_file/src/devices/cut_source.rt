//! A source that gives few bytes at once and fails after so many, for tests of what reads it.
ghost use Rattle.std.specs.Prelude.{◌≡◌, ◌<◌, ◌++◌, ◌-◌, ◌==◌, ◌||◌, true, false, Some, IfOk, OnErr, length, min, take, drop, is_err};
ghost use Rattle.std.specs.Io.{ReadsAtMost};
ghost use Rattle.std.specs.Io.KnownBytes.{ReadConsumes};

use super::single_calls::{copy_prefix, give_up};
use super::{Failed, Source};
use std::marker::Model;

/// The bytes of a slice, at most so many a call, until so many were given: the next call fails.
#[derive(Drop)]
pub struct CutSource<'a> {
    bytes: &'a [u8],
    each: usize,
    left: usize,
    failed: bool,
}

impl<'a> Model for CutSource<'a> {
    ghost use Rattle.std.specs.Prelude.{◌<◌};
    ghost use Rattle.sgb_file.specs.Devices.{CutSourceState};

    ghost Value = { CutSourceState };

    ghost view = { λ source. record {
      bytes = source.bytes.now;
      each = source.each;
      left = source.left;
      failed = source.failed;
    } };

    ghost invariant = { λ source. 0 < source.each };
}

impl<'a> CutSource<'a> {
    /// A source that gives these bytes, at most `each` (1 or more) a call, and fails at the first call after
    /// `limit` bytes were given, also where no byte is left.
    pub fn new(bytes: &'a [u8], each: usize, limit: usize) -> CutSource<'a>
        requires { 0 < each }
        ensures bytes { result.bytes ≡ bytes.now }
        ensures each { result.each ≡ each }
        ensures limit { result.left ≡ limit }
        ensures sound { result.failed ≡ false }
    {
        CutSource {
            bytes,
            each,
            left: limit,
            failed: false,
        }
    }
}

impl<'a> Source for CutSource<'a> {
    ghost remaining = { λ source. Some source.bytes };

    ghost has_failed = { λ source. source.failed };

    /// Gives the next bytes. `Failed` where the source had failed or has given its limit.
    fn take(&mut self, buffer: &mut [u8]) -> Result<usize, Failed>
        ensures bound { ReadsAtMost result buffer.new }
        ensures gave { ReadConsumes (Some self.old.bytes) (Some self.new.bytes) result buffer.new }
        ensures failed { self.new.failed ≡ is_err result }
        ensures stays_failed { self.old.failed ≡ true → self.new.failed ≡ true }
        ensures fails { is_err result ≡ (self.old.failed || self.old.left == 0) }
        ensures count { IfOk result (λ count. count ≡ min (min (min self.old.each self.old.left)
            (length self.old.bytes)) (length buffer.old)) }
        ensures copied { IfOk result (λ count. buffer.new ≡ take count self.old.bytes
            ++ drop count buffer.old) }
        ensures rest { IfOk result (λ count. self.new ≡ record self.old {
          bytes = drop count self.old.bytes;
          left = self.old.left - count;
        }) }
        ensures refused { OnErr result (self.new ≡ record self.old { failed = true }) }
        ensures untouched { OnErr result (buffer.new ≡ buffer.old) }
    {
        if self.failed || self.left == 0 {
            return give_up(&mut self.failed);
        }
        let bytes = self.bytes;
        let most = self.each.min(self.left).min(bytes.len());
        let count = copy_prefix(&bytes[..most], buffer);
        self.bytes = &bytes[count..];
        self.left -= count;
        Ok(count)
    }

    /// Whether a call came after the limit.
    fn failed(&self) -> bool
        ensures { result ≡ self.now.failed }
    {
        self.failed
    }
}
