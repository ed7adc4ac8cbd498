//! Passing all of some bytes on, over devices that take a part at a time.
ghost use Rattle.std.specs.Prelude.{◌≡◌, ◌<◌, true, IsOk, OnOk, length, is_err};
ghost use Rattle.sgb_file.specs.Devices.{change, IsPut};

use super::{Failed, Sink};

/// Puts all of `bytes`, in as many calls as the sink needs, and makes no call for no bytes. `Failed` where a call
/// failed: the sink then has a prefix of `bytes`, and has failed.
pub fn put_all<S: Sink>(sink: &mut S, bytes: &[u8]) -> Result<(), Failed>
    ensures put { IsPut bytes.now (change S.written S.has_failed sink.old sink.new) result }
    ensures sound { OnOk result (S.has_failed sink.new ≡ S.has_failed sink.old) }
    ensures stays_failed { S.has_failed sink.old ≡ true → S.has_failed sink.new ≡ true }
    ensures told { 0 < length bytes.now → S.has_failed sink.new ≡ is_err result }
    ensures empty { length bytes.now ≡ 0 → IsOk result }
    ensures no_call { length bytes.now ≡ 0 → sink.new ≡ sink.old }
{
    let mut rest = bytes;
    while !rest.is_empty() {
        let count = sink.put(rest)?;
        rest = &rest[count..];
    }
    Ok(())
}
