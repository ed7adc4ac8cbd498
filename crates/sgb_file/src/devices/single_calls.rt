//! What one call of a device does: copies bytes, gives up, keeps a fault of std's, or writes once.
ghost use Rattle.std.specs.Prelude.{◌≡◌, ◌<◌, ◌++◌, true, length, min, take, drop, is_err, is_ok, IfOk, IsErr, if◌then◌else◌};
ghost use Rattle.std.specs.Io.{WritesAtMost};
ghost use Rattle.std.specs.Io.KnownBytes.{WriteAppends};
ghost use Rattle.std.specs.Result.{result_ok};

use super::Failed;
use std::io::{self, Write};

/// Copies as many bytes as both have to the start of `to`, and returns how many.
pub(super) fn copy_prefix(from: &[u8], to: &mut [u8]) -> usize
    ensures count { result ≡ min (length from.now) (length to.old) }
    ensures copied { to.new ≡ take result from.now ++ drop result to.old }
{
    let count = from.len().min(to.len());
    to[..count].copy_from_slice(&from[..count]);
    count
}

/// Sets the flag of a device that gives up.
pub(super) fn give_up<T>(failed: &mut bool) -> Result<T, Failed>
    ensures set { failed.new ≡ true }
    ensures err { IsErr result }
{
    *failed = true;
    Err(Failed)
}

/// What a reader or writer returned; an error of any kind sets the flag.
pub(super) fn keep_fault<T>(failed: &mut bool, returned: io::Result<T>) -> Result<T, Failed>
    ensures ok { result_ok result ≡ result_ok returned }
    ensures failed { failed.new ≡ (if is_ok returned then failed.old else true) }
{
    match returned {
        Ok(value) => Ok(value),
        Err(_) => give_up(failed),
    }
}

/// Writes once, and sets the flag where the write fails, also by an interrupt, or takes none of bytes that are not
/// empty. Where the flag was set the writer is left alone.
pub(super) fn write_once<W: Write>(
    writer: &mut W,
    failed: &mut bool,
    bytes: &[u8],
) -> Result<usize, Failed>
    ensures bound { WritesAtMost result bytes.now }
    ensures progress { IfOk result (λ count. 0 < length bytes.now → 0 < count) }
    ensures took { WriteAppends (W.contents writer.old) (W.contents writer.new) result bytes.now }
    ensures failed { failed.new ≡ is_err result }
    ensures stays_failed { failed.old ≡ true → failed.new ≡ true }
    ensures left_alone { failed.old ≡ true → writer.new ≡ writer.old }
{
    if *failed {
        return Err(Failed);
    }
    let returned = writer.write(bytes);
    let count = keep_fault(failed, returned)?;
    if count == 0 && !bytes.is_empty() {
        return give_up(failed);
    }
    Ok(count)
}
