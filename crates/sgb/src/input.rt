//! Standard input, read whole.
//!
//! It is kept whole: the definition of an answer reads it before anything is written.
ghost use Rattle.std.specs.Prelude.{◌≡◌, ◌≤◌, ◌<◌, ◌+◌, ◌-◌, ◌++◌, ℕ, List, length, IfOk};
ghost use Rattle.std.specs.Io.KnownBytes.{Consumes, IsAtEnd};
ghost use Rattle.sgb.specs.Inputs.{IsKeptOfInput, IsReadFrom, LosesAtMost};
ghost use Rattle.sgb_values.specs.Values.{most_input};
// For the search alone.
ghost use Rattle.std.specs.Prelude.{true, nat_le, Result, Err};

use sgb_file::Source;
use sgb_requests::Fault;
use sgb_values::MOST_INPUT;
use sgb_vec::Panic;
use std::alloc::Global;

// The buffer that is read into has this many bytes.
const BUFFER_BYTES: usize = 65_536;

/// The bytes of a source to its end, or up to the first that is too many for a file: 2^30 and one.
///
/// `Read` where the source fails, `Panic(NoRoom)` when out of memory.
pub fn read_input<R: Source>(alloc: Global, source: &mut R) -> Result<Vec<u8>, Fault>
    ensures kept { IfOk result (λ bytes. IsKeptOfInput (R.remaining source.old) bytes.items) }
    ensures ended { IsReadFrom (R.has_failed source.new) result }
    ensures bounded { LosesAtMost (most_input + 1) (R.remaining source.old)
        (R.remaining source.new) }
{
    let mut kept = Vec::new(alloc);
    let mut buffer = [0; BUFFER_BYTES];
    while kept.len() <= MOST_INPUT {
        let count = read_more(source, &mut buffer, &mut kept)?;
        if count == 0 {
            return Ok(kept);
        }
    }
    Ok(kept)
}

// Reads once into the buffer, keeps what was read, and returns how many bytes: 0 is the end. Never more are kept than up
// to the first that is too many.
fn read_more<R: Source>(
    source: &mut R,
    buffer: &mut [u8],
    kept: &mut Vec<u8>,
) -> Result<usize, Fault>
    requires room { length kept.old.items ≤ most_input }
    requires buffer { 0 < length buffer.old }
    ensures kept { IfOk result (λ count. (bs : List ℕ) × (kept.new.items ≡ kept.old.items ++ bs)
        × (length bs ≡ count)
        × Consumes (R.remaining source.old) (R.remaining source.new) bs) }
    ensures end { IfOk result (λ count. count ≡ 0 → IsAtEnd (R.remaining source.new)) }
    ensures most { IfOk result (λ count. length kept.old.items + count ≤ most_input + 1) }
    ensures ended { IsReadFrom (R.has_failed source.new) result }
    ensures bounded { LosesAtMost (most_input + 1 - length kept.old.items) (R.remaining source.old)
        (R.remaining source.new) }
{
    let most = (MOST_INPUT + 1 - kept.len()).min(buffer.len());
    let room = &mut buffer[..most];
    let count = source.take(room).map_err(|_| Fault::Read)?;
    match kept.extend_from_slice(&room[..count]) {
        Ok(()) => Ok(count),
        Err(_) => Err(Fault::Panic(Panic::NoRoom)),
    }
}
