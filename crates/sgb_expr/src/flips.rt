//! What is asked of the random generator, and reading it.
ghost use Rattle.std.specs.Prelude.{◌≡◌, IfOk};
ghost use Rattle.sgb_expr.specs.FlipTexts.{IsFlip, IsFlipRead, flip_of};
ghost use Rattle.sgb_expr.specs.inner.FlipTexts.{whole_flip_at};
ghost use Rattle.sgb_expr.specs.inner.Gives.{Finds};

use crate::expressions::Unread;
use crate::measure::is_too_large;
use crate::numbers::{fixed, integers};
use crate::wrong::Mismatch;

/// Which numbers of the random generator are asked for (GB_FLIP, gb_init_rand, gb_next_rand and gb_unif_rand). Any
/// values are parameters.
#[derive(Clone, Copy, Debug, PartialEq, Eq)]
pub struct FlipParams {
    /// The value that the generator starts from.
    pub start: i64,
    /// How many plain draws are made and thrown away before the first number.
    pub skip: i64,
    /// How many numbers are asked for.
    pub count: i64,
    /// The bound that the numbers stay below; 0 for plain draws.
    pub m: i64,
}

/// The parameters that the text asks for: `flip(`, the integers `start`, `skip`, `count` and `m` with commas between
/// them, and `)`, with no spaces. Each integer is an optional `-` and 1 to 18 digits. No memory is taken.
///
/// `TooLarge` before all else where the text has more than 65,536 bytes, or some prefix of it has over 64 more `(`
/// than `)`. `At(k)` where it is no such text; its first k bytes are its longest prefix that begins one. `NoRoom`
/// never.
pub fn read_flip(text: &[u8]) -> Result<FlipParams, Unread>
    ensures read { IsFlipRead text.now result }
    ensures only { (params : FlipParams) → IsFlip text.now params
        → IfOk result (λ read. read ≡ params) }
{
    if is_too_large(text) {
        return Err(Unread::TooLarge);
    }
    match whole(text) {
        Ok(params) => Ok(params),
        Err(Mismatch { left }) => Err(Unread::At((text.len() - left) as u32)),
    }
}

// The parameters that the whole text asks for, or where it goes wrong.
fn whole(text: &[u8]) -> Result<FlipParams, Mismatch>
    ensures { Finds (λ params. params) result (whole_flip_at text.now) }
{
    let begun = fixed(b"flip(", text)?;
    let (numbers, rest) = integers(b"", begun, b")")?;
    if rest.is_empty() {
        Ok(flip(numbers))
    } else {
        Err(Mismatch { left: rest.len() })
    }
}

// The parameters with these numbers, in the order of the text.
fn flip(numbers: [i64; 4]) -> FlipParams
    ensures { result ≡ flip_of numbers }
{
    let [start, skip, count, m] = numbers;
    FlipParams {
        start,
        skip,
        count,
        m,
    }
}
