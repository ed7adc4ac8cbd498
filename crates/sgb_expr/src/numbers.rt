//! Fixed texts, integers and bits at the beginning of a text.
ghost use Rattle.std.specs.Prelude.{◌≡◌, ◌≤◌, ◌<◌, ◌^◌, EachIndex, IfOk, length, nat_abs, nat_eq, pos, slice_index_or};
ghost use Rattle.std.specs.List.{common_prefix_len};
ghost use Rattle.sgb_expr.specs.inner.Gives.{Finds};
ghost use Rattle.sgb_text.proofs.Readings.{fixed_at};
ghost use Rattle.sgb_expr.specs.inner.Readings.{bits_at, integer_at, number_at, integers_at, separator_before};

use crate::wrong::Mismatch;
use sgb_vec::leading_number;

// A number has at most this many digits.
const MOST_DIGITS: usize = 18;

// A number has at most this many hexadecimal digits.
const MOST_HEX_DIGITS: usize = 32;

/// The text after these bytes, with which it begins, or where the two part.
pub(crate) fn fixed<'a>(bytes: &[u8], text: &'a [u8]) -> Result<&'a [u8], Mismatch>
    ensures { Finds (λ rest. rest.now) result (fixed_at bytes.now text.entry.now) }
{
    let same = common_prefix(bytes, text);
    if same < bytes.len() {
        return Err(Mismatch {
            left: text.len() - same,
        });
    }
    Ok(&text[same..])
}

// How many bytes the two texts have in common at their beginnings.
fn common_prefix(left: &[u8], right: &[u8]) -> usize
    ensures within_left { result ≤ length left.now }
    ensures within_right { result ≤ length right.now }
    ensures value { result ≡ common_prefix_len nat_eq left.now right.now }
{
    let mut same = 0;
    for (a, b) in left.iter().zip(right) {
        if a != b {
            return same;
        }
        same += 1;
    }
    same
}

// The number in the radix with which the text begins, of so many digits at most, or that there is none.
fn number(text: &[u8], radix: u32, most: usize) -> Result<(u128, &[u8]), Mismatch>
    requires low { 2 ≤ radix }
    requires high { radix ≤ 16 }
    requires most { radix ^ most ≤ 2 ^ 128 }
    ensures read { Finds (λ x. (x.0, x.1.now)) result (number_at radix most text.now) }
    ensures bound { IfOk result (λ x. x.0 < radix ^ most) }
{
    leading_number(text, radix, most).ok_or(Mismatch { left: text.len() })
}

/// The integer with which the text begins, of 1 to 18 digits, or where it begins none.
pub(crate) fn integer(text: &[u8]) -> Result<(i64, &[u8]), Mismatch>
    ensures read { Finds (λ x. (x.0, x.1.now)) result (integer_at text.now) }
    ensures bound { IfOk result (λ x. nat_abs x.0 < 10 ^ 18) }
{
    match text.strip_prefix(b"-") {
        Some(digits) => {
            let (value, rest) = number(digits, 10, MOST_DIGITS)?;
            Ok((-(value as i64), rest))
        }
        None => {
            let (value, rest) = number(text, 10, MOST_DIGITS)?;
            Ok((value as i64, rest))
        }
    }
}

/// The bits with which the text begins, in 1 to 18 decimal digits, or `0x` and 1 to 32 hexadecimal ones; or where
/// it begins none.
pub(crate) fn bits(text: &[u8]) -> Result<(u128, &[u8]), Mismatch>
    ensures { Finds (λ x. (x.0, x.1.now)) result (bits_at text.now) }
{
    match text.strip_prefix(b"0x") {
        Some(digits) => number(digits, 16, MOST_HEX_DIGITS),
        None => number(text, 10, MOST_DIGITS),
    }
}

/// N integers, each after a separator, which is `,` from the second on, and then this end; or where the text goes
/// wrong.
pub(crate) fn integers<'a, const N: usize>(
    separator: &[u8],
    text: &'a [u8],
    end: &[u8],
) -> Result<([i64; N], &'a [u8]), Mismatch>
    ensures read { Finds (λ x. (x.0, x.1.now)) result
        (integers_at separator.now N end.now text.entry.now) }
    ensures bound { IfOk result (λ x. EachIndex x.0
        (λ k. nat_abs (slice_index_or x.0 k (pos 0)) < 10 ^ 18)) }
{
    let mut numbers = [0; N];
    let mut rest = text;
    for place in 0..N {
        let begun = fixed(separator_before(place, separator), rest)?;
        let (value, after) = integer(begun)?;
        numbers[place] = value;
        rest = after;
    }
    Ok((numbers, fixed(end, rest)?))
}

/// What stands before the integer with this place: the separator before the first, else `,`.
pub(crate) fn separator_before<'a>(place: usize, first: &'a [u8]) -> &'a [u8]
    ensures { result.now ≡ separator_before place first.entry.now }
{
    if place == 0 { first } else { b"," }
}
