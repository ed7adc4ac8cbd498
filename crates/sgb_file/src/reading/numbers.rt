//! The numbers of a `.gb` file, and what stands for a vertex or an arc record (GB_SAVE, fill_field).
//!
//! A number that `plain` does not read in one pass takes 128 bits and two passes.
ghost use Rattle.std.specs.Prelude.{◌≡◌, ◌≤◌, ◌<◌, ◌^◌, IfSome};
ghost use Rattle.sgb_file.specs.Fields.{most_number_digits};
ghost use Rattle.sgb_file.specs.inner.FieldValues.{integer_of, most_integer_digits, number_below, number_of, record_number_of, ref_of};
ghost use Rattle.sgb_file.specs.inner.Found.{negative_of, positive_of};
// For the search alone.
ghost use Rattle.std.specs.Prelude.{length};

use super::heads::Counts;
use sgb_graph::Ref;
use sgb_vec::leading_number;

// A number of the file's own has at most this many digits.
pub(super) const MOST_NUMBER_DIGITS: usize = 18;

// An integer field has at most this many digits.
const MOST_INTEGER_DIGITS: usize = 20;

// The number that a text of 1 to 18 digits writes.
pub(super) fn number_of(text: &[u8]) -> Option<u64>
    ensures value { result ≡ number_of most_number_digits text.now }
    ensures bound { IfSome result (λ n. n < 10 ^ 18) }
{
    let number = number_up_to(MOST_NUMBER_DIGITS, text)?;
    Some(number as u64)
}

// The number that a text of 1 to so many digits writes; leading zeros are allowed.
fn number_up_to(most: usize, text: &[u8]) -> Option<u128>
    requires { most ≤ 20 }
    ensures value { result ≡ number_of most text.now }
    ensures bound { IfSome result (λ n. n < 10 ^ most) }
{
    let (number, rest) = leading_number(text, 10, most)?;
    if rest.is_empty() { Some(number) } else { None }
}

// The number below a limit that a text of 1 to 18 digits writes.
fn number_below(limit: u64, text: &[u8]) -> Option<u64>
    ensures value { result ≡ number_below limit text.now }
    ensures bound { IfSome result (λ n. n < limit) }
{
    let number = number_of(text)?;
    if number < limit { Some(number) } else { None }
}

// The integer of 64 bits that a text writes: an optional `-`, and 1 to 20 digits.
pub(super) fn integer_of(text: &[u8]) -> Option<i64>
    ensures { result ≡ integer_of text.now }
{
    match text.strip_prefix(b"-") {
        Some(digits) => negative_of(great_number_of(digits)?),
        None => positive_of(great_number_of(text)?),
    }
}

// Minus the number, as an integer of 64 bits.
fn negative_of(number: u128) -> Option<i64>
    ensures { result ≡ negative_of number }
{
    if number <= 1 << 63 {
        Some((-(number as i128)) as i64)
    } else {
        None
    }
}

// The number as an integer of 64 bits.
fn positive_of(number: u128) -> Option<i64>
    ensures { result ≡ positive_of number }
{
    if number < 1 << 63 {
        Some(number as i64)
    } else {
        None
    }
}

// The vertex that a text stands for, one of the file's, or none of them: `V` and its number, or `0`, or `1`.
pub(super) fn ref_of(counts: &Counts, text: &[u8]) -> Option<Ref>
    ensures { result ≡ ref_of counts.now.vertices text.now }
{
    if let Some(digits) = text.strip_prefix(b"V") {
        let v = number_below(counts.vertices, digits)?;
        return Some(Ref::At(v as u32));
    }
    if text == b"0".as_slice() {
        return Some(Ref::Null);
    }
    if text == b"1".as_slice() {
        return Some(Ref::One);
    }
    None
}

// The arc record that a text stands for, one of the file's, or none: `A` and its number, or `0`.
pub(super) fn record_number_of(counts: &Counts, text: &[u8]) -> Option<Option<usize>>
    ensures { result ≡ record_number_of counts.now.arcs text.now }
{
    if let Some(digits) = text.strip_prefix(b"A") {
        let k = number_below(counts.arcs, digits)?;
        return Some(Some(k as usize));
    }
    if text == b"0".as_slice() {
        return Some(None);
    }
    None
}

// The number that a text of 1 to 20 digits writes; leading zeros are allowed.
fn great_number_of(text: &[u8]) -> Option<u128>
    ensures value { result ≡ number_of most_integer_digits text.now }
    ensures bound { IfSome result (λ n. n < 10 ^ 20) }
{
    number_up_to(MOST_INTEGER_DIGITS, text)
}
