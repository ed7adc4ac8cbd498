//! What the bytes before the first comma of a line say, and how many they are (GB_SAVE, fill_field).
//!
//! A number of at most 18 digits is read in one pass and in 64 bits, and where it ends tells where its field ends: at a
//! comma, or with the line. So no comma is looked for first. Any other text, as `0` and `1` in the place of a vertex,
//! is found up to its comma and then read.
ghost use Rattle.std.specs.Prelude.{◌≡◌, ◌≢◌, ◌≤◌, ◌<◌, ◌==◌, ◌^◌, ◌+◌, [], ◌∷◌, drop, length, nat_le, take, true, IfNone, IfSome, neg_ℤ, option_map, pos};
ghost use Rattle.std.specs.List.{before_first, position, take_while};
ghost use Rattle.std.specs.Str.Parse.{digits_value};
ghost use Rattle.sgb_file.specs.Fields.{most_number_digits};
ghost use Rattle.sgb_file.specs.inner.FieldValues.{integer_of, is_decimal_digit, number_below, number_of, record_number_of, ref_of};
ghost use Rattle.sgb_file.specs.inner.Found.{is_at_end};
ghost use Rattle.sgb_file.specs.inner.Layouts.{value_from};
ghost use Rattle.sgb_file.specs.inner.LineRecords.{IsCountedField};

use super::heads::Counts;
use super::numbers::{MOST_NUMBER_DIGITS, integer_of, record_number_of, ref_of};
use crate::checksums::{value_after_byte, value_with};
use sgb_graph::Ref;

// What follows a comma at this place of a text.
#[inline(always)]
pub(super) fn after_comma(text: &[u8], place: usize) -> Option<&[u8]>
    ensures { IfSome result (λ rest. drop place text.now ≡ 44 ∷ rest.now) }
{
    if place >= text.len() || text[place] != b',' {
        return None;
    }
    Some(&text[place + 1..])
}

// What follows this byte, where a text begins with it: one look, where `strip_prefix` compares slices.
#[inline(always)]
pub(super) fn after_byte(text: &[u8], byte: u8) -> Option<&[u8]>
    ensures some { IfSome result (λ rest. text.now ≡ byte ∷ rest.now) }
    ensures none { IfNone result (take 1 text.now ≢ byte ∷ []) }
{
    if text.is_empty() || text[0] != byte {
        return None;
    }
    Some(&text[1..])
}

// The integer of 64 bits that the bytes before the first comma write, and how many they are.
#[inline(always)]
pub(super) fn integer_before_comma(line: &[u8]) -> Option<(i64, usize)>
    ensures value { option_map (λ x. x.0) result ≡ integer_of
        (before_first (λ b. b == 44) line.now) }
    ensures len { IfSome result (λ x. x.1 ≡ length (before_first (λ b. b == 44) line.now)) }
{
    match counted_integer(line, 0) {
        Some((number, len, _)) => Some((number, len)),
        None => other_integer_before_comma(line),
    }
}

// The integer of at most 18 digits that the bytes before the first comma write, how many they are, and the value of a
// checksum after them. None says nothing of them.
#[inline(always)]
pub(super) fn counted_integer(text: &[u8], value: u64) -> Option<(i64, usize, u64)>
    ensures { IfSome result (λ x. IsCountedField integer_of text.now value x.0 x.1 x.2) }
{
    if let Some(digits) = after_byte(text, b'-') {
        let begun = value_after_byte(value, b'-');
        let (number, len, after) = counted_number(digits, begun)?;
        return Some((minus(number), len + 1, after));
    }
    let (number, len, after) = counted_number(text, value)?;
    Some((number as i64, len, after))
}

// The integer with this number after a `-`.
fn minus(number: u64) -> i64
    requires { number < 10 ^ 18 }
    ensures { result ≡ neg_ℤ (pos number) }
{
    -(number as i64)
}

// The integer of 64 bits that the bytes before the first comma write, with a `-` or with more than 18 digits too, and
// how many they are.
#[inline(never)]
fn other_integer_before_comma(line: &[u8]) -> Option<(i64, usize)>
    ensures value { option_map (λ x. x.0) result ≡ integer_of
        (before_first (λ b. b == 44) line.now) }
    ensures len { IfSome result (λ x. x.1 ≡ length (before_first (λ b. b == 44) line.now)) }
{
    let text = before_comma(line);
    let number = integer_of(text)?;
    Some((number, text.len()))
}

// The vertex that the bytes before the first comma stand for, or none, and how many they are.
#[inline(always)]
pub(super) fn ref_before_comma(counts: &Counts, line: &[u8]) -> Option<(Ref, usize)>
    ensures value { option_map (λ x. x.0) result ≡ ref_of counts.now.vertices
        (before_first (λ b. b == 44) line.now) }
    ensures len { IfSome result (λ x. x.1 ≡ length (before_first (λ b. b == 44) line.now)) }
{
    if let Some((vertex, len, _)) = counted_ref(counts, line, 0) {
        return Some((vertex, len));
    }
    let text = before_comma(line);
    let vertex = ref_of(counts, text)?;
    Some((vertex, text.len()))
}

// The vertex whose number the bytes before the first comma write, how many they are, and the value of a checksum after
// them. None says nothing of them.
#[inline(always)]
pub(super) fn counted_ref(counts: &Counts, line: &[u8], value: u64) -> Option<(Ref, usize, u64)>
    ensures { IfSome result (λ x. IsCountedField (ref_of counts.now.vertices) line.now value
        x.0 x.1 x.2) }
{
    let digits = after_byte(line, b'V')?;
    let begun = value_after_byte(value, b'V');
    let (v, len, after) = counted_number_below(counts.vertices, digits, begun)?;
    Some((Ref::At(v as u32), len + 1, after))
}

// The arc record that the bytes before the first comma stand for, or none, and how many they are.
#[inline(always)]
pub(super) fn record_number_before_comma(
    counts: &Counts,
    line: &[u8],
) -> Option<(Option<usize>, usize)>
    ensures value { option_map (λ x. x.0) result ≡ record_number_of counts.now.arcs
        (before_first (λ b. b == 44) line.now) }
    ensures len { IfSome result (λ x. x.1 ≡ length (before_first (λ b. b == 44) line.now)) }
{
    if let Some((first, len, _)) = counted_record_number(counts, line, 0) {
        return Some((first, len));
    }
    let text = before_comma(line);
    let first = record_number_of(counts, text)?;
    Some((first, text.len()))
}

// The arc record that the bytes before the first comma stand for, or none, how many they are, and the value of a
// checksum after them. None says nothing of them.
#[inline(always)]
pub(super) fn counted_record_number(
    counts: &Counts,
    line: &[u8],
    value: u64,
) -> Option<(Option<usize>, usize, u64)>
    ensures { IfSome result (λ x. IsCountedField (record_number_of counts.now.arcs) line.now value
        x.0 x.1 x.2) }
{
    if let Some(digits) = after_byte(line, b'A') {
        let begun = value_after_byte(value, b'A');
        let (k, len, after) = counted_number_below(counts.arcs, digits, begun)?;
        return Some((Some(k as usize), len + 1, after));
    }
    let rest = after_byte(line, b'0')?;
    if !is_at_end(rest) {
        return None;
    }
    Some((None, 1, value_after_byte(value, b'0')))
}

// The number below a limit that the bytes before the first comma write, how many they are, and the value of a checksum
// after them. None says nothing of them.
#[inline(always)]
fn counted_number_below(limit: u64, text: &[u8], value: u64) -> Option<(u64, usize, u64)>
    ensures field { IfSome result (λ x. IsCountedField (number_below limit) text.now value
        x.0 x.1 x.2) }
    ensures bound { IfSome result (λ x. x.0 < limit) }
{
    let (number, len, after) = counted_number(text, value)?;
    if number < limit {
        Some((number, len, after))
    } else {
        None
    }
}

// The number of 1 to 18 digits that the bytes before the first comma write, and how many they are.
#[inline(always)]
pub(super) fn number_before_comma(text: &[u8]) -> Option<(u64, usize)>
    ensures value { option_map (λ x. x.0) result ≡ number_of most_number_digits
        (before_first (λ b. b == 44) text.now) }
    ensures bound { IfSome result (λ x. x.0 < 10 ^ 18) }
    ensures len { IfSome result (λ x. x.1 ≡ length (before_first (λ b. b == 44) text.now)) }
{
    let (number, len, _) = counted_number(text, 0)?;
    Some((number, len))
}

// The number of 1 to 18 digits that the bytes before the first comma write, how many they are, and the value of a
// checksum after them: all in one pass.
#[inline(always)]
fn counted_number(text: &[u8], value: u64) -> Option<(u64, usize, u64)>
    ensures value { option_map (λ x. x.0) result ≡ number_of most_number_digits
        (before_first (λ b. b == 44) text.now) }
    ensures bound { IfSome result (λ x. x.0 < 10 ^ 18) }
    ensures len { IfSome result (λ x. x.1 ≡ length (before_first (λ b. b == 44) text.now)) }
    ensures counted { IfSome result (λ x. x.2 ≡ value_from value
        (before_first (λ b. b == 44) text.now)) }
{
    let (number, len, after) = first_digits(&text[..MOST_NUMBER_DIGITS.min(text.len())], value);
    if len == 0 {
        return None;
    }
    if !is_at_end(&text[len..]) {
        return None;
    }
    Some((number, len, after))
}

// Whether nothing is left of a text, or it goes on with a comma.
fn is_at_end(text: &[u8]) -> bool
    ensures { result ≡ is_at_end text.now }
{
    text.is_empty() || text[0] == b','
}

// The number that the digits write which a text of at most 18 bytes begins with, how many they are, and the value of a
// checksum after them: the place of a digit is its value.
#[inline(always)]
fn first_digits(text: &[u8], value: u64) -> (u64, usize, u64)
    requires { length text.now ≤ 18 }
    ensures value { result.0 ≡ digits_value 10 (take_while is_decimal_digit text.now) }
    ensures count { result.1 ≡ length (take_while is_decimal_digit text.now) }
    ensures counted { result.2 ≡ value_from value (take_while is_decimal_digit text.now) }
{
    let mut number = 0;
    let mut after = value;
    for place in 0..text.len() {
        let digit = digit_of(text[place]);
        if digit > 9 {
            return (number, place, after);
        }
        number = 10 * number + digit;
        after = value_with(after, digit as u8);
    }
    (number, text.len(), after)
}

// The digit that a byte is, or else a number above 9.
fn digit_of(byte: u8) -> u64
    ensures digit { nat_le result 9 ≡ is_decimal_digit byte }
    ensures value { is_decimal_digit byte ≡ true → result + 48 ≡ byte }
{
    u64::from(byte).wrapping_sub(48)
}

// The bytes before the first comma, or all.
fn before_comma(line: &[u8]) -> &[u8]
    ensures { result.now ≡ before_first (λ b. b == 44) line.now }
{
    match place_of_comma(line) {
        Some(end) => &line[..end],
        None => line,
    }
}

// Where the first comma stands.
fn place_of_comma(line: &[u8]) -> Option<usize>
    ensures { result ≡ position (λ b. b == 44) line.now }
{
    line.iter().position(|byte| *byte == b',')
}
