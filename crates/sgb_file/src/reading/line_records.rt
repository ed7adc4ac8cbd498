//! Records that are one short line, read of the line alone with the checksum after it (GB_SAVE, restore_graph).
//!
//! The place of a digit is its value, so a digit that is read is counted by one sum more. Of an arc record the line has
//! at most 30 bytes, of a vertex what follows its name: so many bytes and a newline take one remainder, as nothing
//! leaves 64 bits before it. Any other record goes field by field: one with `0` or `1` for a vertex, with a number of
//! more than 18 digits, on two lines, or longer. No clause says when a function here has something to say of a line:
//! one that never had would read the same graph.
ghost use Rattle.std.specs.Prelude.{◌≡◌, ◌%◌, ◌++◌, ◌∷◌, [], IfSome, IsTrue};
ghost use Rattle.sgb_file.specs.Checksum.{checksum_prime};
ghost use Rattle.sgb_file.specs.inner.Layouts.{checksum_from, counted_bytes, value_after};
ghost use Rattle.sgb_file.specs.inner.LinesLeft.{has_no_newline};
ghost use Rattle.sgb_file.specs.inner.LineRecords.{AreFieldsOf, IsArcLine, IsNamedAt, IsVertexLine};
// For the search alone.
ghost use Rattle.std.specs.Prelude.{◌+◌};

use super::heads::Counts;
use super::plain::{after_byte, after_comma, counted_integer, counted_record_number, counted_ref};
use super::strings::place_of_quote;
use crate::checksums::{MOST_AT_ONCE, checksum_after, remainder, value_after_byte};
use sgb_graph::Ref;

// A vertex that is one short line, as it is read of it: its name, its first arc record, its integers in the fields x, y, z,
// and the checksum after the line.
#[derive(Drop)]
pub(super) struct VertexLine<'a> {
    pub(super) name: &'a [u8],
    pub(super) first: Option<usize>,
    pub(super) x: i64,
    pub(super) y: i64,
    pub(super) z: i64,
    pub(super) sum: u32,
}

// The tip, the next record and the length of an arc record that is one short line with no utility fields, and the checksum
// after the line; or none, which says nothing of the line.
#[inline(always)]
pub(super) fn arc_of_line(
    counts: &Counts,
    line: &[u8],
    sum: u32,
) -> Option<(Ref, Option<usize>, i64, u32)>
    requires { IsTrue (has_no_newline line.now) }
    ensures arc { IfSome result (λ x. IsArcLine counts.now line.now x.0 x.1 x.2) }
    ensures sum { IfSome result (λ x. x.3 ≡ checksum_from sum (counted_bytes (line.now ∷ []))) }
{
    if line.len() > MOST_AT_ONCE {
        return None;
    }
    let (tip, tip_end, value) = counted_ref(counts, line, u64::from(sum))?;
    let second = after_comma(line, tip_end)?;
    let after_tip = value_after_byte(value, b',');
    let (next, next_end, value) = counted_record_number(counts, second, after_tip)?;
    let third = after_comma(second, next_end)?;
    let after_next = value_after_byte(value, b',');
    let (len, end, value) = counted_integer(third, after_next)?;
    if end < third.len() {
        return None;
    }
    Some((tip, next, len, checksum_of_value(value)))
}

// The checksum after the newline of a line, from the value after the line.
#[inline(always)]
fn checksum_of_value(value: u64) -> u32
    ensures { result ≡ value_after value 10 % checksum_prime }
{
    remainder(value_after_byte(value, b'\n'))
}

// The record of a vertex that is one line, with integers in the fields x, y, z and no other utility fields; or none, which
// says nothing of the line.
#[inline(always)]
pub(super) fn vertex_of_line<'a>(
    counts: &Counts,
    line: &'a [u8],
    sum: u32,
) -> Option<VertexLine<'a>>
    requires { IsTrue (has_no_newline line.now) }
    ensures vertex { IfSome result (λ v. IsVertexLine counts.now line.now v.name.now v.first
        v.x v.y v.z) }
    ensures sum { IfSome result (λ v. v.sum ≡ checksum_from sum (counted_bytes (line.now ∷ []))) }
{
    let (name, rest) = name_of_line(line)?;
    let before = checksum_after(sum, &line[..line.len() - rest.len()]);
    let (first, x, y, z, sum) = fields_of_line(counts, rest, before)?;
    Some(VertexLine {
        name,
        first,
        x,
        y,
        z,
        sum,
    })
}

// The bytes between the quotes that a line begins with, and what follows the comma after them.
#[inline(always)]
fn name_of_line(line: &[u8]) -> Option<(&[u8], &[u8])>
    ensures { IfSome result (λ x. IsNamedAt line.now x.0.now x.1.now) }
{
    let quoted = after_byte(line, b'"')?;
    let end = place_of_quote(quoted)?;
    let rest = after_comma(quoted, end + 1)?;
    Some((&quoted[..end], rest))
}

// The first arc record and the integers in x, y, z that a line ends with, where it is short, and the checksum after them and
// the newline.
#[inline(always)]
fn fields_of_line(
    counts: &Counts,
    line: &[u8],
    sum: u32,
) -> Option<(Option<usize>, i64, i64, i64, u32)>
    requires { IsTrue (has_no_newline line.now) }
    ensures fields { IfSome result (λ v. AreFieldsOf counts.now line.now v.0 v.1 v.2 v.3) }
    ensures sum { IfSome result (λ v. v.4 ≡ checksum_from sum (line.now ++ 10 ∷ [])) }
{
    if line.len() > MOST_AT_ONCE {
        return None;
    }
    let (first, first_end, value) = counted_record_number(counts, line, u64::from(sum))?;
    let second = after_comma(line, first_end)?;
    let after_first = value_after_byte(value, b',');
    let (x, x_end, value) = counted_integer(second, after_first)?;
    let third = after_comma(second, x_end)?;
    let after_x = value_after_byte(value, b',');
    let (y, y_end, value) = counted_integer(third, after_x)?;
    let fourth = after_comma(third, y_end)?;
    let after_y = value_after_byte(value, b',');
    let (z, end, value) = counted_integer(fourth, after_y)?;
    if end < fourth.len() {
        return None;
    }
    Some((first, x, y, z, checksum_of_value(value)))
}
