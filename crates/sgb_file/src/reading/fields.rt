//! The fields of a record (GB_SAVE, fill_field).
ghost use Rattle.std.specs.Prelude.{◌≡◌, ◌<◌, ◌^◌, IfOk};
ghost use Rattle.sgb_file.specs.inner.ReadFields.{field_at, plain_at};
ghost use Rattle.sgb_file.specs.Fields.{most_number_digits};
ghost use Rattle.sgb_file.specs.inner.FieldValues.{integer_of, number_of, record_number_of, ref_of};
ghost use Rattle.sgb_file.specs.inner.Found.{IsFoundBy, is_used, next_at, next_field_at};
ghost use Rattle.sgb_file.specs.inner.LinesLeft.{text_left};

use super::heads::Counts;
use super::lines::Lines;
use super::plain::{
    integer_before_comma, number_before_comma, record_number_before_comma, ref_before_comma,
};
use super::separators::pass_comma;
use super::strings::read_text;
use sgb_graph::{Kind, Ref, Util};
use sgb_vec::Panic;
use std::alloc::Global;

// The value of the next field, of this kind; a field that is not used has no text, not even a comma before it.
#[inline(always)]
pub(super) fn read_next_field(
    alloc: Global,
    counts: &Counts,
    kind: Kind,
    lines: &mut Lines<'_>,
) -> Result<Util, Panic>
    ensures found { IsFoundBy (next_field_at counts.now kind (text_left lines.old)) result
        (text_left lines.new) }
    ensures all { lines.new.all ≡ lines.old.all }
{
    if !is_used(kind) {
        return Ok(Util::Nothing);
    }
    read_field_after_comma(alloc, counts, kind, lines)
}

// The value of the field of this kind that stands after a comma.
#[inline(never)]
pub(super) fn read_field_after_comma(
    alloc: Global,
    counts: &Counts,
    kind: Kind,
    lines: &mut Lines<'_>,
) -> Result<Util, Panic>
    ensures found { IsFoundBy (next_at (field_at counts.now kind) (text_left lines.old)) result
        (text_left lines.new) }
    ensures all { lines.new.all ≡ lines.old.all }
{
    pass_comma(lines)?;
    read_field(alloc, counts, kind, lines)
}

// The integer that stands after a comma.
#[inline(always)]
pub(super) fn read_integer_after_comma(lines: &mut Lines<'_>) -> Result<i64, Panic>
    ensures found { IsFoundBy (next_at (plain_at integer_of) (text_left lines.old)) result
        (text_left lines.new) }
    ensures all { lines.new.all ≡ lines.old.all }
{
    pass_comma(lines)?;
    read_integer(lines)
}

// Whether a field of this kind has a text.
pub(super) fn is_used(kind: Kind) -> bool
    ensures { result ≡ is_used kind }
{
    !matches!(kind, Kind::Z)
}

// The value of the field of this kind that stands next.
pub(super) fn read_field(
    alloc: Global,
    counts: &Counts,
    kind: Kind,
    lines: &mut Lines<'_>,
) -> Result<Util, Panic>
    ensures found { IsFoundBy (field_at counts.now kind (text_left lines.old)) result
        (text_left lines.new) }
    ensures all { lines.new.all ≡ lines.old.all }
{
    match kind {
        Kind::Z => Ok(Util::Nothing),
        Kind::I => Ok(Util::Int(read_integer(lines)?)),
        Kind::V => Ok(Util::Vertex(read_ref(counts, lines)?)),
        Kind::S => Ok(Util::Str(read_text(alloc, lines)?)),
        Kind::A => Ok(Util::Chain(read_record_number(counts, lines)?)),
    }
}

// The integer that stands next.
#[inline(always)]
pub(super) fn read_integer(lines: &mut Lines<'_>) -> Result<i64, Panic>
    ensures found { IsFoundBy (plain_at integer_of (text_left lines.old)) result
        (text_left lines.new) }
    ensures all { lines.new.all ≡ lines.old.all }
{
    let Some(line) = lines.line() else {
        return Err(Panic::Syntax);
    };
    let Some((number, len)) = integer_before_comma(line) else {
        return Err(Panic::Syntax);
    };
    lines.skip(len);
    Ok(number)
}

// The number that stands next, of 1 to 18 digits.
pub(super) fn read_number(lines: &mut Lines<'_>) -> Result<u64, Panic>
    ensures found { IsFoundBy (plain_at (number_of most_number_digits) (text_left lines.old)) result
        (text_left lines.new) }
    ensures bound { IfOk result (λ n. n < 10 ^ 18) }
    ensures all { lines.new.all ≡ lines.old.all }
{
    let Some(line) = lines.line() else {
        return Err(Panic::Syntax);
    };
    let Some((number, len)) = number_before_comma(line) else {
        return Err(Panic::Syntax);
    };
    lines.skip(len);
    Ok(number)
}

// The vertex that stands next, or none.
pub(super) fn read_ref(counts: &Counts, lines: &mut Lines<'_>) -> Result<Ref, Panic>
    ensures found { IsFoundBy (plain_at (ref_of counts.now.vertices) (text_left lines.old)) result
        (text_left lines.new) }
    ensures all { lines.new.all ≡ lines.old.all }
{
    let Some(line) = lines.line() else {
        return Err(Panic::Syntax);
    };
    let Some((vertex, len)) = ref_before_comma(counts, line) else {
        return Err(Panic::Syntax);
    };
    lines.skip(len);
    Ok(vertex)
}

// The arc record that stands next, by its number, or none.
#[inline(always)]
pub(super) fn read_record_number(
    counts: &Counts,
    lines: &mut Lines<'_>,
) -> Result<Option<usize>, Panic>
    ensures found { IsFoundBy (plain_at (record_number_of counts.now.arcs) (text_left lines.old))
        result (text_left lines.new) }
    ensures all { lines.new.all ≡ lines.old.all }
{
    let Some(line) = lines.line() else {
        return Err(Panic::Syntax);
    };
    let Some((first, len)) = record_number_before_comma(counts, line) else {
        return Err(Panic::Syntax);
    };
    lines.skip(len);
    Ok(first)
}
