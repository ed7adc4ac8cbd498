//! The strings of a `.gb` file, which may be broken at the ends of lines (GB_SAVE, fill_field).
ghost use Rattle.std.specs.Prelude.{◌≡◌, ◌==◌, ◌<◌, ◌++◌, [], length, IfOk, IfErr, OnOk};
ghost use Rattle.std.specs.List.{position};
ghost use Rattle.sgb_vec.specs.Limits.{most_bytes};
ghost use Rattle.sgb_graph.specs.Ids.{most_id_bytes};
ghost use Rattle.sgb_file.specs.inner.ReadFields.{string_at};
ghost use Rattle.sgb_file.specs.inner.Found.{BeginsWith, IsFoundBy, IsNoString, IsNoStringAt, IsNoWhole, IsPartOf, IsWholeOf, is_broken, string_from};
ghost use Rattle.sgb_file.specs.inner.LinesLeft.{text_left};

use super::lines::Lines;
use super::separators::pass_byte;
use crate::scans::bytes_before;
use arrayvec::ArrayVec;
use sgb_graph::Id;
use sgb_vec::{Panic, Text};
use std::alloc::Global;

// A string has at most this many bytes.
const MOST_BYTES: usize = 4_095;

// A part of a string on one line: its bytes, and whether the string ends with it. It goes on with the next line else.
#[derive(Drop)]
struct Part<'a> {
    bytes: &'a [u8],
    closed: bool,
}

// The string that stands next, of at most 4,095 bytes.
pub(super) fn read_text(alloc: Global, lines: &mut Lines<'_>) -> Result<Text, Panic>
    ensures found { IsFoundBy (string_at most_bytes (text_left lines.old)) result
        (text_left lines.new) }
    ensures all { lines.new.all ≡ lines.old.all }
{
    let first = first_part(lines)?;
    if first.closed {
        return Text::new(alloc, first.bytes);
    }
    broken_text(alloc, first.bytes, lines)
}

// The string that stands next, as an id: of at most 160 bytes.
pub(super) fn read_id(lines: &mut Lines<'_>) -> Result<Id, Panic>
    ensures found { IsFoundBy (string_at most_id_bytes (text_left lines.old)) result
        (text_left lines.new) }
    ensures all { lines.new.all ≡ lines.old.all }
{
    let first = first_part(lines)?;
    if first.closed {
        return Id::new(first.bytes);
    }
    broken_id(first.bytes, lines)
}

// A string of several parts, of which the first one was taken. It is gathered in room of its own, which no other string
// needs.
fn broken_text(alloc: Global, first: &[u8], lines: &mut Lines<'_>) -> Result<Text, Panic>
    ensures found { IsFoundBy (string_from most_bytes first.now (text_left lines.old)) result
        (text_left lines.new) }
    ensures all { lines.new.all ≡ lines.old.all }
{
    let mut bytes = ArrayVec::new();
    gather(&mut bytes, first, lines)?;
    Text::new(alloc, bytes.as_slice())
}

// An id of several parts, of which the first one was taken.
fn broken_id(first: &[u8], lines: &mut Lines<'_>) -> Result<Id, Panic>
    ensures found { IsFoundBy (string_from most_id_bytes first.now (text_left lines.old)) result
        (text_left lines.new) }
    ensures all { lines.new.all ≡ lines.old.all }
{
    let mut bytes = ArrayVec::new();
    gather(&mut bytes, first, lines)?;
    Id::new(bytes.as_slice())
}

// The first part of the string that stands next.
#[inline(always)]
fn first_part<'a>(lines: &mut Lines<'a>) -> Result<Part<'a>, Panic>
    ensures part { IfOk result (λ part. BeginsWith (text_left lines.old) part.bytes.now part.closed
        (text_left lines.new)) }
    ensures none { IfErr result (λ error. (error ≡ Panic.Syntax)
        × IsNoStringAt (text_left lines.old)) }
    ensures all { lines.new.all ≡ lines.old.all }
{
    pass_byte(lines, b'"')?;
    take_part(lines)
}

// The next part of a string: up to its closing quote, or to a `\` at the end of its line.
fn take_part<'a>(lines: &mut Lines<'a>) -> Result<Part<'a>, Panic>
    ensures part { IfOk result (λ part. IsPartOf (text_left lines.old) part.bytes.now part.closed
        (text_left lines.new)) }
    ensures shorter { IfOk result (λ part. length (text_left lines.new) < length
        (text_left lines.old)) }
    ensures none { IfErr result (λ error. (error ≡ Panic.Syntax)
        × IsNoString (text_left lines.old)) }
    ensures all { lines.new.all ≡ lines.old.all }
{
    let Some(line) = lines.line() else {
        return Err(Panic::Syntax);
    };
    if let Some(end) = place_of_quote(line) {
        lines.skip(end + 1);
        return Ok(Part {
            bytes: &line[..end],
            closed: true,
        });
    }
    if !is_broken(line) {
        return Err(Panic::Syntax);
    }
    lines.skip(line.len());
    lines.next_line();
    Ok(Part {
        bytes: &line[..line.len() - 1],
        closed: false,
    })
}

// Whether the line ends with a `\`.
fn is_broken(line: &[u8]) -> bool
    ensures { result ≡ is_broken line.now }
{
    !line.is_empty() && line[line.len() - 1] == b'\\'
}

// Where the first quote stands.
pub(super) fn place_of_quote(line: &[u8]) -> Option<usize>
    ensures { result ≡ position (λ b. b == 34) line.now }
{
    let end = bytes_before(line, b'"');
    if end < line.len() { Some(end) } else { None }
}

// Gathers the bytes of a string of several parts, of which the first one was taken. No bytes may be there yet.
fn gather(
    bytes: &mut ArrayVec<u8, MOST_BYTES>,
    first: &[u8],
    lines: &mut Lines<'_>,
) -> Result<(), Panic>
    requires { bytes.old.items ≡ [] }
    ensures whole { OnOk result (IsWholeOf first.now (text_left lines.old) bytes.new.items
        (text_left lines.new)) }
    ensures none { IfErr result (λ error. (error ≡ Panic.Syntax)
        × IsNoWhole first.now (text_left lines.old)) }
    ensures all { lines.new.all ≡ lines.old.all }
{
    push_part(bytes, first)?;
    let mut closed = false;
    while !closed {
        let part = take_part(lines)?;
        push_part(bytes, part.bytes)?;
        closed = part.closed;
    }
    Ok(())
}

// Appends a part of a string. `Syntax` where the string is longer than any may be.
fn push_part(bytes: &mut ArrayVec<u8, MOST_BYTES>, part: &[u8]) -> Result<(), Panic>
    ensures ok { OnOk result (bytes.new.items ≡ bytes.old.items ++ part.now) }
    ensures long { IfErr result (λ error. (error ≡ Panic.Syntax)
        × (most_bytes < length (bytes.old.items ++ part.now))) }
{
    match bytes.try_extend_from_slice(part) {
        Ok(()) => Ok(()),
        Err(_) => Err(Panic::Syntax),
    }
}
