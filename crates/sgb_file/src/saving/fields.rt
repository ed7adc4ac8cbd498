//! The fields of records, laid out (GB_SAVE, save_graph).
//!
//! A record whose own fields are not used ends its line at once. Else a comma stands after a field where another one in
//! use follows.
ghost use Rattle.std.specs.Prelude.{◌≡◌, ◌≤◌, length, map, decimal};
ghost use Rattle.std.specs.Fmt.{signed_decimal};
ghost use Rattle.std.specs.List.{flat_map};
ghost use Rattle.sgb_graph.specs.Columns.{util_seen};
ghost use Rattle.sgb_file.specs.inner.Layouts.{AreLaidOut, IsNextPlaced, IsPlaced, comma_of, has_any, piece_of, stage};
ghost use Rattle.sgb_file.specs.Saving.{field_texts, quoted, record_number_text, ref_text};
// For the search alone.
ghost use Rattle.std.specs.Prelude.{Some, true, false};

use super::layouts::Layout;
use crate::devices::{Failed, Sink};
use sgb_graph::{Ref, UtilRef};

// Lays out the fields that are used, which end the record. Most records have none.
#[inline(always)]
pub(super) fn put_fields<W: Sink>(
    layout: &mut Layout,
    sink: &mut W,
    fields: &[UtilRef<'_>],
) -> Result<(), Failed>
    ensures { AreLaidOut (flat_map field_texts (map util_seen fields.now))
        (stage W.written W.has_failed sink.old layout.old)
        (stage W.written W.has_failed sink.new layout.new) result }
{
    if !any_used(fields) {
        return layout.end_line(sink);
    }
    put_each_field(layout, sink, fields)
}

// Lays out the fields that are used, one by one, and ends the line.
#[inline(never)]
fn put_each_field<W: Sink>(
    layout: &mut Layout,
    sink: &mut W,
    fields: &[UtilRef<'_>],
) -> Result<(), Failed>
    ensures { AreLaidOut (flat_map field_texts (map util_seen fields.now))
        (stage W.written W.has_failed sink.old layout.old)
        (stage W.written W.has_failed sink.new layout.new) result }
{
    for place in 0..fields.len() {
        put_field(layout, sink, fields[place], &fields[place + 1..])?;
    }
    layout.end_line(sink)
}

// Whether any of the fields is used.
pub(super) fn any_used(fields: &[UtilRef<'_>]) -> bool
    ensures { result ≡ has_any (flat_map field_texts (map util_seen fields.now)) }
{
    for field in fields {
        if is_used(*field) {
            return true;
        }
    }
    false
}

// Whether the field is used.
pub(super) fn is_used(field: UtilRef<'_>) -> bool
    ensures { result ≡ has_any (field_texts (util_seen field.entry)) }
{
    !matches!(field, UtilRef::Nothing)
}

// Lays out a field, if it is used, with a comma where any of the later fields is used.
fn put_field<W: Sink>(
    layout: &mut Layout,
    sink: &mut W,
    field: UtilRef<'_>,
    later: &[UtilRef<'_>],
) -> Result<(), Failed>
    ensures { IsNextPlaced (has_any (flat_map field_texts (map util_seen later.now)))
        (field_texts (util_seen field.entry))
        (stage W.written W.has_failed sink.old layout.old)
        (stage W.written W.has_failed sink.new layout.new) result }
{
    match field {
        UtilRef::Nothing => Ok(()),
        UtilRef::Int(number) => put_integer(layout, sink, number, any_used(later)),
        UtilRef::Vertex(vertex) => put_ref(layout, sink, vertex, any_used(later)),
        UtilRef::Str(text) => put_string(layout, sink, text.bytes(), any_used(later)),
        UtilRef::Chain(first) => put_record_number(layout, sink, first, any_used(later)),
    }
}

// Lays out a string.
pub(super) fn put_string<W: Sink>(
    layout: &mut Layout,
    sink: &mut W,
    bytes: &[u8],
    more: bool,
) -> Result<(), Failed>
    ensures { IsPlaced (piece_of more (quoted bytes.now))
        (stage W.written W.has_failed sink.old layout.old)
        (stage W.written W.has_failed sink.new layout.new) result }
{
    let end: &[u8] = if more { b"\"," } else { b"\"" };
    layout.place(sink, b"\"", bytes, end)
}

// Lays out an integer.
pub(super) fn put_integer<W: Sink>(
    layout: &mut Layout,
    sink: &mut W,
    number: i64,
    more: bool,
) -> Result<(), Failed>
    ensures { IsPlaced (piece_of more (signed_decimal number))
        (stage W.written W.has_failed sink.old layout.old)
        (stage W.written W.has_failed sink.new layout.new) result }
{
    layout.place_number(sink, b"", number, comma(more))
}

// Lays out a number.
pub(super) fn put_number<W: Sink>(
    layout: &mut Layout,
    sink: &mut W,
    number: u64,
    more: bool,
) -> Result<(), Failed>
    ensures { IsPlaced (piece_of more (decimal number))
        (stage W.written W.has_failed sink.old layout.old)
        (stage W.written W.has_failed sink.new layout.new) result }
{
    layout.place_number(sink, b"", number, comma(more))
}

// Lays out a vertex.
pub(super) fn put_ref<W: Sink>(
    layout: &mut Layout,
    sink: &mut W,
    vertex: Ref,
    more: bool,
) -> Result<(), Failed>
    ensures { IsPlaced (piece_of more (ref_text vertex))
        (stage W.written W.has_failed sink.old layout.old)
        (stage W.written W.has_failed sink.new layout.new) result }
{
    match vertex {
        Ref::Null => layout.place(sink, b"", b"0", comma(more)),
        Ref::One => layout.place(sink, b"", b"1", comma(more)),
        Ref::At(number) => layout.place_number(sink, b"V", number, comma(more)),
    }
}

// Lays out an arc record's number.
pub(super) fn put_record_number<W: Sink>(
    layout: &mut Layout,
    sink: &mut W,
    first: Option<usize>,
    more: bool,
) -> Result<(), Failed>
    ensures { IsPlaced (piece_of more (record_number_text first))
        (stage W.written W.has_failed sink.old layout.old)
        (stage W.written W.has_failed sink.new layout.new) result }
{
    match first {
        None => layout.place(sink, b"", b"0", comma(more)),
        Some(number) => layout.place_number(sink, b"A", number, comma(more)),
    }
}

// The comma after a field where more follow.
fn comma(more: bool) -> &'static [u8]
    ensures text { result.now ≡ comma_of more }
    ensures short { length result.now ≤ 1 }
{
    if more { b"," } else { b"" }
}
