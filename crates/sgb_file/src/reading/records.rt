//! The records of a `.gb` file (GB_SAVE, restore_graph).
//!
//! What is read of a record is put into the parts where it is read: a vertex that is returned is moved piece by piece,
//! and has some 280 bytes with its six fields. One with integers alone is handed over by these, and written once.
ghost use Rattle.std.specs.Prelude.{◌≡◌, ◌∷◌, [], Err, IfErr, IfSome, None, OnOk, Some, length, slice_index_or, true};
ghost use Rattle.sgb_graph.specs.Sound.{arc_kinds, graph_kinds, vertex_kinds};
ghost use Rattle.sgb_graph.specs.declared.fields.Kind.TheVariants.{I, Z};
ghost use Rattle.sgb_file.specs.inner.Found.{IsFoundBy};
ghost use Rattle.sgb_file.specs.inner.LinesLeft.{text_left};
ghost use Rattle.sgb_file.specs.inner.LineRecords.{IsPlainVertex, plain_record};
ghost use Rattle.sgb_file.specs.inner.Reading.{IsNextArc, IsNextVertex, arc_fields_at, vertex_fields_at};
ghost use Rattle.sgb_file.specs.inner.ReadRecords.{arc_record_at, graph_record_at, more_fields_at};

use super::fields::{
    is_used, read_field_after_comma, read_integer, read_integer_after_comma, read_next_field,
    read_number, read_record_number, read_ref,
};
use super::heads::{Counts, Head};
use super::line_records::{VertexLine, arc_of_line, vertex_of_line};
use super::lines::Lines;
use super::separators::{end_record, pass_comma};
use super::strings::{read_id, read_text};
use sgb_graph::{ArcRec, Kind, Parts, Ref, Util, Vertex};
use sgb_vec::{Panic, Text};
use std::alloc::Global;

// The record of the graph: its parts, with no vertices and no arc records yet. The number of its vertices has to be that of
// the file's first line.
pub(super) fn read_graph_record(
    alloc: Global,
    head: &Head,
    lines: &mut Lines<'_>,
) -> Result<Parts, Panic>
    ensures found { IsFoundBy (graph_record_at head.now (text_left lines.old)) result
        (text_left lines.new) }
    ensures all { lines.new.all ≡ lines.old.all }
{
    let id = read_id(lines)?;
    pass_comma(lines)?;
    let n = read_number(lines)?;
    pass_comma(lines)?;
    let m = read_number(lines)?;
    let util = read_graph_fields(alloc, head, lines)?;
    if n != head.counts.vertices {
        return Err(Panic::Syntax);
    }
    Ok(Parts::new(alloc, id, m, head.kinds, util))
}

// The graph's own fields, which end its record.
fn read_graph_fields(alloc: Global, head: &Head, lines: &mut Lines<'_>) -> Result<[Util; 6], Panic>
    ensures found { IsFoundBy (more_fields_at head.now.counts (graph_kinds head.now.kinds)
        (text_left lines.old)) result (text_left lines.new) }
    ensures all { lines.new.all ≡ lines.old.all }
{
    read_fields(alloc, &head.counts, &head.kinds[8..], lines)
}

// The record of a vertex, which is put after those that the parts have.
#[inline(never)]
pub(super) fn read_vertex(
    alloc: Global,
    head: &Head,
    lines: &mut Lines<'_>,
    parts: &mut Parts,
) -> Result<(), Panic>
    ensures ok { OnOk result (IsNextVertex head.now (text_left lines.old) parts.old parts.new
        (text_left lines.new)) }
    ensures err { IfErr result (λ error. IsFoundBy (vertex_fields_at head.now
        (text_left lines.old)) (Err error) (text_left lines.new)) }
    ensures all { lines.new.all ≡ lines.old.all }
{
    let Some(vertex) = plain_vertex(head, lines) else {
        return read_any_vertex(alloc, head, lines, parts);
    };
    match Text::new(alloc, vertex.name) {
        Ok(name) => {
            lines.next_line_with(vertex.sum);
            parts.add_vertex_with_ints(name, vertex.first, vertex.x, vertex.y, vertex.z)
        }
        Err(Panic::NoRoom) => Err(Panic::NoRoom),
        Err(_) => read_any_vertex(alloc, head, lines, parts),
    }
}

// The vertex that stands next, where it is one short line with integers in x, y, z and no other utility fields; or none.
#[inline(always)]
fn plain_vertex<'a>(head: &Head, lines: &Lines<'a>) -> Option<VertexLine<'a>>
    ensures { IfSome result (λ v. IsPlainVertex head.now lines.now v.name.now v.first v.x v.y v.z
        v.sum) }
{
    if !have_vertices_ints(head) {
        return None;
    }
    let line = lines.whole_line()?;
    vertex_of_line(&head.counts, line, lines.checksum())
}

// Whether vertices have integers in the fields x, y, z and no other utility fields.
fn have_vertices_ints(head: &Head) -> bool
    ensures { result ≡ true → vertex_kinds head.now.kinds ≡ Z ∷ Z ∷ Z ∷ I ∷ I ∷ I ∷ [] }
{
    let [u, v, w, x, y, z, ..] = head.kinds;
    !is_used(u) && !is_used(v) && !is_used(w) && is_integer(x) && is_integer(y) && is_integer(z)
}

// Whether a field of this kind holds integers.
fn is_integer(kind: Kind) -> bool
    ensures { result ≡ true → kind ≡ I }
{
    matches!(kind, Kind::I)
}

// Reads any vertex, field by field, and adds it to the parts. The fields are taken by a `match`: a `?` would move the six
// of them once more.
#[inline(never)]
fn read_any_vertex(
    alloc: Global,
    head: &Head,
    lines: &mut Lines<'_>,
    parts: &mut Parts,
) -> Result<(), Panic>
    ensures ok { OnOk result (IsNextVertex head.now (text_left lines.old) parts.old parts.new
        (text_left lines.new)) }
    ensures err { IfErr result (λ error. IsFoundBy (vertex_fields_at head.now
        (text_left lines.old)) (Err error) (text_left lines.new)) }
    ensures all { lines.new.all ≡ lines.old.all }
{
    let name = read_text(alloc, lines)?;
    pass_comma(lines)?;
    let arcs = read_record_number(&head.counts, lines)?;
    match read_fields(alloc, &head.counts, &head.kinds[..6], lines) {
        Ok(util) => {
            parts.add_vertex(Vertex { name, arcs, util })?;
            Ok(())
        }
        Err(error) => Err(error),
    }
}

// An arc record, which is put after those that the parts have. Without strings in it, it takes no memory of its own.
#[inline(always)]
pub(super) fn read_arc(
    alloc: Global,
    head: &Head,
    lines: &mut Lines<'_>,
    parts: &mut Parts,
) -> Result<(), Panic>
    ensures ok { OnOk result (IsNextArc head.now (text_left lines.old) parts.old parts.new
        (text_left lines.new)) }
    ensures err { IfErr result (λ error. IsFoundBy (arc_record_at head.now
        (text_left lines.old)) (Err error) (text_left lines.new)) }
    ensures all { lines.new.all ≡ lines.old.all }
{
    let Some((tip, next, len)) = read_plain_arc(head, lines) else {
        return read_any_arc(alloc, head, lines, parts);
    };
    parts.add_arc(ArcRec {
        tip,
        next,
        len,
        a: Util::Nothing,
        b: Util::Nothing,
    })?;
    Ok(())
}

// The tip, the next record and the length of the arc record that stands next, where it is one line with no utility fields;
// or none, and then no line was passed.
#[inline(always)]
fn read_plain_arc(head: &Head, lines: &mut Lines<'_>) -> Option<(Ref, Option<usize>, i64)>
    ensures found { IfSome result (λ x. arc_record_at head.now (text_left lines.old)
        ≡ Some (record { value = plain_record x.0 x.1 x.2; rest = text_left lines.new })) }
    ensures none { result ≡ None → lines.new ≡ lines.old }
    ensures all { lines.new.all ≡ lines.old.all }
{
    if !are_arcs_plain(head) {
        return None;
    }
    let line = lines.whole_line()?;
    let (tip, next, len, sum) = arc_of_line(&head.counts, line, lines.checksum())?;
    lines.next_line_with(sum);
    Some((tip, next, len))
}

// Whether arc records have no utility fields.
fn are_arcs_plain(head: &Head) -> bool
    ensures { result ≡ true → arc_kinds head.now.kinds ≡ Z ∷ Z ∷ [] }
{
    !is_used(head.kinds[6]) && !is_used(head.kinds[7])
}

// Reads any arc record, field by field, and adds it to the parts.
#[inline(never)]
fn read_any_arc(
    alloc: Global,
    head: &Head,
    lines: &mut Lines<'_>,
    parts: &mut Parts,
) -> Result<(), Panic>
    ensures ok { OnOk result (IsNextArc head.now (text_left lines.old) parts.old parts.new
        (text_left lines.new)) }
    ensures err { IfErr result (λ error. IsFoundBy (arc_record_at head.now
        (text_left lines.old)) (Err error) (text_left lines.new)) }
    ensures all { lines.new.all ≡ lines.old.all }
{
    let arc = read_arc_fields(alloc, head, lines)?;
    parts.add_arc(arc)?;
    Ok(())
}

// The fields of an arc record.
fn read_arc_fields(alloc: Global, head: &Head, lines: &mut Lines<'_>) -> Result<ArcRec, Panic>
    ensures found { IsFoundBy (arc_fields_at head.now.counts (slice_index_or head.now.kinds 6 Z)
        (slice_index_or head.now.kinds 7 Z) (text_left lines.old)) result (text_left lines.new) }
    ensures all { lines.new.all ≡ lines.old.all }
    ensures kinds { length head.now.kinds ≡ 14 }
{
    let tip = read_ref(&head.counts, lines)?;
    pass_comma(lines)?;
    let next = read_record_number(&head.counts, lines)?;
    pass_comma(lines)?;
    let len = read_integer(lines)?;
    let a = read_next_field(alloc, &head.counts, head.kinds[6], lines)?;
    let b = read_next_field(alloc, &head.counts, head.kinds[7], lines)?;
    end_record(lines)?;
    Ok(ArcRec {
        tip,
        next,
        len,
        a,
        b,
    })
}

// The six fields of these kinds that end a record.
fn read_fields(
    alloc: Global,
    counts: &Counts,
    kinds: &[Kind],
    lines: &mut Lines<'_>,
) -> Result<[Util; 6], Panic>
    requires { length kinds.now ≡ 6 }
    ensures found { IsFoundBy (more_fields_at counts.now kinds.now (text_left lines.old)) result
        (text_left lines.new) }
    ensures all { lines.new.all ≡ lines.old.all }
{
    let mut fields = [
        Util::Nothing,
        Util::Nothing,
        Util::Nothing,
        Util::Nothing,
        Util::Nothing,
        Util::Nothing,
    ];
    for place in 0..6 {
        if !is_used(kinds[place]) {
            continue;
        }
        if let Kind::I = kinds[place] {
            fields[place] = Util::Int(read_integer_after_comma(lines)?);
            continue;
        }
        fields[place] = read_field_after_comma(alloc, counts, kinds[place], lines)?;
    }
    end_record(lines)?;
    Ok(fields)
}
