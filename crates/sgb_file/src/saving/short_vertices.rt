//! The records of vertices, and those whose lines are short.
//!
//! Short are those with a name of at most 28 bytes, a first record below 10^8, and no fields, or integers below 10,000
//! in x, y, z alone.
ghost use Rattle.std.specs.Prelude.{◌≡◌, ◌<◌, [], ◌∷◌, codes, decimal, drop, length, IfSome};
ghost use Rattle.sgb_graph.specs.Columns.{util_seen, vertex_seen};
ghost use Rattle.sgb_file.specs.Saving.{field_texts, quoted};
ghost use Rattle.sgb_file.specs.inner.SavedLines.{vertex_texts};
ghost use Rattle.sgb_file.specs.inner.Layouts.{lines_of, no_lines};
ghost use Rattle.sgb_file.specs.inner.ShortLines.{AreShortFields, field_texts_of};

use super::fields::any_used;
use super::layouts::Layout;
use super::records::put_vertex;
use super::sections::RecordKind;
use super::short_arcs::{short_integer, short_next};
use super::short_lines::ShortLines;
use crate::devices::{Failed, Sink};
use sgb_graph::{Graph, UtilRef, VertexRef};

// A short name has at most this many bytes.
const MOST_NAME_BYTES: usize = 28;

// The numbers of a vertex: that of the first record of its list, if there is one, and the integers
// of its fields x, y, z.
type Numbers = (Option<u32>, u32, u32, u32);

// The records of vertices.
pub(super) struct Vertices;

impl RecordKind for Vertices {
    ghost title = { codes "* Vertices" };

    ghost count = { λ graph. length graph.vertices };

    ghost lines_from = { λ graph k. lines_of (λ v. vertex_texts v) (drop k graph.vertices) };

    ghost end = { λ graph k past. no_lines (λ v. vertex_texts v) graph.vertices k past };

    fn title_line() -> &'static [u8] {
        b"* Vertices\n"
    }

    #[inline(always)]
    fn len(graph: &Graph) -> usize {
        graph.n() as usize
    }

    #[inline(always)]
    fn put_short(lines: &mut ShortLines, graph: &Graph, k: usize) -> bool {
        prove!(k < graph.n() as usize);
        let vertex = graph.vertex(k as u32);
        if vertex.name.bytes().len() > MOST_NAME_BYTES {
            return false;
        }
        if any_used(&vertex.util) {
            let Some((first, x, y, z)) = short_numbers(vertex) else {
                return false;
            };
            lines.put_vertex(vertex.name.bytes(), first, x, y, z);
            return true;
        }
        let Some(first) = short_next(vertex.arcs) else {
            return false;
        };
        lines.put_bare_vertex(vertex.name.bytes(), first);
        true
    }

    fn put<W: Sink>(
        layout: &mut Layout,
        sink: &mut W,
        graph: &Graph,
        k: usize,
    ) -> Result<(), Failed> {
        prove!(k < graph.n() as usize);
        put_vertex(layout, sink, graph.vertex(k as u32))
    }
}

// The numbers of a vertex, where they are short and its other fields are not used.
#[inline(always)]
fn short_numbers(vertex: VertexRef<'_>) -> Option<Numbers>
    ensures short { IfSome result (λ s. AreShortFields s.0 s.1 s.2 s.3) }
    ensures texts { IfSome result (λ s. vertex_texts (vertex_seen vertex.entry)
        ≡ quoted (vertex_seen vertex.entry).name ∷ field_texts_of s.0 s.1 s.2 s.3) }
{
    let fields = &vertex.util[..];
    if any_used(&fields[..3]) {
        return None;
    }
    let first = short_next(vertex.arcs)?;
    let x = short_field(fields[3])?;
    let y = short_field(fields[4])?;
    let z = short_field(fields[5])?;
    Some((first, x, y, z))
}

// The integer that a field holds, where it has few digits.
#[inline(always)]
fn short_field(field: UtilRef<'_>) -> Option<u32>
    ensures texts { IfSome result (λ n. field_texts (util_seen field.entry) ≡ decimal n ∷ []) }
    ensures few { IfSome result (λ n. n < 10_000) }
{
    match field {
        UtilRef::Int(number) => short_integer(number),
        _ => None,
    }
}
