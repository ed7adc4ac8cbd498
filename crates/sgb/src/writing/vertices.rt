//! The names of a graph's vertices, written one a line, and where an answer begins by a name.
ghost use Rattle.std.specs.Prelude.{◌≡◌, ◌≢◌, ◌<◌, [], false, length, Err, IfErr};
ghost use Rattle.std.specs.List.{slice_index_or};
ghost use Rattle.sgb_file.specs.Devices.{change};
ghost use Rattle.sgb_graph.specs.Vertices.{names_of};
ghost use Rattle.sgb_vec.specs.declared.panics.Panic.TheVariants.{NoRoom};
ghost use Rattle.sgb.specs.Outcomes.{left_out, names_answer};
ghost use Rattle.sgb.specs.inner.Named.{vertex_named};
ghost use Rattle.sgb.specs.Texts.{name_line, name_lines};
ghost use Rattle.sgb.specs.Writing.{IsEnded, IsWritten, effect};
ghost use Rattle.sgb.specs.inner.Pages.{IsPaged};

use super::pages::{Page, make_room, put_page};
use sgb_file::Sink;
use sgb_graph::Graph;
use sgb_requests::{Fault, Resume};
use sgb_vec::push_name;

/// Writes the names of a graph's vertices, each on a line, from where the answer begins.
///
/// `NoVertex` where it is to begin after a name that no vertex has.
pub(crate) fn write_vertex_names<W: Sink>(
    graph: &Graph,
    resume: &Resume,
    out: &mut W,
) -> Result<(), Fault>
    requires { W.has_failed out.old ≡ false }
    ensures ended { IsEnded (names_answer (names_of graph.now) resume.now)
        (effect W.written W.has_failed out.old out.new) result }
    ensures nowhere { left_out (names_of graph.now) resume.now ≡ Err Fault.NoVertex
        → result ≡ Err Fault.NoVertex }
    ensures certain { IfErr result (λ f. f ≢ Fault.Panic NoRoom) }
{
    let from = vertices_left_out(graph, resume)?;
    write_name_lines(graph, from, out)
}

// Writes the names of the vertices from `from` on.
fn write_name_lines<W: Sink>(graph: &Graph, from: u64, out: &mut W) -> Result<(), Fault>
    requires { W.has_failed out.old ≡ false }
    ensures written { IsWritten (name_lines (names_of graph.now) from)
        (change W.written W.has_failed out.old out.new) result }
    ensures fault { IfErr result (λ f. f ≡ Fault.Write) }
{
    let end = graph.n();
    let start = from.min(u64::from(end)) as u32;
    let mut page = Page::new();
    for v in start..end {
        push_name_line(graph, v, &mut page, out)?;
    }
    put_page(&mut page, out)
}

/// Hands the line of a vertex to a page: its name and a newline.
#[inline(always)]
pub(super) fn push_name_line<W: Sink>(
    graph: &Graph,
    v: u32,
    page: &mut Page,
    out: &mut W,
) -> Result<(), Fault>
    requires vertex { v < length graph.now.vertices }
    requires sound { W.has_failed out.old ≡ false }
    ensures paged { IsPaged page.old (name_line (slice_index_or (names_of graph.now) v []))
        page.new (change W.written W.has_failed out.old out.new) result }
    ensures fault { IfErr result (λ f. f ≡ Fault.Write) }
{
    make_room(page, out)?;
    push_name(page, graph.name(v).bytes());
    page.push_text(b"\n");
    Ok(())
}

/// How many first vertices are left out.
///
/// `NoVertex` where the answer is to begin after a name that no vertex has.
pub(super) fn vertices_left_out(graph: &Graph, resume: &Resume) -> Result<u64, Fault>
    ensures { result ≡ left_out (names_of graph.now) resume.now }
{
    match resume {
        Resume::Whole => Ok(0),
        Resume::Skip(count) => Ok(*count),
        Resume::After(name) => match vertex_named(graph, name.bytes()) {
            Some(v) => Ok(u64::from(v) + 1),
            None => Err(Fault::NoVertex),
        },
    }
}

// The first vertex of this name.
fn vertex_named(graph: &Graph, name: &[u8]) -> Option<u32>
    ensures { result ≡ vertex_named name.now (names_of graph.now) }
{
    for v in 0..graph.n() {
        if graph.name(v).bytes() == name {
            return Some(v);
        }
    }
    None
}
