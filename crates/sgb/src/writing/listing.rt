//! The listing of a graph, written to a sink.
ghost use Rattle.std.specs.Prelude.{◌≡◌, ◌≢◌, ◌<◌, ◌≤◌, ◌+◌, ◌++◌, false, length, Err, IfErr};
ghost use Rattle.sgb_file.specs.Devices.{change};
ghost use Rattle.sgb_graph.specs.Vertices.{names_of};
ghost use Rattle.sgb_vec.specs.declared.panics.Panic.TheVariants.{NoRoom};
ghost use Rattle.sgb.specs.Outcomes.{head_for, left_out, list_answer};
ghost use Rattle.sgb.specs.Texts.{arc_line, block, blocks, head, head_text};
ghost use Rattle.sgb.specs.Writing.{IsEnded, IsWritten, effect};
ghost use Rattle.sgb.specs.inner.Pages.{IsPaged, page_bytes};
ghost use Rattle.sgb.specs.inner.Texts.{count_text, most_count_bytes, most_line_bytes, title_text};

use super::arc_lines::{begin_arc, end_arc};
use super::pages::{Page, make_room, put_page};
use super::vertices::{push_name_line, vertices_left_out};
use sgb_file::Sink;
use sgb_graph::{Graph, Id, Link};
use sgb_requests::{Fault, Resume};
use sgb_vec::push_name;

// Lists are long where vertices have more arcs than this, on the mean.
const LONG_LIST: u64 = 16;

// So many records take more memory than is near a processor.
const MANY_RECORDS: usize = 2_097_152;

/// Writes the listing of a graph: the head, and a block for each vertex; or, where the answer begins further on,
/// the blocks from there.
///
/// `NoVertex` where it is to begin after a name that no vertex has.
pub(crate) fn write_listing<W: Sink>(
    graph: &Graph,
    resume: &Resume,
    out: &mut W,
) -> Result<(), Fault>
    requires { W.has_failed out.old ≡ false }
    ensures ended { IsEnded (list_answer graph.now resume.now)
        (effect W.written W.has_failed out.old out.new) result }
    ensures nowhere { left_out (names_of graph.now) resume.now ≡ Err Fault.NoVertex
        → result ≡ Err Fault.NoVertex }
    ensures certain { IfErr result (λ f. f ≢ Fault.Panic NoRoom) }
{
    let from = vertices_left_out(graph, resume)?;
    let mut page = Page::new();
    push_head_for(resume, graph, &mut page);
    write_blocks(graph, from, &mut page, out)
}

/// Writes this title, and then the listing of a graph.
pub(crate) fn write_titled_listing<W: Sink>(
    title: &[u8],
    graph: &Graph,
    out: &mut W,
) -> Result<(), Fault>
    requires short { length title.now ≤ most_line_bytes }
    requires sound { W.has_failed out.old ≡ false }
    ensures written { IsWritten (title.now ++ (head graph.now ++ blocks graph.now 0))
        (change W.written W.has_failed out.old out.new) result }
    ensures fault { IfErr result (λ f. f ≡ Fault.Write) }
{
    let mut page = Page::new();
    page.push_text(title);
    push_head(graph, &mut page);
    write_blocks(graph, 0, &mut page, out)
}

// Appends the head to a page, but where the listing is resumed.
fn push_head_for(resume: &Resume, graph: &Graph, page: &mut Page)
    requires { length page.old + most_line_bytes ≤ page_bytes }
    ensures { page.new ≡ page.old ++ head_for resume.now (head graph.now) }
{
    match resume {
        Resume::Whole => push_head(graph, page),
        Resume::Skip(_) | Resume::After(_) => {}
    }
}

// Appends what stands before the blocks.
fn push_head(graph: &Graph, page: &mut Page)
    requires { length page.old + most_line_bytes ≤ page_bytes }
    ensures { page.new ≡ page.old ++ head graph.now }
{
    let m: u64 = graph.m();
    push_head_of(graph.id(), graph.n(), u128::from(m), page);
}

/// Appends what stands before the blocks of a graph of this id with `n` vertices and `m` arcs.
fn push_head_of(id: &Id, n: u32, m: u128, page: &mut Page)
    requires { length page.old + most_line_bytes ≤ page_bytes }
    ensures { page.new ≡ page.old ++ head_text id.now n m }
{
    push_title(id, n, page);
    push_arcs_count(m, page);
}

/// Appends what stands before the number of arcs: the official name, and that there are `n` vertices.
pub(super) fn push_title(id: &Id, n: u32, page: &mut Page)
    requires { length page.old + most_line_bytes ≤ page_bytes }
    ensures text { page.new ≡ page.old ++ title_text id.now n }
    ensures short { length page.new + most_count_bytes ≤ page_bytes }
{
    page.push_text(b"  The graph whose official name is\n");
    page.push_text(id.bytes());
    page.push_text(b"\n  has ");
    page.push_number(n);
    page.push_text(b" vertices and ");
}

/// Appends the number of arcs, and what stands after it.
pub(super) fn push_arcs_count(m: u128, page: &mut Page)
    requires { length page.old + most_count_bytes ≤ page_bytes }
    ensures { page.new ≡ page.old ++ count_text m }
{
    page.push_number(m);
    page.push_text(b" arcs:\n\n");
}

// Writes what a page holds and the blocks of the vertices from `from` on.
fn write_blocks<W: Sink>(
    graph: &Graph,
    from: u64,
    page: &mut Page,
    out: &mut W,
) -> Result<(), Fault>
    requires { W.has_failed out.old ≡ false }
    ensures written { IsWritten (page.old ++ blocks graph.now from)
        (change W.written W.has_failed out.old out.new) result }
    ensures fault { IfErr result (λ f. f ≡ Fault.Write) }
{
    let end = graph.n();
    let start = from.min(u64::from(end)) as u32;
    let looks_ahead = pays_to_read_ahead(graph);
    for v in start..end {
        if looks_ahead {
            graph.read_ahead(v);
        }
        push_block(graph, v, page, out)?;
    }
    put_page(page, out)
}

// Whether lists are so long, or the records so many, that it takes less time to look at several lists side by side first.
fn pays_to_read_ahead(graph: &Graph) -> bool {
    graph.m() / LONG_LIST > u64::from(graph.n()) || graph.records_len() > MANY_RECORDS
}

// Hands the block of a vertex to a page: its name, and a line for each of its arcs.
fn push_block<W: Sink>(graph: &Graph, v: u32, page: &mut Page, out: &mut W) -> Result<(), Fault>
    requires vertex { v < length graph.now.vertices }
    requires sound { W.has_failed out.old ≡ false }
    ensures paged { IsPaged page.old (block graph.now v) page.new
        (change W.written W.has_failed out.old out.new) result }
    ensures fault { IfErr result (λ f. f ≡ Fault.Write) }
{
    push_name_line(graph, v, page, out)?;
    for link in graph.arcs(v) {
        push_arc(graph, link, page, out)?;
    }
    Ok(())
}

// Hands the line of an arc to a page.
fn push_arc<W: Sink>(graph: &Graph, link: Link, page: &mut Page, out: &mut W) -> Result<(), Fault>
    requires tip { link.tip < length graph.now.vertices }
    requires sound { W.has_failed out.old ≡ false }
    ensures paged { IsPaged page.old (arc_line (names_of graph.now) link) page.new
        (change W.written W.has_failed out.old out.new) result }
    ensures fault { IfErr result (λ f. f ≡ Fault.Write) }
{
    make_room(page, out)?;
    begin_arc(page);
    push_name(page, graph.name(link.tip).bytes());
    end_arc(page, link.len);
    Ok(())
}
