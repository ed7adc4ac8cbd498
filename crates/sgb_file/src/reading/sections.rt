//! The records of a file, section by section: the graph's, the vertices', the arcs' (GB_SAVE, restore_graph).
ghost use Rattle.std.specs.Prelude.{◌≡◌, ◌++◌, ◌∷◌, [], codes, IsTrue};
ghost use Rattle.sgb_text.proofs.Findings.{after_prefix, given};
ghost use Rattle.sgb_file.specs.inner.Found.{IsFoundBy, IsPassedBy};
ghost use Rattle.sgb_file.specs.inner.LinesLeft.{has_no_newline, text_left};
ghost use Rattle.sgb_file.specs.inner.Reading.{arcs_at, vertices_at};
ghost use Rattle.sgb_file.specs.inner.ReadRecords.{records_at};

use super::heads::Head;
use super::lines::Lines;
use super::records::{read_arc, read_graph_record, read_vertex};
use sgb_graph::Parts;
use sgb_vec::Panic;
use std::alloc::Global;

// What the records of a file say, from the graph's to the last arc's.
pub(super) fn read_records(
    alloc: Global,
    head: &Head,
    lines: &mut Lines<'_>,
) -> Result<Parts, Panic>
    ensures found { IsFoundBy (records_at head.now (text_left lines.old)) result
        (text_left lines.new) }
    ensures all { lines.new.all ≡ lines.old.all }
{
    let parts = read_graph_record(alloc, head, lines)?;
    pass_title(lines, b"* Vertices")?;
    let parts = read_vertices(alloc, head, lines, parts)?;
    read_arc_section(alloc, head, lines, parts)
}

// The parts with the arc records of the file after those that they have: the title of their section comes first.
fn read_arc_section(
    alloc: Global,
    head: &Head,
    lines: &mut Lines<'_>,
    parts: Parts,
) -> Result<Parts, Panic>
    ensures found { IsFoundBy (given (after_prefix (codes "* Arcs\n") (text_left lines.old))
        (arcs_at head.now parts head.now.counts.arcs)) result (text_left lines.new) }
    ensures all { lines.new.all ≡ lines.old.all }
{
    pass_title(lines, b"* Arcs")?;
    read_arcs(alloc, head, lines, parts)
}

// The parts with the vertices of the file after those that they have.
fn read_vertices(
    alloc: Global,
    head: &Head,
    lines: &mut Lines<'_>,
    mut parts: Parts,
) -> Result<Parts, Panic>
    ensures found { IsFoundBy (vertices_at head.now parts head.now.counts.vertices
        (text_left lines.old)) result (text_left lines.new) }
    ensures all { lines.new.all ≡ lines.old.all }
{
    for _v in 0..head.counts.vertices {
        read_vertex(alloc, head, lines, &mut parts)?;
    }
    Ok(parts)
}

// The parts with the arc records of the file after those that they have.
#[inline(never)]
fn read_arcs(
    alloc: Global,
    head: &Head,
    lines: &mut Lines<'_>,
    mut parts: Parts,
) -> Result<Parts, Panic>
    ensures found { IsFoundBy (arcs_at head.now parts head.now.counts.arcs (text_left lines.old))
        result (text_left lines.new) }
    ensures all { lines.new.all ≡ lines.old.all }
{
    for _k in 0..head.counts.arcs {
        read_arc(alloc, head, lines, &mut parts)?;
    }
    Ok(parts)
}

// Passes over the line that has to come next, the title of a section.
fn pass_title(lines: &mut Lines<'_>, title: &[u8]) -> Result<(), Panic>
    requires { IsTrue (has_no_newline title.now) }
    ensures passed { IsPassedBy (after_prefix (title.now ++ 10 ∷ []) (text_left lines.old)) result
        (text_left lines.new) }
    ensures all { lines.new.all ≡ lines.old.all }
{
    let Some(line) = lines.line() else {
        return Err(Panic::Syntax);
    };
    if line != title {
        return Err(Panic::Syntax);
    }
    lines.skip(line.len());
    lines.next_line();
    Ok(())
}
