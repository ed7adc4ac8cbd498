//! The lines of a graph: its arcs or edges as the vertices of its line graph (GB_BASIC, lines).
ghost use Rattle.std.specs.Prelude.{◌≡◌, false, true, ◌<◌, ◌≤◌, ◌/◌, ◌++◌, [], Ok, Err, length, map, slice_index_or, All, OnOk, IfOk, IfErr, IsOkUnless, if◌then◌else◌};
ghost use Rattle.std.specs.List.{list_all};
ghost use Rattle.sgb_vec.specs.Limits.{most_vertices};
ghost use Rattle.sgb_vec.specs.Results.{IsValue};
ghost use Rattle.sgb_graph.specs.Vertices.{places_of};
ghost use Rattle.sgb_ops.specs.Lines.{accepted_lines, has_way_back, is_of_edges, lines_of_graph};
ghost use Rattle.sgb_ops.specs.inner.Lines.{DescendFrom, LeadsUp, LineWithin, line_of, points_to};
ghost use Rattle.sgb_taken.specs.Taken.{taken};
ghost use Rattle.sgb_ops.specs.Compounds.{line_name};
ghost use Rattle.sgb_ops.specs.inner.Compounds.{line_sign};
ghost use Rattle.sgb_ops.specs.inner.Sources.{names_held};
// For the search alone.
ghost use Rattle.std.specs.Prelude.{◌+◌};

use crate::compounds::joined_name;
use crate::operands::VertexNames;
use crate::sources::{ListRoom, Source};
use sgb_graph::{Graph, Link, Ref};
use sgb_taken::taken;
use sgb_vec::{MOST_VERTICES, Panic, Text};
use std::alloc::Global;

// An arc or edge as a vertex of the line graph: its two ends.
#[derive(Clone, Copy)]
pub(super) struct Line {
    pub(super) from: u32,
    pub(super) to: u32,
}

const _: () = prove!(size_of::<Line>() == 8);

// How many bytes of the names of a line's two ends stay in its name.
const MOST_LINE_START: usize = 2_046;

const MOST_LINE_END: usize = 2_047;

// The lines, from the last vertex down.
fn lines_of_graph(alloc: Global, graph: &Source<'_>, directed: bool) -> Result<Vec<Line>, Panic>
    ensures ok { IfOk result (λ lines. lines.items ≡ lines_of_graph graph.now directed) }
    ensures within { IfOk result (λ lines. All (LineWithin (length graph.now.vertices))
        lines.items) }
    ensures descending { IfOk result (λ lines. DescendFrom (length graph.now.vertices)
        lines.items) }
    ensures up { directed ≡ false → IfOk result (λ lines. All LeadsUp lines.items) }
    ensures memory { IsOkUnless result Panic.NoRoom }
{
    let mut lines = Vec::with_capacity(alloc, most_lines(graph.most_arcs(), directed))?;
    // The arcs of each vertex take the memory of those of the vertex before.
    let mut arcs = Vec::new(alloc);
    let mut room = Vec::new(alloc);
    let mut lists = ListRoom::new(alloc);
    for v in (0..graph.n()).rev() {
        graph.take_arcs(&mut arcs, directed, v, &mut room, &mut lists)?;
        push_lines(&mut lines, v, &arcs)?;
    }
    Ok(lines)
}

// Room for so many lines is taken at first: for each arc, or each two of an edge.
fn most_lines(arcs: usize, directed: bool) -> usize
    ensures { result ≡ (if directed then arcs else arcs / 2) }
{
    if directed { arcs } else { arcs / 2 }
}

// Appends the lines of these arcs of `v`.
fn push_lines(lines: &mut Vec<Line>, v: u32, arcs: &[Link]) -> Result<(), Panic>
    ensures ok { OnOk result (lines.new.items ≡ lines.old.items ++ map (line_of v) arcs.now) }
    ensures memory { IsOkUnless result Panic.NoRoom }
{
    for arc in arcs {
        lines.push(Line {
            from: v,
            to: arc.tip,
        })?;
    }
    Ok(())
}

// The lines of arcs, unless they are too many.
pub(super) fn accepted_arcs(alloc: Global, graph: &Source<'_>) -> Result<Vec<Line>, Panic>
    ensures ok { IfOk result (λ lines.
        accepted_lines graph.now true (lines_of_graph graph.now true) ≡ Ok lines.items) }
    ensures refused { IfErr result (λ e.
        IsValue (accepted_lines graph.now true (lines_of_graph graph.now true)) (Err e)) }
    ensures few { IfOk result (λ lines. length lines.items ≤ most_vertices) }
    ensures within { IfOk result (λ lines. All (LineWithin (length graph.now.vertices))
        lines.items) }
    ensures descending { IfOk result (λ lines. DescendFrom (length graph.now.vertices)
        lines.items) }
{
    let lines = lines_of_graph(alloc, graph, true)?;
    if lines.len() > MOST_VERTICES as usize {
        return Err(Panic::VeryBad);
    }
    Ok(lines)
}

// The lines of edges, unless the graph does not consist of edges, or they are too many.
pub(super) fn accepted_edges(alloc: Global, graph: &Graph) -> Result<Vec<Line>, Panic>
    ensures ok { IfOk result (λ lines.
        accepted_lines graph.now false (lines_of_graph graph.now false) ≡ Ok lines.items) }
    ensures refused { IfErr result (λ e.
        IsValue (accepted_lines graph.now false (lines_of_graph graph.now false)) (Err e)) }
    ensures few { IfOk result (λ lines. length lines.items ≤ most_vertices) }
    ensures within { IfOk result (λ lines. All (LineWithin (length graph.now.vertices))
        lines.items) }
    ensures descending { IfOk result (λ lines. DescendFrom (length graph.now.vertices)
        lines.items) }
    ensures up { IfOk result (λ lines. All LeadsUp lines.items) }
{
    let lines = lines_of_graph(alloc, &Source::built(graph), false)?;
    if !is_of_edges(graph, &lines) {
        return Err(Panic::Invalid);
    }
    if lines.len() > MOST_VERTICES as usize {
        return Err(Panic::VeryBad);
    }
    Ok(lines)
}

// Whether each line is an edge with its two records, and they number half of the graph's arcs, rounded down.
fn is_of_edges(graph: &Graph, lines: &[Line]) -> bool
    ensures { result ≡ is_of_edges graph.now lines.now }
{
    have_ways_back(graph) && lines.len() as u64 == graph.m() / 2
}

// Whether the record after each one taken leads back.
fn have_ways_back(graph: &Graph) -> bool
    ensures { result ≡ list_all (λ v. list_all (has_way_back graph.now v)
        (taken false graph.now v)) (places_of graph.now) }
{
    for v in 0..graph.n() {
        if !have_ways_back_from(graph, v) {
            return false;
        }
    }
    true
}

// Whether that after each one taken of `v` does.
fn have_ways_back_from(graph: &Graph, v: u32) -> bool
    requires { v < length graph.now.vertices }
    ensures { result ≡ list_all (has_way_back graph.now v) (taken false graph.now v) }
{
    for link in taken(graph, false, v) {
        if !has_way_back(graph, v, link) {
            return false;
        }
    }
    true
}

// Whether the record after that of this arc of `v` is there, and leads back.
fn has_way_back(graph: &Graph, v: u32, link: Link) -> bool
    ensures { result ≡ has_way_back graph.now v link }
{
    if link.number >= graph.records_len().saturating_sub(1) {
        return false;
    }
    points_to(graph.arc_rec(link.number + 1).tip, v)
}

impl Line {
    // The line's name, made of the names of its ends.
    pub(super) fn name(
        self,
        alloc: Global,
        names: &VertexNames<'_>,
        directed: bool,
    ) -> Result<Text, Panic>
        requires { LineWithin (length (names_held names.now)) self }
        ensures ok { IfOk result (λ name. name
            ≡ line_name directed (slice_index_or (names_held names.now) self.from [])
            (slice_index_or (names_held names.now) self.to [])) }
        ensures memory { IsOkUnless result Panic.NoRoom }
    {
        joined_name(
            alloc,
            names.get(self.from),
            MOST_LINE_START,
            sign(directed),
            names.get(self.to),
            MOST_LINE_END,
        )
    }
}

// Whether the tip is this vertex.
fn points_to(tip: Ref, v: u32) -> bool
    ensures { result ≡ points_to tip v }
{
    match tip {
        Ref::At(w) => w == v,
        Ref::Null | Ref::One => false,
    }
}

// What stands between the two names of a line.
fn sign(directed: bool) -> &'static [u8]
    ensures { result.now ≡ line_sign directed }
{
    if directed { b"->" } else { b"--" }
}
