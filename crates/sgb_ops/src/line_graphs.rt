//! The line graph of a graph, which has a vertex for each arc or edge (GB_BASIC, lines).
//!
//! The events are added one by one: no list of them is made. Room for the names is taken at once, and for the records.
ghost use Rattle.std.specs.Prelude.{◌≡◌, false, true, ◌≤◌, length, All, Ok, OnOk, IfOk, IsOkUnless};
ghost use Rattle.sgb_vec.specs.Limits.{most_vertices};
ghost use Rattle.sgb_graph.specs.Descriptions.{IsAnswerOf};
ghost use Rattle.sgb_graph.specs.Made.{plain};
ghost use Rattle.sgb_graph.specs.Vertices.{names_of};
ghost use Rattle.sgb_graph.specs.Growth.{AddsEvents, HasPlainArcs};
ghost use Rattle.sgb_ops.specs.Lines.{line_events, line_graph_of};
ghost use Rattle.sgb_ops.specs.inner.Lines.{DescendFrom, LeadsUp, LineWithin, names_of_lines};
ghost use Rattle.sgb_ops.specs.inner.Compounds.{lines_id};
ghost use Rattle.sgb_ops.specs.inner.Sources.{names_held};

// The arcs of a directed line graph.
mod arcs;
// The edges of one that is not directed.
mod edges;
// The lines, which are its vertices.
mod line;

use crate::compounds::flag_byte;
use crate::operands::{VertexNames, graph_with_room};
use crate::sources::Source;
use arcs::add_arcs;
use edges::{add_edges, records_of_edges};
use line::{Line, accepted_arcs, accepted_edges};
use sgb_graph::{Graph, Id, Names, compound_id};
use sgb_vec::Panic;
use std::alloc::Global;

/// The line graph of a graph (GB_BASIC, lines): it has a vertex for each edge of `graph`, named `a--b`, and an edge
/// between two of them that share an end; with `directed` a vertex for each arc, named `a->b`, and an arc from it to each
/// arc that begins where it ends. All have length 1. The vertices are the arcs taken of each vertex of `graph`, from the
/// last vertex down to the first. Of the names `a` and `b` the first 2,046 and 2,047 bytes stay. The id is
/// `lines(ID,directed)`.
///
/// `Invalid` unless `directed`, where `graph` does not consist of edges: the record after each one taken has to lead back,
/// and the lines have to be half as many as the arcs. `VeryBad` at more than 1,000,000,000 lines. `NoRoom` when out of
/// memory.
pub fn lines(alloc: Global, graph: &Graph, directed: bool) -> Result<Graph, Panic>
    ensures { IsAnswerOf (line_graph_of graph.now directed) result }
{
    if directed {
        return directed_lines_of(alloc, &Source::built(graph));
    }
    lines_of_edges(alloc, graph)
}

/// The directed line graph of a graph that need not be built.
///
/// `VeryBad` at more than 1,000,000,000 lines. `NoRoom` when out of memory.
pub fn directed_lines_of(alloc: Global, graph: &Source<'_>) -> Result<Graph, Panic>
    ensures { IsAnswerOf (line_graph_of graph.now true) result }
{
    let lines = accepted_arcs(alloc, graph)?;
    graph_of_lines(alloc, graph, true, &lines)
}

// The line graph that is not directed.
fn lines_of_edges(alloc: Global, graph: &Graph) -> Result<Graph, Panic>
    ensures { IsAnswerOf (line_graph_of graph.now false) result }
{
    let lines = accepted_edges(alloc, graph)?;
    graph_of_lines(alloc, &Source::built(graph), false, &lines)
}

// The line graph on these lines.
fn graph_of_lines(
    alloc: Global,
    graph: &Source<'_>,
    directed: bool,
    lines: &[Line],
) -> Result<Graph, Panic>
    requires few { length lines.now ≤ most_vertices }
    requires within { All (LineWithin (length graph.now.vertices)) lines.now }
    requires descending { DescendFrom (length graph.now.vertices) lines.now }
    requires up { directed ≡ false → All LeadsUp lines.now }
    ensures { IsAnswerOf (Ok (plain directed (line_events directed lines.now)
        (names_of_lines (names_of graph.now) directed lines.now) (lines_id graph.now.id directed)))
        result }
{
    let names = names_of_lines(alloc, graph, directed, lines)?;
    let records = records_of_lines(alloc, graph.n(), directed, lines);
    let mut built = graph_with_room(alloc, names, records)?;
    add_line_events(&mut built, alloc, graph.n(), directed, lines)?;
    built.set_id(lines_id(graph.id(), directed));
    Ok(built)
}

// How many records the events take, where no two lines have both ends in common. It is told for room alone.
fn records_of_lines(alloc: Global, n: u32, directed: bool, lines: &[Line]) -> usize
    requires { All (LineWithin n) lines.now }
{
    if directed {
        return 0;
    }
    records_of_edges(alloc, n, lines)
}

// The id of the result, made from the operand's.
fn lines_id(id: &Id, directed: bool) -> Id
    ensures { result ≡ lines_id id.now directed }
{
    compound_id(b"lines(", id, &[b',', flag_byte(directed), b')'])
}

// The names of the lines.
fn names_of_lines(
    alloc: Global,
    graph: &Source<'_>,
    directed: bool,
    lines: &[Line],
) -> Result<Names, Panic>
    requires { All (LineWithin (length graph.now.vertices)) lines.now }
    ensures ok { IfOk result (λ names. names
        ≡ names_of_lines (names_of graph.now) directed lines.now) }
    ensures memory { IsOkUnless result Panic.NoRoom }
{
    let ends = graph.vertex_names(alloc)?;
    named_lines(alloc, &ends, directed, lines)
}

// The names of the lines between vertices of these names.
fn named_lines(
    alloc: Global,
    ends: &VertexNames<'_>,
    directed: bool,
    lines: &[Line],
) -> Result<Names, Panic>
    requires { All (LineWithin (length (names_held ends.now))) lines.now }
    ensures ok { IfOk result (λ names. names
        ≡ names_of_lines (names_held ends.now) directed lines.now) }
    ensures memory { IsOkUnless result Panic.NoRoom }
{
    let mut names = Names::with_capacity(alloc, lines.len())?;
    for line in lines {
        let name = line.name(alloc, ends, directed)?;
        let Ok(()) = names.push(name) else {
            return Err(Panic::NoRoom);
        };
    }
    Ok(names)
}

// Adds the events of the line graph. The lines are between `n` vertices, from the last one down.
fn add_line_events(
    built: &mut Graph,
    alloc: Global,
    n: u32,
    directed: bool,
    lines: &[Line],
) -> Result<(), Panic>
    requires size { length built.old.vertices ≡ length lines.now }
    requires plain { HasPlainArcs built.old }
    requires few { length lines.now ≤ most_vertices }
    requires within { All (LineWithin n) lines.now }
    requires descending { DescendFrom n lines.now }
    requires up { directed ≡ false → All LeadsUp lines.now }
    ensures ok { OnOk result (AddsEvents directed built.old built.new
        (line_events directed lines.now)) }
    ensures memory { IsOkUnless result Panic.NoRoom }
{
    if directed {
        return add_arcs(built, alloc, n, lines);
    }
    add_edges(built, alloc, n, lines)
}
