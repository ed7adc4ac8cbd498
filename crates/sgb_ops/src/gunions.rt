//! The union of two graphs on the vertices of the first (GB_BASIC, gunion).
ghost use Rattle.std.specs.Prelude.{◌≡◌, ◌<◌, length, map, OnOk, IfOk, IsOkUnless};
ghost use Rattle.sgb_graph.specs.Descriptions.{IsAnswerOf};
ghost use Rattle.sgb_graph.specs.Growth.{AddsEvents, HasPlainArcs};
ghost use Rattle.sgb_ops.specs.inner.Ends.{event_of};
ghost use Rattle.sgb_ops.specs.Gunion.{gunion_of, union_events};
ghost use Rattle.sgb_ops.specs.Merged.{merged_unless};
ghost use Rattle.sgb_ops.specs.inner.Compounds.{gunion_id};
ghost use Rattle.sgb_ops.specs.inner.Gunion.{union_arcs};

use crate::compounds::flag_byte;
use crate::events::add_events;
use crate::merged::merged_unless;
use crate::sources::{ListRoom, Source};
use sgb_graph::{Graph, Id, double_compound_id};
use sgb_taken::Event;
use sgb_vec::Panic;
use std::alloc::Global;

/// The union of two graphs (GB_BASIC, gunion): the graph of the names of `first` whose arcs, or edges unless
/// `directed`, are those of both. Vertex v of the one is vertex v of the other; of `second` those arcs count whose two
/// ends are vertices of `first`. Of parallel ones only the first stays, with the least length of them all, unless
/// `multi`. For each vertex in order come the arcs of `first` and then those of `second`, each edge at its smaller end.
/// The id is `gunion(ID1,ID2,multi,directed)`.
///
/// `NoRoom` when out of memory, and nothing else.
pub fn gunion(
    alloc: Global,
    first: &Graph,
    second: &Graph,
    multi: bool,
    directed: bool,
) -> Result<Graph, Panic>
    ensures { IsAnswerOf (gunion_of first.now second.now multi directed) result }
{
    gunion_of(
        alloc,
        &Source::built(first),
        &Source::built(second),
        multi,
        directed,
    )
}

/// The same of graphs that need not be built.
///
/// `NoRoom` when out of memory, and nothing else.
pub fn gunion_of(
    alloc: Global,
    first: &Source<'_>,
    second: &Source<'_>,
    multi: bool,
    directed: bool,
) -> Result<Graph, Panic>
    ensures { IsAnswerOf (gunion_of first.now second.now multi directed) result }
{
    let names = first.names(alloc)?;
    let mut built = Graph::new(alloc, names)?;
    add_union_events(&mut built, alloc, first, second, multi, directed)?;
    built.set_id(gunion_id(first.id(), second.id(), multi, directed));
    Ok(built)
}

// The id of the result, made from the operands'.
fn gunion_id(id1: &Id, id2: &Id, multi: bool, directed: bool) -> Id
    ensures { result ≡ gunion_id id1.now id2.now multi directed }
{
    let end = [b',', flag_byte(multi), b',', flag_byte(directed), b')'];
    double_compound_id(b"gunion(", id1, b",", id2, &end)
}

// Adds the events of both graphs to that of the names of `first`. Events of different vertices never have the same ends:
// so they are merged vertex by vertex.
fn add_union_events(
    built: &mut Graph,
    alloc: Global,
    first: &Source<'_>,
    second: &Source<'_>,
    multi: bool,
    directed: bool,
) -> Result<(), Panic>
    requires size { length built.old.vertices ≡ length first.now.vertices }
    requires plain { HasPlainArcs built.old }
    ensures ok { OnOk result (AddsEvents directed built.old built.new
        (merged_unless multi directed (union_events first.now second.now directed))) }
    ensures memory { IsOkUnless result Panic.NoRoom }
{
    // The events of each vertex take the memory of those of the vertex before.
    let mut room = Vec::new(alloc);
    let mut ours = ListRoom::new(alloc);
    let mut theirs = ListRoom::new(alloc);
    for v in 0..first.n() {
        first.read_ahead(v);
        second.read_ahead(v);
        let all = events_from(room, first, second, directed, v, &mut ours, &mut theirs)?;
        let events = merged_unless(alloc, multi, directed, all)?;
        add_events(built, directed, &events)?;
        room = events;
    }
    Ok(())
}

// The events of vertex `v`, with parallel ones. They take the memory of those in `events`. `ours` and `theirs` are what those
// of each graph are found with.
fn events_from(
    mut events: Vec<Event>,
    first: &Source<'_>,
    second: &Source<'_>,
    directed: bool,
    v: u32,
    ours: &mut ListRoom,
    theirs: &mut ListRoom,
) -> Result<Vec<Event>, Panic>
    requires vertex { v < length first.now.vertices }
    ensures ok { IfOk result (λ events. events.items
        ≡ map (event_of v) (union_arcs first.now second.now directed v)) }
    ensures memory { IsOkUnless result Panic.NoRoom }
{
    events.clear();
    first.push_taken(&mut events, directed, v, first.n(), ours)?;
    if v >= second.n() {
        return Ok(events);
    }
    second.push_taken(&mut events, directed, v, first.n(), theirs)?;
    Ok(events)
}
