//! The events of which the graph of an operation is made (GB_GRAPH, gb_new_arc and gb_new_edge).
ghost use Rattle.std.specs.Prelude.{◌≡◌, ◌≤◌, ◌++◌, [], ◌∷◌, length, OnOk, IfOk, IsOkUnless};
ghost use Rattle.sgb_vec.specs.Limits.{most_vertices};
ghost use Rattle.sgb_graph.specs.Descriptions.{IsGraphOf};
ghost use Rattle.sgb_graph.specs.Growth.{AddsEvents, HasPlainArcs};
ghost use Rattle.sgb_graph.specs.Made.{plain};
ghost use Rattle.sgb_ops.specs.inner.Ends.{AllWithin};

use sgb_graph::{Graph, Id, Names};
use sgb_taken::Event;
use sgb_vec::Panic;
use std::alloc::Global;

/// Appends an event.
///
/// `NoRoom` when out of memory, and nothing else.
#[inline(always)]
pub(crate) fn push_event(events: &mut Vec<Event>, event: Event) -> Result<(), Panic>
    ensures ok { OnOk result (events.new.items ≡ events.old.items ++ event ∷ []) }
    ensures memory { IsOkUnless result Panic.NoRoom }
{
    events.reserve(1)?;
    events.push_reserved(event);
    Ok(())
}

/// The graph of these names, whose arcs are those of `events`, in their order, and edges unless `directed`. The ends of
/// `events` are below the number of names.
///
/// `NoRoom` when out of memory, and nothing else.
pub(crate) fn graph_of(
    alloc: Global,
    directed: bool,
    events: &[Event],
    names: Names,
    id: Id,
) -> Result<Graph, Panic>
    requires few { length names ≤ most_vertices }
    requires within { AllWithin (length names) events.now }
    ensures ok { IfOk result (λ g. IsGraphOf (plain directed events.now names id) g) }
    ensures memory { IsOkUnless result Panic.NoRoom }
{
    let mut built = Graph::new(alloc, names)?;
    add_events(&mut built, directed, events)?;
    built.set_id(id);
    Ok(built)
}

/// Adds the arcs of `events`, or edges unless `directed`, in their order. Their ends are vertices of the graph, whose records
/// have no utility fields yet.
///
/// `NoRoom` when out of memory, and nothing else.
pub(crate) fn add_events(built: &mut Graph, directed: bool, events: &[Event]) -> Result<(), Panic>
    requires within { AllWithin (length built.old.vertices) events.now }
    requires plain { HasPlainArcs built.old }
    ensures ok { OnOk result (AddsEvents directed built.old built.new events.now) }
    ensures memory { IsOkUnless result Panic.NoRoom }
{
    for event in events {
        event.add_to(directed, built)?;
    }
    Ok(())
}
