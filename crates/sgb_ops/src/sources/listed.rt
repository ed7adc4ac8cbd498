//! The lists of a generator's graph: their arcs are handed out one by one.
ghost use Rattle.std.specs.Prelude.{◌≡◌, ◌<◌, ◌++◌, length, map, filter, nat_lt, OnOk, IsOkUnless};
ghost use Rattle.sgb_graph.specs.Made.{graph_described};
ghost use Rattle.sgb_gen.specs.Generators.{described};
ghost use Rattle.sgb_taken.specs.Taken.{taken};
ghost use Rattle.sgb_ops.specs.inner.Ends.{event_of};
ghost use Rattle.sgb_ops.specs.inner.Sources.{HasTips};
ghost use Rattle.sgb_ops.specs.inner.TakenEvents.{are_once};

use crate::taken_events::TakenEvents;
use sgb_gen::{Links, LocalLists};
use sgb_taken::Event;
use sgb_vec::{Panic, Vector};
use std::alloc::Global;

/// What lists are read with: what it holds is open. The lists of one graph in order are found faster with one room.
#[derive(Drop)]
pub(crate) struct ListRoom {
    pub(super) x: Vector,
    links: Links,
}

impl ListRoom {
    /// Room for lists. It takes no memory yet.
    pub(crate) fn new(alloc: Global) -> ListRoom {
        ListRoom {
            x: Vector::new(),
            links: Links::new(alloc),
        }
    }
}

// Makes `events` those of the arcs taken of `v` in a generator's graph, all of which lead to its vertices.
pub(super) fn put_listed(
    events: &mut Vec<Event>,
    lists: &LocalLists<'_>,
    directed: bool,
    v: u32,
    room: &mut ListRoom,
) -> Result<(), Panic>
    requires vertex { v < length (graph_described (described lists.now)).vertices }
    ensures ok { OnOk result (events.new.items ≡ map (event_of v)
        (taken directed (graph_described (described lists.now)) v)) }
    ensures tips { HasTips (graph_described (described lists.now)) }
    ensures memory { IsOkUnless result Panic.NoRoom }
{
    events.clear();
    push_listed(events, lists, directed, v, lists.size(), room)
}

// Appends the events of the arcs taken of `v` in a generator's graph whose tip is below `n`.
pub(super) fn push_listed(
    events: &mut Vec<Event>,
    lists: &LocalLists<'_>,
    directed: bool,
    v: u32,
    n: u32,
    room: &mut ListRoom,
) -> Result<(), Panic>
    requires vertex { v < length (graph_described (described lists.now)).vertices }
    ensures ok { OnOk result (events.new.items ≡ events.old.items
        ++ map (event_of v) (filter (λ l. nat_lt l.tip n)
        (taken directed (graph_described (described lists.now)) v))) }
    ensures memory { IsOkUnless result Panic.NoRoom }
{
    let x = &mut room.x;
    lists.put_vector(v, x);
    let sink = TakenEvents {
        places: lists,
        width: x.len(),
        vertex: v,
        n,
        directed,
        loops_once: are_once(directed, lists.is_directed()),
    };
    lists.give_arcs(x.as_slice(), &mut room.links, &sink, &mut false, events)?
}

// Whether of an edge's loop the second arc is left out: for an undirected result, of edges.
fn are_once(directed: bool, of_arcs: bool) -> bool
    ensures { result ≡ are_once directed of_arcs }
{
    !directed && !of_arcs
}
