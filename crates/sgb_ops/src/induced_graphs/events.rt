//! The events of an induced graph (GB_BASIC, induced).
ghost use Rattle.std.specs.Prelude.{◌≡◌, ◌<◌, ◌≤◌, ◌+◌, ◌++◌, [], ◌∷◌, length, map, filter, flat_map, All, OnOk, IfOk, IsOkUnless};
ghost use Rattle.sgb_vec.specs.Limits.{most_vertices};
ghost use Rattle.sgb_ops.specs.declared.induced_graphs.entries.Entry.TheVariants as entry;
ghost use Rattle.sgb_ops.specs.inner.Copies.{sized};
ghost use Rattle.sgb_ops.specs.Entries.{events_within, inner_events, size_of_entry};
ghost use Rattle.sgb_ops.specs.Induced.{events_between};
ghost use Rattle.sgb_ops.specs.inner.Entries.{inner_events_from, total_of};
ghost use Rattle.sgb_ops.specs.inner.Slots.{inner_held};
ghost use Rattle.sgb_ops.specs.inner.Induced.{event_between, events_of_arc, events_of_copies, is_met, wanted};

use super::entries::Copies;
use super::rooms::Rooms;
use super::slots::{Inner, Slot, Slots};
use crate::events::push_event;
use crate::sources::Source;
use sgb_graph::{Graph, Link};
use sgb_taken::{Event, taken};
use sgb_vec::Panic;
use std::alloc::Global;

/// Which arcs an induced graph has: loops or none, parallel ones or none, arcs or edges.
#[derive(Clone, Copy)]
pub(super) struct Flags {
    pub(super) self_loops: bool,
    pub(super) multi: bool,
    pub(super) directed: bool,
}

/// The events inside the graphs that stand in the places of vertices by these `n` entries, of which these are the copies; with
/// no loops unless they are wanted.
///
/// `NoRoom` when out of memory, and nothing else.
pub(super) fn events_within(
    alloc: Global,
    n: u32,
    entries: &Slots<'_>,
    copies: &Copies,
    flags: Flags,
) -> Result<Vec<Event>, Panic>
    requires count { length entries.now ≡ n }
    requires copies { copies.now ≡ map sized entries.now }
    requires few { total_of entries.now ≤ most_vertices }
    ensures ok { IfOk result (λ events. events.items
        ≡ wanted flags.self_loops (events_within entries.now flags.directed)) }
    ensures memory { IsOkUnless result Panic.NoRoom }
{
    let mut events = Vec::new(alloc);
    for v in 0..n {
        push_inner_events(
            &mut events,
            alloc,
            &entries.at(v),
            copies.own_start(v),
            flags,
        )?;
    }
    Ok(events)
}

// Appends the events inside an entry whose first vertex is `start`.
fn push_inner_events(
    events: &mut Vec<Event>,
    alloc: Global,
    entry: &Slot<'_>,
    start: u32,
    flags: Flags,
) -> Result<(), Panic>
    requires { start + size_of_entry entry.now ≤ most_vertices }
    ensures ok { OnOk result (events.new.items ≡ events.old.items
        ++ wanted flags.self_loops (inner_events flags.directed start entry.now)) }
    ensures memory { IsOkUnless result Panic.NoRoom }
{
    match entry.graph() {
        Some(inner) => push_inner(events, alloc, inner, start, flags),
        None => Ok(()),
    }
}

// Appends the events of a graph that is put in, whose first vertex is `start`. A circle is built for it: so rare is it here.
fn push_inner(
    events: &mut Vec<Event>,
    alloc: Global,
    inner: &Inner<'_>,
    start: u32,
    flags: Flags,
) -> Result<(), Panic>
    requires { start + length (inner_held inner.now).vertices ≤ most_vertices }
    ensures ok { OnOk result (events.new.items ≡ events.old.items
        ++ wanted flags.self_loops (inner_events flags.directed start
        (entry.Graph (inner_held inner.now)))) }
    ensures memory { IsOkUnless result Panic.NoRoom }
{
    match inner {
        Inner::Built(graph) => push_graph(events, graph, start, flags),
        Inner::Circle(circle) => {
            let graph = circle.graph(alloc)?;
            push_graph(events, &graph, start, flags)
        }
    }
}

// Appends the events of a graph whose first vertex is `start`.
fn push_graph(events: &mut Vec<Event>, inner: &Graph, start: u32, flags: Flags) -> Result<(), Panic>
    requires { start + length inner.now.vertices ≤ most_vertices }
    ensures ok { OnOk result (events.new.items ≡ events.old.items
        ++ wanted flags.self_loops (inner_events flags.directed start (entry.Graph inner.now))) }
    ensures memory { IsOkUnless result Panic.NoRoom }
{
    for w in 0..inner.n() {
        inner.read_ahead(w);
        push_inner_arcs(events, inner, start, flags, w)?;
    }
    Ok(())
}

/// Appends those of the arcs of its vertex `w`.
pub(super) fn push_inner_arcs(
    events: &mut Vec<Event>,
    inner: &Graph,
    start: u32,
    flags: Flags,
    w: u32,
) -> Result<(), Panic>
    requires few { start + length inner.now.vertices ≤ most_vertices }
    requires vertex { w < length inner.now.vertices }
    ensures ok { OnOk result (events.new.items ≡ events.old.items
        ++ wanted flags.self_loops (inner_events_from flags.directed start inner.now w)) }
    ensures memory { IsOkUnless result Panic.NoRoom }
{
    for arc in taken(inner, flags.directed, w) {
        let event = Event::new(start + w, start + arc.tip, arc.len);
        push_wanted(events, event, flags)?;
    }
    Ok(())
}

// Appends the event, unless it is a loop and none is wanted.
#[inline(always)]
fn push_wanted(events: &mut Vec<Event>, event: Event, flags: Flags) -> Result<(), Panic>
    ensures ok { OnOk result (events.new.items ≡ events.old.items
        ++ wanted flags.self_loops (event ∷ [])) }
    ensures memory { IsOkUnless result Panic.NoRoom }
{
    if flags.self_loops || !event.is_loop() {
        push_event(events, event)?;
    }
    Ok(())
}

/// Appends the events between copies, with no loops unless they are wanted. It takes the time of their number and of the
/// arcs of `graph`.
///
/// `NoRoom` when out of memory, and nothing else.
pub(super) fn push_events_between(
    alloc: Global,
    events: &mut Vec<Event>,
    graph: &Source<'_>,
    copies: &Copies,
    flags: Flags,
) -> Result<(), Panic>
    requires { length copies.now ≡ length graph.now.vertices }
    ensures ok { OnOk result (events.new.items ≡ events.old.items
        ++ wanted flags.self_loops (events_between graph.now copies.now flags.directed)) }
    ensures memory { IsOkUnless result Panic.NoRoom }
{
    let mut rooms = Rooms::new(alloc);
    for v in 0..graph.n() {
        graph.read_ahead(v);
        push_from_copies(events, &mut rooms, graph, copies, flags, v)?;
    }
    Ok(())
}

// Appends those from the copies of vertex `v`.
fn push_from_copies(
    events: &mut Vec<Event>,
    rooms: &mut Rooms,
    graph: &Source<'_>,
    copies: &Copies,
    flags: Flags,
    v: u32,
) -> Result<(), Panic>
    requires count { length copies.now ≡ length graph.now.vertices }
    requires vertex { v < length graph.now.vertices }
    ensures ok { OnOk result (events.new.items ≡ events.old.items
        ++ wanted flags.self_loops (events_of_copies graph.now copies.now flags.directed v)) }
    ensures memory { IsOkUnless result Panic.NoRoom }
{
    rooms.take_arcs(graph, copies, flags.directed, v)?;
    let arcs = rooms.arcs.as_slice();
    for u in copies.start(v)..copies.end(v) {
        push_from_copy(events, copies, arcs, flags, v, u)?;
    }
    Ok(())
}

/// Appends the events from copy `u` of vertex `v` for these arcs from `v`.
pub(super) fn push_from_copy(
    events: &mut Vec<Event>,
    copies: &Copies,
    arcs: &[Link],
    flags: Flags,
    v: u32,
    u: u32,
) -> Result<(), Panic>
    requires { All (λ l. l.tip < length copies.now) arcs.now }
    ensures ok { OnOk result (events.new.items ≡ events.old.items
        ++ wanted flags.self_loops (flat_map (events_of_arc copies.now flags.directed v u)
        arcs.now)) }
    ensures memory { IsOkUnless result Panic.NoRoom }
{
    for arc in arcs {
        push_to_copies(events, copies, *arc, flags, v, u)?;
    }
    Ok(())
}

// Appends those for one arc: to the copies of its tip.
#[inline(always)]
fn push_to_copies(
    events: &mut Vec<Event>,
    copies: &Copies,
    arc: Link,
    flags: Flags,
    v: u32,
    u: u32,
) -> Result<(), Panic>
    requires { arc.tip < length copies.now }
    ensures ok { OnOk result (events.new.items ≡ events.old.items
        ++ wanted flags.self_loops (events_of_arc copies.now flags.directed v u arc)) }
    ensures memory { IsOkUnless result Panic.NoRoom }
{
    for t in copies.start(arc.tip)..copies.end(arc.tip) {
        push_met(events, arc, flags, v, u, t)?;
    }
    Ok(())
}

// Appends the one to copy `t` of the tip, where `u` is joined to it.
#[inline(always)]
fn push_met(
    events: &mut Vec<Event>,
    arc: Link,
    flags: Flags,
    v: u32,
    u: u32,
    t: u32,
) -> Result<(), Panic>
    ensures ok { OnOk result (events.new.items ≡ events.old.items
        ++ wanted flags.self_loops (map (event_between u arc.len)
        (filter (is_met flags.directed v u arc.tip) (t ∷ [])))) }
    ensures memory { IsOkUnless result Panic.NoRoom }
{
    // A loop of an undirected graph joins each two copies once.
    if flags.directed || arc.tip != v || u <= t {
        push_wanted(events, Event::new(u, t, arc.len), flags)?;
    }
    Ok(())
}
