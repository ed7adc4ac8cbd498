//! The events of an induced graph merged and added part by part (GB_BASIC, induced).
//!
//! So no list of all events is made. It is possible where no vertices are merged and no vertex with a graph in its
//! place has a loop; else all are merged at once (`induced_graphs`).
ghost use Rattle.std.specs.Prelude.{◌≡◌, ◌<◌, ◌≤◌, ◌+◌, ◌||◌, false, length, map, flat_map, All, Contains, OnOk, IfOk, IsOkUnless};
ghost use Rattle.std.specs.Bool.{OnTrue};
ghost use Rattle.std.specs.List.{list_any};
ghost use Rattle.sgb_vec.specs.Limits.{most_vertices};
ghost use Rattle.sgb_graph.specs.Growth.{AddsEvents, HasPlainArcs};
ghost use Rattle.sgb_ops.specs.declared.induced_graphs.entries.Entry.TheVariants as entry;
ghost use Rattle.sgb_ops.specs.Entries.{copies_of, events_within, inner_events, is_unnumbered, merged_count, size_of_entry};
ghost use Rattle.sgb_ops.specs.Induced.{events_between};
ghost use Rattle.sgb_ops.specs.Merged.{merged_unless};
ghost use Rattle.sgb_ops.specs.inner.Copies.{IsKeptEntry, sized};
ghost use Rattle.sgb_ops.specs.inner.Ends.{AllWithin};
ghost use Rattle.sgb_ops.specs.inner.Parts.{AreInParts, has_loop_inside, has_loops_inside};
ghost use Rattle.sgb_ops.specs.inner.Entries.{inner_events_from, total_of};
ghost use Rattle.sgb_ops.specs.inner.Slots.{inner_held};
ghost use Rattle.sgb_ops.specs.inner.Sources.{HasTips};
ghost use Rattle.sgb_ops.specs.inner.Induced.{are_few_apart, events_of_arc, events_of_copies, wanted};

use super::added::add_from_copy;
use super::entries::Copies;
use super::events::{Flags, push_from_copy, push_inner_arcs};
use super::rooms::{Rooms, are_few_apart};
use super::slots::{Inner, Slot, Slots};
use crate::circles::Circle;
use crate::events::add_events;
use crate::merged::{are_merged, merged};
use crate::sources::Source;
use sgb_graph::{Graph, Link};
use sgb_taken::Event;
use sgb_vec::Panic;
use std::alloc::Global;

/// Whether none of the entries, which make so many merged vertices, merges any, and no vertex with a graph in its place has a loop. Then events from different copies
/// never have the same ends, nor has one inside a graph the ends of one between copies.
///
/// `NoRoom` when out of memory, and nothing else.
pub(super) fn are_in_parts(
    alloc: Global,
    graph: &Source<'_>,
    entries: &Slots<'_>,
    merged: u32,
    directed: bool,
) -> Result<bool, Panic>
    requires count { length entries.now ≡ length graph.now.vertices }
    requires merged { merged ≡ merged_count entries.now }
    ensures ok { IfOk result (λ are. OnTrue are (AreInParts graph.now entries.now directed)) }
    ensures memory { IsOkUnless result Panic.NoRoom }
{
    if merged > 0 {
        return Ok(false);
    }
    let mut rooms = Rooms::new(alloc);
    let has = has_loops_inside(&mut rooms, graph, entries, directed)?;
    Ok(!has)
}

// Whether a vertex with a graph in its place has a loop.
fn has_loops_inside(
    rooms: &mut Rooms,
    graph: &Source<'_>,
    entries: &Slots<'_>,
    directed: bool,
) -> Result<bool, Panic>
    requires { length entries.now ≡ length graph.now.vertices }
    ensures ok { IfOk result (λ has. has ≡ has_loops_inside graph.now entries.now directed) }
    ensures memory { IsOkUnless result Panic.NoRoom }
{
    for v in 0..graph.n() {
        let has = has_loop_inside(rooms, graph, &entries.at(v), directed, v)?;
        if has {
            return Ok(true);
        }
    }
    Ok(false)
}

// Whether vertex `v` has a graph in its place, by this entry, and a loop.
fn has_loop_inside(
    rooms: &mut Rooms,
    graph: &Source<'_>,
    entry: &Slot<'_>,
    directed: bool,
    v: u32,
) -> Result<bool, Panic>
    requires { v < length graph.now.vertices }
    ensures ok { IfOk result (λ has. has ≡ has_loop_inside graph.now directed v entry.now) }
    ensures memory { IsOkUnless result Panic.NoRoom }
{
    match entry.graph() {
        Some(_) => rooms.have_loop(graph, directed, v),
        None => Ok(false),
    }
}

/// Adds the events inside the `n` entries, of which these are the copies: those of each vertex of a graph that is put in are
/// merged by themselves.
///
/// `NoRoom` when out of memory, and nothing else.
pub(super) fn add_events_within(
    built: &mut Graph,
    alloc: Global,
    n: u32,
    entries: &Slots<'_>,
    copies: &Copies,
    flags: Flags,
) -> Result<(), Panic>
    requires count { length entries.now ≡ n }
    requires copies { copies.now ≡ map sized entries.now }
    requires few { total_of entries.now ≤ most_vertices }
    requires kept { All IsKeptEntry entries.now }
    requires size { length built.old.vertices ≡ total_of entries.now }
    requires plain { HasPlainArcs built.old }
    ensures ok { OnOk result (AddsEvents flags.directed built.old built.new
        (merged_unless flags.multi flags.directed
        (wanted flags.self_loops (events_within entries.now flags.directed)))) }
    ensures memory { IsOkUnless result Panic.NoRoom }
{
    for v in 0..n {
        let start = copies.own_start(v);
        add_inner_events(built, alloc, &entries.at(v), start, flags)?;
    }
    Ok(())
}

// Adds the events inside an entry whose first vertex is `start`.
fn add_inner_events(
    built: &mut Graph,
    alloc: Global,
    entry: &Slot<'_>,
    start: u32,
    flags: Flags,
) -> Result<(), Panic>
    requires few { start + size_of_entry entry.now ≤ length built.old.vertices }
    requires small { length built.old.vertices ≤ most_vertices }
    requires kept { IsKeptEntry entry.now }
    requires plain { HasPlainArcs built.old }
    ensures ok { OnOk result (AddsEvents flags.directed built.old built.new
        (merged_unless flags.multi flags.directed
        (wanted flags.self_loops (inner_events flags.directed start entry.now)))) }
    ensures memory { IsOkUnless result Panic.NoRoom }
{
    match entry.graph() {
        Some(inner) => add_inner(built, alloc, inner, start, flags),
        None => Ok(()),
    }
}

// Adds the events of a graph that is put in, whose first vertex is `start`.
fn add_inner(
    built: &mut Graph,
    alloc: Global,
    inner: &Inner<'_>,
    start: u32,
    flags: Flags,
) -> Result<(), Panic>
    requires few { start + length (inner_held inner.now).vertices ≤ length built.old.vertices }
    requires small { length built.old.vertices ≤ most_vertices }
    requires kept { HasTips (inner_held inner.now) }
    requires plain { HasPlainArcs built.old }
    ensures ok { OnOk result (AddsEvents flags.directed built.old built.new
        (merged_unless flags.multi flags.directed
        (wanted flags.self_loops (inner_events flags.directed start
        (entry.Graph (inner_held inner.now)))))) }
    ensures memory { IsOkUnless result Panic.NoRoom }
{
    match inner {
        Inner::Built(graph) => add_graph(built, alloc, graph, start, flags),
        Inner::Circle(circle) => add_circle(built, alloc, circle, start, flags),
    }
}

// Adds those of a circle, which is built for arcs: so rare is it there.
fn add_circle(
    built: &mut Graph,
    alloc: Global,
    circle: &Circle,
    start: u32,
    flags: Flags,
) -> Result<(), Panic>
    requires few { start + length circle.now.vertices ≤ length built.old.vertices }
    requires small { length built.old.vertices ≤ most_vertices }
    requires kept { HasTips circle.now }
    requires plain { HasPlainArcs built.old }
    ensures ok { OnOk result (AddsEvents flags.directed built.old built.new
        (merged_unless flags.multi flags.directed
        (wanted flags.self_loops (inner_events flags.directed start
        (entry.Graph circle.now))))) }
    ensures memory { IsOkUnless result Panic.NoRoom }
{
    if flags.directed {
        let graph = circle.graph(alloc)?;
        return add_graph(built, alloc, &graph, start, flags);
    }
    circle.add_edges(built, start)
}

// Adds the events of a graph whose first vertex is `start`.
fn add_graph(
    built: &mut Graph,
    alloc: Global,
    inner: &Graph,
    start: u32,
    flags: Flags,
) -> Result<(), Panic>
    requires few { start + length inner.now.vertices ≤ length built.old.vertices }
    requires small { length built.old.vertices ≤ most_vertices }
    requires kept { HasTips inner.now }
    requires plain { HasPlainArcs built.old }
    ensures ok { OnOk result (AddsEvents flags.directed built.old built.new
        (merged_unless flags.multi flags.directed
        (wanted flags.self_loops (inner_events flags.directed start (entry.Graph inner.now))))) }
    ensures memory { IsOkUnless result Panic.NoRoom }
{
    // The events of each vertex take the memory of those of the vertex before.
    let mut room = Vec::new(alloc);
    for w in 0..inner.n() {
        inner.read_ahead(w);
        put_events_inside(&mut room, inner, start, flags, w)?;
        add_part(built, alloc, &room, flags)?;
    }
    Ok(())
}

// Puts the events of the arcs of its vertex `w` in the place of those in `events`.
fn put_events_inside(
    events: &mut Vec<Event>,
    inner: &Graph,
    start: u32,
    flags: Flags,
    w: u32,
) -> Result<(), Panic>
    requires few { start + length inner.now.vertices ≤ most_vertices }
    requires vertex { w < length inner.now.vertices }
    ensures ok { OnOk result (events.new.items
        ≡ wanted flags.self_loops (inner_events_from flags.directed start inner.now w)) }
    ensures memory { IsOkUnless result Panic.NoRoom }
{
    events.clear();
    push_inner_arcs(events, inner, start, flags, w)
}

// Adds these events, merged by themselves.
fn add_part(built: &mut Graph, alloc: Global, part: &[Event], flags: Flags) -> Result<(), Panic>
    requires within { AllWithin (length built.old.vertices) part.now }
    requires plain { HasPlainArcs built.old }
    ensures ok { OnOk result (AddsEvents flags.directed built.old built.new
        (merged_unless flags.multi flags.directed part.now)) }
    ensures memory { IsOkUnless result Panic.NoRoom }
{
    if are_merged(flags.multi, part) {
        return add_events(built, flags.directed, part);
    }
    let events = merged(alloc, flags.directed, part)?;
    add_events(built, flags.directed, &events)
}

/// Adds the events between copies: those of each copy are merged by themselves.
///
/// `NoRoom` when out of memory, and nothing else.
pub(super) fn add_events_between(
    built: &mut Graph,
    alloc: Global,
    graph: &Source<'_>,
    copies: &Copies,
    flags: Flags,
) -> Result<(), Panic>
    requires count { length copies.now ≡ length graph.now.vertices }
    requires numbered { list_any is_unnumbered copies.now ≡ false }
    requires own { merged_count copies.now ≡ 0 }
    requires size { length built.old.vertices ≡ total_of copies.now }
    requires plain { HasPlainArcs built.old }
    ensures ok { OnOk result (AddsEvents flags.directed built.old built.new
        (merged_unless flags.multi flags.directed
        (wanted flags.self_loops (events_between graph.now copies.now flags.directed)))) }
    ensures memory { IsOkUnless result Panic.NoRoom }
{
    let mut rooms = Rooms::new(alloc);
    for v in 0..graph.n() {
        graph.read_ahead(v);
        add_from_copies(built, alloc, &mut rooms, graph, copies, flags, v)?;
    }
    Ok(())
}

// Adds those from the copies of vertex `v`.
fn add_from_copies(
    built: &mut Graph,
    alloc: Global,
    rooms: &mut Rooms,
    graph: &Source<'_>,
    copies: &Copies,
    flags: Flags,
    v: u32,
) -> Result<(), Panic>
    requires count { length copies.now ≡ length graph.now.vertices }
    requires vertex { v < length graph.now.vertices }
    requires numbered { list_any is_unnumbered copies.now ≡ false }
    requires own { merged_count copies.now ≡ 0 }
    requires size { length built.old.vertices ≡ total_of copies.now }
    requires plain { HasPlainArcs built.old }
    ensures ok { OnOk result (AddsEvents flags.directed built.old built.new
        (merged_unless flags.multi flags.directed
        (wanted flags.self_loops (events_of_copies graph.now copies.now flags.directed v)))) }
    ensures memory { IsOkUnless result Panic.NoRoom }
{
    rooms.take_arcs(graph, copies, flags.directed, v)?;
    let arcs = rooms.arcs.as_slice();
    let part_flags = flags_for(arcs, flags);
    for u in copies.start(v)..copies.end(v) {
        add_copy(
            built,
            alloc,
            &mut rooms.events,
            copies,
            arcs,
            part_flags,
            v,
            u,
        )?;
    }
    Ok(())
}

// The same flags, but with parallel arcs where no two of these few arcs lead to one vertex: then there are none to be merged.
fn flags_for(arcs: &[Link], flags: Flags) -> Flags
    ensures self_loops { result.self_loops ≡ flags.self_loops }
    ensures multi { result.multi ≡ (flags.multi || are_few_apart arcs.now) }
    ensures directed { result.directed ≡ flags.directed }
{
    Flags {
        multi: flags.multi || are_few_apart(arcs),
        ..flags
    }
}

// Adds the events from copy `u` of vertex `v` for these arcs from `v`, merged by themselves. Where none are to be merged they are
// added one after another, with no list of them. What `events` holds then is open.
fn add_copy(
    built: &mut Graph,
    alloc: Global,
    events: &mut Vec<Event>,
    copies: &Copies,
    arcs: &[Link],
    flags: Flags,
    v: u32,
    u: u32,
) -> Result<(), Panic>
    requires copy { u < length built.old.vertices }
    requires tips { All (λ l. l.tip < length copies.now) arcs.now }
    requires numbered { list_any is_unnumbered copies.now ≡ false }
    requires own { merged_count copies.now ≡ 0 }
    requires of { Contains (copies_of copies.now v) u }
    requires size { length built.old.vertices ≡ total_of copies.now }
    requires plain { HasPlainArcs built.old }
    ensures ok { OnOk result (AddsEvents flags.directed built.old built.new
        (merged_unless flags.multi flags.directed
        (wanted flags.self_loops (flat_map (events_of_arc copies.now flags.directed v u)
        arcs.now)))) }
    ensures memory { IsOkUnless result Panic.NoRoom }
{
    if flags.multi {
        return add_from_copy(built, copies, arcs, flags, v, u);
    }
    put_events_from_copy(events, copies, arcs, flags, v, u)?;
    add_part(built, alloc, events, flags)
}

// Puts the events from copy `u` of vertex `v` for these arcs from `v` in the place of those in `events`.
fn put_events_from_copy(
    events: &mut Vec<Event>,
    copies: &Copies,
    arcs: &[Link],
    flags: Flags,
    v: u32,
    u: u32,
) -> Result<(), Panic>
    requires { All (λ l. l.tip < length copies.now) arcs.now }
    ensures ok { OnOk result (events.new.items ≡ wanted flags.self_loops
        (flat_map (events_of_arc copies.now flags.directed v u) arcs.now)) }
    ensures memory { IsOkUnless result Panic.NoRoom }
{
    events.clear();
    push_from_copy(events, copies, arcs, flags, v, u)
}
