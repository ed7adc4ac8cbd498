//! The intersection of two graphs on the vertices of the first (GB_BASIC, intersection).
ghost use Rattle.std.specs.Prelude.{◌≡◌, ◌<◌, ◌++◌, ℕ, All, None, length, OnOk, IfOk, IsOkUnless, if◌then◌else◌, ◌==◌};
ghost use Rattle.sgb_graph.specs.Descriptions.{IsAnswerOf};
ghost use Rattle.sgb_ops.specs.inner.Ends.{AllWithin};
ghost use Rattle.sgb_ops.specs.Intersection.{common_events, intersection_events, intersection_of};
ghost use Rattle.sgb_ops.specs.inner.Tallies.{event_left, one_less, second_length, tally_at, tally_left, without_one};
ghost use Rattle.sgb_ops.specs.inner.Intersection.{HasNoTallies};
ghost use Rattle.sgb_ops.specs.inner.Compounds.{intersection_id};

use crate::compounds::flag_byte;
use crate::events::graph_of;
use crate::sources::{ListRoom, Source};
use crate::tallies::{Tally, count_to, make_room, note, take_out, tally_to};
use sgb_graph::{Graph, Id, Link, double_compound_id};
use sgb_taken::Event;
use sgb_vec::Panic;
use std::alloc::Global;

// Of so many arcs at most those to one tip are searched for one by one: with more, a table is quicker.
const MOST_SEARCHED: usize = 16;

/// The intersection of two graphs (GB_BASIC, intersection): the graph of the names of `first` whose arcs, or edges
/// unless `directed`, are those that both have. Vertex v of the one is vertex v of the other. Of parallel ones there is
/// one, with the greater of the least lengths in the two; with `multi` as many as in the graph that has fewer, each with
/// the greater of its length in `second` and the least one in `first`. They come for each vertex in order, and then in
/// the order of its list in `second`. The id is `intersection(ID1,ID2,multi,directed)`.
///
/// `NoRoom` when out of memory, and nothing else.
pub fn intersection(
    alloc: Global,
    first: &Graph,
    second: &Graph,
    multi: bool,
    directed: bool,
) -> Result<Graph, Panic>
    ensures { IsAnswerOf (intersection_of first.now second.now multi directed) result }
{
    intersection_of(
        alloc,
        &Source::built(first),
        &Source::built(second),
        multi,
        directed,
    )
}

/// The same of graphs that need not be built.
///
/// `NoRoom` when out of memory, and nothing else.
pub fn intersection_of(
    alloc: Global,
    first: &Source<'_>,
    second: &Source<'_>,
    multi: bool,
    directed: bool,
) -> Result<Graph, Panic>
    ensures { IsAnswerOf (intersection_of first.now second.now multi directed) result }
{
    let events = common_arcs(alloc, first, second, multi, directed)?;
    let names = first.names(alloc)?;
    let id = intersection_id(first.id(), second.id(), multi, directed);
    graph_of(alloc, directed, &events, names, id)
}

// The id of the result, made from the operands'.
fn intersection_id(id1: &Id, id2: &Id, multi: bool, directed: bool) -> Id
    ensures { result ≡ intersection_id id1.now id2.now multi directed }
{
    let end = [b',', flag_byte(multi), b',', flag_byte(directed), b')'];
    double_compound_id(b"intersection(", id1, b",", id2, &end)
}

// The events of all vertices that both graphs have.
fn common_arcs(
    alloc: Global,
    first: &Source<'_>,
    second: &Source<'_>,
    multi: bool,
    directed: bool,
) -> Result<Vec<Event>, Panic>
    ensures ok { IfOk result (λ events. events.items
        ≡ intersection_events first.now second.now multi directed) }
    ensures within { IfOk result (λ events. AllWithin (length first.now.vertices) events.items) }
    ensures memory { IsOkUnless result Panic.NoRoom }
{
    let mut events = Vec::new(alloc);
    // The arcs of each vertex take the memory of those of the vertex before.
    let mut ours = Vec::new(alloc);
    let mut theirs = Vec::new(alloc);
    let mut room = Vec::new(alloc);
    let mut first_lists = ListRoom::new(alloc);
    let mut second_lists = ListRoom::new(alloc);
    let mut tables = Tables::new(alloc, first.n().max(second.n()));
    for v in 0..first.n().min(second.n()) {
        first.read_ahead(v);
        second.read_ahead(v);
        first.take_arcs(&mut ours, directed, v, &mut room, &mut first_lists)?;
        second.take_arcs(&mut theirs, directed, v, &mut room, &mut second_lists)?;
        push_common(&mut events, &mut tables, multi, v, &ours, &theirs)?;
    }
    Ok(events)
}

// For each vertex what is left of the arcs of the first graph to it, and what the second one has: nothing but while the
// events of a vertex are found. They take memory for the first vertex with many arcs.
#[derive(Drop)]
struct Tables {
    vertices: usize,
    left: Vec<Option<Tally>>,
    second: Vec<Option<Tally>>,
}

impl Tables {
    // Tables of so many vertices. They take no memory yet.
    fn new(alloc: Global, vertices: u32) -> Tables
        ensures vertices { result.vertices ≡ vertices }
        ensures none { HasNoTallies result }
    {
        Tables {
            vertices: vertices as usize,
            left: Vec::new(alloc),
            second: Vec::new(alloc),
        }
    }
}

// Appends the events of vertex `v`, where these arcs were taken of it in the two graphs.
fn push_common(
    events: &mut Vec<Event>,
    tables: &mut Tables,
    multi: bool,
    v: u32,
    ours: &[Link],
    theirs: &[Link],
) -> Result<(), Panic>
    requires ours { All (λ l. l.tip < tables.old.vertices) ours.now }
    requires theirs { All (λ l. l.tip < tables.old.vertices) theirs.now }
    requires none { HasNoTallies tables.old }
    ensures ok { OnOk result (events.new.items ≡ events.old.items
        ++ common_events multi v ours.now theirs.now) }
    ensures tables { OnOk result (tables.new.vertices ≡ tables.old.vertices) }
    ensures none { OnOk result (HasNoTallies tables.new) }
    ensures memory { IsOkUnless result Panic.NoRoom }
{
    if ours.len() <= MOST_SEARCHED && theirs.len() <= MOST_SEARCHED {
        return push_common_of_few(events, multi, v, ours, theirs);
    }
    push_common_of_many(events, tables, multi, v, ours, theirs)
}

// Appends these events of few arcs: those to the same tip are searched for, arc by arc.
fn push_common_of_few(
    events: &mut Vec<Event>,
    multi: bool,
    v: u32,
    ours: &[Link],
    theirs: &[Link],
) -> Result<(), Panic>
    ensures ok { OnOk result (events.new.items ≡ events.old.items
        ++ common_events multi v ours.now theirs.now) }
    ensures memory { IsOkUnless result Panic.NoRoom }
{
    for k in 0..theirs.len() {
        let arc = theirs[k];
        let met = count_to(&theirs[..k], arc.tip);
        let left = tally_left(multi, met, tally_to(ours, arc.tip));
        let len = second_length(multi, arc, tally_to(theirs, arc.tip));
        push_event_left(events, v, arc.tip, len, left)?;
    }
    Ok(())
}

// Appends these events of any arcs, by a table of tips for each graph.
fn push_common_of_many(
    events: &mut Vec<Event>,
    tables: &mut Tables,
    multi: bool,
    v: u32,
    ours: &[Link],
    theirs: &[Link],
) -> Result<(), Panic>
    requires ours { All (λ l. l.tip < tables.old.vertices) ours.now }
    requires theirs { All (λ l. l.tip < tables.old.vertices) theirs.now }
    requires none { HasNoTallies tables.old }
    ensures ok { OnOk result (events.new.items ≡ events.old.items
        ++ common_events multi v ours.now theirs.now) }
    ensures tables { OnOk result (tables.new.vertices ≡ tables.old.vertices) }
    ensures none { OnOk result (HasNoTallies tables.new) }
    ensures memory { IsOkUnless result Panic.NoRoom }
{
    make_room(&mut tables.left, tables.vertices)?;
    make_room(&mut tables.second, tables.vertices)?;
    push_common_by(
        events,
        &mut tables.left,
        &mut tables.second,
        multi,
        v,
        ours,
        theirs,
    )
}

// Appends them by two tables, which have no tallies before and after.
fn push_common_by(
    events: &mut Vec<Event>,
    left: &mut [Option<Tally>],
    second: &mut [Option<Tally>],
    multi: bool,
    v: u32,
    ours: &[Link],
    theirs: &[Link],
) -> Result<(), Panic>
    requires ours { All (λ l. l.tip < length left.old) ours.now }
    requires theirs { All (λ l. l.tip < length left.old) theirs.now }
    requires same { All (λ l. l.tip < length second.old) theirs.now }
    requires left { (u : ℕ) → tally_at left.old u ≡ None }
    requires second { (u : ℕ) → tally_at second.old u ≡ None }
    ensures ok { OnOk result (events.new.items ≡ events.old.items
        ++ common_events multi v ours.now theirs.now) }
    ensures left { OnOk result ((u : ℕ) → tally_at left.new u ≡ None) }
    ensures second { OnOk result ((u : ℕ) → tally_at second.new u ≡ None) }
    ensures memory { IsOkUnless result Panic.NoRoom }
{
    note(left, ours);
    note(second, theirs);
    for arc in theirs {
        let len = second_length(multi, *arc, second[arc.tip as usize]);
        push_if_left(events, left, multi, v, *arc, len)?;
    }
    take_out(left, ours);
    take_out(second, theirs);
    Ok(())
}

// The length in the second graph that counts for this arc of it; `tally` is that of the arcs to its tip.
fn second_length(multi: bool, arc: Link, tally: Option<Tally>) -> i64
    ensures { result ≡ second_length multi arc.len tally }
{
    if multi {
        return arc.len;
    }
    match tally {
        None => arc.len,
        Some(tally) => tally.least,
    }
}

// Appends the event for an arc of the second graph of this tip and length, where this is left of the arcs of the first to it.
fn push_event_left(
    events: &mut Vec<Event>,
    v: u32,
    tip: u32,
    len: i64,
    left: Option<Tally>,
) -> Result<(), Panic>
    ensures ok { OnOk result (events.new.items ≡ events.old.items ++ event_left v tip len left) }
    ensures memory { IsOkUnless result Panic.NoRoom }
{
    let Some(tally) = left else {
        return Ok(());
    };
    if tally.count == 0 {
        return Ok(());
    }
    events.push(Event::new(v, tip, tally.least.max(len)))?;
    Ok(())
}

// What is left of this tally when so many arcs to its vertex were met; with none, unless parallel arcs are wanted.
fn tally_left(multi: bool, met: usize, tally: Option<Tally>) -> Option<Tally>
    ensures { result ≡ tally_left multi met tally }
{
    let tally = tally?;
    let count = if multi {
        tally.count.saturating_sub(met)
    } else if met == 0 {
        tally.count
    } else {
        0
    };
    Some(Tally { count, ..tally })
}

// Appends the event for this arc of the second graph, where arcs of the first to its tip are left, and counts that one
// as gone; without `multi` all of them.
fn push_if_left(
    events: &mut Vec<Event>,
    left: &mut [Option<Tally>],
    multi: bool,
    v: u32,
    arc: Link,
    len: i64,
) -> Result<(), Panic>
    requires { arc.tip < length left.old }
    ensures ok { OnOk result (events.new.items ≡ events.old.items
        ++ event_left v arc.tip len (tally_at left.old arc.tip)) }
    ensures left { OnOk result ((u : ℕ) → tally_at left.new u
        ≡ (if arc.tip == u then without_one multi (tally_at left.old u) else tally_at left.old u)) }
    ensures size { OnOk result (length left.new ≡ length left.old) }
    ensures memory { IsOkUnless result Panic.NoRoom }
{
    let Some(tally) = left[arc.tip as usize] else {
        return Ok(());
    };
    if tally.count == 0 {
        return Ok(());
    }
    left[arc.tip as usize] = Some(one_less(multi, tally));
    events.push(Event::new(v, arc.tip, tally.least.max(len)))?;
    Ok(())
}

// The tally with one arc less; with none, unless parallel arcs are wanted.
fn one_less(multi: bool, tally: Tally) -> Tally
    requires { 0 < tally.count }
    ensures { result ≡ one_less multi tally }
{
    Tally {
        count: if multi { tally.count - 1 } else { 0 },
        least: tally.least,
    }
}
