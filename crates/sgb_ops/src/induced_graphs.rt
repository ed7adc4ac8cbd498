//! Induced graphs: vertices dropped, kept, repeated, merged, or with a graph put in their place (GB_BASIC, induced).
ghost use Rattle.std.specs.Prelude.{◌≡◌, ◌≤◌, ◌++◌, Err, true, false, length, map, All, Ok, OnOk, IfErr, IfOk, IsOkUnless};
ghost use Rattle.std.specs.List.{list_any};
ghost use Rattle.sgb_vec.specs.Limits.{most_vertices};
ghost use Rattle.sgb_graph.specs.Descriptions.{IsAnswerOf};
ghost use Rattle.sgb_graph.specs.Growth.{AddsEvents, HasPlainArcs};
ghost use Rattle.sgb_ops.specs.Entries.{accepted_entries, events_within, is_unnumbered, merged_count};
ghost use Rattle.sgb_ops.specs.Induced.{events_between, induced_of};
ghost use Rattle.sgb_ops.specs.Merged.{merged_unless};
ghost use Rattle.sgb_graph.specs.Vertices.{order_of};
ghost use Rattle.sgb_ops.specs.inner.Begun.{IsBegun, IsFinished, later_events};
ghost use Rattle.sgb_ops.specs.inner.Copies.{IsKeptEntry, sized};
ghost use Rattle.sgb_ops.specs.inner.Ends.{AllWithin};
ghost use Rattle.sgb_ops.specs.inner.Entries.{total_of};
ghost use Rattle.sgb_ops.specs.inner.Compounds.{induced_id};
ghost use Rattle.sgb_ops.specs.inner.Induced.{wanted};

// The events from a copy of a vertex, added one after another.
mod added;
// The names of the copies of vertices.
mod copied_names;
// The entries of an induced graph, and where the copies of each vertex are.
mod entries;
// The events of an induced graph.
mod events;
// These events, merged and added part by part.
mod parts;
// What the arcs of a vertex are read with.
mod rooms;
// The entries as they are read.
mod slots;

use crate::compounds::flag_byte;
use crate::events::add_events;
use crate::merged::merged_unless;
use crate::sources::Source;
use copied_names::names_by_entries;
pub use entries::Entry;
use entries::{Copies, accept_entries};
use events::{Flags, events_within, push_events_between};
use parts::{add_events_between, add_events_within, are_in_parts};
use sgb_graph::{Graph, Id, compound_id};
use sgb_taken::Event;
use sgb_vec::Panic;
pub use slots::KeptEntry;
use slots::Slots;
use std::alloc::Global;

/// An induced graph (GB_BASIC, induced): by the entries, one for each vertex of `graph`, each vertex is dropped, kept,
/// repeated, replaced by the vertices of a graph, or merged with others into one vertex. The merged vertices come first, as
/// many as the greatest of their numbers; the others follow in the order of `graph`.
///
/// Merged vertex k is called `-k`. The one copy of a vertex has its name; the second of two has it with `'` (of which at most 4,094 bytes count); three
/// or more have it with `:0`, `:1` and so on (4,084); the vertices of a graph have it with `:` and their own names
/// (2,047 each).
///
/// The arcs, or edges unless `directed`, are first those inside the graphs that are entries, in order. Then for each
/// vertex of `graph`, each copy u of it, each arc of its list and each copy t of the tip, one from u to t of the arc's
/// length; of an undirected loop only where t is not before u. Unless `directed`, of an edge the arc at the smaller end
/// counts. Loops come only with `self_loops`. Of parallel arcs only the first stays, with the least length of them all,
/// unless `multi`. The id is `induced(ID,,self_loops,multi,directed)`.
///
/// `Bad` where the entries are not as many as the vertices of `graph`, or one is `Merged(0)`; else `VeryBad` where they
/// make more than 1,000,000,000 vertices; both whatever memory there is. `NoRoom` when out of memory.
pub fn induced(
    alloc: Global,
    graph: &Graph,
    entries: &[Entry],
    self_loops: bool,
    multi: bool,
    directed: bool,
) -> Result<Graph, Panic>
    ensures answer { IsAnswerOf (induced_of graph.now entries.now self_loops multi directed)
        result }
    ensures refused { (e : Panic)
        → accepted_entries (order_of graph.now) entries.now ≡ Err e → result ≡ Err e }
{
    let flags = Flags {
        self_loops,
        multi,
        directed,
    };
    let source = Source::built(graph);
    let slots = Slots::lent(entries);
    let merged = accept_entries(source.n(), &slots)?;
    let begun = begun_by(alloc, &source, &slots, merged, flags)?;
    finished(alloc, &source, begun, flags)
}

/// Refuses the entries that `induced` refuses of a graph of `n` vertices.
///
/// `Bad` and `VeryBad`, as there.
pub fn check_entries(n: u32, entries: &[Entry]) -> Result<(), Panic>
    ensures ok { OnOk result (accepted_entries n entries.now ≡ Ok entries.now) }
    ensures refused { IfErr result (λ e. accepted_entries n entries.now ≡ Err e) }
{
    match accept_entries(n, &Slots::lent(entries)) {
        Ok(_merged) => Ok(()),
        Err(panic) => Err(panic),
    }
}

/// The graph that `induced` gives, of small entries that are given up: the graphs that they put in are dropped as soon as
/// their names and the events inside them are taken. It has the errors of `induced`.
pub fn induced_from(
    alloc: Global,
    graph: &Graph,
    entries: Vec<KeptEntry>,
    self_loops: bool,
    multi: bool,
    directed: bool,
) -> Result<Graph, Panic>
    ensures answer { IsAnswerOf (induced_of graph.now entries.items self_loops multi directed)
        result }
    ensures refused { (e : Panic)
        → accepted_entries (order_of graph.now) entries.items ≡ Err e → result ≡ Err e }
{
    induced_of(
        alloc,
        &Source::built(graph),
        entries,
        self_loops,
        multi,
        directed,
    )
}

/// The same of a graph that need not be built.
///
/// It has the errors of `induced`.
pub fn induced_of(
    alloc: Global,
    graph: &Source<'_>,
    entries: Vec<KeptEntry>,
    self_loops: bool,
    multi: bool,
    directed: bool,
) -> Result<Graph, Panic>
    ensures answer { IsAnswerOf (induced_of graph.now entries.items self_loops multi directed)
        result }
    ensures refused { (e : Panic)
        → accepted_entries (order_of graph.now) entries.items ≡ Err e → result ≡ Err e }
{
    let flags = Flags {
        self_loops,
        multi,
        directed,
    };
    let slots = Slots::kept(&entries);
    let merged = accept_entries(graph.n(), &slots)?;
    let begun = begun_by(alloc, graph, &slots, merged, flags)?;
    drop(entries);
    finished(alloc, graph, begun, flags)
}

// An induced graph under way: its vertices are there, and the events inside the graphs that are put in. These are in the
// graph already, where they share no ends with others, or they are kept.
#[derive(Drop)]
struct Begun {
    built: Graph,
    copies: Copies,
    in_parts: bool,
    kept: Vec<Event>,
}

// The graph that is induced by these entries, which are accepted and make so many merged vertices, as far as the entries
// themselves are needed.
fn begun_by(
    alloc: Global,
    graph: &Source<'_>,
    entries: &Slots<'_>,
    merged: u32,
    flags: Flags,
) -> Result<Begun, Panic>
    requires count { length entries.now ≡ order_of graph.now }
    requires merged { merged ≡ merged_count entries.now }
    requires numbered { list_any is_unnumbered entries.now ≡ false }
    requires few { total_of entries.now ≤ most_vertices }
    requires kept { All IsKeptEntry entries.now }
    ensures ok { IfOk result (λ b. IsBegun graph.now entries.now flags.self_loops flags.multi
        flags.directed b.copies b.in_parts b.kept.items b.built) }
    ensures memory { IsOkUnless result Panic.NoRoom }
{
    let copies = Copies::new(alloc, graph.n(), entries, merged)?;
    let names = names_by_entries(alloc, graph, entries, merged)?;
    let built = Graph::new(alloc, names)?;
    if are_in_parts(alloc, graph, entries, merged, flags.directed)? {
        return begun_in_parts(alloc, graph.n(), entries, copies, built, flags);
    }
    let kept = events_within(alloc, graph.n(), entries, &copies, flags)?;
    Ok(Begun {
        built,
        copies,
        in_parts: false,
        kept,
    })
}

// What is begun by entries whose parts have no ends in common: the events inside the graphs that are put in are added.
fn begun_in_parts(
    alloc: Global,
    n: u32,
    entries: &Slots<'_>,
    copies: Copies,
    mut built: Graph,
    flags: Flags,
) -> Result<Begun, Panic>
    requires count { length entries.now ≡ n }
    requires copies { copies ≡ map sized entries.now }
    requires few { total_of entries.now ≤ most_vertices }
    requires kept { All IsKeptEntry entries.now }
    requires size { length built.vertices ≡ total_of entries.now }
    requires plain { HasPlainArcs built }
    ensures copies { IfOk result (λ b. b.copies ≡ map sized entries.now) }
    ensures parts { IfOk result (λ b. b.in_parts ≡ true) }
    ensures ok { IfOk result (λ b. AddsEvents flags.directed built b.built
        (merged_unless flags.multi flags.directed
        (wanted flags.self_loops (events_within entries.now flags.directed)))) }
    ensures memory { IsOkUnless result Panic.NoRoom }
{
    add_events_within(&mut built, alloc, n, entries, &copies, flags)?;
    Ok(Begun {
        built,
        copies,
        in_parts: true,
        kept: Vec::new(alloc),
    })
}

// The graph under way with the events that are still to come, and with its id.
fn finished(alloc: Global, graph: &Source<'_>, begun: Begun, flags: Flags) -> Result<Graph, Panic>
    requires count { length begun.copies ≡ length graph.now.vertices }
    requires numbered { list_any is_unnumbered begun.copies ≡ false }
    requires parts { begun.in_parts ≡ true → merged_count begun.copies ≡ 0 }
    requires size { length begun.built.vertices ≡ total_of begun.copies }
    requires plain { HasPlainArcs begun.built }
    requires within { begun.in_parts ≡ false
        → AllWithin (total_of begun.copies) begun.kept.items }
    ensures ok { IfOk result (λ done. IsFinished graph.now flags.self_loops flags.multi
        flags.directed begun.copies begun.in_parts begun.kept.items begun.built done) }
    ensures memory { IsOkUnless result Panic.NoRoom }
{
    let Begun {
        mut built,
        copies,
        in_parts,
        kept,
    } = begun;
    add_later(&mut built, alloc, graph, &copies, in_parts, kept, flags)?;
    built.set_id(induced_id(graph.id(), flags));
    Ok(built)
}

// Adds the events between copies: part by part, or merged with those that are kept.
fn add_later(
    built: &mut Graph,
    alloc: Global,
    graph: &Source<'_>,
    copies: &Copies,
    in_parts: bool,
    kept: Vec<Event>,
    flags: Flags,
) -> Result<(), Panic>
    requires count { length copies.now ≡ length graph.now.vertices }
    requires numbered { list_any is_unnumbered copies.now ≡ false }
    requires parts { in_parts ≡ true → merged_count copies.now ≡ 0 }
    requires size { length built.old.vertices ≡ total_of copies.now }
    requires plain { HasPlainArcs built.old }
    requires within { in_parts ≡ false → AllWithin (total_of copies.now) kept.items }
    ensures ok { OnOk result (AddsEvents flags.directed built.old built.new
        (later_events in_parts flags.multi flags.directed kept.items
        (wanted flags.self_loops (events_between graph.now copies.now flags.directed)))) }
    ensures memory { IsOkUnless result Panic.NoRoom }
{
    if in_parts {
        return add_events_between(built, alloc, graph, copies, flags);
    }
    add_merged(built, alloc, graph, copies, kept, flags)
}

// Adds them, merged all at once with those that are kept.
fn add_merged(
    built: &mut Graph,
    alloc: Global,
    graph: &Source<'_>,
    copies: &Copies,
    kept: Vec<Event>,
    flags: Flags,
) -> Result<(), Panic>
    requires count { length copies.now ≡ length graph.now.vertices }
    requires numbered { list_any is_unnumbered copies.now ≡ false }
    requires size { length built.old.vertices ≡ total_of copies.now }
    requires plain { HasPlainArcs built.old }
    requires within { AllWithin (total_of copies.now) kept.items }
    ensures ok { OnOk result (AddsEvents flags.directed built.old built.new
        (merged_unless flags.multi flags.directed (kept.items
        ++ wanted flags.self_loops (events_between graph.now copies.now flags.directed)))) }
    ensures memory { IsOkUnless result Panic.NoRoom }
{
    let mut all = kept;
    push_events_between(alloc, &mut all, graph, copies, flags)?;
    let events = merged_unless(alloc, flags.multi, flags.directed, all)?;
    add_events(built, flags.directed, &events)
}

// The id of the result, made from the operand's; the entries are not in it.
fn induced_id(id: &Id, flags: Flags) -> Id
    ensures { result ≡ induced_id id.now flags.self_loops flags.multi flags.directed }
{
    let end = [
        b',',
        b',',
        flag_byte(flags.self_loops),
        b',',
        flag_byte(flags.multi),
        b',',
        flag_byte(flags.directed),
        b')',
    ];
    compound_id(b"induced(", id, &end)
}
