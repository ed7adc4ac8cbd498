//! The graphs that an operation reads, list by list.
//!
//! That of a generator need not be built: the arcs of each list are handed out.
ghost use Rattle.std.specs.Prelude.{◌≡◌, ◌<◌, ◌≤◌, ◌++◌, [], ◌∷◌, length, map, filter, nat_lt, if◌then◌else◌, All, OnOk, IfOk, IsOkUnless};
ghost use Rattle.sgb_vec.specs.Limits.{most_vertices};
ghost use Rattle.sgb_graph.specs.Graphs.{chain_of};
ghost use Rattle.sgb_graph.specs.Made.{graph_described};
ghost use Rattle.sgb_graph.specs.Vertices.{names_of};
ghost use Rattle.sgb_gen.specs.Generators.{described};
ghost use Rattle.sgb_taken.specs.Taken.{taken};
ghost use Rattle.sgb_ops.specs.inner.Ends.{event_of};
ghost use Rattle.sgb_taken.specs.inner.Ends.{link_of};
ghost use Rattle.sgb_ops.specs.inner.Sources.{HasTips, bare, names_held};

// Those of any generator's graph.
mod listed;

use crate::operands::{VertexNames, names_of};
pub(crate) use listed::ListRoom;
use listed::{push_listed, put_listed};
use sgb_gen::LocalLists;
use sgb_graph::{Graph, Id, Link, Names};
use sgb_taken::{Event, taken};
use sgb_vec::Panic;
use std::alloc::Global;
use std::marker::Model;

/// A graph that an operation reads. Contracts see the graph.
#[derive(Drop)]
pub struct Source<'a> {
    kept: SourceKind<'a>,
    // So many arcs are on its lists at most where that is known, and else 0. It is told for room alone.
    most_arcs: usize,
}

// How it is kept.
#[derive(Drop)]
enum SourceKind<'a> {
    // It is built.
    Built(&'a Graph),
    // It is a generator's, and not built.
    Listed(&'a LocalLists<'a>),
}

impl<'a> Model for Source<'a> {
    ghost use Rattle.sgb_graph.specs.Graphs.{GraphData};
    ghost use Rattle.sgb_ops.specs.inner.Sources.{graph_kept};

    ghost Value = { GraphData };

    ghost view = { λ s. graph_kept s.kept };
}

impl<'a> Source<'a> {
    /// A graph that is built.
    pub fn built(graph: &'a Graph) -> Source<'a>
        ensures { result ≡ graph.now }
    {
        Source {
            kept: SourceKind::Built(graph),
            most_arcs: graph.records_len(),
        }
    }

    /// The graph of a generator that is not built.
    pub fn listed(lists: &'a LocalLists<'a>) -> Source<'a>
        ensures { result ≡ graph_described (described lists.now) }
    {
        Source {
            kept: SourceKind::Listed(lists),
            most_arcs: 0,
        }
    }

    /// The same graph, where the caller knows that so many arcs are on its lists at most. It is told for room alone.
    pub fn with_most_arcs(self, most_arcs: usize) -> Source<'a>
        ensures { result ≡ self.entry }
    {
        Source {
            kept: self.kept,
            most_arcs,
        }
    }

    /// How many vertices it has. All arcs lead to these.
    pub(crate) fn n(&self) -> u32
        ensures count { result ≡ length self.now.vertices }
        ensures tips { HasTips self.now }
    {
        match &self.kept {
            SourceKind::Built(graph) => graph.n(),
            SourceKind::Listed(lists) => lists.size(),
        }
    }

    /// Its id.
    pub(crate) fn id(&self) -> &Id
        ensures { result.now ≡ self.now.id }
    {
        match &self.kept {
            SourceKind::Built(graph) => graph.id(),
            SourceKind::Listed(lists) => lists.id(),
        }
    }

    /// Copies of the names of its vertices, in order.
    ///
    /// `NoRoom` when out of memory, and nothing else.
    pub(crate) fn names(&self, alloc: Global) -> Result<Names, Panic>
        ensures ok { IfOk result (λ names. names ≡ names_of self.now) }
        ensures few { length (names_of self.now) ≤ most_vertices }
        ensures memory { IsOkUnless result Panic.NoRoom }
    {
        match &self.kept {
            SourceKind::Built(graph) => names_of(alloc, graph),
            SourceKind::Listed(lists) => lists.names(alloc),
        }
    }

    /// The names of its vertices for who reads them, which are made where it is not built.
    ///
    /// `NoRoom` when out of memory, and nothing else.
    pub(crate) fn vertex_names(&self, alloc: Global) -> Result<VertexNames<'_>, Panic>
        ensures ok { IfOk result (λ names. names_held names ≡ names_of self.now) }
        ensures memory { IsOkUnless result Panic.NoRoom }
    {
        if let SourceKind::Built(graph) = &self.kept {
            return Ok(VertexNames::Of(graph));
        }
        let names = self.names(alloc)?;
        Ok(VertexNames::Made(names))
    }

    /// So many arcs are on its lists at most where that is known, and else 0: it is told for room alone.
    pub(crate) fn most_arcs(&self) -> usize {
        self.most_arcs
    }

    /// A hint for who reads the lists of all vertices in order, at each vertex before its list. It changes nothing.
    pub(crate) fn read_ahead(&self, v: u32) {
        match &self.kept {
            SourceKind::Built(graph) => graph.read_ahead(v),
            _ => {}
        }
    }

    /// Appends the events of the arcs taken of vertex `v` whose tip is below `n`. `room` is what they are found with.
    ///
    /// `NoRoom` when out of memory, and nothing else.
    pub(crate) fn push_taken(
        &self,
        events: &mut Vec<Event>,
        directed: bool,
        v: u32,
        n: u32,
        room: &mut ListRoom,
    ) -> Result<(), Panic>
        requires vertex { v < length self.now.vertices }
        ensures ok { OnOk result (events.new.items ≡ events.old.items
            ++ map (event_of v) (filter (λ l. nat_lt l.tip n) (taken directed self.now v))) }
        ensures memory { IsOkUnless result Panic.NoRoom }
    {
        match &self.kept {
            SourceKind::Built(graph) => push_taken(events, graph, directed, v, n),
            SourceKind::Listed(lists) => push_listed(events, lists, directed, v, n, room),
        }
    }

    /// Makes `events` those of the arcs taken of vertex `v`, all of which lead to vertices. `room` is what they are found with.
    ///
    /// `NoRoom` when out of memory, and nothing else.
    pub(crate) fn put_taken(
        &self,
        events: &mut Vec<Event>,
        directed: bool,
        v: u32,
        room: &mut ListRoom,
    ) -> Result<(), Panic>
        requires vertex { v < length self.now.vertices }
        ensures ok { OnOk result (events.new.items ≡ map (event_of v) (taken directed self.now v)) }
        ensures tips { HasTips self.now }
        ensures memory { IsOkUnless result Panic.NoRoom }
    {
        events.clear();
        self.push_taken(events, directed, v, self.n(), room)
    }

    /// Makes `arcs` those that are taken of vertex `v`, as far as their tips and lengths go. `events` and `room` are what they
    /// are found with: what the events are is open.
    ///
    /// `NoRoom` when out of memory, and nothing else.
    pub(crate) fn take_arcs(
        &self,
        arcs: &mut Vec<Link>,
        directed: bool,
        v: u32,
        events: &mut Vec<Event>,
        room: &mut ListRoom,
    ) -> Result<(), Panic>
        requires vertex { v < length self.now.vertices }
        ensures ok { OnOk result (map bare arcs.new.items ≡ map bare (taken directed self.now v)) }
        ensures tips { OnOk result (All (λ l. l.tip < length self.now.vertices) arcs.new.items) }
        ensures memory { IsOkUnless result Panic.NoRoom }
    {
        arcs.clear();
        match &self.kept {
            SourceKind::Built(graph) => push_links(arcs, graph, directed, v),
            SourceKind::Listed(lists) => {
                put_listed(events, lists, directed, v, room)?;
                push_links_of(arcs, events)?;
                Ok(())
            }
        }
    }

    /// Makes `arcs` the whole list of vertex `v`, as `take_arcs` does: of a graph that is built with no call.
    ///
    /// `NoRoom` when out of memory, and nothing else.
    #[inline(always)]
    pub(crate) fn take_list(
        &self,
        arcs: &mut Vec<Link>,
        v: u32,
        events: &mut Vec<Event>,
        room: &mut ListRoom,
    ) -> Result<(), Panic>
        requires vertex { v < length self.now.vertices }
        ensures ok { OnOk result (map bare arcs.new.items ≡ map bare (chain_of self.now v)) }
        ensures tips { OnOk result (All (λ l. l.tip < length self.now.vertices) arcs.new.items) }
        ensures memory { IsOkUnless result Panic.NoRoom }
    {
        if let SourceKind::Built(graph) = &self.kept {
            return put_list(arcs, graph, v);
        }
        self.take_arcs(arcs, true, v, events, room)
    }

    /// Makes `tips` the vertices that the list of vertex `v` leads to, in its order. `events` and `room` are what they are
    /// found with: what the events are is open.
    ///
    /// `NoRoom` when out of memory, and nothing else.
    pub(crate) fn take_tips(
        &self,
        tips: &mut Vec<u32>,
        v: u32,
        events: &mut Vec<Event>,
        room: &mut ListRoom,
    ) -> Result<(), Panic>
        requires vertex { v < length self.now.vertices }
        ensures ok { OnOk result (tips.new.items ≡ map (λ l. l.tip) (chain_of self.now v)) }
        ensures memory { IsOkUnless result Panic.NoRoom }
    {
        tips.clear();
        match &self.kept {
            SourceKind::Built(graph) => push_tips(tips, graph, v),
            SourceKind::Listed(lists) => {
                put_listed(events, lists, true, v, room)?;
                push_tips_of(tips, events)?;
                Ok(())
            }
        }
    }
}

// Appends the vertices that the list of `v` in `graph` leads to.
fn push_tips(tips: &mut Vec<u32>, graph: &Graph, v: u32) -> Result<(), Panic>
    requires { v < length graph.now.vertices }
    ensures ok { OnOk result (tips.new.items
        ≡ tips.old.items ++ map (λ l. l.tip) (chain_of graph.now v)) }
    ensures memory { IsOkUnless result Panic.NoRoom }
{
    for link in graph.arcs(v) {
        tips.push(link.tip)?;
    }
    Ok(())
}

// Appends the vertices where these events end.
fn push_tips_of(tips: &mut Vec<u32>, events: &[Event]) -> Result<(), Panic>
    ensures ok { OnOk result (tips.new.items ≡ tips.old.items ++ map (λ e. e.to) events.now) }
    ensures memory { IsOkUnless result Panic.NoRoom }
{
    for event in events {
        tips.push(event.link().tip)?;
    }
    Ok(())
}

// Appends the arcs taken of `v` in `graph`.
fn push_links(arcs: &mut Vec<Link>, graph: &Graph, directed: bool, v: u32) -> Result<(), Panic>
    requires { v < length graph.now.vertices }
    ensures ok { OnOk result (arcs.new.items ≡ arcs.old.items ++ taken directed graph.now v) }
    ensures tips { All (λ l. l.tip < length graph.now.vertices) (taken directed graph.now v) }
    ensures memory { IsOkUnless result Panic.NoRoom }
{
    for link in taken(graph, directed, v) {
        arcs.push(link)?;
    }
    Ok(())
}

// Makes `arcs` the whole list of `v` in `graph`.
#[inline(always)]
fn put_list(arcs: &mut Vec<Link>, graph: &Graph, v: u32) -> Result<(), Panic>
    requires { v < length graph.now.vertices }
    ensures ok { OnOk result (arcs.new.items ≡ chain_of graph.now v) }
    ensures tips { All (λ l. l.tip < length graph.now.vertices) (chain_of graph.now v) }
    ensures memory { IsOkUnless result Panic.NoRoom }
{
    arcs.clear();
    for link in graph.arcs(v) {
        arcs.push(link)?;
    }
    Ok(())
}

// Appends the arcs of these events, as far as tips and lengths go.
fn push_links_of(arcs: &mut Vec<Link>, events: &[Event]) -> Result<(), Panic>
    ensures ok { OnOk result (arcs.new.items ≡ arcs.old.items ++ map link_of events.now) }
    ensures memory { IsOkUnless result Panic.NoRoom }
{
    for event in events {
        arcs.push(event.link())?;
    }
    Ok(())
}

// Appends the events of the arcs taken of `v` in `graph` whose tip is below `n`.
fn push_taken(
    events: &mut Vec<Event>,
    graph: &Graph,
    directed: bool,
    v: u32,
    n: u32,
) -> Result<(), Panic>
    requires vertex { v < length graph.now.vertices }
    ensures ok { OnOk result (events.new.items ≡ events.old.items
        ++ map (event_of v) (filter (λ l. nat_lt l.tip n) (taken directed graph.now v))) }
    ensures memory { IsOkUnless result Panic.NoRoom }
{
    for link in taken(graph, directed, v) {
        push_arc(events, v, link, n)?;
    }
    Ok(())
}

// Appends the event of this arc of `v`, where its tip is below `n`.
fn push_arc(events: &mut Vec<Event>, v: u32, link: Link, n: u32) -> Result<(), Panic>
    ensures ok { OnOk result (events.new.items ≡ events.old.items
        ++ (if nat_lt link.tip n then event_of v link ∷ [] else [])) }
    ensures memory { IsOkUnless result Panic.NoRoom }
{
    if link.tip < n {
        events.push(Event::new(v, link.tip, link.len))?;
    }
    Ok(())
}
