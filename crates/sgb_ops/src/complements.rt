//! The complement of a graph, or a copy of it without parallel arcs (GB_BASIC, complement).
ghost use Rattle.std.specs.Prelude.{◌≡◌, ◌<◌, ◌+◌, ◌==◌, [], ◌∷◌, ℕ, true, pos, length, slice_index, All, OnOk, IsOkUnless, if◌then◌else◌};
ghost use Rattle.std.specs.List.{list_any};
ghost use Rattle.sgb_graph.specs.Descriptions.{IsAnswerOf};
ghost use Rattle.sgb_graph.specs.Growth.{AddsEvents, HasPlainArcs};
ghost use Rattle.sgb_ops.specs.Complement.{complement_events, complement_of};
ghost use Rattle.sgb_ops.specs.inner.Complement.{AreFrom, complement_events_from, events_to, is_wanted_where, has_arc};
ghost use Rattle.sgb_ops.specs.inner.Compounds.{complement_id};
ghost use Rattle.sgb_ops.specs.inner.Sources.{HasTips};

use crate::compounds::flag_byte;
use crate::sources::{ListRoom, Source};
use sgb_graph::{Graph, Id, compound_id};
use sgb_taken::Event;
use sgb_vec::Panic;
use std::alloc::Global;

/// The complement of a graph, or a copy of it without parallel arcs (GB_BASIC, complement): the graph of the same
/// names whose arcs, or edges unless `directed`, all of length 1, lead from vertex u to vertex w where `graph` has no
/// arc from u to w, or with `copy` where it has one. A loop comes with `self_loops` only, an edge from its smaller end
/// only. They come for each u in order, and then for each w in order. The id is `complement(ID,copy,self_loops,directed)`.
/// A copy takes steps by the arcs of `graph`, all else by the pairs of its vertices.
///
/// `NoRoom` when out of memory, and nothing else.
pub fn complement(
    alloc: Global,
    graph: &Graph,
    copy: bool,
    self_loops: bool,
    directed: bool,
) -> Result<Graph, Panic>
    ensures { IsAnswerOf (complement_of graph.now copy self_loops directed) result }
{
    complement_of(alloc, &Source::built(graph), copy, self_loops, directed)
}

/// The same of a graph that need not be built.
///
/// `NoRoom` when out of memory, and nothing else.
pub fn complement_of(
    alloc: Global,
    graph: &Source<'_>,
    copy: bool,
    self_loops: bool,
    directed: bool,
) -> Result<Graph, Panic>
    ensures { IsAnswerOf (complement_of graph.now copy self_loops directed) result }
{
    let wanted = Wanted {
        copy,
        self_loops,
        directed,
    };
    let names = graph.names(alloc)?;
    let mut built = Graph::new(alloc, names)?;
    wanted.add_arcs(alloc, graph, &mut built)?;
    built.set_id(wanted.id(graph.id()));
    Ok(built)
}

// Which arcs a complement has.
#[derive(Clone, Copy)]
struct Wanted {
    copy: bool,
    self_loops: bool,
    directed: bool,
}

impl Wanted {
    // The id of the result, made from the operand's.
    fn id(self, id: &Id) -> Id
        ensures { result ≡ complement_id id.now self.copy self.self_loops self.directed }
    {
        let end = [
            b',',
            flag_byte(self.copy),
            b',',
            flag_byte(self.self_loops),
            b',',
            flag_byte(self.directed),
            b')',
        ];
        compound_id(b"complement(", id, &end)
    }

    // Adds the arcs of the result: for each vertex of `graph` in order those from it.
    fn add_arcs(self, alloc: Global, graph: &Source<'_>, built: &mut Graph) -> Result<(), Panic>
        requires vertices { length built.old.vertices ≡ length graph.now.vertices }
        requires plain { HasPlainArcs built.old }
        ensures ok { OnOk result (AddsEvents self.directed built.old built.new
            (complement_events graph.now self.copy self.self_loops self.directed)) }
        ensures memory { IsOkUnless result Panic.NoRoom }
    {
        if self.copy {
            return self.add_copied_arcs(alloc, graph, built);
        }
        // For each vertex w the last u + 1 so far where u has an arc to w, or 0.
        let mut marks = vec![in alloc; 0; graph.n() as usize]?;
        // The tips of each vertex take the memory of those of the vertex before.
        let mut tips = Vec::new(alloc);
        let mut room = Vec::new(alloc);
        let mut lists = ListRoom::new(alloc);
        for u in 0..graph.n() {
            graph.read_ahead(u);
            mark_arcs(
                &mut marks,
                graph,
                u,
                u + 1,
                &mut tips,
                &mut room,
                &mut lists,
            )?;
            self.add_arcs_from(graph, u, &marks, built)?;
        }
        Ok(())
    }

    // Adds those of a copy, in steps of the arcs of `graph` and not of its pairs of vertices.
    fn add_copied_arcs(
        self,
        alloc: Global,
        graph: &Source<'_>,
        built: &mut Graph,
    ) -> Result<(), Panic>
        requires copy { self.copy ≡ true }
        requires vertices { length built.old.vertices ≡ length graph.now.vertices }
        requires plain { HasPlainArcs built.old }
        ensures ok { OnOk result (AddsEvents self.directed built.old built.new
            (complement_events graph.now self.copy self.self_loops self.directed)) }
        ensures memory { IsOkUnless result Panic.NoRoom }
    {
        // The tips of each vertex take the memory of those of the vertex before.
        let mut tips = Vec::new(alloc);
        let mut room = Vec::new(alloc);
        let mut lists = ListRoom::new(alloc);
        for u in 0..graph.n() {
            graph.read_ahead(u);
            put_tips(&mut tips, graph, u, &mut room, &mut lists)?;
            self.add_arcs_to(u, tips.as_slice(), built)?;
        }
        Ok(())
    }

    // Adds the arcs of a copy from vertex `u` to these vertices, to each of which `graph` has one.
    fn add_arcs_to(self, u: u32, tips: &[u32], built: &mut Graph) -> Result<(), Panic>
        requires from { u < length built.old.vertices }
        requires to { All (λ w. w < length built.old.vertices) tips.now }
        requires plain { HasPlainArcs built.old }
        ensures ok { OnOk result (AddsEvents self.directed built.old built.new
            (events_to self.copy self.self_loops self.directed u tips.now)) }
        ensures memory { IsOkUnless result Panic.NoRoom }
    {
        for tip in tips {
            self.add_arc(built, u, *tip, true)?;
        }
        Ok(())
    }

    // Adds the arcs from vertex `u`, in order. `marks` has `u + 1` where `u` has an arc in `graph`.
    fn add_arcs_from(
        self,
        graph: &Source<'_>,
        u: u32,
        marks: &[u32],
        built: &mut Graph,
    ) -> Result<(), Panic>
        requires vertex { u < length graph.now.vertices }
        requires vertices { length built.old.vertices ≡ length graph.now.vertices }
        requires plain { HasPlainArcs built.old }
        requires marks { length marks.now ≡ length graph.now.vertices }
        requires marked { (w : ℕ) → w < length graph.now.vertices
            → (slice_index marks.now w == u + 1) ≡ has_arc graph.now u w }
        ensures ok { OnOk result (AddsEvents self.directed built.old built.new
            (complement_events_from graph.now self.copy self.self_loops self.directed u)) }
        ensures memory { IsOkUnless result Panic.NoRoom }
    {
        for w in 0..graph.n() {
            self.add_arc(built, u, w, marks[w as usize] == u + 1)?;
        }
        Ok(())
    }

    // Adds the arc from `u` to `w` where it is wanted; `has_arc` tells whether the operand has one.
    #[inline(always)]
    fn add_arc(self, built: &mut Graph, u: u32, w: u32, has_arc: bool) -> Result<(), Panic>
        requires from { u < length built.old.vertices }
        requires to { w < length built.old.vertices }
        requires plain { HasPlainArcs built.old }
        ensures ok { OnOk result (AddsEvents self.directed built.old built.new
            (if is_wanted_where has_arc self.copy self.self_loops self.directed u w then record
            { from = u; to = w; len = pos 1 } ∷ [] else [])) }
        ensures memory { IsOkUnless result Panic.NoRoom }
    {
        if self.has(u, w, has_arc) {
            return built.add_event(self.directed, u, w, 1);
        }
        Ok(())
    }

    // Whether the result has an arc from `u` to `w`.
    fn has(self, u: u32, w: u32, has_arc: bool) -> bool
        ensures { result ≡ is_wanted_where has_arc self.copy self.self_loops self.directed u w }
    {
        has_arc == self.copy && (self.self_loops || w != u) && (self.directed || u <= w)
    }
}

// Puts `mark` at each vertex that the list of `u` leads to. `tips`, `room` and `lists` are what these are found with.
fn mark_arcs(
    marks: &mut [u32],
    graph: &Source<'_>,
    u: u32,
    mark: u32,
    tips: &mut Vec<u32>,
    room: &mut Vec<Event>,
    lists: &mut ListRoom,
) -> Result<(), Panic>
    requires vertex { u < length graph.now.vertices }
    requires tips { HasTips graph.now }
    requires marks { length marks.old ≡ length graph.now.vertices }
    ensures ok { OnOk result ((w : ℕ) → w < length graph.now.vertices → slice_index marks.new w
        ≡ (if has_arc graph.now u w then mark else slice_index marks.old w)) }
    ensures memory { IsOkUnless result Panic.NoRoom }
{
    graph.take_tips(tips, u, room, lists)?;
    mark_tips(marks, tips, mark);
    Ok(())
}

// Puts `mark` at each of these vertices.
fn mark_tips(marks: &mut [u32], tips: &[u32], mark: u32)
    requires { All (λ t. t < length marks.old) tips.now }
    ensures { (w : ℕ) → w < length marks.old → slice_index marks.new w
        ≡ (if list_any (λ t. t == w) tips.now then mark else slice_index marks.old w) }
{
    for tip in tips {
        marks[*tip as usize] = mark;
    }
}

// Puts the vertices that the list of `u` leads to into `tips`, in order and each once. `room` and `lists` are what they are
// found with.
fn put_tips(
    tips: &mut Vec<u32>,
    graph: &Source<'_>,
    u: u32,
    room: &mut Vec<Event>,
    lists: &mut ListRoom,
) -> Result<(), Panic>
    requires vertex { u < length graph.now.vertices }
    requires tips { HasTips graph.now }
    ensures rise { OnOk result (AreFrom 0 tips.new.items) }
    ensures arcs { OnOk result ((w : ℕ) → list_any (λ t. t == w) tips.new.items
        ≡ has_arc graph.now u w) }
    ensures within { OnOk result (All (λ t. t < length graph.now.vertices) tips.new.items) }
    ensures memory { IsOkUnless result Panic.NoRoom }
{
    graph.take_tips(tips, u, room, lists)?;
    put_in_order(tips);
    Ok(())
}

// Puts numbers in order, each once.
fn put_in_order(tips: &mut Vec<u32>)
    ensures rise { AreFrom 0 tips.new.items }
    ensures same { (w : ℕ) → list_any (λ t. t == w) tips.new.items
        ≡ list_any (λ t. t == w) tips.old.items }
{
    tips.sort_unstable();
    tips.dedup();
}
