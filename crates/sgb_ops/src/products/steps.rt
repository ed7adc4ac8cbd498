//! The steps of a product, by the lists of its operands (GB_BASIC, product).
ghost use Rattle.std.specs.Prelude.{◌≡◌, ◌<◌, ◌≤◌, ◌*◌, map, All, OnOk, IsOkUnless};
ghost use Rattle.std.specs.Int.{int_min};
ghost use Rattle.std.specs.List.{range_with_len};
ghost use Rattle.sgb_vec.specs.Limits.{most_vertices};
ghost use Rattle.sgb_graph.specs.Graphs.{chain_of};
ghost use Rattle.sgb_graph.specs.Growth.{AddsEvents};
ghost use Rattle.sgb_graph.specs.Vertices.{order_of};
ghost use Rattle.sgb_ops.specs.Product.{both_steps, single_steps};
ghost use Rattle.sgb_taken.specs.Taken.{taken};
ghost use Rattle.sgb_ops.specs.inner.Pairs.{HasRoomForPairs};
ghost use Rattle.sgb_ops.specs.inner.Sources.{bare};
ghost use Rattle.sgb_ops.specs.inner.Steps.{both_step, both_steps_by, both_steps_of_row, place_along, step_along, steps_along, steps_by};

use crate::sources::{ListRoom, Source};
use sgb_graph::{Graph, Link};
use sgb_taken::Event;
use sgb_vec::Panic;
use std::alloc::Global;

// The arcs taken of one vertex after another, and what they are found with. Those of each vertex take the memory of those
// of the vertex before.
#[derive(Drop)]
struct Row {
    arcs: Vec<Link>,
    events: Vec<Event>,
    lists: ListRoom,
}

impl Row {
    // No arcs. It takes no memory yet.
    fn new(alloc: Global) -> Row {
        Row {
            arcs: Vec::new(alloc),
            events: Vec::new(alloc),
            lists: ListRoom::new(alloc),
        }
    }

    // Makes them those of vertex `v`, as far as their tips and lengths go.
    fn take(&mut self, graph: &Source<'_>, directed: bool, v: u32) -> Result<(), Panic>
        requires vertex { v < order_of graph.now }
        ensures ok { OnOk result (map bare self.new.arcs.items ≡ map bare (taken directed graph.now
            v)) }
        ensures tips { OnOk result (All (λ l. l.tip < order_of graph.now) self.new.arcs.items) }
        ensures memory { IsOkUnless result Panic.NoRoom }
    {
        graph.take_arcs(
            &mut self.arcs,
            directed,
            v,
            &mut self.events,
            &mut self.lists,
        )
    }

    // Makes them the whole list of vertex `v`, as far as tips and lengths go.
    #[inline(always)]
    fn take_list(&mut self, graph: &Source<'_>, v: u32) -> Result<(), Panic>
        requires vertex { v < order_of graph.now }
        ensures ok { OnOk result (map bare self.new.arcs.items ≡ map bare (chain_of graph.now v)) }
        ensures tips { OnOk result (All (λ l. l.tip < order_of graph.now) self.new.arcs.items) }
        ensures memory { IsOkUnless result Panic.NoRoom }
    {
        graph.take_list(&mut self.arcs, v, &mut self.events, &mut self.lists)
    }
}

// Which vertex of a pair a step changes. Along the axis is the graph of that vertex, beside it the other one.
#[derive(Clone, Copy)]
enum Axis {
    First,
    Second,
}

impl Axis {
    // The place of the pair of vertex `v` of `along` along the axis and `w` of `beside` beside it: pairs stand in lexicographic
    // order.
    fn place(self, along: u32, beside: u32, v: u32, w: u32) -> u32
        requires few { along * beside ≤ most_vertices }
        requires v { v < along }
        requires w { w < beside }
        ensures value { result ≡ place_along self along beside v w }
        ensures below { result < along * beside }
    {
        match self {
            Axis::First => v * beside + w,
            Axis::Second => w * along + v,
        }
    }

    // Adds all steps along the axis.
    fn add_steps(
        self,
        built: &mut Graph,
        alloc: Global,
        along: &Source<'_>,
        beside: u32,
        directed: bool,
    ) -> Result<(), Panic>
        requires room { HasRoomForPairs built.old (order_of along.now) beside }
        ensures ok { OnOk result (AddsEvents directed built.old built.new
            (steps_along self along.now beside directed)) }
        ensures memory { IsOkUnless result Panic.NoRoom }
    {
        let mut row = Row::new(alloc);
        let n = along.n();
        for v in 0..n {
            row.take(along, directed, v)?;
            self.add_steps_by(built, n, beside, directed, v, &row.arcs)?;
        }
        Ok(())
    }

    // Adds those by these arcs of vertex `v`.
    fn add_steps_by(
        self,
        built: &mut Graph,
        along: u32,
        beside: u32,
        directed: bool,
        v: u32,
        arcs: &[Link],
    ) -> Result<(), Panic>
        requires room { HasRoomForPairs built.old along beside }
        requires v { v < along }
        requires tips { All (λ l. l.tip < along) arcs.now }
        ensures ok { OnOk result (AddsEvents directed built.old built.new
            (steps_by self along beside v arcs.now)) }
        ensures memory { IsOkUnless result Panic.NoRoom }
    {
        for arc in arcs {
            self.add_step(built, along, beside, directed, v, *arc)?;
        }
        Ok(())
    }

    // Adds those by this arc of vertex `v`, beside each vertex of the other graph.
    fn add_step(
        self,
        built: &mut Graph,
        along: u32,
        beside: u32,
        directed: bool,
        v: u32,
        arc: Link,
    ) -> Result<(), Panic>
        requires room { HasRoomForPairs built.old along beside }
        requires v { v < along }
        requires tip { arc.tip < along }
        ensures ok { OnOk result (AddsEvents directed built.old built.new
            (map (step_along self along beside v arc) (range_with_len 0 beside))) }
        ensures memory { IsOkUnless result Panic.NoRoom }
    {
        for w in 0..beside {
            built.add_event(
                directed,
                self.place(along, beside, v, w),
                self.place(along, beside, arc.tip, w),
                arc.len,
            )?;
        }
        Ok(())
    }
}

// Adds the steps in the second coordinate, and then those in the first.
pub(super) fn add_single_steps(
    built: &mut Graph,
    alloc: Global,
    first: &Source<'_>,
    second: &Source<'_>,
    directed: bool,
) -> Result<(), Panic>
    requires room { HasRoomForPairs built.old (order_of first.now) (order_of second.now) }
    ensures ok { OnOk result (AddsEvents directed built.old built.new
        (single_steps first.now second.now directed)) }
    ensures memory { IsOkUnless result Panic.NoRoom }
{
    Axis::Second.add_steps(built, alloc, second, first.n(), directed)?;
    Axis::First.add_steps(built, alloc, first, second.n(), directed)?;
    Ok(())
}

// Adds the steps in both coordinates.
pub(super) fn add_both_steps(
    built: &mut Graph,
    alloc: Global,
    first: &Source<'_>,
    second: &Source<'_>,
    directed: bool,
) -> Result<(), Panic>
    requires room { HasRoomForPairs built.old (order_of first.now) (order_of second.now) }
    ensures ok { OnOk result (AddsEvents directed built.old built.new
        (both_steps first.now second.now directed)) }
    ensures memory { IsOkUnless result Panic.NoRoom }
{
    let mut row = Row::new(alloc);
    let mut others = Row::new(alloc);
    let n = first.n();
    for x in 0..n {
        row.take(first, directed, x)?;
        add_both_steps_of_row(built, n, second, directed, x, &row.arcs, &mut others)?;
    }
    Ok(())
}

// Adds those by these arcs of vertex `x`, one of `n`. `others` is what the lists of `second` are read with; what it holds is open.
fn add_both_steps_of_row(
    built: &mut Graph,
    n: u32,
    second: &Source<'_>,
    directed: bool,
    x: u32,
    row: &[Link],
    others: &mut Row,
) -> Result<(), Panic>
    requires room { HasRoomForPairs built.old n (order_of second.now) }
    requires x { x < n }
    requires tips { All (λ l. l.tip < n) row.now }
    ensures ok { OnOk result (AddsEvents directed built.old built.new
        (both_steps_of_row second.now x row.now)) }
    ensures memory { IsOkUnless result Panic.NoRoom }
{
    // With no arc of `x` no list has to be read.
    if row.is_empty() {
        return Ok(());
    }
    let h = second.n();
    for y in 0..h {
        others.take_list(second, y)?;
        add_both_steps_by(built, n, h, directed, x, y, row, &others.arcs)?;
    }
    Ok(())
}

// Adds those from the pair of `x` and `y`, one of `n` vertices and one of `h`, by these arcs of each.
fn add_both_steps_by(
    built: &mut Graph,
    n: u32,
    h: u32,
    directed: bool,
    x: u32,
    y: u32,
    row: &[Link],
    others: &[Link],
) -> Result<(), Panic>
    requires room { HasRoomForPairs built.old n h }
    requires x { x < n }
    requires y { y < h }
    requires tips { All (λ l. l.tip < n) row.now }
    requires others { All (λ l. l.tip < h) others.now }
    ensures ok { OnOk result (AddsEvents directed built.old built.new
        (both_steps_by h x y row.now others.now)) }
    ensures memory { IsOkUnless result Panic.NoRoom }
{
    for arc in row {
        add_both_step(built, n, h, directed, x, y, *arc, others)?;
    }
    Ok(())
}

// Adds those by this arc of vertex `x`, together with each of these of vertex `y`.
fn add_both_step(
    built: &mut Graph,
    n: u32,
    h: u32,
    directed: bool,
    x: u32,
    y: u32,
    arc: Link,
    others: &[Link],
) -> Result<(), Panic>
    requires room { HasRoomForPairs built.old n h }
    requires x { x < n }
    requires y { y < h }
    requires tip { arc.tip < n }
    requires others { All (λ l. l.tip < h) others.now }
    ensures ok { OnOk result (AddsEvents directed built.old built.new
        (map (both_step h x y arc) others.now)) }
    ensures memory { IsOkUnless result Panic.NoRoom }
{
    let from = Axis::First.place(n, h, x, y);
    for other in others {
        built.add_event(
            directed,
            from,
            Axis::First.place(n, h, arc.tip, other.tip),
            lesser(arc.len, other.len),
        )?;
    }
    Ok(())
}

// The lesser of two lengths.
fn lesser(a: i64, b: i64) -> i64
    ensures { result ≡ int_min a b }
{
    a.min(b)
}
