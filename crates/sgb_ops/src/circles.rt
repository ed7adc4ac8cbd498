//! Circles, whose vertices and edges are known with no graph (GB_BASIC, circuit).
ghost use Rattle.std.specs.Prelude.{◌≡◌, ◌<◌, ◌≤◌, ◌+◌, ◌++◌, Bool, false, Ok, length, OnOk, IfOk, IfSome, IsOkUnless};
ghost use Rattle.sgb_vec.specs.Limits.{most_vertices};
ghost use Rattle.sgb_graph.specs.Growth.{AddsEvents, HasPlainArcs};
ghost use Rattle.sgb_gen.specs.Boards.{board};
ghost use Rattle.sgb_gen.specs.Generators.{made};
ghost use Rattle.sgb_ops.specs.declared.induced_graphs.entries.Entry.TheVariants as entry;
ghost use Rattle.sgb_ops.specs.Entries.{inner_events};
ghost use Rattle.sgb_ops.specs.Merged.{merged_unless};
ghost use Rattle.sgb_ops.specs.inner.Boards.{rim_of_wheel};
ghost use Rattle.sgb_ops.specs.inner.Circles.{closing_at, edges_around, edges_at, name_around, names_joined, next_at};
ghost use Rattle.sgb_ops.specs.inner.Induced.{wanted};
ghost use Rattle.sgb_ops.specs.inner.Sources.{HasTips};

use crate::compounds::joined_name;
use crate::operands::{MOST_PART, push_name};
use sgb_gen::board;
use sgb_graph::{Graph, Names};
use sgb_vec::{MOST_VERTICES, Panic, Text, name_of};
use std::alloc::Global;
use std::marker::Model;

/// A circle of 3 to 1,000,000,000 vertices, with edges. Contracts see it as its graph.
#[derive(Drop)]
pub(crate) struct Circle {
    n: u32,
}

impl Model for Circle {
    ghost use Rattle.std.specs.Prelude.{◌≤◌};
    ghost use Rattle.sgb_vec.specs.Limits.{most_vertices};
    ghost use Rattle.sgb_graph.specs.Graphs.{GraphData};
    ghost use Rattle.sgb_ops.specs.inner.Circles.{circle};

    ghost Value = { GraphData };

    ghost view = { λ c. circle c.n };

    ghost invariant = { λ c. (3 ≤ c.n) × (c.n ≤ most_vertices) };
}

impl Circle {
    /// The rim of a wheel with `n` vertices, with edges, where it is such a circle.
    pub(crate) fn new(n: i64) -> Option<Circle>
        ensures { IfSome result (λ c. made (board (rim_of_wheel n false)) ≡ Ok c) }
    {
        if n < 3 || n > i64::from(MOST_VERTICES) {
            return None;
        }
        Some(Circle { n: n as u32 })
    }

    /// How many vertices it has. All arcs lead to these.
    pub(crate) fn n(&self) -> u32
        ensures count { result ≡ length self.now.vertices }
        ensures tips { HasTips self.now }
    {
        self.n
    }

    /// The graph, built.
    ///
    /// `NoRoom` when out of memory, and nothing else.
    pub(crate) fn graph(&self, alloc: Global) -> Result<Graph, Panic>
        ensures ok { IfOk result (λ g. g ≡ self.now) }
        ensures memory { IsOkUnless result Panic.NoRoom }
    {
        board(alloc, i64::from(self.n), 0, 0, 0, 1, 1, false)
    }

    /// Appends this name joined with that of each vertex, with `:` between them.
    ///
    /// `NoRoom` when out of memory, and nothing else.
    pub(crate) fn push_names(
        &self,
        alloc: Global,
        names: &mut Names,
        name: &Text,
    ) -> Result<(), Panic>
        ensures ok { OnOk result (names.new ≡ names.old
            ++ names_joined name.now self.now) }
        ensures memory { IsOkUnless result Panic.NoRoom }
    {
        for w in 0..self.n {
            push_name(names, name_at(alloc, name, w)?)?;
        }
        Ok(())
    }

    /// Adds its edges to a graph, in which `start` is the first of its vertices: none is a loop, and no two have the same ends.
    ///
    /// `NoRoom` when out of memory, and nothing else.
    pub(crate) fn add_edges(&self, built: &mut Graph, start: u32) -> Result<(), Panic>
        requires few { start + length self.now.vertices ≤ length built.old.vertices }
        requires small { length built.old.vertices ≤ most_vertices }
        requires plain { HasPlainArcs built.old }
        ensures ok { OnOk result (AddsEvents false built.old built.new (edges_around self.now start)) }
        ensures left { (self_loops multi : Bool) → merged_unless multi false
            (wanted self_loops (inner_events false start (entry.Graph self.now)))
            ≡ edges_around self.now start }
        ensures memory { IsOkUnless result Panic.NoRoom }
    {
        let n = self.n;
        for w in 0..n {
            add_edges_at(built, n, start, w)?;
        }
        Ok(())
    }
}

// The name joined with that of vertex `w`.
fn name_at(alloc: Global, name: &Text, w: u32) -> Result<Text, Panic>
    ensures ok { IfOk result (λ text. text ≡ name_around name.now w) }
    ensures memory { IsOkUnless result Panic.NoRoom }
{
    let number = name_of(alloc, &[w])?;
    joined_name(alloc, name, MOST_PART, b":", &number, MOST_PART)
}

// Adds the edges of a circle of `n` vertices whose smaller end is its vertex `w`.
#[inline(always)]
fn add_edges_at(built: &mut Graph, n: u32, start: u32, w: u32) -> Result<(), Panic>
    requires vertex { w < n }
    requires few { start + n ≤ length built.old.vertices }
    requires small { length built.old.vertices ≤ most_vertices }
    requires plain { HasPlainArcs built.old }
    ensures ok { OnOk result (AddsEvents false built.old built.new (edges_at n start w)) }
    ensures memory { IsOkUnless result Panic.NoRoom }
{
    add_closing(built, n, start, w)?;
    add_next(built, n, start, w)?;
    Ok(())
}

// Adds the edge from the first vertex to the last one, where `w` is the first.
#[inline(always)]
fn add_closing(built: &mut Graph, n: u32, start: u32, w: u32) -> Result<(), Panic>
    requires vertex { w < n }
    requires few { start + n ≤ length built.old.vertices }
    requires small { length built.old.vertices ≤ most_vertices }
    requires plain { HasPlainArcs built.old }
    ensures ok { OnOk result (AddsEvents false built.old built.new (closing_at n start w)) }
    ensures memory { IsOkUnless result Panic.NoRoom }
{
    if w == 0 {
        return built.add_event(false, start, start + (n - 1), 1);
    }
    Ok(())
}

// Adds the edge from `w` to the next vertex, if there is one.
#[inline(always)]
fn add_next(built: &mut Graph, n: u32, start: u32, w: u32) -> Result<(), Panic>
    requires vertex { w < n }
    requires few { start + n ≤ length built.old.vertices }
    requires small { length built.old.vertices ≤ most_vertices }
    requires plain { HasPlainArcs built.old }
    ensures ok { OnOk result (AddsEvents false built.old built.new (next_at n start w)) }
    ensures memory { IsOkUnless result Panic.NoRoom }
{
    if w + 1 < n {
        return built.add_event(false, start + w, start + (w + 1), 1);
    }
    Ok(())
}
