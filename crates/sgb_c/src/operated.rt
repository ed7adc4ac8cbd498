//! Operations on open graphs, as values: each operand is built where it is not, and is dropped before the result is held.
ghost use Rattle.std.specs.Prelude.{◌≡◌, Err, false, is_err, true};
ghost use Rattle.sgb_vec.specs.declared.panics.Panic.{Panic};
ghost use Rattle.sgb_vec.specs.declared.panics.Panic.TheVariants.{VeryBad};
ghost use Rattle.sgb_graph.specs.Graphs.{GraphData};
ghost use Rattle.sgb_graph.specs.Descriptions.{IsAnswerOf};
ghost use Rattle.sgb_graph.specs.Vertices.{order_of};
ghost use Rattle.sgb_ops.specs.Entries.{accepted_entries};
ghost use Rattle.sgb_ops.specs.Induced.{induced_of};
ghost use Rattle.sgb_arrays.specs.OpenGraphs.{graph_open};
ghost use Rattle.sgb_c.specs.inner.Operations.{of_graph, of_graphs};

use sgb_arrays::OpenGraph;
use sgb_graph::Graph;
use sgb_ops::{
    Entry, check_entries, complement, gunion, have_too_many_pairs, induced, intersection, lines,
    product,
};
use sgb_vec::Panic;
use std::alloc::Global;

/// An operation on a graph.
#[derive(Clone, Copy)]
pub(crate) enum OnGraph {
    /// The complement, or a copy without parallel arcs.
    Complement {
        copy: bool,
        self_loops: bool,
        directed: bool,
    },
    /// The line graph.
    Lines {
        directed: bool,
    },
}

/// An operation on two graphs.
#[derive(Clone, Copy)]
pub(crate) enum OnGraphs {
    /// The union.
    Gunion { multi: bool, directed: bool },
    /// The intersection.
    Intersection { multi: bool, directed: bool },
    /// The product of this type.
    Product { kind: i64, directed: bool },
}

impl OnGraphs {
    // Whether it is refused of graphs with so many vertices.
    fn is_refused(self, first: u32, second: u32) -> bool
        ensures refused { (g h : GraphData) → order_of g ≡ first → order_of h ≡ second
            → result ≡ true → of_graphs self g h ≡ Err VeryBad }
        ensures accepted { (g h : GraphData) → order_of g ≡ first → order_of h ≡ second
            → result ≡ false → is_err (of_graphs self g h) ≡ false }
    {
        match self {
            OnGraphs::Gunion { .. } | OnGraphs::Intersection { .. } => false,
            OnGraphs::Product { .. } => have_too_many_pairs(first, second),
        }
    }
}

// The graph that an operation makes of an open one.
pub(crate) fn graph_of_one(
    alloc: Global,
    operation: OnGraph,
    graph: &OpenGraph,
) -> Result<Graph, Panic>
    ensures { IsAnswerOf (of_graph operation (graph_open graph.now)) result }
{
    let operand = graph.operand(alloc)?;
    made_of_one(alloc, operation, operand.graph())
}

// The graph that an operation makes of one.
fn made_of_one(alloc: Global, operation: OnGraph, graph: &Graph) -> Result<Graph, Panic>
    ensures { IsAnswerOf (of_graph operation graph.now) result }
{
    match operation {
        OnGraph::Complement {
            copy,
            self_loops,
            directed,
        } => complement(alloc, graph, copy, self_loops, directed),
        OnGraph::Lines { directed } => lines(alloc, graph, directed),
    }
}

// The graph that an operation makes of two open ones. What is refused is refused before they are built.
pub(crate) fn graph_of_two(
    alloc: Global,
    operation: OnGraphs,
    first: &OpenGraph,
    second: &OpenGraph,
) -> Result<Graph, Panic>
    ensures answer { IsAnswerOf
        (of_graphs operation (graph_open first.now) (graph_open second.now)) result }
    ensures refused { (p : Panic)
        → of_graphs operation (graph_open first.now) (graph_open second.now) ≡ Err p
        → result ≡ Err p }
{
    if operation.is_refused(first.n(), second.n()) {
        return Err(Panic::VeryBad);
    }
    built_of_two(alloc, operation, first, second)
}

// The same, where they are built if they are not.
fn built_of_two(
    alloc: Global,
    operation: OnGraphs,
    first: &OpenGraph,
    second: &OpenGraph,
) -> Result<Graph, Panic>
    ensures { IsAnswerOf
        (of_graphs operation (graph_open first.now) (graph_open second.now)) result }
{
    let left = first.operand(alloc)?;
    let right = second.operand(alloc)?;
    made_of_two(alloc, operation, left.graph(), right.graph())
}

// The graph that an operation makes of two.
fn made_of_two(
    alloc: Global,
    operation: OnGraphs,
    first: &Graph,
    second: &Graph,
) -> Result<Graph, Panic>
    ensures { IsAnswerOf (of_graphs operation first.now second.now) result }
{
    match operation {
        OnGraphs::Gunion { multi, directed } => gunion(alloc, first, second, multi, directed),
        OnGraphs::Intersection { multi, directed } => {
            intersection(alloc, first, second, multi, directed)
        }
        OnGraphs::Product { kind, directed } => product(alloc, first, second, kind, directed),
    }
}

// The graph that these entries induce of an open one. Entries are refused before it is built.
pub(crate) fn graph_induced(
    alloc: Global,
    graph: &OpenGraph,
    entries: &[Entry],
    self_loops: bool,
    multi: bool,
    directed: bool,
) -> Result<Graph, Panic>
    ensures answer { IsAnswerOf
        (induced_of (graph_open graph.now) entries.now self_loops multi directed) result }
    ensures refused { (p : Panic)
        → accepted_entries (order_of (graph_open graph.now)) entries.now ≡ Err p
        → result ≡ Err p }
{
    match check_entries(graph.n(), entries) {
        Ok(()) => induced_of_built(alloc, graph, entries, self_loops, multi, directed),
        Err(refusal) => Err(refusal),
    }
}

// The same, where it is built if it is not.
fn induced_of_built(
    alloc: Global,
    graph: &OpenGraph,
    entries: &[Entry],
    self_loops: bool,
    multi: bool,
    directed: bool,
) -> Result<Graph, Panic>
    ensures { IsAnswerOf
        (induced_of (graph_open graph.now) entries.now self_loops multi directed) result }
{
    let operand = graph.operand(alloc)?;
    induced(alloc, operand.graph(), entries, self_loops, multi, directed)
}
