//! A caller of `sgb_ops`, as the page for callers shows it.
use sgb_gen::board;
use sgb_graph::Graph;
use sgb_ops::{Entry, complement, induced};
use sgb_vec::Panic;
use std::alloc::Global;

/// The places of a circle, joined where they are not neighbours.
pub fn strangers(alloc: Global, places: i64) -> Result<Graph, Panic> {
    let circle = board(alloc, places, 0, 0, 0, 1, 1, false)?;
    complement(alloc, &circle, false, false, false)
}

/// Two vertices, each joined to each of three others: copies of the two ends of an edge.
pub fn two_and_three(alloc: Global) -> Result<Graph, Panic> {
    let edge = board(alloc, 2, 0, 0, 0, 1, 0, false)?;
    let entries = [Entry::Copies(2), Entry::Copies(3)];
    induced(alloc, &edge, &entries, false, false, false)
}

/// How many arcs a graph has, if it was made.
fn arcs_of(made: Result<Graph, Panic>) -> Result<u64, Panic> {
    let graph = made?;
    Ok(graph.m())
}

#[test]
fn graphs_of_graphs(rt: HostRuntime) {
    assert!(rt; arcs_of(strangers(rt.alloc(), 5)) == Ok(10));
    assert!(rt; arcs_of(two_and_three(rt.alloc())) == Ok(12));
}
