//! An open graph as the operand of an operation.
//!
//! Operations read a graph that is built. A generator's that is not is built for the call, and given back when it ends.
ghost use Rattle.std.specs.Prelude.{◌≡◌, IfErr, IfOk};
ghost use Rattle.sgb_vec.specs.declared.panics.Panic.TheVariants as Panic;
ghost use Rattle.sgb_arrays.specs.OpenGraphs.{IsListed, graph_open, graph_of_operand};
ghost use Rattle.sgb_arrays.specs.declared.open_graphs.OpenGraph.TheVariants as opened;

use crate::open_graphs::{OpenGraph, built};
use sgb_gen::Local;
use sgb_graph::Graph;
use sgb_vec::Panic;
use std::alloc::Global;

/// The graph of an operand, built.
#[derive(Drop)]
pub enum Operand<'a> {
    /// It is built already, and lent.
    Lent(&'a Graph),
    /// A generator's, which was built for this.
    Made(Graph),
}

impl<'a> Operand<'a> {
    /// The graph.
    pub fn graph(&self) -> &Graph
        ensures { result.now ≡ graph_of_operand self.now }
    {
        match self {
            Operand::Lent(graph) => graph,
            Operand::Made(graph) => graph,
        }
    }
}

impl OpenGraph {
    /// Its graph, built: lent, or made where it is not built.
    ///
    /// `NoRoom` when out of memory, where it is not built.
    pub fn operand(&self, alloc: Global) -> Result<Operand<'_>, Panic>
        ensures graph { IfOk result (λ o. graph_of_operand o ≡ graph_open self.now) }
        ensures refused { IfErr result (λ p. (p ≡ Panic.NoRoom) × IsListed self.now) }
    {
        match self {
            OpenGraph::Built(packed) => Ok(Operand::Lent(packed.graph())),
            OpenGraph::Listed(local) => made(alloc, local),
        }
    }
}

// The graph of a generator.
fn made<'a>(alloc: Global, local: &Local) -> Result<Operand<'a>, Panic>
    ensures graph { IfOk result (λ o. graph_of_operand o ≡ graph_open (opened.Listed local.now)) }
    ensures memory { IfErr result (λ p. p ≡ Panic.NoRoom) }
{
    match built(alloc, local) {
        Ok(graph) => Ok(Operand::Made(graph)),
        Err(panic) => Err(panic),
    }
}
