//! A graph whose arrays are had, whether it is built or not.
//!
//! A generator's graph need not be built: its accepted parameters tell all of it. What is asked of one is made in memory of
//! its own, which is given back before the call ends, and copied where the arrays fit it; so a call that is refused memory
//! leaves the arrays as they were. Of a graph
//! that is built no call takes memory.
ghost use Rattle.std.specs.Prelude.{◌≡◌, ◌^◌, ◌-◌, length, map, min, IfErr, IfOk, OnOk};
ghost use Rattle.sgb_file.specs.Saving.{text_of_graph};
ghost use Rattle.sgb_graph.specs.Kinds.{letter_of};
ghost use Rattle.sgb_vec.specs.declared.panics.Panic.TheVariants as Panic;
ghost use Rattle.sgb_arrays.specs.OpenGraphs.{IsFileRefusal, IsListed, graph_open};
ghost use Rattle.sgb_arrays.specs.declared.refusals.Wrong.TheVariants as wrong;

// Its calls that take a run of vertices.
mod open_runs;

use crate::files::{file_len, fill_file};
use crate::ids::copy_id;
use crate::kinds::copy_letters;
use crate::packed::PackedGraph;
use crate::refusals::Wrong;
use sgb_gen::Local;
use sgb_graph::{Graph, Kind};
use sgb_vec::Panic;
use std::alloc::Global;

/// A graph that is open: arrays are made of it, of all its vertices or of a run of them.
#[derive(Drop)]
pub enum OpenGraph {
    /// It is built.
    Built(PackedGraph),
    /// A generator's graph, which is not built: its accepted parameters.
    Listed(Local),
}

impl OpenGraph {
    /// How many vertices it has. No memory is taken.
    pub fn n(&self) -> u32
        ensures { result ≡ length (graph_open self.now).vertices }
    {
        match self {
            OpenGraph::Built(packed) => packed.graph().n(),
            OpenGraph::Listed(local) => local.size(),
        }
    }

    /// How many arcs it counts, where an edge counts as two.
    ///
    /// `NoRoom` when out of memory, where it is not built.
    pub fn m(&self, alloc: Global) -> Result<u128, Panic>
        ensures count { IfOk result (λ m. m ≡ (graph_open self.now).m) }
        ensures refused { IfErr result (λ p. (p ≡ Panic.NoRoom) × IsListed self.now) }
    {
        match self {
            OpenGraph::Built(packed) => Ok(u128::from(packed.graph().m())),
            OpenGraph::Listed(local) => local.arcs_count(alloc),
        }
    }

    /// How many bytes its id has. No memory is taken.
    pub fn id_len(&self) -> usize
        ensures { result ≡ length (graph_open self.now).id }
    {
        match self {
            OpenGraph::Built(packed) => packed.graph().id().bytes().len(),
            OpenGraph::Listed(local) => local.id().bytes().len(),
        }
    }

    /// What its utility fields hold (GB_GRAPH, util_types). No memory is taken.
    pub fn kinds(&self) -> [Kind; 14]
        ensures { result ≡ (graph_open self.now).kinds }
    {
        match self {
            OpenGraph::Built(packed) => packed.graph().kinds(),
            OpenGraph::Listed(local) => local.kinds(),
        }
    }

    /// Puts its id into an array, as `fill_id` does. No memory is taken.
    ///
    /// `Length` where there are not as many bytes as the id has.
    pub fn fill_id(&self, bytes: &mut [u8]) -> Result<(), Wrong>
        ensures filled { OnOk result ((length bytes.old ≡ length (graph_open self.now).id)
            × (bytes.new ≡ (graph_open self.now).id)) }
        ensures refused { IfErr result (λ why. (why ≡ wrong.Length)
            × (length bytes.old ≡ length (graph_open self.now).id → ⊥)
            × (bytes.new ≡ bytes.old)) }
    {
        match self {
            OpenGraph::Built(packed) => copy_id(packed.graph().id(), bytes),
            OpenGraph::Listed(local) => copy_id(&local.id(), bytes),
        }
    }

    /// Puts what its utility fields hold into an array, as `fill_kinds` does. No memory is taken.
    ///
    /// `Length` where there are not 14 places.
    pub fn fill_kinds(&self, letters: &mut [u8]) -> Result<(), Wrong>
        ensures filled { OnOk result ((length letters.old ≡ 14)
            × (letters.new ≡ map letter_of (graph_open self.now).kinds)) }
        ensures refused { IfErr result (λ why. (why ≡ wrong.Length)
            × (length letters.old ≡ 14 → ⊥) × (letters.new ≡ letters.old)) }
    {
        copy_letters(&self.kinds(), letters)
    }

    /// How many bytes its `.gb` file has, or 2^64 - 1 where there are more. A generator's graph is built for it.
    ///
    /// `NoRoom` when out of memory, where it is not built.
    pub fn file_len(&self, alloc: Global) -> Result<u64, Panic>
        ensures count { IfOk result (λ bytes. bytes
            ≡ min (length (text_of_graph (graph_open self.now))) (2 ^ 64 - 1)) }
        ensures refused { IfErr result (λ p. (p ≡ Panic.NoRoom) × IsListed self.now) }
    {
        match self {
            OpenGraph::Built(packed) => Ok(file_len(packed.graph())),
            OpenGraph::Listed(local) => local_file_len(alloc, local),
        }
    }

    /// Puts its `.gb` file into an array, as `fill_file` does. A generator's graph is built for it.
    ///
    /// `NoRoom` when out of memory, where it is not built; `Length` where there are not as many bytes as the file has.
    pub fn fill_file(&self, alloc: Global, bytes: &mut [u8]) -> Result<(), Wrong>
        ensures filled { OnOk result
            ((length bytes.old ≡ length (text_of_graph (graph_open self.now)))
            × (bytes.new ≡ text_of_graph (graph_open self.now))) }
        ensures refused { IfErr result (λ why. IsFileRefusal (graph_open self.now)
            (length bytes.old) (IsListed self.now) why × (bytes.new ≡ bytes.old)) }
    {
        match self {
            OpenGraph::Built(packed) => fill_file(packed.graph(), bytes),
            OpenGraph::Listed(local) => fill_local_file(alloc, local, bytes),
        }
    }
}

// How many bytes the file of a generator's graph has.
fn local_file_len(alloc: Global, local: &Local) -> Result<u64, Panic>
    ensures count { IfOk result (λ bytes. bytes
        ≡ min (length (text_of_graph (graph_open (OpenGraph.Listed local.now)))) (2 ^ 64 - 1)) }
    ensures memory { IfErr result (λ p. p ≡ Panic.NoRoom) }
{
    let graph = built(alloc, local)?;
    Ok(file_len(&graph))
}

// Puts the file of a generator's graph into an array.
fn fill_local_file(alloc: Global, local: &Local, bytes: &mut [u8]) -> Result<(), Wrong>
    ensures filled { OnOk result
        ((length bytes.old ≡ length (text_of_graph (graph_open (OpenGraph.Listed local.now))))
        × (bytes.new ≡ text_of_graph (graph_open (OpenGraph.Listed local.now)))) }
    ensures refused { IfErr result (λ why. IsFileRefusal (graph_open (OpenGraph.Listed local.now))
        (length bytes.old) (IsListed (OpenGraph.Listed local.now)) why × (bytes.new ≡ bytes.old)) }
{
    match built(alloc, local) {
        Ok(graph) => fill_file(&graph, bytes),
        Err(_) => Err(Wrong::NoRoom),
    }
}

// The graph of a generator, built.
pub(crate) fn built(alloc: Global, local: &Local) -> Result<Graph, Panic>
    ensures graph { IfOk result (λ g. g ≡ graph_open (OpenGraph.Listed local.now)) }
    ensures memory { IfErr result (λ p. p ≡ Panic.NoRoom) }
{
    local.graph(alloc)
}
