//! How long all lists of a graph are.
//!
//! In a file any number of vertices may share records. So each record is gone through once: how long the list is from it on
//! is kept, and lists that come to it later go no further. All sizes take as many steps as there are vertices and records.
ghost use Rattle.std.specs.Prelude.{◌≡◌, ◌<◌, length, IfErr, IfOk, IsOkUnless};
ghost use Rattle.sgb_graph.specs.Graphs.{chain_of};
ghost use Rattle.sgb_vec.specs.declared.panics.Panic.TheVariants as Panic;
ghost use Rattle.sgb_arrays.specs.Runs.{IsThere, parts_of};
ghost use Rattle.sgb_arrays.specs.inner.Sizes.{AreKnown, AreListSizes};
ghost use Rattle.sgb_arrays.specs.declared.refusals.Wrong.TheVariants as wrong;

use crate::refusals::Wrong;
use crate::runs::is_there;
use sgb_graph::Graph;
use sgb_vec::Panic;
use std::alloc::Global;

/// How many arcs are on the list of each vertex.
///
/// `NoRoom` out of memory: eight bytes for each vertex, and while they are counted for each record.
pub(crate) fn list_sizes(alloc: Global, graph: &Graph) -> Result<Vec<usize>, Panic>
    ensures sizes { IfOk result (λ sizes. AreListSizes graph.now sizes.items) }
    ensures memory { IsOkUnless result Panic.NoRoom }
{
    let mut known = vec![in alloc; 0; graph.records_len()]?;
    let mut sizes = Vec::with_capacity(alloc, graph.n() as usize)?;
    for v in 0..graph.n() {
        let size = size_by(graph, v, &known);
        keep_sizes(graph, v, size, &mut known);
        sizes.push(size)?;
    }
    Ok(sizes)
}

// How many arcs are on the list of vertex v, which is gone through up to a record from which that is known.
fn size_by(graph: &Graph, v: u32, known: &[usize]) -> usize
    requires vertex { v < length graph.now.vertices }
    requires known { AreKnown graph.now.records known.now }
    ensures { result ≡ length (chain_of graph.now v) }
{
    prove!(v < graph.n());
    let most = graph.records_len();
    let mut size = 0;
    for link in graph.arcs(v) {
        let rest = known[link.number];
        if rest > 0 {
            return size + rest;
        }
        size += 1;
    }
    size.min(most)
}

// Keeps of each record of the list of vertex v how long the list, which is of this size, is from it on, up to a record from
// which that is known.
fn keep_sizes(graph: &Graph, v: u32, size: usize, known: &mut [usize])
    requires vertex { v < length graph.now.vertices }
    requires size { size ≡ length (chain_of graph.now v) }
    requires known { AreKnown graph.now.records known.old }
    ensures { AreKnown graph.now.records known.new }
{
    prove!(v < graph.n());
    let mut left = size;
    for link in graph.arcs(v) {
        if known[link.number] > 0 {
            return;
        }
        known[link.number] = left;
        left -= 1;
    }
}

/// How many arcs are on the lists of a run, by the sizes of all lists. No memory is taken.
///
/// `Vertices` where there are not so many vertices.
pub(crate) fn arcs_len_by(
    graph: &Graph,
    sizes: &[usize],
    first: u32,
    count: u32,
) -> Result<u128, Wrong>
    requires sizes { AreListSizes graph.now sizes.now }
    ensures count { IfOk result (λ m. IsThere graph.now first count
        × (m ≡ length (parts_of (chain_of graph.now) first count))) }
    ensures refused { IfErr result (λ why. (why ≡ wrong.Vertices)
        × (IsThere graph.now first count → ⊥)) }
{
    if !is_there(graph.n(), first, count) {
        return Err(Wrong::Vertices);
    }
    Ok(add_sizes(graph, sizes, first, count))
}

// The same of a run that is there.
fn add_sizes(graph: &Graph, sizes: &[usize], first: u32, count: u32) -> u128
    requires there { IsThere graph.now first count }
    requires sizes { AreListSizes graph.now sizes.now }
    ensures { result ≡ length (parts_of (chain_of graph.now) first count) }
{
    prove!(first <= graph.n());
    let mut arcs = 0;
    for k in 0..count {
        arcs += u128::from(sizes[(first + k) as usize] as u64);
    }
    arcs
}
