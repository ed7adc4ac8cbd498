//! The names of a run of a graph's vertices, put into arrays one after another.
ghost use Rattle.std.specs.Prelude.{◌≡◌, length, IfErr, IfOk, OnOk};
ghost use Rattle.sgb_arrays.specs.Runs.{AreNames, HaveNameLengths, IsFillRefusal, IsThere, parts_of};
ghost use Rattle.sgb_graph.specs.Vertices.{name_at};
ghost use Rattle.sgb_arrays.specs.declared.refusals.Wrong.TheVariants as wrong;
// For the search alone.
ghost use Rattle.std.specs.Prelude.{◌≤◌, ◌<◌, ◌+◌};

use crate::puts::put_bytes;
use crate::refusals::Wrong;
use crate::runs::{have_places, is_there};
use sgb_graph::Graph;

/// How many bytes the names of `count` vertices of a graph have, from vertex `first` on. No memory is taken.
///
/// `Vertices` where there are not so many vertices.
pub fn names_len(graph: &Graph, first: u32, count: u32) -> Result<u64, Wrong>
    ensures count { IfOk result (λ bytes. IsThere graph.now first count
        × (bytes ≡ length (parts_of (name_at graph.now) first count))) }
    ensures refused { IfErr result (λ why. (why ≡ wrong.Vertices)
        × (IsThere graph.now first count → ⊥)) }
{
    if !is_there(graph.n(), first, count) {
        return Err(Wrong::Vertices);
    }
    Ok(count_bytes(graph, first, count))
}

// How many bytes the names of a run have that is there.
fn count_bytes(graph: &Graph, first: u32, count: u32) -> u64
    requires { IsThere graph.now first count }
    ensures { result ≡ length (parts_of (name_at graph.now) first count) }
{
    prove!(first <= graph.n());
    let mut bytes = 0;
    for k in 0..count {
        bytes += graph.name(first + k).bytes().len() as u64;
    }
    bytes
}

/// Puts the names of `count` vertices of a graph, from vertex `first` on, into an array, one after another, and where each one
/// starts, and then where the last one ends. The name of vertex k of them is what stands from `starts[k]` up to
/// `starts[k + 1]`. No memory is taken.
///
/// `Vertices` where there are not so many vertices; else `Length` where there are not count + 1 starts, or not as many bytes
/// as the names have.
pub fn fill_names(
    graph: &Graph,
    first: u32,
    count: u32,
    starts: &mut [u64],
    bytes: &mut [u8],
) -> Result<(), Wrong>
    ensures filled { OnOk result (IsThere graph.now first count
        × HaveNameLengths graph.now first count starts.old bytes.old
        × AreNames graph.now first count starts.new bytes.new) }
    ensures refused { IfErr result (λ why. IsFillRefusal graph.now first count
        (HaveNameLengths graph.now first count starts.old bytes.old) ⊥ why
        × (starts.new ≡ starts.old) × (bytes.new ≡ bytes.old)) }
{
    let places = names_len(graph, first, count)?;
    if !have_places(starts.len(), bytes.len(), count, u128::from(places)) {
        return Err(Wrong::Length);
    }
    put_names(graph, first, count, starts, bytes);
    Ok(())
}

// Puts the names of a run into arrays of the right lengths.
fn put_names(graph: &Graph, first: u32, count: u32, starts: &mut [u64], bytes: &mut [u8])
    requires there { IsThere graph.now first count }
    requires lengths { HaveNameLengths graph.now first count starts.old bytes.old }
    ensures { AreNames graph.now first count starts.new bytes.new }
{
    prove!(first <= graph.n());
    let mut at = 0;
    for k in 0..count {
        starts[k as usize] = at as u64;
        let name = graph.name(first + k).bytes();
        put_bytes(bytes, at, name);
        at += name.len();
    }
    starts[count as usize] = at as u64;
}
