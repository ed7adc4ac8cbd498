//! The lists of arcs of a run of a graph's vertices, put into arrays one after another.
ghost use Rattle.std.specs.Prelude.{◌≡◌, ◌≤◌, ◌<◌, ◌+◌, length, map, IfErr, IfOk, OnOk};
ghost use Rattle.sgb_graph.specs.Graphs.{chain_of};
ghost use Rattle.sgb_arrays.specs.Runs.{AreRows, AreTips, HaveRowLengths, HaveTipLengths, IsFillRefusal, IsThere, parts_of};
ghost use Rattle.sgb_arrays.specs.inner.Puts.{put_from};
ghost use Rattle.sgb_arrays.specs.inner.Sizes.{AreSizesFrom};
ghost use Rattle.sgb_arrays.specs.declared.refusals.Wrong.TheVariants as wrong;
// For the search alone.
ghost use Rattle.std.specs.Prelude.{◌^◌};

use crate::refusals::Wrong;
use crate::runs::{have_places, have_row_places, is_there};
use sgb_graph::Graph;

/// How many arcs are on the lists of `count` vertices of a graph, from vertex `first` on. No memory is taken.
///
/// `Vertices` where there are not so many vertices.
pub fn arcs_len(graph: &Graph, first: u32, count: u32) -> Result<u128, Wrong>
    ensures count { IfOk result (λ m. IsThere graph.now first count
        × (m ≡ length (parts_of (chain_of graph.now) first count))) }
    ensures refused { IfErr result (λ why. (why ≡ wrong.Vertices)
        × (IsThere graph.now first count → ⊥)) }
{
    if !is_there(graph.n(), first, count) {
        return Err(Wrong::Vertices);
    }
    Ok(count_arcs(graph, first, count))
}

// How many arcs are on the lists of a run that is there.
pub(crate) fn count_arcs(graph: &Graph, first: u32, count: u32) -> u128
    requires { IsThere graph.now first count }
    ensures { result ≡ length (parts_of (chain_of graph.now) first count) }
{
    prove!(first <= graph.n());
    let mut arcs = 0;
    let mut sizes = Sizes::from(graph, first);
    for k in 0..count {
        arcs += u128::from(sizes.at(graph, first + k) as u64);
    }
    arcs
}

// How many arcs are on the lists of a vertex and the seven after it, of which there may be fewer.
#[derive(Drop)]
struct Sizes {
    first: u32,
    known: [usize; 8],
}

impl Sizes {
    // Those from vertex v on.
    fn from(graph: &Graph, v: u32) -> Sizes
        ensures first { result.first ≡ v }
        ensures known { AreSizesFrom graph.now v result.known }
    {
        Sizes {
            first: v,
            known: sizes_from(graph, v),
        }
    }

    // How many arcs are on the list of vertex v, which is one of the eight, or the next one: then the next eight are had.
    fn at(&mut self, graph: &Graph, v: u32) -> usize
        requires vertex { v < length graph.now.vertices }
        requires known { AreSizesFrom graph.now self.old.first self.old.known }
        requires after { self.old.first ≤ v }
        requires before { v ≤ self.old.first + 8 }
        ensures size { result ≡ length (chain_of graph.now v) }
        ensures known { AreSizesFrom graph.now self.new.first self.new.known }
        ensures after { self.new.first ≤ v }
        ensures before { v + 1 ≤ self.new.first + 8 }
    {
        if v - self.first > 7 {
            *self = Sizes::from(graph, v);
        }
        self.known[(v - self.first) as usize]
    }
}

// How many arcs are on the lists of vertex v and the seven after it. Where there are so many, they are followed side by side.
fn sizes_from(graph: &Graph, v: u32) -> [usize; 8]
    ensures { AreSizesFrom graph.now v result }
{
    let n = graph.n();
    if v < n && n - v > 7 {
        return graph.degrees(v);
    }
    last_sizes(graph, v)
}

// How many arcs are on these lists, one followed after another.
fn last_sizes(graph: &Graph, v: u32) -> [usize; 8]
    ensures { AreSizesFrom graph.now v result }
{
    let mut sizes = [0; 8];
    for u in v..graph.n().min(v.saturating_add(8)) {
        sizes[(u - v) as usize] = degree(graph, u);
    }
    sizes
}

// How many arcs are on the list of vertex v.
fn degree(graph: &Graph, v: u32) -> usize
    requires { v < length graph.now.vertices }
    ensures count { result ≡ length (chain_of graph.now v) }
    ensures few { result ≤ length graph.now.records }
{
    let most = graph.records_len();
    let mut count = 0;
    for _link in graph.arcs(v) {
        count += 1;
    }
    count.min(most)
}

/// Puts the lists of arcs of `count` vertices of a graph, from vertex `first` on, into arrays, one list after another: where
/// each list starts, and then where the last one ends; where each arc leads; its length. The list of vertex k of them is what
/// stands from `starts[k]` up to `starts[k + 1]`. No memory is taken.
///
/// `Vertices` where there are not so many vertices; else `Length` where there are not count + 1 starts, or not as many tips
/// and lengths as arcs.
pub fn fill_rows(
    graph: &Graph,
    first: u32,
    count: u32,
    starts: &mut [u64],
    tips: &mut [u32],
    lengths: &mut [i64],
) -> Result<(), Wrong>
    ensures filled { OnOk result (IsThere graph.now first count
        × HaveRowLengths graph.now first count starts.old tips.old lengths.old
        × AreRows graph.now first count starts.new tips.new lengths.new) }
    ensures refused { IfErr result (λ why. IsFillRefusal graph.now first count
        (HaveRowLengths graph.now first count starts.old tips.old lengths.old) ⊥ why
        × (starts.new ≡ starts.old) × (tips.new ≡ tips.old) × (lengths.new ≡ lengths.old)) }
{
    let arcs = arcs_len(graph, first, count)?;
    fill_counted_rows(graph, first, count, arcs, starts, tips, lengths)
}

/// The same of a run that is there, with so many arcs.
pub(crate) fn fill_counted_rows(
    graph: &Graph,
    first: u32,
    count: u32,
    arcs: u128,
    starts: &mut [u64],
    tips: &mut [u32],
    lengths: &mut [i64],
) -> Result<(), Wrong>
    requires there { IsThere graph.now first count }
    requires arcs { arcs ≡ length (parts_of (chain_of graph.now) first count) }
    ensures filled { OnOk result (IsThere graph.now first count
        × HaveRowLengths graph.now first count starts.old tips.old lengths.old
        × AreRows graph.now first count starts.new tips.new lengths.new) }
    ensures refused { IfErr result (λ why. IsFillRefusal graph.now first count
        (HaveRowLengths graph.now first count starts.old tips.old lengths.old) ⊥ why
        × (starts.new ≡ starts.old) × (tips.new ≡ tips.old) × (lengths.new ≡ lengths.old)) }
{
    if !have_row_places(starts.len(), tips.len(), lengths.len(), count, arcs) {
        return Err(Wrong::Length);
    }
    put_tips(graph, first, count, starts, tips);
    put_lengths(graph, first, count, lengths);
    Ok(())
}

/// Puts the lists of arcs into arrays, as `fill_rows` does, without the lengths of the arcs. No memory is taken.
///
/// `Vertices` where there are not so many vertices; else `Length` where there are not count + 1 starts, or not as many tips
/// as arcs.
pub fn fill_tips(
    graph: &Graph,
    first: u32,
    count: u32,
    starts: &mut [u64],
    tips: &mut [u32],
) -> Result<(), Wrong>
    ensures filled { OnOk result (IsThere graph.now first count
        × HaveTipLengths graph.now first count starts.old tips.old
        × AreTips graph.now first count starts.new tips.new) }
    ensures refused { IfErr result (λ why. IsFillRefusal graph.now first count
        (HaveTipLengths graph.now first count starts.old tips.old) ⊥ why
        × (starts.new ≡ starts.old) × (tips.new ≡ tips.old)) }
{
    let arcs = arcs_len(graph, first, count)?;
    fill_counted_tips(graph, first, count, arcs, starts, tips)
}

/// The same of a run that is there, with so many arcs.
pub(crate) fn fill_counted_tips(
    graph: &Graph,
    first: u32,
    count: u32,
    arcs: u128,
    starts: &mut [u64],
    tips: &mut [u32],
) -> Result<(), Wrong>
    requires there { IsThere graph.now first count }
    requires arcs { arcs ≡ length (parts_of (chain_of graph.now) first count) }
    ensures filled { OnOk result (IsThere graph.now first count
        × HaveTipLengths graph.now first count starts.old tips.old
        × AreTips graph.now first count starts.new tips.new) }
    ensures refused { IfErr result (λ why. IsFillRefusal graph.now first count
        (HaveTipLengths graph.now first count starts.old tips.old) ⊥ why
        × (starts.new ≡ starts.old) × (tips.new ≡ tips.old)) }
{
    if !have_places(starts.len(), tips.len(), count, arcs) {
        return Err(Wrong::Length);
    }
    put_tips(graph, first, count, starts, tips);
    Ok(())
}

// Puts where the lists of a run start, and where their arcs lead, into arrays of the right lengths.
fn put_tips(graph: &Graph, first: u32, count: u32, starts: &mut [u64], tips: &mut [u32])
    requires there { IsThere graph.now first count }
    requires lengths { HaveTipLengths graph.now first count starts.old tips.old }
    ensures { AreTips graph.now first count starts.new tips.new }
{
    prove!(first <= graph.n());
    let mut at = 0;
    for k in 0..count {
        graph.read_ahead(first + k);
        starts[k as usize] = at as u64;
        at = put_list_tips(graph, first + k, at, tips);
    }
    starts[count as usize] = at as u64;
}

// Puts where the arcs of vertex v lead into an array, from a place on: the place after them.
fn put_list_tips(graph: &Graph, v: u32, at: usize, tips: &mut [u32]) -> usize
    requires vertex { v < length graph.now.vertices }
    requires tips { at + length (chain_of graph.now v) ≤ length tips.old }
    ensures end { result ≡ at + length (chain_of graph.now v) }
    ensures tips { tips.new ≡ put_from at (map (λ l. l.tip) (chain_of graph.now v)) tips.old }
{
    let mut place = at;
    for link in graph.arcs(v) {
        tips[place] = link.tip;
        place += 1;
    }
    place
}

// Puts the lengths of the arcs of a run into an array of as many places.
fn put_lengths(graph: &Graph, first: u32, count: u32, lengths: &mut [i64])
    requires there { IsThere graph.now first count }
    requires length { length lengths.old ≡ length (parts_of (chain_of graph.now) first count) }
    ensures { lengths.new ≡ map (λ l. l.len) (parts_of (chain_of graph.now) first count) }
{
    prove!(first <= graph.n());
    let mut at = 0;
    for k in 0..count {
        graph.read_ahead(first + k);
        at = put_list_lengths(graph, first + k, at, lengths);
    }
}

// Puts the lengths of the arcs of vertex v into an array, from a place on: the place after them.
fn put_list_lengths(graph: &Graph, v: u32, at: usize, lengths: &mut [i64]) -> usize
    requires vertex { v < length graph.now.vertices }
    requires lengths { at + length (chain_of graph.now v) ≤ length lengths.old }
    ensures end { result ≡ at + length (chain_of graph.now v) }
    ensures lengths { lengths.new
        ≡ put_from at (map (λ l. l.len) (chain_of graph.now v)) lengths.old }
{
    let mut place = at;
    for link in graph.arcs(v) {
        lengths[place] = link.len;
        place += 1;
    }
    place
}
