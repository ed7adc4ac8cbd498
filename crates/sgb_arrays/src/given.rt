//! The graph that arrays tell: names, and arcs or edges in an order.
//!
//! All that may be wrong with the arrays is looked for before memory is taken.
ghost use Rattle.std.specs.Prelude.{◌≡◌, ◌<◌, ◌-◌, ◌++◌, [], ◌∷◌, true, None, length, OnOk, IfErr, IfOk};
ghost use Rattle.std.specs.List.{list_all};
ghost use Rattle.sgb_vec.specs.Limits.{most_bytes};
ghost use Rattle.sgb_vec.specs.Names.{is_text_byte};
ghost use Rattle.sgb_graph.specs.Growth.{HasPlainArcs, with_events};
ghost use Rattle.sgb_arrays.specs.Lists.{part_by_starts};
ghost use Rattle.sgb_arrays.specs.Given.{IsUnmade, climbs_to, fault_of, graph_given, is_table, is_text_of, names_given};
ghost use Rattle.sgb_arrays.specs.inner.Given.{are_below, are_tables, events_given};

use sgb_graph::{Graph, Id, Names};
use sgb_vec::{MOST_VERTICES, Panic, Text, is_text_byte};
use std::alloc::Global;

/// Why no graph is made of arrays.
#[derive(Clone, Copy, Debug, PartialEq, Eq)]
pub enum Unmade {
    /// The places where names start are no table of the bytes, or there are not as many ends as lengths.
    Length,
    /// There are more names than a graph may have vertices.
    TooMany,
    /// An end of an arc or edge is no vertex.
    Vertices,
    /// A name or the id is no text that it may be.
    Text,
    /// Out of memory.
    NoRoom,
}

// A name has at most this many bytes.
const MOST_NAME_BYTES: usize = 4_095;

// An id has at most this many.
const MOST_ID_BYTES: usize = 160;

/// The graph of these names and of these arcs, or edges unless `directed`, each put in order, with this id (GB_GRAPH,
/// gb_new_graph, gb_new_arc and gb_new_edge). The name of vertex v is what stands in `names` from `starts[v]` up to
/// `starts[v + 1]`; arc or edge k leads from `from[k]` to `to[k]`, and its length is `lengths[k]`.
///
/// `Length` where the starts do not begin with 0, fall, or do not end with the number of bytes, or where there are not as
/// many ends as lengths; else `TooMany` above 1,000,000,000 names; else `Vertices` where an end is no vertex; else `Text`
/// where a name or the id may be none; all these whatever memory there is. `NoRoom` when out of memory.
pub fn graph_given(
    alloc: Global,
    starts: &[u64],
    names: &[u8],
    from: &[u32],
    to: &[u32],
    lengths: &[i64],
    directed: bool,
    id: &[u8],
) -> Result<Graph, Unmade>
    ensures fits { IfOk result (λ _.
        fault_of starts.now names.now from.now to.now lengths.now id.now ≡ None) }
    ensures made { IfOk result (λ g. g
        ≡ graph_given starts.now names.now from.now to.now lengths.now directed id.now) }
    ensures refused { IfErr result
        (IsUnmade (fault_of starts.now names.now from.now to.now lengths.now id.now)) }
{
    if let Some(fault) = fault_of(starts, names, from, to, lengths, id) {
        return Err(fault);
    }
    match graph_of_arrays(alloc, starts, names, from, to, lengths, directed, id) {
        Ok(graph) => Ok(graph),
        Err(_) => Err(Unmade::NoRoom),
    }
}

// What is wrong with the arrays, if anything is.
fn fault_of(
    starts: &[u64],
    names: &[u8],
    from: &[u32],
    to: &[u32],
    lengths: &[i64],
    id: &[u8],
) -> Option<Unmade>
    ensures { result ≡ fault_of starts.now names.now from.now to.now lengths.now id.now }
{
    if !are_tables(starts, names, from, to, lengths) {
        return Some(Unmade::Length);
    }
    let n = starts.len() - 1;
    if n > MOST_VERTICES as usize {
        return Some(Unmade::TooMany);
    }
    if !(are_below(n, from) && are_below(n, to)) {
        return Some(Unmade::Vertices);
    }
    if !(are_names(starts, names) && is_text_of(MOST_ID_BYTES, id)) {
        return Some(Unmade::Text);
    }
    None
}

// Whether the names have a table, and there are as many ends as lengths.
fn are_tables(starts: &[u64], names: &[u8], from: &[u32], to: &[u32], lengths: &[i64]) -> bool
    ensures { result ≡ are_tables starts.now names.now from.now to.now lengths.now }
{
    is_table(names.len(), starts) && from.len() == lengths.len() && to.len() == lengths.len()
}

// Whether the places begin with 0, never fall, and end with `end`.
pub(crate) fn is_table(end: usize, starts: &[u64]) -> bool
    ensures { result ≡ is_table end starts.now }
{
    match starts.split_first() {
        Some((first, others)) => *first == 0 && climbs_to(end as u64, *first, others),
        None => false,
    }
}

// Whether the places never fall from `first` on, and the last is `end`.
fn climbs_to(end: u64, first: u64, others: &[u64]) -> bool
    ensures { result ≡ climbs_to end first others.now }
{
    let mut last = first;
    for place in others {
        if *place < last {
            return false;
        }
        last = *place;
    }
    last == end
}

// Whether all are below `n`.
fn are_below(n: usize, ends: &[u32]) -> bool
    ensures { result ≡ are_below n ends.now }
{
    for end in ends {
        if *end as usize >= n {
            return false;
        }
    }
    true
}

// Whether there are at most so many bytes, each of which may stand in a string.
fn is_text_of(most: usize, bytes: &[u8]) -> bool
    ensures { result ≡ is_text_of most bytes.now }
{
    bytes.len() <= most && are_printable(bytes)
}

// Whether each byte may stand in a string.
fn are_printable(bytes: &[u8]) -> bool
    ensures { result ≡ list_all is_text_byte bytes.now }
{
    for byte in bytes {
        if !is_text_byte(*byte) {
            return false;
        }
    }
    true
}

// Whether each name is a text.
fn are_names(starts: &[u64], bytes: &[u8]) -> bool
    requires { is_table (length bytes.now) starts.now ≡ true }
    ensures { result ≡ list_all (is_text_of most_bytes) (names_given starts.now bytes.now) }
{
    for v in 0..starts.len() - 1 {
        if !is_text_of(MOST_NAME_BYTES, part(starts, bytes, v)) {
            return false;
        }
    }
    true
}

// Part v of the bytes.
pub(crate) fn part<'a>(starts: &[u64], bytes: &'a [u8], v: usize) -> &'a [u8]
    requires table { is_table (length bytes.now) starts.now ≡ true }
    requires there { v < length starts.now - 1 }
    ensures { result.now ≡ part_by_starts bytes.now starts.now v }
{
    &bytes[starts[v] as usize..starts[v + 1] as usize]
}

// The graph of arrays with which nothing is wrong: so an error means out of memory.
fn graph_of_arrays(
    alloc: Global,
    starts: &[u64],
    names: &[u8],
    from: &[u32],
    to: &[u32],
    lengths: &[i64],
    directed: bool,
    id: &[u8],
) -> Result<Graph, Panic>
    requires { fault_of starts.now names.now from.now to.now lengths.now id.now ≡ None }
    ensures { IfOk result (λ g. g
        ≡ graph_given starts.now names.now from.now to.now lengths.now directed id.now) }
{
    let texts = names_given(alloc, starts, names)?;
    let mut graph = Graph::new(alloc, texts)?;
    add_events_given(&mut graph, from, to, lengths, directed)?;
    graph.set_id(Id::new(id)?);
    Ok(graph)
}

// The names.
fn names_given(alloc: Global, starts: &[u64], bytes: &[u8]) -> Result<Names, Panic>
    requires { is_table (length bytes.now) starts.now ≡ true }
    ensures { IfOk result (λ names. names ≡ names_given starts.now bytes.now) }
{
    let n = starts.len() - 1;
    let mut names = Names::with_capacity(alloc, n)?;
    for v in 0..n {
        push_name(alloc, &mut names, part(starts, bytes, v))?;
    }
    Ok(names)
}

// Appends the name of these bytes.
fn push_name(alloc: Global, names: &mut Names, bytes: &[u8]) -> Result<(), Panic>
    ensures { OnOk result (names.new ≡ names.old ++ bytes.now ∷ []) }
{
    match names.push(Text::new(alloc, bytes)?) {
        Ok(()) => Ok(()),
        Err(_refused) => Err(Panic::NoRoom),
    }
}

// Adds the arcs or edges in order, in room that is taken at once.
fn add_events_given(
    graph: &mut Graph,
    from: &[u32],
    to: &[u32],
    lengths: &[i64],
    directed: bool,
) -> Result<(), Panic>
    requires from { are_below (length graph.old.vertices) from.now ≡ true }
    requires to { are_below (length graph.old.vertices) to.now ≡ true }
    requires starts { length from.now ≡ length lengths.now }
    requires ends { length to.now ≡ length lengths.now }
    requires plain { HasPlainArcs graph.old }
    ensures { OnOk result
        (graph.new ≡ with_events directed graph.old (events_given from.now to.now lengths.now)) }
{
    graph.reserve(records_of(directed, from.len()))?;
    for k in 0..from.len() {
        graph.add_event(directed, from[k], to[k], lengths[k])?;
    }
    Ok(())
}

// The room that is taken for so many arcs or edges.
fn records_of(directed: bool, events: usize) -> usize {
    if directed {
        events
    } else {
        events.saturating_mul(2)
    }
}
