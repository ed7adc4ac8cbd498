//! The utility fields of a run of vertices as arrays: of a graph, and of a generator's graph that is not built.
ghost use Rattle.std.specs.Prelude.{◌≡◌, ◌<◌, ◌≤◌, ◌+◌, drop, length, map, pos, slice_index, take, OnOk, IfErr};
ghost use Rattle.std.specs.Bool.{OnTrue, OnFalse};
ghost use Rattle.sgb_arrays.specs.Fields.{HoldsInts, IsIntsRefusal, int_of, ints_of};
ghost use Rattle.sgb_arrays.specs.inner.Fields.{int_at};
ghost use Rattle.sgb_arrays.specs.Runs.{IsThere};
ghost use Rattle.sgb_arrays.specs.inner.Kinds.{HoldIntsAt, IsMisfitOfInts, is_int_kind};
ghost use Rattle.sgb_graph.specs.Columns.{util_seen, vertex_seen};
ghost use Rattle.sgb_graph.specs.Made.{graph_described};
ghost use Rattle.sgb_gen.specs.Generators.{described, vectors_of};
// For the search alone.
ghost use Rattle.std.specs.Prelude.{slice_get, Some};

use crate::refusals::Wrong;
use crate::runs::{is_there, vectors_from};
use sgb_gen::Local;
use sgb_graph::{Graph, Kind, UtilRef, VertexRef};
use sgb_vec::Family;

/// Puts the numbers of a utility field of `count` vertices of a graph, from vertex `first` on, into an array, vertex by vertex.
/// The fields u, v, w, x, y, z count from 0. No memory is taken.
///
/// `Vertices` where there are not so many vertices; else `Field` where there is no such field, or it holds no integers; else
/// `Length` where there are not `count` places.
pub fn fill_ints(
    graph: &Graph,
    field: u32,
    first: u32,
    count: u32,
    values: &mut [i64],
) -> Result<(), Wrong>
    ensures filled { OnOk result (IsThere graph.now first count × HoldsInts graph.now field
        × (length values.old ≡ count) × (values.new ≡ ints_of graph.now field first count)) }
    ensures refused { IfErr result (λ why.
        IsIntsRefusal graph.now field first count (length values.old) why
        × (values.new ≡ values.old)) }
{
    are_ints(graph.n(), &graph.kinds(), field, first, count, values.len())?;
    put_ints(graph, field as usize, first, count, values);
    Ok(())
}

/// The same of a generator's graph that is not built: its vertices have integers in the fields x, y and z.
pub(crate) fn fill_local_ints(
    local: &Local,
    field: u32,
    first: u32,
    count: u32,
    values: &mut [i64],
) -> Result<(), Wrong>
    ensures filled { OnOk result (IsThere (graph_described (described local.now)) first count
        × HoldsInts (graph_described (described local.now)) field
        × (length values.old ≡ count)
        × (values.new ≡ ints_of (graph_described (described local.now)) field first count)) }
    ensures refused { IfErr result (λ why. IsIntsRefusal (graph_described (described local.now))
        field first count (length values.old) why × (values.new ≡ values.old)) }
{
    are_ints(
        local.size(),
        &local.kinds(),
        field,
        first,
        count,
        values.len(),
    )?;
    put_entries(
        local,
        (field as usize).saturating_sub(3),
        first,
        count,
        values,
    );
    Ok(())
}

// Whether so many places are those of a run's integers, where there are so many vertices, whose fields are of these kinds; or
// why they are not.
fn are_ints(
    vertices: u32,
    kinds: &[Kind; 14],
    field: u32,
    first: u32,
    count: u32,
    places: usize,
) -> Result<(), Wrong>
    ensures fit { OnOk result ((first + count ≤ vertices) × HoldIntsAt kinds.now field
        × (places ≡ count)) }
    ensures refused { IfErr result (IsMisfitOfInts vertices kinds.now field first count places) }
{
    if !is_there(vertices, first, count) {
        return Err(Wrong::Vertices);
    }
    if !hold_ints(kinds, field) {
        return Err(Wrong::Field);
    }
    if places as u64 != u64::from(count) {
        return Err(Wrong::Length);
    }
    Ok(())
}

// Whether this field of the vertices holds integers.
fn hold_ints(kinds: &[Kind; 14], field: u32) -> bool
    ensures holds { OnTrue result (HoldIntsAt kinds.now field) }
    ensures other { OnFalse result (HoldIntsAt kinds.now field → ⊥) }
{
    field < 6 && is_int_kind(kinds[field as usize])
}

// Whether a field of this kind holds integers.
fn is_int_kind(kind: Kind) -> bool
    ensures { result ≡ is_int_kind kind }
{
    match kind {
        Kind::I => true,
        Kind::Z | Kind::V | Kind::S | Kind::A => false,
    }
}

// Puts the numbers of a field of a run of vertices into an array of as many places.
fn put_ints(graph: &Graph, field: usize, first: u32, count: u32, values: &mut [i64])
    requires field { field < 6 }
    requires there { IsThere graph.now first count }
    requires size { length values.old ≡ count }
    ensures { values.new ≡ ints_of graph.now field first count }
{
    prove!(first <= graph.n());
    for k in 0..count {
        values[k as usize] = int_at(&graph.vertex(first + k), field);
    }
}

// The integer in this field of a vertex.
fn int_at(seen: &VertexRef<'_>, field: usize) -> i64
    requires { field < 6 }
    ensures { result ≡ int_at field (vertex_seen seen.now) }
{
    let fields = &seen.util[..];
    int_of(fields[field])
}

// The integer that a field holds.
fn int_of(seen: UtilRef<'_>) -> i64
    ensures { result ≡ int_of (util_seen seen.entry) }
{
    match seen {
        UtilRef::Int(number) => number,
        _ => 0,
    }
}

// Puts an entry of a run of a generator's vectors into an array of as many places.
fn put_entries(local: &Local, entry: usize, first: u32, count: u32, values: &mut [i64])
    requires there { first + count ≤ length (vectors_of local.now) }
    requires size { length values.old ≡ count }
    ensures { values.new ≡ map (λ x. pos (slice_index x entry))
        (take count (drop first (vectors_of local.now))) }
{
    match local {
        Local::Board(board) => put_members(board.family(), entry, first, count, values),
        Local::Simplex(simplex) => put_members(simplex.family(), entry, first, count, values),
        Local::Subsets(subsets) => put_members(subsets.family(), entry, first, count, values),
    }
}

// Puts an entry of a run of a family's vectors into an array of as many places.
fn put_members<F: Family>(family: &F, entry: usize, first: u32, count: u32, values: &mut [i64])
    requires there { first + count ≤ length (F.members family.now) }
    requires size { length values.old ≡ count }
    ensures { values.new ≡ map (λ x. pos (slice_index x entry))
        (take count (drop first (F.members family.now))) }
{
    let mut left = vectors_from(family, first);
    for k in 0..count {
        let x = left.front().unwrap();
        values[k as usize] = entry_of(x, entry);
        let _some = left.advance();
    }
}

// An entry of a vector, or 0 where it has none there.
fn entry_of(x: &[u32], entry: usize) -> i64
    ensures { result ≡ pos (slice_index x.now entry) }
{
    x.get(entry).copied().map_or(0, i64::from)
}
