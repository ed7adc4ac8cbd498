//! Graphs whose vertices are the vectors of a family, with their names and their coordinates (GB_BASIC).
ghost use Rattle.std.specs.Prelude.{◌≡◌, ◌+◌, ◌≤◌, pos, length, map, slice_index, IfOk, IsOkUnless, OnOk};
ghost use Rattle.sgb_vec.specs.Limits.{most_dimensions};
ghost use Rattle.sgb_vec.specs.Names.{name_of_vector};
ghost use Rattle.sgb_graph.specs.Made.{no_kinds, no_fields};
ghost use Rattle.sgb_gen.specs.inner.VectorGraphs.{HasCoordinates};

use sgb_graph::{Graph, Names};
use sgb_vec::{Family, NameText, Panic, Text, Vectors, put_name};
use std::alloc::Global;

/// The names of the vectors of a family, in order (GB_BASIC, board).
///
/// `NoRoom` when out of memory, and nothing else.
pub(crate) fn vector_names<F: Family>(alloc: Global, family: &F) -> Result<Names, Panic>
    ensures ok { IfOk result (λ names. names ≡ map name_of_vector (F.members family.now)) }
    ensures memory { IsOkUnless result Panic.NoRoom }
{
    let mut names = Names::with_capacity(alloc, family.size() as usize)?;
    let mut text = NameText::new();
    let mut left = Vectors::all(family);
    while let Some(vector) = left.front() {
        let name = vector_name(alloc, vector, &mut text)?;
        let Ok(()) = names.push(name) else {
            return Err(Panic::NoRoom);
        };
        let _some = left.advance();
    }
    Ok(names)
}

// The name of a vector. `text` is what it is made with: what it holds is open.
fn vector_name(alloc: Global, vector: &[u32], text: &mut NameText) -> Result<Text, Panic>
    requires { length vector.now ≤ most_dimensions + 1 }
    ensures ok { IfOk result (λ name. name ≡ name_of_vector vector.now) }
    ensures memory { IsOkUnless result Panic.NoRoom }
{
    put_name(vector, text);
    Text::of_bytes(alloc, text.bytes())
}

/// Puts the first three entries of each vector into the utility fields x, y, z of its vertex, and 0 for those
/// that it does not have (GB_BASIC, board).
///
/// `NoRoom` when out of memory, and nothing else.
pub(crate) fn put_coordinates<F: Family>(
    alloc: Global,
    graph: &mut Graph,
    family: &F,
) -> Result<(), Panic>
    requires vertices { length graph.old.vertices ≡ length (F.members family.now) }
    requires kinds { graph.old.kinds ≡ no_kinds }
    requires fields { map (λ v. v.util) graph.old.vertices
        ≡ map (λ v. no_fields) (F.members family.now) }
    ensures ok { OnOk result (HasCoordinates (F.members family.now) graph.old graph.new) }
    ensures memory { IsOkUnless result Panic.NoRoom }
{
    let mut left = Vectors::all(family);
    for u in 0..family.size() {
        let Some(vector) = left.front() else {
            return Ok(());
        };
        let x = entry(vector, 0);
        let y = entry(vector, 1);
        let z = entry(vector, 2);
        graph.set_vertex_ints(alloc, u, x, y, z)?;
        let _some = left.advance();
    }
    Ok(())
}

// Entry number k of a vector, or 0.
fn entry(vector: &[u32], k: usize) -> i64
    ensures { result ≡ pos (slice_index vector.now k) }
{
    vector.get(k).copied().map_or(0, i64::from)
}
