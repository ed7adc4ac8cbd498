//! What the operations read of a graph beside its lists of arcs, and the graph that they begin with.
ghost use Rattle.std.specs.Prelude.{◌≡◌, ◌<◌, ◌≤◌, ◌↔◌, ◌++◌, [], ◌∷◌, All, length, map, slice_index_or, OnOk, IfOk, IsErrOf, IsOkUnless};
ghost use Rattle.sgb_vec.specs.Limits.{most_vertices};
ghost use Rattle.sgb_vec.specs.Names.{IsTextByte};
ghost use Rattle.sgb_graph.specs.Growth.{new_graph};
ghost use Rattle.sgb_graph.specs.Vertices.{names_of};
ghost use Rattle.sgb_ops.specs.Compounds.{joined_name};
ghost use Rattle.sgb_ops.specs.inner.Compounds.{begun_name};
ghost use Rattle.sgb_ops.specs.inner.Sources.{names_held};

use crate::compounds::{begun_name, ended_name};
use sgb_graph::{Graph, Names};
use sgb_vec::{Panic, Text};
use std::alloc::Global;

/// How many bytes of each of two names stay, where they are joined with a byte between them.
pub(crate) const MOST_PART: usize = 2_047;

/// Copies of the names of a graph's vertices, in order.
///
/// `NoRoom` when out of memory, and nothing else.
pub(crate) fn names_of(alloc: Global, graph: &Graph) -> Result<Names, Panic>
    ensures ok { IfOk result (λ names. names ≡ names_of graph.now) }
    ensures few { length (names_of graph.now) ≤ most_vertices }
    ensures memory { IsOkUnless result Panic.NoRoom }
{
    let mut names = Names::with_capacity(alloc, graph.n() as usize)?;
    for v in 0..graph.n() {
        let name = graph.name(v).copy(alloc)?;
        let Ok(()) = names.push(name) else {
            return Err(Panic::NoRoom);
        };
    }
    Ok(names)
}

/// The names of a graph's vertices for who reads them: those of a graph that is built stay there.
#[derive(Drop)]
pub(crate) enum VertexNames<'a> {
    Of(&'a Graph),
    Made(Names),
}

impl<'a> VertexNames<'a> {
    /// The name of vertex `v`.
    pub(crate) fn get(&self, v: u32) -> &Text
        requires { v < length (names_held self.now) }
        ensures { result.now ≡ slice_index_or (names_held self.now) v [] }
    {
        match self {
            VertexNames::Of(graph) => graph.name(v),
            VertexNames::Made(names) => names.get(v),
        }
    }
}

/// The graph of these names that has no arcs, with room for so many records where that can be had.
///
/// `VeryBad` above 1,000,000,000 names, `NoRoom` when out of memory.
pub(crate) fn graph_with_room(alloc: Global, names: Names, records: usize) -> Result<Graph, Panic>
    ensures ok { IfOk result (λ g. g ≡ new_graph names) }
    ensures refused { IsErrOf result Panic.VeryBad ↔ (most_vertices < length names) }
    ensures err { length names ≤ most_vertices → IsOkUnless result Panic.NoRoom }
{
    let mut built = Graph::new(alloc, names)?;
    // Without room the records take it as they come.
    let _room = built.reserve(records);
    Ok(built)
}

/// Appends this name joined with each of `n` others, with the separator, a byte, between them.
///
/// `NoRoom` when out of memory, and nothing else.
pub(crate) fn push_joined_names(
    alloc: Global,
    names: &mut Names,
    name: &Text,
    separator: &[u8],
    others: &VertexNames<'_>,
    n: u32,
) -> Result<(), Panic>
    requires short { length separator.now ≤ 1 }
    requires printable { All IsTextByte separator.now }
    requires all { n ≡ length (names_held others.now) }
    ensures ok { OnOk result (names.new ≡ names.old
        ++ map (joined_name name.now separator.now) (names_held others.now)) }
    ensures memory { IsOkUnless result Panic.NoRoom }
{
    let start = ended_name(alloc, name, MOST_PART, separator)?;
    push_begun_names(alloc, names, &start, others, n)
}

// Appends this start with each of `n` others after it.
fn push_begun_names(
    alloc: Global,
    names: &mut Names,
    start: &Text,
    others: &VertexNames<'_>,
    n: u32,
) -> Result<(), Panic>
    requires start { length start.now ≤ 2_048 }
    requires all { n ≡ length (names_held others.now) }
    ensures ok { OnOk result (names.new ≡ names.old
        ++ map (begun_name start.now) (names_held others.now)) }
    ensures memory { IsOkUnless result Panic.NoRoom }
{
    for w in 0..n {
        push_name(names, begun_name(alloc, start, others.get(w), MOST_PART)?)?;
    }
    Ok(())
}

/// Appends a name.
///
/// `NoRoom` when out of memory, and nothing else.
pub(crate) fn push_name(names: &mut Names, name: Text) -> Result<(), Panic>
    ensures ok { OnOk result (names.new ≡ names.old ++ name ∷ []) }
    ensures memory { IsOkUnless result Panic.NoRoom }
{
    match names.push(name) {
        Ok(()) => Ok(()),
        Err(_refused) => Err(Panic::NoRoom),
    }
}
