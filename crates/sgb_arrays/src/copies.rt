//! Copies of graphs: of one that is built part by part, of a generator's that is not by building it.
ghost use Rattle.std.specs.Prelude.{◌≡◌, [], map, length, OnOk, IfOk, IsOkUnless};
ghost use Rattle.sgb_vec.specs.declared.panics.Panic.TheVariants as Panic;
ghost use Rattle.sgb_graph.specs.Columns.{arc_seen, util_seen, vertex_seen};
ghost use Rattle.sgb_graph.specs.Growth.{IsKept};
ghost use Rattle.sgb_graph.specs.Made.{no_fields};
ghost use Rattle.sgb_graph.specs.declared.fields.Util.TheVariants as util;
ghost use Rattle.sgb_arrays.specs.OpenGraphs.{graph_open};
ghost use Rattle.sgb_arrays.specs.inner.CopiedParts.{bare, with_records, with_vertices};

use crate::open_graphs::{OpenGraph, built};
use sgb_graph::{ArcRec, ArcRef, Graph, Id, Parts, Util, UtilRef, Vertex, VertexRef};
use sgb_vec::{Panic, Text};
use std::alloc::Global;

// The parts of a graph tell no greater number of arcs.
const MOST_ARCS: u64 = 1_000_000_000_000_000_000;

impl OpenGraph {
    /// A copy of its graph.
    ///
    /// `NoRoom` when out of memory, and nothing else.
    pub fn copy(&self, alloc: Global) -> Result<Graph, Panic>
        ensures copy { IfOk result (λ g. g ≡ graph_open self.now) }
        ensures memory { IsOkUnless result Panic.NoRoom }
    {
        match self {
            OpenGraph::Built(packed) => copy_of(alloc, packed.graph()),
            OpenGraph::Listed(local) => built(alloc, local),
        }
    }
}

// A copy of a graph.
fn copy_of(alloc: Global, graph: &Graph) -> Result<Graph, Panic>
    ensures copy { IfOk result (λ g. g ≡ graph.now) }
    ensures memory { IsOkUnless result Panic.NoRoom }
{
    let mut parts = bare_parts(alloc, graph)?;
    copy_vertices(alloc, graph, &mut parts)?;
    copy_records(alloc, graph, &mut parts)?;
    parts.check()
}

// The parts of a graph without its vertices and its records. That a graph counts more arcs than a file may tell would want as many
// records, for which there is no memory.
fn bare_parts(alloc: Global, graph: &Graph) -> Result<Parts, Panic>
    ensures parts { IfOk result (λ p. p ≡ bare graph.now) }
    ensures kept { IsKept graph.now }
    ensures memory { IsOkUnless result Panic.NoRoom }
{
    let _n = graph.n();
    let m = graph.m();
    if m > MOST_ARCS {
        return Err(Panic::NoRoom);
    }
    let Ok(id) = Id::new(graph.id().bytes()) else {
        return Err(Panic::NoRoom);
    };
    let kinds = graph.kinds();
    let fields = copy_fields(alloc, &own_fields(graph))?;
    Ok(Parts::new(alloc, id, m, kinds, fields))
}

// The graph's own fields.
fn own_fields(graph: &Graph) -> [UtilRef<'_>; 6]
    requires { length graph.now.util ≡ 6 }
    ensures { map util_seen result ≡ graph.now.util }
{
    [
        graph.graph_util(0).seen(),
        graph.graph_util(1).seen(),
        graph.graph_util(2).seen(),
        graph.graph_util(3).seen(),
        graph.graph_util(4).seen(),
        graph.graph_util(5).seen(),
    ]
}

// Puts copies of the vertices of a graph into parts that have none.
fn copy_vertices(alloc: Global, graph: &Graph, parts: &mut Parts) -> Result<(), Panic>
    requires { parts.old.vertices ≡ [] }
    ensures ok { OnOk result (parts.new ≡ with_vertices graph.now.vertices parts.old) }
    ensures memory { IsOkUnless result Panic.NoRoom }
{
    for v in 0..graph.n() {
        let vertex = copy_vertex(alloc, graph.vertex(v))?;
        parts.add_vertex(vertex)?;
    }
    Ok(())
}

// Puts copies of its arc records into parts that have none.
fn copy_records(alloc: Global, graph: &Graph, parts: &mut Parts) -> Result<(), Panic>
    requires { parts.old.records ≡ [] }
    ensures ok { OnOk result (parts.new ≡ with_records graph.now.records parts.old) }
    ensures memory { IsOkUnless result Panic.NoRoom }
{
    for k in 0..graph.records_len() {
        let arc = copy_record(alloc, graph.arc_rec(k))?;
        parts.add_arc(arc)?;
    }
    Ok(())
}

// A copy of a vertex.
fn copy_vertex(alloc: Global, vertex: VertexRef<'_>) -> Result<Vertex, Panic>
    ensures copy { IfOk result (λ v. v ≡ vertex_seen vertex.entry) }
    ensures memory { IsOkUnless result Panic.NoRoom }
{
    let name = vertex.name.copy(alloc)?;
    let util = copy_fields(alloc, &vertex.util)?;
    Ok(Vertex {
        name,
        arcs: vertex.arcs,
        util,
    })
}

// A copy of an arc record.
fn copy_record(alloc: Global, arc: ArcRef<'_>) -> Result<ArcRec, Panic>
    ensures copy { IfOk result (λ r. r ≡ arc_seen arc.entry) }
    ensures memory { IsOkUnless result Panic.NoRoom }
{
    let a = copy_value(alloc, arc.a)?;
    let b = copy_value(alloc, arc.b)?;
    Ok(ArcRec {
        tip: arc.tip,
        next: arc.next,
        len: arc.len,
        a,
        b,
    })
}

// Copies of the values of six fields.
fn copy_fields(alloc: Global, seen: &[UtilRef<'_>; 6]) -> Result<[Util; 6], Panic>
    ensures copy { IfOk result (λ fields. fields ≡ map util_seen seen.now) }
    ensures memory { IsOkUnless result Panic.NoRoom }
{
    let mut fields = no_fields();
    for k in 0..6 {
        fields[k] = copy_value(alloc, seen[k])?;
    }
    Ok(fields)
}

// A copy of the value of a field.
fn copy_value(alloc: Global, value: UtilRef<'_>) -> Result<Util, Panic>
    ensures copy { IfOk result (λ u. u ≡ util_seen value.entry) }
    ensures memory { IsOkUnless result Panic.NoRoom }
{
    match value {
        UtilRef::Nothing => Ok(Util::Nothing),
        UtilRef::Int(number) => Ok(Util::Int(number)),
        UtilRef::Vertex(vertex) => Ok(Util::Vertex(vertex)),
        UtilRef::Str(text) => copy_text(alloc, text),
        UtilRef::Chain(first) => Ok(Util::Chain(first)),
    }
}

// A copy of a text, as the value of a field.
fn copy_text(alloc: Global, text: &Text) -> Result<Util, Panic>
    ensures copy { IfOk result (λ u. u ≡ util.Str text.now) }
    ensures memory { IsOkUnless result Panic.NoRoom }
{
    match text.copy(alloc) {
        Ok(copy) => Ok(Util::Str(copy)),
        Err(_) => Err(Panic::NoRoom),
    }
}

// Six utility fields that are not used.
fn no_fields() -> [Util; 6]
    ensures { result ≡ no_fields }
{
    [
        Util::Nothing,
        Util::Nothing,
        Util::Nothing,
        Util::Nothing,
        Util::Nothing,
        Util::Nothing,
    ]
}
