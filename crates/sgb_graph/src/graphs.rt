ghost use Rattle.std.specs.Prelude.{◌≡◌, ◌<◌, ◌≤◌, length, map, ◌↔◌, slice_get, Some, IfOk, IsErrOf, IsOkUnless};
ghost use Rattle.sgb_vec.specs.Limits.{most_vertices};
ghost use Rattle.sgb_graph.specs.Made.{no_fields};
ghost use Rattle.sgb_graph.specs.Columns.{arc_seen, vertex_seen};
ghost use Rattle.sgb_graph.specs.inner.Columns.{util_kind};
ghost use Rattle.sgb_graph.specs.Growth.{IsKept, new_graph, with_id};
ghost use Rattle.sgb_graph.specs.inner.Growth.{new_id};
ghost use Rattle.sgb_graph.specs.inner.Kept.{kept_graph};

mod adding;
mod arcs;
mod degrees;
mod events;
mod numbers;

use crate::fields::{ArcRef, Kind, Util, VertexRef};
use crate::ids::{Id, IdWriter};
use crate::names::Names;
use crate::records::Records;
use crate::vertices::Vertices;
pub use arcs::Arcs;
use sgb_vec::{MOST_VERTICES, Panic, Text};
use std::alloc::Global;
use std::marker::Model;

/// A graph (GB_GRAPH): vertices 0 to n-1, each with a list of arc records, which are numbered and all stand in
/// one place. Contracts see it as the data of its definition.
pub struct Graph {
    id: Id,
    m: u64,
    util: [Util; 6],
    vertices: Vertices,
    records: Records,
}

// One function drops a graph: a derived drop would be a case for each kind of column, wherever a graph is dropped.
impl Drop for Graph {
    fn drop(self) {
        let Graph {
            id: _,
            m: _,
            util: _,
            vertices: _,
            records: _,
        } = self;
    }
}

impl Model for Graph {
    ghost use Rattle.sgb_graph.specs.Graphs.{GraphData};

    ghost Value = { GraphData };

    ghost use Rattle.sgb_graph.specs.Growth.{IsKept};
    ghost use Rattle.sgb_graph.specs.inner.Kept.{kept_graph};

    ghost view = { λ g. kept_graph g.id g.m g.util g.vertices g.records };

    ghost invariant = { λ g. IsKept (kept_graph g.id g.m g.util g.vertices g.records) };
}

impl Graph {
    /// The graph of these names that has no arcs and uses no utility fields; its id is `gb_new_graph(n)`
    /// (GB_GRAPH, gb_new_graph).
    ///
    /// `VeryBad` above 1,000,000,000 names, `NoRoom` when out of memory. The names are gone after a
    /// refusal too.
    pub fn new(alloc: Global, names: Names) -> Result<Graph, Panic>
        ensures ok { IfOk result (λ g. g ≡ new_graph names) }
        ensures refused { IsErrOf result Panic.VeryBad ↔ (most_vertices < length names) }
        ensures err { length names ≤ most_vertices → IsOkUnless result Panic.NoRoom }
    {
        if names.len() > MOST_VERTICES as usize {
            return Err(Panic::VeryBad);
        }
        let id = new_id(names.len());
        let vertices = Vertices::named(alloc, names)?;
        Ok(Graph {
            id,
            m: 0,
            util: no_fields(),
            vertices,
            records: Records::new(alloc, Kind::Z, Kind::Z),
        })
    }

    // The graph of these parts, which make up one.
    pub(crate) fn from_parts(
        id: Id,
        m: u64,
        util: [Util; 6],
        vertices: Vertices,
        records: Records,
    ) -> Graph
        requires { IsKept (kept_graph id m util vertices records) }
        ensures { result ≡ kept_graph id m util vertices records }
    {
        Graph {
            id,
            m,
            util,
            vertices,
            records,
        }
    }

    /// The number of vertices.
    pub fn n(&self) -> u32
        ensures count { result ≡ length self.now.vertices }
        ensures kept { IsKept self.now }
    {
        self.vertices.len() as u32
    }

    /// The number of arcs; an edge counts as two.
    pub fn m(&self) -> u64
        ensures { result ≡ self.now.m }
    {
        self.m
    }

    /// The id.
    pub fn id(&self) -> &Id
        ensures { result.now ≡ self.now.id }
    {
        &self.id
    }

    /// Gives the graph another id (GB_GRAPH, id field).
    pub fn set_id(&mut self, id: Id)
        ensures { self.new ≡ with_id id self.old }
    {
        self.id = id;
    }

    /// The name of vertex `v < n`.
    pub fn name(&self, v: u32) -> &Text
        requires { v < length self.now.vertices }
        ensures { slice_get (map (λ x. x.name) self.now.vertices) v ≡ Some result.now }
    {
        self.vertices.name(v)
    }

    /// What the utility fields hold: those of vertices u v w x y z, of arcs a b, of the graph uu vv ww xx yy zz.
    pub fn kinds(&self) -> [Kind; 14]
        ensures { result ≡ self.now.kinds }
    {
        let [u, v, w, x, y, z] = self.vertices.kinds();
        let [a, b] = self.records.kinds();
        let [uu, vv, ww, xx, yy, zz] = kinds_of(&self.util);
        [u, v, w, x, y, z, a, b, uu, vv, ww, xx, yy, zz]
    }

    /// Vertex `v < n`.
    pub fn vertex(&self, v: u32) -> VertexRef<'_>
        requires { v < length self.now.vertices }
        ensures { slice_get self.now.vertices v ≡ Some (vertex_seen result) }
    {
        self.vertices.get(v)
    }

    /// The number of arc records, on lists or not.
    pub fn records_len(&self) -> usize
        ensures { result ≡ length self.now.records }
    {
        self.records.len()
    }

    /// Arc record `k`, below `records_len()`.
    #[inline(always)]
    pub fn arc_rec(&self, k: usize) -> ArcRef<'_>
        requires { k < length self.now.records }
        ensures { slice_get self.now.records k ≡ Some (arc_seen result) }
    {
        self.records.get(k)
    }

    /// The graph's own utility field number `k`, of uu vv ww xx yy zz from 0.
    pub fn graph_util(&self, k: usize) -> &Util
        requires { k < 6 }
        ensures { slice_get self.now.util k ≡ Some result.now }
    {
        &self.util[k]
    }
}

// The id of a new graph of n vertices.
fn new_id(n: usize) -> Id
    requires { n ≤ most_vertices }
    ensures { result ≡ new_id n }
{
    let mut id = IdWriter::new();
    id.push_text(b"gb_new_graph(");
    id.push_number(n as i64);
    id.push_text(b")");
    id.id()
}

// Six utility fields that are not used.
fn no_fields() -> [Util; 6]
    ensures { result ≡ no_fields }
{
    [
        Util::Nothing,
        Util::Nothing,
        Util::Nothing,
        Util::Nothing,
        Util::Nothing,
        Util::Nothing,
    ]
}

// What these utility fields hold.
fn kinds_of(fields: &[Util; 6]) -> [Kind; 6]
    ensures { result ≡ map util_kind fields.now }
{
    let [uu, vv, ww, xx, yy, zz] = fields;
    [
        uu.kind(),
        vv.kind(),
        ww.kind(),
        xx.kind(),
        yy.kind(),
        zz.kind(),
    ]
}
