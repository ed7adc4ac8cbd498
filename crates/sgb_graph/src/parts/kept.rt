//! Parts whose fields hold values of their kinds, kept as a graph keeps them.
//!
//! They are kept so from the first one on: to check them copies nothing.
ghost use Rattle.std.specs.Prelude.{◌≡◌, ◌<◌, ◌≤◌, ◌+◌, ◌^◌, ◌&&◌, ◌==◌, [], ◌∷◌, length, nat_le, false, Err, IsTrue, OnOk, OnErr, IfOk};
ghost use Rattle.std.specs.Bool.{OnTrue};
ghost use Rattle.std.specs.List.{list_all};
ghost use Rattle.sgb_vec.specs.Limits.{most_vertices};
ghost use Rattle.sgb_graph.specs.Growth.{graph_data};
ghost use Rattle.sgb_vec.specs.Results.{IsValue};
ghost use Rattle.sgb_graph.specs.Parts.{checked, vertex_with_ints, with_record, with_vertex};
ghost use Rattle.sgb_graph.specs.Sound.{IsGraph, chain_fits, fields_fit, graph_kinds, is_sound, record_fits, utils_fit, vertex_fits, vertex_kinds};
ghost use Rattle.sgb_graph.specs.inner.Fitting.{most, record_may_fit, vertex_may_fit};
ghost use Rattle.sgb_graph.specs.inner.KeptVertices.{ints_alone};

use super::fitting::{record_fits, utils_fit, vertex_fits};
use super::walks::{chains_end, lead_back, lists_lead_to_vertices};
use crate::fields::{ArcRec, Kind, Util, Vertex};
use crate::graphs::Graph;
use crate::ids::Id;
use crate::ranges::chain_fits;
use crate::records::Records;
use crate::vertices::Vertices;
use sgb_vec::{MOST_VERTICES, Panic, Text};
use std::alloc::{AllocError, Global};
use std::marker::Model;

// Parts of a graph whose vertices and records are kept by the kinds of their fields. Contracts see them as the data of
// a graph.
pub(super) struct KeptParts {
    alloc: Global,
    id: Id,
    m: u64,
    kinds: [Kind; 14],
    util: [Util; 6],
    vertices: Vertices,
    records: Records,
}

// One function drops them, as it does a graph.
impl Drop for KeptParts {
    fn drop(self) {
        let KeptParts {
            alloc: _,
            id: _,
            m: _,
            kinds: _,
            util: _,
            vertices: _,
            records: _,
        } = self;
    }
}

impl Model for KeptParts {
    ghost use Rattle.std.specs.Prelude.{◌≡◌, ◌≤◌, ◌^◌, [], ◌∷◌};
    ghost use Rattle.sgb_graph.specs.Graphs.{GraphData};
    ghost use Rattle.sgb_graph.specs.Growth.{graph_data};
    ghost use Rattle.sgb_graph.specs.Sound.{arc_kinds, vertex_kinds};
    ghost use Rattle.sgb_graph.specs.inner.KeptVertices.{kinds_of_vertices};

    ghost Value = { GraphData };

    ghost view = { λ p. graph_data p.id p.m p.kinds p.util p.vertices.items p.records.items };

    ghost invariant = { λ p. (p.m ≤ 10 ^ 18)
        × (kinds_of_vertices p.vertices ≡ vertex_kinds p.kinds)
        × (p.records.a ∷ p.records.b ∷ [] ≡ arc_kinds p.kinds) };
}

impl KeptParts {
    // The parts with no vertices and records. It takes no memory.
    pub(super) fn new(
        alloc: Global,
        id: Id,
        m: u64,
        kinds: [Kind; 14],
        util: [Util; 6],
    ) -> KeptParts
        requires { m ≤ 10 ^ 18 }
        ensures { result ≡ graph_data id m kinds util [] [] }
    {
        let vertices = Vertices::new(alloc, kinds_of_vertices(&kinds));
        let records = Records::new(alloc, kinds[6], kinds[7]);
        KeptParts {
            alloc,
            id,
            m,
            kinds,
            util,
            vertices,
            records,
        }
    }

    // Whether a vertex may be one of a graph of these kinds. No other can be kept.
    pub(super) fn takes_vertex(&self, vertex: &Vertex) -> bool
        ensures { result ≡ vertex_may_fit self.now.kinds vertex.now }
    {
        vertex_fits(usize::MAX, usize::MAX, &self.kinds[..6], vertex)
    }

    // Whether a record may be one of a graph of these kinds. No other can be kept.
    #[inline(always)]
    pub(super) fn takes_record(&self, arc: &ArcRec) -> bool
        ensures { result ≡ record_may_fit self.now.kinds arc.now }
    {
        record_fits(usize::MAX, usize::MAX, &self.kinds[6..8], arc)
    }

    // Puts a vertex after the others.
    pub(super) fn push_vertex(&mut self, vertex: Vertex) -> Result<(), AllocError>
        requires { IsTrue (vertex_may_fit self.old.kinds vertex) }
        ensures ok { OnOk result (self.new ≡ with_vertex vertex self.old) }
        ensures err { OnErr result (self.new ≡ self.old) }
    {
        self.vertices.push(vertex)
    }

    // Whether vertices hold integers in x, y, z and nothing in u, v, w, and one with this first record may be one of them.
    #[inline(always)]
    pub(super) fn takes_ints(&self, arcs: Option<usize>) -> bool
        ensures kinds { OnTrue result (vertex_kinds self.now.kinds ≡ ints_alone) }
        ensures arcs { OnTrue result (IsTrue (chain_fits most arcs)) }
    {
        self.vertices.hold_ints_alone() && chain_fits(usize::MAX, arcs)
    }

    // Puts a vertex that holds integers in x, y, z and nothing in u, v, w after the others.
    #[inline(always)]
    pub(super) fn push_ints(
        &mut self,
        name: Text,
        arcs: Option<usize>,
        x: i64,
        y: i64,
        z: i64,
    ) -> Result<(), AllocError>
        requires kinds { vertex_kinds self.old.kinds ≡ ints_alone }
        requires arcs { IsTrue (chain_fits most arcs) }
        ensures ok { OnOk result (self.new
            ≡ with_vertex (vertex_with_ints name arcs x y z) self.old) }
        ensures err { OnErr result (self.new ≡ self.old) }
    {
        self.vertices.push_ints(name, arcs, x, y, z)
    }

    // Puts a record after the others.
    #[inline(always)]
    pub(super) fn push_record(&mut self, arc: ArcRec) -> Result<(), AllocError>
        requires { IsTrue (record_may_fit self.old.kinds arc) }
        ensures ok { OnOk result (self.new ≡ with_record arc self.old) }
        ensures err { OnErr result (self.new ≡ self.old) }
    {
        self.records.push(arc)
    }

    // Whether there are no vertices and records more than these.
    pub(super) fn are_all(&self, vertices: &[Vertex], records: &[ArcRec]) -> bool
        ensures all { result ≡ (length vertices.now == 0 && length records.now == 0) }
        ensures vertices { length self.now.vertices + length vertices.now < 2 ^ 64 }
        ensures records { length self.now.records + length records.now < 2 ^ 64 }
    {
        let _kept = (self.vertices.len(), self.records.len());
        vertices.is_empty() && records.is_empty()
    }

    // The graph that the parts make up, as `Parts::check` says.
    pub(super) fn check(self) -> Result<Graph, Panic>
        ensures value { IsValue (checked self) result }
        ensures graph { IfOk result IsGraph }
        ensures unfit { (nat_le (length self.vertices) most_vertices && fields_fit self) ≡ false
            → result ≡ Err Panic.Syntax }
    {
        if !self.fit() || !self.are_sound()? {
            return Err(Panic::Syntax);
        }
        Ok(self.into_graph())
    }

    // The graph of these parts, which make up one.
    fn into_graph(self) -> Graph
        requires { IsGraph self }
        ensures { result ≡ self }
    {
        let KeptParts {
            alloc: _,
            id,
            m,
            kinds: _,
            util,
            vertices,
            records,
        } = self;
        Graph::from_parts(id, m, util, vertices, records)
    }

    // Whether there are not too many vertices, and all fields fit their kinds.
    fn fit(&self) -> bool
        ensures { result ≡ (nat_le (length self.now.vertices) most_vertices && fields_fit
            self.now) }
    {
        self.vertices.len() <= MOST_VERTICES as usize && self.fields_fit()
    }

    // Whether the graph's own fields, its vertices' and its records' fit their kinds.
    fn fields_fit(&self) -> bool
        ensures { result ≡ fields_fit self.now }
    {
        self.own_utils_fit() && self.vertices_fit() && self.records_fit()
    }

    // Whether the graph's own utility fields fit.
    fn own_utils_fit(&self) -> bool
        ensures { result ≡ utils_fit (length self.now.vertices) (length self.now.records)
            (graph_kinds self.now.kinds) self.now.util }
    {
        let (n, m) = (self.vertices.len(), self.records.len());
        utils_fit(n, m, own_kinds(&self.kinds), &self.util)
    }

    // Whether each vertex's fields fit.
    fn vertices_fit(&self) -> bool
        ensures { result ≡ list_all (vertex_fits self.now) self.now.vertices }
    {
        self.vertices.fit(self.records.len())
    }

    // Whether each arc record's fields fit.
    fn records_fit(&self) -> bool
        ensures { result ≡ list_all (record_fits self.now) self.now.records }
    {
        self.records.fit(self.vertices.len())
    }

    // Whether each record's chain ends, and each arc on a list leads to a vertex.
    fn are_sound(&self) -> Result<bool, AllocError>
        requires few { length self.now.vertices ≤ most_vertices }
        requires fit { IsTrue (fields_fit self.now) }
        ensures { IfOk result (λ b. b ≡ is_sound self.now) }
    {
        if lead_back(&self.records) {
            return Ok(true);
        }
        if !chains_end(self.alloc, &self.records)? {
            return Ok(false);
        }
        lists_lead_to_vertices(self.alloc, &self.vertices, &self.records)
    }
}

// Of the fourteen kinds those of a vertex's fields.
fn kinds_of_vertices(kinds: &[Kind; 14]) -> [Kind; 6]
    ensures kinds { result ≡ vertex_kinds kinds.now }
    ensures long { length kinds.now ≡ 14 }
{
    let [u, v, w, x, y, z, ..] = *kinds;
    [u, v, w, x, y, z]
}

// The kinds of the graph's own fields.
fn own_kinds(kinds: &[Kind; 14]) -> &[Kind]
    ensures kinds { result.now ≡ graph_kinds kinds.now }
    ensures long { length result.now ≡ 6 }
{
    &kinds[8..]
}
