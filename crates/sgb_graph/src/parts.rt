ghost use Rattle.std.specs.Prelude.{◌≡◌, ◌≤◌, ◌^◌, [], false, Err, OnOk, OnErr, IfOk, IsOkUnless, ◌&&◌, nat_le, length};
ghost use Rattle.sgb_graph.specs.Growth.{graph_data};
ghost use Rattle.sgb_vec.specs.Results.{IsValue};
ghost use Rattle.sgb_graph.specs.Parts.{checked, vertex_with_ints, with_record, with_vertex};
ghost use Rattle.sgb_vec.specs.Limits.{most_vertices};
ghost use Rattle.sgb_graph.specs.Sound.{IsGraph, fields_fit};

// Whether vertices and records fit kinds and numbers.
mod fitting;
// Parts that are kept as a graph keeps them.
mod kept;
// Walks along the chains of records.
mod walks;

use crate::fields::{ArcRec, Kind, Util, Vertex};
use crate::graphs::Graph;
use crate::ids::Id;
use kept::KeptParts;
use sgb_vec::{Panic, Text};
use std::alloc::Global;
use std::marker::Model;

/// The parts of a graph, as a file brings them (GB_SAVE, restore_graph): nothing says yet that they make up one.
/// Contracts see them as the data of a graph.
// Vertices are kept as a graph keeps them up to the first that can stand in no graph of these kinds. That one and all
// later ones stand beside, as they came: such parts make up no graph. So it is with records.
pub struct Parts {
    kept: KeptParts,
    more_vertices: Vec<Vertex>,
    more_records: Vec<ArcRec>,
}

// One function drops them, as it does a graph.
impl Drop for Parts {
    fn drop(self) {
        let Parts {
            kept: _,
            more_vertices: _,
            more_records: _,
        } = self;
    }
}

impl Model for Parts {
    ghost use Rattle.std.specs.Prelude.{IsTrue};
    ghost use Rattle.sgb_graph.specs.Graphs.{GraphData};
    ghost use Rattle.sgb_graph.specs.inner.Fitting.{first_fails, record_may_fit, vertex_may_fit, with_more};

    ghost Value = { GraphData };

    ghost view = { λ p. with_more p.more_vertices.items p.more_records.items p.kept };

    ghost invariant = { λ p.
        IsTrue (first_fails (vertex_may_fit p.kept.kinds) p.more_vertices.items)
        × IsTrue (first_fails (record_may_fit p.kept.kinds) p.more_records.items) };
}

impl Parts {
    /// The parts of a graph with this id, this number of arcs (10^18 at most), these kinds and these utility fields of
    /// its own, and no vertices and records yet. The kinds are those of the fields u v w x y z of vertices, a b of arcs,
    /// uu vv ww xx yy zz of the graph (GB_SAVE, restore_graph). It takes no memory.
    pub fn new(alloc: Global, id: Id, m: u64, kinds: [Kind; 14], util: [Util; 6]) -> Parts
        requires { m ≤ 10 ^ 18 }
        ensures { result ≡ graph_data id m kinds util [] [] }
    {
        Parts {
            kept: KeptParts::new(alloc, id, m, kinds, util),
            more_vertices: Vec::new(alloc),
            more_records: Vec::new(alloc),
        }
    }

    /// Puts a vertex after the others (GB_SAVE, restore_graph).
    ///
    /// `NoRoom` when out of memory, and nothing else; the parts are then as they were, and the vertex is dropped.
    pub fn add_vertex(&mut self, vertex: Vertex) -> Result<(), Panic>
        ensures ok { OnOk result (self.new ≡ with_vertex vertex self.old) }
        ensures err { OnErr result (self.new ≡ self.old) }
        ensures memory { IsOkUnless result Panic.NoRoom }
    {
        if self.more_vertices.is_empty() && self.kept.takes_vertex(&vertex) {
            self.kept.push_vertex(vertex)?;
            return Ok(());
        }
        self.more_vertices.push(vertex)?;
        Ok(())
    }

    /// Puts a vertex after the others that holds integers in the utility fields x, y, z and nothing in u, v, w (GB_SAVE,
    /// restore_graph). It is `add_vertex` of such a vertex.
    ///
    /// `NoRoom` when out of memory, and nothing else; the parts are then as they were, and the name is dropped.
    // Where all vertices are such, nothing but the vertex itself is written, once.
    #[inline(always)]
    pub fn add_vertex_with_ints(
        &mut self,
        name: Text,
        arcs: Option<usize>,
        x: i64,
        y: i64,
        z: i64,
    ) -> Result<(), Panic>
        ensures ok { OnOk result (self.new
            ≡ with_vertex (vertex_with_ints name arcs x y z) self.old) }
        ensures err { OnErr result (self.new ≡ self.old) }
        ensures memory { IsOkUnless result Panic.NoRoom }
    {
        if self.more_vertices.is_empty() && self.kept.takes_ints(arcs) {
            self.kept.push_ints(name, arcs, x, y, z)?;
            return Ok(());
        }
        self.add_vertex(Vertex::with_ints(name, arcs, x, y, z))
    }

    /// Puts an arc record after the others (GB_SAVE, restore_graph).
    ///
    /// `NoRoom` when out of memory, and nothing else; the parts are then as they were, and the record is dropped.
    #[inline(always)]
    pub fn add_arc(&mut self, arc: ArcRec) -> Result<(), Panic>
        ensures ok { OnOk result (self.new ≡ with_record arc self.old) }
        ensures err { OnErr result (self.new ≡ self.old) }
        ensures memory { IsOkUnless result Panic.NoRoom }
    {
        if self.more_records.is_empty() && self.kept.takes_record(&arc) {
            self.kept.push_record(arc)?;
            return Ok(());
        }
        self.more_records.push(arc)?;
        Ok(())
    }

    /// The graph that the parts make up, which has just these parts (GB_SAVE, restore_graph). It takes time and memory in
    /// proportion to their number.
    ///
    /// `Syntax` where they make up none: above 1,000,000,000 vertices; a utility field that is not of its kind; the
    /// number of a vertex or of a record that is not there; a chain of records that does not end, on a list or not; an
    /// arc on a vertex's list that leads to no vertex. `NoRoom` when out of memory, and never where the first three are so.
    /// The parts are gone after a refusal too.
    pub fn check(self) -> Result<Graph, Panic>
        ensures value { IsValue (checked self) result }
        ensures graph { IfOk result IsGraph }
        ensures unfit { (nat_le (length self.vertices) most_vertices && fields_fit self) ≡ false
            → result ≡ Err Panic.Syntax }
    {
        if !self.kept.are_all(&self.more_vertices, &self.more_records) {
            return Err(Panic::Syntax);
        }
        let Parts {
            kept,
            more_vertices: _,
            more_records: _,
        } = self;
        kept.check()
    }
}
