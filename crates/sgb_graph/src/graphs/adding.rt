//! New arcs and edges (GB_GRAPH, gb_new_arc and gb_new_edge).
ghost use Rattle.std.specs.Prelude.{◌≡◌, ◌<◌, ◌+◌, ◌++◌, [], ◌∷◌, length, min, max, ◌^◌, IfSome, OnOk, OnErr, IsOkUnless};
ghost use Rattle.sgb_graph.specs.Graphs.{ListsEnd, arc_record};
ghost use Rattle.sgb_graph.specs.Growth.{HasPlainArcs, KeepsAllButArcs, first_arc, with_arc, with_edge, with_first};
ghost use Rattle.sgb_graph.specs.inner.Growth.{after_lower};
ghost use Rattle.sgb_graph.specs.declared.fields.Kind.TheVariants.{Z};
// For the search alone.
ghost use Rattle.std.specs.Prelude.{Some};

use super::Graph;
use crate::records::Records;
use crate::vertices::Vertices;
use sgb_vec::Panic;
use std::alloc::AllocError;

impl Graph {
    /// A new arc of length `len` from vertex `u < n` to vertex `v < n`; it becomes the first on the list of `u`.
    /// Records may not have utility fields yet (GB_GRAPH, gb_new_arc).
    ///
    /// `NoRoom` when out of memory, and nothing else; the graph is then as it was.
    #[inline(always)]
    pub fn new_arc(&mut self, u: u32, v: u32, len: i64) -> Result<(), Panic>
        requires from { u < length self.old.vertices }
        requires to { v < length self.old.vertices }
        requires plain { HasPlainArcs self.old }
        ensures ok { OnOk result (self.new ≡ with_arc self.old u v len) }
        ensures rest { OnOk result (KeepsAllButArcs self.old self.new) }
        ensures ends { ListsEnd self.old }
        ensures err { OnErr result (self.new ≡ self.old) }
        ensures memory { IsOkUnless result Panic.NoRoom }
    {
        put_arc(&mut self.vertices, &mut self.records, u, v, len)?;
        self.m += 1;
        Ok(())
    }

    /// A new edge of length `len` between vertices `u < n` and `v < n`: two records with consecutive numbers, the
    /// lower first on the list of the smaller end, the higher on that of the other; of a loop the lower is the
    /// first and the higher follows it. Records may not have utility fields yet (GB_GRAPH, gb_new_edge).
    ///
    /// `NoRoom` when out of memory, and nothing else; the graph is then as it was.
    #[inline(always)]
    pub fn new_edge(&mut self, u: u32, v: u32, len: i64) -> Result<(), Panic>
        requires from { u < length self.old.vertices }
        requires to { v < length self.old.vertices }
        requires plain { HasPlainArcs self.old }
        ensures ok { OnOk result (self.new ≡ with_edge self.old u v len) }
        ensures rest { OnOk result (KeepsAllButArcs self.old self.new) }
        ensures ends { ListsEnd self.old }
        ensures err { OnErr result (self.new ≡ self.old) }
        ensures memory { IsOkUnless result Panic.NoRoom }
    {
        put_edge(&mut self.vertices, &mut self.records, u, v, len)?;
        self.m += 2;
        Ok(())
    }

    /// Takes room for so many arc records more: one for each arc that is to come, two for each edge. The graph is as it was.
    ///
    /// `NoRoom` when out of memory, and nothing else.
    pub fn reserve(&mut self, records: usize) -> Result<(), Panic>
        ensures kept { self.new ≡ self.old }
        ensures memory { IsOkUnless result Panic.NoRoom }
    {
        self.records.reserve(records)?;
        Ok(())
    }
}

// Puts a new record in front of the list of u.
#[inline(always)]
fn put_arc(
    vertices: &mut Vertices,
    records: &mut Records,
    u: u32,
    v: u32,
    len: i64,
) -> Result<(), AllocError>
    requires from { u < length vertices.old.items }
    requires plain { (records.old.a ≡ Z) × (records.old.b ≡ Z) }
    ensures nodes { OnOk result (vertices.new
        ≡ record vertices.old {
          items = with_first (length records.old.items) u vertices.old.items;
        }) }
    ensures arcs { OnOk result (records.new
        ≡ record records.old {
          items = records.old.items
              ++ arc_record v (first_arc vertices.old.items u) len ∷ [];
        }) }
    ensures room { length records.old.items < 2 ^ 63 }
    ensures nodes_stay { OnErr result (vertices.new ≡ vertices.old) }
    ensures arcs_stay { OnErr result (records.new ≡ records.old) }
{
    let number = records.len();
    let after = vertices.first(u);
    records.push_plain(v, after, len)?;
    vertices.set_first(u, number);
    Ok(())
}

// Puts the two new records of an edge in front of the lists of its ends.
#[inline(always)]
fn put_edge(
    vertices: &mut Vertices,
    records: &mut Records,
    u: u32,
    v: u32,
    len: i64,
) -> Result<(), AllocError>
    requires from { u < length vertices.old.items }
    requires to { v < length vertices.old.items }
    requires plain { (records.old.a ≡ Z) × (records.old.b ≡ Z) }
    ensures nodes { OnOk result (vertices.new
        ≡ record vertices.old {
          items = with_first (length records.old.items) (min u v)
              (with_first (length records.old.items + 1) (max u v) vertices.old.items);
        }) }
    ensures arcs { OnOk result (records.new
        ≡ record records.old {
          items = records.old.items
              ++ arc_record (max u v) (after_lower (length records.old.items) vertices.old.items u
              v) len
              ∷ arc_record (min u v) (first_arc vertices.old.items (max u v)) len ∷ [];
        }) }
    ensures room { length records.old.items < 2 ^ 63 }
    ensures nodes_stay { OnErr result (vertices.new ≡ vertices.old) }
    ensures arcs_stay { OnErr result (records.new ≡ records.old) }
{
    let low = u.min(v);
    let high = u.max(v);
    let number = records.len();
    let after_lower = after_lower(vertices, number, u, v);
    let after_higher = vertices.first(high);
    records.push_pair(len, high, after_lower, low, after_higher)?;
    vertices.set_first(high, number + 1);
    vertices.set_first(low, number);
    Ok(())
}

// What follows the lower record of a new edge: where it is a loop, the higher one.
#[inline(always)]
fn after_lower(vertices: &Vertices, number: usize, u: u32, v: u32) -> Option<usize>
    requires from { u < length vertices.now.items }
    requires to { v < length vertices.now.items }
    requires room { number < 2 ^ 63 }
    ensures value { result ≡ after_lower number vertices.now.items u v }
    ensures small { IfSome result (λ k. k + 1 < 2 ^ 64) }
{
    if u == v {
        return Some(number + 1);
    }
    vertices.first(u.min(v))
}
