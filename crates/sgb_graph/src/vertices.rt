//! The vertices of a graph, column by column: the names of all, the first records of all, and the values of each utility
//! field. So who reads one of these reads little else, and a field that is not used takes no memory.
ghost use Rattle.std.specs.Prelude.{◌≡◌, ◌<◌, ◌+◌, ◌^◌, ◌++◌, ◌&&◌, [], ◌∷◌, length, map, slice_get, Some, IfOk, IfSome, OnErr, OnOk};
ghost use Rattle.std.specs.Bool.{OnTrue};
ghost use Rattle.std.specs.List.{list_all};
ghost use Rattle.sgb_graph.specs.Columns.{vertex_seen};
ghost use Rattle.sgb_graph.specs.Sound.{chain_fits};
ghost use Rattle.sgb_graph.specs.inner.Columns.{util_kind};
ghost use Rattle.sgb_graph.specs.inner.Fitting.{vertex_fits_by};
ghost use Rattle.sgb_graph.specs.Growth.{at_place, first_arc, new_vertex, with_first, with_numbers, with_some_numbers};
ghost use Rattle.sgb_graph.specs.Parts.{vertex_with_ints};
ghost use Rattle.sgb_graph.specs.inner.KeptRecords.{kept_number};
ghost use Rattle.sgb_graph.specs.inner.KeptVertices.{columns_fit, field_columns, field_kinds, ints_alone, kinds_of_vertices};
ghost use Rattle.sgb_graph.specs.declared.fields.Kind.TheVariants.{Z, I};

// The utility fields of all vertices.
mod fields;

use crate::fields::{Kind, Vertex, VertexRef};
use crate::kept_numbers::{keep_number, read_number};
use crate::names::Names;
use crate::ranges::chain_fits;
use crate::room::put;
use fields::Fields;
use sgb_vec::Text;
use std::alloc::{AllocError, Global};
use std::marker::Model;

// The vertices of a graph: their names, the first records of their lists of arcs, and their utility fields.
#[derive(Drop)]
pub(crate) struct Vertices {
    names: Vec<Text>,
    firsts: Vec<usize>,
    fields: Fields,
}

impl Model for Vertices {
    ghost use Rattle.sgb_graph.specs.inner.KeptVertices.{AreKept, KeptVertices, kept_vertices};

    ghost Value = { KeptVertices };

    ghost view = { λ g. kept_vertices g.names.items g.firsts.items g.fields };

    ghost invariant = { λ g. AreKept g.names.items g.firsts.items g.fields };
}

impl Vertices {
    // The vertices of these names, with no arcs and no utility fields.
    pub(crate) fn named(alloc: Global, names: Names) -> Result<Vertices, AllocError>
        ensures { IfOk result (λ g. g ≡ record {
          u = Z;
          v = Z;
          w = Z;
          x = Z;
          y = Z;
          z = Z;
          items = map new_vertex names;
        }) }
    {
        let firsts = vec![in alloc; keep_number(None); names.len()]?;
        Ok(Vertices {
            names: names.into_texts(),
            firsts,
            fields: Fields::new(alloc, [Kind::Z; 6]),
        })
    }

    // No vertices, whose utility fields u, v, w, x, y, z are of these kinds. It takes no memory.
    pub(crate) fn new(alloc: Global, kinds: [Kind; 6]) -> Vertices
        ensures kinds { kinds_of_vertices result ≡ kinds }
        ensures items { result.items ≡ [] }
    {
        Vertices {
            names: Vec::new(alloc),
            firsts: Vec::new(alloc),
            fields: Fields::new(alloc, kinds),
        }
    }

    // The number of vertices.
    pub(crate) fn len(&self) -> usize
        ensures count { result ≡ length self.now.items }
        ensures small { result < 2 ^ 63 }
    {
        self.names.len()
    }

    // What the utility fields hold.
    pub(crate) fn kinds(&self) -> [Kind; 6]
        ensures { result ≡ kinds_of_vertices self.now }
    {
        self.fields.kinds()
    }

    // Whether the fields of each vertex fit as many vertices as there are and m records.
    pub(crate) fn fit(&self, m: usize) -> bool
        ensures { result ≡ list_all (vertex_fits_by (length self.now.items) m
            (kinds_of_vertices self.now)) self.now.items }
    {
        all_fit(&self.firsts, &self.fields, m)
    }

    // Puts a vertex, whose utility fields are of the kinds here, after the others.
    pub(crate) fn push(&mut self, vertex: Vertex) -> Result<(), AllocError>
        requires kinds { map util_kind vertex.util ≡ kinds_of_vertices self.old }
        requires arcs { IfSome vertex.arcs (λ k. k + 1 < 2 ^ 64) }
        ensures ok { OnOk result (self.new
            ≡ record self.old { items = self.old.items ++ vertex ∷ [] }) }
        ensures err { OnErr result (self.new ≡ self.old) }
    {
        let Vertex { name, arcs, util } = vertex;
        self.fields.reserve()?;
        self.names.reserve(1)?;
        self.firsts.reserve(1)?;
        self.fields.push(util);
        put(&mut self.names, name);
        put(&mut self.firsts, keep_number(arcs));
        Ok(())
    }

    // Whether they hold integers in x, y, z and nothing in u, v, w.
    #[inline(always)]
    pub(crate) fn hold_ints_alone(&self) -> bool
        ensures { OnTrue result (kinds_of_vertices self.now ≡ ints_alone) }
    {
        self.fields.are_ints_alone()
    }

    // Puts a vertex that holds integers in x, y, z and nothing in u, v, w, as the others do, after them.
    #[inline(always)]
    pub(crate) fn push_ints(
        &mut self,
        name: Text,
        arcs: Option<usize>,
        x: i64,
        y: i64,
        z: i64,
    ) -> Result<(), AllocError>
        requires kinds { kinds_of_vertices self.old ≡ ints_alone }
        requires arcs { IfSome arcs (λ k. k + 1 < 2 ^ 64) }
        ensures ok { OnOk result (self.new ≡ record self.old
            { items = self.old.items ++ vertex_with_ints name arcs x y z ∷ [] }) }
        ensures err { OnErr result (self.new ≡ self.old) }
    {
        self.fields.reserve()?;
        self.names.reserve(1)?;
        self.firsts.reserve(1)?;
        self.fields.push_ints(x, y, z);
        put(&mut self.names, name);
        put(&mut self.firsts, keep_number(arcs));
        Ok(())
    }

    // The name of vertex `v < n`.
    pub(crate) fn name(&self, v: u32) -> &Text
        requires { v < length self.now.items }
        ensures { slice_get (map (λ x. x.name) self.now.items) v ≡ Some result.now }
    {
        &self.names[v as usize]
    }

    // The first record of the list of vertex `v < n`.
    pub(crate) fn first(&self, v: u32) -> Option<usize>
        requires { v < length self.now.items }
        ensures value { result ≡ first_arc self.now.items v }
        ensures small { IfSome result (λ k. k + 1 < 2 ^ 64) }
    {
        read_number(self.firsts[v as usize])
    }

    // Makes this the first record of the list of vertex `v < n`.
    pub(crate) fn set_first(&mut self, v: u32, number: usize)
        requires vertex { v < length self.old.items }
        requires small { number + 1 < 2 ^ 64 }
        ensures { self.new ≡ record self.old
            { items = with_first number v self.old.items } }
    {
        self.firsts[v as usize] = keep_number(Some(number));
    }

    // Vertex `v < n`.
    pub(crate) fn get(&self, v: u32) -> VertexRef<'_>
        requires { v < length self.now.items }
        ensures { slice_get self.now.items v ≡ Some (vertex_seen result) }
    {
        VertexRef {
            name: &self.names[v as usize],
            arcs: read_number(self.firsts[v as usize]),
            util: self.fields.get(v as usize),
        }
    }

    // Puts three integers into the fields x, y, z of vertex `v < n`. These fields then hold integers in every vertex: 0
    // where there was none. It takes memory where they did not.
    pub(crate) fn put_numbers(
        &mut self,
        alloc: Global,
        v: u32,
        x: i64,
        y: i64,
        z: i64,
    ) -> Result<(), AllocError>
        requires { v < length self.old.items }
        ensures ok { OnOk result (self.new ≡ record self.old {
          x = I;
          y = I;
          z = I;
          items = at_place (with_numbers x y z) v (map with_some_numbers self.old.items);
        }) }
        ensures err { OnErr result (self.new ≡ self.old) }
    {
        self.fields.hold_numbers(alloc, self.names.len())?;
        self.fields.set_numbers(v as usize, x, y, z);
        Ok(())
    }
}

// Whether all of these fit as many vertices as there are and m records.
fn all_fit(firsts: &[usize], fields: &Fields, m: usize) -> bool
    ensures { result ≡ (list_all (λ k. chain_fits m (kept_number k)) firsts.now
        && columns_fit (length firsts.now) m (field_kinds fields.now)
        (field_columns (length firsts.now) fields.now)) }
{
    firsts_fit(firsts, m) && fields.fit(firsts.len(), m)
}

// Whether the first record of each list is one of m, or none.
fn firsts_fit(firsts: &[usize], m: usize) -> bool
    ensures { result ≡ list_all (λ k. chain_fits m (kept_number k)) firsts.now }
{
    firsts
        .iter()
        .all(|first| chain_fits(m, read_number(*first)))
}
