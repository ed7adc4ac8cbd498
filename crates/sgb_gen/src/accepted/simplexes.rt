ghost use Rattle.std.specs.Prelude.{◌≡◌, ◌⊎◌, Err, ◌<◌, ◌≤◌, ◌+◌, length, map, slice_get, Contains, Some, None, Ok, IfOk, IfSome, OnOk, IsOkUnless, if◌then◌else◌};
ghost use Rattle.sgb_gen.specs.Simplexes.{accepted_simplex, simplex_id, moves_to, moves_of_simplex, simplex_vectors, simplex_vector_graph};
ghost use Rattle.sgb_gen.specs.inner.Simplexes.{can_shift, shifted, pairs_from, moves_by};
ghost use Rattle.sgb_vec.specs.Bounds.{simplex_of};
ghost use Rattle.sgb_vec.specs.Limits.{most_dimensions, most_vertices};
ghost use Rattle.sgb_vec.specs.Names.{name_of_vector};
ghost use Rattle.sgb_graph.specs.Descriptions.{IsAnswerOf};
ghost use Rattle.sgb_graph.specs.Growth.{AddsEvents, HasPlainArcs};
ghost use Rattle.sgb_gen.specs.VectorGraphs.{described_by, event_among, vertex_among};

mod counts;
mod known;
mod lists;

use crate::counted_places::CountedPlaces;
use crate::params::SimplexParams;
use crate::shifts::{can_move_unit, unit_moved};
use crate::vector_graphs::{put_coordinates, vector_names};
use sgb_graph::{Graph, Id, IdWriter, Names};
use sgb_vec::{Family, Panic, Shape, SumFamily, Vectors, simplex_bounds};
use std::alloc::Global;
use std::marker::Model;

/// The parameters of a simplex that is accepted (GB_BASIC, simplex): its sum, its bounds, and whether its graph
/// is directed.
#[derive(Drop)]
pub struct Simplex {
    shape: Shape,
    family: SumFamily,
    directed: bool,
}

impl Model for Simplex {
    ghost use Rattle.std.specs.Prelude.{◌≡◌, false};
    ghost use Rattle.sgb_gen.specs.Simplexes.{SimplexData};
    ghost use Rattle.sgb_vec.specs.Sums.{has_great_count};
    ghost use Rattle.sgb_gen.specs.inner.Simplexes.{IsAcceptedSum};

    ghost Value = { SimplexData };

    ghost view = { λ s. record {
      params = s.shape.params;
      sum = s.family;
      directed = s.directed;
    } };

    ghost invariant = { λ s. (s.shape.sizes ≡ s.family.bounds)
        × IsAcceptedSum s.shape.params s.family
        × (has_great_count s.family.total s.family.bounds ≡ false) };
}

impl Simplex {
    /// The simplex of these parameters (GB_BASIC, simplex): the vectors of the sum `n`, whose bounds `n0` to
    /// `n4` tell.
    ///
    /// Refused as `SimplexParams` tells. `NoRoom` when out of memory.
    pub fn new(
        alloc: Global,
        n: i64,
        n0: i64,
        n1: i64,
        n2: i64,
        n3: i64,
        n4: i64,
        directed: bool,
    ) -> Result<Simplex, Panic>
        ensures value { (result ≡ accepted_simplex
            (record { n = n; n0 = n0; n1 = n1; n2 = n2; n3 = n3; n4 = n4; directed = directed }))
            ⊎ (result ≡ Err Panic.NoRoom) }
        ensures refused { (e : Panic) → simplex_of n n0 n1 n2 n3 n4 ≡ Err e → result ≡ Err e }
    {
        let params = SimplexParams {
            n,
            n0,
            n1,
            n2,
            n3,
            n4,
            directed,
        };
        Simplex::from_params(alloc, &params)
    }

    /// The simplex of these parameters (GB_BASIC, simplex).
    ///
    /// Refused as `SimplexParams` tells. `NoRoom` when out of memory.
    pub fn from_params(alloc: Global, params: &SimplexParams) -> Result<Simplex, Panic>
        ensures value { (result ≡ accepted_simplex params.now) ⊎ (result ≡ Err Panic.NoRoom) }
        ensures refused { (e : Panic) → simplex_of params.now.n params.now.n0 params.now.n1
            params.now.n2 params.now.n3 params.now.n4 ≡ Err e
            → result ≡ Err e }
        // One bound takes no memory.
        ensures few { IfOk (simplex_of params.now.n params.now.n0 params.now.n1
            params.now.n2 params.now.n3 params.now.n4)
            (λ shape. length shape.sizes < 2)
            → result ≡ accepted_simplex params.now }
    {
        let shape = simplex_bounds(
            params.n, params.n0, params.n1, params.n2, params.n3, params.n4,
        )?;
        let family = SumFamily::new(alloc, params.n, shape.sizes())?;
        Ok(Simplex {
            shape,
            family,
            directed: params.directed,
        })
    }

    /// The vectors that are the vertices of the simplex's graph.
    pub fn family(&self) -> &SumFamily
        ensures { result.now ≡ self.now.sum }
    {
        &self.family
    }

    // Its vectors, each found by counts that are kept, where these want no more than a megabyte.
    pub(crate) fn places(&self, alloc: Global) -> Option<CountedPlaces<'_>>
        ensures { IfSome result (λ p. p ≡ simplex_vectors self.now) }
    {
        CountedPlaces::new(alloc, &self.family, self.sizes(), false)
    }

    // The same for a graph that is built, for which more counts are kept.
    fn places_of_graph(&self, alloc: Global) -> Option<CountedPlaces<'_>>
        ensures { IfSome result (λ p. p ≡ simplex_vectors self.now) }
    {
        CountedPlaces::new(alloc, &self.family, self.sizes(), true)
    }

    // The bounds of its vectors.
    #[inline(always)]
    fn sizes(&self) -> &[u32]
        ensures same { result.now ≡ self.now.sum.bounds }
        ensures few { length self.now.sum.bounds ≤ most_dimensions + 1 }
    {
        self.shape.sizes()
    }

    /// The names of its vertices, in order.
    ///
    /// `NoRoom` when out of memory, and nothing else.
    pub(crate) fn names(&self, alloc: Global) -> Result<Names, Panic>
        ensures ok { IfOk result (λ names. names ≡ map name_of_vector (simplex_vectors self.now)) }
        ensures few { length (simplex_vectors self.now) ≤ most_vertices }
        ensures memory { IsOkUnless result Panic.NoRoom }
    {
        vector_names(alloc, &self.family)
    }

    /// Whether its graph has arcs, and not edges.
    pub fn is_directed(&self) -> bool
        ensures { result ≡ self.now.directed }
    {
        self.directed
    }

    /// The id of the simplex's graph: `simplex(n,n0,n1,n2,n3,n4,directed)`, with -2 for an `n0` of 0, with `n`
    /// for a bound above it, and with 0 for what stands after the parameter that ends the bounds (GB_BASIC,
    /// simplex).
    pub fn id(&self) -> Id
        ensures { result ≡ simplex_id self.now }
    {
        let mut id = IdWriter::new();
        id.push_text(b"simplex(");
        id.push_numbers(self.shape.params());
        id.push_flag(self.directed);
        id.push_text(b")");
        id.id()
    }

    // The graph of the simplex. `NoRoom` when out of memory, and nothing else.
    pub(crate) fn graph(&self, alloc: Global) -> Result<Graph, Panic>
        ensures { IsAnswerOf (Ok (described_by (simplex_vector_graph self.now))) result }
    {
        let names = vector_names(alloc, &self.family)?;
        let mut graph = Graph::new(alloc, names)?;
        let places = self.places_of_graph(alloc);
        self.add_arcs(&mut graph, &places)?;
        put_coordinates(alloc, &mut graph, &self.family)?;
        graph.set_id(self.id());
        Ok(graph)
    }

    // The vertex of a vector: by the counts that are kept, where there are some.
    #[inline(always)]
    fn vertex_of(&self, places: &Option<CountedPlaces<'_>>, x: &[u32]) -> u32
        requires places { IfSome places.now (λ p. p ≡ simplex_vectors self.now) }
        requires member { Contains (simplex_vectors self.now) x.now }
        ensures { slice_get (simplex_vectors self.now) result ≡ Some x.now }
    {
        match places {
            Some(places) => places.place_of(x),
            None => self.family.place_of(x),
        }
    }

    // The vertex that `x` becomes when a unit goes from the lower place to the higher one, if it can.
    fn vertex_at(
        &self,
        places: &Option<CountedPlaces<'_>>,
        x: &[u32],
        lower: usize,
        higher: usize,
    ) -> Option<u32>
        requires places { IfSome places.now (λ p. p ≡ simplex_vectors self.now) }
        requires member { Contains (simplex_vectors self.now) x.now }
        requires order { lower < higher }
        requires entry { higher < length x.now }
        ensures vertex { result ≡ (if can_shift self.now.sum.bounds x.now
            (record { lower = lower; higher = higher })
            then Some (vertex_among (simplex_vectors self.now)
            (shifted x.now (record { lower = lower; higher = higher }))) else None) }
        ensures within { IfSome result (λ u. u < length (simplex_vectors self.now)) }
    {
        let bounds = self.sizes();
        if !can_move_unit(bounds, x, lower, higher) {
            return None;
        }
        let there = unit_moved(bounds, x, lower, higher);
        Some(self.vertex_of(places, there.as_slice()))
    }

    // Adds the moves to vertex `v`, which is the vector `x`, by a unit from the lower place to each higher one.
    fn add_moves_from(
        &self,
        graph: &mut Graph,
        places: &Option<CountedPlaces<'_>>,
        v: u32,
        x: &[u32],
        lower: usize,
    ) -> Result<(), Panic>
        requires places { IfSome places.now (λ p. p ≡ simplex_vectors self.now) }
        requires vertex { slice_get (simplex_vectors self.now) v ≡ Some x.now }
        requires entry { lower < length x.now }
        requires nodes { length graph.old.vertices ≡ length (simplex_vectors self.now) }
        requires plain { HasPlainArcs graph.old }
        ensures ok { OnOk result (AddsEvents self.now.directed graph.old graph.new
            (map (event_among (simplex_vectors self.now))
            (moves_by self.now.sum.bounds x.now (pairs_from (length x.now) lower)))) }
        ensures memory { IsOkUnless result Panic.NoRoom }
    {
        for higher in lower + 1..x.len() {
            let Some(u) = self.vertex_at(places, x, lower, higher) else {
                continue;
            };
            graph.add_event(self.directed, u, v, 1)?;
        }
        Ok(())
    }

    // Adds the moves to vertex `v`, which is the vector `x`.
    fn add_moves_to(
        &self,
        graph: &mut Graph,
        places: &Option<CountedPlaces<'_>>,
        v: u32,
        x: &[u32],
    ) -> Result<(), Panic>
        requires places { IfSome places.now (λ p. p ≡ simplex_vectors self.now) }
        requires vertex { slice_get (simplex_vectors self.now) v ≡ Some x.now }
        requires nodes { length graph.old.vertices ≡ length (simplex_vectors self.now) }
        requires plain { HasPlainArcs graph.old }
        ensures ok { OnOk result (AddsEvents self.now.directed graph.old graph.new
            (map (event_among (simplex_vectors self.now)) (moves_to self.now.sum.bounds x.now))) }
        ensures memory { IsOkUnless result Panic.NoRoom }
    {
        for lower in 0..x.len() {
            self.add_moves_from(graph, places, v, x, lower)?;
        }
        Ok(())
    }

    // Adds the arcs of the simplex, or its edges: to each vertex in order.
    fn add_arcs(&self, graph: &mut Graph, places: &Option<CountedPlaces<'_>>) -> Result<(), Panic>
        requires places { IfSome places.now (λ p. p ≡ simplex_vectors self.now) }
        requires nodes { length graph.old.vertices ≡ length (simplex_vectors self.now) }
        requires plain { HasPlainArcs graph.old }
        ensures ok { OnOk result (AddsEvents self.now.directed graph.old graph.new
            (map (event_among (simplex_vectors self.now)) (moves_of_simplex self.now))) }
        ensures memory { IsOkUnless result Panic.NoRoom }
    {
        let mut left = Vectors::all(&self.family);
        for v in 0..self.family.size() {
            let Some(x) = left.front() else {
                return Ok(());
            };
            self.add_moves_to(graph, places, v, x)?;
            let _some = left.advance();
        }
        Ok(())
    }
}
