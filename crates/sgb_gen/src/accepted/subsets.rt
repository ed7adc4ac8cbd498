//! Subsets, and what two of them have in common.
//!
//! Where a graph is built, the arcs from each vertex down to the first one are found as for its list, and are added from the
//! last one on.
ghost use Rattle.std.specs.Prelude.{All, Contains, IfOk, IfSome, ◌≡◌, ◌⊎◌, Err, ◌<◌, ◌+◌, length, map, min, slice_get, Some, Ok, OnOk, IsOkUnless, ◌≤◌, ◌^◌};
ghost use Rattle.sgb_gen.specs.Subsets.{accepted_subsets, subsets_id, is_wanted_size, subsets_vectors, moves_of_subsets, subsets_vector_graph, common_size};
ghost use Rattle.sgb_vec.specs.Bounds.{simplex_of};
ghost use Rattle.sgb_vec.specs.Limits.{most_dimensions, most_vertices};
ghost use Rattle.sgb_vec.specs.Names.{name_of_vector};
ghost use Rattle.sgb_graph.specs.Descriptions.{IsAnswerOf};
ghost use Rattle.sgb_graph.specs.Growth.{AddsEvents, HasPlainArcs};
ghost use Rattle.sgb_gen.specs.VectorGraphs.{described_by, event_among};
ghost use Rattle.sgb_gen.specs.inner.LocalSubsets.{events_onto};
ghost use Rattle.std.specs.Simd.Lanes.{sum_l, zip2};

mod counts;
mod descents;
mod last_entries;
mod left_over;
mod lists;
mod pair_sums;
mod pairs;
mod sizes;

use crate::counted_places::CountedPlaces;
use crate::links::Links;
use crate::params::SubsetsParams;
use crate::vector_graphs::{put_coordinates, vector_names};
use sgb_graph::{Graph, Id, IdWriter, Names};
use sgb_vec::{Family, Panic, Shape, SumFamily, Vectors, simplex_bounds};
use std::alloc::Global;
use std::marker::Model;
use std::simd::prelude::*;

/// The parameters of subsets that are accepted (GB_BASIC, subsets): their sum and its bounds, how many elements
/// two of them may have in common where they are joined, and whether their graph is directed.
#[derive(Drop)]
pub struct Subsets {
    shape: Shape,
    family: SumFamily,
    size_bits: u128,
    directed: bool,
}

impl Model for Subsets {
    ghost use Rattle.std.specs.Prelude.{◌≡◌};
    ghost use Rattle.sgb_gen.specs.inner.Simplexes.{IsAcceptedSum};
    ghost use Rattle.sgb_gen.specs.Subsets.{SubsetsData};
    ghost use Rattle.sgb_gen.specs.inner.Subsets.{AreSmall};

    ghost Value = { SubsetsData };

    ghost view = { λ s. record {
      params = s.shape.params;
      sum = s.family;
      size_bits = s.size_bits;
      directed = s.directed;
    } };

    ghost invariant = { λ s. (s.shape.sizes ≡ s.family.bounds)
        × IsAcceptedSum s.shape.params s.family × AreSmall s.shape.params };
}

impl Subsets {
    /// The subsets of these parameters (GB_BASIC, subsets): the vectors of the sum `n` within the bounds that `n0` to
    /// `n4` tell, as multisets of `n` elements. Two of them are joined where bit c of `size_bits` is 1, c being how many
    /// elements they have in common.
    ///
    /// Refused as `SimplexParams` tells. `NoRoom` when out of memory.
    pub fn new(
        alloc: Global,
        n: i64,
        n0: i64,
        n1: i64,
        n2: i64,
        n3: i64,
        n4: i64,
        size_bits: u128,
        directed: bool,
    ) -> Result<Subsets, Panic>
        ensures value { (result ≡ accepted_subsets
            (record {
              n = n;
              n0 = n0;
              n1 = n1;
              n2 = n2;
              n3 = n3;
              n4 = n4;
              size_bits = size_bits;
              directed = directed;
            })) ⊎ (result ≡ Err Panic.NoRoom) }
        ensures refused { (e : Panic) → simplex_of n n0 n1 n2 n3 n4 ≡ Err e → result ≡ Err e }
    {
        let params = SubsetsParams {
            n,
            n0,
            n1,
            n2,
            n3,
            n4,
            size_bits,
            directed,
        };
        Subsets::from_params(alloc, &params)
    }

    /// The subsets of these parameters (GB_BASIC, subsets).
    ///
    /// Refused as `SimplexParams` tells. `NoRoom` when out of memory.
    pub fn from_params(alloc: Global, params: &SubsetsParams) -> Result<Subsets, Panic>
        ensures value { (result ≡ accepted_subsets params.now) ⊎ (result ≡ Err Panic.NoRoom) }
        ensures refused { (e : Panic) → simplex_of params.now.n params.now.n0 params.now.n1
            params.now.n2 params.now.n3 params.now.n4 ≡ Err e
            → result ≡ Err e }
        // One bound takes no memory.
        ensures few { IfOk (simplex_of params.now.n params.now.n0 params.now.n1
            params.now.n2 params.now.n3 params.now.n4)
            (λ shape. length shape.sizes < 2)
            → result ≡ accepted_subsets params.now }
    {
        let shape = simplex_bounds(
            params.n, params.n0, params.n1, params.n2, params.n3, params.n4,
        )?;
        let family = SumFamily::new(alloc, params.n, shape.sizes())?;
        Ok(Subsets {
            shape,
            family,
            size_bits: params.size_bits,
            directed: params.directed,
        })
    }

    /// The vectors that are the vertices of the graph of subsets.
    pub fn family(&self) -> &SumFamily
        ensures { result.now ≡ self.now.sum }
    {
        &self.family
    }

    // Its vectors, each found by counts that are kept, where these want no more than a megabyte.
    pub(crate) fn places(&self, alloc: Global) -> Option<CountedPlaces<'_>>
        ensures { IfSome result (λ p. p ≡ subsets_vectors self.now) }
    {
        CountedPlaces::new(alloc, &self.family, self.sizes(), false)
    }

    // The same for a graph that is built, for which more counts are kept.
    fn places_of_graph(&self, alloc: Global) -> Option<CountedPlaces<'_>>
        ensures { IfSome result (λ p. p ≡ subsets_vectors self.now) }
    {
        CountedPlaces::new(alloc, &self.family, self.sizes(), true)
    }

    // The bounds of its vectors.
    #[inline(always)]
    fn sizes(&self) -> &[u32]
        ensures same { result.now ≡ self.now.sum.bounds }
        ensures few { length self.now.sum.bounds ≤ most_dimensions + 1 }
    {
        self.shape.sizes()
    }

    /// The names of its vertices, in order.
    ///
    /// `NoRoom` when out of memory, and nothing else.
    pub(crate) fn names(&self, alloc: Global) -> Result<Names, Panic>
        ensures ok { IfOk result (λ names. names ≡ map name_of_vector (subsets_vectors self.now)) }
        ensures few { length (subsets_vectors self.now) ≤ most_vertices }
        ensures memory { IsOkUnless result Panic.NoRoom }
    {
        vector_names(alloc, &self.family)
    }

    /// Whether its graph has arcs, and not edges.
    pub fn is_directed(&self) -> bool
        ensures { result ≡ self.now.directed }
    {
        self.directed
    }

    /// The id of the graph of subsets: `subsets(n,n0,n1,n2,n3,n4,0xH,directed)`, with no bound above `n`, -2 for an
    /// `n0` of 0 and 0 for what stands after the parameter that ends the bounds; H is `size_bits` in hexadecimal
    /// (GB_BASIC, subsets).
    pub fn id(&self) -> Id
        ensures { result ≡ subsets_id self.now }
    {
        let mut id = IdWriter::new();
        id.push_text(b"subsets(");
        id.push_numbers(self.shape.params());
        id.push_hexadecimal(self.size_bits);
        id.push_text(b",");
        id.push_flag(self.directed);
        id.push_text(b")");
        id.id()
    }

    // The graph of the subsets. `NoRoom` when out of memory, and nothing else.
    pub(crate) fn graph(&self, alloc: Global) -> Result<Graph, Panic>
        ensures { IsAnswerOf (Ok (described_by (subsets_vector_graph self.now))) result }
    {
        let names = vector_names(alloc, &self.family)?;
        let mut graph = Graph::new(alloc, names)?;
        let places = self.places_of_graph(alloc);
        self.add_arcs(alloc, &mut graph, &places)?;
        put_coordinates(alloc, &mut graph, &self.family)?;
        graph.set_id(self.id());
        Ok(graph)
    }

    // Adds the arcs of the subsets, or their edges: for each vertex in order those to it.
    fn add_arcs(
        &self,
        alloc: Global,
        graph: &mut Graph,
        places: &Option<CountedPlaces<'_>>,
    ) -> Result<(), Panic>
        requires places { IfSome places.now (λ p. p ≡ subsets_vectors self.now) }
        requires vertices { length graph.old.vertices ≡ length (subsets_vectors self.now) }
        requires plain { HasPlainArcs graph.old }
        ensures ok { OnOk result (AddsEvents self.now.directed graph.old graph.new
            (map (event_among (subsets_vectors self.now)) (moves_of_subsets self.now))) }
        ensures memory { IsOkUnless result Panic.NoRoom }
    {
        let mut links = Links::new(alloc);
        let mut left = Vectors::all(&self.family);
        for v in 0..self.family.size() {
            let Some(x) = left.front() else {
                return Ok(());
            };
            self.put_earlier(x, &mut links)?;
            self.add_moves_to(graph, places, v, &links)?;
            let _some = left.advance();
        }
        Ok(())
    }

    // Adds the moves to vertex `v` from the vertices of these arcs, the last one first.
    fn add_moves_to(
        &self,
        graph: &mut Graph,
        places: &Option<CountedPlaces<'_>>,
        v: u32,
        links: &Links,
    ) -> Result<(), Panic>
        requires places { IfSome places.now (λ p. p ≡ subsets_vectors self.now) }
        requires vertex { v < length (subsets_vectors self.now) }
        requires tips { All (λ arc. Contains (subsets_vectors self.now) arc.tip) links.now.arcs }
        requires vertices { length graph.old.vertices ≡ length (subsets_vectors self.now) }
        requires plain { HasPlainArcs graph.old }
        ensures ok { OnOk result (AddsEvents self.now.directed graph.old graph.new
            (events_onto (subsets_vectors self.now) v links.now.arcs)) }
        ensures memory { IsOkUnless result Panic.NoRoom }
    {
        for k in (0..links.len()).rev() {
            let u = self.vertex_of(places, links.get(k).tip);
            graph.add_event(self.directed, u, v, 1)?;
        }
        Ok(())
    }

    // The vertex of a vector: by the counts that are kept, where there are some.
    #[inline(always)]
    fn vertex_of(&self, places: &Option<CountedPlaces<'_>>, x: &[u32]) -> u32
        requires places { IfSome places.now (λ p. p ≡ subsets_vectors self.now) }
        requires member { Contains (subsets_vectors self.now) x.now }
        ensures { slice_get (subsets_vectors self.now) result ≡ Some x.now }
    {
        match places {
            Some(places) => places.place_of(x),
            None => self.family.place_of(x),
        }
    }
}

// Whether `size_bits` has a bit of 1 for `c` elements in common; it has none for 128 and more.
fn is_wanted(size_bits: u128, c: u64) -> bool
    ensures { result ≡ is_wanted_size size_bits c }
{
    c < 128 && (size_bits >> c) & 1 == 1
}

/// How many elements two multisets have in common: the sum of the lesser entries (GB_BASIC, subsets). `u` and `v`
/// tell how often each has each element.
pub fn common(u: &[u32], v: &[u32]) -> u64
    requires widths { length u.now ≡ length v.now }
    requires fits { length u.now ≤ 2 ^ 31 }
    ensures { result ≡ common_size u.now v.now }
{
    let (ours, our_rest) = u.as_chunks::<8>();
    let (theirs, their_rest) = v.as_chunks::<8>();
    let mut total = 0;
    for (x, y) in ours.iter().zip(theirs) {
        total += common_in_chunk(x, y);
    }
    total + common_one_by_one(our_rest, their_rest)
}

// How many elements two multisets have in common, entry by entry.
fn common_one_by_one(u: &[u32], v: &[u32]) -> u64
    requires widths { length u.now ≡ length v.now }
    requires fits { length u.now ≤ 2 ^ 31 }
    ensures { result ≡ common_size u.now v.now }
{
    let mut total = 0;
    for (x, y) in u.iter().zip(v) {
        total += u64::from((*x).min(*y));
    }
    total
}

// How many elements eight entries of two multisets have in common.
fn common_in_chunk(u: &[u32; 8], v: &[u32; 8]) -> u64
    ensures { result ≡ common_size u.now v.now }
{
    sum_of(widened(lesser(u32x8::from_array(*u), u32x8::from_array(*v))))
}

// The lesser of the two entries in each lane.
fn lesser(u: u32x8, v: u32x8) -> u32x8
    requires lanes { (length u ≡ 8) × (length v ≡ 8) }
    ensures { result ≡ zip2 min u v }
{
    u.simd_min(v)
}

// The entries, each widened to 64 bits.
fn widened(entries: u32x8) -> u64x8
    ensures { result ≡ entries }
{
    entries.cast::<u64>()
}

// What the lanes add to.
fn sum_of(entries: u64x8) -> u64
    requires { sum_l entries < 2 ^ 64 }
    ensures { result ≡ sum_l entries }
{
    entries.strict_reduce_sum()
}
