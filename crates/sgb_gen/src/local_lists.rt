//! A generator's graph whose lists are read one by one: no graph is built, and no list is kept.
//!
//! When `lists` has none no clause says.
ghost use Rattle.std.specs.Prelude.{◌≡◌, ◌<◌, ◌≤◌, ℕ, length, slice_get, All, Contains, IfOk, IfSome, IsOkUnless, Some};
ghost use Rattle.std.specs.Bool.{OnTrue};
ghost use Rattle.sgb_vec.specs.Limits.{most_vertices};
ghost use Rattle.sgb_graph.specs.Graphs.{chain_of};
ghost use Rattle.sgb_graph.specs.Made.{graph_described};
ghost use Rattle.sgb_graph.specs.Vertices.{names_of};
ghost use Rattle.sgb_gen.specs.ArcSinks.{AreGiven};
ghost use Rattle.sgb_gen.specs.Generators.{described, vector_graph_of, vectors_of};
ghost use Rattle.sgb_gen.specs.LocalLists.{list_in};
ghost use Rattle.sgb_gen.specs.inner.LocalLists.{AreListsOf};

use crate::accepted::{BoardLists, Simplex, Subsets};
use crate::arc_sinks::ArcSink;
use crate::counted_places::CountedPlaces;
use crate::links::Links;
use crate::locals::Local;
use crate::vector_places::VectorPlaces;
use sgb_graph::{Id, Names};
use sgb_vec::{BoxFamily, Family, Panic, Steps, Vector};
use std::alloc::Global;
use std::marker::Model;

/// What the lists of a generator's graph have in common. Contracts see the generator's accepted parameters.
#[derive(Drop)]
pub struct LocalLists<'a> {
    local: &'a Local,
    id: Id,
    kept: KeptLists<'a>,
}

// What hands out the arcs, and what finds the vertices where they lead.
#[derive(Drop)]
enum KeptLists<'a> {
    Board(BoardLists<'a>, &'a BoxFamily),
    Simplex(&'a Simplex, CountedPlaces<'a>),
    Subsets(&'a Subsets, CountedPlaces<'a>),
}

impl<'a> Model for LocalLists<'a> {
    ghost use Rattle.std.specs.Prelude.{◌≡◌};
    ghost use Rattle.sgb_graph.specs.Made.{graph_described};
    ghost use Rattle.sgb_gen.specs.Generators.{described};
    ghost use Rattle.sgb_gen.specs.declared.locals.Local.{Local};
    ghost use Rattle.sgb_gen.specs.inner.LocalLists.{AreListsOf};

    ghost Value = { Local };

    ghost view = { λ l. l.local.now };

    ghost invariant = { λ l. (l.id ≡ (graph_described (described l.local.now)).id)
        × AreListsOf l.local.now l.kept };
}

impl Local {
    /// What its lists have in common. `None` where the vectors of a sum want more than a megabyte to be found, or out of memory.
    pub fn lists(&self, alloc: Global) -> Option<LocalLists<'_>>
        ensures { IfSome result (λ l. l ≡ self.now) }
    {
        let kept = self.kept_lists(alloc)?;
        Some(LocalLists {
            local: self,
            id: self.id(),
            kept,
        })
    }

    // The same of its generator.
    fn kept_lists(&self, alloc: Global) -> Option<KeptLists<'_>>
        ensures { IfSome result (AreListsOf self.now) }
    {
        match self {
            Local::Board(board) => {
                let lists = board.lists(&Links::new(alloc));
                Some(KeptLists::Board(lists, board.family()))
            }
            Local::Simplex(simplex) => {
                let places = simplex.places(alloc)?;
                Some(KeptLists::Simplex(simplex, places))
            }
            Local::Subsets(subsets) => {
                let places = subsets.places(alloc)?;
                Some(KeptLists::Subsets(subsets, places))
            }
        }
    }
}

impl<'a> LocalLists<'a> {
    /// How many vertices the graph has. All arcs lead to these.
    pub fn size(&self) -> u32
        ensures count { result ≡ length (graph_described (described self.now)).vertices }
        ensures tips { (v : ℕ) → v < length (graph_described (described self.now)).vertices
            → All (λ l. l.tip < length (graph_described (described self.now)).vertices)
            (chain_of (graph_described (described self.now)) v) }
    {
        self.local.size()
    }

    /// Its id.
    pub fn id(&self) -> &Id
        ensures { result.now ≡ (graph_described (described self.now)).id }
    {
        &self.id
    }

    /// Whether it has arcs, and not edges.
    pub fn is_directed(&self) -> bool
        ensures { result ≡ (vector_graph_of self.now).directed }
    {
        self.local.is_directed()
    }

    /// The names of its vertices, in order.
    ///
    /// `NoRoom` when out of memory, and nothing else.
    pub fn names(&self, alloc: Global) -> Result<Names, Panic>
        ensures ok { IfOk result (λ names. names
            ≡ names_of (graph_described (described self.now))) }
        ensures few { length (names_of (graph_described (described self.now))) ≤ most_vertices }
        ensures memory { IsOkUnless result Panic.NoRoom }
    {
        self.local.names(alloc)
    }

    /// Puts the vector of vertex `v` into `x`: at once where `x` is that of the vertex before or after it.
    pub fn put_vector(&self, v: u32, x: &mut Vector)
        requires { v < length (graph_described (described self.now)).vertices }
        ensures { slice_get (vectors_of self.now) v ≡ Some x.new.items }
    {
        match &self.kept {
            KeptLists::Board(_, family) => put_vector(*family, family, v, x),
            KeptLists::Simplex(simplex, places) => put_vector(simplex.family(), places, v, x),
            KeptLists::Subsets(subsets, places) => put_vector(subsets.family(), places, v, x),
        }
    }

    /// Hands the arcs of the vertex of `x` to a sink, one by one, in the order of its list in the graph. What the links hold is
    /// open.
    ///
    /// The sink's fault, inside; or `NoRoom` when out of memory, and nothing else.
    pub fn give_arcs<K: ArcSink<R, S>, R, S>(
        &self,
        x: &[u32],
        links: &mut Links,
        sink: &K,
        room: &mut R,
        out: &mut S,
    ) -> Result<Result<(), K::Fault>, Panic>
        requires member { Contains (vectors_of self.now) x.now }
        requires at { K.at sink.now (vectors_of self.now) x.now }
        requires width { K.width sink.now ≡ length x.now }
        requires ready { K.ready sink.now room.old out.old }
        ensures given { IfOk result (AreGiven (K.took sink.now) (K.cut sink.now) room.old out.old
            (list_in (vector_graph_of self.now) x.now) room.new out.new) }
        ensures memory { IsOkUnless result Panic.NoRoom }
    {
        match &self.kept {
            KeptLists::Board(lists, _) => lists.give_with(x, links, sink, room, out),
            KeptLists::Simplex(simplex, _) => Ok(simplex.push_all(x, sink, room, out)),
            KeptLists::Subsets(subsets, _) => Ok(subsets.push_all(x, sink, room, out)),
        }
    }
}

impl<'a> VectorPlaces for LocalLists<'a> {
    ghost use Rattle.sgb_gen.specs.Generators.{vectors_of};

    ghost vectors = { λ l. vectors_of l };

    #[inline(always)]
    fn place_if_there(&self, x: &[u32]) -> u32 {
        match &self.kept {
            KeptLists::Board(_, family) => family.place_if_there(x),
            KeptLists::Simplex(_, places) => places.place_if_there(x),
            KeptLists::Subsets(_, places) => places.place_if_there(x),
        }
    }
}

// Puts the vector at this place into `x`.
fn put_vector<F: Family, P: VectorPlaces>(family: &F, places: &P, place: u32, x: &mut Vector)
    requires places { P.vectors places.now ≡ F.members family.now }
    requires there { place < length (F.members family.now) }
    ensures { slice_get (F.members family.now) place ≡ Some x.new.items }
{
    if step_to(family, places, place, x) {
        return;
    }
    let _found = family.at(place, x);
}

// Puts the vector at this place into `x`, where `x` is that before or after it.
fn step_to<F: Family, P: VectorPlaces>(family: &F, places: &P, place: u32, x: &mut Vector) -> bool
    requires { P.vectors places.now ≡ F.members family.now }
    ensures { OnTrue result (slice_get (F.members family.now) place ≡ Some x.new.items) }
{
    if !family.holds(x.as_slice()) {
        return false;
    }
    let own = places.place_if_there(x.as_slice());
    if place > own && place - own == 1 {
        return family.next(x, &mut Steps::new());
    }
    if own > place && own - place == 1 {
        return family.prev(x, &mut Steps::new());
    }
    false
}
