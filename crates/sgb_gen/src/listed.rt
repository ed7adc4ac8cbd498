//! What a listing asks of a generator's graph, with no graph.
//!
//! Proofs of listings speak of a graph of vectors (`VectorGraph`), and of no generator. That of a board is listed by
//! `BoardLists`, or by an `OrderedBoard`, which has room for a start, so that nothing after it wants memory. Both make a table only
//! in `prepare`: names, sizes, where a listing begins and the number of arcs take none. That moves have their ends among the
//! vectors is a clause of `family` and no law: its proof would have to stand with the definitions.
ghost use Rattle.std.specs.Prelude.{◌≡◌, ◌⊎◌, ◌≤◌, ◌<◌, ◌^◌, length, true, false, All, Contains, IfErr, IfOk, IfSome, IsOk, OnOk, IsOkUnless};
ghost use Rattle.sgb_graph.specs.Made.{graph_described};
ghost use Rattle.sgb_gen.specs.ArcSinks.{AreGiven};
ghost use Rattle.sgb_gen.specs.Boards.{board_vector_graph};
ghost use Rattle.sgb_gen.specs.LocalLists.{list_in};
ghost use Rattle.sgb_gen.specs.Simplexes.{simplex_vector_graph};
ghost use Rattle.sgb_gen.specs.Sorts.{Sort, of_board, of_ordered_board, of_simplex, of_subsets};
ghost use Rattle.sgb_gen.specs.Subsets.{subsets_vector_graph};
ghost use Rattle.sgb_gen.specs.VectorGraphs.{HasEnds, HasUnitToMove, VectorGraph, described_by, vertex_among};
// For the search alone.
ghost use Rattle.std.specs.Prelude.{map, slice_get, Some};
ghost use Rattle.sgb_graph.specs.Graphs.{chain_of};

use crate::accepted::{BoardLists, OrderedBoard, Simplex, Subsets};
use crate::arc_sinks::ArcSink;
use crate::counted_places::CountedPlaces;
use crate::links::Links;
use crate::vector_places::VectorPlaces;
use sgb_graph::Id;
use sgb_vec::{BoxFamily, Family, Panic, SumFamily};

/// A generator's graph that is listed, one arc list after another.
pub trait Listed<'a> {
    /// The family of the vectors that are its vertices.
    type Members: Family + 'a;

    /// What finds the vertices of many vectors.
    type Places: VectorPlaces + Drop;

    // The graph.
    ghost graph: { Self → VectorGraph };

    // Which generator it is from.
    ghost sort: { Self → Sort };

    /// The vectors that are the vertices.
    fn family(&self) -> &'a Self::Members
        ensures members { Self.Members.members result.now ≡ (graph self.now).vectors }
        ensures ends { All (HasEnds (graph self.now).vectors) (graph self.now).moves };

    /// The id of the graph.
    fn id(&self) -> Id
        ensures { result ≡ (graph self.now).id };

    /// How many arcs the graph has, where an edge counts as two. They are counted without the lists.
    ///
    /// `NoRoom` when out of memory, and nothing else: of a board where 128 bits do not hold the number, of a simplex where a
    /// vector has a unit that might go to another entry, and of subsets never.
    /// The memory is from where that of the links comes.
    fn arcs_count(&self, links: &Links) -> Result<u128, Panic>
        ensures count { IfOk result (λ m. m ≡ (graph_described (described_by (graph self.now))).m) }
        ensures memory { IsOkUnless result Panic.NoRoom }
        ensures board { (sort self.now ≡ of_board) ⊎ (sort self.now ≡ of_ordered_board)
            → IfErr result (λ e. 2 ^ 128 ≤ (graph_described (described_by (graph self.now))).m) }
        ensures simplex { sort self.now ≡ of_simplex → IfErr result (λ e. HasUnitToMove (graph self.now)) }
        ensures subsets { sort self.now ≡ of_subsets → IsOk result };

    /// Whether `arcs_count` is known to tell the number, so that something may be written before it is asked: of subsets, and of
    /// a board where 128 bits are soon seen to hold the number; never of a simplex, which wants memory to count.
    fn has_countable_arcs(&self) -> bool
        ensures board { result ≡ true → (sort self.now ≡ of_board) ⊎ (sort self.now ≡ of_ordered_board)
            → (graph_described (described_by (graph self.now))).m < 2 ^ 128 }
        ensures simplex { sort self.now ≡ of_simplex → result ≡ false };

    /// Makes what all lists have in common, where there is memory for it: they are then made faster. A listing calls it once,
    /// before its first list. The memory is from where that of the links comes.
    fn prepare(&mut self, links: &Links)
        ensures same { graph self.new ≡ graph self.old }
        ensures sort { sort self.new ≡ sort self.old };

    /// Puts the arcs of the vertex of `x` into `links`, in the order of its list in the graph.
    ///
    /// `NoRoom` when out of memory, and nothing else.
    fn arcs_at(&mut self, x: &[u32], links: &mut Links) -> Result<(), Panic>
        requires { Contains (graph self.old).vectors x.now }
        ensures ok { OnOk result (links.new.arcs ≡ list_in (graph self.old) x.now) }
        ensures tips { OnOk result (All (λ a. Contains (graph self.old).vectors a.tip)
            links.new.arcs) }
        ensures widths { OnOk result (All (λ a. length a.tip ≡ length x.now) links.new.arcs) }
        ensures memory { IsOkUnless result Panic.NoRoom }
        ensures same { graph self.new ≡ graph self.old }
        ensures sort { sort self.new ≡ sort self.old };

    /// Hands the arcs of the vertex of `x` to a sink, one by one, in the order of its list in the graph. No list is kept, and no
    /// memory is wanted but by the sink, and by a `BoardLists` for one start.
    ///
    /// The sink's fault, inside; or `NoRoom` when out of memory for a `BoardLists`, and nothing else: the sink was then handed
    /// nothing.
    fn give_arcs<K: ArcSink<R, S>, R, S>(
        &mut self,
        x: &[u32],
        links: &mut Links,
        sink: &K,
        room: &mut R,
        out: &mut S,
    ) -> Result<Result<(), K::Fault>, Panic>
        requires member { Contains (graph self.old).vectors x.now }
        requires at { K.at sink.now (graph self.old).vectors x.now }
        requires width { K.width sink.now ≡ length x.now }
        requires ready { K.ready sink.now room.old out.old }
        ensures given { IfOk result (AreGiven (K.took sink.now) (K.cut sink.now) room.old out.old
            (list_in (graph self.old) x.now) room.new out.new) }
        ensures ready { IfOk result (λ r. OnOk r (K.ready sink.now room.new out.new)) }
        ensures memory { IsOkUnless result Panic.NoRoom }
        ensures board { IfErr result (λ p. sort self.old ≡ of_board) }
        ensures unput { IfErr result (λ p. (room.new ≡ room.old) × (out.new ≡ out.old)) }
        ensures same { graph self.new ≡ graph self.old }
        ensures sort { sort self.new ≡ sort self.old };

    /// The vectors, each found at once: those of a board by their entries, others by counts that are kept; made for a run, where
    /// many are looked for. `None` where the counts want more than a megabyte, or out of memory. The memory is from where that of
    /// the links comes.
    fn places(&self, links: &Links) -> Option<Self::Places>
        ensures { IfSome result (λ p. Self.Places.vectors p ≡ (graph self.now).vectors) };

    /// The vertex of a vector: its place among the vectors, counted from 0. No memory is taken.
    fn place_of(&self, x: &[u32]) -> u32
        requires { Contains (graph self.now).vectors x.now }
        ensures { result ≡ vertex_among (graph self.now).vectors x.now };
}

impl<'a> Listed<'a> for BoardLists<'a> {
    type Members = BoxFamily;

    type Places = &'a BoxFamily;

    ghost graph = { board_vector_graph };

    ghost sort = { λ _. of_board };

    fn family(&self) -> &'a BoxFamily {
        self.board.family()
    }

    fn id(&self) -> Id {
        self.board.id()
    }

    fn arcs_count(&self, links: &Links) -> Result<u128, Panic> {
        self.board.arcs_count()
    }

    fn has_countable_arcs(&self) -> bool {
        self.board.has_countable_arcs()
    }

    fn prepare(&mut self, links: &Links) {
        BoardLists::prepare(self, links)
    }

    fn arcs_at(&mut self, x: &[u32], links: &mut Links) -> Result<(), Panic> {
        BoardLists::arcs_at(self, x, links)
    }

    fn give_arcs<K: ArcSink<R, S>, R, S>(
        &mut self,
        x: &[u32],
        links: &mut Links,
        sink: &K,
        room: &mut R,
        out: &mut S,
    ) -> Result<Result<(), K::Fault>, Panic> {
        self.give_with(x, links, sink, room, out)
    }

    fn places(&self, _links: &Links) -> Option<&'a BoxFamily> {
        Some(self.board.family())
    }

    fn place_of(&self, x: &[u32]) -> u32 {
        self.board.family().place_of(x)
    }
}

impl<'a> Listed<'a> for OrderedBoard<'a> {
    type Members = BoxFamily;

    type Places = &'a BoxFamily;

    ghost graph = { board_vector_graph };

    ghost sort = { λ _. of_ordered_board };

    fn family(&self) -> &'a BoxFamily {
        self.lists.board.family()
    }

    fn id(&self) -> Id {
        self.lists.board.id()
    }

    fn arcs_count(&self, links: &Links) -> Result<u128, Panic> {
        self.lists.board.arcs_count()
    }

    fn has_countable_arcs(&self) -> bool {
        self.lists.board.has_countable_arcs()
    }

    fn prepare(&mut self, links: &Links) {
        self.lists.prepare(links)
    }

    fn arcs_at(&mut self, x: &[u32], links: &mut Links) -> Result<(), Panic> {
        self.lists.arcs_at(x, links)
    }

    fn give_arcs<K: ArcSink<R, S>, R, S>(
        &mut self,
        x: &[u32],
        _links: &mut Links,
        sink: &K,
        room: &mut R,
        out: &mut S,
    ) -> Result<Result<(), K::Fault>, Panic> {
        Ok(self.give(x, sink, room, out))
    }

    fn places(&self, _links: &Links) -> Option<&'a BoxFamily> {
        Some(self.lists.board.family())
    }

    fn place_of(&self, x: &[u32]) -> u32 {
        self.family().place_of(x)
    }
}

impl<'a> Listed<'a> for &'a Simplex {
    type Members = SumFamily;

    type Places = CountedPlaces<'a>;

    ghost graph = { λ s. simplex_vector_graph s.now };

    ghost sort = { λ _. of_simplex };

    fn family(&self) -> &'a SumFamily {
        (**self).family()
    }

    fn id(&self) -> Id {
        (**self).id()
    }

    fn arcs_count(&self, links: &Links) -> Result<u128, Panic> {
        (**self).arcs_count(links)
    }

    fn has_countable_arcs(&self) -> bool {
        false
    }

    fn prepare(&mut self, _links: &Links) {}

    fn arcs_at(&mut self, x: &[u32], links: &mut Links) -> Result<(), Panic> {
        (**self).arcs_at(x, links)
    }

    fn give_arcs<K: ArcSink<R, S>, R, S>(
        &mut self,
        x: &[u32],
        _links: &mut Links,
        sink: &K,
        room: &mut R,
        out: &mut S,
    ) -> Result<Result<(), K::Fault>, Panic> {
        Ok((**self).push_all(x, sink, room, out))
    }

    fn places(&self, links: &Links) -> Option<CountedPlaces<'a>> {
        (**self).places(links.alloc())
    }

    fn place_of(&self, x: &[u32]) -> u32 {
        (**self).family().place_of(x)
    }
}

impl<'a> Listed<'a> for &'a Subsets {
    type Members = SumFamily;

    type Places = CountedPlaces<'a>;

    ghost graph = { λ s. subsets_vector_graph s.now };

    ghost sort = { λ _. of_subsets };

    fn family(&self) -> &'a SumFamily {
        (**self).family()
    }

    fn id(&self) -> Id {
        (**self).id()
    }

    fn arcs_count(&self, links: &Links) -> Result<u128, Panic> {
        Ok((**self).arcs_count(links.alloc()))
    }

    fn has_countable_arcs(&self) -> bool {
        true
    }

    fn prepare(&mut self, _links: &Links) {}

    fn arcs_at(&mut self, x: &[u32], links: &mut Links) -> Result<(), Panic> {
        (**self).arcs_at(x, links)
    }

    fn give_arcs<K: ArcSink<R, S>, R, S>(
        &mut self,
        x: &[u32],
        _links: &mut Links,
        sink: &K,
        room: &mut R,
        out: &mut S,
    ) -> Result<Result<(), K::Fault>, Panic> {
        Ok((**self).push_all(x, sink, room, out))
    }

    fn places(&self, links: &Links) -> Option<CountedPlaces<'a>> {
        (**self).places(links.alloc())
    }

    fn place_of(&self, x: &[u32]) -> u32 {
        (**self).family().place_of(x)
    }
}
