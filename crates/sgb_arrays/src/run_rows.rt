//! The lists of a run.
//!
//! Tips are vertices of the whole graph. They are found from their vectors with no search, of a sum by counts that are made once for
//! the run (`places`).
ghost use Rattle.std.specs.Prelude.{◌≡◌, ◌++◌, ◌+◌, ◌≤◌, ℕ, length, map, slice_get, Some, All, Contains, IfErr, IfOk, IfSome, IsOkUnless, OnOk, ⊤};
ghost use Rattle.sgb_gen.specs.LocalLists.{LocalArc};
ghost use Rattle.sgb_gen.specs.VectorGraphs.{HasEnds, described_by, vertex_among};
ghost use Rattle.sgb_graph.specs.Graphs.{chain_of};
ghost use Rattle.sgb_graph.specs.Made.{graph_described};
ghost use Rattle.sgb_vec.specs.Lexicographic.{IsRising};
ghost use Rattle.sgb_gen.specs.Generators.{described};
ghost use Rattle.sgb_arrays.specs.Runs.{AreRows, IsRunRefusal, IsThere};
// For the search alone.
ghost use Rattle.std.specs.Prelude.{◌*◌, ◌<◌, reverse};
ghost use Rattle.sgb_vec.specs.Limits.{most_vertices};

use crate::placed_arcs::PlacedArcs;
use crate::refusals::Wrong;
use crate::rows::Rows;
use crate::runs::{has_run, vectors_from};
use sgb_gen::{Links, Listed, Local, Visit, Visitor};
use sgb_vec::{Family, Panic};
use std::alloc::Global;

/// The lists of `count` vertices of a generator's graph, from vertex `first` on. The graph is not built.
///
/// `Vertices` where there are not so many vertices; `NoRoom` when out of memory.
pub fn rows_of_run(alloc: Global, local: &Local, first: u32, count: u32) -> Result<Rows, Wrong>
    ensures rows { IfOk result (λ rows. IsThere (graph_described (described local.now)) first count
        × AreRows (graph_described (described local.now)) first count rows.starts.items
        rows.tips.items rows.lengths.items) }
    ensures refused { IfErr result (IsRunRefusal (graph_described (described local.now)) first
        count) }
{
    rows_with_room(alloc, local, first, count, 0)
}

/// The same, with room for so many arcs from the start, where the caller knows how many there are to be.
pub(crate) fn rows_with_room(
    alloc: Global,
    local: &Local,
    first: u32,
    count: u32,
    room: usize,
) -> Result<Rows, Wrong>
    ensures rows { IfOk result (λ rows. IsThere (graph_described (described local.now)) first count
        × AreRows (graph_described (described local.now)) first count rows.starts.items
        rows.tips.items rows.lengths.items) }
    ensures refused { IfErr result (IsRunRefusal (graph_described (described local.now)) first
        count) }
{
    let mut links = Links::new(alloc);
    let run = RowsOfRun {
        alloc,
        first,
        count,
        room,
    };
    local.visit(run, &mut links)
}

// The lists of a run of a generator's graph, made in links that serve for list after list.
#[derive(Drop)]
struct RowsOfRun {
    alloc: Global,
    first: u32,
    count: u32,
    room: usize,
}

impl Visitor<Links> for RowsOfRun {
    type Answer = Result<Rows, Wrong>;

    ghost needs = { λ _ _ _ _. ⊤ };

    ghost gives = { λ v g _ _ _ result.
        IfOk result (λ rows. IsThere (graph_described (described_by g)) v.first v.count
        × AreRows (graph_described (described_by g)) v.first v.count rows.starts.items
        rows.tips.items rows.lengths.items)
        × IfErr result (IsRunRefusal (graph_described (described_by g)) v.first v.count) };
}

impl<'a, L: Listed<'a>> Visit<'a, L, Links> for RowsOfRun {
    fn visit(self, listed: &mut L, links: &mut Links) -> Result<Rows, Wrong> {
        listed.prepare(links);
        rows_in(self.alloc, listed, self.first, self.count, self.room, links)
    }
}

// The lists of a run of a graph, by what a listing asks of it, with room for so many arcs from the start, here and below.
fn rows_in<'a, L: Listed<'a>>(
    alloc: Global,
    listed: &mut L,
    first: u32,
    count: u32,
    room: usize,
    links: &mut Links,
) -> Result<Rows, Wrong>
    ensures rows { IfOk result (λ rows. IsThere (graph_described (described_by (L.graph
        listed.old))) first count
        × AreRows (graph_described (described_by (L.graph listed.old))) first count
        rows.starts.items rows.tips.items rows.lengths.items) }
    ensures refused { IfErr result (IsRunRefusal (graph_described (described_by (L.graph
        listed.old))) first count) }
{
    if !has_run(listed.family(), first, count) {
        return Err(Wrong::Vertices);
    }
    let places = listed.places(links);
    match put_rows(alloc, listed, &places, first, count, room, links) {
        Ok(rows) => Ok(rows),
        Err(_) => Err(Wrong::NoRoom),
    }
}

// The lists of a run that is there.
fn put_rows<'a, L: Listed<'a>>(
    alloc: Global,
    listed: &mut L,
    places: &Option<L::Places>,
    first: u32,
    count: u32,
    room: usize,
    links: &mut Links,
) -> Result<Rows, Panic>
    requires there { first + count ≤ length (L.graph listed.old).vectors }
    requires places { IfSome places.now (λ p. L.Places.vectors p ≡ (L.graph listed.old).vectors) }
    ensures rows { IfOk result (λ rows. AreRows (graph_described (described_by (L.graph
        listed.old))) first count rows.starts.items rows.tips.items rows.lengths.items) }
    ensures memory { IsOkUnless result Panic.NoRoom }
{
    let family = listed.family();
    let mut rows = Rows::new(alloc, count as usize, room)?;
    let mut left = vectors_from(family, first);
    // The vertices are numbers of 32 bits.
    let _size = family.size();
    for k in 0..count {
        let x = left.front().unwrap();
        rows.push_vertex(listed, places, first + k, x, links)?;
        rows.push_start()?;
        let _some = left.advance();
    }
    Ok(rows)
}

impl Rows {
    // Appends the arcs of vertex `v`, which is that of `x`.
    fn push_vertex<'a, L: Listed<'a>>(
        &mut self,
        listed: &mut L,
        places: &Option<L::Places>,
        v: u32,
        x: &[u32],
        links: &mut Links,
    ) -> Result<(), Panic>
        requires vertex { slice_get (L.graph listed.old).vectors v ≡ Some x.now }
        requires places { IfSome places.now (λ p. L.Places.vectors p ≡ (L.graph listed.old).vectors) }
        requires rising { IsRising (L.graph listed.old).vectors }
        requires ends { All (HasEnds (L.graph listed.old).vectors) (L.graph listed.old).moves }
        ensures tips { OnOk result (self.new.tips.items ≡ self.old.tips.items ++ map (λ l. l.tip)
            (chain_of (graph_described (described_by (L.graph listed.old))) v)) }
        ensures lengths { OnOk result (self.new.lengths.items ≡ self.old.lengths.items
            ++ map (λ l. l.len)
            (chain_of (graph_described (described_by (L.graph listed.old))) v)) }
        ensures starts { OnOk result (self.new.starts.items ≡ self.old.starts.items) }
        ensures memory { IsOkUnless result Panic.NoRoom }
        ensures same { L.graph listed.new ≡ L.graph listed.old }
    {
        match places {
            Some(places) => self.push_placed(listed, places, v, x, links),
            None => self.push_listed(listed, v, x, links),
        }
    }

    // The same, where the vertices are found at once: the arcs are put as they are handed out.
    fn push_placed<'a, L: Listed<'a>>(
        &mut self,
        listed: &mut L,
        places: &L::Places,
        v: u32,
        x: &[u32],
        links: &mut Links,
    ) -> Result<(), Panic>
        requires vertex { slice_get (L.graph listed.old).vectors v ≡ Some x.now }
        requires places { L.Places.vectors places.now ≡ (L.graph listed.old).vectors }
        requires rising { IsRising (L.graph listed.old).vectors }
        requires ends { All (HasEnds (L.graph listed.old).vectors) (L.graph listed.old).moves }
        ensures tips { OnOk result (self.new.tips.items ≡ self.old.tips.items ++ map (λ l. l.tip)
            (chain_of (graph_described (described_by (L.graph listed.old))) v)) }
        ensures lengths { OnOk result (self.new.lengths.items ≡ self.old.lengths.items
            ++ map (λ l. l.len)
            (chain_of (graph_described (described_by (L.graph listed.old))) v)) }
        ensures starts { OnOk result (self.new.starts.items ≡ self.old.starts.items) }
        ensures memory { IsOkUnless result Panic.NoRoom }
        ensures same { L.graph listed.new ≡ L.graph listed.old }
    {
        let sink = PlacedArcs {
            places,
            width: x.len(),
            vertex: v,
        };
        listed.give_arcs(x, links, &sink, self, &mut ())?
    }

    // The same, by a list that is made first.
    fn push_listed<'a, L: Listed<'a>>(
        &mut self,
        listed: &mut L,
        v: u32,
        x: &[u32],
        links: &mut Links,
    ) -> Result<(), Panic>
        requires vertex { slice_get (L.graph listed.old).vectors v ≡ Some x.now }
        requires rising { IsRising (L.graph listed.old).vectors }
        requires ends { All (HasEnds (L.graph listed.old).vectors) (L.graph listed.old).moves }
        ensures tips { OnOk result (self.new.tips.items ≡ self.old.tips.items ++ map (λ l. l.tip)
            (chain_of (graph_described (described_by (L.graph listed.old))) v)) }
        ensures lengths { OnOk result (self.new.lengths.items ≡ self.old.lengths.items
            ++ map (λ l. l.len)
            (chain_of (graph_described (described_by (L.graph listed.old))) v)) }
        ensures starts { OnOk result (self.new.starts.items ≡ self.old.starts.items) }
        ensures memory { IsOkUnless result Panic.NoRoom }
        ensures same { L.graph listed.new ≡ L.graph listed.old }
    {
        listed.arcs_at(x, links)?;
        self.push_arcs(listed, links)
    }

    // Appends the arcs of a vector.
    fn push_arcs<'a, L: Listed<'a>>(&mut self, listed: &L, links: &Links) -> Result<(), Panic>
        requires { (k : ℕ) (arc : LocalArc) → slice_get links.now.arcs k ≡ Some arc
            → Contains (L.graph listed.now).vectors arc.tip }
        ensures tips { OnOk result (self.new.tips.items ≡ self.old.tips.items
            ++ map (λ a. vertex_among (L.graph listed.now).vectors a.tip)
            links.now.arcs) }
        ensures lengths { OnOk result (self.new.lengths.items ≡ self.old.lengths.items
            ++ map (λ a. a.len) links.now.arcs) }
        ensures starts { OnOk result (self.new.starts.items ≡ self.old.starts.items) }
        ensures memory { IsOkUnless result Panic.NoRoom }
    {
        for i in 0..links.len() {
            let link = links.get(i);
            self.tips.push(listed.place_of(link.tip))?;
            self.lengths.push(i64::from(link.len))?;
        }
        Ok(())
    }
}
