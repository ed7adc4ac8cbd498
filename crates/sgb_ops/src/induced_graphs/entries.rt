//! What is put in the place of each vertex of a graph (GB_BASIC, induced).
//!
//! The entries are needed for the names and for the events inside the graphs that are put in. Of each vertex `Copies` then
//! keeps what stands in its place as small numbers: so `induced_from`, which owns its entries, drops them before the arcs
//! between copies are added.
ghost use Rattle.std.specs.Prelude.{◌≡◌, ◌≤◌, ◌<◌, ◌*◌, false, Ok, Err, length, map, All, OnOk, IfOk, IfErr, IsOkUnless};
ghost use Rattle.sgb_vec.specs.Limits.{most_vertices};
ghost use Rattle.std.specs.List.{list_any};
ghost use Rattle.sgb_ops.specs.declared.induced_graphs.entries.Entry.TheVariants as entry;
ghost use Rattle.sgb_ops.specs.inner.Copies.{IsKeptEntry, copies_end, copies_start, first_copies, merged_of, sized};
ghost use Rattle.sgb_ops.specs.inner.Entries.{own_total, total_of};
ghost use Rattle.sgb_ops.specs.Entries.{accepted_entries, first_copy, is_unnumbered, merged_count, size_of_entry};
// For the search alone.
ghost use Rattle.std.specs.Prelude.{◌+◌};

use super::slots::{Slot, Slots};
use sgb_graph::Graph;
use sgb_vec::{MOST_VERTICES, Panic};
use std::alloc::Global;
use std::marker::Model;

/// An entry of `induced`: what stands in the place of a vertex (GB_BASIC, induced).
#[derive(Drop)]
pub enum Entry {
    /// So many copies of the vertex: none drops it, one keeps it.
    Copies(u32),
    /// The vertices of this graph, with its arcs.
    Graph(Graph),
    /// The merged vertex of this number, from 1 on, which stands in the place of all vertices with this entry.
    Merged(u32),
}

/// Refuses the entries for a graph of `n` vertices that are not one for each of them, and those with a merged vertex 0
/// (`Bad`), and then those that make more than 1,000,000,000 vertices (`VeryBad`). Of others it tells how many merged
/// vertices they make.
pub(super) fn accept_entries(n: u32, entries: &Slots<'_>) -> Result<u32, Panic>
    ensures ok { OnOk result (accepted_entries n entries.now ≡ Ok entries.now) }
    ensures merged { IfOk result (λ merged. merged ≡ merged_count entries.now) }
    ensures refused { IfErr result (λ e. accepted_entries n entries.now ≡ Err e) }
    ensures count { OnOk result (length entries.now ≡ n) }
    ensures numbered { OnOk result (list_any is_unnumbered entries.now ≡ false) }
    ensures few { OnOk result (total_of entries.now ≤ most_vertices) }
    ensures kept { OnOk result (All IsKeptEntry entries.now) }
{
    if !entries.are(n) {
        return Err(Panic::Bad);
    }
    if has_unnumbered(n, entries) {
        return Err(Panic::Bad);
    }
    let merged = merged_count(n, entries);
    if u64::from(merged) + own_total(n, entries) > u64::from(MOST_VERTICES) {
        return Err(Panic::VeryBad);
    }
    Ok(merged)
}

// Whether some merged vertex has the number 0.
fn has_unnumbered(n: u32, entries: &Slots<'_>) -> bool
    requires { length entries.now ≡ n }
    ensures { result ≡ list_any is_unnumbered entries.now }
{
    for v in 0..n {
        let entry = entries.at(v);
        if entry.is_unnumbered() {
            return true;
        }
    }
    false
}

// How many merged vertices the entries make: the greatest number of all.
fn merged_count(n: u32, entries: &Slots<'_>) -> u32
    requires { length entries.now ≡ n }
    ensures { result ≡ merged_count entries.now }
{
    let mut greatest = 0;
    for v in 0..n {
        let entry = entries.at(v);
        greatest = entry.number().max(greatest);
    }
    greatest
}

// How many vertices the entries make that are not merged.
fn own_total(n: u32, entries: &Slots<'_>) -> u64
    requires { length entries.now ≡ n }
    ensures value { result ≡ own_total entries.now }
    ensures bound { result ≤ n * 4_294_967_295 }
    ensures kept { All IsKeptEntry entries.now }
{
    let mut total = 0;
    for v in 0..n {
        let entry = entries.at(v);
        total += u64::from(entry.size());
    }
    total
}

/// What stands in the place of a vertex: so many copies, or a merged vertex. Contracts see it as an entry.
#[derive(Drop)]
struct Place {
    copies: u32,
    // The number of the merged vertex, or 0.
    number: u32,
}

impl Model for Place {
    ghost use Rattle.sgb_ops.specs.declared.induced_graphs.entries.Entry.{Entry};
    ghost use Rattle.sgb_ops.specs.inner.Copies.{entry_of_place};

    ghost Value = { Entry };

    ghost view = { λ p. entry_of_place p.copies p.number };
}

impl Place {
    // That of an entry, without the graph that it may be.
    fn of(entry: &Slot<'_>) -> Place
        requires { is_unnumbered entry.now ≡ false }
        ensures { result ≡ sized entry.now }
    {
        Place {
            copies: entry.size(),
            number: entry.number(),
        }
    }

    // How many vertices stand there alone.
    fn size(&self) -> u32
        ensures { result ≡ size_of_entry self.now }
    {
        if self.number > 0 { 0 } else { self.copies }
    }

    // The number of the merged vertex, if it is one.
    fn merged(&self) -> Option<u32>
        ensures { result ≡ merged_of self.now }
    {
        if self.number > 0 {
            Some(self.number)
        } else {
            None
        }
    }
}

/// The vertices that stand in the place of each vertex. Contracts see them as entries that put in no graph.
#[derive(Drop)]
pub(super) struct Copies {
    places: Vec<Place>,
    // Where the copies of each vertex begin that stand for it alone, and after them how many there are in all.
    own_starts: Vec<u32>,
}

impl Model for Copies {
    ghost use Rattle.std.specs.Prelude.{◌≡◌, ◌≤◌, List};
    ghost use Rattle.sgb_vec.specs.Limits.{most_vertices};
    ghost use Rattle.sgb_ops.specs.declared.induced_graphs.entries.Entry.{Entry};
    ghost use Rattle.sgb_ops.specs.inner.Copies.{first_copies};
    ghost use Rattle.sgb_ops.specs.inner.Entries.{total_of};

    ghost Value = { List Entry };

    ghost view = { λ c. c.places.items };

    ghost invariant = { λ c. (c.own_starts.items ≡ first_copies c.places.items)
        × (total_of c.places.items ≤ most_vertices) };
}

impl Copies {
    /// The copies that these `n` entries make, so many merged vertices among them, without the graphs that they put in.
    ///
    /// `NoRoom` when out of memory, and nothing else.
    pub(super) fn new(
        alloc: Global,
        n: u32,
        entries: &Slots<'_>,
        merged: u32,
    ) -> Result<Copies, Panic>
        requires count { length entries.now ≡ n }
        requires merged { merged ≡ merged_count entries.now }
        requires numbered { list_any is_unnumbered entries.now ≡ false }
        requires few { total_of entries.now ≤ most_vertices }
        ensures ok { IfOk result (λ copies. copies ≡ map sized entries.now) }
        ensures memory { IsOkUnless result Panic.NoRoom }
    {
        let places = places_of(alloc, n, entries)?;
        let own_starts = first_copies(alloc, merged, &places)?;
        Ok(Copies { places, own_starts })
    }

    /// Where the copies of vertex `v` begin that stand for it alone.
    pub(super) fn own_start(&self, v: u32) -> u32
        requires { v < length self.now }
        ensures value { result ≡ first_copy self.now v }
    {
        self.own_starts[v as usize]
    }

    /// The first of all copies of vertex `v`, its own or the merged one. They end before `end(v)`.
    pub(super) fn start(&self, v: u32) -> u32
        requires { v < length self.now }
        ensures value { result ≡ copies_start self.now v }
    {
        match self.places[v as usize].merged() {
            Some(number) => number.saturating_sub(1),
            None => self.own_starts[v as usize],
        }
    }

    /// What comes after the last copy of vertex `v`.
    pub(super) fn end(&self, v: u32) -> u32
        requires { v < length self.now }
        ensures value { result ≡ copies_end self.now v }
    {
        match self.places[v as usize].merged() {
            Some(number) => number.saturating_sub(1) + 1,
            None => self.own_starts[v as usize + 1],
        }
    }
}

// The places of entries.
fn places_of(alloc: Global, n: u32, entries: &Slots<'_>) -> Result<Vec<Place>, Panic>
    requires count { length entries.now ≡ n }
    requires numbered { list_any is_unnumbered entries.now ≡ false }
    ensures ok { IfOk result (λ places. places.items ≡ map sized entries.now) }
    ensures memory { IsOkUnless result Panic.NoRoom }
{
    let mut places = Vec::with_capacity(alloc, n as usize)?;
    for v in 0..n {
        places.push(Place::of(&entries.at(v)))?;
    }
    Ok(places)
}

// The first copy of each vertex, and after them how many there are in all.
fn first_copies(alloc: Global, merged: u32, places: &[Place]) -> Result<Vec<u32>, Panic>
    requires merged { merged ≡ merged_count places.now }
    requires few { total_of places.now ≤ most_vertices }
    ensures ok { IfOk result (λ firsts. firsts.items ≡ first_copies places.now) }
    ensures memory { IsOkUnless result Panic.NoRoom }
{
    let mut firsts = Vec::with_capacity(alloc, places.len() + 1)?;
    let mut total = merged;
    for place in places {
        firsts.push(total)?;
        total += place.size();
    }
    firsts.push(total)?;
    Ok(firsts)
}
