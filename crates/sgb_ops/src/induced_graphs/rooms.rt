//! What the arcs of a vertex are read with (GB_BASIC, induced).
ghost use Rattle.std.specs.Prelude.{◌≡◌, ◌<◌, ◌++◌, ◌==◌, [], ◌∷◌, ℕ, length, map, filter, flat_map, All, OnOk, IfOk, IsOkUnless, if◌then◌else◌};
ghost use Rattle.std.specs.List.{list_any};
ghost use Rattle.sgb_taken.specs.Taken.{taken};
ghost use Rattle.sgb_ops.specs.inner.Copies.{leads_to_copies};
ghost use Rattle.sgb_taken.specs.inner.Ends.{link_of};
ghost use Rattle.sgb_ops.specs.inner.Induced.{are_few_apart, events_of_arc, events_of_copy, lead_apart};

use super::entries::Copies;
use crate::sources::{ListRoom, Source};
use sgb_graph::Link;
use sgb_taken::Event;
use sgb_vec::Panic;
use std::alloc::Global;

/// Room for the arcs of a vertex: those of each take the memory of those of the vertex before.
#[derive(Drop)]
pub(super) struct Rooms {
    all: Vec<Link>,
    /// Arcs, as `take_arcs` leaves them.
    pub(super) arcs: Vec<Link>,
    /// Events, for who takes arcs: those that are there are taken out at the next call.
    pub(super) events: Vec<Event>,
    lists: ListRoom,
}

impl Rooms {
    /// Such room. It takes no memory yet.
    pub(super) fn new(alloc: Global) -> Rooms {
        Rooms {
            all: Vec::new(alloc),
            arcs: Vec::new(alloc),
            events: Vec::new(alloc),
            lists: ListRoom::new(alloc),
        }
    }

    /// Whether an arc taken of vertex `v` is a loop.
    ///
    /// `NoRoom` when out of memory, and nothing else.
    pub(super) fn have_loop(
        &mut self,
        graph: &Source<'_>,
        directed: bool,
        v: u32,
    ) -> Result<bool, Panic>
        requires { v < length graph.now.vertices }
        ensures ok { IfOk result (λ has. has
            ≡ list_any (λ l. l.tip == v) (taken directed graph.now v)) }
        ensures memory { IsOkUnless result Panic.NoRoom }
    {
        graph.take_arcs(
            &mut self.all,
            directed,
            v,
            &mut self.events,
            &mut self.lists,
        )?;
        Ok(lead_to(&self.all, v))
    }

    /// Makes `arcs` those taken of vertex `v` that lead to vertices with copies, as far as their tips and lengths go: the
    /// others are not looked at for each copy of `v`.
    ///
    /// `NoRoom` when out of memory, and nothing else.
    pub(super) fn take_arcs(
        &mut self,
        graph: &Source<'_>,
        copies: &Copies,
        directed: bool,
        v: u32,
    ) -> Result<(), Panic>
        requires count { length copies.now ≡ length graph.now.vertices }
        requires vertex { v < length graph.now.vertices }
        ensures ok { OnOk result ((u : ℕ)
            → flat_map (events_of_arc copies.now directed v u) self.new.arcs.items
            ≡ events_of_copy graph.now copies.now directed v u) }
        ensures tips { OnOk result (All (λ l. l.tip < length copies.now) self.new.arcs.items) }
        ensures memory { IsOkUnless result Panic.NoRoom }
    {
        graph.put_taken(&mut self.events, directed, v, &mut self.lists)?;
        self.arcs.clear();
        push_arcs_to_copies(&mut self.arcs, copies, &self.events)
    }
}

// So few arcs are compared in pairs.
const FEW: usize = 8;

/// Whether the arcs are so few that they are compared in pairs, and no two of them lead to one vertex.
pub(super) fn are_few_apart(arcs: &[Link]) -> bool
    ensures { result ≡ are_few_apart arcs.now }
{
    arcs.len() <= FEW && lead_apart(arcs)
}

// Whether no two of the arcs lead to one vertex. It takes the time of their pairs.
#[inline(always)]
fn lead_apart(arcs: &[Link]) -> bool
    ensures { result ≡ lead_apart arcs.now }
{
    for i in 0..arcs.len() {
        if lead_to(&arcs[i + 1..], arcs[i].tip) {
            return false;
        }
    }
    true
}

// Whether one of the arcs leads to vertex `v`.
#[inline(always)]
fn lead_to(arcs: &[Link], v: u32) -> bool
    ensures { result ≡ list_any (λ l. l.tip == v) arcs.now }
{
    for arc in arcs {
        if arc.tip == v {
            return true;
        }
    }
    false
}

// Appends the arcs of those of the events that lead to vertices with copies, as far as tips and lengths go.
fn push_arcs_to_copies(arcs: &mut Vec<Link>, copies: &Copies, events: &[Event]) -> Result<(), Panic>
    requires { All (λ e. e.to < length copies.now) events.now }
    ensures ok { OnOk result (arcs.new.items
        ≡ arcs.old.items ++ filter (leads_to_copies copies.now) (map link_of events.now)) }
    ensures memory { IsOkUnless result Panic.NoRoom }
{
    for event in events {
        push_arc_to_copies(arcs, copies, event.link())?;
    }
    Ok(())
}

// Appends the arc where it leads to a vertex with copies.
#[inline(always)]
fn push_arc_to_copies(arcs: &mut Vec<Link>, copies: &Copies, arc: Link) -> Result<(), Panic>
    requires { arc.tip < length copies.now }
    ensures ok { OnOk result (arcs.new.items ≡ arcs.old.items
        ++ (if leads_to_copies copies.now arc then arc ∷ [] else [])) }
    ensures memory { IsOkUnless result Panic.NoRoom }
{
    if copies.start(arc.tip) < copies.end(arc.tip) {
        arcs.reserve(1)?;
        arcs.push_reserved(arc);
    }
    Ok(())
}
