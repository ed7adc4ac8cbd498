//! The events of which the graph of an operation is made (GB_GRAPH, gb_new_arc and gb_new_edge).
ghost use Rattle.std.specs.Prelude.{◌≡◌, ◌<◌, ◌==◌, ◌+◌, ◌^◌, [], ◌∷◌, length, OnErr, OnOk, IsOkUnless};
ghost use Rattle.sgb_graph.specs.Events.{HasEndsBelow};
ghost use Rattle.sgb_graph.specs.Growth.{AddsEvents, HasPlainArcs};
ghost use Rattle.sgb_taken.specs.inner.Ends.{bit_place, ends_key, link_of, shortened};

use sgb_graph::{Graph, Link};
use sgb_vec::Panic;
use std::marker::Model;

/// An arc or an edge that is to be made.
#[derive(Clone, Copy)]
pub struct Event {
    from: u32,
    to: u32,
    len: i64,
}

impl Model for Event {
    ghost use Rattle.sgb_graph.specs.Events.{Event};

    ghost Value = { Event };

    ghost view = { λ e. record { from = e.from; to = e.to; len = e.len } };

    ghost inverse = { λ e. record { from = e.from; to = e.to; len = e.len } };
}

impl Event {
    /// An arc or an edge of length `len` from vertex `from` to vertex `to`.
    pub fn new(from: u32, to: u32, len: i64) -> Event
        ensures { result ≡ record { from = from; to = to; len = len } }
    {
        Event { from, to, len }
    }

    /// Its two ends, so that those of two events are the same where the events have the same ends: in order for arcs,
    /// the smaller one first for edges.
    pub fn ends(self, directed: bool) -> (u32, u32)
        ensures { result ≡ ends_key directed self }
    {
        if directed {
            (self.from, self.to)
        } else {
            (self.from.min(self.to), self.from.max(self.to))
        }
    }

    /// The sum of its ends. Events with the same ends have the same sum, for arcs and edges.
    pub fn ends_sum(self) -> u64
        ensures sum { result ≡ self.from + self.to }
        ensures bound { result < 2 ^ 33 }
    {
        u64::from(self.from) + u64::from(self.to)
    }

    /// The place of its bit in a table of 16384 bits. Events with the same ends have the same place, for arcs and edges.
    pub fn bit_place(self) -> usize
        ensures { result ≡ bit_place self }
    {
        (self.from as usize + self.to as usize) % 16384
    }

    /// The arc of its first end, as far as tip and length go.
    pub fn link(self) -> Link
        ensures { result ≡ link_of self }
    {
        Link {
            number: 0,
            tip: self.to,
            len: self.len,
        }
    }

    /// Whether it joins a vertex to itself.
    pub fn is_loop(self) -> bool
        ensures { result ≡ (self.from == self.to) }
    {
        self.from == self.to
    }

    /// The event with the lesser of its length and that of another.
    pub fn shortened(self, other: Event) -> Event
        ensures { result ≡ shortened self other }
    {
        Event {
            len: self.len.min(other.len),
            ..self
        }
    }

    /// Adds it to a graph, as an arc where the graph is `directed`, and else as an edge. Its ends are vertices of the graph, whose
    /// records have no utility fields yet.
    ///
    /// `NoRoom` when out of memory, and nothing else; the graph is then as it was.
    #[inline(always)]
    pub fn add_to(self, directed: bool, built: &mut Graph) -> Result<(), Panic>
        requires within { HasEndsBelow (length built.old.vertices) self }
        requires plain { HasPlainArcs built.old }
        ensures ok { OnOk result (AddsEvents directed built.old built.new (self ∷ [])) }
        ensures err { OnErr result (built.new ≡ built.old) }
        ensures memory { IsOkUnless result Panic.NoRoom }
    {
        built.add_event(directed, self.from, self.to, self.len)
    }
}
