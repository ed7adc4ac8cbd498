//! The entries of an induced graph for who reads them (GB_BASIC, induced).
//!
//! An `Entry` is as large as a graph, 760 bytes. So `induced_from` takes entries of 24 bytes, with each graph behind a box;
//! and entries of both kinds are read as slots, each of which is made where it is looked at.
ghost use Rattle.std.specs.Prelude.{◌≡◌, ◌<◌, ◌==◌, length, get_or};
ghost use Rattle.std.specs.Option.{option_map};
ghost use Rattle.sgb_ops.specs.declared.induced_graphs.entries.Entry.TheVariants as entry;
ghost use Rattle.sgb_ops.specs.Entries.{is_unnumbered, merged_number, size_of_entry};
ghost use Rattle.sgb_ops.specs.inner.Copies.{IsKeptEntry};
ghost use Rattle.sgb_ops.specs.inner.Slots.{inner_graph, inner_held};
ghost use Rattle.sgb_ops.specs.inner.Sources.{HasTips};

use super::entries::Entry;
use crate::circles::Circle;
use sgb_graph::Graph;
use std::marker::Model;

/// An entry of `induced_from`: what stands in the place of a vertex (GB_BASIC, induced). It takes 24 bytes; contracts see
/// it as an `Entry`.
pub struct KeptEntry {
    // So many copies, or the number of the merged vertex.
    count: u32,
    is_merged: bool,
    graph: KeptGraph,
}

// The graph that it puts in, if any.
#[derive(Drop)]
enum KeptGraph {
    None,
    Built(Box<Graph>),
    Circle(Circle),
}

// One call for those who drop it.
impl Drop for KeptEntry {
    fn drop(self) {
        let KeptEntry {
            count: _,
            is_merged: _,
            graph: _,
        } = self;
    }
}

impl Model for KeptEntry {
    ghost use Rattle.sgb_ops.specs.declared.induced_graphs.entries.Entry.{Entry};
    ghost use Rattle.sgb_ops.specs.inner.Slots.{entry_of_slot, graph_of_entry};

    ghost Value = { Entry };

    ghost view = { λ k. entry_of_slot k.count k.is_merged (graph_of_entry k.graph) };
}

impl KeptEntry {
    /// So many copies of the vertex: none drops it, one keeps it.
    pub fn copies(count: u32) -> KeptEntry
        ensures { result ≡ entry.Copies count }
    {
        KeptEntry {
            count,
            is_merged: false,
            graph: KeptGraph::None,
        }
    }

    /// The merged vertex of this number, from 1 on, which stands in the place of all vertices with this entry.
    pub fn merged(number: u32) -> KeptEntry
        ensures { result ≡ entry.Merged number }
    {
        KeptEntry {
            count: number,
            is_merged: true,
            graph: KeptGraph::None,
        }
    }

    /// The vertices of this graph, with its arcs.
    pub fn graph(graph: Box<Graph>) -> KeptEntry
        ensures { result ≡ entry.Graph graph.value }
    {
        KeptEntry {
            count: 0,
            is_merged: false,
            graph: KeptGraph::Built(graph),
        }
    }

    /// The vertices of this circle, with its arcs.
    pub(crate) fn circle(circle: Circle) -> KeptEntry
        ensures { result ≡ entry.Graph circle }
    {
        KeptEntry {
            count: 0,
            is_merged: false,
            graph: KeptGraph::Circle(circle),
        }
    }

    // What is read of it.
    fn slot(&self) -> Slot<'_>
        ensures { result ≡ self.now }
    {
        match &self.graph {
            KeptGraph::Built(graph) => Slot::inner(Inner::Built(graph)),
            KeptGraph::Circle(circle) => Slot::inner(Inner::Circle(circle)),
            KeptGraph::None => Slot {
                count: self.count,
                is_merged: self.is_merged,
                graph: None,
            },
        }
    }
}

/// The graph that an entry puts in, as it is read.
#[derive(Drop)]
pub(super) enum Inner<'a> {
    /// It is built.
    Built(&'a Graph),
    /// It is a circle, and not built.
    Circle(&'a Circle),
}

/// An entry as it is read. Contracts see it as the entry.
#[derive(Drop)]
pub(super) struct Slot<'a> {
    // So many copies, or the number of the merged vertex.
    count: u32,
    is_merged: bool,
    graph: Option<Inner<'a>>,
}

impl<'a> Model for Slot<'a> {
    ghost use Rattle.std.specs.Option.{option_map};
    ghost use Rattle.sgb_ops.specs.declared.induced_graphs.entries.Entry.{Entry};
    ghost use Rattle.sgb_ops.specs.inner.Slots.{entry_of_slot, inner_held};

    ghost Value = { Entry };

    ghost view = { λ s. entry_of_slot s.count s.is_merged (option_map inner_held s.graph) };
}

impl<'a> Inner<'a> {
    // How many vertices it has. All arcs lead to these.
    fn n(&self) -> u32
        ensures count { result ≡ length (inner_held self.now).vertices }
        ensures tips { HasTips (inner_held self.now) }
    {
        match self {
            Inner::Built(graph) => graph.n(),
            Inner::Circle(circle) => circle.n(),
        }
    }
}

impl<'a> Slot<'a> {
    // That of a graph.
    fn inner(graph: Inner<'a>) -> Slot<'a>
        ensures { result ≡ entry.Graph (inner_held graph.entry) }
    {
        Slot {
            count: 0,
            is_merged: false,
            graph: Some(graph),
        }
    }

    // That of an entry.
    fn of(entry: &'a Entry) -> Slot<'a>
        ensures { result ≡ entry.now }
    {
        match entry {
            Entry::Copies(count) => Slot {
                count: *count,
                is_merged: false,
                graph: None,
            },
            Entry::Graph(graph) => Slot::inner(Inner::Built(graph)),
            Entry::Merged(number) => Slot {
                count: *number,
                is_merged: true,
                graph: None,
            },
        }
    }

    /// The graph that is put in, if any.
    pub(super) fn graph(&self) -> Option<&Inner<'a>>
        ensures { option_map (λ g. inner_held g.now) result ≡ inner_graph self.now }
    {
        match &self.graph {
            Some(graph) => Some(graph),
            None => None,
        }
    }

    /// How many vertices stand in the place of a vertex with this entry alone.
    pub(super) fn size(&self) -> u32
        ensures value { result ≡ size_of_entry self.now }
        ensures kept { IsKeptEntry self.now }
    {
        if let Some(graph) = &self.graph {
            return graph.n();
        }
        if self.is_merged { 0 } else { self.count }
    }

    /// The number of its merged vertex, or 0.
    pub(super) fn number(&self) -> u32
        ensures { result ≡ merged_number self.now }
    {
        if self.is_merged && self.graph.is_none() {
            self.count
        } else {
            0
        }
    }

    /// Whether its merged vertex has the number 0.
    pub(super) fn is_unnumbered(&self) -> bool
        ensures { result ≡ is_unnumbered self.now }
    {
        self.is_merged && self.count == 0 && self.graph.is_none()
    }
}

/// Entries for who reads them: those that are lent, or those that are given up. Contracts see them as one list.
#[derive(Drop)]
pub(super) struct Slots<'a> {
    lent: &'a [Entry],
    kept: &'a [KeptEntry],
}

impl<'a> Model for Slots<'a> {
    ghost use Rattle.std.specs.Prelude.{List, ◌++◌};
    ghost use Rattle.sgb_ops.specs.declared.induced_graphs.entries.Entry.{Entry};

    ghost Value = { List Entry };

    ghost view = { λ s. s.lent.now ++ s.kept.now };
}

impl<'a> Slots<'a> {
    /// Those that are lent.
    pub(super) fn lent(entries: &'a [Entry]) -> Slots<'a>
        ensures { result ≡ entries.now }
    {
        Slots {
            lent: entries,
            kept: &[],
        }
    }

    /// Those that are given up.
    pub(super) fn kept(entries: &'a [KeptEntry]) -> Slots<'a>
        ensures { result ≡ entries.now }
    {
        Slots {
            lent: &[],
            kept: entries,
        }
    }

    /// Whether there are so many.
    pub(super) fn are(&self, n: u32) -> bool
        ensures { result ≡ (length self.now == n) }
    {
        self.lent.len() + self.kept.len() == n as usize
    }

    /// The one for vertex `v`.
    #[inline(always)]
    pub(super) fn at(&self, v: u32) -> Slot<'a>
        requires { v < length self.now }
        ensures { result ≡ get_or self.now v result }
    {
        let place = v as usize;
        if place < self.lent.len() {
            return Slot::of(&self.lent[place]);
        }
        self.kept[place - self.lent.len()].slot()
    }
}
