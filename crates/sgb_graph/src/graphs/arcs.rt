//! The list of arcs of a vertex.
ghost use Rattle.std.specs.Prelude.{◌≡◌, ◌<◌, ◌≤◌, ◌∷◌, length, All, Some, IsTrue};
ghost use Rattle.std.specs.Iterator.{YieldsFirst, item_count};
ghost use Rattle.sgb_graph.specs.Graphs.{chain_of, ends_of, vertex_of};
ghost use Rattle.sgb_graph.specs.inner.Chains.{links_of};

use super::Graph;
use crate::fields::{Link, Ref};
use crate::records::Records;
use std::marker::Model;

/// The arcs of a vertex, in the order of its list. Contracts see it as the list of the arcs that are still to
/// come.
#[derive(Drop)]
pub struct Arcs<'a> {
    records: &'a Records,
    next: Option<usize>,
}

impl<'a> Model for Arcs<'a> {
    ghost use Rattle.std.specs.Prelude.{List, IsTrue};
    ghost use Rattle.sgb_graph.specs.Graphs.{ends_of};
    ghost use Rattle.sgb_graph.specs.inner.Chains.{links_of};
    ghost use Rattle.sgb_graph.specs.declared.fields.Link.{Link};

    ghost Value = { List Link };

    ghost view = { λ arcs. links_of arcs.records.now.items arcs.next };

    ghost invariant = { λ arcs. IsTrue (ends_of arcs.records.now.items arcs.next) };
}

impl Graph {
    /// The arcs of vertex `v < n`, in the order of its list: later arcs come first (GB_GRAPH,
    /// arcs field).
    pub fn arcs(&self, v: u32) -> Arcs<'_>
        requires { v < length self.now.vertices }
        ensures chain { result ≡ chain_of self.now v }
        ensures short { length result ≤ length self.now.records }
        ensures tips { All (λ l. l.tip < length self.now.vertices) result }
    {
        Arcs {
            records: &self.records,
            next: self.vertices.first(v),
        }
    }
}

impl<'a> Iterator for Arcs<'a> {
    type Item = Link;

    ghost next_gives = { YieldsFirst (λ rest. rest) };

    ghost remaining = { item_count (λ rest. rest) };

    fn next(&mut self) -> Option<Link> {
        let number = self.next?;
        let (link, next) = link_and_next(self.records, number);
        self.next = next;
        Some(link)
    }
}

// The arc of this record, from which the way ends, and the record that follows it.
fn link_and_next(records: &Records, number: usize) -> (Link, Option<usize>)
    requires { IsTrue (ends_of records.now.items (Some number)) }
    ensures links { links_of records.now.items (Some number) ≡ result.0
        ∷ links_of records.now.items result.1 }
    ensures ends { IsTrue (ends_of records.now.items result.1) }
{
    let (tip, next, len) = records.lead(number);
    let link = Link {
        number,
        tip: vertex_of(tip),
        len,
    };
    (link, next)
}

// The vertex of a tip; an arc on a list has one.
fn vertex_of(tip: Ref) -> u32
    ensures { result ≡ vertex_of tip }
{
    match tip {
        Ref::At(v) => v,
        Ref::Null | Ref::One => 0,
    }
}
