//! The arcs that are taken of a vertex's list, so that each edge of an undirected graph is met once (GB_BASIC, gunion).
ghost use Rattle.std.specs.Prelude.{◌≡◌, ◌+◌, ◌<◌, ◌==◌, All, false, length};
ghost use Rattle.std.specs.Iterator.{YieldsFirst, item_count};
ghost use Rattle.std.specs.Option.{option_map_or};
ghost use Rattle.sgb_taken.specs.Taken.{taken};
ghost use Rattle.sgb_taken.specs.inner.TakenArcs.{IsStep};

use sgb_graph::{Arcs, Graph, Link};
use std::marker::Model;

/// The arcs taken of a vertex, in the order of its list. Contracts see it as the list of the arcs that are still to
/// come.
#[derive(Drop)]
pub struct TakenArcs<'a> {
    directed: bool,
    vertex: u32,
    // the number of a loop that was taken, where no arc was looked at since
    after_loop: Option<usize>,
    arcs: Arcs<'a>,
}

impl<'a> Model for TakenArcs<'a> {
    ghost use Rattle.std.specs.Prelude.{List};
    ghost use Rattle.sgb_graph.specs.declared.fields.Link.{Link};
    ghost use Rattle.sgb_taken.specs.inner.TakenArcs.{taken_after};

    ghost Value = { List Link };

    ghost view = { λ t. taken_after t.directed t.vertex t.after_loop t.arcs };
}

/// The arcs taken of vertex `v < n`, in the order of its list: all of them for a directed result; for an undirected
/// one those that lead to no vertex before `v`, and of a loop's two records the first alone (GB_BASIC, gunion).
pub fn taken(graph: &Graph, directed: bool, v: u32) -> TakenArcs<'_>
    requires { v < length graph.now.vertices }
    ensures taken { result ≡ taken directed graph.now v }
    ensures tips { All (λ l. l.tip < length graph.now.vertices) result }
{
    TakenArcs {
        directed,
        vertex: v,
        after_loop: None,
        arcs: graph.arcs(v),
    }
}

impl<'a> Iterator for TakenArcs<'a> {
    type Item = Link;

    ghost next_gives = { YieldsFirst (λ rest. rest) };

    ghost remaining = { item_count (λ rest. rest) };

    #[inline(always)]
    fn next(&mut self) -> Option<Link> {
        while let Some(link) = self.arcs.next() {
            let (is_taken, after_loop) = step(self.directed, self.vertex, self.after_loop, link);
            self.after_loop = after_loop;
            if is_taken {
                return Some(link);
            }
        }
        None
    }
}

// Whether this arc is taken, where it follows a loop of this number, if any; and its number where it is a loop.
fn step(directed: bool, v: u32, after_loop: Option<usize>, link: Link) -> (bool, Option<usize>)
    ensures { IsStep directed v after_loop link result.0 result.1 }
{
    if is_other_record(after_loop, link.number) {
        return (false, None);
    }
    if directed {
        return (true, None);
    }
    if link.tip < v {
        return (false, None);
    }
    if link.tip == v {
        return (true, Some(link.number));
    }
    (true, None)
}

// This record is the other one of a loop: it has the next number.
fn is_other_record(after_loop: Option<usize>, number: usize) -> bool
    ensures { result ≡ option_map_or (λ k. number == k + 1) after_loop false }
{
    match after_loop {
        Some(k) => number > k && number - k == 1,
        None => false,
    }
}
