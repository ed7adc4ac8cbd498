//! A caller of `sgb_graph`, as the page for callers shows it.
ghost use Rattle.sgb_graph.specs.Growth.{HasPlainArcs};

use sgb_graph::{Graph, Id, Names};
use sgb_vec::{Panic, Text};
use std::alloc::Global;
use std::test::Fail;

/// The names of vertices.
pub fn names_of(alloc: Global, texts: &[&[u8]]) -> Result<Names, Panic> {
    let mut names = Names::new(alloc);
    for text in texts {
        if names.push(Text::new(alloc, text)?).is_err() {
            return Err(Panic::NoRoom);
        }
    }
    Ok(names)
}

/// Joins three towns by roads.
fn build_roads(graph: &mut Graph) -> Result<(), Panic>
    requires { HasPlainArcs graph.old }
{
    // an edge wants vertices that are there, and the clause above does not say how many there are
    if graph.n() != 3 {
        return Err(Panic::Bad);
    }
    graph.new_edge(0, 1, 330)?;
    graph.new_edge(1, 2, 390)?;
    graph.set_id(Id::new(b"towns")?);
    Ok(())
}

/// The length of the longest arc of a vertex, if it has one.
pub fn longest(graph: &Graph, v: u32) -> Option<i64> {
    if v >= graph.n() {
        return None;
    }
    let mut most = None;
    for link in graph.arcs(v) {
        if most.is_none_or(|len| len < link.len) {
            most = Some(link.len);
        }
    }
    most
}

/// How many arcs there are between three towns, and how long the longest from Bonn is.
pub fn arcs_between_towns(alloc: Global) -> Result<(u64, Option<i64>), Panic> {
    let names = names_of(alloc, &[b"Ulm", b"Bonn", b"Kiel"])?;
    let mut graph = Graph::new(alloc, names)?;
    build_roads(&mut graph)?;
    Ok((graph.m(), longest(&graph, 1)))
}

#[test]
fn roads_between_towns(rt: HostRuntime) -> Result<(), Fail> {
    assert!(rt; arcs_between_towns(rt.alloc())? == (4, Some(390)));
    Ok(())
}
