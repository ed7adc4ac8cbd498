//! The distance of each vertex from the first one, by a search level by level: first that vertex, then those to which an
//! arc leads from it, then those to which one leads from these, each vertex once.
ghost use Rattle.std.specs.Prelude.{◌≡◌, ◌<◌, ◌+◌, [], length, None, replicate, IfOk, IsOkUnless};
ghost use Rattle.std.specs.List.{All, flat_map};
ghost use Rattle.sgb_levels.specs.Distances.{AreDistances};
ghost use Rattle.sgb_levels.specs.inner.Marks.{all_marked, marked, marks};
ghost use Rattle.sgb_levels.specs.inner.Searches.{IsSearched, tips_from, unmarked};

use sgb_graph::Graph;
use sgb_vec::Panic;
use std::alloc::Global;

/// The distance of each vertex from vertex 0, in order: the least number of arcs on a walk that leads there, or `None`
/// where none does. Each vertex and each arc is looked at once.
///
/// `NoRoom` when out of memory.
pub fn levels(alloc: Global, graph: &Graph) -> Result<Vec<Option<u32>>, Panic>
    ensures distances { IfOk result (λ found. AreDistances graph.now 0 found.items) }
    ensures memory { IsOkUnless result Panic.NoRoom }
{
    let mut found = vec![in alloc; None; graph.n() as usize]?;
    let mut level = first_level(alloc, graph, found.as_mut_slice())?;
    let mut distance = 0;
    while !level.is_empty() {
        distance += 1;
        level = next_level(alloc, graph, &level, distance, found.as_mut_slice())?;
    }
    Ok(found)
}

// The level of the first vertex, if there is one: it is found at the distance 0, and nothing was before.
fn first_level(alloc: Global, graph: &Graph, found: &mut [Option<u32>]) -> Result<Vec<u32>, Panic>
    requires { found.old ≡ replicate (length graph.now.vertices) None }
    ensures searched { IfOk result (λ level. IsSearched graph.now 0 found.new level.items
        × (unmarked found.new + length level.items ≡ length graph.now.vertices)) }
    ensures memory { IsOkUnless result Panic.NoRoom }
{
    let mut level = Vec::new(alloc);
    if graph.n() > 0 {
        mark(0, 0, found, &mut level)?;
    }
    Ok(level)
}

// The vertices to which arcs lead from this level and that were not found before. They are found at this distance.
fn next_level(
    alloc: Global,
    graph: &Graph,
    level: &[u32],
    distance: u32,
    found: &mut [Option<u32>],
) -> Result<Vec<u32>, Panic>
    requires level { All (λ v. v < length graph.now.vertices) level.now }
    requires size { length found.old ≡ length graph.now.vertices }
    ensures marks { IfOk result (λ next. marks found.new next.items
        ≡ all_marked distance (flat_map (tips_from graph.now) level.now) (marks found.old [])) }
    ensures size { length found.new ≡ length found.old }
    ensures memory { IsOkUnless result Panic.NoRoom }
{
    let mut next = Vec::new(alloc);
    for v in level {
        mark_tips(graph, *v, distance, found, &mut next)?;
    }
    Ok(next)
}

// Marks the vertices to which arcs lead from vertex v.
fn mark_tips(
    graph: &Graph,
    v: u32,
    distance: u32,
    found: &mut [Option<u32>],
    next: &mut Vec<u32>,
) -> Result<(), Panic>
    requires vertex { v < length graph.now.vertices }
    requires size { length found.old ≡ length graph.now.vertices }
    ensures marks { IfOk result (λ x. marks found.new next.new.items
        ≡ all_marked distance (tips_from graph.now v) (marks found.old next.old.items)) }
    ensures size { length found.new ≡ length found.old }
    ensures memory { IsOkUnless result Panic.NoRoom }
{
    for link in graph.arcs(v) {
        mark(link.tip, distance, found, next)?;
    }
    Ok(())
}

// Marks a vertex with this distance, if it has no mark, and puts it on the next level.
fn mark(v: u32, distance: u32, found: &mut [Option<u32>], next: &mut Vec<u32>) -> Result<(), Panic>
    requires { v < length found.old }
    ensures marks { IfOk result (λ x. marks found.new next.new.items
        ≡ marked distance v (marks found.old next.old.items)) }
    ensures size { length found.new ≡ length found.old }
    ensures memory { IsOkUnless result Panic.NoRoom }
{
    let place = v as usize;
    if found[place].is_none() {
        next.push(v)?;
        found[place] = Some(distance);
    }
    Ok(())
}
