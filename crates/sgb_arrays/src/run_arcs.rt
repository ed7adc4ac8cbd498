//! How many arcs are on the lists of a run.
//!
//! They are counted as they are handed out, those of a span at once.
ghost use Rattle.std.specs.Prelude.{◌≡◌, ◌+◌, ◌≤◌, length, IfErr, IfOk, IsOkUnless, ⊤};
ghost use Rattle.sgb_gen.specs.VectorGraphs.{described_by};
ghost use Rattle.sgb_graph.specs.Graphs.{chain_of};
ghost use Rattle.sgb_graph.specs.Made.{graph_described};
ghost use Rattle.sgb_gen.specs.Generators.{described};
ghost use Rattle.sgb_arrays.specs.Runs.{IsRunRefusal, IsThere, parts_of};

use crate::counted_arcs::CountedArcs;
use crate::refusals::Wrong;
use crate::runs::{has_run, vectors_from};
use sgb_gen::{Links, Listed, Local, Visit, Visitor};
use sgb_vec::Panic;
use std::alloc::Global;

/// How many arcs are on the lists of `count` vertices of a generator's graph, from vertex `first` on. The graph is not built,
/// and no list is kept.
///
/// `Vertices` where there are not so many vertices; `NoRoom` when out of memory.
pub fn arcs_of_run(alloc: Global, local: &Local, first: u32, count: u32) -> Result<u128, Wrong>
    ensures arcs { IfOk result (λ m. IsThere (graph_described (described local.now)) first count
        × (m ≡ length (parts_of (chain_of (graph_described (described local.now))) first count))) }
    ensures refused { IfErr result (IsRunRefusal (graph_described (described local.now)) first
        count) }
{
    let mut links = Links::new(alloc);
    local.visit(ArcsOfRun { first, count }, &mut links)
}

// The number of the arcs of a run of a generator's graph, with links that serve for list after list.
#[derive(Drop)]
struct ArcsOfRun {
    first: u32,
    count: u32,
}

impl Visitor<Links> for ArcsOfRun {
    type Answer = Result<u128, Wrong>;

    ghost needs = { λ _ _ _ _. ⊤ };

    ghost gives = { λ v g _ _ _ result.
        IfOk result (λ m. IsThere (graph_described (described_by g)) v.first v.count
        × (m ≡ length (parts_of (chain_of (graph_described (described_by g))) v.first v.count)))
        × IfErr result (IsRunRefusal (graph_described (described_by g)) v.first v.count) };
}

impl<'a, L: Listed<'a>> Visit<'a, L, Links> for ArcsOfRun {
    fn visit(self, listed: &mut L, links: &mut Links) -> Result<u128, Wrong> {
        listed.prepare(links);
        arcs_in(listed, self.first, self.count, links)
    }
}

// The number of the arcs of a run of a graph, by what a listing asks of it.
fn arcs_in<'a, L: Listed<'a>>(
    listed: &mut L,
    first: u32,
    count: u32,
    links: &mut Links,
) -> Result<u128, Wrong>
    ensures arcs { IfOk result (λ m. IsThere (graph_described (described_by (L.graph
        listed.old))) first count
        × (m ≡ length (parts_of (chain_of (graph_described (described_by (L.graph listed.old))))
        first count))) }
    ensures refused { IfErr result (IsRunRefusal (graph_described (described_by (L.graph
        listed.old))) first count) }
{
    if !has_run(listed.family(), first, count) {
        return Err(Wrong::Vertices);
    }
    match count_arcs(listed, first, count, links) {
        Ok(arcs) => Ok(arcs),
        Err(_) => Err(Wrong::NoRoom),
    }
}

// The number of the arcs of a run that is there.
fn count_arcs<'a, L: Listed<'a>>(
    listed: &mut L,
    first: u32,
    count: u32,
    links: &mut Links,
) -> Result<u128, Panic>
    requires { first + count ≤ length (L.graph listed.old).vectors }
    ensures arcs { IfOk result (λ m. m ≡ length (parts_of
        (chain_of (graph_described (described_by (L.graph listed.old)))) first count)) }
    ensures memory { IsOkUnless result Panic.NoRoom }
{
    let mut arcs: u128 = 0;
    let mut left = vectors_from(listed.family(), first);
    for _k in 0..count {
        let x = left.front().unwrap();
        let sink = CountedArcs { width: x.len() };
        listed.give_arcs(x, links, &sink, &mut arcs, &mut ())??;
        let _some = left.advance();
    }
    Ok(arcs)
}
