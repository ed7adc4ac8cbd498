//! What an open graph has for a run of its vertices, as arrays.
ghost use Rattle.std.specs.Prelude.{◌≡◌, ◌+◌, length, IfErr, IfOk, IfSome, OnOk, ⊤};
ghost use Rattle.sgb_graph.specs.Graphs.{chain_of};
ghost use Rattle.sgb_arrays.specs.Fields.{HoldsInts, IsIntsRefusal, ints_of};
ghost use Rattle.sgb_arrays.specs.OpenGraphs.{IsListed, graph_open};
ghost use Rattle.sgb_arrays.specs.Runs.{AreNames, AreRows, AreTips, HaveNameLengths, HaveRowLengths, HaveTipLengths, IsFillRefusal, IsSizeRefusal, IsThere, parts_of};
ghost use Rattle.sgb_graph.specs.Vertices.{name_at};
// For the search alone.
ghost use Rattle.sgb_arrays.specs.Runs.{IsRunRefusal};

use super::OpenGraph;
use crate::fields::{fill_ints, fill_local_ints};
use crate::graph_names::{fill_names, names_len};
use crate::names::Names;
use crate::refusals::Wrong;
use crate::rows::Rows;
use crate::run_arcs::arcs_of_run;
use crate::run_names::{names_len_of_run, names_of_run};
use crate::run_rows::rows_with_room;
use crate::runs::is_there;
use sgb_gen::{Links, Local};
use std::alloc::Global;

impl OpenGraph {
    /// How many arcs are on the lists of `count` vertices, from vertex `first` on.
    ///
    /// `Vertices` where there are not so many vertices; else, where it is not built, `NoRoom` when out of memory.
    pub fn arcs_len(&self, alloc: Global, first: u32, count: u32) -> Result<u128, Wrong>
        ensures count { IfOk result (λ m. IsThere (graph_open self.now) first count
            × (m ≡ length (parts_of (chain_of (graph_open self.now)) first count))) }
        ensures refused { IfErr result
            (IsSizeRefusal (graph_open self.now) first count (IsListed self.now)) }
    {
        match self {
            OpenGraph::Built(packed) => packed.arcs_len(first, count),
            OpenGraph::Listed(local) => local_arcs_len(alloc, local, first, count),
        }
    }

    /// How many bytes their names have. No memory is taken.
    ///
    /// `Vertices` where there are not so many vertices.
    pub fn names_len(&self, first: u32, count: u32) -> Result<u64, Wrong>
        ensures count { IfOk result (λ bytes. IsThere (graph_open self.now) first count
            × (bytes ≡ length (parts_of (name_at (graph_open self.now)) first count))) }
        ensures refused { IfErr result (IsSizeRefusal (graph_open self.now) first count ⊥) }
    {
        match self {
            OpenGraph::Built(packed) => names_len(packed.graph(), first, count),
            OpenGraph::Listed(local) => local_names_len(local, first, count),
        }
    }

    /// Puts their lists of arcs into arrays, as `fill_rows` does.
    ///
    /// `Vertices` where there are not so many vertices; else `Length` where there are not count + 1 starts; else, where it is not
    /// built, `NoRoom` when out of memory; else `Length` where there are not as many tips and lengths as arcs.
    pub fn fill_rows(
        &self,
        alloc: Global,
        first: u32,
        count: u32,
        starts: &mut [u64],
        tips: &mut [u32],
        lengths: &mut [i64],
    ) -> Result<(), Wrong>
        ensures filled { OnOk result (IsThere (graph_open self.now) first count
            × HaveRowLengths (graph_open self.now) first count starts.old tips.old lengths.old
            × AreRows (graph_open self.now) first count starts.new tips.new lengths.new) }
        ensures refused { IfErr result (λ why. IsFillRefusal (graph_open self.now) first count
            (HaveRowLengths (graph_open self.now) first count starts.old tips.old lengths.old)
            (IsListed self.now × (length starts.old ≡ count + 1)) why
            × (starts.new ≡ starts.old) × (tips.new ≡ tips.old) × (lengths.new ≡ lengths.old)) }
    {
        match self {
            OpenGraph::Built(packed) => packed.fill_rows(first, count, starts, tips, lengths),
            OpenGraph::Listed(local) => {
                fill_local_rows(alloc, local, first, count, starts, tips, lengths)
            }
        }
    }

    /// Puts their lists of arcs into arrays without the lengths of the arcs, as `fill_tips` does.
    ///
    /// Refused as `fill_rows` is.
    pub fn fill_tips(
        &self,
        alloc: Global,
        first: u32,
        count: u32,
        starts: &mut [u64],
        tips: &mut [u32],
    ) -> Result<(), Wrong>
        ensures filled { OnOk result (IsThere (graph_open self.now) first count
            × HaveTipLengths (graph_open self.now) first count starts.old tips.old
            × AreTips (graph_open self.now) first count starts.new tips.new) }
        ensures refused { IfErr result (λ why. IsFillRefusal (graph_open self.now) first count
            (HaveTipLengths (graph_open self.now) first count starts.old tips.old)
            (IsListed self.now × (length starts.old ≡ count + 1)) why
            × (starts.new ≡ starts.old) × (tips.new ≡ tips.old)) }
    {
        match self {
            OpenGraph::Built(packed) => packed.fill_tips(first, count, starts, tips),
            OpenGraph::Listed(local) => {
                fill_local_tips(alloc, local, first, count, starts, tips)
            }
        }
    }

    /// Puts their names into arrays, as `fill_names` does.
    ///
    /// `Vertices` where there are not so many vertices; else `Length` where there are not count + 1 starts; else, where it is not
    /// built, `NoRoom` when out of memory; else `Length` where there are not as many bytes as the names have.
    pub fn fill_names(
        &self,
        alloc: Global,
        first: u32,
        count: u32,
        starts: &mut [u64],
        bytes: &mut [u8],
    ) -> Result<(), Wrong>
        ensures filled { OnOk result (IsThere (graph_open self.now) first count
            × HaveNameLengths (graph_open self.now) first count starts.old bytes.old
            × AreNames (graph_open self.now) first count starts.new bytes.new) }
        ensures refused { IfErr result (λ why. IsFillRefusal (graph_open self.now) first count
            (HaveNameLengths (graph_open self.now) first count starts.old bytes.old)
            (IsListed self.now × (length starts.old ≡ count + 1)) why
            × (starts.new ≡ starts.old) × (bytes.new ≡ bytes.old)) }
    {
        match self {
            OpenGraph::Built(packed) => fill_names(packed.graph(), first, count, starts, bytes),
            OpenGraph::Listed(local) => {
                fill_local_names(alloc, local, first, count, starts, bytes)
            }
        }
    }

    /// Puts the numbers of a utility field of theirs into an array, as `fill_ints` does. No memory is taken.
    ///
    /// Refused as it is.
    pub fn fill_ints(
        &self,
        field: u32,
        first: u32,
        count: u32,
        values: &mut [i64],
    ) -> Result<(), Wrong>
        ensures filled { OnOk result (IsThere (graph_open self.now) first count
            × HoldsInts (graph_open self.now) field × (length values.old ≡ count)
            × (values.new ≡ ints_of (graph_open self.now) field first count)) }
        ensures refused { IfErr result (λ why.
            IsIntsRefusal (graph_open self.now) field first count (length values.old) why
            × (values.new ≡ values.old)) }
    {
        match self {
            OpenGraph::Built(packed) => fill_ints(packed.graph(), field, first, count, values),
            OpenGraph::Listed(local) => fill_local_ints(local, field, first, count, values),
        }
    }
}

// How many arcs are on the lists of a run of a generator's graph.
fn local_arcs_len(alloc: Global, local: &Local, first: u32, count: u32) -> Result<u128, Wrong>
    ensures count { IfOk result (λ m. IsThere (graph_open (OpenGraph.Listed local.now)) first count
        × (m ≡ length (parts_of (chain_of (graph_open (OpenGraph.Listed local.now))) first
        count))) }
    ensures refused { IfErr result
        (IsSizeRefusal (graph_open (OpenGraph.Listed local.now)) first count ⊤) }
{
    if !is_there(local.size(), first, count) {
        return Err(Wrong::Vertices);
    }
    if first == 0 && count == local.size() {
        if let Some(arcs) = all_arcs_len(alloc, local) {
            return Ok(arcs);
        }
    }
    arcs_of_run(alloc, local, first, count)
}

// How many arcs are on all lists of a generator's graph: as many as it counts, where this is told without the lists.
fn all_arcs_len(alloc: Global, local: &Local) -> Option<u128>
    ensures { IfSome result (λ m. m
        ≡ length (parts_of (chain_of (graph_open (OpenGraph.Listed local.now))) 0
        (length (graph_open (OpenGraph.Listed local.now)).vertices))) }
{
    match arcs_counted(alloc, local) {
        Some(arcs) => Some(arcs),
        None => None,
    }
}

// How many arcs a generator counts: those of subsets where a table of pairs tells them, since a walk may take longer than the
// lists.
fn arcs_counted(alloc: Global, local: &Local) -> Option<u128>
    ensures { IfSome result (λ m. m ≡ (graph_open (OpenGraph.Listed local.now)).m) }
{
    match local {
        Local::Board(board) => board.arcs_count().ok(),
        Local::Simplex(simplex) => simplex.arcs_count(&Links::new(alloc)).ok(),
        Local::Subsets(subsets) => subsets.arcs_by_table(alloc),
    }
}

// How many bytes the names of a run of a generator's graph have.
fn local_names_len(local: &Local, first: u32, count: u32) -> Result<u64, Wrong>
    ensures count { IfOk result (λ bytes. IsThere (graph_open (OpenGraph.Listed local.now)) first
        count
        × (bytes ≡ length (parts_of (name_at (graph_open (OpenGraph.Listed local.now))) first
        count))) }
    ensures refused { IfErr result
        (IsSizeRefusal (graph_open (OpenGraph.Listed local.now)) first count ⊥) }
{
    if !is_there(local.size(), first, count) {
        return Err(Wrong::Vertices);
    }
    Ok(names_len_of_run(local, first, count))
}

// Puts the lists of a run of a generator's graph into arrays.
fn fill_local_rows(
    alloc: Global,
    local: &Local,
    first: u32,
    count: u32,
    starts: &mut [u64],
    tips: &mut [u32],
    lengths: &mut [i64],
) -> Result<(), Wrong>
    ensures filled { OnOk result (IsThere (graph_open (OpenGraph.Listed local.now)) first count
        × HaveRowLengths (graph_open (OpenGraph.Listed local.now)) first count
        starts.old tips.old lengths.old
        × AreRows (graph_open (OpenGraph.Listed local.now)) first count
        starts.new tips.new lengths.new) }
    ensures refused { IfErr result (λ why. IsFillRefusal (graph_open (OpenGraph.Listed local.now))
        first count
        (HaveRowLengths (graph_open (OpenGraph.Listed local.now)) first count
        starts.old tips.old lengths.old)
        (IsListed (OpenGraph.Listed local.now) × (length starts.old ≡ count + 1)) why
        × (starts.new ≡ starts.old) × (tips.new ≡ tips.old) × (lengths.new ≡ lengths.old)) }
{
    match rows_for(alloc, local, first, count, starts.len(), tips.len()) {
        Ok(rows) => rows.copy_to(starts, tips, lengths),
        Err(wrong) => Err(wrong),
    }
}

// The same without the lengths of the arcs.
fn fill_local_tips(
    alloc: Global,
    local: &Local,
    first: u32,
    count: u32,
    starts: &mut [u64],
    tips: &mut [u32],
) -> Result<(), Wrong>
    ensures filled { OnOk result (IsThere (graph_open (OpenGraph.Listed local.now)) first count
        × HaveTipLengths (graph_open (OpenGraph.Listed local.now)) first count
        starts.old tips.old
        × AreTips (graph_open (OpenGraph.Listed local.now)) first count
        starts.new tips.new) }
    ensures refused { IfErr result (λ why. IsFillRefusal (graph_open (OpenGraph.Listed local.now))
        first count
        (HaveTipLengths (graph_open (OpenGraph.Listed local.now)) first count
        starts.old tips.old)
        (IsListed (OpenGraph.Listed local.now) × (length starts.old ≡ count + 1)) why
        × (starts.new ≡ starts.old) × (tips.new ≡ tips.old)) }
{
    match rows_for(alloc, local, first, count, starts.len(), tips.len()) {
        Ok(rows) => rows.copy_tips_to(starts, tips),
        Err(wrong) => Err(wrong),
    }
}

// Puts the names of a run of a generator's graph into arrays.
fn fill_local_names(
    alloc: Global,
    local: &Local,
    first: u32,
    count: u32,
    starts: &mut [u64],
    bytes: &mut [u8],
) -> Result<(), Wrong>
    ensures filled { OnOk result (IsThere (graph_open (OpenGraph.Listed local.now)) first count
        × HaveNameLengths (graph_open (OpenGraph.Listed local.now)) first count
        starts.old bytes.old
        × AreNames (graph_open (OpenGraph.Listed local.now)) first count
        starts.new bytes.new) }
    ensures refused { IfErr result (λ why. IsFillRefusal (graph_open (OpenGraph.Listed local.now))
        first count
        (HaveNameLengths (graph_open (OpenGraph.Listed local.now)) first count
        starts.old bytes.old)
        (IsListed (OpenGraph.Listed local.now) × (length starts.old ≡ count + 1)) why
        × (starts.new ≡ starts.old) × (bytes.new ≡ bytes.old)) }
{
    match names_for(alloc, local, first, count, starts.len()) {
        Ok(names) => names.copy_to(starts, bytes),
        Err(wrong) => Err(wrong),
    }
}

// The lists of a run of a generator's graph, for arrays of so many starts and tips.
fn rows_for(
    alloc: Global,
    local: &Local,
    first: u32,
    count: u32,
    starts: usize,
    tips: usize,
) -> Result<Rows, Wrong>
    ensures rows { IfOk result (λ rows. IsThere (graph_open (OpenGraph.Listed local.now)) first
        count × AreRows (graph_open (OpenGraph.Listed local.now)) first count rows.starts.items
        rows.tips.items rows.lengths.items) }
    ensures refused { IfErr result (IsFillRefusal (graph_open (OpenGraph.Listed local.now)) first
        count (starts ≡ count + 1) (starts ≡ count + 1)) }
{
    if !is_there(local.size(), first, count) {
        return Err(Wrong::Vertices);
    }
    if starts as u64 != u64::from(count) + 1 {
        return Err(Wrong::Length);
    }
    rows_with_room(alloc, local, first, count, tips)
}

// The names of a run of a generator's graph, for an array of so many starts.
fn names_for(
    alloc: Global,
    local: &Local,
    first: u32,
    count: u32,
    starts: usize,
) -> Result<Names, Wrong>
    ensures names { IfOk result (λ names. IsThere (graph_open (OpenGraph.Listed local.now)) first
        count × AreNames (graph_open (OpenGraph.Listed local.now)) first count names.starts.items
        names.bytes.items) }
    ensures refused { IfErr result (IsFillRefusal (graph_open (OpenGraph.Listed local.now)) first
        count (starts ≡ count + 1) (starts ≡ count + 1)) }
{
    if !is_there(local.size(), first, count) {
        return Err(Wrong::Vertices);
    }
    if starts as u64 != u64::from(count) + 1 {
        return Err(Wrong::Length);
    }
    names_of_run(alloc, local, first, count)
}
