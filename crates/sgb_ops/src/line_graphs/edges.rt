//! The edges of a line graph that is not directed (GB_BASIC, lines).
ghost use Rattle.std.specs.Prelude.{◌≡◌, ℕ, false, ◌≤◌, ◌<◌, ◌++◌, ◌==◌, [], ◌∷◌, length, filter, take, slice_index_or, All, OnOk, IfOk, IsOkUnless, if◌then◌else◌};
ghost use Rattle.sgb_vec.specs.Limits.{most_vertices};
ghost use Rattle.sgb_graph.specs.Growth.{AddsEvents, HasPlainArcs};
ghost use Rattle.sgb_ops.specs.Lines.{line_events};
ghost use Rattle.sgb_ops.specs.inner.Lines.{DescendFrom, LeadsUp, LineWithin, events_to_numbers, no_line, events_to};
ghost use Rattle.sgb_ops.specs.inner.LineLists.{counts, list_at, numbers_at, touches};
// For the search alone.
ghost use Rattle.std.specs.Prelude.{◌+◌};

use super::line::Line;
use sgb_graph::Graph;
use sgb_vec::Panic;
use smallvec::SmallVec;
use std::alloc::Global;

// Numbers of lines, which are kept in place where they are few: so many most vertices of a board have.
type Numbers = SmallVec<u32, 4>;

// Adds the edges of the line graph: from each line those to the earlier lines that it meets.
pub(super) fn add_edges(
    built: &mut Graph,
    alloc: Global,
    n: u32,
    lines: &[Line],
) -> Result<(), Panic>
    requires size { length built.old.vertices ≡ length lines.now }
    requires plain { HasPlainArcs built.old }
    requires few { length lines.now ≤ most_vertices }
    requires within { All (LineWithin n) lines.now }
    requires descending { DescendFrom n lines.now }
    requires up { All LeadsUp lines.now }
    ensures ok { OnOk result (AddsEvents false built.old built.new (line_events false lines.now)) }
    ensures memory { IsOkUnless result Panic.NoRoom }
{
    // For each vertex the numbers of the lines so far that have an end there.
    let mut lists = empty_lists(alloc, n)?;
    for (i, line) in lines.iter().enumerate() {
        add_edges_from(built, lines, i as u32, *line, &lists)?;
        push_line(&mut lists, i as u32, *line)?;
    }
    Ok(())
}

// How many records the edges take: two for each line and each earlier one at one of its ends. 0 where there is no memory
// to count them.
pub(super) fn records_of_edges(alloc: Global, n: u32, lines: &[Line]) -> usize
    requires { All (LineWithin n) lines.now }
{
    let Ok(mut counts) = vec![in alloc; 0; n as usize] else {
        return 0;
    };
    let mut pairs = 0_usize;
    for line in lines {
        pairs = pairs.saturating_add(counted(&mut counts, line.from));
        if line.to != line.from {
            pairs = pairs.saturating_add(counted(&mut counts, line.to));
        }
    }
    pairs.saturating_mul(2)
}

// How many were counted at this place, at which one more is counted.
fn counted(counts: &mut [u32], w: u32) -> usize
    requires { w < length counts.old }
    ensures { length counts.new ≡ length counts.old }
{
    let before = counts[w as usize];
    counts[w as usize] = before.saturating_add(1);
    before as usize
}

// Adds the edges from line number `i` to the earlier lines that it meets: first those at its end, but those that begin
// where it begins, and then those at its beginning, which come later.
fn add_edges_from(
    built: &mut Graph,
    lines: &[Line],
    i: u32,
    line: Line,
    lists: &[Numbers],
) -> Result<(), Panic>
    requires size { length built.old.vertices ≡ length lines.now }
    requires plain { HasPlainArcs built.old }
    requires place { i < length lines.now }
    requires line { line ≡ slice_index_or lines.now i no_line }
    requires within { LineWithin (length lists.now) line }
    requires descending { DescendFrom (length lists.now) lines.now }
    requires up { All LeadsUp lines.now }
    requires listed { (w : ℕ) → list_at lists.now w ≡ numbers_at w (take i lines.now) }
    ensures ok { OnOk result (AddsEvents false built.old built.new
        (events_to false i line (take i lines.now))) }
    ensures memory { IsOkUnless result Panic.NoRoom }
{
    add_edges_to(built, lines, i, true, lists[line.to as usize].as_slice())?;
    add_edges_to(built, lines, i, false, lists[line.from as usize].as_slice())
}

// Adds the edges from line number `i` to those of the list, or only to those that begin elsewhere.
fn add_edges_to(
    built: &mut Graph,
    lines: &[Line],
    i: u32,
    elsewhere: bool,
    list: &[u32],
) -> Result<(), Panic>
    requires size { length built.old.vertices ≡ length lines.now }
    requires plain { HasPlainArcs built.old }
    requires place { i < length lines.now }
    requires within { All (λ j. j < length lines.now) list.now }
    ensures ok { OnOk result (AddsEvents false built.old built.new
        (events_to_numbers i (filter (counts elsewhere lines.now i) list.now))) }
    ensures memory { IsOkUnless result Panic.NoRoom }
{
    for j in list {
        let wanted = counts(elsewhere, lines, i, *j);
        add_edge_if(built, wanted, i, *j)?;
    }
    Ok(())
}

// Whether line number `j` counts for line number `i`: each, or where wanted one that begins elsewhere.
fn counts(elsewhere: bool, lines: &[Line], i: u32, j: u32) -> bool
    requires line { i < length lines.now }
    requires other { j < length lines.now }
    ensures { result ≡ counts elsewhere lines.now i j }
{
    !elsewhere || lines[j as usize].from != lines[i as usize].from
}

// Adds the edge from line number `i` to line number `j`, where it is wanted.
fn add_edge_if(built: &mut Graph, wanted: bool, i: u32, j: u32) -> Result<(), Panic>
    requires line { i < length built.old.vertices }
    requires other { j < length built.old.vertices }
    requires plain { HasPlainArcs built.old }
    ensures ok { OnOk result (AddsEvents false built.old built.new
        (events_to_numbers i (if wanted then j ∷ [] else []))) }
    ensures memory { IsOkUnless result Panic.NoRoom }
{
    if wanted {
        return built.add_event(false, i, j, 1);
    }
    Ok(())
}

// So many empty lists.
fn empty_lists(alloc: Global, n: u32) -> Result<Vec<Numbers>, Panic>
    ensures ok { IfOk result (λ lists. (w : ℕ) → list_at lists.items w ≡ []) }
    ensures size { IfOk result (λ lists. length lists.items ≡ n) }
    ensures memory { IsOkUnless result Panic.NoRoom }
{
    let mut lists = Vec::new(alloc);
    for _w in 0..n {
        lists.push(Numbers::new(alloc))?;
    }
    Ok(lists)
}

// Appends the number of the line to the list of each of its ends.
fn push_line(lists: &mut Vec<Numbers>, i: u32, line: Line) -> Result<(), Panic>
    requires within { LineWithin (length lists.old.items) line }
    ensures ok { OnOk result ((w : ℕ) → list_at lists.new.items w ≡ list_at lists.old.items w
        ++ (if touches w line then i ∷ [] else [])) }
    ensures size { OnOk result (length lists.new.items ≡ length lists.old.items) }
    ensures memory { IsOkUnless result Panic.NoRoom }
{
    push_at(lists, line.from, i)?;
    if line.to != line.from {
        push_at(lists, line.to, i)?;
    }
    Ok(())
}

// Appends the number to list number `w`.
fn push_at(lists: &mut Vec<Numbers>, w: u32, i: u32) -> Result<(), Panic>
    requires { w < length lists.old.items }
    ensures ok { OnOk result ((u : ℕ) → list_at lists.new.items u ≡ list_at lists.old.items u
        ++ (if w == u then i ∷ [] else [])) }
    ensures size { OnOk result (length lists.new.items ≡ length lists.old.items) }
    ensures memory { IsOkUnless result Panic.NoRoom }
{
    lists[w as usize].push(i)?;
    Ok(())
}
