//! The arcs of a directed line graph (GB_BASIC, lines).
//!
//! The lines that begin at one vertex are a run of the list of lines, and a table tells where each run ends.
ghost use Rattle.std.specs.Prelude.{◌≡◌, ℕ, true, ◌≤◌, ◌<◌, ◌+◌, ◌-◌, ◌^◌, length, min, slice_index, All, OnOk, IfOk, IsOkUnless};
ghost use Rattle.std.specs.List.{range_with_len, sum_by};
ghost use Rattle.sgb_vec.specs.Limits.{most_vertices};
ghost use Rattle.sgb_graph.specs.Growth.{AddsEvents, HasPlainArcs};
ghost use Rattle.sgb_ops.specs.Lines.{line_events};
ghost use Rattle.sgb_ops.specs.inner.Lines.{DescendFrom, LineWithin, events_to_numbers};
ghost use Rattle.sgb_ops.specs.inner.LineLists.{counts};
ghost use Rattle.sgb_ops.specs.inner.LineRuns.{begin_at, begin_from};

use super::line::Line;
use sgb_graph::Graph;
use sgb_vec::Panic;
use std::alloc::Global;

// Adds the arcs of the line graph: from each line those to the lines that begin where it ends, which are one run.
pub(super) fn add_arcs(
    built: &mut Graph,
    alloc: Global,
    n: u32,
    lines: &[Line],
) -> Result<(), Panic>
    requires size { length built.old.vertices ≡ length lines.now }
    requires plain { HasPlainArcs built.old }
    requires few { length lines.now ≤ most_vertices }
    requires within { All (LineWithin n) lines.now }
    requires descending { DescendFrom n lines.now }
    ensures ok { OnOk result (AddsEvents true built.old built.new (line_events true lines.now)) }
    ensures memory { IsOkUnless result Panic.NoRoom }
{
    let ends = run_ends(alloc, n, lines)?;
    built.reserve(room_for_arcs(lines, &ends))?;
    for (i, line) in lines.iter().enumerate() {
        let w = line.to as usize;
        add_arcs_to(built, i as u32, ends[w + 1], ends[w])?;
    }
    Ok(())
}

// How many records the arcs take: for each line as many as lines begin where it ends.
fn room_for_arcs(lines: &[Line], ends: &[u32]) -> usize
    requires { All (λ l. l.to + 1 < length ends.now) lines.now }
    ensures { result ≡ min (sum_by (λ l. slice_index ends.now l.to
        - slice_index ends.now (l.to + 1)) lines.now) (2 ^ 64 - 1) }
{
    let mut count = 0_usize;
    for line in lines {
        let end = line.to as usize;
        count = count.saturating_add(ends[end].saturating_sub(ends[end + 1]) as usize);
    }
    count
}

// Adds the arcs from line number `i` to the lines with the numbers from `first` on, before `end`.
fn add_arcs_to(built: &mut Graph, i: u32, first: u32, end: u32) -> Result<(), Panic>
    requires line { i < length built.old.vertices }
    requires others { end ≤ length built.old.vertices }
    requires plain { HasPlainArcs built.old }
    ensures ok { OnOk result (AddsEvents true built.old built.new
        (events_to_numbers i (range_with_len first (end - first)))) }
    ensures memory { IsOkUnless result Panic.NoRoom }
{
    for j in first..end {
        built.add_event(true, i, j, 1)?;
    }
    Ok(())
}

// For each of `n` vertices, and the number after the last, how many lines begin there or later. Lines from the last vertex
// down that begin at one vertex are a run, which ends before that number, and begins with that of the next vertex.
fn run_ends(alloc: Global, n: u32, lines: &[Line]) -> Result<Vec<u32>, Panic>
    requires few { length lines.now ≤ most_vertices }
    requires within { All (LineWithin n) lines.now }
    ensures size { IfOk result (λ ends. length ends.items ≡ n + 1) }
    ensures ends { IfOk result (λ ends. (w : ℕ) → w ≤ n
        → slice_index ends.items w ≡ begin_from w lines.now) }
    ensures memory { IsOkUnless result Panic.NoRoom }
{
    let mut ends = counts_of_beginnings(alloc, n, lines)?;
    for w in (0..n as usize).rev() {
        ends[w] += ends[w + 1];
    }
    Ok(ends)
}

// For each of `n` vertices how many lines begin there, and a 0 more.
fn counts_of_beginnings(alloc: Global, n: u32, lines: &[Line]) -> Result<Vec<u32>, Panic>
    requires few { length lines.now ≤ most_vertices }
    requires within { All (LineWithin n) lines.now }
    ensures size { IfOk result (λ counts. length counts.items ≡ n + 1) }
    ensures counts { IfOk result (λ counts. (w : ℕ) → w ≤ n
        → slice_index counts.items w ≡ begin_at w lines.now) }
    ensures memory { IsOkUnless result Panic.NoRoom }
{
    let mut counts = vec![in alloc; 0; n as usize + 1]?;
    for line in lines {
        counts[line.from as usize] += 1;
    }
    Ok(counts)
}
