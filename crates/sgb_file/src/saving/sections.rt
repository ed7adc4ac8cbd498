//! A section of a file: its title and its records. Short lines are put together before they are written.
//!
//! Other records are laid out field by field. The two ways follow one another as the records come, in one loop for both
//! sections.
ghost use Rattle.std.specs.Prelude.{◌≡◌, ◌+◌, ◌^◌, ◌<◌, ◌≤◌, ◌++◌, ◌∷◌, [], ℕ, IfOk, List, length, true};
ghost use Rattle.std.specs.Bool.{OnFalse, OnTrue};
ghost use Rattle.sgb_graph.specs.Graphs.{GraphData};
ghost use Rattle.sgb_file.specs.Checksum.{has_star};
ghost use Rattle.sgb_file.specs.inner.Layouts.{AreLaidUpTo, IsLaid, LinesSoFar, stage};
ghost use Rattle.sgb_file.specs.inner.ShortLines.{short_stage};

use super::layouts::Layout;
use super::short_lines::ShortLines;
use crate::devices::{Failed, Sink, put_all};
use sgb_graph::Graph;

// A kind of records that have a section of their own: those of the vertices, or those of the arcs.
pub(super) trait RecordKind {
    // The title of the section.
    ghost title: { List ℕ };

    // How many such records a graph has.
    ghost count: { GraphData → ℕ };

    // The lines of a graph's records from this number on.
    ghost lines_from: { GraphData → ℕ → List (List ℕ) };

    // The title and its newline.
    fn title_line() -> &'static [u8]
        ensures line { result.now ≡ title ++ 10 ∷ [] }
        ensures star { has_star title ≡ true };

    // How many such records the graph has.
    fn len(graph: &Graph) -> usize
        ensures { result ≡ count graph.now };

    // Puts the line of record `k` after the others, where it is short.
    fn put_short(lines: &mut ShortLines, graph: &Graph, k: usize) -> bool
        requires within { k < count graph.now }
        requires room { length lines.old.text + 60 ≤ 4096 }
        requires value { lines.old.value < 2 ^ 32 }
        ensures laid { OnTrue result (LinesSoFar (lines_from graph.now k)
            (lines_from graph.now (k + 1)) (short_stage lines.old) (short_stage lines.new)) }
        ensures left { OnFalse result (lines.new ≡ lines.old) }
        ensures value { lines.new.value < 2 ^ 32 };

    // Writes record `k`.
    fn put<W: Sink>(
        layout: &mut Layout,
        sink: &mut W,
        graph: &Graph,
        k: usize,
    ) -> Result<(), Failed>
        requires within { k < count graph.now }
        requires line { layout.old.line ≡ [] }
        ensures { AreLaidUpTo (lines_from graph.now k) (λ _. lines_from graph.now (k + 1))
            (stage W.written W.has_failed sink.old layout.old)
            (stage W.written W.has_failed sink.new layout.new) result };

    // No lines are left after the last record.
    ghost end: { (graph : GraphData) (k : ℕ) → count graph ≤ k → lines_from graph k ≡ [] };
}

// Writes the section of the records of this kind: its title, and all of them.
pub(super) fn put_section<K: RecordKind, W: Sink>(
    layout: &mut Layout,
    sink: &mut W,
    graph: &Graph,
) -> Result<(), Failed>
    requires { layout.old.line ≡ [] }
    ensures { IsLaid (K.title ∷ K.lines_from graph.now 0) []
        (stage W.written W.has_failed sink.old layout.old)
        (stage W.written W.has_failed sink.new layout.new) result }
{
    put_all(sink, K::title_line())?;
    let mut lines = ShortLines::new();
    let mut k = 0;
    while k < K::len(graph) {
        k = put_next::<K, W>(layout, sink, graph, &mut lines, k)?;
    }
    Ok(())
}

// Writes records from number `from` on: those whose lines are put together, or one. Returns the
// number of the next one.
fn put_next<K: RecordKind, W: Sink>(
    layout: &mut Layout,
    sink: &mut W,
    graph: &Graph,
    lines: &mut ShortLines,
    from: usize,
) -> Result<usize, Failed>
    requires within { from < K.count graph.now }
    requires line { layout.old.line ≡ [] }
    ensures more { IfOk result (λ to. from < to) }
    ensures laid { AreLaidUpTo (K.lines_from graph.now from) (λ to. K.lines_from graph.now to)
        (stage W.written W.has_failed sink.old layout.old)
        (stage W.written W.has_failed sink.new layout.new) result }
{
    prove!(from < K::len(graph));
    lines.begin(layout.checksum());
    let to = put_short_records::<K>(lines, graph, from);
    if to == from {
        K::put(layout, sink, graph, from)?;
        return Ok(from + 1);
    }
    layout.put_lines(sink, lines)?;
    Ok(to)
}

// Puts the lines of records together, from number `from` on, up to the first one whose line is
// not short or has no room. Returns its number.
#[inline(never)]
fn put_short_records<K: RecordKind>(lines: &mut ShortLines, graph: &Graph, from: usize) -> usize
    requires { lines.old.value < 2 ^ 32 }
    ensures from { from ≤ result }
    ensures laid { LinesSoFar (K.lines_from graph.now from) (K.lines_from graph.now result)
        (short_stage lines.old) (short_stage lines.new) }
    ensures value { lines.new.value < 2 ^ 32 }
{
    let mut k = from;
    while k < K::len(graph) && lines.has_room() {
        if !K::put_short(lines, graph, k) {
            return k;
        }
        k += 1;
    }
    k
}
