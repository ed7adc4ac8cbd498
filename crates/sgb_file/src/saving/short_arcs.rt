//! The records of arcs, and those whose lines are short.
//!
//! Short are those whose fields are not used, with numbers below 10^8 and a length below 10,000.
ghost use Rattle.std.specs.Prelude.{◌≡◌, ◌<◌, codes, decimal, drop, length, IfSome};
ghost use Rattle.std.specs.Fmt.{signed_decimal};
ghost use Rattle.sgb_graph.specs.Columns.{arc_seen};
ghost use Rattle.sgb_graph.specs.declared.fields.Ref.TheVariants.{At};
ghost use Rattle.sgb_file.specs.inner.SavedLines.{arc_texts};
ghost use Rattle.sgb_file.specs.inner.Layouts.{lines_of, no_lines};
ghost use Rattle.sgb_file.specs.inner.ShortLines.{AreShort, short_texts};

use super::fields::is_used;
use super::layouts::Layout;
use super::records::put_arc;
use super::sections::RecordKind;
use super::short_lines::ShortLines;
use crate::devices::{Failed, Sink};
use sgb_graph::{ArcRef, Graph, Ref};

// A number below this one has at most eight digits.
const FIRST_LONG_NUMBER: u32 = 100_000_000;

// The arc records.
pub(super) struct Arcs;

impl RecordKind for Arcs {
    ghost title = { codes "* Arcs" };

    ghost count = { λ graph. length graph.records };

    ghost lines_from = { λ graph k. lines_of (λ r. arc_texts r) (drop k graph.records) };

    ghost end = { λ graph k past. no_lines (λ r. arc_texts r) graph.records k past };

    fn title_line() -> &'static [u8] {
        b"* Arcs\n"
    }

    #[inline(always)]
    fn len(graph: &Graph) -> usize {
        graph.records_len()
    }

    #[inline(always)]
    fn put_short(lines: &mut ShortLines, graph: &Graph, k: usize) -> bool {
        let Some((tip, next, len)) = short_numbers(graph.arc_rec(k)) else {
            return false;
        };
        lines.put_arc(tip, next, len);
        true
    }

    fn put<W: Sink>(
        layout: &mut Layout,
        sink: &mut W,
        graph: &Graph,
        k: usize,
    ) -> Result<(), Failed> {
        put_arc(layout, sink, graph.arc_rec(k))
    }
}

// The tip, the next record's number and the length of an arc record, where its line is short.
#[inline(always)]
fn short_numbers(arc: ArcRef<'_>) -> Option<(u32, Option<u32>, u32)>
    ensures short { IfSome result (λ s. AreShort s.0 s.1 s.2) }
    ensures texts { IfSome result (λ s. arc_texts (arc_seen arc.entry)
        ≡ short_texts s.0 s.1 s.2) }
{
    if is_used(arc.a) || is_used(arc.b) {
        return None;
    }
    let tip = short_tip(arc.tip)?;
    let next = short_next(arc.next)?;
    let len = short_integer(arc.len)?;
    Some((tip, next, len))
}

// The number of the vertex where an arc leads, where it has few digits.
#[inline(always)]
fn short_tip(tip: Ref) -> Option<u32>
    ensures { IfSome result (λ v. (tip ≡ At v) × (v < 100_000_000)) }
{
    match tip {
        Ref::At(v) if v < FIRST_LONG_NUMBER => Some(v),
        _ => None,
    }
}

// The number of a record, if there is one, where it has few digits.
#[inline(always)]
pub(super) fn short_next(next: Option<usize>) -> Option<Option<u32>>
    ensures { IfSome result (λ short. (short ≡ next) × IfSome short (λ k. k < 100_000_000)) }
{
    match next {
        None => Some(None),
        Some(k) if k < FIRST_LONG_NUMBER as usize => Some(Some(k as u32)),
        Some(_) => None,
    }
}

// An integer, where it is not negative and has few digits.
#[inline(always)]
pub(super) fn short_integer(integer: i64) -> Option<u32>
    ensures { IfSome result (λ short. (signed_decimal integer ≡ decimal short) × (short < 10_000)) }
{
    if 0 <= integer && integer < 10_000 {
        Some(integer as u32)
    } else {
        None
    }
}
