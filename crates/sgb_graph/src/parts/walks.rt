//! Walks along the chains of records. Records that were passed are marked, so that each is passed twice at most.
//!
//! Where each record leads on to an earlier one, or to none, the way from each ends. It is so in each graph without
//! loops that was made arc by arc, and is seen in one pass with no memory (`lead_back`). Marks are left for other
//! graphs.
ghost use Rattle.std.specs.Prelude.{◌≡◌, ◌≤◌, ◌&&◌, length, IsTrue, IfOk};
ghost use Rattle.sgb_vec.specs.Limits.{most_vertices};
ghost use Rattle.std.specs.List.{list_all, range_with_len};
ghost use Rattle.sgb_graph.specs.Graphs.{ends_of};
ghost use Rattle.sgb_graph.specs.Sound.{chain_fits, is_vertex};
ghost use Rattle.sgb_graph.specs.inner.Walks.{MarksEnd, MarksGoOn, MarksLead, is_marked, leads_back, leads_of, chains_end, lists_lead_to_vertices};

use crate::fields::Ref;
use crate::ranges::chain_fits;
use crate::records::Records;
use crate::vertices::Vertices;
use std::alloc::{AllocError, Global};

// Whether each record leads on to an earlier one, or to none, as where each was put in front of its list, and leads to a vertex.
pub(super) fn lead_back(records: &Records) -> bool
    ensures { result ≡ list_all (leads_back records.now.items)
        (range_with_len 0 (length records.now.items)) }
{
    for k in 0..records.len() {
        let arc = records.get(k);
        if !leads_back(k, arc.next, arc.tip) {
            return false;
        }
    }
    true
}

// Whether the next record, if there is one, stands before record k, and the tip is a vertex.
fn leads_back(k: usize, next: Option<usize>, tip: Ref) -> bool
    ensures { result ≡ (chain_fits k next && is_vertex tip) }
{
    chain_fits(k, next) && is_vertex(tip)
}

// Whether the way by next comes to an end from every record.
pub(super) fn chains_end(alloc: Global, records: &Records) -> Result<bool, AllocError>
    ensures { IfOk result (λ b. b ≡ chains_end records.now.items) }
{
    let mut marks = vec![in alloc; false; records.len()]?;
    for k in 0..records.len() {
        if !way_ends(records, &marks, Some(k)) {
            return Ok(false);
        }
        mark_way(records, &mut marks, Some(k));
    }
    Ok(true)
}

// Whether each arc on a vertex's list leads to a vertex.
pub(super) fn lists_lead_to_vertices(
    alloc: Global,
    vertices: &Vertices,
    records: &Records,
) -> Result<bool, AllocError>
    requires few { length vertices.now.items ≤ most_vertices }
    requires ends { IsTrue (list_all (λ v. ends_of records.now.items v.arcs) vertices.now.items) }
    ensures { IfOk result (λ b. b ≡ lists_lead_to_vertices vertices.now.items records.now.items) }
{
    let mut marks = vec![in alloc; false; records.len()]?;
    for v in 0..vertices.len() as u32 {
        let first = vertices.first(v);
        if !way_leads(records, &marks, first) {
            return Ok(false);
        }
        mark_way(records, &mut marks, first);
    }
    Ok(true)
}

// Whether the way from a first record comes to an end, where it does from each marked one. A way of more steps than
// there are records is a ring.
fn way_ends(records: &Records, marks: &[bool], first: Option<usize>) -> bool
    requires long { length marks.now ≡ length records.now.items }
    requires marked { MarksEnd records.now.items marks.now }
    ensures { result ≡ ends_of records.now.items first }
{
    let mut next = first;
    for _step in 0..records.len() {
        let Some(k) = next else {
            return true;
        };
        if k >= records.len() {
            return false;
        }
        if marks[k] {
            return true;
        }
        next = records.get(k).next;
    }
    next.is_none()
}

// Whether each arc on the way from a first record leads to a vertex, where it does so from each marked one.
fn way_leads(records: &Records, marks: &[bool], first: Option<usize>) -> bool
    requires long { length marks.now ≡ length records.now.items }
    requires ends { IsTrue (ends_of records.now.items first) }
    requires marked { MarksLead records.now.items marks.now }
    ensures { result ≡ leads_of records.now.items first }
{
    let mut next = first;
    while let Some(k) = next {
        let arc = records.get(k);
        if marks[k] {
            return true;
        }
        if !is_vertex(arc.tip) {
            return false;
        }
        next = arc.next;
    }
    true
}

// Marks the records on the way from a first one, up to one that has a mark.
fn mark_way(records: &Records, marks: &mut [bool], first: Option<usize>)
    requires long { length marks.old ≡ length records.now.items }
    requires ends { IsTrue (ends_of records.now.items first) }
    ensures long { length marks.new ≡ length marks.old }
    ensures ends { MarksEnd records.now.items marks.old → MarksEnd records.now.items marks.new }
    ensures leads { MarksLead records.now.items marks.old
        → IsTrue (leads_of records.now.items first) → MarksLead records.now.items marks.new }
    ensures first { IsTrue (is_marked marks.new first) }
    ensures on { MarksGoOn records.now.items marks.old → MarksGoOn records.now.items marks.new }
{
    let mut next = first;
    while let Some(k) = next {
        if marks[k] {
            return;
        }
        marks[k] = true;
        next = records.get(k).next;
    }
}

// Whether this is a vertex.
fn is_vertex(tip: Ref) -> bool
    ensures { result ≡ is_vertex tip }
{
    matches!(tip, Ref::At(_))
}
