//! The events from a copy of a vertex, added to the graph one after another (GB_BASIC, induced).
ghost use Rattle.std.specs.Prelude.{◌≡◌, ◌<◌, ◌≤◌, ◌-◌, [], ◌∷◌, false, length, map, filter, flat_map, All, Contains, OnOk, IsOkUnless};
ghost use Rattle.std.specs.List.{list_any, range_with_len};
ghost use Rattle.sgb_graph.specs.Growth.{AddsEvents, HasPlainArcs};
ghost use Rattle.sgb_ops.specs.Entries.{copies_of, is_unnumbered, merged_count};
ghost use Rattle.sgb_ops.specs.inner.Entries.{total_of};
ghost use Rattle.sgb_ops.specs.inner.Induced.{event_between, events_of_arc, is_met, wanted};

use super::entries::Copies;
use super::events::Flags;
use sgb_graph::{Graph, Link};
use sgb_vec::Panic;

/// Adds the events from copy `u` of vertex `v` for these arcs from `v`, parallel ones too.
///
/// `NoRoom` when out of memory, and nothing else.
pub(super) fn add_from_copy(
    built: &mut Graph,
    copies: &Copies,
    arcs: &[Link],
    flags: Flags,
    v: u32,
    u: u32,
) -> Result<(), Panic>
    requires copy { u < length built.old.vertices }
    requires tips { All (λ l. l.tip < length copies.now) arcs.now }
    requires numbered { list_any is_unnumbered copies.now ≡ false }
    requires own { merged_count copies.now ≡ 0 }
    requires of { Contains (copies_of copies.now v) u }
    requires size { length built.old.vertices ≡ total_of copies.now }
    requires plain { HasPlainArcs built.old }
    ensures ok { OnOk result (AddsEvents flags.directed built.old built.new
        (wanted flags.self_loops (flat_map (events_of_arc copies.now flags.directed v u)
        arcs.now))) }
    ensures memory { IsOkUnless result Panic.NoRoom }
{
    for arc in arcs {
        add_to_copies(built, copies, *arc, flags, v, u)?;
    }
    Ok(())
}

// Adds those for one arc: to the copies of its tip.
#[inline(always)]
fn add_to_copies(
    built: &mut Graph,
    copies: &Copies,
    arc: Link,
    flags: Flags,
    v: u32,
    u: u32,
) -> Result<(), Panic>
    requires copy { u < length built.old.vertices }
    requires tip { arc.tip < length copies.now }
    requires numbered { list_any is_unnumbered copies.now ≡ false }
    requires own { merged_count copies.now ≡ 0 }
    requires of { Contains (copies_of copies.now v) u }
    requires size { length built.old.vertices ≡ total_of copies.now }
    requires plain { HasPlainArcs built.old }
    ensures ok { OnOk result (AddsEvents flags.directed built.old built.new
        (wanted flags.self_loops (events_of_arc copies.now flags.directed v u arc))) }
    ensures memory { IsOkUnless result Panic.NoRoom }
{
    let start = copies.start(arc.tip);
    let end = copies.end(arc.tip);
    if arc.tip != v {
        return add_to_all(built, start, end, arc.len, flags.directed, u);
    }
    for t in start..end {
        add_met(built, arc, flags, v, u, t)?;
    }
    Ok(())
}

// Adds the events of this length from `u` to the vertices from `start` to `end`.
#[inline(always)]
fn add_to_all(
    built: &mut Graph,
    start: u32,
    end: u32,
    len: i64,
    directed: bool,
    u: u32,
) -> Result<(), Panic>
    requires copy { u < length built.old.vertices }
    requires within { end ≤ length built.old.vertices }
    requires plain { HasPlainArcs built.old }
    ensures ok { OnOk result (AddsEvents directed built.old built.new
        (map (event_between u len) (range_with_len start (end - start)))) }
    ensures memory { IsOkUnless result Panic.NoRoom }
{
    for t in start..end {
        built.add_event(directed, u, t, len)?;
    }
    Ok(())
}

// Adds the one to copy `t` of the tip, where `u` is joined to it.
#[inline(always)]
fn add_met(built: &mut Graph, arc: Link, flags: Flags, v: u32, u: u32, t: u32) -> Result<(), Panic>
    requires copy { u < length built.old.vertices }
    requires other { t < length built.old.vertices }
    requires plain { HasPlainArcs built.old }
    ensures ok { OnOk result (AddsEvents flags.directed built.old built.new
        (wanted flags.self_loops (map (event_between u arc.len)
        (filter (is_met flags.directed v u arc.tip) (t ∷ []))))) }
    ensures memory { IsOkUnless result Panic.NoRoom }
{
    // A loop of an undirected graph joins each two copies once.
    if flags.directed || arc.tip != v || u <= t {
        add_wanted(built, arc.len, flags, u, t)?;
    }
    Ok(())
}

// Adds the event of this length from `u` to `t`, unless it is a loop and none is wanted.
#[inline(always)]
fn add_wanted(built: &mut Graph, len: i64, flags: Flags, u: u32, t: u32) -> Result<(), Panic>
    requires copy { u < length built.old.vertices }
    requires other { t < length built.old.vertices }
    requires plain { HasPlainArcs built.old }
    ensures ok { OnOk result (AddsEvents flags.directed built.old built.new
        (wanted flags.self_loops (event_between u len t ∷ []))) }
    ensures memory { IsOkUnless result Panic.NoRoom }
{
    if flags.self_loops || u != t {
        built.add_event(flags.directed, u, t, len)?;
    }
    Ok(())
}
