//! The names of the vertices that stand in the places of others (GB_BASIC, induced).
ghost use Rattle.std.specs.Prelude.{◌≡◌, ◌++◌, length, map, OnOk, IfOk, IsOkUnless};
ghost use Rattle.std.specs.List.{range_with_len};
ghost use Rattle.sgb_ops.specs.declared.induced_graphs.entries.Entry.TheVariants as entry;
ghost use Rattle.sgb_ops.specs.Entries.{merged_count, names_by_entries, names_of_copies};
ghost use Rattle.sgb_graph.specs.Vertices.{names_of};
ghost use Rattle.sgb_ops.specs.inner.Compounds.{merged_name, numbered_name};
ghost use Rattle.sgb_ops.specs.inner.Entries.{own_names};
ghost use Rattle.sgb_ops.specs.inner.Slots.{inner_held};
ghost use Rattle.sgb_ops.specs.inner.Sources.{names_held};
// For the search alone.
ghost use Rattle.std.specs.Prelude.{◌<◌};

use super::slots::{Inner, Slot, Slots};
use crate::compounds::{ended_name, joined_name};
use crate::operands::{VertexNames, push_joined_names, push_name};
use crate::sources::Source;
use sgb_graph::Names;
use sgb_vec::{Panic, Text, name_of};
use std::alloc::Global;

// How many bytes of a name stay before `'`.
const MOST_BEFORE_PRIME: usize = 4_094;

// How many bytes of a name stay before `:` and a number, which has at most ten.
const MOST_BEFORE_NUMBER: usize = 4_084;

const MOST_NUMBER: usize = 10;

/// The names of the vertices that stand in the places of those of `graph`, by the entries, one for each vertex: so many
/// merged vertices come first.
///
/// `NoRoom` when out of memory, and nothing else.
pub(super) fn names_by_entries(
    alloc: Global,
    graph: &Source<'_>,
    entries: &Slots<'_>,
    merged: u32,
) -> Result<Names, Panic>
    requires count { length entries.now ≡ length graph.now.vertices }
    requires merged { merged ≡ merged_count entries.now }
    ensures ok { IfOk result (λ names. names ≡ names_by_entries (names_of graph.now) entries.now) }
    ensures memory { IsOkUnless result Panic.NoRoom }
{
    let mut names = Names::new(alloc);
    push_merged(alloc, &mut names, merged)?;
    let held = graph.vertex_names(alloc)?;
    push_own(alloc, &mut names, graph.n(), &held, entries)?;
    Ok(names)
}

// Appends the names of so many merged vertices.
fn push_merged(alloc: Global, names: &mut Names, count: u32) -> Result<(), Panic>
    ensures ok { OnOk result (names.new ≡ names.old ++ map merged_name (range_with_len 1 count)) }
    ensures memory { IsOkUnless result Panic.NoRoom }
{
    for k in 0..count {
        push_name(names, merged_name(alloc, k + 1)?)?;
    }
    Ok(())
}

// The name of merged vertex `k`.
fn merged_name(alloc: Global, k: u32) -> Result<Text, Panic>
    ensures ok { IfOk result (λ text. text ≡ merged_name k) }
    ensures memory { IsOkUnless result Panic.NoRoom }
{
    let number = name_of(alloc, &[k])?;
    Text::of_parts(alloc, b"", b"-", number.bytes())
}

// Appends the names of the vertices that are not merged.
fn push_own(
    alloc: Global,
    names: &mut Names,
    n: u32,
    held: &VertexNames<'_>,
    entries: &Slots<'_>,
) -> Result<(), Panic>
    requires count { length entries.now ≡ n }
    requires held { length (names_held held.now) ≡ n }
    ensures ok { OnOk result (names.new
        ≡ names.old ++ own_names (names_held held.now) entries.now) }
    ensures memory { IsOkUnless result Panic.NoRoom }
{
    for v in 0..n {
        push_copies(alloc, names, held.get(v), &entries.at(v))?;
    }
    Ok(())
}

// Appends the names of the vertices in the place of the one of this name alone.
fn push_copies(alloc: Global, names: &mut Names, name: &Text, entry: &Slot<'_>) -> Result<(), Panic>
    ensures ok { OnOk result (names.new ≡ names.old ++ names_of_copies name.now entry.now) }
    ensures memory { IsOkUnless result Panic.NoRoom }
{
    match entry.graph() {
        Some(inner) => push_inner_names(alloc, names, name, inner),
        None => push_counted(alloc, names, name, entry.size()),
    }
}

// Appends the name joined with those of a graph that is put in.
fn push_inner_names(
    alloc: Global,
    names: &mut Names,
    name: &Text,
    inner: &Inner<'_>,
) -> Result<(), Panic>
    ensures ok { OnOk result (names.new ≡ names.old
        ++ names_of_copies name.now (entry.Graph (inner_held inner.now))) }
    ensures memory { IsOkUnless result Panic.NoRoom }
{
    match inner {
        Inner::Built(graph) => {
            let others = VertexNames::Of(graph);
            push_joined_names(alloc, names, name, b":", &others, graph.n())
        }
        Inner::Circle(circle) => circle.push_names(alloc, names, name),
    }
}

// Appends the names of so many copies: one has the name, the second of two a prime too, three or more have numbers.
fn push_counted(alloc: Global, names: &mut Names, name: &Text, count: u32) -> Result<(), Panic>
    ensures ok { OnOk result (names.new ≡ names.old
        ++ names_of_copies name.now (entry.Copies count)) }
    ensures memory { IsOkUnless result Panic.NoRoom }
{
    if count > 2 {
        return push_numbered(alloc, names, name, count);
    }
    if count > 0 {
        push_name(names, name.copy(alloc)?)?;
    }
    if count > 1 {
        push_name(names, ended_name(alloc, name, MOST_BEFORE_PRIME, b"'")?)?;
    }
    Ok(())
}

// Appends the name with `:0`, `:1` and so on, so many times.
fn push_numbered(alloc: Global, names: &mut Names, name: &Text, count: u32) -> Result<(), Panic>
    ensures ok { OnOk result (names.new ≡ names.old
        ++ map (numbered_name name.now) (range_with_len 0 count)) }
    ensures memory { IsOkUnless result Panic.NoRoom }
{
    for k in 0..count {
        push_name(names, numbered_name(alloc, name, k)?)?;
    }
    Ok(())
}

// The name of copy number `k`.
fn numbered_name(alloc: Global, name: &Text, k: u32) -> Result<Text, Panic>
    ensures ok { IfOk result (λ text. text ≡ numbered_name name.now k) }
    ensures memory { IsOkUnless result Panic.NoRoom }
{
    let number = name_of(alloc, &[k])?;
    joined_name(alloc, name, MOST_BEFORE_NUMBER, b":", &number, MOST_NUMBER)
}
