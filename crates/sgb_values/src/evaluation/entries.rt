//! The entries of induced graphs, as they are evaluated and handed on to the operation (GB_BASIC, induced).
ghost use Rattle.std.specs.Prelude.{◌≡◌, min, unsigned_abs, IfOk, IsOkUnless};
ghost use Rattle.sgb_vec.specs.Limits.{most_entry};
ghost use Rattle.sgb_values.specs.Values.{numbered_entry};
ghost use Rattle.sgb_ops.specs.declared.induced_graphs.entries.Entry.TheVariants as entry;

use sgb_graph::Graph;
use sgb_ops::{Entry, KeptEntry};
use sgb_vec::Panic;
use std::alloc::Global;

/// The entry of a graph.
///
/// `NoRoom` when out of memory, and nothing else.
pub(crate) fn kept_graph(alloc: Global, graph: Graph) -> Result<KeptEntry, Panic>
    ensures ok { IfOk result (λ kept. kept ≡ entry.Graph graph) }
    ensures memory { IsOkUnless result Panic.NoRoom }
{
    let boxed = Box::new(alloc, graph)?;
    Ok(KeptEntry::graph(boxed))
}

/// The entry that a number stands for, as `numbered_entry`.
pub(crate) fn kept_number(number: i64) -> KeptEntry
    ensures { result ≡ numbered_entry number }
{
    if number < 0 {
        return KeptEntry::merged(counted(number));
    }
    KeptEntry::copies(counted(number))
}

/// The entry that a number stands for (GB_BASIC, induced): so many copies, or for -k merged vertex k; a number above the
/// greatest of 32 bits counts as that one.
pub fn numbered_entry(number: i64) -> Entry
    ensures { result ≡ numbered_entry number }
{
    if number < 0 {
        return Entry::Merged(counted(number));
    }
    Entry::Copies(counted(number))
}

// The number without its sign, and at most the greatest of 32 bits.
fn counted(number: i64) -> u32
    ensures { result ≡ min (unsigned_abs number) most_entry }
{
    number.unsigned_abs().min(u64::from(u32::MAX)) as u32
}
