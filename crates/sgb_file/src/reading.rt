//! The graph of a `.gb` file (GB_SAVE, restore_graph).
ghost use Rattle.std.specs.Prelude.{◌≡◌, ◌⊎◌, Err};
ghost use Rattle.sgb_file.specs.Refused.{HasNoOpening, IsRestoredAs};

mod closings;
mod fields;
mod heads;
mod line_records;
mod lines;
mod numbers;
mod openings;
mod plain;
mod records;
mod sections;
mod separators;
mod strings;
mod texts;

use closings::closes;
use openings::opening;
use sections::read_records;
use sgb_graph::Graph;
use sgb_vec::Panic;
use std::alloc::Global;

/// The graph of a `.gb` file (GB_SAVE, restore_graph). The file is passed over once; room is taken for what it brings, not
/// for what its first line promises.
///
/// `Early` (10) where no first line stands in the file, or a line before it does not begin with `*`; then `Syntax` (20)
/// where a record of the graph, of its vertices or of its arcs is not as it has to be; then `Late` (11) where no checksum
/// line comes next, or the checksum is neither negative nor that of the lines; then `Syntax` (20) where a chain of records
/// does not end, or an arc on a vertex's list leads to no vertex. `NoRoom` when out of memory; `Early` comes whatever
/// memory there is.
pub fn read_gb(alloc: Global, bytes: &[u8]) -> Result<Graph, Panic>
    ensures read { IsRestoredAs bytes.now result ⊎ (result ≡ Err Panic.NoRoom) }
    ensures early { HasNoOpening bytes.now → result ≡ Err Panic.Early }
{
    let Some((head, mut lines)) = opening(bytes) else {
        return Err(Panic::Early);
    };
    let parts = read_records(alloc, &head, &mut lines)?;
    if !closes(&lines) {
        return Err(Panic::Late);
    }
    parts.check()
}
