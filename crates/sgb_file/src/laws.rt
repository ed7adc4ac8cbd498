ghost use Rattle.std.specs.Prelude.{ℕ, List, ◌↔◌, ◌≡◌, ◌<◌, ◌≤◌, ◌++◌, All, Result, length};
ghost use Rattle.sgb_vec.specs.declared.panics.Panic.{Panic};
ghost use Rattle.sgb_graph.specs.Graphs.{GraphData};
ghost use Rattle.sgb_file.specs.Checksum.{IsOrder, checksum, running_checksum};
ghost use Rattle.sgb_file.specs.FileLines.{text_of_lines};
ghost use Rattle.sgb_file.specs.Files.{AreRecordsOf, IsFileOf, IsFirstLine};
ghost use Rattle.sgb_file.specs.Refused.{IsRestoredAs};
ghost use Rattle.sgb_file.specs.Saved.{CanBeChecked, CanBeSaved};
ghost use Rattle.sgb_file.specs.Saving.{breaks_of, most_file_line_bytes, part_from_break, record_lines, text_of_graph};

mod saved_graphs;

pub use saved_graphs::graphs_can_be_saved;

/// The order of bytes in the checksum is a bijection on the 96 characters of a file (GB_IO, imap_chr):
/// each has a place below 96, and each place has one character.
pub fn checksum_order_law()
    ensures { IsOrder }
{}

/// The checksum can be made byte by byte: doubled, the next byte's place added, modulo 1,073,741,741
/// (GB_IO, new_checksum).
pub fn running_checksum_law()
    ensures { (bytes : List ℕ) → running_checksum bytes ≡ checksum bytes }
{}

/// Each text is read as one thing, and as one only: a graph that it is a file of, or a code (GB_SAVE, restore_graph).
pub fn read_once_law()
    ensures { (text : List ℕ) → (read : Result GraphData Panic) × IsRestoredAs text read
        × ((other : Result GraphData Panic) → IsRestoredAs text other → other ≡ read) }
{}

/// What the records of a file say, after a first line, fits its kinds and is within all limits; what may be
/// wrong with it is only that its lists are not sound (GB_SAVE, restore_graph). So what is read can be saved.
pub fn file_parts_law()
    ensures parts { (line : List ℕ) (g : GraphData) (records : List (List ℕ))
        → IsFirstLine g.kinds (length g.vertices) (length g.records) line
        → AreRecordsOf g (text_of_lines records) → CanBeChecked g }
    ensures saved { (g : GraphData) (text : List ℕ) → IsFileOf g text → CanBeSaved g }
{}

/// The lines of a record have at most 79 bytes each, and a piece is broken where more than that are left of
/// it, and not further (GB_SAVE, save_graph).
pub fn line_bytes_law()
    ensures lines { (texts : List (List ℕ))
        → All (λ line. length line ≤ most_file_line_bytes) (record_lines texts) }
    ensures broken { (piece : List ℕ) (k : ℕ) → (k < breaks_of piece)
        ↔ (most_file_line_bytes < length (part_from_break piece k)) }
{}

/// What is written is a file of the graph, whatever follows it, and so is read again as the same one (GB_SAVE, save_graph
/// and restore_graph).
pub fn written_is_read_law()
    ensures { (g : GraphData) (more : List ℕ) → CanBeSaved g
        → IsFileOf g (text_of_graph g ++ more) }
{}
