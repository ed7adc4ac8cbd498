//! Devices, where bytes come from and go to, and the `.gb` files of GB_SAVE: their texts, what graph a text
//! stands for, and the text of a graph.
#![tactic(auto)]

// The checksum of lines.
mod checksums;
// Sources and sinks.
mod devices;
// What holds of all texts and graphs.
mod laws;
// Reads a file.
mod reading;
// Writes a file.
mod saving;
// Where a byte stands first.
mod scans;

pub use devices::{
    Buffered, CutSink, CutSource, Failed, FromRead, MemSink, MemSource, Sink, Source, ToWrite,
    put_all,
};
pub use laws::{
    checksum_order_law, file_parts_law, graphs_can_be_saved, line_bytes_law, read_once_law,
    running_checksum_law, written_is_read_law,
};
pub use reading::read_gb;
pub use saving::write_gb;
