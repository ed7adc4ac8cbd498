//! The text of a graph as a `.gb` file, written to a sink (GB_SAVE, save_graph).
ghost use Rattle.std.specs.Prelude.{◌≡◌, [], true, length, map, OnOk};
ghost use Rattle.std.specs.List.{flat_map};
ghost use Rattle.sgb_graph.specs.Kinds.{letter_of};
ghost use Rattle.sgb_file.specs.Devices.{change, IsPut};
ghost use Rattle.sgb_file.specs.inner.Layouts.{IsLaid, checksum_text, head_text, stage};
ghost use Rattle.sgb_file.specs.Saving.{middle_lines, text_of_graph};

mod fields;
mod layouts;
mod lines;
mod records;
mod sections;
mod short_arcs;
mod short_lines;
mod short_vertices;

use crate::devices::{Failed, Sink, put_all};
use itoa::Buffer;
use layouts::Layout;
pub(crate) use records::graph_fields;
use records::put_graph;
use sections::put_section;
use sgb_graph::{Graph, Kind};
use short_arcs::Arcs;
use short_vertices::Vertices;

/// Writes a graph as a `.gb` file (GB_SAVE, save_graph). It takes no memory.
///
/// `Failed` where a `put` failed: the sink then has a prefix of the file, and has failed.
pub fn write_gb<W: Sink>(graph: &Graph, sink: &mut W) -> Result<(), Failed>
    ensures put { IsPut (text_of_graph graph.now) (change W.written W.has_failed sink.old sink.new)
        result }
    ensures sound { OnOk result (W.has_failed sink.new ≡ W.has_failed sink.old) }
    ensures stays_failed { W.has_failed sink.old ≡ true → W.has_failed sink.new ≡ true }
{
    let n = graph.n();
    let kinds = graph.kinds();
    put_head(sink, &kinds, n, graph.records_len())?;
    let mut layout = Layout::new();
    put_records(&mut layout, sink, graph)?;
    put_checksum(sink, layout.checksum())
}

// Writes the first line: the letters of the kinds, and how many vertices and arc records there are.
fn put_head<W: Sink>(sink: &mut W, kinds: &[Kind; 14], n: u32, records: usize) -> Result<(), Failed>
    ensures kinds { length kinds.now ≡ 14 }
    ensures put { IsPut (head_text (map letter_of kinds.now) n records)
        (change W.written W.has_failed sink.old sink.new) result }
    ensures sound { OnOk result (W.has_failed sink.new ≡ W.has_failed sink.old) }
{
    let mut vertices = Buffer::new();
    let mut arcs = Buffer::new();
    put_texts(
        sink,
        &[
            b"* GraphBase graph (util_types ",
            &letters(kinds),
            b",",
            vertices.format(n).as_bytes(),
            b"V,",
            arcs.format(records).as_bytes(),
            b"A)\n",
        ],
    )
}

// The letters of kinds.
fn letters(kinds: &[Kind; 14]) -> [u8; 14]
    ensures { result ≡ map letter_of kinds.now }
{
    let mut letters = [b'Z'; 14];
    for place in 0..14 {
        letters[place] = kinds[place].letter();
    }
    letters
}

// Writes the records, of the graph, of its vertices and of its arcs.
fn put_records<W: Sink>(layout: &mut Layout, sink: &mut W, graph: &Graph) -> Result<(), Failed>
    requires fields { length graph.now.util ≡ 6 }
    requires line { layout.old.line ≡ [] }
    ensures { IsLaid (middle_lines graph.now) []
        (stage W.written W.has_failed sink.old layout.old)
        (stage W.written W.has_failed sink.new layout.new) result }
{
    put_graph(layout, sink, graph)?;
    put_section::<Vertices, W>(layout, sink, graph)?;
    put_section::<Arcs, W>(layout, sink, graph)
}

// Writes the last line.
fn put_checksum<W: Sink>(sink: &mut W, checksum: u32) -> Result<(), Failed>
    ensures put { IsPut (checksum_text checksum) (change W.written W.has_failed sink.old sink.new)
        result }
    ensures sound { OnOk result (W.has_failed sink.new ≡ W.has_failed sink.old) }
{
    let mut digits = Buffer::new();
    put_texts(
        sink,
        &[b"* Checksum ", digits.format(checksum).as_bytes(), b"\n"],
    )
}

// Puts texts, one after the other.
fn put_texts<W: Sink>(sink: &mut W, texts: &[&[u8]]) -> Result<(), Failed>
    ensures put { IsPut (flat_map (λ text. text.now) texts.now)
        (change W.written W.has_failed sink.old sink.new) result }
    ensures sound { OnOk result (W.has_failed sink.new ≡ W.has_failed sink.old) }
{
    for text in texts {
        put_all(sink, text)?;
    }
    Ok(())
}
