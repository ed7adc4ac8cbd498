//! Ids of results, made from the ids of operands (GB_GRAPH, make_compound_id and make_double_compound_id).
ghost use Rattle.std.specs.Prelude.{◌≡◌, ◌≤◌, ◌+◌, ◌++◌, length, if◌then◌else◌, IsTrue};
ghost use Rattle.sgb_graph.specs.IdTexts.{is_id_text};
ghost use Rattle.sgb_graph.specs.Ids.{most_id_bytes, cut_id, compound_id, double_compound_id};

use super::{Id, IdWriter, MOST_BYTES};

/// The id of a result with one operand: `s1`, the operand's id, `s2` (GB_GRAPH, make_compound_id).
///
/// Where they do not fit into an id, only a prefix of the operand's id stands there, with `...)` after it. The texts
/// have at most 151 bytes together, all of which an id may have.
#[tactic(auto, unfolding(crate::specs::Ids::compound_id))]
pub fn compound_id(s1: &[u8], id: &Id, s2: &[u8]) -> Id
    requires room { length s1.now + length s2.now ≤ 151 }
    requires before { IsTrue (is_id_text s1.now) }
    requires after { IsTrue (is_id_text s2.now) }
    ensures { result ≡ compound_id s1.now id.now s2.now }
{
    // What the texts leave of a field of 161 bytes, of which the last is the zero after the id.
    let available = MOST_BYTES + 1 - (s1.len() + s2.len());
    let fits = id.bytes().len() < available;
    let mut writer = IdWriter::new();
    writer.push_text(s1);
    push_operand(&mut writer, id, fits, available - 5);
    writer.push_text(s2);
    writer.id()
}

/// The id of a result with two operands: `s1`, the first one's id, `s2`, the second one's id, `s3` (GB_GRAPH,
/// make_double_compound_id).
///
/// Where they do not fit into an id, only a prefix of each operand's id stands there, with `...)` after it. The texts
/// have at most 151 bytes together, all of which an id may have.
#[tactic(auto, unfolding(crate::specs::Ids::double_compound_id))]
pub fn double_compound_id(s1: &[u8], id1: &Id, s2: &[u8], id2: &Id, s3: &[u8]) -> Id
    requires room { length s1.now + length s2.now + length s3.now ≤ 151 }
    requires before { IsTrue (is_id_text s1.now) }
    requires between { IsTrue (is_id_text s2.now) }
    requires after { IsTrue (is_id_text s3.now) }
    ensures { result ≡ double_compound_id s1.now id1.now s2.now id2.now s3.now }
{
    // What the texts leave of a field of 161 bytes, of which the last is the zero after the id.
    let available = MOST_BYTES + 1 - (s1.len() + s2.len() + s3.len());
    let fits = id1.bytes().len() + id2.bytes().len() < available;
    let mut writer = IdWriter::new();
    writer.push_text(s1);
    push_operand(&mut writer, id1, fits, available / 2 - 5);
    writer.push_text(s2);
    push_operand(&mut writer, id2, fits, (available - 9) / 2);
    writer.push_text(s3);
    writer.id()
}

// Appends an operand's id: where it does not fit, its first `kept` bytes and `...)`.
fn push_operand(writer: &mut IdWriter, id: &Id, fits: bool, kept: usize)
    requires { length writer.old + length
        (if fits then id.now else cut_id kept id.now) ≤ most_id_bytes }
    ensures { writer.new ≡ writer.old ++ (if fits then id.now else cut_id kept id.now) }
{
    let bytes = id.bytes();
    if fits {
        writer.push_text(bytes);
        return;
    }
    writer.push_text(&bytes[..kept.min(bytes.len())]);
    writer.push_text(b"...)");
}
