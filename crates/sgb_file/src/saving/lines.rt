//! The line under way.
ghost use Rattle.std.specs.Prelude.{◌≡◌, ◌+◌, ◌≤◌, ◌++◌, ◌∷◌, [], length, take, drop, OnOk};
ghost use Rattle.sgb_file.specs.Devices.{change, IsPut};
ghost use Rattle.sgb_file.specs.inner.Layouts.{checksum_from, counted_bytes};
ghost use Rattle.sgb_file.specs.Saving.{most_file_line_bytes};
ghost use Rattle.sgb_file.specs.inner.SavedLines.{broken_line_bytes};

use crate::checksums::checksum_after_line;
use crate::devices::{Failed, Sink, put_all};
use sgb_vec::Filled;

// A line has at most this many bytes.
pub(super) const MOST_LINE_BYTES: usize = 79;

// The line under way, with room for its newline.
pub(super) type Line = Filled<80>;

// Appends a piece in three parts, for which there is room.
pub(super) fn push_piece(line: &mut Line, front: &[u8], body: &[u8], back: &[u8])
    requires room { length line.old + length (front.now ++ body.now ++ back.now)
        ≤ most_file_line_bytes }
    requires front { length front.now ≤ 2 }
    requires back { length back.now ≤ 2 }
    ensures { line.new ≡ line.old ++ (front.now ++ body.now ++ back.now) }
{
    push_few(line, front);
    line.push_text(body);
    push_few(line, back);
}

// Appends at most two bytes, for which there is room.
fn push_few(line: &mut Line, bytes: &[u8])
    requires room { length line.old + length bytes.now ≤ most_file_line_bytes }
    requires few { length bytes.now ≤ 2 }
    ensures { line.new ≡ line.old ++ bytes.now }
{
    if bytes.is_empty() {
        return;
    }
    line.push_byte(bytes[0]);
    if bytes.len() == 1 {
        return;
    }
    line.push_byte(bytes[1]);
}

// Puts another byte in the place of the last one of a full line, which it returns.
pub(super) fn replace_last(line: &mut Line, byte: u8) -> u8
    requires { length line.old ≡ most_file_line_bytes }
    ensures line { line.new ≡ take broken_line_bytes line.old ++ byte ∷ [] }
    ensures last { drop broken_line_bytes line.old ≡ result ∷ [] }
{
    let last = line.bytes()[MOST_LINE_BYTES - 1];
    line.cut(MOST_LINE_BYTES - 1);
    line.push_byte(byte);
    last
}

// The checksum after this line: where it begins with a star, it does not count.
pub(super) fn checksum_after(line: &Line, sum: u32) -> u32
    ensures { result ≡ checksum_from sum (counted_bytes (line.now ∷ [])) }
{
    checksum_after_line(sum, line.bytes())
}

// Writes the line and its newline; it is then empty.
pub(super) fn put_line<W: Sink>(line: &mut Line, sink: &mut W) -> Result<(), Failed>
    requires { length line.old ≤ most_file_line_bytes }
    ensures empty { line.new ≡ [] }
    ensures put { IsPut (line.old ++ 10 ∷ []) (change W.written W.has_failed sink.old sink.new)
        result }
    ensures sound { OnOk result (W.has_failed sink.new ≡ W.has_failed sink.old) }
{
    line.push_byte(b'\n');
    let put = put_all(sink, line.bytes());
    line.cut(0);
    put
}
