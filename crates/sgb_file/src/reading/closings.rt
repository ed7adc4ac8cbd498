//! The line that closes a file, with the checksum of the lines before it (GB_SAVE, restore_graph).
ghost use Rattle.std.specs.Prelude.{◌≡◌, ◌∷◌, [], ℕ, List};
ghost use Rattle.sgb_file.specs.Checksum.{checksum_of_lines};
ghost use Rattle.sgb_file.specs.inner.LinesLeft.{text_left};
ghost use Rattle.sgb_file.specs.inner.Heads.{Head as FileHead};
ghost use Rattle.sgb_file.specs.inner.ReadFiles.{checksum_in_line, closes, line_closes};

use super::lines::Lines;
use super::texts::{after_prefix, leading_number};
use sgb_text::agrees;

// Whether the line under way closes the file: it is a checksum line, which is negative or agrees with the lines after the
// first one and before it.
pub(super) fn closes(lines: &Lines<'_>) -> bool
    ensures { (head : FileHead) → result
        ≡ closes (record { head = head; lines = lines.now.all }) (text_left lines.now) }
{
    let Some(line) = lines.line() else {
        return false;
    };
    line_closes(line, lines.checksum())
}

// Whether the line is a checksum line that is negative or has this checksum.
fn line_closes(line: &[u8], sum: u32) -> bool
    ensures { (lines : List (List ℕ)) → sum ≡ checksum_of_lines lines → result
        ≡ line_closes lines (line.now ∷ []) }
{
    match checksum_in_line(line) {
        Some(checksum) => agrees(checksum, sum),
        None => false,
    }
}

// The number c of a line `* Checksum c`, followed by anything.
fn checksum_in_line(line: &[u8]) -> Option<i64>
    ensures { result ≡ checksum_in_line line.now }
{
    let text = after_prefix(b"* Checksum ", line)?;
    match text.strip_prefix(b"-") {
        Some(digits) => {
            let (checksum, _anything) = leading_number(digits)?;
            Some(-(checksum as i64))
        }
        None => {
            let (checksum, _anything) = leading_number(text)?;
            Some(checksum as i64)
        }
    }
}
