//! What stands between the fields of a record, and at its end (GB_SAVE, fill_field, finish_record).
ghost use Rattle.std.specs.Prelude.{◌≡◌, ◌≢◌, ◌∷◌, [], codes, is_some, unwrap_or};
ghost use Rattle.sgb_text.proofs.Findings.{after_prefix};
ghost use Rattle.sgb_file.specs.inner.Found.{IsPassedBy};
ghost use Rattle.sgb_file.specs.inner.LinesLeft.{text_left};
ghost use Rattle.sgb_file.specs.inner.ReadRecords.{after_comma};

use super::lines::Lines;
use sgb_vec::Panic;

// Passes over this byte, which has to stand next.
pub(super) fn pass_byte(lines: &mut Lines<'_>, byte: u8) -> Result<(), Panic>
    requires { byte ≢ 10 }
    ensures passed { IsPassedBy (after_prefix (byte ∷ []) (text_left lines.old)) result
        (text_left lines.new) }
    ensures all { lines.new.all ≡ lines.old.all }
{
    let Some(line) = lines.line() else {
        return Err(Panic::Syntax);
    };
    if line.is_empty() || line[0] != byte {
        return Err(Panic::Syntax);
    }
    lines.skip(1);
    Ok(())
}

// Passes over a comma, and to the next line where it ends its line.
pub(super) fn pass_comma(lines: &mut Lines<'_>) -> Result<(), Panic>
    ensures passed { IsPassedBy (after_comma (text_left lines.old)) result (text_left lines.new) }
    ensures all { lines.new.all ≡ lines.old.all }
{
    pass_byte(lines, b',')?;
    let _ended = pass_line_end(lines);
    Ok(())
}

// Ends a record: with it ends its line.
pub(super) fn end_record(lines: &mut Lines<'_>) -> Result<(), Panic>
    ensures passed { IsPassedBy (after_prefix (codes "\n") (text_left lines.old)) result
        (text_left lines.new) }
    ensures all { lines.new.all ≡ lines.old.all }
{
    if !pass_line_end(lines) {
        return Err(Panic::Syntax);
    }
    Ok(())
}

// Passes to the next line if nothing is left of this one, and returns whether it did.
fn pass_line_end(lines: &mut Lines<'_>) -> bool
    ensures value { result ≡ is_some (after_prefix (codes "\n") (text_left lines.old)) }
    ensures passed { text_left lines.new
        ≡ unwrap_or (after_prefix (codes "\n") (text_left lines.old)) (text_left lines.old) }
    ensures all { lines.new.all ≡ lines.old.all }
{
    let Some(line) = lines.line() else {
        return false;
    };
    if !line.is_empty() {
        return false;
    }
    lines.next_line();
    true
}
