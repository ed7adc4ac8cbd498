//! What is left of the lines of a file while they are read (GB_IO).
//!
//! The line under way is a slice of the file, so nothing is copied but names, ids and strings. Whether it is whole its
//! length tells. No clause says when `whole_line` has one: a body that never had would read the same graph.
ghost use Rattle.std.specs.Prelude.{◌≡◌, ◌≢◌, ◌≤◌, [], ◌∷◌, List, ℕ, Some, None, IfSome, length, IsTrue, option_map};
ghost use Rattle.sgb_file.specs.Checksum.{checksum_of_lines};
ghost use Rattle.sgb_file.specs.FileLines.{clean_lines, without_end_spaces};
ghost use Rattle.sgb_file.specs.inner.LinesLeft.{lines_of_text, HasPassed, IsWhole, has_no_newline, lines_left, lines_passed, lines_still, next_begun, none_begun, skipped, text_left};
ghost use Rattle.sgb_file.specs.inner.Layouts.{checksum_from, counted_bytes};

use crate::checksums::checksum_after_line;
use crate::scans::bytes_before;
use std::marker::Model;

// The lines after the first one of a file, from the line under way on. They are passed over once, with the checksum of the
// lines before it. Spaces at the end of a line are left out.
#[derive(Drop)]
pub(super) struct Lines<'a> {
    all: &'a [u8],
    line: Option<&'a [u8]>,
    begun: &'a [u8],
    rest: &'a [u8],
    sum: u32,
}

impl<'a> Model for Lines<'a> {
    ghost use Rattle.std.specs.Prelude.{option_map};
    ghost use Rattle.sgb_file.specs.inner.LinesLeft.{LinesLeft, AreLinesLeft, lines_left};

    ghost Value = { LinesLeft };

    ghost view = { λ s. lines_left s.all.now (option_map (λ line. line.now) s.line) s.rest.now };

    ghost invariant = { λ s. AreLinesLeft s.all.now (option_map (λ line. line.now) s.line)
        s.begun.now s.rest.now s.sum };
}

impl<'a> Lines<'a> {
    // The lines of these bytes. The first one is under way.
    pub(super) fn new(bytes: &'a [u8]) -> Lines<'a>
        ensures { result ≡ next_begun (none_begun (clean_lines bytes.now)) }
    {
        Lines::begin(bytes, bytes, 0)
    }

    // The lines of which these bytes are left, with no line under way: the next one is begun.
    fn begin(all: &'a [u8], bytes: &'a [u8], sum: u32) -> Lines<'a>
        requires { HasPassed (clean_lines all.now) (clean_lines bytes.now) sum }
        ensures { result ≡ next_begun (lines_left all.now None bytes.now) }
    {
        if bytes.is_empty() {
            return Lines {
                all,
                line: None,
                begun: bytes,
                rest: bytes,
                sum,
            };
        }
        let (line, rest) = first_line(bytes);
        Lines {
            all,
            line: Some(line),
            begun: line,
            rest,
            sum,
        }
    }

    // What is left of the line under way; none at the end of the file.
    pub(super) fn line(&self) -> Option<&'a [u8]>
        ensures left { option_map (λ line. line.now) result ≡ self.now.line }
        ensures one { IfSome result (λ line. IsTrue (has_no_newline line.now)) }
        ensures lines { lines_of_text (text_left self.now) ≡ lines_still self.now }
    {
        self.line
    }

    // The line under way where nothing of it was passed over yet; else none.
    #[inline(always)]
    pub(super) fn whole_line(&self) -> Option<&'a [u8]>
        ensures whole { IfSome result (λ line. IsWhole self.now line.now) }
        ensures one { IfSome result (λ line. IsTrue (has_no_newline line.now)) }
    {
        let line = self.line()?;
        if line.len() < self.begun.len() {
            return None;
        }
        Some(line)
    }

    // Passes over bytes of the line under way. There have to be so many.
    pub(super) fn skip(&mut self, count: usize)
        requires { (line : List ℕ) × (self.old.line ≡ Some line) × (count ≤ length line) }
        ensures { self.new ≡ skipped count self.old }
    {
        if let Some(line) = self.line {
            self.line = Some(&line[count..]);
        }
    }

    // Ends the line under way, also where something is left of it, and begins the next one.
    pub(super) fn next_line(&mut self)
        requires { (line : List ℕ) × (self.old.line ≡ Some line) }
        ensures { self.new ≡ next_begun self.old }
    {
        let sum = checksum_after_line(self.sum, self.begun);
        *self = Lines::begin(self.all, self.rest, sum);
    }

    // Ends the line under way, of which nothing was passed over yet, and begins the next one; this is the checksum after
    // that line.
    #[inline(always)]
    pub(super) fn next_line_with(&mut self, sum: u32)
        requires { (line : List ℕ) × IsWhole self.old line
            × (sum ≡ checksum_from (checksum_of_lines (lines_passed self.old))
            (counted_bytes (line ∷ []))) }
        ensures { self.new ≡ next_begun self.old }
    {
        *self = Lines::begin(self.all, self.rest, sum);
    }

    // The checksum of the lines before the one under way.
    pub(super) fn checksum(&self) -> u32
        requires { (line : List ℕ) × (self.now.line ≡ Some line) }
        ensures { result ≡ checksum_of_lines (lines_passed self.now) }
    {
        self.sum
    }
}

// The first line of these bytes, without the spaces at its end, and the bytes after it.
pub(super) fn first_line(bytes: &[u8]) -> (&[u8], &[u8])
    requires { length bytes.now ≢ 0 }
    ensures { clean_lines bytes.now ≡ result.0.now ∷ clean_lines result.1.now }
{
    let end = bytes_before(bytes, b'\n');
    if end == bytes.len() {
        return (without_end_spaces(bytes), &bytes[end..]);
    }
    (without_end_spaces(&bytes[..end]), &bytes[end + 1..])
}

// A line without the spaces at its end.
fn without_end_spaces<'a>(mut line: &'a [u8]) -> &'a [u8]
    ensures { result.now ≡ without_end_spaces line.now }
{
    while !line.is_empty() && line[line.len() - 1] == b' ' {
        line = &line[..line.len() - 1];
    }
    line
}
