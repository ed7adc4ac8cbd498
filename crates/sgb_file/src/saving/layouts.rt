//! Pieces laid out on lines of at most 79 bytes (GB_SAVE, save_graph).
//!
//! Where a piece goes on after the 79th byte of its line, that byte goes to the next line and a `\` takes its place. A
//! piece that fits is put on the line in its three parts, and nothing else is done. Another one begins a line, and is
//! put on lines up to each break at once. A number is laid out as `itoa` writes it.
ghost use Rattle.std.specs.Prelude.{◌≡◌, ◌+◌, ◌<◌, ◌≤◌, ◌^◌, ◌++◌, ◌∷◌, [], OnOk, false, length};
ghost use Rattle.sgb_file.specs.Devices.{IsPut, change};
ghost use Rattle.sgb_file.specs.inner.Layouts.{IsFilled, IsLaid, IsPlaced, lines_before, stage};
ghost use Rattle.sgb_file.specs.Saving.{most_file_line_bytes};
ghost use Rattle.sgb_file.specs.inner.SavedLines.{fits_on};

use super::lines::{Line, MOST_LINE_BYTES, checksum_after, push_piece, put_line, replace_last};
use super::short_lines::ShortLines;
use crate::devices::{Failed, Sink, put_all};
use itoa::{Buffer, Integer};
use std::marker::Model;

// A layout under way: the checksum of the lines so far, and the beginning of the next line.
#[derive(Drop)]
pub(super) struct Layout {
    checksum: u32,
    line: Line,
}

impl Model for Layout {
    ghost use Rattle.std.specs.Prelude.{◌≤◌, length};
    ghost use Rattle.sgb_file.specs.inner.Layouts.{LayoutState};
    ghost use Rattle.sgb_file.specs.Saving.{most_file_line_bytes};

    ghost Value = { LayoutState };

    ghost view = { λ layout. record { checksum = layout.checksum; line = layout.line } };

    ghost invariant = { λ layout. length layout.line ≤ most_file_line_bytes };
}

impl Layout {
    // No lines yet.
    pub(super) fn new() -> Layout
        ensures checksum { result.checksum ≡ 0 }
        ensures line { result.line ≡ [] }
    {
        Layout {
            checksum: 0,
            line: Line::new(),
        }
    }

    // The checksum of the lines so far.
    pub(super) fn checksum(&self) -> u32
        ensures { result ≡ self.now.checksum }
    {
        self.checksum
    }

    // Writes lines that were put together.
    pub(super) fn put_lines<W: Sink>(
        &mut self,
        sink: &mut W,
        lines: &ShortLines,
    ) -> Result<(), Failed>
        requires { lines.now.value < 2 ^ 32 }
        ensures put { IsPut lines.now.text (change W.written W.has_failed sink.old sink.new)
            result }
        ensures sound { OnOk result (W.has_failed sink.new ≡ W.has_failed sink.old) }
        ensures layout { self.new ≡ record self.old { checksum = lines.now.value } }
    {
        self.checksum = lines.checksum();
        put_all(sink, lines.bytes())
    }

    // Ends the line.
    pub(super) fn end_line<W: Sink>(&mut self, sink: &mut W) -> Result<(), Failed>
        ensures { IsLaid (self.old.line ∷ []) []
            (stage W.written W.has_failed sink.old self.old)
            (stage W.written W.has_failed sink.new self.new) result }
    {
        self.checksum = checksum_after(&self.line, self.checksum);
        put_line(&mut self.line, sink)
    }

    // Lays out a piece in three parts. Most pieces fit on the line.
    #[inline(always)]
    pub(super) fn place<W: Sink>(
        &mut self,
        sink: &mut W,
        front: &[u8],
        body: &[u8],
        back: &[u8],
    ) -> Result<(), Failed>
        requires front { length front.now ≤ 1 }
        requires back { length back.now ≤ 2 }
        ensures { IsPlaced (front.now ++ body.now ++ back.now)
            (stage W.written W.has_failed sink.old self.old)
            (stage W.written W.has_failed sink.new self.new) result }
    {
        if self.has_room(front, body, back) {
            push_piece(&mut self.line, front, body, back);
            return Ok(());
        }
        self.place_anew(sink, front, body, back)
    }

    // Lays out a number between two short texts.
    pub(super) fn place_number<W: Sink, I: Integer>(
        &mut self,
        sink: &mut W,
        front: &[u8],
        number: I,
        back: &[u8],
    ) -> Result<(), Failed>
        requires front { length front.now ≤ 1 }
        requires back { length back.now ≤ 2 }
        ensures { IsPlaced (front.now ++ I.text number ++ back.now)
            (stage W.written W.has_failed sink.old self.old)
            (stage W.written W.has_failed sink.new self.new) result }
    {
        let mut digits = Buffer::new();
        self.place(sink, front, digits.format(number).as_bytes(), back)
    }

    // Lays out a piece in three parts that does not fit on the line.
    #[inline(never)]
    fn place_anew<W: Sink>(
        &mut self,
        sink: &mut W,
        front: &[u8],
        body: &[u8],
        back: &[u8],
    ) -> Result<(), Failed>
        requires { fits_on self.old.line (front.now ++ body.now ++ back.now) ≡ false }
        ensures { IsPlaced (front.now ++ body.now ++ back.now)
            (stage W.written W.has_failed sink.old self.old)
            (stage W.written W.has_failed sink.new self.new) result }
    {
        self.make_room(sink)?;
        self.fill_all(sink, front, body, back)
    }

    // Whether the line has room for a piece in three parts.
    fn has_room(&self, front: &[u8], body: &[u8], back: &[u8]) -> bool
        requires front { length front.now ≤ 1 }
        requires back { length back.now ≤ 2 }
        ensures { result ≡ fits_on self.now.line (front.now ++ body.now ++ back.now) }
    {
        let len = self.line.len();
        body.len() <= MOST_LINE_BYTES
            && len + front.len() + body.len() + back.len() <= MOST_LINE_BYTES
    }

    // Ends a line that was begun.
    fn make_room<W: Sink>(&mut self, sink: &mut W) -> Result<(), Failed>
        ensures { IsLaid (lines_before self.old.line) []
            (stage W.written W.has_failed sink.old self.old)
            (stage W.written W.has_failed sink.new self.new) result }
    {
        if self.line.len() == 0 {
            return Ok(());
        }
        self.end_line(sink)
    }

    // Puts three texts on lines, one after the other.
    fn fill_all<W: Sink>(
        &mut self,
        sink: &mut W,
        front: &[u8],
        body: &[u8],
        back: &[u8],
    ) -> Result<(), Failed>
        ensures { IsFilled (front.now ++ body.now ++ back.now)
            (stage W.written W.has_failed sink.old self.old)
            (stage W.written W.has_failed sink.new self.new) result }
    {
        self.fill(sink, front)?;
        self.fill(sink, body)?;
        self.fill(sink, back)
    }

    // Puts bytes on the line, and breaks it as often as they need.
    fn fill<W: Sink>(&mut self, sink: &mut W, bytes: &[u8]) -> Result<(), Failed>
        ensures { IsFilled bytes.now (stage W.written W.has_failed sink.old self.old)
            (stage W.written W.has_failed sink.new self.new) result }
    {
        prove!(self.line.len() <= MOST_LINE_BYTES);
        let mut rest = bytes;
        while rest.len() > self.room() {
            let (first, others) = rest.split_at(self.room() + 1);
            self.fill_up(sink, first)?;
            rest = others;
        }
        self.line.push_text(rest);
        Ok(())
    }

    // How many bytes more the line may have.
    fn room(&self) -> usize
        ensures { length self.now.line + result ≡ most_file_line_bytes }
    {
        MOST_LINE_BYTES - self.line.len()
    }

    // Fills the line up with all of these bytes but the last, which breaks it.
    fn fill_up<W: Sink>(&mut self, sink: &mut W, bytes: &[u8]) -> Result<(), Failed>
        requires { length self.old.line + length bytes.now ≡ most_file_line_bytes + 1 }
        ensures { IsFilled bytes.now (stage W.written W.has_failed sink.old self.old)
            (stage W.written W.has_failed sink.new self.new) result }
    {
        let room = self.room();
        self.line.push_text(&bytes[..room]);
        self.fill_byte(sink, bytes[room])
    }

    // Puts a byte on the line, and breaks the line where it is full.
    fn fill_byte<W: Sink>(&mut self, sink: &mut W, byte: u8) -> Result<(), Failed>
        ensures { IsFilled (byte ∷ []) (stage W.written W.has_failed sink.old self.old)
            (stage W.written W.has_failed sink.new self.new) result }
    {
        if self.line.len() < MOST_LINE_BYTES {
            self.line.push_byte(byte);
            return Ok(());
        }
        let last = replace_last(&mut self.line, b'\\');
        self.end_line(sink)?;
        self.line.push_text(&[last, byte]);
        Ok(())
    }
}
