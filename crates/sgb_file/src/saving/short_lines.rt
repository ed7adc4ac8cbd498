//! Short lines, put together one after another with the checksum after them.
//!
//! Four kilobytes of them leave in one put, some 250 lines. A digit's place in the checksum is its value, so a digit
//! takes no look into the table. What is called short no clause says: a body that never did so would lay out the same
//! bytes, in more time.
ghost use Rattle.std.specs.Prelude.{◌≡◌, ◌+◌, ◌/◌, ◌%◌, ◌^◌, ◌<◌, ◌≤◌, ◌∷◌, [], Some, IfSome, decimal, length};
ghost use Rattle.std.specs.Bool.{OnTrue};
ghost use Rattle.sgb_file.specs.Checksum.{checksum_prime};
ghost use Rattle.sgb_file.specs.Saving.{quoted, record_lines, record_number_text};
ghost use Rattle.sgb_file.specs.inner.Layouts.{HasLaid, place_of};
ghost use Rattle.sgb_file.specs.inner.ShortLines.{AreShort, AreShortFields, field_texts_of, line_of, name_piece, put_after, short_stage, short_texts};
// For the search alone.
ghost use Rattle.std.specs.Prelude.{◌*◌};

use crate::checksums::{place_of, remainder, value_with};
use sgb_vec::Filled;
use std::marker::Model;

// So many bytes of lines are put together.
const MOST_BYTES: usize = 4_096;

// A line that is put together and its newline have at most this many.
const MOST_LINE_BYTES: usize = 60;

// Lines put together in place, and a value: the checksum after them is its remainder.
#[derive(Drop)]
pub(super) struct ShortLines {
    lines: Filled<MOST_BYTES>,
    value: u64,
}

impl Model for ShortLines {
    ghost use Rattle.sgb_file.specs.inner.ShortLines.{ShortText};

    ghost Value = { ShortText };

    ghost view = { λ lines. record { text = lines.lines; value = lines.value } };
}

impl ShortLines {
    // No lines yet.
    pub(super) fn new() -> ShortLines
        ensures { result.text ≡ [] }
    {
        ShortLines {
            lines: Filled::new(),
            value: 0,
        }
    }

    // Drops all lines. Those that come are after others with this checksum.
    pub(super) fn begin(&mut self, checksum: u32)
        ensures { self.new ≡ record { text = []; value = checksum } }
    {
        self.lines.cut(0);
        self.value = u64::from(checksum);
    }

    // Whether there is room for a line more.
    pub(super) fn has_room(&self) -> bool
        ensures { OnTrue result (length self.now.text + 60 ≤ 4096) }
    {
        self.lines.len() <= MOST_BYTES - MOST_LINE_BYTES
    }

    // The bytes of the lines.
    pub(super) fn bytes(&self) -> &[u8]
        ensures { result.now ≡ self.now.text }
    {
        self.lines.bytes()
    }

    // The checksum after the lines, where none is under way.
    pub(super) fn checksum(&self) -> u32
        requires { self.now.value < 2 ^ 32 }
        ensures { result ≡ self.now.value }
    {
        self.value as u32
    }

    // Puts the line of an arc record.
    #[inline(always)]
    pub(super) fn put_arc(&mut self, tip: u32, next: Option<u32>, len: u32)
        requires short { AreShort tip next len }
        requires room { length self.old.text + 30 ≤ 4096 }
        requires value { self.old.value < 2 ^ 32 }
        ensures laid { HasLaid (record_lines (short_texts tip next len)) (short_stage self.old)
            (short_stage self.new) }
        ensures value { self.new.value < 2 ^ 32 }
    {
        self.push_arc(tip, next, len);
        self.end_line();
    }

    // Appends what stands on the line of an arc record.
    #[inline(always)]
    fn push_arc(&mut self, tip: u32, next: Option<u32>, len: u32)
        requires short { AreShort tip next len }
        requires room { length self.old.text + 29 ≤ 4096 }
        ensures put { self.new ≡ put_after self.old (line_of (short_texts tip next len)) }
        ensures short { length self.new.text ≤ length self.old.text + 24 }
    {
        self.push_byte(b'V');
        self.push_number(tip);
        self.push_byte(b',');
        self.push_next(next);
        self.push_byte(b',');
        self.push_four(len);
    }

    // Puts the line of a vertex.
    #[inline(always)]
    pub(super) fn put_vertex(&mut self, name: &[u8], first: Option<u32>, x: u32, y: u32, z: u32)
        requires name { length name.now ≤ 28 }
        requires short { AreShortFields first x y z }
        requires room { length self.old.text + 60 ≤ 4096 }
        requires value { self.old.value < 2 ^ 32 }
        ensures laid { HasLaid (record_lines (quoted name.now ∷ field_texts_of first x y z))
            (short_stage self.old) (short_stage self.new) }
        ensures value { self.new.value < 2 ^ 32 }
    {
        self.push_name(name);
        self.settle();
        self.push_fields(first, x, y, z);
        self.end_line();
    }

    // Puts the line of a vertex without integers.
    #[inline(always)]
    pub(super) fn put_bare_vertex(&mut self, name: &[u8], first: Option<u32>)
        requires name { length name.now ≤ 28 }
        requires few { IfSome first (λ k. k < 100_000_000) }
        requires room { length self.old.text + 60 ≤ 4096 }
        requires value { self.old.value < 2 ^ 32 }
        ensures laid { HasLaid (record_lines (quoted name.now ∷ record_number_text first ∷ []))
            (short_stage self.old) (short_stage self.new) }
        ensures value { self.new.value < 2 ^ 32 }
    {
        self.push_name(name);
        self.settle();
        self.push_next(first);
        self.end_line();
    }

    // Appends the name of a vertex.
    #[inline(always)]
    fn push_name(&mut self, name: &[u8])
        requires name { length name.now ≤ 28 }
        requires room { length self.old.text + 31 ≤ 4096 }
        ensures put { self.new ≡ put_after self.old (name_piece name.now) }
        ensures len { length self.new.text ≡ length self.old.text + (length name.now + 3) }
    {
        self.push_byte(b'"');
        self.push_bytes(name);
        self.push_byte(b'"');
        self.push_byte(b',');
    }

    // Appends the fields of a vertex after its name.
    #[inline(always)]
    fn push_fields(&mut self, first: Option<u32>, x: u32, y: u32, z: u32)
        requires short { AreShortFields first x y z }
        requires room { length self.old.text + 24 ≤ 4096 }
        ensures put { self.new ≡ put_after self.old (line_of (field_texts_of first x y z)) }
        ensures short { length self.new.text ≤ length self.old.text + 24 }
    {
        self.push_next(first);
        self.push_byte(b',');
        self.push_four(x);
        self.push_byte(b',');
        self.push_four(y);
        self.push_byte(b',');
        self.push_four(z);
    }

    // Appends bytes.
    #[inline(always)]
    fn push_bytes(&mut self, bytes: &[u8])
        requires { length self.old.text + length bytes.now ≤ 4096 }
        ensures put { self.new ≡ put_after self.old bytes.now }
        ensures len { length self.new.text ≡ length self.old.text + length bytes.now }
    {
        for byte in bytes {
            self.push_byte(*byte);
        }
    }

    // Appends the number of the next record, if there is one.
    #[inline(always)]
    fn push_next(&mut self, next: Option<u32>)
        requires few { IfSome next (λ k. k < 100_000_000) }
        requires room { length self.old.text + 9 ≤ 4096 }
        ensures put { self.new ≡ put_after self.old (record_number_text next) }
        ensures short { length self.new.text ≤ length self.old.text + 9 }
    {
        match next {
            None => self.push_digit(0),
            Some(number) => self.push_record(number),
        }
    }

    // Appends the number of a record.
    #[inline(always)]
    fn push_record(&mut self, number: u32)
        requires few { number < 100_000_000 }
        requires room { length self.old.text + 9 ≤ 4096 }
        ensures put { self.new ≡ put_after self.old (record_number_text (Some number)) }
        ensures short { length self.new.text ≤ length self.old.text + 9 }
    {
        self.push_byte(b'A');
        self.push_number(number);
    }

    // Appends a number of at most eight digits.
    #[inline(always)]
    fn push_number(&mut self, number: u32)
        requires few { number < 100_000_000 }
        requires room { length self.old.text + 8 ≤ 4096 }
        ensures put { self.new ≡ put_after self.old (decimal number) }
        ensures short { length self.new.text ≤ length self.old.text + 8 }
    {
        if number < 10_000 {
            self.push_four(number);
        } else {
            self.push_four(number / 10_000);
            self.push_pair(number / 100 % 100);
            self.push_pair(number % 100);
        }
    }

    // Appends a number of at most four digits.
    #[inline(always)]
    fn push_four(&mut self, number: u32)
        requires few { number < 10_000 }
        requires room { length self.old.text + 4 ≤ 4096 }
        ensures put { self.new ≡ put_after self.old (decimal number) }
        ensures short { length self.new.text ≤ length self.old.text + 4 }
    {
        if number < 100 {
            self.push_two(number);
        } else {
            self.push_two(number / 100);
            self.push_pair(number % 100);
        }
    }

    // Appends a number of at most two digits.
    #[inline(always)]
    fn push_two(&mut self, number: u32)
        requires few { number < 100 }
        requires room { length self.old.text + 2 ≤ 4096 }
        ensures put { self.new ≡ put_after self.old (decimal number) }
        ensures short { length self.new.text ≤ length self.old.text + 2 }
    {
        if number < 10 {
            self.push_digit(number);
        } else {
            self.push_pair(number);
        }
    }

    // Appends two digits.
    #[inline(always)]
    fn push_pair(&mut self, pair: u32)
        requires few { pair < 100 }
        requires room { length self.old.text + 2 ≤ 4096 }
        ensures put { self.new ≡ put_after self.old
            ((48 + pair / 10) ∷ (48 + pair % 10) ∷ []) }
        ensures short { length self.new.text ≡ length self.old.text + 2 }
    {
        self.push_digit(pair / 10);
        self.push_digit(pair % 10);
    }

    // Appends a digit, whose place is its value.
    #[inline(always)]
    fn push_digit(&mut self, digit: u32)
        requires digit { digit < 10 }
        requires room { length self.old.text + 1 ≤ 4096 }
        ensures put { self.new ≡ put_after self.old ((48 + digit) ∷ []) }
        ensures text { self.new ≡ put_after self.old (decimal digit) }
        ensures len { length self.new.text ≡ length self.old.text + 1 }
    {
        self.push_placed(b'0' + digit as u8, digit as u8);
    }

    // Appends a byte.
    #[inline(always)]
    fn push_byte(&mut self, byte: u8)
        requires { length self.old.text + 1 ≤ 4096 }
        ensures put { self.new ≡ put_after self.old (byte ∷ []) }
        ensures len { length self.new.text ≡ length self.old.text + 1 }
    {
        self.push_placed(byte, place_of(byte));
    }

    // Appends a byte with its place.
    #[inline(always)]
    fn push_placed(&mut self, byte: u8, place: u8)
        requires place { place ≡ place_of byte }
        requires room { length self.old.text + 1 ≤ 4096 }
        ensures put { self.new ≡ put_after self.old (byte ∷ []) }
        ensures len { length self.new.text ≡ length self.old.text + 1 }
    {
        self.lines.push_byte(byte);
        self.value = value_with(self.value, place);
    }

    // Ends the line.
    #[inline(always)]
    fn end_line(&mut self)
        requires { length self.old.text + 1 ≤ 4096 }
        ensures text { self.new.text ≡ (put_after self.old (10 ∷ [])).text }
        ensures value { self.new.value ≡ (put_after self.old (10 ∷ [])).value % checksum_prime }
    {
        self.push_byte(b'\n');
        self.settle();
    }

    // Takes the remainder of the value: there is then room for the places of many bytes more.
    #[inline(always)]
    fn settle(&mut self)
        ensures text { self.new.text ≡ self.old.text }
        ensures value { self.new.value ≡ self.old.value % checksum_prime }
    {
        self.value = u64::from(remainder(self.value));
    }
}
