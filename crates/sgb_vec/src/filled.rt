//! Texts put together in place.
//!
//! A part of a text with at most sixteen bytes is put by one move of sixteen, where both texts have room for so many.
//! What stands behind it is written over by what comes next, and is no part of the text.
ghost use Rattle.std.specs.Prelude.{◌≡◌, ◌≤◌, ◌<◌, ◌+◌, ◌-◌, ◌/◌, ◌%◌, [], ◌∷◌, ◌++◌, decimal, drop, length, set, take};

use itoa::{Buffer, Integer};
use std::marker::Model;

// So many bytes are moved at once.
const WORD_BYTES: usize = 16;

/// A text of at most `N` bytes that is put together, in a value of fixed size. Contracts see it as the list of its bytes.
#[derive(Drop)]
pub struct Filled<const N: usize> {
    bytes: [u8; N],
    // How many of them are the text's.
    len: usize,
}

impl<const N: usize> Model for Filled<N> {
    ghost use Rattle.std.specs.Prelude.{◌≤◌, List, ℕ, take};

    ghost Value = { List ℕ };

    ghost view = { λ filled. take filled.len filled.bytes };

    ghost invariant = { λ filled. filled.len ≤ N };
}

impl<const N: usize> Filled<N> {
    /// No bytes yet.
    pub fn new() -> Filled<N>
        ensures { result ≡ [] }
    {
        Filled {
            bytes: [0; N],
            len: 0,
        }
    }

    /// How many bytes the text has.
    pub fn len(&self) -> usize
        ensures value { result ≡ length self.now }
        ensures short { length self.now ≤ N }
    {
        self.len
    }

    /// The bytes of the text.
    pub fn bytes(&self) -> &[u8]
        ensures { result.now ≡ self.now }
    {
        &self.bytes[..self.len]
    }

    /// Writes a digit over the byte at this place.
    pub fn put_digit(&mut self, place: usize, digit: u32)
        requires digit { digit < 10 }
        requires within { place < length self.old }
        ensures { self.new ≡ set self.old place (48 + digit) }
    {
        self.bytes[place] = b'0' + digit as u8;
    }

    /// Writes two digits over the bytes from this place on.
    pub fn put_two_digits(&mut self, place: usize, number: u32)
        requires digits { number < 100 }
        requires within { place + 1 < length self.old }
        ensures { self.new ≡ set (set self.old place (48 + number / 10)) (place + 1)
            (48 + number % 10) }
    {
        prove!(self.len() <= N);
        self.put_digit(place, number / 10);
        self.put_digit(place + 1, number % 10);
    }

    /// Keeps the first `count` bytes.
    pub fn cut(&mut self, count: usize)
        requires { count ≤ length self.old }
        ensures { self.new ≡ take count self.old }
    {
        self.len = count;
    }

    /// Appends a text, for which there is room.
    pub fn push_text(&mut self, text: &[u8])
        requires { length self.old + length text.now ≤ N }
        ensures put { self.new ≡ self.old ++ text.now }
        ensures size { length self.new ≡ length self.old + length text.now }
    {
        let start = self.len;
        let end = start + text.len();
        let bytes = &mut self.bytes[..];
        bytes[start..end].copy_from_slice(text);
        self.len = end;
    }

    /// Appends the first `end` bytes of another text.
    #[inline(always)]
    pub fn push_start_of<const M: usize>(&mut self, text: &Filled<M>, end: usize)
        requires within { end ≤ length text.now }
        requires room { length self.old + end ≤ N }
        ensures { self.new ≡ self.old ++ take end text.now }
    {
        if end <= WORD_BYTES && M >= WORD_BYTES && self.len + WORD_BYTES <= N {
            self.push_word(&text.bytes, 0, end);
        } else {
            self.push_text(&text.bytes()[..end]);
        }
    }

    /// Appends the bytes of another text from place `start` on.
    #[inline(always)]
    pub fn push_rest_of<const M: usize>(&mut self, text: &Filled<M>, start: usize)
        requires within { start ≤ length text.now }
        requires room { length self.old + (length text.now - start) ≤ N }
        ensures { self.new ≡ self.old ++ drop start text.now }
    {
        let count = text.len - start;
        if count == 0 {
            return;
        }
        if count <= WORD_BYTES && start + WORD_BYTES <= M && self.len + WORD_BYTES <= N {
            self.push_word(&text.bytes, start, count);
        } else {
            self.push_text(&text.bytes()[start..]);
        }
    }

    /// Appends the bytes of another text from place `start` on and before `end`.
    #[inline(always)]
    pub fn push_part_of<const M: usize>(&mut self, text: &Filled<M>, start: usize, end: usize)
        requires order { start ≤ end }
        requires within { end ≤ length text.now }
        requires room { length self.old + (end - start) ≤ N }
        ensures { self.new ≡ self.old ++ take (end - start) (drop start text.now) }
    {
        let count = end - start;
        if count == 0 {
            return;
        }
        if count <= WORD_BYTES && start + WORD_BYTES <= M && self.len + WORD_BYTES <= N {
            self.push_word(&text.bytes, start, count);
        } else {
            self.push_text(&text.bytes()[start..end]);
        }
    }

    // Appends `count` bytes from place `start` on. A whole word is moved at once: what of it is no part of the text is
    // written over by what is appended next.
    fn push_word(&mut self, bytes: &[u8], start: usize, count: usize)
        requires few { count ≤ 16 }
        requires within { start + 16 ≤ length bytes.now }
        requires room { length self.old + 16 ≤ N }
        ensures { self.new ≡ self.old ++ take count (drop start bytes.now) }
    {
        let at = self.len;
        let word = &bytes[start..start + WORD_BYTES];
        let all = &mut self.bytes[..];
        all[at..at + WORD_BYTES].copy_from_slice(word);
        self.len = at + count;
    }

    /// Appends a number in decimal.
    pub fn push_number<I: Integer>(&mut self, number: I)
        requires { length self.old + I.MAX_STR_LEN ≤ N }
        ensures text { self.new ≡ self.old ++ I.text number }
        ensures short { length self.new ≤ length self.old + I.MAX_STR_LEN }
    {
        let mut digits = Buffer::new();
        self.push_text(digits.format(number).as_bytes());
    }

    /// Appends the first `count` bytes of a word of four, which is moved at once.
    pub fn push_short_word(&mut self, word: &[u8], count: usize)
        requires whole { length word.now ≡ 4 }
        requires few { count ≤ 4 }
        requires room { length self.old + 4 ≤ N }
        ensures { self.new ≡ self.old ++ take count word.now }
    {
        let start = self.len;
        let all = &mut self.bytes[..];
        all[start..start + 4].copy_from_slice(word);
        self.len = start + count;
    }

    /// Appends a number of 32 bits in decimal, at most 10 bytes. Few digits are put one by one.
    pub fn push_count(&mut self, number: u32)
        requires { length self.old + 10 ≤ N }
        ensures text { self.new ≡ self.old ++ decimal number }
        ensures short { length self.new ≤ length self.old + 10 }
    {
        if number < 10_000 {
            self.push_few_digits(number);
        } else {
            self.push_number(number);
        }
    }

    /// Appends a number of at most four digits.
    pub fn push_few_digits(&mut self, number: u32)
        requires few { number < 10_000 }
        requires room { length self.old + 4 ≤ N }
        ensures text { self.new ≡ self.old ++ decimal number }
        ensures short { length self.new ≤ length self.old + 4 }
    {
        if number < 100 {
            self.push_short(number);
        } else {
            self.push_short(number / 100);
            self.push_digit(number / 10 % 10);
            self.push_digit(number % 10);
        }
    }

    // Appends a number of at most two digits.
    fn push_short(&mut self, number: u32)
        requires few { number < 100 }
        requires room { length self.old + 2 ≤ N }
        ensures text { self.new ≡ self.old ++ decimal number }
        ensures short { length self.new ≤ length self.old + 2 }
    {
        if number >= 10 {
            self.push_digit(number / 10);
        }
        self.push_digit(number % 10);
    }

    // Appends a digit.
    fn push_digit(&mut self, digit: u32)
        requires digit { digit < 10 }
        requires room { length self.old < N }
        ensures text { self.new ≡ self.old ++ (48 + digit) ∷ [] }
        ensures len { length self.new ≡ length self.old + 1 }
    {
        self.push_byte(b'0' + digit as u8);
    }

    /// Appends a byte, for which there is room.
    pub fn push_byte(&mut self, byte: u8)
        requires { length self.old < N }
        ensures text { self.new ≡ self.old ++ byte ∷ [] }
        ensures len { length self.new ≡ length self.old + 1 }
    {
        let end = self.end();
        self.bytes[end] = byte;
        self.len += 1;
    }

    // The place of the next byte. By the remainder, which changes nothing, the compiler knows that only the bytes are written
    // over, and keeps at hand what else stands beside the text; of another `N` than a power of two it would cost more.
    #[inline(always)]
    fn end(&self) -> usize
        requires { length self.now < N }
        ensures { result ≡ length self.now }
    {
        if N.is_power_of_two() {
            self.len % N
        } else {
            self.len
        }
    }
}
