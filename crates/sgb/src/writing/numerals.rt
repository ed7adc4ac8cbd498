//! The texts of small numbers, found once for a listing: they are moved, and not found digit by digit.
//!
//! That saves a tenth of the time of a knights' listing: how many digits a number has is then no branch. Ten thousand
//! of them would be 50 KB, more than a page and the rest leave of the first cache; a greater number is put digit by
//! digit.
ghost use Rattle.std.specs.Prelude.{◌≡◌, ◌≤◌, ◌<◌, ◌+◌, ◌*◌, ◌-◌, ◌++◌, decimal, drop, length, nat_lt, take, IfSome};
ghost use Rattle.sgb.specs.inner.Numerals.{IsNumeral};
ghost use Rattle.sgb.specs.inner.Texts.{entries_text, entry_text};
// For the search alone.
ghost use Rattle.std.specs.Prelude.{[], ◌∷◌};

use sgb_vec::Filled;
use std::marker::Model;

// The texts of so many numbers are kept, those from 0 on.
const COUNT: usize = 1_000;

/// The text of a number of at most four digits, which stands at the start of a word, and how long it is.
pub(super) type Numeral = ([u8; 4], u8);

/// The texts of the numbers below 1,000.
#[derive(Drop)]
pub(super) struct Numerals {
    kept: [Numeral; COUNT],
}

impl Model for Numerals {
    ghost use Rattle.std.specs.Prelude.{List, ℕ};
    ghost use Rattle.sgb.specs.inner.Numerals.{AreNumerals, numerals_count};

    ghost Value = { List (List ℕ × ℕ) };

    ghost view = { λ n. n.kept };

    ghost invariant = { λ n. AreNumerals numerals_count n.kept };
}

impl Numerals {
    /// All of them.
    pub(super) fn new() -> Numerals {
        let mut kept = [([0; 4], 0); COUNT];
        for number in 0..COUNT {
            kept[number] = numeral(number as u32);
        }
        Numerals { kept }
    }

    // The text of a number, where it is kept.
    fn get(&self, number: u32) -> Option<&Numeral>
        ensures { IfSome result (λ numeral. IsNumeral number numeral.now) }
    {
        self.kept.get(number as usize)
    }

    /// Appends an entry of a vector, after a dot where it is not the first: at most 11 bytes.
    #[inline(always)]
    pub(super) fn push_entry<const N: usize>(&self, text: &mut Filled<N>, dotted: bool, entry: u32)
        requires { length text.old + 11 ≤ N }
        ensures text { text.new ≡ text.old ++ entry_text dotted entry }
        ensures short { length text.new ≤ length text.old + 11 }
    {
        if dotted {
            text.push_byte(b'.');
        }
        self.push_count(text, entry);
    }

    // Appends a number in decimal, at most 10 bytes. The text of a small one is known.
    fn push_count<const N: usize>(&self, text: &mut Filled<N>, number: u32)
        requires { length text.old + 10 ≤ N }
        ensures text { text.new ≡ text.old ++ decimal number }
        ensures short { length text.new ≤ length text.old + 10 }
    {
        match self.get(number) {
            Some(numeral) => text.push_short_word(&numeral.0[..], usize::from(numeral.1)),
            None => text.push_count(number),
        }
    }

    /// Appends the entries of a vector from place `from` on and before `to`, as they stand in its name.
    pub(super) fn push_entries<const N: usize>(
        &self,
        text: &mut Filled<N>,
        vector: &[u32],
        from: usize,
        to: usize,
    )
        requires places { (from ≤ to) × (to ≤ length vector.now) }
        requires room { length text.old + 11 * (to - from) ≤ N }
        ensures text { text.new ≡ text.old
            ++ entries_text (nat_lt 0 from) (take (to - from) (drop from vector.now)) }
        ensures short { length text.new ≤ length text.old + 11 * (to - from) }
    {
        for place in from..to {
            self.push_entry(text, place > 0, vector[place]);
        }
    }
}

// The text of this number.
fn numeral(number: u32) -> Numeral
    requires { number < 10_000 }
    ensures { IsNumeral number result }
{
    let mut text: Filled<4> = Filled::new();
    text.push_few_digits(number);
    (word_of(text.bytes()), text.len() as u8)
}

// A word that begins with this text.
fn word_of(text: &[u8]) -> [u8; 4]
    requires { length text.now ≤ 4 }
    ensures { take (length text.now) result ≡ text.now }
{
    let mut word = [0; 4];
    word[..text.len()].copy_from_slice(text);
    word
}
