ghost use Rattle.std.specs.Prelude.{◌≡◌, ◌≤◌, ◌+◌, ◌*◌, [], ◌++◌, ◌↔◌, length, IsTrue, IfOk, IsErrOf, IsOkUnless};
ghost use Rattle.std.specs.Fmt.{signed_decimal};
ghost use Rattle.sgb_graph.specs.IdTexts.{flag_text, hexadecimal_text, is_id_text, numbers_text};
ghost use Rattle.sgb_graph.specs.Ids.{most_id_bytes, IsId};

mod compounds;
mod hexadecimals;

pub use compounds::{compound_id, double_compound_id};
use hexadecimals::{MOST_HEXADECIMAL_DIGITS, put_hexadecimal_digits};
use sgb_vec::{Filled, Panic, is_text_byte};
use std::marker::Model;

// An id has at most this many bytes.
const MOST_BYTES: usize = 160;

/// The id of a graph: at most 160 bytes of printable ASCII (32 to 126) without `"` and `\` (GB_GRAPH,
/// id field). A value of fixed size, which contracts see as the list of its bytes.
#[derive(Drop)]
pub struct Id {
    text: Filled<MOST_BYTES>,
}

impl Model for Id {
    ghost use Rattle.std.specs.Prelude.{List, ℕ};
    ghost use Rattle.sgb_graph.specs.Ids.{IsId};

    ghost Value = { List ℕ };

    ghost view = { λ id. id.text };

    ghost invariant = { λ id. IsId id.text };
}

impl Id {
    /// The id of these bytes.
    ///
    /// `Syntax` where they are no id: above 160 bytes, or one that is not printable ASCII (32 to 126) or is
    /// `"` or `\`.
    pub fn new(bytes: &[u8]) -> Result<Id, Panic>
        ensures ok { IfOk result (λ id. (id ≡ bytes.now) × IsId bytes.now) }
        ensures refused { IsErrOf result Panic.Syntax ↔ ¬ IsId bytes.now }
        ensures err { IsOkUnless result Panic.Syntax }
    {
        if bytes.len() > MOST_BYTES || !bytes.iter().all(|byte| is_text_byte(*byte)) {
            return Err(Panic::Syntax);
        }
        let mut text = Filled::new();
        text.push_text(bytes);
        Ok(Id { text })
    }

    /// The bytes of the id.
    pub fn bytes(&self) -> &[u8]
        ensures value { result.now ≡ self.now }
        ensures id { IsId self.now }
    {
        self.text.bytes()
    }
}

/// Builds the id of a generated graph from texts and numbers (GB_GRAPH, id field), in a value of fixed size.
/// Contracts see it as the list of the bytes so far.
#[derive(Drop)]
pub struct IdWriter {
    text: Filled<MOST_BYTES>,
}

impl Model for IdWriter {
    ghost use Rattle.std.specs.Prelude.{List, ℕ};
    ghost use Rattle.sgb_graph.specs.Ids.{IsId};

    ghost Value = { List ℕ };

    ghost view = { λ writer. writer.text };

    ghost invariant = { λ writer. IsId writer.text };
}

impl IdWriter {
    /// No bytes yet.
    pub fn new() -> IdWriter
        ensures { result ≡ [] }
    {
        IdWriter {
            text: Filled::new(),
        }
    }

    /// How many bytes there are so far, at most 160.
    pub fn len(&self) -> usize
        ensures count { result ≡ length self.now }
        ensures few { result ≤ most_id_bytes }
    {
        self.text.len()
    }

    /// Appends a text; it has to have room, and bytes that an id may have.
    pub fn push_text(&mut self, text: &[u8])
        requires room { length self.old + length text.now ≤ most_id_bytes }
        requires text { IsTrue (is_id_text text.now) }
        ensures { self.new ≡ self.old ++ text.now }
    {
        self.text.push_text(text);
    }

    /// Appends a number in decimal, at most 20 bytes.
    pub fn push_number(&mut self, number: i64)
        requires { length self.old + 20 ≤ most_id_bytes }
        ensures bytes { self.new ≡ self.old ++ signed_decimal number }
        ensures short { length self.new ≤ length self.old + 20 }
    {
        self.text.push_number(number);
    }

    /// Appends numbers in decimal, each with a comma after it: at most 21 bytes each.
    pub fn push_numbers(&mut self, numbers: &[i64])
        requires { length self.old + 21 * length numbers.now ≤ most_id_bytes }
        ensures bytes { self.new ≡ self.old ++ numbers_text numbers.now }
        ensures short { length self.new ≤ length self.old + 21 * length numbers.now }
    {
        for number in numbers {
            self.push_number(*number);
            self.push_text(b",");
        }
    }

    /// Appends a flag: 1 or 0.
    pub fn push_flag(&mut self, flag: bool)
        requires { length self.old + 1 ≤ most_id_bytes }
        ensures { self.new ≡ self.old ++ flag_text flag }
    {
        if flag {
            self.push_text(b"1");
        } else {
            self.push_text(b"0");
        }
    }

    /// Appends a number in hexadecimal, at most 34 bytes: `0x`, and its digits in lower case with no leading zeros.
    pub fn push_hexadecimal(&mut self, number: u128)
        requires { length self.old + 34 ≤ most_id_bytes }
        ensures bytes { self.new ≡ self.old ++ hexadecimal_text number }
        ensures short { length self.new ≤ length self.old + 34 }
    {
        let mut text = [b'0'; MOST_HEXADECIMAL_DIGITS];
        let start = put_hexadecimal_digits(&mut text, number);
        self.push_text(b"0x");
        self.push_text(&text[start..]);
    }

    /// The id of these bytes.
    pub fn id(self) -> Id
        ensures { result ≡ self }
    {
        let IdWriter { text } = self;
        Id { text }
    }
}
