//! The texts of vertices, and the name of a vector.
//!
//! A text of at most 16 bytes stands where it is kept: that spares an allocation for each name, and a look elsewhere
//! when it is read. A longer one takes eight bytes more than it would as a `Vec`.
ghost use Rattle.std.specs.Prelude.{◌≡◌, ◌+◌, ◌^◌, ◌≤◌, ◌++◌, ◌∷◌, ◌↔◌, [], All, length, decimal, IsTrue, IfOk, OnErr, IsErrOf, IsOkUnless};
ghost use Rattle.sgb_vec.specs.Limits.{most_bytes, most_dimensions};
ghost use Rattle.sgb_vec.specs.Names.{name_of_vector, IsTextByte, IsText};

use crate::filled::Filled;
use crate::panics::Panic;
use crate::short_texts::push_name;
use std::alloc::Global;
use std::marker::Model;

/// A string of at most 4,095 bytes of printable ASCII (32 to 126) without `"` and `\`, as a `.gb` file
/// can hold it. Contracts see it as the list of its bytes. One of 16 bytes at most takes no memory of its own.
pub struct Text {
    bytes: Bytes,
}

// One function drops a text. A derived drop would be a case for either place of its bytes wherever a text is dropped.
impl Drop for Text {
    fn drop(self) {
        let Text { bytes: _ } = self;
    }
}

// The bytes of a string: in place where they are 16 at most, and else in memory of their own.
enum Bytes {
    Few(ShortText),
    Many(Vec<u8>),
}

// One function drops them, as it does a text.
impl Drop for Bytes {
    fn drop(self) {
        match self {
            Bytes::Few(_) => {}
            Bytes::Many(_) => {}
        }
    }
}

const _: () = prove!(size_of::<Text>() == 32);

impl Model for Text {
    ghost use Rattle.std.specs.Prelude.{List, ℕ};
    ghost use Rattle.sgb_vec.specs.Names.{IsText};
    ghost use Rattle.sgb_vec.specs.inner.KeptTexts.{bytes_kept};

    ghost Value = { List ℕ };

    ghost view = { λ t. bytes_kept t.bytes };

    ghost invariant = { λ t. IsText (bytes_kept t.bytes) };
}

// A string has at most this many bytes.
const MOST_BYTES: usize = 4_095;

// So many bytes stand where the string is kept.
const SHORT_BYTES: usize = 16;

// Room for a string of so many bytes.
type ShortText = Filled<SHORT_BYTES>;

// A name has at most so many bytes: 251 numbers of at most ten digits, each with a dot.
const MOST_NAME_BYTES: usize = 2_761;

/// Room for the name of a vector, which serves for one after another.
pub type NameText = Filled<MOST_NAME_BYTES>;

impl Text {
    /// The string of these bytes.
    ///
    /// `Syntax` where they are no string: above 4,095 bytes, or one that is not printable ASCII (32 to 126)
    /// or is `"` or `\`. `NoRoom` when out of memory.
    pub fn new(alloc: Global, bytes: &[u8]) -> Result<Text, Panic>
        ensures ok { IfOk result (λ text. (text ≡ bytes.now) × IsText bytes.now) }
        ensures refused { IsErrOf result Panic.Syntax ↔ ¬ IsText bytes.now }
        ensures err { IsText bytes.now → IsOkUnless result Panic.NoRoom }
    {
        if !is_text(bytes) {
            return Err(Panic::Syntax);
        }
        Text::of_bytes(alloc, bytes)
    }

    /// The string of these bytes, which are one.
    ///
    /// `NoRoom` when out of memory, and nothing else.
    #[inline(always)]
    pub fn of_bytes(alloc: Global, bytes: &[u8]) -> Result<Text, Panic>
        requires { IsText bytes.now }
        ensures ok { IfOk result (λ text. text ≡ bytes.now) }
        ensures memory { IsOkUnless result Panic.NoRoom }
    {
        if bytes.len() > SHORT_BYTES {
            return Text::of_many(alloc, bytes);
        }
        let mut text = ShortText::new();
        push_name(&mut text, bytes);
        Ok(Text::of_few(text))
    }

    // The string of these bytes, wherever they stand.
    #[inline(never)]
    fn of_many(alloc: Global, bytes: &[u8]) -> Result<Text, Panic>
        requires { IsText bytes.now }
        ensures ok { IfOk result (λ text. text ≡ bytes.now) }
        ensures memory { IsOkUnless result Panic.NoRoom }
    {
        let mut kept = Vec::with_capacity(alloc, bytes.len())?;
        kept.extend_from_slice(bytes)?;
        Ok(Text::of_vec(kept))
    }

    // The string of these bytes, whose memory it keeps.
    fn of_vec(bytes: Vec<u8>) -> Text
        requires { IsText bytes.items }
        ensures { result ≡ bytes.items }
    {
        Text {
            bytes: Bytes::Many(bytes),
        }
    }

    // The string of these bytes, which are moved whole.
    #[inline(always)]
    fn of_few(bytes: ShortText) -> Text
        requires { IsText bytes }
        ensures { result ≡ bytes }
    {
        Text {
            bytes: Bytes::Few(bytes),
        }
    }

    /// The string of three texts, one after another. They are put together where they stay.
    ///
    /// `NoRoom` when out of memory, and nothing else.
    #[inline(always)]
    pub fn of_parts(alloc: Global, first: &[u8], second: &[u8], third: &[u8]) -> Result<Text, Panic>
        requires short { length first.now + length second.now + length third.now ≤ most_bytes }
        requires first { All IsTextByte first.now }
        requires second { All IsTextByte second.now }
        requires third { All IsTextByte third.now }
        ensures ok { IfOk result (λ text. text ≡ first.now ++ second.now ++ third.now) }
        ensures memory { IsOkUnless result Panic.NoRoom }
    {
        if first.len() + second.len() + third.len() > SHORT_BYTES {
            return Text::of_long_parts(alloc, first, second, third);
        }
        let mut text = ShortText::new();
        push_name(&mut text, first);
        push_name(&mut text, second);
        push_name(&mut text, third);
        Ok(Text::of_few(text))
    }

    // The same of three texts that may have any number of bytes.
    #[inline(never)]
    fn of_long_parts(
        alloc: Global,
        first: &[u8],
        second: &[u8],
        third: &[u8],
    ) -> Result<Text, Panic>
        requires short { length first.now + length second.now + length third.now ≤ most_bytes }
        requires first { All IsTextByte first.now }
        requires second { All IsTextByte second.now }
        requires third { All IsTextByte third.now }
        ensures ok { IfOk result (λ text. text ≡ first.now ++ second.now ++ third.now) }
        ensures memory { IsOkUnless result Panic.NoRoom }
    {
        let size = first.len() + second.len() + third.len();
        let mut bytes = Vec::with_capacity(alloc, size)?;
        bytes.extend_from_slice(first)?;
        bytes.extend_from_slice(second)?;
        bytes.extend_from_slice(third)?;
        Ok(Text::of_vec(bytes))
    }

    /// The bytes of the string.
    pub fn bytes(&self) -> &[u8]
        ensures value { result.now ≡ self.now }
        ensures text { IsText self.now }
    {
        match &self.bytes {
            Bytes::Few(few) => few.bytes(),
            Bytes::Many(many) => many.as_slice(),
        }
    }

    /// The same string once more. `NoRoom` when out of memory, and nothing else.
    pub fn copy(&self, alloc: Global) -> Result<Text, Panic>
        ensures ok { IfOk result (λ text. text ≡ self.now) }
        ensures err { OnErr result (IsErrOf result Panic.NoRoom) }
    {
        Text::of_bytes(alloc, self.bytes())
    }
}

// Whether the bytes are a string that a `.gb` file can hold.
fn is_text(bytes: &[u8]) -> bool
    ensures { IsTrue result ↔ IsText bytes.now }
{
    bytes.len() <= MOST_BYTES && bytes.iter().all(|byte| is_text_byte(*byte))
}

/// Whether the byte may stand in a string, and so in a name or an id: printable ASCII (32 to 126), and neither `"` nor
/// `\` (GB_SAVE).
pub fn is_text_byte(byte: u8) -> bool
    ensures { IsTrue result ↔ IsTextByte byte }
{
    b' ' <= byte && byte <= b'~' && byte != b'"' && byte != b'\\'
}

/// The name of a vector of at most 251 entries (GB_BASIC, board): its entries in decimal, joined by dots.
///
/// `NoRoom` when out of memory, and nothing else.
pub fn name_of(alloc: Global, vector: &[u32]) -> Result<Text, Panic>
    requires { length vector.now ≤ most_dimensions + 1 }
    ensures ok { IfOk result (λ name. name ≡ name_of_vector vector.now) }
    ensures err { OnErr result (IsErrOf result Panic.NoRoom) }
{
    if vector.len() == 1 {
        return Ok(name_of_number(vector[0]));
    }
    name_of_any(alloc, vector)
}

// The name of a vector of one entry. It takes no memory.
fn name_of_number(number: u32) -> Text
    ensures { result ≡ name_of_vector (number ∷ []) }
{
    let mut text = ShortText::new();
    text.push_count(number);
    Text::of_few(text)
}

// The name of any vector, for which there is room of its own.
#[inline(never)]
fn name_of_any(alloc: Global, vector: &[u32]) -> Result<Text, Panic>
    requires { length vector.now ≤ most_dimensions + 1 }
    ensures ok { IfOk result (λ name. name ≡ name_of_vector vector.now) }
    ensures err { OnErr result (IsErrOf result Panic.NoRoom) }
{
    let mut text = NameText::new();
    put_name(vector, &mut text);
    Text::of_bytes(alloc, text.bytes())
}

/// How many bytes the name of a vector of at most 251 entries has. The name is not made.
pub fn name_len(vector: &[u32]) -> u64
    requires { length vector.now ≤ most_dimensions + 1 }
    ensures value { result ≡ length (name_of_vector vector.now) }
    ensures short { result ≤ 2 ^ 12 }
{
    let mut bytes = 0;
    for (place, entry) in vector.iter().enumerate() {
        bytes += u64::from(place > 0) + digit_count(*entry);
    }
    bytes
}

/// Makes a text the name of a vector of at most 251 entries. It takes no memory.
pub fn put_name(vector: &[u32], text: &mut NameText)
    requires { length vector.now ≤ most_dimensions + 1 }
    ensures name { text.new ≡ name_of_vector vector.now }
    ensures text { IsText text.new }
{
    text.cut(0);
    for (place, entry) in vector.iter().enumerate() {
        if place > 0 {
            text.push_byte(b'.');
        }
        text.push_count(*entry);
    }
}

// How many digits a number has in decimal.
fn digit_count(number: u32) -> u64
    ensures value { result ≡ length (decimal number) }
    ensures bound { result ≤ 10 }
{
    match number.checked_ilog10() {
        Some(power) => power as u64 + 1,
        None => 1,
    }
}
