//! The vector that a name stands for.
ghost use Rattle.std.specs.Prelude.{◌≡◌, ◌≢◌, ◌<◌, ◌^◌, ℕ, List, decimal, IfSome, IfNone};
ghost use Rattle.sgb_vec.specs.NamedVectors.{IsVector};
ghost use Rattle.sgb_vec.specs.Names.{name_of_vector};

use crate::digits::leading_number;
use crate::families::Vector;
use itoa::Buffer;

/// The vector whose name is this text (GB_BASIC, board): decimal numbers below 2^32 without leading zeros, joined by dots,
/// at most 251 of them. The empty text is the name of the empty vector. `None` where the text is no vector's name.
pub fn vector_of(name: &[u8]) -> Option<Vector>
    ensures named { IfSome result (λ vector. IsVector vector.items
        × (name_of_vector vector.items ≡ name.now)) }
    ensures none { IfNone result ((vector : List ℕ) → IsVector vector → name_of_vector vector
        ≢ name.now) }
{
    let mut vector = Vector::new();
    if name.is_empty() {
        return Some(vector);
    }
    for part in name.split(|byte| *byte == b'.') {
        let entry = entry_of(part)?;
        if vector.is_full() {
            return None;
        }
        vector.push(entry);
    }
    Some(vector)
}

// The number below 2^32 that this text is in decimal, without leading zeros.
fn entry_of(text: &[u8]) -> Option<u32>
    ensures some { IfSome result (λ entry. decimal entry ≡ text.now) }
    ensures none { IfNone result ((entry : ℕ) → entry < 2 ^ 32 → decimal entry ≢ text.now) }
{
    let (number, _rest) = leading_number(text, 10, 10)?;
    let Ok(entry) = u32::try_from(number) else {
        return None;
    };
    let mut buffer = Buffer::new();
    if buffer.format(entry).as_bytes() != text {
        return None;
    }
    Some(entry)
}
