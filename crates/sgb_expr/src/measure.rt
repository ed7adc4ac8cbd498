//! How large a text may be that is read: an expression, or what is asked of the random generator.
ghost use Rattle.std.specs.Prelude.{◌↔◌, IsTrue};
ghost use Rattle.sgb_expr.specs.Expressions.{IsTooLarge};
ghost use Rattle.sgb_expr.specs.inner.Measure.{IsDeep};

/// Such a text has at most this many bytes.
const MOST_BYTES: usize = 65_536;

/// Parentheses are nested at most this deep.
const MOST_DEPTH: usize = 64;

/// Whether the text is too large to be read, whatever it says: more than 65,536 bytes, or a prefix with over 64 more
/// `(` than `)`.
pub fn is_too_large(text: &[u8]) -> bool
    ensures { IsTrue result ↔ IsTooLarge text.now }
{
    text.len() > MOST_BYTES || is_deep(text)
}

/// Whether some prefix of the text has over 64 more `(` than `)`.
fn is_deep(text: &[u8]) -> bool
    ensures { IsTrue result ↔ IsDeep text.now }
{
    let mut opened: usize = 0;
    let mut closed: usize = 0;
    for byte in text {
        opened += usize::from(*byte == b'(');
        closed += usize::from(*byte == b')');
        if opened.saturating_sub(closed) > MOST_DEPTH {
            return true;
        }
    }
    false
}
