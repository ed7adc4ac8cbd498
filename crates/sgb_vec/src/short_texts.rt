//! Short texts put by few moves of a length that is known when the program is compiled.
ghost use Rattle.std.specs.Prelude.{◌≡◌, ◌≤◌, ◌+◌, ◌++◌, length, take};

use crate::filled::Filled;

/// Appends a text, for which there is room. One of 4 to 16 bytes, as most names are, is put by two moves of four bytes, or
/// of eight: its first bytes, and its last.
#[inline(always)]
pub fn push_name<const N: usize>(line: &mut Filled<N>, text: &[u8])
    requires { length line.old + length text.now ≤ N }
    ensures put { line.new ≡ line.old ++ text.now }
    ensures size { length line.new ≡ length line.old + length text.now }
{
    let len = text.len();
    if len < 4 || len > 16 {
        line.push_text(text);
    } else if len < 8 {
        push_ends::<4, N>(line, text);
    } else {
        push_ends::<8, N>(line, text);
    }
}

// Appends a text of `M` to `2 * M` bytes: its first `M`, and over those of them that come once more its last `M`.
#[inline(always)]
fn push_ends<const M: usize, const N: usize>(line: &mut Filled<N>, text: &[u8])
    requires least { M ≤ length text.now }
    requires most { length text.now ≤ M + M }
    requires room { length line.old + length text.now ≤ N }
    ensures { line.new ≡ line.old ++ text.now }
{
    let start = line.len();
    let left = text.len() - M;
    line.push_text(&first_bytes::<M>(text));
    line.cut(start + left);
    line.push_text(&first_bytes::<M>(&text[left..]));
}

// The first bytes of a text, as a value: what is copied from it is seen to lie apart from where it goes.
#[inline(always)]
fn first_bytes<const M: usize>(text: &[u8]) -> [u8; M]
    requires { M ≤ length text.now }
    ensures value { result ≡ take M text.now }
    ensures width { length result ≡ M }
{
    match text.first_chunk::<M>() {
        Some(first) => *first,
        None => [0; M],
    }
}
