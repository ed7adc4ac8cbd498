//! Pieces of the ids of results, and names made of names.
//!
//! A name that is made of names is put together where it stays: a short one takes no memory of its own.
ghost use Rattle.std.specs.Prelude.{◌≡◌, ◌≤◌, ◌+◌, ◌++◌, [], ◌∷◌, All, length, take, IfOk, IsOkUnless, IsTrue};
ghost use Rattle.std.specs.Fmt.{signed_decimal};
ghost use Rattle.sgb_graph.specs.IdTexts.{flag_text, is_id_text};
ghost use Rattle.sgb_vec.specs.Limits.{most_bytes};
ghost use Rattle.sgb_vec.specs.Names.{IsTextByte};
ghost use Rattle.sgb_ops.specs.Compounds.{closing};

use sgb_graph::{Id, IdWriter};
use sgb_vec::{Panic, Text};
use std::alloc::Global;

/// The byte of a flag in an id: `1` or `0`.
pub(crate) fn flag_byte(flag: bool) -> u8
    ensures { (result ∷ []) ≡ flag_text flag }
{
    if flag { b'1' } else { b'0' }
}

/// The id of a graph of two numbers: `start`, the numbers and the flag with commas between them, and a bracket.
pub(crate) fn numbers_id(start: &[u8], n1: i64, n2: i64, directed: bool) -> Id
    requires short { length start.now ≤ 100 }
    requires text { IsTrue (is_id_text start.now) }
    ensures { result ≡ start.now ++ signed_decimal n1
        ++ closing (signed_decimal n2 ∷ flag_text directed ∷ []) }
{
    let mut writer = IdWriter::new();
    writer.push_text(start);
    writer.push_number(n1);
    writer.push_text(b",");
    writer.push_number(n2);
    writer.push_text(&[b',', flag_byte(directed), b')']);
    writer.id()
}

/// The first `most_first` bytes of the first name and the first `most_second` of the second, with the separator
/// between them.
///
/// `NoRoom` when out of memory, and nothing else.
#[inline(always)]
pub(crate) fn joined_name(
    alloc: Global,
    first: &Text,
    most_first: usize,
    separator: &[u8],
    second: &Text,
    most_second: usize,
) -> Result<Text, Panic>
    requires short { most_first + length separator.now + most_second ≤ most_bytes }
    requires printable { All IsTextByte separator.now }
    ensures ok { IfOk result (λ text. text ≡ take most_first first.now ++ separator.now
        ++ take most_second second.now) }
    ensures memory { IsOkUnless result Panic.NoRoom }
{
    Text::of_parts(
        alloc,
        front(first.bytes(), most_first),
        separator,
        front(second.bytes(), most_second),
    )
}

/// The first `most` bytes of the name, and `end` after them.
///
/// `NoRoom` when out of memory, and nothing else.
pub(crate) fn ended_name(alloc: Global, name: &Text, most: usize, end: &[u8]) -> Result<Text, Panic>
    requires short { most + length end.now ≤ most_bytes }
    requires printable { All IsTextByte end.now }
    ensures ok { IfOk result (λ text. text ≡ take most name.now ++ end.now) }
    ensures memory { IsOkUnless result Panic.NoRoom }
{
    Text::of_parts(alloc, b"", front(name.bytes(), most), end)
}

/// `start`, and the first `most` bytes of the name after it.
///
/// `NoRoom` when out of memory, and nothing else.
pub(crate) fn begun_name(
    alloc: Global,
    start: &Text,
    name: &Text,
    most: usize,
) -> Result<Text, Panic>
    requires { length start.now + most ≤ most_bytes }
    ensures ok { IfOk result (λ text. text ≡ start.now ++ take most name.now) }
    ensures memory { IsOkUnless result Panic.NoRoom }
{
    Text::of_parts(alloc, b"", start.bytes(), front(name.bytes(), most))
}

// At most the first `most` bytes.
fn front(bytes: &[u8], most: usize) -> &[u8]
    ensures { result.now ≡ take most bytes.now }
{
    &bytes[..most.min(bytes.len())]
}
