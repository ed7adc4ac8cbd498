//! The bytes that are kept of standard input while an expression is evaluated.
//!
//! Each `stdin` of the expression is read from them anew. Each operand is told whether `stdin` comes again after it:
//! the last one drops the bytes before any operation on what it gave.
ghost use Rattle.std.specs.Prelude.{◌≡◌, []};

use std::borrow::CowSlice;
use std::marker::Model;

/// Bytes that are lent by the caller, or owned, so that they can be dropped before the evaluation ends.
#[derive(Drop)]
pub(crate) struct Kept<'a> {
    bytes: CowSlice<'a, u8>,
}

impl<'a> Model for Kept<'a> {
    ghost use Rattle.std.specs.Prelude.{List, ℕ};
    ghost use Rattle.std.specs.Cow.{cow_slice_items};

    ghost Value = { List ℕ };

    ghost view = { λ kept. cow_slice_items kept.bytes };
}

impl<'a> Kept<'a> {
    /// The bytes of a caller, who keeps them.
    pub(crate) fn lent(bytes: &'a [u8]) -> Kept<'a>
        ensures { result ≡ bytes.now }
    {
        Kept {
            bytes: CowSlice::Borrowed(bytes),
        }
    }

    /// These bytes.
    pub(crate) fn owned(bytes: Vec<u8>) -> Kept<'a>
        ensures { result ≡ bytes.items }
    {
        Kept {
            bytes: CowSlice::Owned(bytes),
        }
    }

    /// The bytes.
    pub(crate) fn bytes(&self) -> &[u8]
        ensures { result.now ≡ self.now }
    {
        self.bytes.as_slice()
    }

    /// Drops the bytes, and gives back their memory where it is owned.
    pub(crate) fn clear(&mut self)
        ensures { self.new ≡ [] }
    {
        self.bytes = CowSlice::Borrowed(&[]);
    }
}
