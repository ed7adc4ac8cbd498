//! Why reading from the beginning of a text stops.

/// Where the text goes wrong.
#[derive(Clone, Copy, Debug, PartialEq, Eq)]
pub(crate) struct Mismatch {
    /// So many bytes of it are left there.
    pub left: usize,
}

/// Why reading that takes memory stops.
#[derive(Clone, Copy, Debug, PartialEq, Eq)]
pub(crate) enum Wrong {
    /// The text goes wrong where so many bytes of it are left.
    Left(usize),
    /// Out of memory.
    NoRoom,
}

impl From<Mismatch> for Wrong {
    ghost use Rattle.std.specs.Prelude.{◌≡◌};
    ghost use Rattle.sgb_expr.specs.declared.wrong.Wrong.TheVariants.{Left};

    ghost from_gives = { λ mismatch wrong. wrong ≡ Left mismatch.left };

    fn from(mismatch: Mismatch) -> Wrong {
        Wrong::Left(mismatch.left)
    }
}
