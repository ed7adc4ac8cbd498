ghost use Rattle.std.specs.Prelude.{◌≡◌};

use std::alloc::{AllocError, AllocFailed};

/// Why a graph is refused: the panic codes of GB_GRAPH that this library gives.
#[derive(Clone, Copy, Debug, PartialEq, Eq, Hash)]
pub enum Panic {
    /// Out of memory.
    NoRoom,
    /// The head of a `.gb` file is wrong.
    Early,
    /// The end of a `.gb` file is wrong.
    Late,
    /// A record of a `.gb` file is wrong.
    Syntax,
    /// Parameters that make no sense.
    Bad,
    /// Parameters that ask for too much.
    VeryBad,
    /// A graph that the operation cannot take.
    Invalid,
}

impl Panic {
    ghost use Rattle.sgb_vec.specs.Codes.{code_of};

    /// The number that GraphBase prints: 1, 10, 11, 20, 30, 40 or 60 (GB_GRAPH, panic codes).
    pub fn code(self) -> u8
        ensures { result ≡ code_of self }
    {
        match self {
            Panic::NoRoom => 1,
            Panic::Early => 10,
            Panic::Late => 11,
            Panic::Syntax => 20,
            Panic::Bad => 30,
            Panic::VeryBad => 40,
            Panic::Invalid => 60,
        }
    }
}

impl From<AllocError> for Panic {
    ghost use Rattle.sgb_vec.specs.declared.panics.Panic.TheVariants.{NoRoom};

    ghost from_gives = { λ _ panic. panic ≡ NoRoom };

    fn from(_refused: AllocError) -> Panic {
        Panic::NoRoom
    }
}

impl<T: Drop> From<AllocFailed<T>> for Panic {
    ghost use Rattle.sgb_vec.specs.declared.panics.Panic.TheVariants.{NoRoom};

    ghost from_gives = { λ _ panic. panic ≡ NoRoom };

    fn from(_refused: AllocFailed<T>) -> Panic {
        Panic::NoRoom
    }
}
