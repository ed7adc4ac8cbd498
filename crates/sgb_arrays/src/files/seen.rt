//! Bytes that only clauses read.
//!
//! They stand in a ghost field alone. `Seen::of`, which makes such a value, is proved by hand.
ghost use Rattle.std.specs.Prelude.{◌≡◌, ℕ, List, [], ◌++◌};

use std::marker::{Model, PhantomData};

/// Bytes that were seen. Only clauses read them: the value itself has none.
#[derive(Drop)]
pub(crate) struct Seen {
    marker: PhantomData<()>,
    pub ghost bytes: { List ℕ },
}

impl Model for Seen {
    ghost use base.Fml.{ftrue};

    ghost also_owns = { λ _. ftrue };
}

impl Seen {
    // These bytes, which are told of this value.
    fn of<X>(_told: &X) -> Seen
        ghost value: { List ℕ }
        ensures { result.bytes ≡ value }
    {
        Seen {
            marker: PhantomData,
        }
    }

    /// None yet.
    pub(crate) fn none() -> Seen
        ensures { result.bytes ≡ [] }
    {
        Seen::of(&())
    }
}

/// Sees these bytes too.
pub(crate) fn see(seen: &mut Seen, bytes: &[u8])
    ensures { seen.new.bytes ≡ seen.old.bytes ++ bytes.now }
{
    let told = (&*seen, bytes);
    *seen = Seen::of(&told);
}
