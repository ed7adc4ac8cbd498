//! What a family of vectors is.
//!
//! A copy of a vector moves a thousand bytes. So members are put into a vector that is handed in, and walks look at
//! them where they stand (`Vectors::front`).
//!
//! What a member's entries are is a clause of `dims` and no law of the trait: a law speaks of all values of the type's
//! model, and there a size may be any number.
ghost use Rattle.std.specs.Prelude.{◌≡◌, ◌≤◌, ◌^◌, ℕ, ◌↔◌, List, [], IsTrue, Contains, Some, length, slice_get};
ghost use Rattle.std.specs.Bool.{OnTrue, OnFalse};
ghost use Rattle.sgb_vec.specs.Lexicographic.{IsRising};
ghost use Rattle.sgb_vec.specs.NamedVectors.{IsVector};
ghost use Rattle.sgb_vec.specs.Order.{HasNoneBefore, IsFinal, IsFirst, IsLast, IsNext, IsPrevious};
ghost use Rattle.sgb_vec.specs.Visits.{HasVisited, changed_entries};

use crate::steps::Steps;
use arrayvec::ArrayVec;

/// A vector of at most 251 entries, kept in place.
pub type Vector = ArrayVec<u32, 251>;

/// A finite list of vectors of one length, walked one vector at a time, from either end.
///
/// Each step counts the entries that it visits, at most two for each entry; `next` and `prev` count at least as many as
/// they change.
pub trait Family {
    // The members, in order.
    ghost members: { Self → List (List ℕ) };

    // How many entries each member has.
    ghost width: { Self → ℕ };

    /// How many entries each member has: at most 251, each below 2^32.
    fn dims(&self) -> usize
        ensures width { result ≡ width self.now }
        ensures vectors { (v : List ℕ) → Contains (members self.now) v → IsVector v };

    /// How many members there are.
    fn size(&self) -> u32
        ensures { result ≡ length (members self.now) };

    /// Whether the vector is a member.
    fn holds(&self, vector: &[u32]) -> bool
        ensures { IsTrue result ↔ Contains (members self.now) vector.now };

    /// Puts the member at this place, counted from 0, into `vector`. `false` where there are not so many, and `vector` is
    /// then as before.
    fn at(&self, place: u32, vector: &mut Vector) -> bool
        ensures found { OnTrue result (slice_get (members self.now) place
            ≡ Some vector.new.items) }
        ensures none { OnFalse result (length (members self.now) ≤ place) }
        ensures unchanged { OnFalse result (vector.new.items ≡ vector.old.items) };

    /// Puts the first member into `vector`. `false` where there is none, and `vector` is then as before.
    fn first(&self, vector: &mut Vector, steps: &mut Steps) -> bool
        requires { steps.old ≤ 2 ^ 63 }
        ensures found { OnTrue result (IsFirst (members self.now) vector.new.items) }
        ensures empty { OnFalse result (members self.now ≡ []) }
        ensures unchanged { OnFalse result (vector.new.items ≡ vector.old.items) }
        ensures visits { HasVisited (width self.now) 0 steps.old steps.new };

    /// Puts the last member into `vector`. `false` where there is none, and `vector` is then as before.
    fn last(&self, vector: &mut Vector, steps: &mut Steps) -> bool
        requires { steps.old ≤ 2 ^ 63 }
        ensures found { OnTrue result (IsFinal (members self.now) vector.new.items) }
        ensures empty { OnFalse result (members self.now ≡ []) }
        ensures unchanged { OnFalse result (vector.new.items ≡ vector.old.items) }
        ensures visits { HasVisited (width self.now) 0 steps.old steps.new };

    /// Puts the member after `vector` into it. `false` at the last, and `vector` is then as before.
    fn next(&self, vector: &mut Vector, steps: &mut Steps) -> bool
        requires member { Contains (members self.now) vector.old.items }
        requires count { steps.old ≤ 2 ^ 63 }
        ensures found { OnTrue result (IsNext (members self.now) vector.old.items
            vector.new.items) }
        ensures last { OnFalse result (IsLast (members self.now) vector.old.items) }
        ensures unchanged { OnFalse result (vector.new.items ≡ vector.old.items) }
        ensures visits { HasVisited (width self.now)
            (changed_entries vector.old.items vector.new.items) steps.old steps.new };

    /// Puts the member before `vector` into it. `false` at the first, and `vector` is then as before.
    fn prev(&self, vector: &mut Vector, steps: &mut Steps) -> bool
        requires member { Contains (members self.now) vector.old.items }
        requires count { steps.old ≤ 2 ^ 63 }
        ensures found { OnTrue result (IsPrevious (members self.now) vector.old.items
            vector.new.items) }
        ensures first { OnFalse result (HasNoneBefore (members self.now) vector.old.items) }
        ensures unchanged { OnFalse result (vector.new.items ≡ vector.old.items) }
        ensures visits { HasVisited (width self.now)
            (changed_entries vector.old.items vector.new.items) steps.old steps.new };

    // Each member has that many entries.
    ghost each_width: { (f : Self) (v : List ℕ) → Contains (members f) v → length v ≡ width f };

    // The members rise in lexicographic order, so that each stands once.
    ghost rising: { (f : Self) → IsRising (members f) };
}
