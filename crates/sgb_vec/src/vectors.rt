//! The vectors of a family, from either end.
ghost use Rattle.std.specs.Prelude.{◌≡◌, ◌≤◌, ◌+◌, ◌-◌, [], Some, Contains, IfSome, IfNone, drop, length, nat_lt, slice_get, take};
ghost use Rattle.std.specs.Iterator.{YieldsFirstBy, YieldsLastBy, item_count};
ghost use Rattle.sgb_vec.specs.Limits.{most_dimensions};
ghost use Rattle.sgb_vec.specs.Ranges.{ComeAfter};

use crate::families::{Family, Vector};
use crate::steps::Steps;
use arrayvec::ArrayVec;
use std::marker::Model;

/// Vectors of a family, from either end. Each step goes by `next` or `prev` of the family and counts its visits anew.
/// Contracts see it as the list of the vectors that are still to come.
#[derive(Drop)]
pub struct Vectors<'a, F: Family> {
    family: &'a F,
    // Whether some are still to come: then `front` is the first of them, and `back` the last.
    more: bool,
    front: Vector,
    back: Vector,
}

impl<'a, F: Family> Model for Vectors<'a, F> {
    ghost use Rattle.std.specs.Prelude.{List, ℕ, IsTrue};
    ghost use Rattle.sgb_vec.specs.inner.Ranges.{AreEnds, from_to_if};

    ghost Value = { List (List ℕ) };

    ghost view = { λ v. from_to_if v.more (F.members v.family.now) v.front.items v.back.items };

    ghost invariant = { λ v. IsTrue v.more
        → AreEnds (F.members v.family.now) v.front.items v.back.items };
}

impl<'a, F: Family> Vectors<'a, F> {
    /// All vectors of the family, in order.
    pub fn all(family: &'a F) -> Vectors<'a, F>
        ensures { result ≡ F.members family.now }
    {
        let mut front = Vector::new();
        let mut back = Vector::new();
        let more = family.first(&mut front, &mut uncounted());
        let _some = family.last(&mut back, &mut uncounted());
        Vectors {
            family,
            more,
            front,
            back,
        }
    }

    /// The vectors of the family after this one, in order. `None` where it is no vector of the family.
    pub fn after(family: &'a F, vector: &[u32]) -> Option<Vectors<'a, F>>
        ensures after { IfSome result (λ vectors. ComeAfter (F.members family.now) vector.now
            vectors) }
        ensures none { IfNone result (¬ Contains (F.members family.now) vector.now) }
    {
        if vector.len() != family.dims() || !family.holds(vector) {
            return None;
        }
        let mut front = ArrayVec::try_from(vector).unwrap();
        let mut back = Vector::new();
        let more = family.next(&mut front, &mut uncounted());
        let _some = family.last(&mut back, &mut uncounted());
        Some(Vectors {
            family,
            more,
            front,
            back,
        })
    }

    /// The vector that comes next, where it stands; `None` where none is left.
    pub fn front(&self) -> Option<&[u32]>
        ensures first { IfSome result (λ vector. slice_get self.now 0 ≡ Some vector.now) }
        ensures short { IfSome result (λ vector. length vector.now ≤ most_dimensions + 1) }
        ensures none { IfNone result (self.now ≡ []) }
    {
        if !self.more {
            return None;
        }
        Some(self.front.as_slice())
    }

    /// Leaves out the vector that comes next. Returns whether there was one.
    pub fn advance(&mut self) -> bool
        ensures rest { self.new ≡ drop 1 self.old }
        ensures some { result ≡ nat_lt 0 (length self.old) }
    {
        if !self.more {
            return false;
        }
        if self.front.as_slice() == self.back.as_slice() {
            self.more = false;
            return true;
        }
        let _more = self.family.next(&mut self.front, &mut uncounted());
        true
    }

    /// The last vector, where it stands; `None` where none is left.
    pub fn back(&self) -> Option<&[u32]>
        ensures last { IfSome result (λ vector. slice_get self.now (length self.now - 1)
            ≡ Some vector.now) }
        ensures short { IfSome result (λ vector. length vector.now ≤ most_dimensions + 1) }
        ensures none { IfNone result (self.now ≡ []) }
    {
        if !self.more {
            return None;
        }
        Some(self.back.as_slice())
    }

    /// Leaves out the last vector. Returns whether there was one.
    pub fn retreat(&mut self) -> bool
        ensures rest { self.new ≡ take (length self.old - 1) self.old }
        ensures some { result ≡ nat_lt 0 (length self.old) }
    {
        if !self.more {
            return false;
        }
        if self.front.as_slice() == self.back.as_slice() {
            self.more = false;
            return true;
        }
        let _more = self.family.prev(&mut self.back, &mut uncounted());
        true
    }
}

// A count of visits that nobody reads.
fn uncounted() -> Steps
    ensures { result ≡ 0 }
{
    Steps::new()
}

impl<'a, F: Family> Iterator for Vectors<'a, F> {
    type Item = Vector;

    ghost next_gives = { YieldsFirstBy (λ v. v.items) (λ rest. rest) };

    ghost remaining = { item_count (λ rest. rest) };

    fn next(&mut self) -> Option<Vector> {
        if !self.more {
            return None;
        }
        let vector = ArrayVec::try_from(self.front.as_slice()).unwrap();
        let _some = self.advance();
        Some(vector)
    }
}

impl<'a, F: Family> DoubleEndedIterator for Vectors<'a, F> {
    ghost next_back_gives = { YieldsLastBy (λ v. v.items) (λ rest. rest) };

    fn next_back(&mut self) -> Option<Vector> {
        if !self.more {
            return None;
        }
        let vector = ArrayVec::try_from(self.back.as_slice()).unwrap();
        let _some = self.retreat();
        Some(vector)
    }
}
