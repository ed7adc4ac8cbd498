//! Displacements with the coordinates that they move.
ghost use Rattle.std.specs.Prelude.{◌≡◌, ◌<◌, ◌≤◌, length, All, if◌then◌else◌};
ghost use Rattle.sgb_vec.specs.Limits.{most_dimensions};
ghost use Rattle.sgb_moves.specs.MovedCoordinates.{parts_of};

use arrayvec::ArrayVec;
use std::marker::Model;

/// A coordinate that a displacement moves: its number, counted from 0, and how far it goes for each unit of length.
pub type Part = (usize, i32);

/// The coordinates that a displacement moves.
pub type Parts = ArrayVec<Part, 250>;

/// A displacement, with the coordinates that it moves, so that no other is looked at. Contracts see the displacement.
#[derive(Drop)]
pub struct Step<'a> {
    entries: &'a [i32],
    parts: &'a [Part],
}

impl<'a> Model for Step<'a> {
    ghost use Rattle.std.specs.Prelude.{◌≡◌, List, ℤ};
    ghost use Rattle.sgb_moves.specs.MovedCoordinates.{parts_of};

    ghost Value = { List ℤ };

    ghost view = { λ s. s.entries.now };

    ghost invariant = { λ s. s.parts.now ≡ parts_of s.entries.now };
}

impl<'a> Step<'a> {
    /// The displacement of these entries, which moves these coordinates.
    pub fn of(entries: &'a [i32], parts: &'a [Part]) -> Step<'a>
        requires { parts.now ≡ parts_of entries.now }
        ensures { result ≡ entries.now }
    {
        Step { entries, parts }
    }

    /// All entries.
    pub fn entries(&self) -> &[i32]
        ensures { result.now ≡ self.now }
    {
        self.entries
    }

    /// The coordinates that it moves, for as long as they are kept.
    pub fn into_parts(self) -> &'a [Part]
        ensures { result.now ≡ parts_of self.entry }
    {
        self.parts
    }

    /// The coordinates that it moves.
    pub fn parts(&self) -> &[Part]
        ensures parts { result.now ≡ parts_of self.now }
        ensures within { All (λ p. p.0 < length self.now) result.now }
    {
        self.parts
    }
}

/// The first of two displacements where `first`, and else the second.
pub fn either<'s>(first: bool, one: &'s Step<'_>, other: &'s Step<'_>) -> Step<'s>
    ensures { result ≡ if first then one.now else other.now }
{
    if first {
        return Step::of(one.entries(), one.parts());
    }
    Step::of(other.entries(), other.parts())
}

/// Puts the coordinates that a displacement moves into `parts`.
pub fn put_parts_of(entries: &[i32], parts: &mut Parts)
    requires { length entries.now ≤ most_dimensions }
    ensures { parts.new.items ≡ parts_of entries.now }
{
    parts.clear();
    for (k, entry) in entries.iter().enumerate() {
        if *entry == 0 {
            continue;
        }
        parts.push((k, *entry));
    }
}
