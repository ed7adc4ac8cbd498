//! Displacements that are kept, for walks that are made again and again.
//!
//! Each is also kept turned round, and with each coordinate that moves its number: of 49,152 entries that takes a few
//! megabytes.
ghost use Rattle.std.specs.Prelude.{◌≡◌, ◌<◌, ◌≤◌, ◌/◌, length, take, drop, nat_abs, slice_get, Some, All, IfSome};
ghost use Rattle.sgb_vec.specs.Limits.{most_dimensions};
ghost use Rattle.sgb_moves.specs.Limits.{most_piece};
ghost use Rattle.sgb_moves.specs.Moves.{opposite};

use sgb_moves::{
    Displacement, FallingDisplacements, Part, Parts, Step, put_opposite, put_parts_of,
};
use std::alloc::Global;
use std::marker::Model;

// A table has at most so many entries of displacements.
const MOST_ENTRIES: usize = 49_152;

/// A displacement and its opposite. Contracts see the displacement.
#[derive(Drop)]
pub(crate) struct KeptPair {
    // The entries of the displacement, and behind them those of its opposite; the coordinates that they move stand so, too.
    entries: Vec<i32>,
    parts: Vec<Part>,
}

impl Model for KeptPair {
    ghost use Rattle.std.specs.Prelude.{◌≡◌, ◌/◌, List, ℤ, length, take, drop};
    ghost use Rattle.sgb_moves.specs.Moves.{opposite};
    ghost use Rattle.sgb_moves.specs.MovedCoordinates.{parts_of};

    ghost Value = { List ℤ };

    ghost view = { λ p. take (length p.entries.items / 2) p.entries.items };

    ghost invariant = { λ p. (drop (length p.entries.items / 2) p.entries.items
        ≡ opposite (take (length p.entries.items / 2) p.entries.items))
        × (take (length p.parts.items / 2) p.parts.items
        ≡ parts_of (take (length p.entries.items / 2) p.entries.items))
        × (drop (length p.parts.items / 2) p.parts.items
        ≡ parts_of (drop (length p.entries.items / 2) p.entries.items)) };
}

impl KeptPair {
    // This displacement and its opposite. `None` out of memory. `turned` and the parts are what they are found with: what
    // these hold is open.
    fn new(
        alloc: Global,
        t: &[i32],
        turned: &mut Displacement,
        parts: &mut Parts,
        turned_parts: &mut Parts,
    ) -> Option<KeptPair>
        requires few { length t.now ≤ most_dimensions }
        requires small { All (λ e. nat_abs e ≤ most_piece) t.now }
        ensures { IfSome result (λ p. p ≡ t.now) }
    {
        put_opposite(t, turned);
        put_parts_of(t, parts);
        put_parts_of(turned.as_slice(), turned_parts);
        let entries = kept_both(alloc, t, turned.as_slice())?;
        let parts = kept_both(alloc, parts.as_slice(), turned_parts.as_slice())?;
        Some(KeptPair { entries, parts })
    }

    /// The displacement.
    pub(crate) fn ahead(&self) -> Step<'_>
        ensures { result ≡ self.now }
    {
        Step::of(
            first_half(self.entries.as_slice()),
            first_half(self.parts.as_slice()),
        )
    }

    /// The greatest size of its entries.
    pub(crate) fn widest(&self) -> u32
        ensures { All (λ e. nat_abs e ≤ result) self.now }
    {
        let mut widest = 0;
        for entry in self.ahead().entries() {
            widest = widest.max(entry.unsigned_abs());
        }
        widest
    }

    /// Its opposite.
    pub(crate) fn back(&self) -> Step<'_>
        ensures { result ≡ opposite self.now }
    {
        Step::of(
            second_half(self.entries.as_slice()),
            second_half(self.parts.as_slice()),
        )
    }
}

// The first half of the items.
fn first_half<T>(items: &[T]) -> &[T]
    ensures { result.now ≡ take (length items.now / 2) items.now }
{
    &items[..items.len() / 2]
}

// The items behind the first half of them.
fn second_half<T>(items: &[T]) -> &[T]
    ensures { result.now ≡ drop (length items.now / 2) items.now }
{
    &items[items.len() / 2..]
}

// As many items and others, kept behind them. `None` out of memory.
fn kept_both<T: Copy>(alloc: Global, items: &[T], others: &[T]) -> Option<Vec<T>>
    requires { length others.now ≡ length items.now }
    ensures first { IfSome result (λ v. take (length v.items / 2) v.items ≡ items.now) }
    ensures second { IfSome result (λ v. drop (length v.items / 2) v.items ≡ others.now) }
{
    let mut kept = Vec::with_capacity(alloc, items.len().saturating_add(others.len())).ok()?;
    kept.extend_from_slice(items).ok()?;
    kept.extend_from_slice(others).ok()?;
    Some(kept)
}

/// Displacements, each with its opposite. Contracts see them as a list.
#[derive(Drop)]
pub(crate) struct DisplacementTable {
    // From the last one to the first.
    kept: Vec<KeptPair>,
}

impl Model for DisplacementTable {
    ghost use Rattle.std.specs.Prelude.{List, ℤ, reverse};

    ghost Value = { List (List ℤ) };

    ghost view = { λ d. reverse d.kept.items };
}

impl DisplacementTable {
    /// How many displacements of so many entries a table has at most.
    pub(crate) fn most(width: usize) -> usize
        ensures { result ≤ 49152 }
    {
        MOST_ENTRIES / width.max(1)
    }

    /// These displacements. `None` where there are more than `most`, or out of memory.
    pub(crate) fn new(
        alloc: Global,
        most: usize,
        left: FallingDisplacements,
    ) -> Option<DisplacementTable>
        requires small { All (λ t. All (λ e. nat_abs e ≤ most_piece) t) left }
        ensures { IfSome result (λ d. d ≡ left) }
    {
        let mut turned = Displacement::new();
        let mut parts = Parts::new();
        let mut turned_parts = Parts::new();
        let mut left = left;
        let mut kept = Vec::new(alloc);
        while let Some(t) = left.back() {
            if kept.len() >= most {
                return None;
            }
            let pair = KeptPair::new(alloc, t, &mut turned, &mut parts, &mut turned_parts)?;
            let Ok(()) = kept.push(pair) else {
                return None;
            };
            left.retreat();
        }
        Some(DisplacementTable { kept })
    }

    /// How many displacements there are.
    pub(crate) fn len(&self) -> usize
        ensures { result ≡ length self.now }
    {
        self.kept.len()
    }

    /// The displacement at this place, counted from 0.
    pub(crate) fn at(&self, place: usize) -> &KeptPair
        requires { place < length self.now }
        ensures { slice_get self.now place ≡ Some result.now }
    {
        &self.kept[self.kept.len() - 1 - place]
    }
}
