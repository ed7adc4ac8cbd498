//! The vectors of a box.
//!
//! The place of a member is its mixed radix number, so `at` and `place_of` walk nothing.
ghost use Rattle.std.specs.Prelude.{◌≡◌, ◌+◌, ◌-◌, ◌<◌, ◌≤◌, ◌^◌, ◌↔◌, ℕ, length, map, replicate, All, Contains, IsTrue, IfSome, IfNone, Some, slice_index, slice_get, nat_lt, if◌then◌else◌};
ghost use Rattle.std.specs.Bool.{OnTrue, OnFalse};
ghost use Rattle.std.specs.List.{AllZip, list_all, zip};
ghost use Rattle.sgb_vec.specs.Limits.{most_vertices};
ghost use Rattle.sgb_vec.specs.Boxes.{box, product_of};
ghost use Rattle.sgb_vec.specs.Lexicographic.{IsBelow};
ghost use Rattle.sgb_vec.specs.Order.{HasNoneBefore, IsLast, IsNext, IsPrevious};
ghost use Rattle.sgb_vec.specs.Visits.{HasVisited, changed_entries};

use crate::entries::{count_of, put_zeros};
use crate::families::{Family, Vector};
use crate::limits::MOST_VERTICES;
use crate::panics::Panic;
use crate::steps::Steps;
use arrayvec::ArrayVec;
use std::marker::Model;

/// The vectors of a box: all `(x1, .., xd)` with `xk` below the k-th size, in lexicographic order
/// (GB_BASIC, board). At most 250 sizes and 1,000,000,000 vectors. Contracts see it as its sizes.
#[derive(Drop)]
pub struct BoxFamily {
    sizes: ArrayVec<u32, 250>,
    count: u32,
}

impl Model for BoxFamily {
    ghost use Rattle.std.specs.Prelude.{List, ℕ, ◌≡◌, ◌≤◌};
    ghost use Rattle.sgb_vec.specs.Limits.{most_vertices};
    ghost use Rattle.sgb_vec.specs.Boxes.{product_of};
    // For the search alone.
    ghost use Rattle.std.specs.Prelude.{length};

    ghost Value = { List ℕ };

    ghost view = { λ b. b.sizes.items };

    ghost invariant = { λ b. (b.count ≡ product_of b.sizes.items) × (b.count ≤ most_vertices) };
}

impl BoxFamily {
    ghost use Rattle.sgb_vec.specs.Boxes.{box_of};

    /// The box of these sizes; a size of 0 makes it empty.
    ///
    /// `Bad` above 250 sizes; else `VeryBad` where the exact product of the sizes is above 1,000,000,000.
    pub fn new(sizes: &[u32]) -> Result<BoxFamily, Panic>
        ensures { result ≡ box_of sizes.now }
    {
        let Ok(kept) = ArrayVec::try_from(sizes) else {
            return Err(Panic::Bad);
        };
        let count = vector_count(sizes).ok_or(Panic::VeryBad)?;
        Ok(BoxFamily { sizes: kept, count })
    }

    /// The place of a member among the vectors, counted from 0. It is computed, with no search.
    pub fn place_of(&self, vector: &[u32]) -> u32
        requires { IsBelow vector.now self.now }
        ensures { slice_get (box self.now) result ≡ Some vector.now }
    {
        self.place_if_there(vector)
    }

    /// The same, for a vector that is known to be a member by those who read the place alone: of any other the number tells
    /// nothing.
    #[inline(always)]
    pub fn place_if_there(&self, vector: &[u32]) -> u32
        ensures { IsBelow vector.now self.now → slice_get (box self.now) result ≡ Some vector.now }
    {
        place_among(self.sizes.as_slice(), vector)
    }
}

impl Family for BoxFamily {
    ghost members = { box };

    ghost width = { length };

    fn dims(&self) -> usize {
        count_of(self.sizes.as_slice())
    }

    fn size(&self) -> u32 {
        self.count
    }

    fn holds(&self, vector: &[u32]) -> bool {
        each_below(vector, self.sizes.as_slice())
    }

    // It is computed: no vector before it is made.
    fn at(&self, place: u32, vector: &mut Vector) -> bool {
        if place >= self.count {
            return false;
        }
        if vector.len() != self.sizes.len() {
            put_zeros(vector, self.sizes.len(), &mut Steps::new());
        }
        put_at(self.sizes.as_slice(), vector.as_mut_slice(), place);
        true
    }

    fn first(&self, vector: &mut Vector, steps: &mut Steps) -> bool {
        if self.size() == 0 {
            return false;
        }
        put_zeros(vector, self.sizes.len(), steps);
        true
    }

    fn last(&self, vector: &mut Vector, steps: &mut Steps) -> bool {
        if self.size() == 0 {
            return false;
        }
        put_zeros(vector, self.sizes.len(), steps);
        put_tops(self.sizes.as_slice(), vector.as_mut_slice(), steps);
        true
    }

    fn next(&self, vector: &mut Vector, steps: &mut Steps) -> bool {
        advance(self.sizes.as_slice(), vector.as_mut_slice(), steps)
    }

    fn prev(&self, vector: &mut Vector, steps: &mut Steps) -> bool {
        retreat(self.sizes.as_slice(), vector.as_mut_slice(), steps)
    }

    ghost use Rattle.sgb_vec.specs.inner.BoxWidth.{length-box_member};

    ghost each_width = { length-box_member };

    ghost use Rattle.sgb_vec.specs.inner.Rising.{box_vectors_rise};

    ghost rising = { box_vectors_rise };
}

// The product of the sizes, where it is at most the number of vertices that a graph may have. A size of
// 0 is looked for first: the product is then 0, however great the other sizes are.
fn vector_count(sizes: &[u32]) -> Option<u32>
    ensures { result ≡ (if nat_lt most_vertices (product_of sizes.now) then None else Some
        (product_of sizes.now)) }
{
    if sizes.contains(&0) {
        return Some(0);
    }
    let mut product: u64 = 1;
    for size in sizes {
        product *= u64::from(*size);
        if product > u64::from(MOST_VERTICES) {
            return None;
        }
    }
    Some(product as u32)
}

// Whether there are as many entries as sizes, each below its size.
fn each_below(entries: &[u32], sizes: &[u32]) -> bool
    ensures { IsTrue result ↔ AllZip (λ x s. x < s) entries.now sizes.now }
{
    entries.len() == sizes.len() && pairs_below(entries, sizes)
}

// Whether each entry is below the size beside it.
fn pairs_below(entries: &[u32], sizes: &[u32]) -> bool
    ensures { result ≡ list_all (λ p. nat_lt p.0 p.1) (zip entries.now sizes.now) }
{
    entries.iter().zip(sizes).all(|(x, s)| *x < *s)
}

// The place of a vector among those of the box of these sizes, if it is one of them: nothing then wraps.
#[inline(always)]
fn place_among(sizes: &[u32], vector: &[u32]) -> u32
    requires { product_of sizes.now ≤ most_vertices }
    ensures { IsBelow vector.now sizes.now → slice_get (box sizes.now) result ≡ Some vector.now }
{
    if vector.len() > sizes.len() {
        return 0;
    }
    let mut place: u32 = 0;
    for (k, entry) in vector.iter().enumerate() {
        place = place.wrapping_mul(sizes[k]).wrapping_add(*entry);
    }
    place
}

// Makes `entries` the vector at this place among those of the box of these sizes: its digits in mixed radix, the last
// one first.
fn put_at(sizes: &[u32], entries: &mut [u32], place: u32)
    requires same_length { length entries.old ≡ length sizes.now }
    requires within { place < product_of sizes.now }
    ensures { slice_get (box sizes.now) place ≡ Some entries.new }
{
    let mut rest = place;
    for k in (0..sizes.len()).rev() {
        let size = sizes[k];
        entries[k] = rest % size;
        rest /= size;
    }
}

// Makes all entries zeros.
fn clear(entries: &mut [u32], steps: &mut Steps)
    requires { steps.old + length entries.old < 2 ^ 64 }
    ensures zeros { entries.new ≡ replicate (length entries.old) 0 }
    ensures visits { steps.new ≡ steps.old + length entries.old }
{
    for place in 0..entries.len() {
        steps.visit();
        entries[place] = 0;
    }
}

// Makes each entry as great as the size beside it lets it be.
fn put_tops(sizes: &[u32], entries: &mut [u32], steps: &mut Steps)
    requires same_length { length entries.old ≡ length sizes.now }
    requires some { All (λ s. 0 < s) sizes.now }
    requires count { steps.old + length entries.old < 2 ^ 64 }
    ensures tops { entries.new ≡ map (λ s. s - 1) sizes.now }
    ensures visits { steps.new ≡ steps.old + length entries.old }
{
    for place in 0..sizes.len() {
        steps.visit();
        entries[place] = sizes[place] - 1;
    }
}

// The last place whose entry can grow by 1.
fn last_below_top(sizes: &[u32], entries: &[u32], steps: &mut Steps) -> Option<usize>
    requires below { AllZip (λ x s. x < s) entries.now sizes.now }
    requires count { steps.old + length entries.now < 2 ^ 64 }
    ensures below { IfSome result (λ p. (p < length entries.now)
        × (slice_index entries.now p + 1 < slice_index sizes.now p)) }
    ensures top_after { IfSome result
        (λ p. (k : ℕ) → p < k → k < length entries.now → slice_index entries.now k + 1
        ≡ slice_index sizes.now k) }
    ensures all_top { IfNone result
        ((k : ℕ) → k < length entries.now → slice_index entries.now k + 1
        ≡ slice_index sizes.now k) }
    ensures visits { IfSome result (λ p. steps.new + p ≡ steps.old + length entries.now) }
    ensures all_visited { IfNone result (steps.new ≡ steps.old + length entries.now) }
{
    for place in (0..sizes.len()).rev() {
        steps.visit();
        if entries[place] + 1 < sizes[place] {
            return Some(place);
        }
    }
    None
}

// The last place whose entry is not 0.
fn last_above_zero(entries: &[u32], steps: &mut Steps) -> Option<usize>
    requires { steps.old + length entries.now < 2 ^ 64 }
    ensures above { IfSome result (λ p. (p < length entries.now)
        × (0 < slice_index entries.now p)) }
    ensures zero_after { IfSome result
        (λ p. (k : ℕ) → p < k → k < length entries.now → slice_index entries.now k ≡ 0) }
    ensures all_zero { IfNone result
        ((k : ℕ) → k < length entries.now → slice_index entries.now k ≡ 0) }
    ensures visits { IfSome result (λ p. steps.new + p ≡ steps.old + length entries.now) }
    ensures all_visited { IfNone result (steps.new ≡ steps.old + length entries.now) }
{
    for place in (0..entries.len()).rev() {
        steps.visit();
        if entries[place] > 0 {
            return Some(place);
        }
    }
    None
}

// Puts the member after `entries` into it: the last entry that can grow grows, and 0 stands after it.
// `false` where none can, and `entries` is then as before.
fn advance(sizes: &[u32], entries: &mut [u32], steps: &mut Steps) -> bool
    requires member { Contains (box sizes.now) entries.old }
    requires few { length entries.old ≤ 251 }
    requires count { steps.old ≤ 2 ^ 63 }
    ensures found { OnTrue result (IsNext (box sizes.now) entries.old entries.new) }
    ensures last { OnFalse result (IsLast (box sizes.now) entries.old) }
    ensures unchanged { OnFalse result (entries.new ≡ entries.old) }
    ensures visits { HasVisited (length sizes.now) (changed_entries entries.old entries.new)
        steps.old steps.new }
{
    let Some(place) = last_below_top(sizes, entries, steps) else {
        return false;
    };
    entries[place] += 1;
    clear(&mut entries[place + 1..], steps);
    true
}

// Puts the member before `entries` into it: the last entry that is not 0 falls, and those after it become as great as they
// can be. `false` where all are 0, and `entries` is then as before.
fn retreat(sizes: &[u32], entries: &mut [u32], steps: &mut Steps) -> bool
    requires member { Contains (box sizes.now) entries.old }
    requires few { length entries.old ≤ 251 }
    requires count { steps.old ≤ 2 ^ 63 }
    ensures found { OnTrue result (IsPrevious (box sizes.now) entries.old entries.new) }
    ensures first { OnFalse result (HasNoneBefore (box sizes.now) entries.old) }
    ensures unchanged { OnFalse result (entries.new ≡ entries.old) }
    ensures visits { HasVisited (length sizes.now) (changed_entries entries.old entries.new)
        steps.old steps.new }
{
    let Some(place) = last_above_zero(entries, steps) else {
        return false;
    };
    entries[place] -= 1;
    put_tops(&sizes[place + 1..], &mut entries[place + 1..], steps);
    true
}
