//! The number of moves of many subsets, by the pairs of vectors with a wanted size in common. They are counted of the
//! vectors, or of what these leave of the bounds, where that adds to less (`left_over`), where a table has room for them.
//!
//! The table has how many pairs there are of two sums, and with how many elements in common before; it begins with no
//! bounds, and each of the bounds, from the last to the first, is taken in, in the same table (`pair_sums`). It takes
//! two megabytes at most.
//!
//! Sums go up to that of the vectors, and what is in common before up to the greatest wanted size: pairs with more in
//! common are never wanted. Neither sum and what is in common before add to more than all: other cells are not used.
ghost use Rattle.std.specs.Prelude.{◌≡◌, ◌*◌, ◌%◌, ◌^◌, ◌≤◌, ◌<◌, [], length, replicate, if◌then◌else◌, IfSome};
ghost use Rattle.std.specs.Bool.{OnTrue};
ghost use Rattle.sgb_vec.specs.Limits.{most_vertices};
ghost use Rattle.sgb_gen.specs.Subsets.{is_wanted_size, moves_of_subsets, subsets_vectors};
ghost use Rattle.sgb_gen.specs.inner.SubsetsCounts.{HasNoneAbove};
ghost use Rattle.sgb_gen.specs.inner.SubsetsPairs.{HasCounts, HasMost, HasRoom, cell_count, pairs_among, pairs_of_sums};

use super::left_over::{Counted, lesser_of};
use super::pair_sums::{Sides, place_of_pairs, sum_up, take_in};
use super::sizes::WantedSizes;
use super::{Subsets, is_wanted};
use sgb_vec::Family;
use std::alloc::Global;

// A table has at most so many cells.
const MOST_CELLS: usize = 262_144;

// No table has room for a sum above this.
const MOST_TOTAL: usize = 511;

// So many vectors that are all joined are walked as soon as the greatest table is made, that of
// `subsets(62,-2,0,0,0,0,0x7fffffffffffffff,0)`.
const MOST_WALKED: u32 = 2_000;

impl Subsets {
    // The number of moves, by pairs: a move from one vector to another one is of two pairs, and one of a vector to
    // itself is of one. `None` of few vectors, where a table has no room, and when out of memory.
    pub(super) fn moves_by_pairs(&self, alloc: Global) -> Option<u64>
        ensures { IfSome result (λ n. n ≡ length (moves_of_subsets self.now)) }
    {
        if self.family.size() <= MOST_WALKED {
            return None;
        }
        let counted = lesser_of(self.sizes(), self.family.total(), self.size_bits);
        let sides = sides_of(counted);
        let pairs = self.pairs_of(counted.size_bits, sides, alloc)?;
        Some((pairs + self.loops_count()) / 2)
    }

    // How many pairs of vectors have a wanted size in common, where as many of another sum and with other wanted sizes
    // are counted. `None` where a table has no room, and when out of memory.
    fn pairs_of(&self, size_bits: u128, sides: Sides, alloc: Global) -> Option<u64>
        requires few { length (subsets_vectors self.now) ≤ most_vertices }
        requires same { pairs_of_sums size_bits self.now.sum.bounds sides.total sides.total 0
            ≡ pairs_of_sums self.now.size_bits self.now.sum.bounds self.now.sum.total self.now.sum.total 0 }
        requires most { HasMost size_bits sides.total sides.most }
        ensures count { IfSome result (λ n. n ≡ pairs_among self.now.size_bits 0
            (subsets_vectors self.now) (subsets_vectors self.now)) }
        ensures bounded { IfSome result (λ n. n ≤ most_vertices * most_vertices) }
    {
        pairs_found(self.sizes(), size_bits, sides, alloc)
    }

    // How many vectors have a wanted size in common with themselves: all of them or none.
    fn loops_count(&self) -> u64
        ensures count { result ≡ (if is_wanted_size self.now.size_bits self.now.sum.total
            then length (subsets_vectors self.now) else 0) }
        ensures few { result ≤ most_vertices }
    {
        if is_wanted(self.size_bits, u64::from(self.family.total())) {
            return u64::from(self.family.size());
        }
        0
    }
}

// What the vectors add to, and the greatest wanted size that two of them may have in common.
fn sides_of(counted: Counted) -> Sides
    ensures total { result.total ≡ counted.total }
    ensures most { HasMost counted.size_bits result.total result.most }
{
    let most = greatest_wanted(counted.size_bits).min(u64::from(counted.total));
    Sides {
        total: counted.total as usize,
        most: most as usize,
    }
}

// How many pairs of vectors of a sum have a wanted size in common. `None` where a table has no room, and when out of
// memory.
fn pairs_found(bounds: &[u32], size_bits: u128, sides: Sides, alloc: Global) -> Option<u64>
    requires most { HasMost size_bits sides.total sides.most }
    requires few { pairs_of_sums size_bits bounds.now sides.total sides.total 0 < 2 ^ 64 }
    ensures { IfSome result (λ n. n ≡ pairs_of_sums size_bits bounds.now sides.total sides.total 0) }
{
    if !has_room(sides) {
        return None;
    }
    let mut table = Vec::new(alloc);
    table.resize(cell_count(sides), 0).ok()?;
    Some(pairs_in(table.as_mut_slice(), bounds, size_bits, sides))
}

// The same with a table of zeros.
fn pairs_in(table: &mut [u64], bounds: &[u32], size_bits: u128, sides: Sides) -> u64
    requires most { HasMost size_bits sides.total sides.most }
    requires few { pairs_of_sums size_bits bounds.now sides.total sides.total 0 < 2 ^ 64 }
    requires room { HasRoom sides.total sides.most }
    requires zeros { table.old ≡ replicate (cell_count sides.total sides.most) 0 }
    ensures { result ≡ pairs_of_sums size_bits bounds.now sides.total sides.total 0 }
{
    put_ended(table, size_bits, sides);
    for k in (0..bounds.len()).rev() {
        sum_up(table, sides);
        take_in(table, sides, bounds[k] as usize);
    }
    table[place_of_pairs(sides, sides.total, sides.total, 0)]
}

// No wanted size is above this one.
fn greatest_wanted(size_bits: u128) -> u64
    ensures { HasNoneAbove size_bits result }
{
    WantedSizes::of(size_bits).last
}

// Whether a table has room for these sums and sizes.
fn has_room(sides: Sides) -> bool
    ensures { OnTrue result (HasRoom sides.total sides.most) }
{
    sides.total <= MOST_TOTAL && sides.most <= MOST_TOTAL && cell_count(sides) <= MOST_CELLS
}

// How many cells the table has.
fn cell_count(sides: Sides) -> usize
    requires total { sides.total < 512 }
    requires most { sides.most < 512 }
    ensures { result ≡ cell_count sides.total sides.most }
{
    (sides.total + 1) * (sides.total + 1) * (sides.most + 1)
}

// Makes a table of zeros that of no bounds: there is one vector, which adds to 0, and its pair with itself.
fn put_ended(table: &mut [u64], size_bits: u128, sides: Sides)
    requires room { HasRoom sides.total sides.most }
    requires zeros { table.old ≡ replicate (cell_count sides.total sides.most) 0 }
    ensures length { length table.new ≡ cell_count sides.total sides.most }
    ensures pairs { HasCounts sides.total sides.most (pairs_of_sums size_bits []) table.new }
{
    for common in 0..sides.most + 1 {
        table[common] = count_ended(size_bits, common);
    }
}

// A cell of it, where nothing is left to be placed.
fn count_ended(size_bits: u128, common: usize) -> u64
    ensures { result ≡ pairs_of_sums size_bits [] 0 0 common % 2 ^ 64 }
{
    if is_wanted(size_bits, common as u64) {
        return 1;
    }
    0
}
