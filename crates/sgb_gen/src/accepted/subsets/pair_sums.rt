//! One bound more in a table of pairs, in the same table.
//!
//! The pairs are taken by the lesser of their first entries. Where it is known, one of the two sums that are left is known too,
//! and the other one is among some in a row: running sums tell how many pairs there are. So the table is turned into running
//! sums first, and then, from its last cell to its first, into that with the bound.
ghost use Rattle.std.specs.Prelude.{◌≡◌, ◌+◌, ◌%◌, ◌^◌, ◌≤◌, ◌<◌, ◌∷◌, ℕ, List, max, length};
ghost use Rattle.sgb_gen.specs.inner.SubsetsPairs.{AreSummed, HasCounts, HasMost, HasRoom, IsTurned, cell_count, pairs_below, pairs_of_sums, pairs_up_to, place_of_pairs};

// What a table has room for: sums up to the total, and at most so many elements in common before.
#[derive(Clone, Copy)]
pub(super) struct Sides {
    pub total: usize,
    pub most: usize,
}

// Where the table has these two sums, with what is in common before.
#[inline(always)]
pub(super) fn place_of_pairs(sides: Sides, first: usize, second: usize, common: usize) -> usize
    requires room { HasRoom sides.total sides.most }
    requires first { first ≤ sides.total }
    requires second { second ≤ sides.total }
    requires common { common ≤ sides.most }
    ensures same { result ≡ place_of_pairs sides.total sides.most first second common }
    ensures within { result < cell_count sides.total sides.most }
{
    (first * (sides.total + 1) + second) * (sides.most + 1) + common
}

// Turns the cells into running sums: each has all pairs with sums up to its own ones.
pub(super) fn sum_up(table: &mut [u64], sides: Sides)
    requires room { HasRoom sides.total sides.most }
    requires length { length table.old ≡ cell_count sides.total sides.most }
    ensures length { length table.new ≡ cell_count sides.total sides.most }
    ensures summed { (size_bits : ℕ) (bounds : List ℕ)
        → HasCounts sides.total sides.most (pairs_of_sums size_bits bounds) table.old
        → HasCounts sides.total sides.most (pairs_up_to size_bits bounds) table.new }
{
    for first in 0..sides.total + 1 {
        sum_up_row(table, sides, first);
    }
}

// Those of one sum of the first vector.
fn sum_up_row(table: &mut [u64], sides: Sides, first: usize)
    requires room { HasRoom sides.total sides.most }
    requires first { first ≤ sides.total }
    requires length { length table.old ≡ cell_count sides.total sides.most }
    ensures length { length table.new ≡ cell_count sides.total sides.most }
    ensures summed { (size_bits : ℕ) (bounds : List ℕ)
        → IsTurned sides.total sides.most (place_of_pairs sides.total sides.most first 0 0)
        (pairs_up_to size_bits bounds) (pairs_of_sums size_bits bounds) table.old
        → IsTurned sides.total sides.most (place_of_pairs sides.total sides.most (first + 1) 0 0)
        (pairs_up_to size_bits bounds) (pairs_of_sums size_bits bounds) table.new }
{
    for second in 0..sides.total + 1 {
        sum_up_cells(table, sides, first, second);
    }
}

// Those of two sums.
fn sum_up_cells(table: &mut [u64], sides: Sides, first: usize, second: usize)
    requires room { HasRoom sides.total sides.most }
    requires first { first ≤ sides.total }
    requires second { second ≤ sides.total }
    requires length { length table.old ≡ cell_count sides.total sides.most }
    ensures length { length table.new ≡ cell_count sides.total sides.most }
    ensures summed { (size_bits : ℕ) (bounds : List ℕ)
        → IsTurned sides.total sides.most (place_of_pairs sides.total sides.most first second 0)
        (pairs_up_to size_bits bounds) (pairs_of_sums size_bits bounds) table.old
        → IsTurned sides.total sides.most (place_of_pairs sides.total sides.most first (second + 1) 0)
        (pairs_up_to size_bits bounds) (pairs_of_sums size_bits bounds) table.new }
{
    for common in 0..sides.most + 1 {
        sum_up_cell(table, sides, first, second, common);
    }
}

// One of them, where it is used.
fn sum_up_cell(table: &mut [u64], sides: Sides, first: usize, second: usize, common: usize)
    requires room { HasRoom sides.total sides.most }
    requires first { first ≤ sides.total }
    requires second { second ≤ sides.total }
    requires common { common ≤ sides.most }
    requires length { length table.old ≡ cell_count sides.total sides.most }
    ensures length { length table.new ≡ cell_count sides.total sides.most }
    ensures summed { (size_bits : ℕ) (bounds : List ℕ)
        → IsTurned sides.total sides.most (place_of_pairs sides.total sides.most first second common)
        (pairs_up_to size_bits bounds) (pairs_of_sums size_bits bounds) table.old
        → IsTurned sides.total sides.most (place_of_pairs sides.total sides.most first second common + 1)
        (pairs_up_to size_bits bounds) (pairs_of_sums size_bits bounds) table.new }
{
    if first.max(second) + common > sides.total {
        return;
    }
    let place = place_of_pairs(sides, first, second, common);
    let row = pairs_below(table, sides, first, second + 1, common);
    let column = pairs_below(table, sides, first + 1, second, common);
    let both = pairs_below(table, sides, first, second, common);
    table[place] = with_sums(table[place], row, column, both);
}

// A cell with the sums before it in its row and in its column. These have some in common.
fn with_sums(cell: u64, row: u64, column: u64, both: u64) -> u64
    ensures { (result + both) % 2 ^ 64 ≡ (cell + row + column) % 2 ^ 64 }
{
    cell.wrapping_add(row)
        .wrapping_add(column)
        .wrapping_sub(both)
}

// How many pairs have sums below these two, by running sums.
#[inline(always)]
fn pairs_below(table: &[u64], sides: Sides, first: usize, second: usize, common: usize) -> u64
    requires room { HasRoom sides.total sides.most }
    requires first { first ≤ sides.total + 1 }
    requires second { second ≤ sides.total + 1 }
    requires common { common ≤ sides.most }
    requires length { length table.now ≡ cell_count sides.total sides.most }
    ensures { (size_bits : ℕ) (bounds : List ℕ)
        → AreSummed sides.total sides.most size_bits bounds first second common table.now
        → result ≡ pairs_below size_bits bounds first second common % 2 ^ 64 }
{
    if first == 0 || second == 0 {
        return 0;
    }
    table[place_of_pairs(sides, first - 1, second - 1, common)]
}

// Turns a table of running sums into that of one bound more, which stands before the others.
pub(super) fn take_in(table: &mut [u64], sides: Sides, bound: usize)
    requires room { HasRoom sides.total sides.most }
    requires length { length table.old ≡ cell_count sides.total sides.most }
    ensures length { length table.new ≡ cell_count sides.total sides.most }
    ensures taken { (size_bits : ℕ) (bounds : List ℕ) → HasMost size_bits sides.total sides.most
        → HasCounts sides.total sides.most (pairs_up_to size_bits bounds) table.old
        → HasCounts sides.total sides.most (pairs_of_sums size_bits (bound ∷ bounds)) table.new }
{
    for first in (0..sides.total + 1).rev() {
        take_in_row(table, sides, bound, first);
    }
}

// The cells of one sum of the first vector.
fn take_in_row(table: &mut [u64], sides: Sides, bound: usize, first: usize)
    requires room { HasRoom sides.total sides.most }
    requires first { first ≤ sides.total }
    requires length { length table.old ≡ cell_count sides.total sides.most }
    ensures length { length table.new ≡ cell_count sides.total sides.most }
    ensures taken { (size_bits : ℕ) (bounds : List ℕ) → HasMost size_bits sides.total sides.most
        → IsTurned sides.total sides.most (place_of_pairs sides.total sides.most (first + 1) 0 0)
        (pairs_up_to size_bits bounds) (pairs_of_sums size_bits (bound ∷ bounds)) table.old
        → IsTurned sides.total sides.most (place_of_pairs sides.total sides.most first 0 0)
        (pairs_up_to size_bits bounds) (pairs_of_sums size_bits (bound ∷ bounds)) table.new }
{
    for second in (0..sides.total + 1).rev() {
        take_in_cells(table, sides, bound, first, second);
    }
}

// Those of two sums.
fn take_in_cells(table: &mut [u64], sides: Sides, bound: usize, first: usize, second: usize)
    requires room { HasRoom sides.total sides.most }
    requires first { first ≤ sides.total }
    requires second { second ≤ sides.total }
    requires length { length table.old ≡ cell_count sides.total sides.most }
    ensures length { length table.new ≡ cell_count sides.total sides.most }
    ensures taken { (size_bits : ℕ) (bounds : List ℕ) → HasMost size_bits sides.total sides.most
        → IsTurned sides.total sides.most (place_of_pairs sides.total sides.most first (second + 1) 0)
        (pairs_up_to size_bits bounds) (pairs_of_sums size_bits (bound ∷ bounds)) table.old
        → IsTurned sides.total sides.most (place_of_pairs sides.total sides.most first second 0)
        (pairs_up_to size_bits bounds) (pairs_of_sums size_bits (bound ∷ bounds)) table.new }
{
    for common in (0..sides.most + 1).rev() {
        take_in_cell(table, sides, bound, first, second, common);
    }
}

// One of them, where it is used.
fn take_in_cell(
    table: &mut [u64],
    sides: Sides,
    bound: usize,
    first: usize,
    second: usize,
    common: usize,
)
    requires room { HasRoom sides.total sides.most }
    requires first { first ≤ sides.total }
    requires second { second ≤ sides.total }
    requires common { common ≤ sides.most }
    requires length { length table.old ≡ cell_count sides.total sides.most }
    ensures length { length table.new ≡ cell_count sides.total sides.most }
    ensures taken { (size_bits : ℕ) (bounds : List ℕ) → HasMost size_bits sides.total sides.most
        → IsTurned sides.total sides.most (place_of_pairs sides.total sides.most first second common + 1)
        (pairs_up_to size_bits bounds) (pairs_of_sums size_bits (bound ∷ bounds)) table.old
        → IsTurned sides.total sides.most (place_of_pairs sides.total sides.most first second common)
        (pairs_up_to size_bits bounds) (pairs_of_sums size_bits (bound ∷ bounds)) table.new }
{
    if first.max(second) + common > sides.total {
        return;
    }
    let place = place_of_pairs(sides, first, second, common);
    table[place] = count_pairs(table, sides, bound, first, second, common);
}

// A cell with the bound, by the lesser of the first entries of both vectors.
fn count_pairs(
    table: &[u64],
    sides: Sides,
    bound: usize,
    first: usize,
    second: usize,
    common: usize,
) -> u64
    requires room { HasRoom sides.total sides.most }
    requires used { max first second + common ≤ sides.total }
    requires common { common ≤ sides.most }
    requires length { length table.now ≡ cell_count sides.total sides.most }
    ensures { (size_bits : ℕ) (bounds : List ℕ) → HasMost size_bits sides.total sides.most
        → IsTurned sides.total sides.most (place_of_pairs sides.total sides.most first second common + 1)
        (pairs_up_to size_bits bounds) (pairs_of_sums size_bits (bound ∷ bounds)) table.now
        → result ≡ pairs_of_sums size_bits (bound ∷ bounds) first second common % 2 ^ 64 }
{
    let first_end = first - first.min(bound);
    let second_end = second - second.min(bound);
    let end = first.min(second).min(bound).min(sides.most - common) + 1;
    let mut counted: u64 = 0;
    for entry in 0..end {
        let more = count_with(
            table,
            sides,
            first - entry,
            second - entry,
            first_end,
            second_end,
            common + entry,
        );
        counted = counted.wrapping_add(more);
    }
    counted
}

// Those with one lesser entry: one sum is this one, and the other one is from its least on up to this one.
fn count_with(
    table: &[u64],
    sides: Sides,
    first: usize,
    second: usize,
    least_first: usize,
    least_second: usize,
    common: usize,
) -> u64
    requires room { HasRoom sides.total sides.most }
    requires first { (least_first ≤ first) × (first ≤ sides.total) }
    requires second { (least_second ≤ second) × (second ≤ sides.total) }
    requires common { common ≤ sides.most }
    requires length { length table.now ≡ cell_count sides.total sides.most }
    ensures { (size_bits : ℕ) (bounds : List ℕ)
        → AreSummed sides.total sides.most size_bits bounds (first + 1) (second + 1) common table.now
        → (result + (pairs_below size_bits bounds (first + 1) least_second common
        + pairs_below size_bits bounds least_first (second + 1) common
        + pairs_below size_bits bounds first second common)) % 2 ^ 64
        ≡ (pairs_below size_bits bounds (first + 1) (second + 1) common
        + pairs_below size_bits bounds first least_second common
        + pairs_below size_bits bounds least_first second common) % 2 ^ 64 }
{
    let all = pairs_below(table, sides, first + 1, second + 1, common);
    let lesser_first = pairs_below(table, sides, least_first, second + 1, common);
    let lesser_second = pairs_below(table, sides, first + 1, least_second, common);
    let inner = pairs_below(table, sides, first, second, common);
    let inner_first = pairs_below(table, sides, least_first, second, common);
    let inner_second = pairs_below(table, sides, first, least_second, common);
    corner(all, lesser_first, lesser_second).wrapping_sub(corner(inner, inner_first, inner_second))
}

// All of some running sums but those of two parts, of which what they have in common is left.
fn corner(all: u64, first: u64, second: u64) -> u64
    ensures { (result + first + second) % 2 ^ 64 ≡ all % 2 ^ 64 }
{
    all.wrapping_sub(first).wrapping_sub(second)
}
