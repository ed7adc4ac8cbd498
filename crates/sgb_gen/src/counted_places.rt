//! The places of the vectors of a sum, by counts that are kept.
//!
//! `SumFamily::place_of` counts at each entry of each vector. Here the counts are made once: of the last bounds, however
//! many of them, and of each sum, how many vectors within these bounds add to at most that sum. So the vectors with a
//! smaller entry than this one are the difference of two counts.
ghost use Rattle.std.specs.Prelude.{◌≡◌, ◌<◌, ◌≤◌, ◌-◌, ◌∷◌, [], ℕ, List, length, slice_get, slice_index, Contains, IfSome, Some};
ghost use Rattle.sgb_vec.specs.Limits.{most_vertices};
ghost use Rattle.sgb_vec.specs.Sums.{bounded_sums};
ghost use Rattle.sgb_gen.specs.VectorGraphs.{vertex_among};
ghost use Rattle.sgb_gen.specs.inner.KeptCounts.{HasCounts, HaveCounts, count_of_sum};

use sgb_vec::{Family, SumFamily};
use std::alloc::Global;
use std::marker::Model;

// At most so many counts are kept for a run: a megabyte.
const MOST_COUNTS: usize = 262_144;

// At most so many are kept for each vertex of a graph that is built, whose vertices and arcs take as much.
const MOST_OF_VERTEX: usize = 64;

// Of each sum from 0 up, how many vectors within some bounds add to at most that. Contracts see a list.
#[derive(Drop)]
struct CountRow {
    counts: Vec<u32>,
}

impl Model for CountRow {
    ghost use Rattle.std.specs.Prelude.{List, ℕ};

    ghost Value = { List ℕ };

    ghost view = { λ r. r.counts.items };
}

/// The vectors of a bounded sum, each found by counts that are kept (GB_BASIC, simplex). Contracts see a list of vectors.
#[derive(Drop)]
pub struct CountedPlaces<'a> {
    family: &'a SumFamily,
    // Row number j is that of the last j bounds.
    rows: Vec<CountRow>,
}

impl<'a> Model for CountedPlaces<'a> {
    ghost use Rattle.std.specs.Prelude.{◌<◌, ◌≤◌, ◌^◌, List, ℕ, length};
    ghost use Rattle.sgb_vec.specs.Sums.{bounded_sums};
    ghost use Rattle.sgb_gen.specs.inner.KeptCounts.{HaveCounts};

    ghost Value = { List (List ℕ) };

    ghost view = { λ p. bounded_sums p.family.now.total p.family.now.bounds };

    ghost invariant = { λ p. (length p.family.now.bounds ≤ length p.rows.items)
        × HaveCounts p.family.now.total p.rows.items p.family.now.bounds
        × (length (bounded_sums p.family.now.total p.family.now.bounds) < 2 ^ 32) };
}

impl<'a> CountedPlaces<'a> {
    // Those of the family, whose bounds these are: for a run, or for a graph that is built. `None` where they want more than a
    // megabyte, and for a graph more than 64 counts for each vertex; where a count is above 32 bits; or out of memory.
    pub(crate) fn new(
        alloc: Global,
        family: &'a SumFamily,
        bounds: &[u32],
        is_built: bool,
    ) -> Option<CountedPlaces<'a>>
        requires { bounds.now ≡ family.now.bounds }
        ensures { IfSome result (λ p. p ≡ bounded_sums family.now.total family.now.bounds) }
    {
        let most = most_counts(family.size(), is_built);
        if !are_few(family.total(), bounds.len(), most) {
            return None;
        }
        let rows = rows_of(alloc, family.total(), bounds)?;
        Some(CountedPlaces { family, rows })
    }

    /// The place of a vector among them, counted from 0. No memory is taken.
    pub fn place_of(&self, x: &[u32]) -> u32
        requires { Contains self.now x.now }
        ensures { result ≡ vertex_among self.now x.now }
    {
        self.place_if_there(x)
    }

    /// The same, for one that is known to be among them by those who read the place alone: of any other vector the number tells
    /// nothing. No memory is taken.
    #[inline(always)]
    pub fn place_if_there(&self, x: &[u32]) -> u32
        ensures { Contains self.now x.now → result ≡ vertex_among self.now x.now }
    {
        if x.len() > self.rows.len() {
            return 0;
        }
        let mut left = self.family.total();
        let mut place: u32 = 0;
        for k in 0..x.len() {
            let rest = left.saturating_sub(x[k]);
            let before = row_at(&self.rows, x.len() - 1 - k).leaving_more(left, rest);
            place = place.wrapping_add(before);
            left = rest;
        }
        place
    }
}

// How many counts are kept at most.
fn most_counts(vertices: u32, is_built: bool) -> usize {
    if is_built {
        return MOST_COUNTS.max((vertices as usize).saturating_mul(MOST_OF_VERTEX));
    }
    MOST_COUNTS
}

// Whether no more than so many are wanted.
fn are_few(total: u32, bounds: usize, most: usize) -> bool {
    (total as usize)
        .saturating_add(1)
        .saturating_mul(bounds.max(1))
        <= most
}

// The rows of counts of the last bounds, with none of them first.
fn rows_of(alloc: Global, total: u32, bounds: &[u32]) -> Option<Vec<CountRow>>
    requires { total ≤ most_vertices }
    ensures enough { IfSome result (λ rows. length bounds.now ≤ length rows.items) }
    ensures counts { IfSome result (λ rows. HaveCounts total rows.items bounds.now) }
{
    let mut rows = Vec::new(alloc);
    let none = CountRow::none(alloc, total)?;
    rows.push(none).ok()?;
    for j in 1..bounds.len() {
        let more = row_at(&rows, j - 1).with_bound(alloc, bounds[bounds.len() - j])?;
        let Ok(()) = rows.push(more) else {
            return None;
        };
    }
    Some(rows)
}

// The row of this number.
#[inline(always)]
fn row_at(rows: &Vec<CountRow>, j: usize) -> &CountRow
    requires { j < length rows.now.items }
    ensures { slice_get rows.now.items j ≡ Some result.now }
{
    &rows[j]
}

impl CountRow {
    // That of no bounds: one vector, which adds to 0.
    fn none(alloc: Global, total: u32) -> Option<CountRow>
        requires { total ≤ most_vertices }
        ensures { IfSome result (λ row. HasCounts total row []) }
    {
        let mut counts = Vec::new(alloc);
        counts.resize(total as usize + 1, 1).ok()?;
        Some(CountRow { counts })
    }

    // That of one bound more, which stands before the others.
    fn with_bound(&self, alloc: Global, bound: u32) -> Option<CountRow>
        ensures { (total : ℕ) (after : List ℕ) → HasCounts total self.now after
            → IfSome result (λ row. HasCounts total row (bound ∷ after)) }
    {
        let mut counts = Vec::with_capacity(alloc, self.counts.len()).ok()?;
        let mut before: u32 = 0;
        for n in 0..self.counts.len() {
            before = before.checked_add(self.of_sum(n, bound))?;
            let Ok(()) = counts.push(before) else {
                return None;
            };
        }
        Some(CountRow { counts })
    }

    // How many vectors add to this sum, where a bound more stands before the others: those that add to at most that, without
    // those to which the greatest entry does not bring enough.
    fn of_sum(&self, sum: usize, bound: u32) -> u32
        requires { sum < length self.now }
        ensures { (total : ℕ) (after : List ℕ) → HasCounts total self.now after
            → result ≡ count_of_sum sum (bound ∷ after) }
    {
        let counts = self.counts.as_slice();
        if sum <= bound as usize {
            return counts[sum];
        }
        counts[sum].saturating_sub(counts[sum - bound as usize - 1])
    }

    // How many vectors that add to a sum have an entry before those within the bounds that leaves more than this. Counts rise,
    // so nothing wraps.
    #[inline(always)]
    fn leaving_more(&self, sum: u32, rest: u32) -> u32
        requires sum { sum < length self.now }
        requires rest { rest ≤ sum }
        ensures { slice_index self.now rest ≤ slice_index self.now sum
            → result ≡ slice_index self.now sum - slice_index self.now rest }
    {
        let counts = self.counts.as_slice();
        counts[sum as usize].wrapping_sub(counts[rest as usize])
    }
}
