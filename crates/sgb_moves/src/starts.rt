//! The starts of the edges that touch a vector, a range of them at a time.
//!
//! A start is the vertex where an edge starts, with the edge's length. Room is kept for 4,096 of them at first, so that the first
//! range is found soon, and for twice as many after each range, up to 262,144, which take two megabytes. Where memory is refused
//! there is room for fewer. A range that has more is cut in two, where a long row of vertices ends: across the end of a row the
//! vertices of a range have fewer coordinates in common, and more lengths of moves would be looked at in vain.
ghost use Rattle.std.specs.Prelude.{◌≡◌, ◌+◌, ◌-◌, ◌/◌, ◌<◌, ◌++◌, [], ◌∷◌, ℕ, false, length, slice_get, true, IfNone, IfOk, IfSome, IsOkUnless, Some, if◌then◌else◌};
ghost use Rattle.std.specs.Bool.{OnFalse, OnTrue};
ghost use Rattle.std.specs.List.Sorted.{IsPermutation, IsSorted};
ghost use Rattle.sgb_moves.specs.inner.Starts.{AreHalves, IsOne, is_within, pair_cmp};

use crate::start_ranges::StartRange;
use sgb_vec::Panic;
use std::marker::Model;

// At first no more than so many starts are kept.
const FIRST_STARTS: usize = 4_096;

// At most so many starts are kept.
const MOST_STARTS: usize = 262_144;

impl StartRange {
    // Whether it has the start at vertex `v` of length `l`.
    fn has(self, v: u32, l: u32) -> bool
        ensures { result ≡ is_within self (v, l) }
    {
        v >= self.low && v < self.high && (l > self.from && l <= self.to)
    }

    /// Whether it may have starts at vertex `v`.
    pub fn has_vertex(self, v: u32) -> bool
        ensures { OnFalse result ((l : ℕ) → is_within self (v, l) ≡ false) }
    {
        v >= self.low && v < self.high
    }

    /// Whether it has no starts but at vertex `v`.
    pub fn is_of(self, v: u32) -> bool
        ensures { OnTrue result ((w l : ℕ) → (w ≡ v → ⊥) → is_within self (w, l) ≡ false) }
    {
        self.low == v && (self.high <= v || self.high - v == 1)
    }

    /// Its two halves, that of the earlier starts first: by their vertices, and where it has one vertex by their lengths.
    /// `None` where it has one start at most. The vertices of a board of these sizes are cut between two rows.
    pub fn halves(self, sizes: &[u32]) -> Option<(StartRange, StartRange)>
        ensures halves { IfSome result (λ p. AreHalves self p.0 p.1) }
        ensures one { IfNone result (IsOne self) }
    {
        let StartRange {
            low,
            high,
            from,
            to,
        } = self;
        if high > low && high - low > 1 {
            let middle = row_end(sizes, low, high);
            return Some((
                StartRange {
                    low,
                    high: middle,
                    from,
                    to,
                },
                StartRange {
                    low: middle,
                    high,
                    from,
                    to,
                },
            ));
        }
        if to > from && to - from > 1 {
            let middle = from + (to - from) / 2;
            return Some((
                StartRange {
                    low,
                    high,
                    from,
                    to: middle,
                },
                StartRange {
                    low,
                    high,
                    from: middle,
                    to,
                },
            ));
        }
        None
    }
}

// The end of a row of vertices between these: one of the longest rows that end there, in the middle of them.
fn row_end(sizes: &[u32], low: u32, high: u32) -> u32
    requires { low + 1 < high }
    ensures after { low < result }
    ensures before { result < high }
{
    let row = longest_row(sizes, low, high);
    let (first, last) = (low / row, (high - 1) / row);
    (first + (last - first + 1) / 2) * row
}

// How long the longest rows of a board are that end between these vertices: rows with the same first coordinates.
fn longest_row(sizes: &[u32], low: u32, high: u32) -> u32
    requires { low + 1 < high }
    ensures some { 0 < result }
    ensures ends { low / result < (high - 1) / result }
{
    let mut row: u32 = 1;
    for k in (0..sizes.len()).rev() {
        let longer = row.saturating_mul(sizes[k].max(1));
        if low / longer >= (high - 1) / longer {
            return row;
        }
        row = longer;
    }
    row
}

/// Starts of one range. Contracts see them as a list.
#[derive(Drop)]
pub struct Starts {
    // There is room for one at least.
    kept: Vec<(u32, u32)>,
    // No more than so many are kept.
    most: usize,
}

impl Model for Starts {
    ghost use Rattle.std.specs.Prelude.{◌<◌, ℕ, List, vec_capacity};

    ghost Value = { List (ℕ × ℕ) };

    ghost view = { λ s. s.kept.items };

    ghost invariant = { λ s. (0 < vec_capacity s.kept) × (0 < s.most) };
}

impl Starts {
    /// None yet, in this room, which grows to that of one.
    ///
    /// `NoRoom` when out of memory, and nothing else.
    pub fn new(room: Vec<(u32, u32)>) -> Result<Starts, Panic>
        ensures none { IfOk result (λ s. s ≡ []) }
        ensures memory { IsOkUnless result Panic.NoRoom }
    {
        let mut kept = room;
        kept.clear();
        kept.reserve(1)?;
        Ok(Starts {
            kept,
            most: FIRST_STARTS,
        })
    }

    /// The room.
    pub fn into_room(self) -> Vec<(u32, u32)> {
        self.kept
    }

    /// Drops all of them.
    pub fn clear(&mut self)
        ensures { self.new ≡ [] }
    {
        self.kept.clear();
    }

    /// Puts a start behind the others, where it is within a range. `false` where there is no room for it: there is one already.
    pub fn put(&mut self, range: StartRange, v: u32, l: u32) -> bool
        ensures put { OnTrue result (self.new
            ≡ self.old ++ (if is_within range (v, l) then (v, l) ∷ [] else [])) }
        ensures within { OnFalse result (is_within range (v, l) ≡ true) }
        ensures some { OnFalse result (0 < length self.old) }
    {
        if !range.has(v, l) {
            return true;
        }
        if self.kept.len() >= self.most {
            return false;
        }
        self.kept.push((v, l)).is_ok()
    }

    /// Lets twice as many be kept from here on, up to the most of all.
    pub fn grow(&mut self)
        ensures { self.new ≡ self.old }
    {
        self.most = MOST_STARTS.min(self.most.saturating_mul(2));
    }

    /// Puts them in order.
    pub fn sort(&mut self)
        ensures same { IsPermutation self.old self.new }
        ensures sorted { IsSorted pair_cmp self.new }
    {
        self.kept.sort_unstable();
    }

    /// How many there are.
    pub fn len(&self) -> usize
        ensures { result ≡ length self.now }
    {
        self.kept.len()
    }

    /// The one at this place, counted from 0.
    pub fn at(&self, place: usize) -> (u32, u32)
        requires { place < length self.now }
        ensures { slice_get self.now place ≡ Some result }
    {
        self.kept[place]
    }
}
