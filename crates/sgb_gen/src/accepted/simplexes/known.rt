//! Counts of shifts that are known already, by the two bounds.
use arrayvec::ArrayVec;

/// From how many vectors a unit goes from a place with the bound `low` to a higher one with the bound `high`.
#[derive(Clone, Copy, Default)]
pub(super) struct KnownCount {
    pub(super) low: u32,
    pub(super) high: u32,
    pub(super) count: u32,
}

/// A few of them: the parameters of a simplex tell at most four bounds, and so sixteen pairs.
pub(super) type KnownCounts = ArrayVec<KnownCount, 16>;
