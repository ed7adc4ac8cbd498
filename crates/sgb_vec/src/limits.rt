//! Limits that several subjects share.
/// The most vertices of a graph, and the greatest sum n of simplex and subsets (GB_BASIC).
pub const MOST_VERTICES: u32 = 1_000_000_000;
