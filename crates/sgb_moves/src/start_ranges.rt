//! Ranges of starts.

/// The starts at the vertices from `low` on and below `high` whose lengths are above `from`, up to `to`.
#[derive(Clone, Copy)]
pub struct StartRange {
    pub low: u32,
    pub high: u32,
    pub from: u32,
    pub to: u32,
}
