//! The parameters that the generators accept, each with the vertices, the id and the graph that they stand for.
mod boards;
mod simplexes;
mod subsets;

pub use boards::{Board, BoardLists, OrderedBoard};
pub use simplexes::Simplex;
pub use subsets::{Subsets, common};
