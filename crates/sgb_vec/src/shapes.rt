ghost use Rattle.std.specs.Prelude.{◌≡◌};

mod boards;
mod entries;
mod simplexes;

use arrayvec::ArrayVec;
pub use boards::board_sizes;
pub use simplexes::simplex_bounds;
use std::marker::Model;

/// A generator's size parameters as its official name has them, and the numbers that they stand for:
/// the sizes of a board, or the bounds of a simplex. Contracts see it as these two lists.
#[derive(Drop)]
pub struct Shape {
    params: ArrayVec<i64, 6>,
    sizes: ArrayVec<u32, 251>,
}

impl Model for Shape {
    ghost use Rattle.sgb_vec.specs.Sizes.{Normalized};

    ghost Value = { Normalized };

    ghost view = { λ s. record { params = s.params.items; sizes = s.sizes.items } };
}

impl Shape {
    /// The parameters as the official name has them: n1 to n4 of a board, or n, n0 to n4 of a simplex.
    pub fn params(&self) -> &[i64]
        ensures { result.now ≡ self.now.params }
    {
        self.params.as_slice()
    }

    /// The sizes of a board, one for each dimension, or the bounds of a simplex, one more than dimensions.
    pub fn sizes(&self) -> &[u32]
        ensures { result.now ≡ self.now.sizes }
    {
        self.sizes.as_slice()
    }
}

// A board or a simplex has at most this many dimensions.
const MOST_DIMENSIONS: u64 = 250;
