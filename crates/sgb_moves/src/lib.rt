//! How a piece moves on a board: its displacements, where it moves by one of them, and starts of moves. The library is for
//! sgb_gen.
#![tactic(auto)]

// Entries of displacements, and numbers that are no sums of squares.
mod displacements;
// A walk over the displacements of a piece, from the last on.
mod falling_displacements;
// Where a piece moves on a board.
mod moves;
// Ranges of the starts of moves.
mod start_ranges;
// Starts of moves in a range, and their order.
mod starts;
// Displacements with the coordinates that they move.
mod steps;

pub use displacements::{Displacement, EntrySizes, put_opposite};
pub use falling_displacements::FallingDisplacements;
pub use moves::{
    destination, entry_bounds, is_inside, leads_onward, part_at, put_parts, put_vector, reach,
    reach_from, steps_on, times_within, wraps,
};
pub use start_ranges::StartRange;
pub use starts::Starts;
pub use steps::{Part, Parts, Step, either, put_parts_of};
