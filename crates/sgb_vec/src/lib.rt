//! Vectors, the families of vectors that GraphBase's generators have as vertices, and their names.
#![tactic(auto)]

// The vectors of a box.
mod boxes;
// Digits, and the number that they write.
mod digits;
// All zeros in a vector; how many entries there are.
mod entries;
// What a family of vectors is.
mod families;
// Texts put together in place.
mod filled;
// What holds of all families and names.
mod laws;
// Limits that several subjects share.
mod limits;
// The vector that a name stands for.
mod named;
// The panic codes.
mod panics;
// The sizes of a board and the bounds of a simplex.
mod shapes;
// Short texts put by few moves.
mod short_texts;
// How many entries a walk visits.
mod steps;
// The vectors of a bounded sum.
mod sums;
// The texts of vertices, and the name of a vector.
mod texts;
// The vectors of a family, from either end.
mod vectors;

pub use boxes::BoxFamily;
pub use digits::leading_number;
pub use families::{Family, Vector};
pub use filled::Filled;
pub use laws::{boxes_are_families, names_read_back, sums_are_families};
pub use limits::MOST_VERTICES;
pub use named::vector_of;
pub use panics::Panic;
pub use shapes::{Shape, board_sizes, simplex_bounds};
pub use short_texts::push_name;
pub use steps::Steps;
pub use sums::SumFamily;
pub use texts::{NameText, Text, is_text_byte, name_len, name_of, put_name};
pub use vectors::Vectors;
