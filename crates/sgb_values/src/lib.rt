//! The graph of an expression: what it is, and making it (GB_BASIC, GB_SAVE).
#![tactic(auto)]

// The graph of an expression, operands first.
mod evaluation;
// The bytes of standard input while an expression is evaluated.
mod kept;
// The graph that standard input is a file of.
mod stdin;

pub use evaluation::{graph_from, graph_of, numbered_entry};
pub use stdin::MOST_INPUT;
