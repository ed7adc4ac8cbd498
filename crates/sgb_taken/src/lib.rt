//! The arcs that are taken of a vertex, and the events that are made of them. The library is for sgb_ops.
#![tactic(auto)]

// The events of which a graph is made.
mod events;
// The arcs that are taken of a vertex.
mod taken_arcs;

pub use events::Event;
pub use taken_arcs::{TakenArcs, taken};
