//! The operations of GB_BASIC that make graphs from graphs.
#![tactic(auto)]

// Complete bipartite graphs.
mod bipartite_graphs;
// The graphs of boards that operations start from.
mod boards;
// Circles, whose edges are known.
mod circles;
// The complement of a graph.
mod complements;
// Ids and names made of others.
mod compounds;
// The events of which a graph is made.
mod events;
// The union of two graphs.
mod gunions;
// The graph that entries induce.
mod induced_graphs;
// The intersection of two graphs.
mod intersections;
// Laws of the definitions.
mod laws;
// The line graph of a graph.
mod line_graphs;
// Parallel arcs and edges made one.
mod merged;
// Names copied, and names joined with them.
mod operands;
// The product of two graphs.
mod products;
// The graphs that an operation reads.
mod sources;
// Arcs that are handed out, and taken as events.
mod taken_events;
// How many arcs lead to each vertex, and the least length.
mod tallies;
// Wheels.
mod wheels;

pub use bipartite_graphs::bi_complete;
pub use complements::{complement, complement_of};
pub use gunions::{gunion, gunion_of};
pub use induced_graphs::{Entry, KeptEntry, check_entries, induced, induced_from, induced_of};
pub use intersections::{intersection, intersection_of};
pub use laws::{
    compound_ids_law, copies_law, lines_law, merged_are_apart, merging_law, taken_lead_up,
    taking_law,
};
pub use line_graphs::{directed_lines_of, lines};
pub use products::{have_too_many_pairs, product, product_of};
pub use sources::Source;
pub use wheels::wheel;
