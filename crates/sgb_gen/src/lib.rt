//! The generators of GB_BASIC whose vertices are vectors: board, simplex and subsets.
#![tactic(auto)]

// Accepted parameters: their vertices, ids, graphs and lists.
mod accepted;
// Arcs that are handed out one by one.
mod arc_sinks;
// Displacements that are kept.
mod displacement_tables;
// The generators.
mod generators;
// Such arcs that are kept in links.
mod kept_arcs;
// Laws of displacements, moves and shifts.
mod laws;
// The arcs of one vertex, with the vectors where they lead.
mod links;
// The places of the vectors of a sum, by counts that are kept.
mod counted_places;
// What a listing asks of a generator's graph, with no graph.
mod listed;
// A generator's graph whose lists are read one by one.
mod local_lists;
// Accepted parameters of any generator.
mod locals;
// The generators' parameters.
mod params;
// Arcs by one displacement, of some lengths in turn.
mod spans;
// A unit of a vector that goes to a higher place.
mod shifts;
// The short names of some boards and subsets.
mod shorthands;
// The names and the coordinates of a family's graph.
mod vector_graphs;
// Vectors, each of which is found at once.
mod vector_places;
// What is done with a generator's graph, whichever generator it is of.
mod visits;

pub use accepted::{Board, BoardLists, OrderedBoard, Simplex, Subsets, common};
pub use arc_sinks::ArcSink;
pub use counted_places::CountedPlaces;
pub use generators::{board, simplex, subsets};
pub use laws::{
    displacements_have_their_norm, moves_stay_on_board, moves_turn_back, riders_stop,
    shifts_stay_in_sum,
};
pub use links::{Links, LocalArcRef};
pub use listed::Listed;
pub use local_lists::LocalLists;
pub use locals::{Local, local_of};
pub use params::{BoardParams, Generator, SimplexParams, SubsetsParams};
pub use shorthands::{circuit, complete, cycle, disjoint_subsets, empty, petersen, transitive};
pub use spans::{Span, SpanTips};
pub use vector_places::VectorPlaces;
pub use visits::{Visit, Visitor};
