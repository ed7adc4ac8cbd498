//! Graphs as GB_GRAPH keeps them: vertices with lists of arc records, utility fields and an id.
#![tactic(auto)]

// The values of one utility field, by its kind.
mod columns;
// Vertices, arc records and their fields, as readers see them.
mod fields;
// Random numbers.
mod flips;
// A graph: how it is read, and how it grows.
mod graphs;
// The id of a graph.
mod ids;
// The number of an arc record, or none, in one word.
mod kept_numbers;
// What holds of all graphs and of all random numbers.
mod laws;
// Where arc records lead, as they are kept.
mod leads;
// The names of the vertices of a new graph.
mod names;
// The parts of a graph that a file brings.
mod parts;
// Whether vertices and arc records that are named are there.
mod ranges;
// The arc records, as they are kept.
mod records;
// Values put where there is room.
mod room;
// The vertices, as they are kept.
mod vertices;

pub use fields::{ArcRec, ArcRef, Kind, Link, Ref, Util, UtilRef, Vertex, VertexRef};
pub use flips::Flip;
pub use graphs::{Arcs, Graph};
pub use ids::{Id, IdWriter, compound_id, double_compound_id};
pub use laws::{
    arcs_law, described_law, edges_law, events_law, id_texts_law, lists_law, new_arc_law,
    new_edge_law, parts_law, random_numbers_law, uniform_draw_law,
};
pub use names::Names;
pub use parts::Parts;
