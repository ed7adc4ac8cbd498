//! Graphs as arrays: the lists of arcs in compressed sparse rows, the names one after another, utility fields, files and
//! random numbers, each put into slices that the caller hands in. Of all vertices, or of a run of them, so many one after
//! another; a generator's graph need not be built for it: so one of a thousand million vertices is gone through.
#![tactic(auto)]

// Copies of graphs.
mod copies;
// Arcs that are counted as they are handed out.
mod counted_arcs;
// Random numbers in an array.
mod draws;
// Utility fields of vertices as arrays.
mod fields;
// Files in arrays.
mod files;
// The graph that arrays tell.
mod given;
// The names of a run of a graph, put into arrays.
mod graph_names;
// The lists of a run of a graph, put into arrays.
mod graph_rows;
// The id in an array.
mod ids;
// Kinds of fields in an array.
mod kinds;
// What holds of all arrays.
mod laws;
// How long all lists of a graph are.
mod list_sizes;
// Names as lines of a text.
mod name_lines;
// Names as arrays.
mod names;
// Graphs that are open, built or not.
mod open_graphs;
// Open graphs as operands of operations.
mod operands;
// A graph with its lists of arcs as arrays.
mod packed;
// The lists of all vertices of a graph, in little memory.
mod packed_rows;
// Arcs to vectors that are found at once, put into rows as they are handed out.
mod placed_arcs;
// Values put from a place on.
mod puts;
// Why an array is not filled.
mod refusals;
// Lists of arcs as arrays.
mod rows;
// How many arcs are on the lists of a run of a generator's graph.
mod run_arcs;
// The names of a run of a generator's graph.
mod run_names;
// The lists of a run of a generator's graph.
mod run_rows;
// Runs, and the vectors of one.
mod runs;

pub use draws::{fill_draws, fill_uniform_draws};
pub use fields::fill_ints;
pub use files::{file_len, fill_file};
pub use given::{Unmade, graph_given};
pub use graph_names::{fill_names, names_len};
pub use graph_rows::{arcs_len, fill_rows, fill_tips};
pub use ids::fill_id;
pub use kinds::fill_kinds;
pub use laws::{parts_law, runs_join_law};
pub use name_lines::fill_name_lines;
pub use names::Names;
pub use open_graphs::OpenGraph;
pub use operands::Operand;
pub use packed::PackedGraph;
pub use refusals::Wrong;
pub use rows::Rows;
pub use run_arcs::arcs_of_run;
pub use run_names::names_of_run;
pub use run_rows::rows_of_run;
