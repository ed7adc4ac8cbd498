//! Graphs by the official names of the Stanford GraphBase: requests, and the names, listings, files and random numbers
//! that answer them, for any source of input and any sink of output.
#![tactic(auto)]

// A program's answer, from standard input to its exit status.
mod answers;
// Standard input, read whole.
mod input;
// What holds of all answers.
mod laws;
// A call of the program: from its words to its exit status.
mod program;
// The moves of queens.
mod queens;
// A request answered.
mod runs;
// Names, listings, files and random numbers, written to a sink.
mod writing;

pub use answers::{Answer, run_answer};
pub use input::read_input;
pub use laws::{answered_once_law, input_unread_law, run_endings_law};
pub use program::{run_program, unread_fault};
pub use runs::run;
pub use sgb_expr::Expr;
pub use sgb_gen::{Local, local_of};
pub use sgb_requests::{Fault, Request, parse_expr, report, request, status};
pub use sgb_values::graph_of;
pub use writing::families::list_family;
pub use writing::write_bytes;
