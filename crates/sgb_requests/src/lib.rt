//! What the program is asked: the words of a command line, the request that they make, and the faults that a request
//! ends with.
#![tactic(auto)]

// The subcommand and the arguments that clap finds.
mod arguments;
// The request that a command line makes.
mod command_line;
// Expressions and flips read for a request.
mod expressions;
// The faults, and the line that each prints.
mod faults;
// What holds of the plain forms of words.
mod laws;
// What the program is asked to do.
mod requests;

pub use command_line::request;
pub use expressions::{parse_expr, parse_flip};
pub use faults::{Fault, report, status};
pub use laws::plain_words_law;
pub use requests::{Name, Request, Resume};
