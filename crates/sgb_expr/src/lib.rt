//! The expressions that name graphs, in GraphBase's official names, and what is asked of the random generator: reading
//! them from their texts.
#![tactic(auto)]

// The arguments of each generator's form.
mod arguments;
// The entries of an induced graph.
mod entries;
// The expressions, and reading one.
mod expressions;
// What is asked of the random generator, and reading it.
mod flips;
// Which texts are too large to be read.
mod measure;
// The names of the forms.
mod names;
// Fixed texts, integers and bits at the beginning of a text.
mod numbers;
// Expressions at the beginning of a text, some inside others.
mod operations;
// Which expressions read standard input.
mod stdin_uses;
// Why reading stops.
mod wrong;

pub use entries::{Entries, EntryExpr};
pub use expressions::{Expr, Unread, read_expr};
pub use flips::{FlipParams, read_flip};
pub use sgb_gen::Generator;
pub use stdin_uses::have_stdin;
