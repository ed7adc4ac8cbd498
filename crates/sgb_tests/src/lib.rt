//! The callers that the pages for callers of `sgb`, `sgb_expr` and `sgb_arrays` show, and each public name of `sgb` once: proved, in a
//! crate of their own, so that those crates are not proved once more for them.
#![tactic(auto)]

// `sgb_arrays`
#[cfg(test)]
mod arrays_calls;
// the caller that the page for callers shows
#[cfg(test)]
mod caller;
// the caller that the page of `sgb_expr` shows
#[cfg(test)]
mod expression_caller;
// each public name of the library
#[cfg(test)]
mod library;
