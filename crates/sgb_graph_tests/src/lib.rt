//! The callers that the pages for callers of `sgb_vec` and `sgb_graph` show, and walks over families of both kinds: proved, in a crate
//! of their own, so that those crates are not proved once more for them.
#![tactic(auto)]

// `sgb_graph`
#[cfg(test)]
mod graph_calls;
// `sgb_vec`
#[cfg(test)]
mod vec_calls;
