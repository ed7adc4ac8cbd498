//! The callers that the pages for callers of `sgb_gen` and `sgb_ops` show, and what a listing asks of each generator: proved, in a crate
//! of their own, so that those crates are not proved once more for them.
#![tactic(auto)]

// `sgb_gen`
#[cfg(test)]
mod gen_calls;
// `sgb_ops`
#[cfg(test)]
mod ops_calls;
