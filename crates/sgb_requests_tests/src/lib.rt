//! The callers that the pages for callers of `sgb_file` and `sgb_requests` show, and calls of devices at concrete types: proved, in a
//! crate of their own, so that those crates are not proved once more for them.
#![tactic(auto)]

// `sgb_file`
#[cfg(test)]
mod file_calls;
// `sgb_requests`
#[cfg(test)]
mod requests_calls;
