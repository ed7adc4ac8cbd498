//! Tests of the public calls of `sgb_graph`.

// the caller that the page for callers shows
mod caller;
