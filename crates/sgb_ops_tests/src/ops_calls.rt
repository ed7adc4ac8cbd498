//! Tests of the public calls of `sgb_ops`.

// the caller that the page for callers shows
mod caller;
