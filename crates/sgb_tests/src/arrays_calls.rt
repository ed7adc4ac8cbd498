//! Tests of the public calls of `sgb_arrays`.

// the caller that the page for callers shows
mod caller;
