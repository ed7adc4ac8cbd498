//! Tests of the public calls of `sgb_requests`.

// the caller that the page for callers shows
mod caller;
