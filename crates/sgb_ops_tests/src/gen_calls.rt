//! Tests of the public calls of `sgb_gen`.

// the caller that the page for callers shows
mod caller;
// what a listing asks of any generator's graph
mod listed;
