//! Tests of the public calls of `sgb_vec`.

// the caller that the page for callers shows
mod caller;
// families of both kinds
mod families;
