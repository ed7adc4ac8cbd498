//! Tests of the public calls of `sgb_file`.

// the caller that the page for callers shows
mod caller;
// devices over memory, readers and writers
mod devices;
