//! The distance of each vertex of a graph from the first one: an example of a program on the library `sgb`.
//!
//! `run_levels` does what the program does. `main` hands it the words and the streams; it is run by a stored run (`args`,
//! `stdout`), and not proved.
#![tactic(auto)]

// That there are distances and answers, and one of each.
mod laws;
// Searches by levels.
mod levels;
// A call of the program.
mod runs;

use runs::run_levels;
use sgb_file::{Buffered, FromRead, ToWrite};
use std::process::ExitCode;
use std::rt::Env;
use std::{env, io};

fn main(rt: HostRuntime) -> ExitCode {
    let alloc = rt.alloc();
    let words = words(&rt);
    let mut source = FromRead::new(rt.stdin());
    let mut errors = ToWrite::new(rt.stderr());
    let status = match Buffered::new(alloc, rt.stdout()) {
        Ok(mut out) => run_levels(alloc, words, &mut source, &mut out, &mut errors),
        // No memory for the buffer is none for the words.
        Err(error) => {
            let mut out = ToWrite::new(rt.stdout());
            run_levels(alloc, Err(error), &mut source, &mut out, &mut errors)
        }
    };
    ExitCode::from(status)
}

// The words of the command line.
fn words<R: Env + AllocGlobal>(rt: &R) -> io::Result<Vec<String>> {
    let words = env::args(rt)?.collect(rt.alloc())?;
    Ok(words)
}
