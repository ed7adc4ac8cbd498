//! sgb: the names, listings and files of graphs that Stanford GraphBase's generators and operations make, and its random
//! numbers.
//!
//! What the program does is the library's `run_program`, which is proved. `main` hands it the words and the streams; it is
//! run by a stored run (`args`, `stdout`), and not proved.
#![tactic(auto)]

use sgb::run_program;
use sgb_file::{Buffered, FromRead, ToWrite};
use std::process::ExitCode;
use std::rt::Env;
use std::{env, io};

fn main(rt: HostRuntime) -> ExitCode {
    let alloc = rt.alloc();
    let words = words(&rt);
    let mut source = FromRead::new(rt.stdin());
    let mut errors = ToWrite::new(rt.stderr());
    let status = if saves(&words) {
        match Buffered::new(alloc, rt.stdout()) {
            Ok(mut out) => run_program(alloc, words, &mut source, &mut out, &mut errors),
            // No memory for the buffer is none for the words.
            Err(error) => {
                let mut out = ToWrite::new(rt.stdout());
                run_program(alloc, Err(error), &mut source, &mut out, &mut errors)
            }
        }
    } else {
        let mut out = ToWrite::new(rt.stdout());
        run_program(alloc, words, &mut source, &mut out, &mut errors)
    };
    ExitCode::from(status)
}

// Whether the command is `save`. The lines of a file are put one by one, into a buffer. All else is put page by page, and nothing is
// to hold back the beginning of a head, which is put before the arcs are counted.
fn saves(words: &io::Result<Vec<String>>) -> bool {
    match words {
        Ok(words) => words.len() > 1 && words[1].as_str() == "save",
        Err(_) => false,
    }
}

// The words of the command line.
fn words<R: Env + AllocGlobal>(rt: &R) -> io::Result<Vec<String>> {
    let words = env::args(rt)?.collect(rt.alloc())?;
    Ok(words)
}
