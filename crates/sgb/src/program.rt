//! A call of the program, from its words to its bytes and its exit status.
ghost use Rattle.std.specs.Prelude.{◌≡◌, ◌+◌, [], Err, MatchResult, false, map};
ghost use Rattle.std.specs.IoError.{error_kind};
ghost use Rattle.std.specs.String.{string_bytes};
ghost use Rattle.sgb_file.specs.Devices.{change};
ghost use Rattle.sgb.specs.Inputs.{LosesAtMost};
ghost use Rattle.sgb.specs.Program.{AskForNoInput, IsProgramRun, unread_fault};
ghost use Rattle.sgb_requests.specs.Requests.{IsCommandLineReadAs};
ghost use Rattle.sgb.specs.Runs.{IsReported};
ghost use Rattle.sgb_values.specs.Values.{most_input};
ghost use Rattle.sgb.specs.Writing.{effect};
// For the search alone.
ghost use Rattle.std.specs.Prelude.{Ok};

use crate::runs::run;
use sgb_file::{Sink, Source};
use sgb_requests::{Fault, Request, report, request};
use sgb_vec::Panic;
use std::alloc::Global;
use std::io::{self, ErrorKind};

/// Does what the words of a command line ask for, of which the first is the program's name, and returns the exit
/// status: runs the request that they make, or writes the line of the fault that they are refused with to `errors`.
///
/// Words that could not be read are an invalid command line (2), or out of memory (1). `source` is standard input, left
/// alone unless the request reads it.
/// Where no request is run, `out` is left as it was, with no flush; so it is where the exit status is 1.
pub fn run_program<R: Source, W: Sink, E: Sink>(
    alloc: Global,
    words: io::Result<Vec<String>>,
    source: &mut R,
    out: &mut W,
    errors: &mut E,
) -> u8
    requires { W.has_failed out.old ≡ false }
    ensures read { MatchResult words
        (λ words. IsProgramRun (map string_bytes words.items)
        (record { bytes = R.remaining source.old; failed = R.has_failed source.new })
        (record {
          out = effect W.written W.has_failed out.old out.new;
          err = change E.written E.has_failed errors.old errors.new;
          status = result;
        }))
        (λ error. IsReported (unread_fault (error_kind error)) (record {
          out = effect W.written W.has_failed out.old out.new;
          err = change E.written E.has_failed errors.old errors.new;
          status = result;
        })) }
    // A refusal leaves the output as it was, and so does want of memory.
    ensures untouched { result ≡ 1 → out.new ≡ out.old }
    ensures flushed { result ≡ 0 → W.held out.new ≡ [] }
    ensures unread { MatchResult words
        (λ words. AskForNoInput (map string_bytes words.items) → source.new ≡ source.old)
        (λ error. source.new ≡ source.old) }
    ensures bounded { LosesAtMost (most_input + 1) (R.remaining source.old)
        (R.remaining source.new) }
{
    match request_of(alloc, words) {
        Ok(request) => run(alloc, &request, source, out, errors),
        Err(fault) => report(&fault, errors),
    }
}

// The request that the words make, if they could be read.
fn request_of(alloc: Global, words: io::Result<Vec<String>>) -> Result<Request, Fault>
    ensures { MatchResult words
        (λ words. IsCommandLineReadAs (map string_bytes words.items) result)
        (λ error. result ≡ Err (unread_fault (error_kind error))) }
{
    match words {
        Ok(words) => request(alloc, &words),
        Err(error) => Err(unread_fault(&error)),
    }
}

/// The fault of words that could not be read: out of memory, else an invalid command line.
pub fn unread_fault(error: &io::Error) -> Fault
    ensures { result ≡ unread_fault (error_kind error.now) }
{
    if error.kind() == ErrorKind::OutOfMemory {
        Fault::Panic(Panic::NoRoom)
    } else {
        Fault::Usage
    }
}
