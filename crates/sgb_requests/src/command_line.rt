//! The request that a command line makes.
ghost use Rattle.std.specs.Prelude.{MatchOption, MatchResult, ℕ, map};
ghost use Rattle.std.specs.String.{string_bytes};
ghost use Rattle.sgb_requests.specs.inner.CommandLine.{bytes_of};
ghost use Rattle.sgb_text.specs.Numbers.{IsNumber};
ghost use Rattle.sgb_expr.specs.Numbers.{most_digits};
ghost use Rattle.sgb_requests.specs.Requests.{IsCommandLineReadAs, IsResumeOf};
ghost use Rattle.sgb_requests.specs.inner.Requests.{AreReadAs, AreRefused, IsResumeFault};

use crate::arguments::{Arguments, Subcommand, entered_subcommand};
use crate::expressions::{parse_expr, parse_flip};
use crate::faults::Fault;
use crate::requests::{Name, Request, Resume};
use sgb_expr::Expr;
use std::alloc::Global;

// A number has at most this many digits.
const MOST_DIGITS: usize = 18;

/// The request that the words make, of which the first is the program's name: `names EXPR` or `list EXPR`,
/// each with `--after NAME`, with `--skip K` or with neither, `save EXPR`, `queen`, or `flip EXPR`, as clap reads them.
///
/// `Usage` where clap refuses the words or has a text of its own for them, where no command stands, where both
/// options stand, and where K is not 1 to 18 decimal digits. After that `TooLarge` and `Expr(k)` as `parse_expr`
/// returns them, and `parse_flip` for `flip`. `Panic(NoRoom)` when out of memory.
pub fn request(alloc: Global, words: &[String]) -> Result<Request, Fault>
    ensures { IsCommandLineReadAs (map string_bytes words.now) result }
{
    match entered_subcommand(alloc, words)? {
        Subcommand::Names(values) => {
            let (graph, resume) = read(alloc, values)?;
            Ok(Request::Names(graph, resume))
        }
        Subcommand::List(values) => {
            let (graph, resume) = read(alloc, values)?;
            Ok(Request::List(graph, resume))
        }
        Subcommand::Save(text) => {
            let graph = parse_expr(alloc, text.as_bytes())?;
            Ok(Request::Save(graph))
        }
        Subcommand::Queen => Ok(Request::Queen),
        Subcommand::Flip(text) => {
            let params = parse_flip(text.as_bytes())?;
            Ok(Request::Flip(params))
        }
    }
}

// The expression that a command's values name, and where its answer begins. The options come first.
fn read(alloc: Global, values: Arguments) -> Result<(Expr, Resume), Fault>
    ensures { MatchResult result
        (λ read. AreReadAs values.entry.expression.now (bytes_of values.entry.after)
        (bytes_of values.entry.skip) read.0 read.1)
        (AreRefused values.entry.expression.now (bytes_of values.entry.after)
        (bytes_of values.entry.skip)) }
{
    let resume = resume_of(alloc, values.after, values.skip)?;
    let graph = parse_expr(alloc, values.expression.as_bytes())?;
    Ok((graph, resume))
}

// Where the answer begins by the values of `--after` and `--skip`. `Usage` where both stand, or where that of
// `--skip` is not 1 to 18 digits. `Panic(NoRoom)` when out of memory.
fn resume_of(alloc: Global, after: Option<&str>, skip: Option<&str>) -> Result<Resume, Fault>
    ensures { MatchResult result (IsResumeOf (bytes_of after.entry) (bytes_of skip.entry))
        (IsResumeFault (bytes_of after.entry) (bytes_of skip.entry)) }
{
    match (after, skip) {
        (None, None) => Ok(Resume::Whole),
        (None, Some(text)) => {
            let count = count_of(text).ok_or(Fault::Usage)?;
            Ok(Resume::Skip(count))
        }
        (Some(text), None) => {
            let name = Name::new(alloc, text.as_bytes())?;
            Ok(Resume::After(name))
        }
        (Some(_), Some(_)) => Err(Fault::Usage),
    }
}

// The number that a text of 1 to 18 decimal digits writes. `parse` alone would take a plus too.
fn count_of(text: &str) -> Option<u64>
    ensures { MatchOption result ((k : ℕ) → IsNumber 10 most_digits text.now k → ⊥)
        (IsNumber 10 most_digits text.now) }
{
    if text.len() > MOST_DIGITS || text.starts_with('+') {
        return None;
    }
    text.parse().ok()
}
