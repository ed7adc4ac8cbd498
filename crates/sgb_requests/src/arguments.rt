//! The subcommand and the arguments that clap finds in the words of a command line.
ghost use Rattle.std.specs.Prelude.{◌≡◌, IfOk, IsSome, MatchResult, Some, codes, false, map};
ghost use Rattle.std.specs.String.{string_bytes};
ghost use Rattle.clap.specs.Words.{HasKind, app_of, fault_of, first_of, found_of, rows_of, rule_of, shape_of};
ghost use Rattle.clap.specs.declared.builder.command.Command.TheViews.{out-Command};
ghost use Rattle.sgb_requests.specs.CommandLine.{command_line};
ghost use Rattle.sgb_requests.specs.inner.CommandLine.{Gives, EntersSubcommand, IsRefusedAtOnce, IsTaken, alone_shape, output_command_line, output_shape};
ghost use Rattle.sgb_requests.specs.CommandLine.{expression_rule, option_rule};

use crate::faults::Fault;
use clap::error::ErrorKind;
use clap::{Arg, ArgAction, ArgMatches, Command, Error};
use sgb_vec::Panic;
use std::alloc::{AllocError, Global};

/// The values that the words give to a command that writes a graph.
#[derive(Clone, Copy)]
pub(crate) struct Arguments<'a> {
    pub expression: &'a str,
    pub after: Option<&'a str>,
    pub skip: Option<&'a str>,
}

/// A command of the program, with the values that the words give.
#[derive(Clone, Copy)]
pub(crate) enum Subcommand<'a> {
    /// `names EXPR [--after NAME|--skip K]`.
    Names(Arguments<'a>),
    /// `list EXPR [--after NAME|--skip K]`.
    List(Arguments<'a>),
    /// `save EXPR`.
    Save(&'a str),
    /// `queen`.
    Queen,
    /// `flip EXPR`.
    Flip(&'a str),
}

impl From<Error> for Fault {
    ghost use Rattle.std.specs.Prelude.{◌≡◌};
    ghost use Rattle.clap.specs.Words.{kind_of};
    ghost use Rattle.sgb_requests.specs.Faults.{fault_of_kind};

    ghost from_gives = { λ error fault. fault ≡ fault_of_kind (kind_of error) };

    fn from(error: Error) -> Fault {
        if error.kind() == ErrorKind::OutOfMemory {
            Fault::Panic(Panic::NoRoom)
        } else {
            Fault::Usage
        }
    }
}

/// The command that the words enter, the first of them being the program's name. `Usage` where clap refuses them or
/// no command stands, and `NoRoom` when out of memory.
pub(crate) fn entered_subcommand<'a>(
    alloc: Global,
    words: &'a [String],
) -> Result<Subcommand<'a>, Fault>
    ensures { MatchResult result (EntersSubcommand (map string_bytes words.entry.now))
        (IsRefusedAtOnce (map string_bytes words.entry.now)) }
{
    let matches = matches_of(alloc, words)?;
    if let Some(entered) = matches.subcommand_matches("names") {
        return Ok(Subcommand::Names(arguments_of(entered)));
    }
    if let Some(entered) = matches.subcommand_matches("list") {
        return Ok(Subcommand::List(arguments_of(entered)));
    }
    if let Some(entered) = matches.subcommand_matches("save") {
        return Ok(Subcommand::Save(expression_in(entered)));
    }
    if matches.subcommand_matches("queen").is_some() {
        return Ok(Subcommand::Queen);
    }
    if let Some(entered) = matches.subcommand_matches("flip") {
        return Ok(Subcommand::Flip(expression_in(entered)));
    }
    Err(Fault::Usage)
}

// What clap makes of the words.
fn matches_of<'a>(alloc: Global, words: &'a [String]) -> Result<ArgMatches<'a>, Error>
    ensures { MatchResult result (IsTaken (map string_bytes words.entry.now))
        (HasKind (fault_of command_line (map string_bytes words.entry.now))) }
{
    command_line(alloc)?.try_get_matches_from(words)
}

// `sgb` and its commands.
fn command_line<'a>(alloc: Global) -> Result<Command<'a>, AllocError>
    ensures { IfOk result (λ c. app_of c ≡ command_line) }
{
    output_command_line(alloc)?
        .subcommand(alone_command(alloc, "save")?)?
        .subcommand(Command::new(alloc, "queen"))?
        .subcommand(alone_command(alloc, "flip")?)
}

// `sgb` with the commands that begin where the options say.
fn output_command_line<'a>(alloc: Global) -> Result<Command<'a>, AllocError>
    ensures { IfOk result (λ c. app_of c ≡ output_command_line) }
{
    Command::new(alloc, "sgb")
        .subcommand(output_command(alloc, "names")?)?
        .subcommand(output_command(alloc, "list")?)
}

// The command of this name, with `EXPR [--after NAME|--skip K]`. That not both options stand is not left to
// clap: it comes before the expression is read, with the digits of K.
fn output_command<'a>(alloc: Global, name: &'a str) -> Result<Command<'a>, AllocError>
    ensures shape { IfOk result (λ c. shape_of c ≡ output_shape name.entry.now) }
    ensures local { IfOk result (λ c. (out-Command c).has_globals ≡ false) }
{
    Command::new(alloc, name)
        .arg(expression_argument(alloc))?
        .arg(value_option(alloc, "after"))?
        .arg(value_option(alloc, "skip"))
}

// The command of this name, with `EXPR` alone.
fn alone_command<'a>(alloc: Global, name: &'a str) -> Result<Command<'a>, AllocError>
    ensures shape { IfOk result (λ c. shape_of c ≡ alone_shape name.entry.now) }
    ensures local { IfOk result (λ c. (out-Command c).has_globals ≡ false) }
{
    Command::new(alloc, name).arg(expression_argument(alloc))
}

// `EXPR`, which is required.
fn expression_argument<'a>(alloc: Global) -> Arg<'a>
    ensures rule { rule_of result ≡ expression_rule }
    ensures local { result.global ≡ false }
{
    Arg::new(alloc, "EXPR")
        .action(ArgAction::Set)
        .required(true)
}

// The option of this name, which takes a value.
fn value_option<'a>(alloc: Global, name: &'a str) -> Arg<'a>
    ensures rule { rule_of result ≡ option_rule name.entry.now }
    ensures local { result.global ≡ false }
{
    Arg::new(alloc, name).long(name).action(ArgAction::Set)
}

// The values that the matches of a command give.
fn arguments_of<'a>(entered: &ArgMatches<'a>) -> Arguments<'a>
    requires { IsSome (first_of (codes "EXPR") (rows_of (found_of entered.now))) }
    ensures { Gives (rows_of (found_of entered.now)) result }
{
    Arguments {
        expression: expression_in(entered),
        after: entered.get_str("after"),
        skip: entered.get_str("skip"),
    }
}

// The expression that the matches of a command give.
fn expression_in<'a>(entered: &ArgMatches<'a>) -> &'a str
    requires { IsSome (first_of (codes "EXPR") (rows_of (found_of entered.now))) }
    ensures { first_of (codes "EXPR") (rows_of (found_of entered.now)) ≡ Some result.now }
{
    entered.get_str("EXPR").unwrap()
}
