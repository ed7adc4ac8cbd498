//! Requests answered: evaluation and output.
ghost use Rattle.std.specs.Prelude.{◌≡◌, ◌≢◌, ◌⊎◌, ◌+◌, ◌++◌, ℕ, List, [], Result, Ok, Err, IfErr, false};
ghost use Rattle.sgb_vec.specs.declared.panics.Panic.{Panic};
ghost use Rattle.sgb_graph.specs.Graphs.{GraphData};
ghost use Rattle.sgb_requests.specs.declared.faults.Fault.{Fault};
ghost use Rattle.sgb_file.specs.Devices.{change};
ghost use Rattle.sgb_vec.specs.declared.panics.Panic.TheVariants.{Early, NoRoom};
ghost use Rattle.sgb_expr.specs.Expression.{expression_of};
ghost use Rattle.sgb_file.specs.Saving.{text_of_graph};
ghost use Rattle.sgb_graph.specs.Vertices.{names_of};
ghost use Rattle.sgb.specs.Certain.{IsCertain, IsListedAtOnce, IsRefusedAtOnce, NeedsNoMemory};
ghost use Rattle.sgb.specs.inner.Certain.{HasListingAtOnce, HasNamesAtOnce};
ghost use Rattle.sgb.specs.Outcomes.{IsAnswered, answer_from, list_answer, names_answer, queen_moves, queen_title, reads_input};
ghost use Rattle.sgb.specs.Inputs.{LosesAtMost};
ghost use Rattle.sgb.specs.Runs.{IsRunOn};
ghost use Rattle.sgb.specs.Texts.{blocks, head};
ghost use Rattle.sgb_gen.specs.Generators.{IsAcceptedAtOnce, generator_value, made};
ghost use Rattle.sgb_values.specs.Values.{IsValueOn, most_input, value_of};
ghost use Rattle.sgb.specs.Writing.{IsEnded, effect};
// For the search alone.
ghost use Rattle.sgb.specs.Outcomes.{answer_of};

use crate::answers::{Answer, run_answer};
use crate::queens::queen_moves;
use crate::writing::files::write_file;
use crate::writing::flips::write_flip;
use crate::writing::list_answers::write_local_list;
use crate::writing::listing::{write_listing, write_titled_listing};
use crate::writing::names::NamesAnswer;
use crate::writing::vertices::write_vertex_names;
use sgb_expr::Expr;
use sgb_file::{Sink, Source};
use sgb_gen::{Generator, Links, local_of};
use sgb_requests::{Fault, Request, Resume};
use sgb_values::graph_from;
use std::alloc::Global;

/// Answers a request: writes its output to `out`, or the line of a fault to `errors`, and returns the exit status. The
/// answer is that of the definitions, unless `out` fails (3, a prefix of the output) or memory runs out (1, and no output).
/// An answer that is given in full ends with one flush of `out`, which then holds nothing back. A request that is refused,
/// whose input fails, or for which memory runs out, leaves `out` as it was, with no put and no flush.
///
/// `source` is standard input. It is read, once and whole, only if the request's expression has `stdin`, and before all
/// else; where it fails nothing is written (3). Of more than 2^30 bytes only so many and one more are read.
pub fn run<R: Source, W: Sink, E: Sink>(
    alloc: Global,
    request: &Request,
    source: &mut R,
    out: &mut W,
    errors: &mut E,
) -> u8
    requires { W.has_failed out.old ≡ false }
    ensures answers { IsRunOn request.now
        (record { bytes = R.remaining source.old; failed = R.has_failed source.new })
        (record {
          out = effect W.written W.has_failed out.old out.new;
          err = change E.written E.has_failed errors.old errors.new;
          status = result;
        }) }
    // What needs no memory is never out of memory.
    ensures certain { IsCertain request.now (record {
      out = effect W.written W.has_failed out.old out.new;
      err = change E.written E.has_failed errors.old errors.new;
      status = result;
    }) }
    // A refusal leaves the output as it was, and so does want of memory.
    ensures untouched { result ≡ 1 → out.new ≡ out.old }
    ensures flushed { result ≡ 0 → W.held out.new ≡ [] }
    // What the request asks for is never that memory runs out: code 1 is the machine's alone.
    ensures apart { (input : List ℕ) (answer : Result (List ℕ) Fault)
        → IsAnswered request.now input answer → answer ≢ Err (Fault.Panic NoRoom) }
    ensures unread { reads_input request.now ≡ false → source.new ≡ source.old }
    ensures bounded { LosesAtMost (most_input + 1) (R.remaining source.old)
        (R.remaining source.new) }
{
    run_answer(alloc, request, source, out, errors)
}

impl Answer for Request {
    ghost reads = { λ r. reads_input r };

    ghost answers = { λ r input a. IsAnswered r input a };

    ghost certain = { λ r. NeedsNoMemory r };

    ghost prepared = { λ _. Unit {0} };

    fn reads_input(&self) -> bool {
        reads_stdin(self)
    }

    fn write<W: Sink>(&self, alloc: Global, input: Vec<u8>, out: &mut W) -> Result<(), Fault> {
        write_answer(alloc, self, input, out)
    }
}

// Whether the expression of a request, if it has one, reads standard input.
fn reads_stdin(request: &Request) -> bool
    ensures { result ≡ reads_input request.now }
{
    match request {
        Request::Names(expression, _) => expression.has_stdin(),
        Request::List(expression, _) => expression.has_stdin(),
        Request::Save(expression) => expression.has_stdin(),
        Request::Queen | Request::Flip(_) => false,
    }
}

// Writes the output of a request. The bytes of its input are handed on, so that they are gone before the output is written.
fn write_answer<W: Sink>(
    alloc: Global,
    request: &Request,
    input: Vec<u8>,
    out: &mut W,
) -> Result<(), Fault>
    requires { W.has_failed out.old ≡ false }
    ensures ended { (answer : Result (List ℕ) Fault) × IsAnswered request.now input.items answer
        × IsEnded answer
        (effect W.written W.has_failed out.old out.new) result }
    ensures certain { NeedsNoMemory request.now
        → IfErr result (λ f. f ≢ Fault.Panic NoRoom) }
    ensures untouched { IfErr result (λ f. f ≡ Fault.Panic NoRoom → out.new ≡ out.old) }
{
    match request {
        Request::Names(expression, resume) => answer_names(alloc, expression, input, resume, out),
        Request::List(expression, resume) => answer_list(alloc, expression, input, resume, out),
        Request::Save(expression) => answer_save(alloc, expression, input, out),
        Request::Queen => answer_queen(alloc, out),
        Request::Flip(params) => write_flip(params, out),
    }
}

// Writes the names of an expression's vertices.
fn answer_names<W: Sink>(
    alloc: Global,
    expression: &Expr,
    input: Vec<u8>,
    resume: &Resume,
    out: &mut W,
) -> Result<(), Fault>
    requires { W.has_failed out.old ≡ false }
    ensures ended { (value : Result GraphData Panic)
        × IsValueOn input.items (expression_of expression.now) value
        × IsEnded (answer_from value (λ g. names_answer (names_of g) resume.now))
        (effect W.written W.has_failed out.old out.new) result }
    ensures certain { ((f : Generator) × (expression.now ≡ Expr.Generator f) × IsAcceptedAtOnce f)
        ⊎ IsRefusedAtOnce (expression_of expression.now)
        → IfErr result (λ f. f ≢ Fault.Panic NoRoom) }
    ensures untouched { IfErr result (λ f. f ≡ Fault.Panic NoRoom → out.new ≡ out.old) }
{
    if let Expr::Generator(generator) = expression {
        return answer_generator_names(alloc, generator, resume, out);
    }
    let graph = graph_from(alloc, expression, input)?;
    write_vertex_names(&graph, resume, out)
}

// Writes the names of a generator's vertices. Its vectors are walked: no graph is built.
fn answer_generator_names<W: Sink>(
    alloc: Global,
    generator: &Generator,
    resume: &Resume,
    out: &mut W,
) -> Result<(), Fault>
    requires { W.has_failed out.old ≡ false }
    ensures ended { IsEnded (answer_from (made (generator_value generator.now))
        (λ g. names_answer (names_of g) resume.now))
        (effect W.written W.has_failed out.old out.new) result }
    ensures certain { HasNamesAtOnce generator.now
        → IfErr result (λ f. f ≢ Fault.Panic NoRoom) }
    ensures untouched { IfErr result (λ f. f ≡ Fault.Panic NoRoom → out.new ≡ out.old) }
{
    let local = local_of(alloc, generator)?;
    local.visit(NamesAnswer { resume }, out)
}

// Writes the listing of an expression's graph.
fn answer_list<W: Sink>(
    alloc: Global,
    expression: &Expr,
    input: Vec<u8>,
    resume: &Resume,
    out: &mut W,
) -> Result<(), Fault>
    requires { W.has_failed out.old ≡ false }
    ensures ended { (value : Result GraphData Panic)
        × IsValueOn input.items (expression_of expression.now) value
        × IsEnded (answer_from value (λ g. list_answer g resume.now))
        (effect W.written W.has_failed out.old out.new) result }
    ensures certain { ((f : Generator) × (expression.now ≡ Expr.Generator f)
        × IsListedAtOnce f resume.now)
        ⊎ IsRefusedAtOnce (expression_of expression.now)
        → IfErr result (λ f. f ≢ Fault.Panic NoRoom) }
    ensures untouched { IfErr result (λ f. f ≡ Fault.Panic NoRoom → out.new ≡ out.old) }
{
    if let Expr::Generator(generator) = expression {
        return answer_generator_list(alloc, generator, resume, out);
    }
    let graph = graph_from(alloc, expression, input)?;
    write_listing(&graph, resume, out)
}

// Writes the listing of a generator's graph. Its vectors are walked: no graph is built.
fn answer_generator_list<W: Sink>(
    alloc: Global,
    generator: &Generator,
    resume: &Resume,
    out: &mut W,
) -> Result<(), Fault>
    requires { W.has_failed out.old ≡ false }
    ensures ended { IsEnded (answer_from (made (generator_value generator.now))
        (λ g. list_answer g resume.now))
        (effect W.written W.has_failed out.old out.new) result }
    ensures certain { HasListingAtOnce generator.now resume.now
        → IfErr result (λ f. f ≢ Fault.Panic NoRoom) }
    ensures untouched { IfErr result (λ f. f ≡ Fault.Panic NoRoom → out.new ≡ out.old) }
{
    let local = local_of(alloc, generator)?;
    let mut links = Links::new(alloc);
    write_local_list(&local, resume, &mut links, out)
}

// Writes the `.gb` file of an expression's graph.
fn answer_save<W: Sink>(
    alloc: Global,
    expression: &Expr,
    input: Vec<u8>,
    out: &mut W,
) -> Result<(), Fault>
    requires { W.has_failed out.old ≡ false }
    ensures ended { (value : Result GraphData Panic)
        × IsValueOn input.items (expression_of expression.now) value
        × IsEnded (answer_from value (λ g. Ok (text_of_graph g)))
        (effect W.written W.has_failed out.old out.new) result }
    ensures certain { IsRefusedAtOnce (expression_of expression.now)
        → IfErr result (λ f. f ≢ Fault.Panic NoRoom) }
    ensures untouched { IfErr result (λ f. f ≡ Fault.Panic NoRoom → out.new ≡ out.old) }
{
    let graph = graph_from(alloc, expression, input)?;
    write_file(&graph, out)
}

// Writes the moves of queens on a board of three rows and four columns, under their title.
fn answer_queen<W: Sink>(alloc: Global, out: &mut W) -> Result<(), Fault>
    requires { W.has_failed out.old ≡ false }
    ensures ended { IsEnded (answer_from (value_of (Err Early) queen_moves)
        (λ g. Ok (queen_title ++ (head g ++ blocks g 0))))
        (effect W.written W.has_failed out.old out.new) result }
    ensures untouched { IfErr result (λ f. f ≡ Fault.Panic NoRoom → out.new ≡ out.old) }
{
    let graph = queen_moves(alloc)?;
    write_titled_listing(b"Queen Moves on a 3x4 Board\n\n", &graph, out)
}
