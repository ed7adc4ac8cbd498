//! The program: the graph of an expression, and the lines of its vertices.
ghost use Rattle.std.specs.Prelude.{◌≡◌, ◌<◌, ◌+◌, [], false, length, map, Err, IfErr, MatchResult};
ghost use Rattle.std.specs.IoError.{error_kind};
ghost use Rattle.std.specs.String.{string_bytes};
ghost use Rattle.sgb_file.specs.Devices.{AppendsUnlessFailed, change};
ghost use Rattle.sgb_graph.specs.Vertices.{names_of};
ghost use Rattle.sgb_expr.specs.Expression.{expression_of};
ghost use Rattle.sgb_expr.specs.StdinUses.{has_stdin};
ghost use Rattle.sgb_requests.specs.Faults.{status_of};
ghost use Rattle.sgb.specs.Inputs.{LosesAtMost};
ghost use Rattle.sgb.specs.Program.{unread_fault};
ghost use Rattle.sgb_values.specs.Values.{most_input};
ghost use Rattle.sgb.specs.Writing.{IsWritten, effect};
ghost use Rattle.sgb_levels.specs.Lines.{level_lines, line_of_level};
ghost use Rattle.sgb_levels.specs.inner.Lines.{distance_text, level_line};
ghost use Rattle.sgb_levels.specs.Program.{AreLevelsOn, AskFor, AskForNoStdin, IsLevelsRun, IsRefused, refusal_line};
// For the search alone.
ghost use Rattle.std.specs.Prelude.{None};
ghost use Rattle.std.specs.List.{slice_index_or};

use crate::levels::levels;
use itoa::Buffer;
use sgb::{
    Answer, Expr, Fault, graph_of, parse_expr, report, run_answer, unread_fault, write_bytes,
};
use sgb_file::{Sink, Source, put_all};
use sgb_graph::Graph;
use std::alloc::Global;
use std::io;

/// Writes the lines of the graph whose expression is the word after the program's name, or the line of a fault, and
/// returns the exit status, as `sgb` does: 0, or 1 for a refused graph, 2 for words that are none, 3 for a device. Each
/// line has the name of a vertex, and its distance from the first one, or `-` where no arcs lead there.
///
/// Words that could not be read are an invalid command line (2), or out of memory (1). `source` is standard input. It is
/// read only if the expression has `stdin`, before all else, and whole, but of more than 2^30 bytes only so many and one
/// more. What is refused, or for which memory runs out, leaves `out` as it was, with no flush; an answer that is given in
/// full ends with one.
pub fn run_levels<R: Source, W: Sink, E: Sink>(
    alloc: Global,
    words: io::Result<Vec<String>>,
    source: &mut R,
    out: &mut W,
    errors: &mut E,
) -> u8
    requires { W.has_failed out.old ≡ false }
    ensures read { MatchResult words
        (λ words. IsLevelsRun (map string_bytes words.items)
        (record { bytes = R.remaining source.old; failed = R.has_failed source.new })
        (record {
          out = effect W.written W.has_failed out.old out.new;
          err = change E.written E.has_failed errors.old errors.new;
          status = result;
        }))
        (λ error. IsRefused (unread_fault (error_kind error)) (record {
          out = effect W.written W.has_failed out.old out.new;
          err = change E.written E.has_failed errors.old errors.new;
          status = result;
        })) }
    // A refusal leaves the output as it was, and so does want of memory.
    ensures untouched { result ≡ 1 → out.new ≡ out.old }
    ensures flushed { result ≡ 0 → W.held out.new ≡ [] }
    ensures unread { MatchResult words
        (λ words. AskForNoStdin (map string_bytes words.items) → source.new ≡ source.old)
        (λ error. source.new ≡ source.old) }
    ensures bounded { LosesAtMost (most_input + 1) (R.remaining source.old)
        (R.remaining source.new) }
{
    match asked(alloc, words) {
        Ok(expression) => run_answer(alloc, &Levels { expression }, source, out, errors),
        Err(fault) => report_refusal(&fault, errors),
    }
}

// Reports why the words are refused, and returns the exit status.
#[tactic(auto, unfolding(crate::specs::Program::refusal_line))]
fn report_refusal<E: Sink>(fault: &Fault, errors: &mut E) -> u8
    ensures line { AppendsUnlessFailed (change E.written E.has_failed errors.old errors.new)
        (refusal_line fault.now) }
    ensures status { result ≡ status_of fault.now }
{
    match fault {
        Fault::Usage => report_usage(errors),
        _ => report(fault, errors),
    }
}

// Writes the usage line, and returns its exit status.
#[tactic(auto, unfolding(crate::specs::Program::refusal_line))]
fn report_usage<E: Sink>(errors: &mut E) -> u8
    ensures line { AppendsUnlessFailed (change E.written E.has_failed errors.old errors.new)
        (refusal_line Fault.Usage) }
    ensures status { result ≡ 2 }
{
    let _written = put_all(errors, b"usage: sgb_levels EXPR\n");
    2
}

// The expression that the words ask for, if they could be read.
fn asked(alloc: Global, words: io::Result<Vec<String>>) -> Result<Expr, Fault>
    ensures { MatchResult words
        (λ words. AskFor (map string_bytes words.items) result)
        (λ error. result ≡ Err (unread_fault (error_kind error))) }
{
    match words {
        Ok(words) => asked_by(alloc, words.as_slice()),
        Err(error) => Err(unread_fault(&error)),
    }
}

// The expression that these words ask for: there is one after the program's name.
fn asked_by(alloc: Global, words: &[String]) -> Result<Expr, Fault>
    ensures { AskFor (map string_bytes words.now) result }
{
    match words {
        [_, text] => parse_expr(alloc, text.as_bytes()),
        _ => Err(Fault::Usage),
    }
}

// The lines of an expression's graph.
#[derive(Drop)]
struct Levels {
    expression: Expr,
}

impl Answer for Levels {
    ghost reads = { λ l. has_stdin (expression_of l.expression) };

    ghost answers = { λ l input a. AreLevelsOn input (expression_of l.expression) a };

    ghost certain = { λ l. ⊥ };

    ghost prepared = { λ _. Unit {0} };

    fn reads_input(&self) -> bool {
        self.expression.has_stdin()
    }

    fn write<W: Sink>(&self, alloc: Global, input: Vec<u8>, out: &mut W) -> Result<(), Fault> {
        let graph = graph_of(alloc, &self.expression, &input)?;
        let distances = levels(alloc, &graph)?;
        write_lines(&graph, distances.as_slice(), out)
    }
}

// Writes the lines of a graph's vertices.
fn write_lines<W: Sink>(graph: &Graph, distances: &[Option<u32>], out: &mut W) -> Result<(), Fault>
    requires size { length distances.now ≡ length graph.now.vertices }
    requires sound { W.has_failed out.old ≡ false }
    ensures written { IsWritten (level_lines (names_of graph.now) distances.now 0)
        (change W.written W.has_failed out.old out.new) result }
    ensures fault { IfErr result (λ f. f ≡ Fault.Write) }
{
    for v in 0..graph.n() {
        write_vertex(graph, distances, v, out)?;
    }
    Ok(())
}

// Writes the line of vertex v.
fn write_vertex<W: Sink>(
    graph: &Graph,
    distances: &[Option<u32>],
    v: u32,
    out: &mut W,
) -> Result<(), Fault>
    requires vertex { v < length graph.now.vertices }
    requires size { length distances.now ≡ length graph.now.vertices }
    requires sound { W.has_failed out.old ≡ false }
    ensures written { IsWritten (level_line (names_of graph.now) distances.now v)
        (change W.written W.has_failed out.old out.new) result }
    ensures fault { IfErr result (λ f. f ≡ Fault.Write) }
{
    write_line(graph.name(v).bytes(), distances[v as usize], out)
}

// Writes the line of a vertex with this name and distance.
fn write_line<W: Sink>(name: &[u8], distance: Option<u32>, out: &mut W) -> Result<(), Fault>
    requires { W.has_failed out.old ≡ false }
    ensures written { IsWritten (line_of_level name.now distance)
        (change W.written W.has_failed out.old out.new) result }
    ensures fault { IfErr result (λ f. f ≡ Fault.Write) }
{
    write_bytes(out, name)?;
    write_bytes(out, b" ")?;
    write_distance(distance, out)?;
    write_bytes(out, b"\n")
}

// Writes a distance in decimal, or `-` where there is none.
fn write_distance<W: Sink>(distance: Option<u32>, out: &mut W) -> Result<(), Fault>
    requires { W.has_failed out.old ≡ false }
    ensures written { IsWritten (distance_text distance)
        (change W.written W.has_failed out.old out.new) result }
    ensures fault { IfErr result (λ f. f ≡ Fault.Write) }
{
    let mut digits = Buffer::new();
    match distance {
        Some(d) => write_bytes(out, digits.format(d).as_bytes()),
        None => write_bytes(out, b"-"),
    }
}
