//! The graphs that expressions name (GB_BASIC).
ghost use Rattle.std.specs.Prelude.{◌≡◌, ◌||◌, ℕ, List, Result, Err, Ok, IfErr, IfOk};
ghost use Rattle.sgb_vec.specs.declared.panics.Panic.{Panic};
ghost use Rattle.sgb_graph.specs.Graphs.{GraphData};
ghost use Rattle.sgb_expr.specs.Listed.{listed};
ghost use Rattle.sgb_expr.specs.Expression.{Induced, OfGraphs, entries_of, entry_of, expression_of};
ghost use Rattle.sgb_expr.specs.StdinUses.{entries_have_stdin, entry_has_stdin, has_stdin};
ghost use Rattle.sgb_values.specs.FirstRefusals.{IsRefusedFirst};
ghost use Rattle.sgb_vec.specs.Results.{IsValue};
ghost use Rattle.sgb_values.specs.Values.{IsValueOn, entry_value, value_of, values_of};
ghost use Rattle.sgb_values.specs.inner.Inputs.{left_after};
ghost use Rattle.sgb_values.specs.inner.Operands.{graph_held, on_lists};
ghost use Rattle.sgb_values.specs.inner.StdinValues.{GivesStdin};

mod entries;
mod list_operations;

use crate::kept::Kept;
use crate::stdin::read_kept;
pub use entries::numbered_entry;
use entries::{kept_graph, kept_number};
use list_operations::{
    OnList, OnLists, Operand, answer_of, answer_of_one, generated, generated_graph,
    induced_of_operand, lines_of_operand,
};
use sgb_expr::{EntryExpr, Expr, have_stdin};
use sgb_graph::Graph;
use sgb_ops::{KeptEntry, bi_complete, wheel};
use sgb_vec::Panic;
use std::alloc::Global;

/// The graph of an expression, where `input` is what was kept of standard input. Operands come before their operation,
/// from left to right; each is dropped when the operation is made.
///
/// The first refusal, or `NoRoom` when out of memory. A refusal that is met before memory is taken comes whatever memory
/// there is.
pub fn graph_of(alloc: Global, expression: &Expr, input: &[u8]) -> Result<Graph, Panic>
    ensures value { (value : Result GraphData Panic)
        × IsValueOn input.now (expression_of expression.now) value × IsValue value result }
    ensures refused { (p : Panic) → IsRefusedFirst input.now (expression_of expression.now) p
        → result ≡ Err p }
{
    let mut lent = Kept::lent(input);
    evaluate(alloc, expression, &mut lent, true)
}

/// The graph of an expression, as `graph_of`, where the bytes of standard input are dropped as soon as no `stdin` is
/// left that reads them.
///
/// The first refusal, or `NoRoom` when out of memory.
pub fn graph_from(alloc: Global, expression: &Expr, input: Vec<u8>) -> Result<Graph, Panic>
    ensures value { (value : Result GraphData Panic)
        × IsValueOn input.items (expression_of expression.now) value × IsValue value result }
    ensures refused { (p : Panic) → IsRefusedFirst input.items (expression_of expression.now) p
        → result ≡ Err p }
{
    let mut owned = Kept::owned(input);
    evaluate(alloc, expression, &mut owned, false)
}

// The graph of an expression. What is kept of standard input is dropped after the last `stdin` of the expression, unless
// there are `more` to come after it.
#[cycle(graphs)]
fn evaluate(
    alloc: Global,
    expression: &Expr,
    input: &mut Kept<'_>,
    more: bool,
) -> Result<Graph, Panic>
    ensures value { (stdin : List ℕ → Result GraphData Panic) → GivesStdin stdin
        → IsValue (value_of (stdin input.old) (expression_of expression.now)) result }
    ensures left { IfOk result (λ _. input.new
        ≡ left_after more (has_stdin (expression_of expression.now)) input.old) }
    ensures refused { (p : Panic) → IsRefusedFirst input.old (expression_of expression.now) p
        → result ≡ Err p }
{
    match expression {
        Expr::Generator(generator) => generated_graph(alloc, generator),
        Expr::Complement {
            graph,
            copy,
            self_loops,
            directed,
        } => {
            let operand = operand(alloc, graph, input, more)?;
            let operation = OnList::Complement {
                copy: *copy,
                self_loops: *self_loops,
                directed: *directed,
            };
            answer_of_one(alloc, operation, operand)
        }
        Expr::Gunion {
            first,
            second,
            multi,
            directed,
        } => by_lists(
            alloc,
            OnLists::Union {
                multi: *multi,
                directed: *directed,
            },
            first,
            second,
            input,
            more,
        ),
        Expr::Intersection {
            first,
            second,
            multi,
            directed,
        } => by_lists(
            alloc,
            OnLists::Intersection {
                multi: *multi,
                directed: *directed,
            },
            first,
            second,
            input,
            more,
        ),
        Expr::Lines { graph, directed } => {
            let operand = operand(alloc, graph, input, more)?;
            lines_of_operand(alloc, operand, *directed)
        }
        Expr::Product {
            first,
            second,
            kind,
            directed,
        } => by_lists(
            alloc,
            OnLists::Product {
                kind: *kind,
                directed: *directed,
            },
            first,
            second,
            input,
            more,
        ),
        Expr::Induced {
            graph,
            entries,
            self_loops,
            multi,
            directed,
        } => {
            let entries = entries.as_slice();
            by_entries(
                alloc,
                graph,
                entries,
                *self_loops,
                *multi,
                *directed,
                input,
                more,
            )
        }
        Expr::BiComplete { n1, n2, directed } => bi_complete(alloc, *n1, *n2, *directed),
        Expr::Wheel { n, n1, directed } => wheel(alloc, *n, *n1, *directed),
        Expr::Stdin => read_kept(alloc, input, more),
    }
}

// The graph of an operation that reads the lists of the graphs of two expressions; the first one's refusal before the second's.
#[cycle(graphs)]
#[inline(never)]
fn by_lists(
    alloc: Global,
    operation: OnLists,
    first: &Expr,
    second: &Expr,
    input: &mut Kept<'_>,
    more: bool,
) -> Result<Graph, Panic>
    ensures value { (stdin : List ℕ → Result GraphData Panic) → GivesStdin stdin
        → IsValue (value_of (stdin input.old) (OfGraphs (on_lists operation)
        (expression_of first.now) (expression_of second.now))) result }
    ensures left { IfOk result (λ _. input.new ≡ left_after more
        (has_stdin (expression_of first.now) || has_stdin (expression_of second.now)) input.old) }
    ensures refused { (p : Panic) → IsRefusedFirst input.old (expression_of first.now) p
        → result ≡ Err p }
{
    let left = operand(alloc, first, input, more_with(more, second))?;
    let right = operand(alloc, second, input, more);
    answer_of(alloc, operation, left, right)
}

// The graph that entries induce of the graph of an expression; the refusal of this one before those of the entries. It stands by
// itself: an operand takes more stack than the graph of an expression.
#[cycle(graphs)]
#[inline(never)]
fn by_entries(
    alloc: Global,
    graph: &Expr,
    entries: &[EntryExpr],
    self_loops: bool,
    multi: bool,
    directed: bool,
    input: &mut Kept<'_>,
    more: bool,
) -> Result<Graph, Panic>
    ensures value { (stdin : List ℕ → Result GraphData Panic) → GivesStdin stdin
        → IsValue (value_of (stdin input.old) (Induced (expression_of graph.now)
        (entries_of (listed entries.now)) self_loops multi directed)) result }
    ensures left { IfOk result (λ _. input.new ≡ left_after more
        (has_stdin (expression_of graph.now) || entries_have_stdin
        (entries_of (listed entries.now))) input.old) }
    ensures refused { (p : Panic) → IsRefusedFirst input.old (expression_of graph.now) p
        → result ≡ Err p }
{
    let operand = operand(alloc, graph, input, more_in(more, entries))?;
    let values = values_of(alloc, entries, input, more)?;
    induced_of_operand(alloc, operand, values, self_loops, multi, directed)
}

// The graph of an expression, which need not be built where a generator names it.
#[cycle(graphs)]
#[inline(never)]
fn operand(
    alloc: Global,
    expression: &Expr,
    input: &mut Kept<'_>,
    more: bool,
) -> Result<Operand, Panic>
    ensures ok { (stdin : List ℕ → Result GraphData Panic) → GivesStdin stdin
        → IfOk result (λ o. value_of (stdin input.old) (expression_of expression.now)
        ≡ Ok (graph_held o)) }
    ensures err { (stdin : List ℕ → Result GraphData Panic) → GivesStdin stdin
        → IfErr result
        (λ p. IsValue (value_of (stdin input.old) (expression_of expression.now)) (Err p)) }
    ensures left { IfOk result (λ _. input.new
        ≡ left_after more (has_stdin (expression_of expression.now)) input.old) }
    ensures refused { (p : Panic) → IsRefusedFirst input.old (expression_of expression.now) p
        → result ≡ Err p }
{
    if let Expr::Generator(generator) = expression {
        return generated(alloc, generator);
    }
    let graph = evaluate(alloc, expression, input, more)?;
    Ok(Operand::Built(graph))
}

// Whether standard input is read again where an expression is still to come.
fn more_with(more: bool, expression: &Expr) -> bool
    ensures { result ≡ (more || has_stdin (expression_of expression.now)) }
{
    more || expression.has_stdin()
}

// Whether standard input is read again where entries are still to come.
fn more_in(more: bool, entries: &[EntryExpr]) -> bool
    ensures { result ≡ (more || entries_have_stdin (entries_of (listed entries.now))) }
{
    more || have_stdin(entries)
}

// The values of entries, in order.
#[cycle(graphs)]
fn values_of(
    alloc: Global,
    entries: &[EntryExpr],
    input: &mut Kept<'_>,
    more: bool,
) -> Result<Vec<KeptEntry>, Panic>
    ensures ok { (stdin : List ℕ → Result GraphData Panic) → GivesStdin stdin
        → IfOk result (λ values. values_of (stdin input.old) (entries_of (listed entries.now))
        ≡ Ok values.items) }
    ensures refused { (stdin : List ℕ → Result GraphData Panic) → GivesStdin stdin
        → IfErr result
        (λ p. IsValue (values_of (stdin input.old) (entries_of (listed entries.now))) (Err p)) }
    ensures left { IfOk result (λ _. input.new
        ≡ left_after more (entries_have_stdin (entries_of (listed entries.now))) input.old) }
{
    let mut values = Vec::with_capacity(alloc, entries.len())?;
    let mut later = entries;
    while let Some((entry, others)) = later.split_first() {
        let value = value_of_entry(alloc, entry, others, input, more)?;
        values.push(value)?;
        later = others;
    }
    Ok(values)
}

// The value of an entry, after which these others come.
#[cycle(graphs)]
#[inline(never)]
fn value_of_entry(
    alloc: Global,
    entry: &EntryExpr,
    others: &[EntryExpr],
    input: &mut Kept<'_>,
    more: bool,
) -> Result<KeptEntry, Panic>
    ensures ok { (stdin : List ℕ → Result GraphData Panic) → GivesStdin stdin
        → IfOk result (λ v. entry_value (stdin input.old) (entry_of entry.now)
        ≡ Ok v) }
    ensures refused { (stdin : List ℕ → Result GraphData Panic) → GivesStdin stdin
        → IfErr result (λ p. IsValue (entry_value (stdin input.old) (entry_of entry.now)) (Err p)) }
    ensures left { IfOk result (λ _. input.new
        ≡ left_after (more || entries_have_stdin (entries_of (listed others.now)))
        (entry_has_stdin (entry_of entry.now)) input.old) }
{
    match entry {
        EntryExpr::Number(number) => Ok(kept_number(*number)),
        EntryExpr::Graph(expression) => {
            let graph = evaluate(alloc, expression, input, more_in(more, others))?;
            kept_graph(alloc, graph)
        }
    }
}
