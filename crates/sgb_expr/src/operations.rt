//! Expressions at the beginning of a text, of which some stand inside others.
ghost use Rattle.std.specs.Prelude.{◌≡◌, IfErr, IfOk, OnOk, [], ◌∷◌, ◌++◌, codes};
ghost use Rattle.sgb_expr.specs.inner.CodeEntries.{list_of};
ghost use Rattle.sgb_expr.specs.Expression.{entry_of, expression_of};
ghost use Rattle.sgb_expr.specs.Expressions.{IsOnGraphs, TakesMemory};
ghost use Rattle.sgb_expr.specs.inner.Gives.{Finds, Gives};
ghost use Rattle.sgb_expr.specs.inner.Memory.{MayTake, anything};
ghost use Rattle.sgb_expr.specs.inner.TwoGraphs.{operands_of};
ghost use Rattle.sgb_expr.specs.declared.wrong.Wrong.TheVariants.{NoRoom};
ghost use Rattle.sgb_expr.specs.inner.Operations.{bi_complete_call, gunion_call, induced_call, intersection_call, product_call, wheel_call};
ghost use Rattle.sgb_text.proofs.Readings.{read_as};
ghost use Rattle.sgb_expr.specs.inner.Readings.{integers_at};
ghost use Rattle.sgb_expr.specs.inner.Reading.{arguments_with, complement_with, entry_at, entry_list_at, expression_at, induced_with, lines_with, operands_with};

use crate::arguments::generator;
use crate::entries::{Entries, EntryExpr};
use crate::expressions::Expr;
use crate::names::{FormName, opening};
use crate::numbers::{fixed, integer, integers, separator_before};
use crate::wrong::{Mismatch, Wrong};
use std::alloc::Global;

/// The expression with which the text begins, and the text after it; or where the text goes wrong.
#[cycle(expressions)]
pub(crate) fn expression(alloc: Global, text: &[u8]) -> Result<(Expr, &[u8]), Wrong>
    ensures { Gives (TakesMemory text.now) (λ x. (expression_of x.0, x.1.now)) result
        (expression_at text.now) }
{
    let (name, rest) = opening(text)?;
    arguments(alloc, name, rest)
}

// The expression whose name has been read, and the text after its `)`, if its form has one; or where the text goes
// wrong.
#[cycle(expressions)]
fn arguments(alloc: Global, name: FormName, text: &[u8]) -> Result<(Expr, &[u8]), Wrong>
    ensures { Gives (MayTake IsOnGraphs text.now (arguments_with expression_at name text.now))
        (λ x. (expression_of x.0, x.1.now)) result
        (arguments_with expression_at name text.now) }
{
    match name {
        FormName::Generator(name) => {
            let (generator, rest) = generator(name, text)?;
            Ok((Expr::Generator(generator), rest))
        }
        FormName::Complement => complement(alloc, text),
        FormName::Gunion => {
            let (graphs, rest) = two_graphs(alloc, text)?;
            Ok((gunion(graphs), rest))
        }
        FormName::Intersection => {
            let (graphs, rest) = two_graphs(alloc, text)?;
            Ok((intersection(graphs), rest))
        }
        FormName::Lines => lines(alloc, text),
        FormName::Product => {
            let (graphs, rest) = two_graphs(alloc, text)?;
            Ok((product(graphs), rest))
        }
        FormName::Induced => induced(alloc, text),
        FormName::BiComplete => Ok(bi_complete(text)?),
        FormName::Wheel => Ok(wheel(text)?),
        FormName::Stdin => Ok((Expr::Stdin, text)),
    }
}

// The arguments of a complement.
#[cycle(expressions)]
fn complement(alloc: Global, text: &[u8]) -> Result<(Expr, &[u8]), Wrong>
    ensures { Gives (MayTake IsOnGraphs text.now (complement_with expression_at text.now))
        (λ x. (expression_of x.0, x.1.now)) result
        (complement_with expression_at text.now) }
{
    let (graph, rest) = expression(alloc, text)?;
    let ([copy, self_loops, directed], rest) = integers::<3>(b",", rest, b")")?;
    let complement = Expr::Complement {
        graph: boxed(alloc, graph)?,
        copy: copy != 0,
        self_loops: self_loops != 0,
        directed: directed != 0,
    };
    Ok((complement, rest))
}

// The arguments of a line graph.
#[cycle(expressions)]
fn lines(alloc: Global, text: &[u8]) -> Result<(Expr, &[u8]), Wrong>
    ensures { Gives (MayTake IsOnGraphs text.now (lines_with expression_at text.now))
        (λ x. (expression_of x.0, x.1.now)) result
        (lines_with expression_at text.now) }
{
    let (graph, rest) = expression(alloc, text)?;
    let ([directed], rest) = integers::<1>(b",", rest, b")")?;
    let lines = Expr::Lines {
        graph: boxed(alloc, graph)?,
        directed: directed != 0,
    };
    Ok((lines, rest))
}

// Two graphs, and two integers after them.
#[derive(Drop)]
struct TwoGraphs {
    first: Box<Expr>,
    second: Box<Expr>,
    numbers: [i64; 2],
}

// The two graphs and two integers with which the text begins, to a `)`.
#[cycle(expressions)]
fn two_graphs(alloc: Global, text: &[u8]) -> Result<(TwoGraphs, &[u8]), Wrong>
    ensures { Gives (MayTake anything text.now (operands_with expression_at text.now))
        (λ x. (operands_of x.0, x.1.now)) result
        (operands_with expression_at text.now) }
{
    let (first, rest) = expression(alloc, text)?;
    let begun = fixed(b",", rest)?;
    let (second, rest) = expression(alloc, begun)?;
    let (numbers, rest) = integers(b",", rest, b")")?;
    let graphs = TwoGraphs {
        first: boxed(alloc, first)?,
        second: boxed(alloc, second)?,
        numbers,
    };
    Ok((graphs, rest))
}

// The arguments of an induced graph.
#[cycle(expressions)]
fn induced(alloc: Global, text: &[u8]) -> Result<(Expr, &[u8]), Wrong>
    ensures { Gives (MayTake IsOnGraphs text.now (induced_with expression_at text.now))
        (λ x. (expression_of x.0, x.1.now)) result
        (induced_with expression_at text.now) }
{
    let (graph, rest) = expression(alloc, text)?;
    let begun = fixed(b",", rest)?;
    let (entries, rest) = entry_list(alloc, begun)?;
    let (numbers, rest) = integers(b",", rest, b")")?;
    Ok((induced_graph(boxed(alloc, graph)?, entries, numbers), rest))
}

// The graph that entries induce, by whether it keeps self-loops and parallel edges and is directed.
fn induced_graph(graph: Box<Expr>, entries: Entries, numbers: [i64; 3]) -> Expr
    ensures { expression_of result
        ≡ induced_call (expression_of graph.value) (list_of entries) numbers }
{
    let [self_loops, multi, directed] = numbers;
    Expr::Induced {
        graph,
        entries,
        self_loops: self_loops != 0,
        multi: multi != 0,
        directed: directed != 0,
    }
}

// The entries in brackets with which the text begins.
#[cycle(expressions)]
fn entry_list(alloc: Global, text: &[u8]) -> Result<(Entries, &[u8]), Wrong>
    ensures { Gives (TakesMemory text.now) (λ x. (list_of x.0, x.1.now)) result
        (entry_list_at expression_at text.now) }
{
    let mut list = Vec::new(alloc);
    let mut rest = fixed(b"[", text)?;
    // The proof names the loop by its label.
    'entries: loop {
        if let Some(after) = rest.strip_prefix(b"]") {
            return Ok((Entries::new(list), after));
        }
        let begun = fixed(separator_before(list.len(), b""), rest)?;
        let (one, after) = entry(alloc, begun)?;
        keep(&mut list, one)?;
        rest = after;
    }
}

// One entry more at the end of the list, unless there is no memory for it.
fn keep(list: &mut Vec<EntryExpr>, one: EntryExpr) -> Result<(), Wrong>
    ensures kept { OnOk result (list.new.items ≡ list.old.items ++ one ∷ []) }
    ensures refused { IfErr result (λ e. e ≡ NoRoom) }
{
    list.push(one).map_err(|_| Wrong::NoRoom)
}

// The entry with which the text begins: an integer, or else an expression.
#[cycle(expressions)]
fn entry(alloc: Global, text: &[u8]) -> Result<(EntryExpr, &[u8]), Wrong>
    ensures { Gives (Unit {0}) (λ x. (entry_of x.0, x.1.now)) result
        (entry_at expression_at text.now) }
{
    let left = match integer(text) {
        Ok((number, rest)) => return Ok((EntryExpr::Number(number), rest)),
        Err(Mismatch { left }) => left,
    };
    match expression(alloc, text) {
        Ok((graph, rest)) => Ok((EntryExpr::Graph(boxed(alloc, graph)?), rest)),
        Err(Wrong::Left(other)) => Err(Wrong::Left(left.min(other))),
        Err(Wrong::NoRoom) => Err(Wrong::NoRoom),
    }
}

// The union of two graphs, by whether it keeps parallel edges and is directed.
fn gunion(graphs: TwoGraphs) -> Expr
    ensures { expression_of result ≡ gunion_call (operands_of graphs) }
{
    let [multi, directed] = graphs.numbers;
    Expr::Gunion {
        first: graphs.first,
        second: graphs.second,
        multi: multi != 0,
        directed: directed != 0,
    }
}

// The intersection of two graphs, by whether it keeps parallel edges and is directed.
fn intersection(graphs: TwoGraphs) -> Expr
    ensures { expression_of result ≡ intersection_call (operands_of graphs) }
{
    let [multi, directed] = graphs.numbers;
    Expr::Intersection {
        first: graphs.first,
        second: graphs.second,
        multi: multi != 0,
        directed: directed != 0,
    }
}

// The product of two graphs, by its kind and whether it is directed.
fn product(graphs: TwoGraphs) -> Expr
    ensures { expression_of result ≡ product_call (operands_of graphs) }
{
    let [kind, directed] = graphs.numbers;
    Expr::Product {
        first: graphs.first,
        second: graphs.second,
        kind,
        directed: directed != 0,
    }
}

// The arguments of a complete bipartite graph.
fn bi_complete(text: &[u8]) -> Result<(Expr, &[u8]), Mismatch>
    ensures { Finds (λ x. (expression_of x.0, x.1.now)) result
        (read_as bi_complete_call (integers_at [] 3 (codes ")")) text.now) }
{
    let ([n1, n2, directed], rest) = integers::<3>(b"", text, b")")?;
    let graph = Expr::BiComplete {
        n1,
        n2,
        directed: directed != 0,
    };
    Ok((graph, rest))
}

// The arguments of a wheel.
fn wheel(text: &[u8]) -> Result<(Expr, &[u8]), Mismatch>
    ensures { Finds (λ x. (expression_of x.0, x.1.now)) result
        (read_as wheel_call (integers_at [] 3 (codes ")")) text.now) }
{
    let ([n, n1, directed], rest) = integers::<3>(b"", text, b")")?;
    let graph = Expr::Wheel {
        n,
        n1,
        directed: directed != 0,
    };
    Ok((graph, rest))
}

// The expression in a box, unless there is no memory for it.
fn boxed(alloc: Global, expression: Expr) -> Result<Box<Expr>, Wrong>
    ensures value { IfOk result (λ b. b.value ≡ expression) }
    ensures refused { IfErr result (λ e. e ≡ NoRoom) }
{
    Box::new(alloc, expression).map_err(|_| Wrong::NoRoom)
}
