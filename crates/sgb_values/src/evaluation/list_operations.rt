//! The operations that read their operands list by list: an operand that a generator names need not be built.
ghost use Rattle.std.specs.Prelude.{◌≡◌, IfErr, IfOk, IfSome, Err, Ok, IsOkUnless};
ghost use Rattle.sgb_vec.specs.Results.{IsValue};
ghost use Rattle.sgb_vec.specs.declared.panics.Panic.{Panic};
ghost use Rattle.sgb_graph.specs.Descriptions.{IsAnswerOf};
ghost use Rattle.sgb_graph.specs.Made.{graph_described};
ghost use Rattle.sgb_gen.specs.Generators.{IsGeneratorRefused, described, generator_value, made};
ghost use Rattle.sgb_expr.specs.Expression.{Lines};
ghost use Rattle.sgb_ops.specs.Induced.{induced_of};
ghost use Rattle.sgb_values.specs.Values.{of_graph, of_graphs};
ghost use Rattle.sgb_values.specs.inner.Operands.{graph_held, on_list, on_lists};
// For the search alone.
ghost use Rattle.sgb_gen.specs.Boards.{board_vector_graph};
ghost use Rattle.sgb_gen.specs.VectorGraphs.{described_by};

use sgb_gen::{Generator, Local, LocalLists, local_of};
use sgb_graph::Graph;
use sgb_ops::{
    KeptEntry, Source, complement_of, directed_lines_of, gunion_of, induced_of, intersection_of,
    lines, product_of,
};
use sgb_vec::Panic;
use std::alloc::Global;

/// An operation that reads the lists of its operand.
#[derive(Clone, Copy)]
pub(crate) enum OnList {
    /// The complement.
    Complement {
        copy: bool,
        self_loops: bool,
        directed: bool,
    },
    /// The directed line graph.
    DirectedLines,
}

impl OnList {
    // Its answer on a graph.
    fn answer(self, alloc: Global, graph: &Source<'_>) -> Result<Graph, Panic>
        ensures { IsAnswerOf (of_graph (on_list self) graph.now) result }
    {
        match self {
            OnList::Complement {
                copy,
                self_loops,
                directed,
            } => complement_of(alloc, graph, copy, self_loops, directed),
            OnList::DirectedLines => directed_lines_of(alloc, graph),
        }
    }
}

/// An operation that reads the lists of its two operands.
#[derive(Clone, Copy)]
pub(crate) enum OnLists {
    /// The union.
    Union { multi: bool, directed: bool },
    /// The intersection.
    Intersection { multi: bool, directed: bool },
    /// The product.
    Product { kind: i64, directed: bool },
}

impl OnLists {
    // Its answer on two graphs.
    fn answer(self, alloc: Global, first: &Source<'_>, second: &Source<'_>) -> Result<Graph, Panic>
        ensures { IsAnswerOf (of_graphs (on_lists self) first.now second.now) result }
    {
        match self {
            OnLists::Union { multi, directed } => gunion_of(alloc, first, second, multi, directed),
            OnLists::Intersection { multi, directed } => {
                intersection_of(alloc, first, second, multi, directed)
            }
            OnLists::Product { kind, directed } => {
                product_of(alloc, first, second, kind, directed)
            }
        }
    }

    // The second operand as it is read: where its lists are read again and again, it is built.
    fn second(self, alloc: Global, operand: Operand) -> Result<Operand, Panic>
        ensures ok { IfOk result (λ o. graph_held o ≡ graph_held operand) }
        ensures memory { IsOkUnless result Panic.NoRoom }
    {
        if self.reads_once() {
            return Ok(operand);
        }
        let graph = operand.graph(alloc)?;
        Ok(Operand::Built(graph))
    }

    // Whether each list of the second operand is read once: in a product with steps in both coordinates none is.
    fn reads_once(self) -> bool {
        match self {
            OnLists::Product { kind, directed: _ } => kind == 0,
            OnLists::Union { .. } | OnLists::Intersection { .. } => true,
        }
    }
}

/// The graph of an operand.
#[derive(Drop)]
pub(crate) enum Operand {
    /// It is built.
    Built(Graph),
    /// A generator's, by its accepted parameters.
    Listed(Local),
}

impl Operand {
    // What its lists have in common, where it is a generator's. `None` where that is not kept, or out of memory.
    fn lists(&self, alloc: Global) -> Option<LocalLists<'_>>
        ensures { IfSome result (λ l. graph_held self.now ≡ graph_described (described l)) }
    {
        match self {
            Operand::Listed(local) => local.lists(alloc),
            Operand::Built(_) => None,
        }
    }

    // So many arcs are on its lists at most, where that is known at once, and else 0. It is told for room alone.
    fn most_arcs(&self, alloc: Global) -> usize {
        match self {
            Operand::Listed(Local::Board(board)) => counted(board.arcs_count()),
            _ => 0,
        }
    }

    // The graph, which is built now where it was not.
    fn graph(self, alloc: Global) -> Result<Graph, Panic>
        ensures ok { IfOk result (λ g. g ≡ graph_held self) }
        ensures memory { IsOkUnless result Panic.NoRoom }
    {
        match self {
            Operand::Built(graph) => Ok(graph),
            Operand::Listed(local) => local.graph(alloc),
        }
    }
}

/// The graph of a generator, as an operand.
///
/// The generator's refusal, or `NoRoom` when out of memory.
pub(crate) fn generated(alloc: Global, generator: &Generator) -> Result<Operand, Panic>
    ensures ok { IfOk result (λ o. made (generator_value generator.now) ≡ Ok (graph_held o)) }
    ensures err { IfErr result (λ p. IsValue (made (generator_value generator.now)) (Err p)) }
    ensures refused { (p : Panic) → IsGeneratorRefused generator.now p → result ≡ Err p }
{
    let local = local_of(alloc, generator)?;
    Ok(Operand::Listed(local))
}

/// The graph of a generator.
///
/// The generator's refusal, or `NoRoom` when out of memory. It stands by itself, as `answer_of` does.
#[inline(never)]
pub(crate) fn generated_graph(alloc: Global, generator: &Generator) -> Result<Graph, Panic>
    ensures answer { IsAnswerOf (generator_value generator.now) result }
    ensures refused { (p : Panic) → IsGeneratorRefused generator.now p → result ≡ Err p }
{
    generator.graph(alloc)
}

/// The answer of an operation on an operand, which is then dropped. The lists of a generator's graph are read as
/// they are handed out, with no graph built.
///
/// The refusal of the operation, or `NoRoom` when out of memory. It stands by itself, as `answer_of` does.
#[inline(never)]
pub(crate) fn answer_of_one(
    alloc: Global,
    operation: OnList,
    operand: Operand,
) -> Result<Graph, Panic>
    ensures { IsAnswerOf (of_graph (on_list operation) (graph_held operand)) result }
{
    if let Some(lists) = operand.lists(alloc) {
        return operation.answer(alloc, &Source::listed(&lists));
    }
    let graph = operand.graph(alloc)?;
    operation.answer(alloc, &Source::built(&graph))
}

/// The line graph of an operand, which is then dropped. Where it is not directed the operand is built: whether it consists of
/// edges is told by its records.
///
/// The refusal of the operation, or `NoRoom` when out of memory. It stands by itself, as `answer_of` does.
#[inline(never)]
pub(crate) fn lines_of_operand(
    alloc: Global,
    operand: Operand,
    directed: bool,
) -> Result<Graph, Panic>
    ensures { IsAnswerOf (of_graph (Lines directed) (graph_held operand)) result }
{
    if directed {
        return answer_of_one(alloc, OnList::DirectedLines, operand);
    }
    let graph = operand.graph(alloc)?;
    lines(alloc, &graph, false)
}

/// The graph that entries induce of an operand, which are both dropped then: with loops, parallel arcs and arcs, or without them.
///
/// The refusal of the operation, or `NoRoom` when out of memory. It stands by itself, as `answer_of` does.
#[inline(never)]
pub(crate) fn induced_of_operand(
    alloc: Global,
    operand: Operand,
    entries: Vec<KeptEntry>,
    self_loops: bool,
    multi: bool,
    directed: bool,
) -> Result<Graph, Panic>
    ensures { IsAnswerOf (induced_of (graph_held operand) entries.items self_loops multi directed)
        result }
{
    if let Some(lists) = operand.lists(alloc) {
        let source = Source::listed(&lists);
        return induced_of(alloc, &source, entries, self_loops, multi, directed);
    }
    let graph = operand.graph(alloc)?;
    let source = Source::built(&graph);
    induced_of(alloc, &source, entries, self_loops, multi, directed)
}

/// The answer of an operation on two operands, which are then dropped.
///
/// The refusal of the second comes first. It stands by itself: its stack is not that of operations in one another.
#[inline(never)]
pub(crate) fn answer_of(
    alloc: Global,
    operation: OnLists,
    first: Operand,
    second: Result<Operand, Panic>,
) -> Result<Graph, Panic>
    ensures ok { IfOk second (λ o. IsAnswerOf
        (of_graphs (on_lists operation) (graph_held first) (graph_held o)) result) }
    ensures refused { IfErr second (λ p. result ≡ Err p) }
{
    let second = second?;
    answer_of_two(alloc, operation, first, second)
}

// The answer on two operands.
fn answer_of_two(
    alloc: Global,
    operation: OnLists,
    first: Operand,
    second: Operand,
) -> Result<Graph, Panic>
    ensures { IsAnswerOf (of_graphs (on_lists operation) (graph_held first) (graph_held second))
        result }
{
    let second = operation.second(alloc, second)?;
    let most_arcs = first.most_arcs(alloc);
    if let Some(lists) = first.lists(alloc) {
        let source = Source::listed(&lists).with_most_arcs(most_arcs);
        return answer_with(alloc, operation, &source, second);
    }
    let graph = first.graph(alloc)?;
    answer_with(alloc, operation, &Source::built(&graph), second)
}

// The answer on a graph that is read and an operand.
fn answer_with(
    alloc: Global,
    operation: OnLists,
    first: &Source<'_>,
    second: Operand,
) -> Result<Graph, Panic>
    ensures { IsAnswerOf (of_graphs (on_lists operation) first.now (graph_held second)) result }
{
    let most_arcs = second.most_arcs(alloc);
    if let Some(lists) = second.lists(alloc) {
        let source = Source::listed(&lists).with_most_arcs(most_arcs);
        return operation.answer(alloc, first, &source);
    }
    let graph = second.graph(alloc)?;
    operation.answer(alloc, first, &Source::built(&graph))
}

// So many arcs, or 0 where it is not known how many.
fn counted(arcs: Result<u128, Panic>) -> usize {
    match arcs {
        Ok(arcs) => usize::try_from(arcs).unwrap_or(0),
        Err(_) => 0,
    }
}
