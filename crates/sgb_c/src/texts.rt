//! The graph that a text names.
ghost use Rattle.std.specs.Prelude.{◌≡◌, ◌⊎◌, Ok, Err, IfOk, IfErr};
ghost use Rattle.sgb_vec.specs.Results.{IsValue};
ghost use Rattle.sgb_vec.specs.declared.panics.Panic.{Panic};
ghost use Rattle.sgb_vec.specs.declared.panics.Panic.TheVariants as panic;
ghost use Rattle.sgb_gen.specs.Generators.{IsGeneratorRefused, generator_value, made};
ghost use Rattle.sgb_gen.specs.declared.params.Generator.{Generator};
ghost use Rattle.sgb_expr.specs.Expression.{Expression, Generated, expression_of};
ghost use Rattle.sgb_expr.specs.Expressions.{IsExpression, IsTooLarge};
ghost use Rattle.sgb_values.specs.FirstRefusals.{IsRefusedFirst};
ghost use Rattle.sgb_values.specs.Values.{IsValueOn};
ghost use Rattle.sgb_arrays.specs.OpenGraphs.{IsListed, graph_open};
ghost use Rattle.sgb_c.specs.Answers.{IsGraphNamed};
ghost use Rattle.sgb_c.specs.inner.Causes.{IsValueRefusal};
ghost use Rattle.sgb_c.specs.declared.answers.Answer.TheVariants as answer;

use crate::answers::Answer;
use crate::held::Held;
use sgb_arrays::{OpenGraph, PackedGraph};
use sgb_expr::{Expr, read_expr};
use sgb_gen::{Generator, local_of};
use sgb_graph::Graph;
use sgb_values::graph_of;
use sgb_vec::Panic;
use std::alloc::Global;

// The graph that a text names, where `input` is standard input, as a handle holds it: in a block of its own. Or why there is
// none.
pub(crate) fn held_graph(alloc: Global, text: &[u8], input: &[u8]) -> Result<Box<Held>, Answer>
    ensures held { IfOk result
        (λ b. IsGraphNamed text.now input.now (Ok (graph_open b.value.graph))) }
    ensures built { IfOk result (λ b. IsListed b.value.graph
        → (f : Generator) × IsExpression text.now (Generated f)) }
    ensures refused { IfErr result (λ answer. IsGraphNamed text.now input.now (Err answer)) }
    ensures large { IsTooLarge text.now → result ≡ Err answer.TooLarge }
    ensures first { (e : Expression) (p : Panic) → IsExpression text.now e
        → (IsTooLarge text.now → ⊥) → IsRefusedFirst input.now e p
        → (result ≡ Err (answer.Panic p)) ⊎ (result ≡ Err (answer.Panic panic.NoRoom)) }
{
    match graph_named(alloc, text, input) {
        Ok(graph) => boxed(alloc, graph),
        Err(answer) => Err(answer),
    }
}

// A graph in a block of its own.
pub(crate) fn boxed(alloc: Global, graph: OpenGraph) -> Result<Box<Held>, Answer>
    ensures graph { IfOk result (λ b. b.value.graph ≡ graph) }
    ensures memory { IfErr result (λ why. why ≡ answer.Panic panic.NoRoom) }
{
    match Box::new(alloc, Held { graph }) {
        Ok(held) => Ok(held),
        Err(_) => Err(Answer::Panic(Panic::NoRoom)),
    }
}

// The graph of the expression that the text is, where `input` is standard input; or why there is none.
fn graph_named(alloc: Global, text: &[u8], input: &[u8]) -> Result<OpenGraph, Answer>
    ensures named { IfOk result
        (λ held. IsGraphNamed text.now input.now (Ok (graph_open held))) }
    ensures built { IfOk result (λ held. IsListed held
        → (f : Generator) × IsExpression text.now (Generated f)) }
    ensures refused { IfErr result (λ answer. IsGraphNamed text.now input.now (Err answer)) }
    ensures large { IsTooLarge text.now → result ≡ Err answer.TooLarge }
    ensures first { (e : Expression) (p : Panic) → IsExpression text.now e
        → (IsTooLarge text.now → ⊥) → IsRefusedFirst input.now e p
        → (result ≡ Err (answer.Panic p)) ⊎ (result ≡ Err (answer.Panic panic.NoRoom)) }
{
    match read_expr(alloc, text) {
        Ok(expression) => graph_opened(alloc, &expression, input),
        Err(cause) => Err(Answer::from(cause)),
    }
}

// The graph of an expression: of a generator's call its accepted parameters, else the graph, built.
fn graph_opened(alloc: Global, expression: &Expr, input: &[u8]) -> Result<OpenGraph, Answer>
    ensures value { IfOk result
        (λ held. IsValueOn input.now (expression_of expression.now) (Ok (graph_open held))) }
    ensures built { IfOk result (λ held. IsListed held
        → (f : Generator) × (expression_of expression.now ≡ Generated f)) }
    ensures other { IfErr result (IsValueRefusal input.now (expression_of expression.now)) }
    ensures refused { (p : Panic) → IsRefusedFirst input.now (expression_of expression.now) p
        → result ≡ Err (answer.Panic p) }
{
    match expression {
        Expr::Generator(generator) => listed(alloc, generator),
        _ => built(alloc, expression, input),
    }
}

// The graph of a generator's call, which is not built.
fn listed(alloc: Global, generator: &Generator) -> Result<OpenGraph, Answer>
    ensures value { IfOk result
        (λ held. made (generator_value generator.now) ≡ Ok (graph_open held)) }
    ensures other { IfErr result (λ why. (p : Panic) × (why ≡ answer.Panic p)
        × IsValue (made (generator_value generator.now)) (Err p)) }
    ensures refused { (p : Panic) → IsGeneratorRefused generator.now p
        → result ≡ Err (answer.Panic p) }
{
    match local_of(alloc, generator) {
        Ok(local) => Ok(OpenGraph::Listed(local)),
        Err(panic) => Err(Answer::Panic(panic)),
    }
}

// The graph of an expression, built, with its lists as arrays.
fn built(alloc: Global, expression: &Expr, input: &[u8]) -> Result<OpenGraph, Answer>
    ensures value { IfOk result
        (λ held. IsValueOn input.now (expression_of expression.now) (Ok (graph_open held))) }
    ensures built { IfOk result (λ held. IsListed held → ⊥) }
    ensures other { IfErr result (IsValueRefusal input.now (expression_of expression.now)) }
    ensures refused { (p : Panic) → IsRefusedFirst input.now (expression_of expression.now) p
        → result ≡ Err (answer.Panic p) }
{
    match graph_of(alloc, expression, input) {
        Ok(graph) => packed(alloc, graph),
        Err(panic) => Err(Answer::Panic(panic)),
    }
}

// A graph with its lists as arrays.
pub(crate) fn packed(alloc: Global, graph: Graph) -> Result<OpenGraph, Answer>
    ensures graph { IfOk result (λ held. graph_open held ≡ graph) }
    ensures built { IfOk result (λ held. IsListed held → ⊥) }
    ensures memory { IfErr result (λ why. why ≡ answer.Panic panic.NoRoom) }
{
    match PackedGraph::new(alloc, graph) {
        Ok(packed) => Ok(OpenGraph::Built(packed)),
        Err(panic) => Err(Answer::Panic(panic)),
    }
}
