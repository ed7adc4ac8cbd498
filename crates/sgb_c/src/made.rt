//! Graphs that are made, and held by a handle then.
ghost use Rattle.std.specs.Prelude.{◌≡◌, None, Some, Ok, Err, IfErr, IfOk};
ghost use Rattle.std.specs.Option.{option_map};
ghost use Rattle.sgb_vec.specs.declared.panics.Panic.{Panic};
ghost use Rattle.sgb_vec.specs.declared.panics.Panic.TheVariants as panic;
ghost use Rattle.sgb_arrays.specs.OpenGraphs.{IsListed, graph_open};
ghost use Rattle.sgb_arrays.specs.Given.{fault_of, graph_given};
ghost use Rattle.sgb_c.specs.Answers.{number_of};
ghost use Rattle.sgb_c.specs.Handles.{IsListedIn, graph_in};
ghost use Rattle.sgb_c.specs.Made.{IsGiven, IsMade, of_both};
ghost use Rattle.sgb_c.specs.inner.Operations.{IsPut, of_graph, of_graphs};
ghost use Rattle.sgb_c.specs.declared.answers.Answer.TheVariants as answer;

use crate::answers::Answer;
use crate::handles::GraphHandle;
use crate::held::Held;
use crate::operated::{OnGraph, OnGraphs, graph_of_one, graph_of_two};
use crate::texts::{boxed, packed};
use sgb_arrays::graph_given;
use sgb_graph::Graph;
use sgb_vec::Panic;
use std::alloc::Global;

impl GraphHandle {
    // Holds the graph that was made, where it was; the number of the answer.
    pub(crate) fn put_made(&mut self, alloc: Global, made: Result<Graph, Panic>) -> u64
        ensures { IsPut made self.old.held.value self.new.held.value result }
    {
        match made {
            Ok(graph) => self.put_graph(alloc, graph),
            Err(panic) => Answer::Panic(panic).number(),
        }
    }

    // Holds a graph that is built.
    pub(crate) fn put_graph(&mut self, alloc: Global, graph: Graph) -> u64
        ensures { IsPut (Ok graph) self.old.held.value self.new.held.value result }
    {
        match held_made(alloc, graph) {
            Ok(held) => {
                self.put(held);
                Answer::Done.number()
            }
            Err(answer) => answer.number(),
        }
    }

    // Makes a graph of one that is open, and holds it.
    pub(crate) fn make_of_one(
        &mut self,
        alloc: Global,
        operation: OnGraph,
        graph: &mut GraphHandle,
    ) -> u64
        ensures made { IsMade (option_map (of_graph operation) (graph_in graph.old))
            (graph_in self.old) (graph_in self.new) result }
        ensures left { (result ≡ number_of answer.Done → ⊥)
            → self.new.held.value ≡ self.old.held.value }
        ensures built { graph_in self.old ≡ None → IsListedIn self.new → ⊥ }
        ensures kept { graph.new.held.value ≡ graph.old.held.value }
    {
        if self.is_open() {
            return Answer::AlreadyOpen.number();
        }
        match graph.lend() {
            Some(held) => {
                let made = graph_of_one(alloc, operation, &held.graph);
                self.put_made(alloc, made)
            }
            None => Answer::NotOpen.number(),
        }
    }

    // Makes a graph of two that are open, and holds it.
    pub(crate) fn make_of_two(
        &mut self,
        alloc: Global,
        operation: OnGraphs,
        first: &mut GraphHandle,
        second: &mut GraphHandle,
    ) -> u64
        ensures made { IsMade
            (of_both (of_graphs operation) (graph_in first.old) (graph_in second.old))
            (graph_in self.old) (graph_in self.new) result }
        ensures refused { (p : Panic) → graph_in self.old ≡ None
            → of_both (of_graphs operation) (graph_in first.old) (graph_in second.old)
            ≡ Some (Err p) → result ≡ number_of (answer.Panic p) }
        ensures left { (result ≡ number_of answer.Done → ⊥)
            → self.new.held.value ≡ self.old.held.value }
        ensures built { graph_in self.old ≡ None → IsListedIn self.new → ⊥ }
        ensures first { first.new.held.value ≡ first.old.held.value }
        ensures second { second.new.held.value ≡ second.old.held.value }
    {
        if self.is_open() {
            return Answer::AlreadyOpen.number();
        }
        let Some(one) = first.lend() else {
            return Answer::NotOpen.number();
        };
        match second.lend() {
            Some(other) => {
                let made = graph_of_two(alloc, operation, &one.graph, &other.graph);
                self.put_made(alloc, made)
            }
            None => Answer::NotOpen.number(),
        }
    }

    // Makes a graph of one that is open as both operands, and holds it.
    pub(crate) fn make_of_itself(
        &mut self,
        alloc: Global,
        operation: OnGraphs,
        graph: &mut GraphHandle,
    ) -> u64
        ensures made { IsMade
            (of_both (of_graphs operation) (graph_in graph.old) (graph_in graph.old))
            (graph_in self.old) (graph_in self.new) result }
        ensures refused { (p : Panic) → graph_in self.old ≡ None
            → of_both (of_graphs operation) (graph_in graph.old) (graph_in graph.old)
            ≡ Some (Err p) → result ≡ number_of (answer.Panic p) }
        ensures left { (result ≡ number_of answer.Done → ⊥)
            → self.new.held.value ≡ self.old.held.value }
        ensures built { graph_in self.old ≡ None → IsListedIn self.new → ⊥ }
        ensures kept { graph.new.held.value ≡ graph.old.held.value }
    {
        if self.is_open() {
            return Answer::AlreadyOpen.number();
        }
        match graph.lend() {
            Some(held) => {
                let made = graph_of_two(alloc, operation, &held.graph, &held.graph);
                self.put_made(alloc, made)
            }
            None => Answer::NotOpen.number(),
        }
    }
}

// A graph that is built, as a handle holds it: in a block of its own.
fn held_made(alloc: Global, graph: Graph) -> Result<Box<Held>, Answer>
    ensures graph { IfOk result (λ b. graph_open b.value.graph ≡ graph) }
    ensures built { IfOk result (λ b. IsListed b.value.graph → ⊥) }
    ensures memory { IfErr result (λ why. why ≡ answer.Panic panic.NoRoom) }
{
    match packed(alloc, graph) {
        Ok(graph) => boxed(alloc, graph),
        Err(answer) => Err(answer),
    }
}

/// Makes the graph of these names and of these arcs, or edges unless `directed`, each put in order.
#[unsafe(no_mangle)]
pub extern "C" fn sgb_make(
    alloc: Global,
    name_starts: &[u64],
    names: &[u8],
    from: &[u32],
    to: &[u32],
    lengths: &[i64],
    directed: bool,
    id: &[u8],
    made: &mut GraphHandle,
) -> u64
    ensures made { IsGiven
        (fault_of name_starts.now names.now from.now to.now lengths.now id.now)
        (graph_given name_starts.now names.now from.now to.now lengths.now directed id.now)
        (graph_in made.old) (graph_in made.new) result }
    ensures left { (result ≡ number_of answer.Done → ⊥)
        → made.new.held.value ≡ made.old.held.value }
    ensures built { graph_in made.old ≡ None → IsListedIn made.new → ⊥ }
{
    if made.is_open() {
        return Answer::AlreadyOpen.number();
    }
    match graph_given(alloc, name_starts, names, from, to, lengths, directed, id) {
        Ok(graph) => made.put_graph(alloc, graph),
        Err(cause) => Answer::from(cause).number(),
    }
}
