//! The exports of operations: on graphs that are open, and on numbers (GB_BASIC). What is made is built, and held by another
//! handle; operands stay as they are.
ghost use Rattle.std.specs.Prelude.{◌≡◌, None, Some, Err};
ghost use Rattle.std.specs.Option.{option_map};
ghost use Rattle.sgb_vec.specs.declared.panics.Panic.{Panic};
ghost use Rattle.sgb_ops.specs.BiComplete.{accepted_parts, bi_complete_of};
ghost use Rattle.sgb_ops.specs.Complement.{complement_of};
ghost use Rattle.sgb_ops.specs.Gunion.{gunion_of};
ghost use Rattle.sgb_ops.specs.Intersection.{intersection_of};
ghost use Rattle.sgb_ops.specs.Lines.{line_graph_of};
ghost use Rattle.sgb_ops.specs.Product.{product_graph_of};
ghost use Rattle.sgb_ops.specs.Wheel.{accepted_rim, wheel_of};
ghost use Rattle.sgb_c.specs.Answers.{number_of};
ghost use Rattle.sgb_c.specs.Handles.{IsListedIn, graph_in};
ghost use Rattle.sgb_c.specs.Made.{IsMade, of_both};

use crate::answers::Answer;
use crate::handles::GraphHandle;
use crate::operated::{OnGraph, OnGraphs};
use sgb_ops::{bi_complete, wheel};
use std::alloc::Global;

/// The complement of the graph that is open, or with `copy` a copy of it without parallel arcs (GB_BASIC, complement).
#[unsafe(no_mangle)]
pub extern "C" fn sgb_complement(
    alloc: Global,
    graph: &mut GraphHandle,
    copy: bool,
    self_loops: bool,
    directed: bool,
    made: &mut GraphHandle,
) -> u64
    ensures made { IsMade
        (option_map (λ g. complement_of g copy self_loops directed) (graph_in graph.old))
        (graph_in made.old) (graph_in made.new) result }
    ensures left { (result ≡ number_of Answer.Done → ⊥)
        → made.new.held.value ≡ made.old.held.value }
    ensures built { graph_in made.old ≡ None → IsListedIn made.new → ⊥ }
    ensures kept { graph.new.held.value ≡ graph.old.held.value }
{
    let operation = OnGraph::Complement {
        copy,
        self_loops,
        directed,
    };
    made.make_of_one(alloc, operation, graph)
}

/// The line graph of the graph that is open (GB_BASIC, lines).
#[unsafe(no_mangle)]
pub extern "C" fn sgb_lines(
    alloc: Global,
    graph: &mut GraphHandle,
    directed: bool,
    made: &mut GraphHandle,
) -> u64
    ensures made { IsMade (option_map (λ g. line_graph_of g directed) (graph_in graph.old))
        (graph_in made.old) (graph_in made.new) result }
    ensures left { (result ≡ number_of Answer.Done → ⊥)
        → made.new.held.value ≡ made.old.held.value }
    ensures built { graph_in made.old ≡ None → IsListedIn made.new → ⊥ }
    ensures kept { graph.new.held.value ≡ graph.old.held.value }
{
    let operation = OnGraph::Lines { directed };
    made.make_of_one(alloc, operation, graph)
}

/// The union of two graphs that are open (GB_BASIC, gunion).
#[unsafe(no_mangle)]
pub extern "C" fn sgb_gunion_of(
    alloc: Global,
    first: &mut GraphHandle,
    second: &mut GraphHandle,
    multi: bool,
    directed: bool,
    made: &mut GraphHandle,
) -> u64
    ensures made { IsMade
        (of_both (λ g h. gunion_of g h multi directed) (graph_in first.old) (graph_in second.old))
        (graph_in made.old) (graph_in made.new) result }
    ensures left { (result ≡ number_of Answer.Done → ⊥)
        → made.new.held.value ≡ made.old.held.value }
    ensures built { graph_in made.old ≡ None → IsListedIn made.new → ⊥ }
    ensures first { first.new.held.value ≡ first.old.held.value }
    ensures second { second.new.held.value ≡ second.old.held.value }
{
    let operation = OnGraphs::Gunion { multi, directed };
    made.make_of_two(alloc, operation, first, second)
}

/// The union of the graph that is open and itself (GB_BASIC, gunion).
#[unsafe(no_mangle)]
pub extern "C" fn sgb_gunion_self(
    alloc: Global,
    graph: &mut GraphHandle,
    multi: bool,
    directed: bool,
    made: &mut GraphHandle,
) -> u64
    ensures made { IsMade
        (of_both (λ g h. gunion_of g h multi directed) (graph_in graph.old) (graph_in graph.old))
        (graph_in made.old) (graph_in made.new) result }
    ensures left { (result ≡ number_of Answer.Done → ⊥)
        → made.new.held.value ≡ made.old.held.value }
    ensures built { graph_in made.old ≡ None → IsListedIn made.new → ⊥ }
    ensures kept { graph.new.held.value ≡ graph.old.held.value }
{
    let operation = OnGraphs::Gunion { multi, directed };
    made.make_of_itself(alloc, operation, graph)
}

/// The intersection of two graphs that are open (GB_BASIC, intersection).
#[unsafe(no_mangle)]
pub extern "C" fn sgb_intersection_of(
    alloc: Global,
    first: &mut GraphHandle,
    second: &mut GraphHandle,
    multi: bool,
    directed: bool,
    made: &mut GraphHandle,
) -> u64
    ensures made { IsMade
        (of_both (λ g h. intersection_of g h multi directed)
        (graph_in first.old) (graph_in second.old))
        (graph_in made.old) (graph_in made.new) result }
    ensures left { (result ≡ number_of Answer.Done → ⊥)
        → made.new.held.value ≡ made.old.held.value }
    ensures built { graph_in made.old ≡ None → IsListedIn made.new → ⊥ }
    ensures first { first.new.held.value ≡ first.old.held.value }
    ensures second { second.new.held.value ≡ second.old.held.value }
{
    let operation = OnGraphs::Intersection { multi, directed };
    made.make_of_two(alloc, operation, first, second)
}

/// The intersection of the graph that is open and itself (GB_BASIC, intersection).
#[unsafe(no_mangle)]
pub extern "C" fn sgb_intersection_self(
    alloc: Global,
    graph: &mut GraphHandle,
    multi: bool,
    directed: bool,
    made: &mut GraphHandle,
) -> u64
    ensures made { IsMade
        (of_both (λ g h. intersection_of g h multi directed)
        (graph_in graph.old) (graph_in graph.old))
        (graph_in made.old) (graph_in made.new) result }
    ensures left { (result ≡ number_of Answer.Done → ⊥)
        → made.new.held.value ≡ made.old.held.value }
    ensures built { graph_in made.old ≡ None → IsListedIn made.new → ⊥ }
    ensures kept { graph.new.held.value ≡ graph.old.held.value }
{
    let operation = OnGraphs::Intersection { multi, directed };
    made.make_of_itself(alloc, operation, graph)
}

/// The product of two graphs that are open (GB_BASIC, product).
#[unsafe(no_mangle)]
pub extern "C" fn sgb_product_of(
    alloc: Global,
    first: &mut GraphHandle,
    second: &mut GraphHandle,
    kind: i64,
    directed: bool,
    made: &mut GraphHandle,
) -> u64
    ensures made { IsMade
        (of_both (λ g h. product_graph_of g h kind directed)
        (graph_in first.old) (graph_in second.old))
        (graph_in made.old) (graph_in made.new) result }
    ensures refused { (p : Panic) → graph_in made.old ≡ None
        → of_both (λ g h. product_graph_of g h kind directed)
        (graph_in first.old) (graph_in second.old)
        ≡ Some (Err p) → result ≡ number_of (Answer.Panic p) }
    ensures left { (result ≡ number_of Answer.Done → ⊥)
        → made.new.held.value ≡ made.old.held.value }
    ensures built { graph_in made.old ≡ None → IsListedIn made.new → ⊥ }
    ensures first { first.new.held.value ≡ first.old.held.value }
    ensures second { second.new.held.value ≡ second.old.held.value }
{
    let operation = OnGraphs::Product { kind, directed };
    made.make_of_two(alloc, operation, first, second)
}

/// The product of the graph that is open and itself (GB_BASIC, product).
#[unsafe(no_mangle)]
pub extern "C" fn sgb_product_self(
    alloc: Global,
    graph: &mut GraphHandle,
    kind: i64,
    directed: bool,
    made: &mut GraphHandle,
) -> u64
    ensures made { IsMade
        (of_both (λ g h. product_graph_of g h kind directed)
        (graph_in graph.old) (graph_in graph.old))
        (graph_in made.old) (graph_in made.new) result }
    ensures refused { (p : Panic) → graph_in made.old ≡ None
        → of_both (λ g h. product_graph_of g h kind directed)
        (graph_in graph.old) (graph_in graph.old)
        ≡ Some (Err p) → result ≡ number_of (Answer.Panic p) }
    ensures left { (result ≡ number_of Answer.Done → ⊥)
        → made.new.held.value ≡ made.old.held.value }
    ensures built { graph_in made.old ≡ None → IsListedIn made.new → ⊥ }
    ensures kept { graph.new.held.value ≡ graph.old.held.value }
{
    let operation = OnGraphs::Product { kind, directed };
    made.make_of_itself(alloc, operation, graph)
}

/// The complete bipartite graph of so many vertices (GB_BASIC, bi_complete).
#[unsafe(no_mangle)]
pub extern "C" fn sgb_bi_complete(
    alloc: Global,
    n1: i64,
    n2: i64,
    directed: bool,
    made: &mut GraphHandle,
) -> u64
    ensures made { IsMade (Some (bi_complete_of n1 n2 directed))
        (graph_in made.old) (graph_in made.new) result }
    ensures refused { (p : Panic) → graph_in made.old ≡ None → accepted_parts n1 n2 ≡ Err p
        → result ≡ number_of (Answer.Panic p) }
    ensures left { (result ≡ number_of Answer.Done → ⊥)
        → made.new.held.value ≡ made.old.held.value }
    ensures built { graph_in made.old ≡ None → IsListedIn made.new → ⊥ }
{
    if made.is_open() {
        return Answer::AlreadyOpen.number();
    }
    let graph = bi_complete(alloc, n1, n2, directed);
    made.put_made(alloc, graph)
}

/// The wheel of so many vertices (GB_BASIC, wheel).
#[unsafe(no_mangle)]
pub extern "C" fn sgb_wheel(
    alloc: Global,
    n: i64,
    n1: i64,
    directed: bool,
    made: &mut GraphHandle,
) -> u64
    ensures made { IsMade (Some (wheel_of n n1 directed)) (graph_in made.old) (graph_in made.new)
        result }
    ensures refused { (p : Panic) → graph_in made.old ≡ None
        → accepted_rim n n1 directed ≡ Err p
        → result ≡ number_of (Answer.Panic p) }
    ensures left { (result ≡ number_of Answer.Done → ⊥)
        → made.new.held.value ≡ made.old.held.value }
    ensures built { graph_in made.old ≡ None → IsListedIn made.new → ⊥ }
{
    if made.is_open() {
        return Answer::AlreadyOpen.number();
    }
    let graph = wheel(alloc, n, n1, directed);
    made.put_made(alloc, graph)
}
