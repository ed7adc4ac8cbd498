//! Wheels: vertices in the middle, each joined to all those of a rim (GB_BASIC, wheel).
ghost use Rattle.std.specs.Prelude.{◌≡◌, [], ◌∷◌, Ok, Err, IfOk, IfErr, IsOkUnless};
ghost use Rattle.sgb_graph.specs.Descriptions.{IsAnswerOf};
ghost use Rattle.sgb_gen.specs.Boards.{board};
ghost use Rattle.sgb_ops.specs.Wheel.{accepted_middle, accepted_rim, wheel_of};
ghost use Rattle.sgb_ops.specs.inner.Boards.{rim_entry, rim_of_wheel};

use crate::boards::{pair_of_vertices, rim_of_wheel};
use crate::circles::Circle;
use crate::compounds::numbers_id;
use crate::induced_graphs::{KeptEntry, induced_from};
use sgb_graph::Graph;
use sgb_vec::{MOST_VERTICES, Panic};
use std::alloc::Global;

/// The wheel of `n` vertices in a circle around `n1` in the middle (GB_BASIC, wheel): `induced` of the board of two
/// vertices, with `n1` copies of the first and a cycle of `n` vertices in the place of the second, so that each in the
/// middle is joined to each of the rim, with arcs from the middle where `directed` and edges where not. Where `n` is not
/// positive, the rim is the board of 8 by 8. The id is `wheel(n,n1,directed)`.
///
/// `Bad` where `n1` is negative; else `VeryBad` where it is above 1,000,000,000; else where `n` is, all whatever memory
/// there is; or where they make more than 1,000,000,000 vertices. `NoRoom` when out of memory.
pub fn wheel(alloc: Global, n: i64, n1: i64, directed: bool) -> Result<Graph, Panic>
    ensures answer { IsAnswerOf (wheel_of n n1 directed) result }
    ensures refused { (e : Panic) → accepted_rim n n1 directed ≡ Err e → result ≡ Err e }
{
    let middle = accepted_middle(n1)?;
    wheel_around(alloc, n, n1, middle, directed)
}

// The wheel of these numbers, whose middle is this entry.
fn wheel_around(
    alloc: Global,
    n: i64,
    n1: i64,
    middle: KeptEntry,
    directed: bool,
) -> Result<Graph, Panic>
    requires { accepted_middle n1 ≡ Ok middle }
    ensures answer { IsAnswerOf (wheel_of n n1 directed) result }
    ensures refused { (e : Panic) → board (rim_of_wheel n directed) ≡ Err e → result ≡ Err e }
{
    let rim = rim_entry(alloc, n, directed)?;
    let entries = entries(alloc, middle, rim)?;
    let pair = pair_of_vertices(alloc, directed)?;
    let mut built = induced_from(alloc, &pair, entries, false, false, directed)?;
    built.set_id(numbers_id(b"wheel(", n, n1, directed));
    Ok(built)
}

// The entries: the middle, and then the rim.
fn entries(alloc: Global, middle: KeptEntry, rim: KeptEntry) -> Result<Vec<KeptEntry>, Panic>
    ensures ok { IfOk result (λ es. es.items ≡ middle ∷ rim ∷ []) }
    ensures memory { IsOkUnless result Panic.NoRoom }
{
    Ok(vec![in alloc; middle, rim]?)
}

// The entry of the rim. With edges it is a circle that is not built, where it has three vertices and more.
fn rim_entry(alloc: Global, n: i64, directed: bool) -> Result<KeptEntry, Panic>
    ensures ok { IfOk result (λ rim. rim_entry n directed ≡ Ok rim) }
    ensures err { IfErr result (λ e. IsAnswerOf (board (rim_of_wheel n directed)) (Err e)) }
    ensures refused { (e : Panic) → board (rim_of_wheel n directed) ≡ Err e → result ≡ Err e }
{
    if directed {
        return built_rim(alloc, n, directed);
    }
    match Circle::new(n) {
        Some(circle) => Ok(KeptEntry::circle(circle)),
        None => built_rim(alloc, n, directed),
    }
}

// That of the rim, built.
fn built_rim(alloc: Global, n: i64, directed: bool) -> Result<KeptEntry, Panic>
    ensures ok { IfOk result (λ rim. rim_entry n directed ≡ Ok rim) }
    ensures err { IfErr result (λ e. IsAnswerOf (board (rim_of_wheel n directed)) (Err e)) }
    ensures refused { (e : Panic) → board (rim_of_wheel n directed) ≡ Err e → result ≡ Err e }
{
    let graph = rim_of_wheel(alloc, n, directed)?;
    let boxed = Box::new(alloc, graph)?;
    Ok(KeptEntry::graph(boxed))
}

// The entry of so many vertices in the middle.
fn accepted_middle(n1: i64) -> Result<KeptEntry, Panic>
    ensures ok { IfOk result (λ middle. accepted_middle n1 ≡ Ok middle) }
    ensures refused { IfErr result (λ e. accepted_middle n1 ≡ Err e) }
{
    if n1 < 0 {
        return Err(Panic::Bad);
    }
    if n1 > i64::from(MOST_VERTICES) {
        return Err(Panic::VeryBad);
    }
    Ok(KeptEntry::copies(n1 as u32))
}
