//! A run: so many vertices of a graph, one after another; and the vectors of one of a generator's graph.
ghost use Rattle.std.specs.Prelude.{◌≡◌, ◌≤◌, ◌+◌, drop, length};
ghost use Rattle.std.specs.Bool.{OnTrue, OnFalse};

use sgb_vec::{Family, Vector, Vectors};

/// Whether all vertices of this run are among so many.
pub(crate) fn is_there(vertices: u32, first: u32, count: u32) -> bool
    ensures there { OnTrue result (first + count ≤ vertices) }
    ensures not { OnFalse result (first + count ≤ vertices → ⊥) }
{
    u64::from(first) + u64::from(count) <= u64::from(vertices)
}

/// Whether an array of so many starts has one more than vertices, and one of so many values as many as there are.
pub(crate) fn have_places(starts: usize, values: usize, count: u32, known: u128) -> bool
    ensures fit { OnTrue result ((starts ≡ count + 1) × (values ≡ known)) }
    ensures other { OnFalse result ((starts ≡ count + 1) × (values ≡ known) → ⊥) }
{
    starts as u64 == u64::from(count) + 1 && has_places(values, known)
}

// Whether an array of so many values has as many as there are.
fn has_places(values: usize, known: u128) -> bool
    ensures fit { OnTrue result (values ≡ known) }
    ensures other { OnFalse result (values ≡ known → ⊥) }
{
    u128::from(values as u64) == known
}

/// Whether arrays of so many starts, tips and lengths have a start more than vertices, and one of each arc.
pub(crate) fn have_row_places(
    starts: usize,
    tips: usize,
    lengths: usize,
    count: u32,
    arcs: u128,
) -> bool
    ensures fit { OnTrue result ((starts ≡ count + 1) × (tips ≡ arcs) × (lengths ≡ arcs)) }
    ensures other { OnFalse result ((starts ≡ count + 1) × (tips ≡ arcs) × (lengths ≡ arcs) → ⊥) }
{
    have_places(starts, tips, count, arcs) && has_places(lengths, arcs)
}

/// Whether the family has all vectors of this run.
pub(crate) fn has_run<F: Family>(family: &F, first: u32, count: u32) -> bool
    ensures there { OnTrue result (first + count ≤ length (F.members family.now)) }
    ensures not { OnFalse result (first + count ≤ length (F.members family.now) → ⊥) }
{
    u64::from(first) + u64::from(count) <= u64::from(family.size())
}

/// The vectors of the family from a place on.
pub(crate) fn vectors_from<F: Family>(family: &F, place: u32) -> Vectors<'_, F>
    requires { place ≤ length (F.members family.now) }
    ensures { result ≡ drop place (F.members family.now) }
{
    if place == 0 {
        return Vectors::all(family);
    }
    let mut before = Vector::new();
    let _found = family.at(place - 1, &mut before);
    Vectors::after(family, before.as_slice()).unwrap()
}
