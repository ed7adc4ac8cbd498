//! The arguments of each generator's form, and the graph that they name.
ghost use Rattle.std.specs.Prelude.{◌≡◌, ◌<◌, ◌^◌, IfOk, [], ◌∷◌, codes, nat_abs};
ghost use Rattle.sgb_expr.specs.Forms.{board_params, simplex_params, subsets_params};
ghost use Rattle.sgb_expr.specs.inner.Gives.{Finds};
ghost use Rattle.sgb_expr.specs.inner.Reading.{generator_at, subsets_at};
ghost use Rattle.sgb_expr.specs.inner.Readings.{integers_at};
// For the search alone.
ghost use Rattle.sgb_gen.specs.Shorthands.{complete, transitive, empty, circuit, cycle, disjoint_subsets, petersen};

use crate::names::GeneratorName;
use crate::numbers::{bits, integers};
use crate::wrong::Mismatch;
use sgb_gen::{
    BoardParams, Generator, SimplexParams, SubsetsParams, circuit, complete, cycle,
    disjoint_subsets, empty, petersen, transitive,
};

/// The graph of the generator whose name has been read, and the text after its `)`; or where the text goes wrong.
pub(crate) fn generator(name: GeneratorName, text: &[u8]) -> Result<(Generator, &[u8]), Mismatch>
    ensures { Finds (λ x. (x.0, x.1.now)) result (generator_at name text.now) }
{
    match name {
        GeneratorName::Board => {
            let (numbers, rest) = integers(b"", text, b")")?;
            Ok((Generator::Board(board(numbers)), rest))
        }
        GeneratorName::Simplex => {
            let (numbers, rest) = integers(b"", text, b")")?;
            Ok((Generator::Simplex(simplex(numbers)), rest))
        }
        GeneratorName::Subsets => subsets_arguments(text),
        GeneratorName::Complete => one(text).map(|(n, rest)| (Generator::Board(complete(n)), rest)),
        GeneratorName::Transitive => one(text).map(|(n, rest)| (
            Generator::Board(transitive(n)),
            rest,
        )),
        GeneratorName::Empty => one(text).map(|(n, rest)| (Generator::Board(empty(n)), rest)),
        GeneratorName::Circuit => one(text).map(|(n, rest)| (Generator::Board(circuit(n)), rest)),
        GeneratorName::Cycle => one(text).map(|(n, rest)| (Generator::Board(cycle(n)), rest)),
        GeneratorName::DisjointSubsets => {
            let ([n, k], rest) = integers::<2>(b"", text, b")")?;
            Ok((Generator::Subsets(disjoint_subsets(n, k)), rest))
        }
        GeneratorName::Petersen => {
            let ([], rest) = integers::<0>(b"", text, b")")?;
            Ok((Generator::Subsets(petersen()), rest))
        }
    }
}

// The integer of a form that has one, and the text after its `)`.
fn one(text: &[u8]) -> Result<(i64, &[u8]), Mismatch>
    ensures read { Finds (λ x. (x.0 ∷ [], x.1.now)) result (integers_at [] 1 (codes ")") text.now) }
    ensures bound { IfOk result (λ x. nat_abs x.0 < 10 ^ 18) }
{
    let ([n], rest) = integers::<1>(b"", text, b")")?;
    Ok((n, rest))
}

// The arguments of subsets, of which the seventh is bits.
fn subsets_arguments(text: &[u8]) -> Result<(Generator, &[u8]), Mismatch>
    ensures { Finds (λ x. (x.0, x.1.now)) result (subsets_at text.now) }
{
    let (numbers, rest) = integers(b"", text, b",")?;
    let (size_bits, rest) = bits(rest)?;
    let ([directed], rest) = integers::<1>(b",", rest, b")")?;
    Ok((
        Generator::Subsets(subsets(numbers, size_bits, directed)),
        rest,
    ))
}

// The board of these numbers, in the order of its name.
fn board(numbers: [i64; 7]) -> BoardParams
    ensures { result ≡ board_params numbers }
{
    let [n1, n2, n3, n4, piece, wrap, directed] = numbers;
    BoardParams {
        n1,
        n2,
        n3,
        n4,
        piece,
        wrap,
        directed: directed != 0,
    }
}

// The simplex of these numbers, in the order of its name.
fn simplex(numbers: [i64; 7]) -> SimplexParams
    ensures { result ≡ simplex_params numbers }
{
    let [n, n0, n1, n2, n3, n4, directed] = numbers;
    SimplexParams {
        n,
        n0,
        n1,
        n2,
        n3,
        n4,
        directed: directed != 0,
    }
}

// The subsets of these numbers, in the order of their name.
fn subsets(numbers: [i64; 6], size_bits: u128, directed: i64) -> SubsetsParams
    ensures { result ≡ subsets_params numbers size_bits directed }
{
    let [n, n0, n1, n2, n3, n4] = numbers;
    SubsetsParams {
        n,
        n0,
        n1,
        n2,
        n3,
        n4,
        size_bits,
        directed: directed != 0,
    }
}
