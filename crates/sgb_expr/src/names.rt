//! The names of the forms of expressions.
ghost use Rattle.std.specs.Prelude.{◌≡◌};
ghost use Rattle.sgb_expr.specs.inner.Gives.{Finds};
ghost use Rattle.sgb_expr.specs.Names.{name_opening};
ghost use Rattle.sgb_expr.specs.inner.Names.{openings};
ghost use Rattle.sgb_text.proofs.Readings.{word_at};

use crate::numbers::fixed;
use crate::wrong::Mismatch;

/// The name of a generator, or a short name of some of its graphs.
#[derive(Clone, Copy, Debug, PartialEq, Eq)]
pub(crate) enum GeneratorName {
    Board,
    Simplex,
    Subsets,
    Complete,
    Transitive,
    Empty,
    Circuit,
    Cycle,
    DisjointSubsets,
    Petersen,
}

/// The name of a form.
#[derive(Clone, Copy, Debug, PartialEq, Eq)]
pub(crate) enum FormName {
    Generator(GeneratorName),
    Complement,
    Gunion,
    Intersection,
    Lines,
    Product,
    Induced,
    BiComplete,
    Wheel,
    Stdin,
}

// Each name, once.
const ALL: [FormName; 19] = [
    FormName::Generator(GeneratorName::Board),
    FormName::Generator(GeneratorName::Simplex),
    FormName::Generator(GeneratorName::Subsets),
    FormName::Generator(GeneratorName::Complete),
    FormName::Generator(GeneratorName::Transitive),
    FormName::Generator(GeneratorName::Empty),
    FormName::Generator(GeneratorName::Circuit),
    FormName::Generator(GeneratorName::Cycle),
    FormName::Generator(GeneratorName::DisjointSubsets),
    FormName::Generator(GeneratorName::Petersen),
    FormName::Complement,
    FormName::Gunion,
    FormName::Intersection,
    FormName::Lines,
    FormName::Product,
    FormName::Induced,
    FormName::BiComplete,
    FormName::Wheel,
    FormName::Stdin,
];

/// The name with which the text begins, and the text after it and its parenthesis, if its form has one; or where the
/// text begins no name.
pub(crate) fn opening(text: &[u8]) -> Result<(FormName, &[u8]), Mismatch>
    ensures { Finds (λ x. (x.0, x.1.now)) result (word_at openings text.now) }
{
    let mut left = text.len();
    for name in ALL {
        match fixed(text_of(name), text) {
            Ok(rest) => return Ok((name, rest)),
            Err(Mismatch { left: other }) => left = left.min(other),
        }
    }
    Err(Mismatch { left })
}

// The name, and the parenthesis after it where the form has one.
fn text_of(name: FormName) -> &'static [u8]
    ensures { result.now ≡ name_opening name }
{
    match name {
        FormName::Generator(GeneratorName::Board) => b"board(",
        FormName::Generator(GeneratorName::Simplex) => b"simplex(",
        FormName::Generator(GeneratorName::Subsets) => b"subsets(",
        FormName::Generator(GeneratorName::Complete) => b"complete(",
        FormName::Generator(GeneratorName::Transitive) => b"transitive(",
        FormName::Generator(GeneratorName::Empty) => b"empty(",
        FormName::Generator(GeneratorName::Circuit) => b"circuit(",
        FormName::Generator(GeneratorName::Cycle) => b"cycle(",
        FormName::Generator(GeneratorName::DisjointSubsets) => b"disjoint_subsets(",
        FormName::Generator(GeneratorName::Petersen) => b"petersen(",
        FormName::Complement => b"complement(",
        FormName::Gunion => b"gunion(",
        FormName::Intersection => b"intersection(",
        FormName::Lines => b"lines(",
        FormName::Product => b"product(",
        FormName::Induced => b"induced(",
        FormName::BiComplete => b"bi_complete(",
        FormName::Wheel => b"wheel(",
        FormName::Stdin => b"stdin",
    }
}
