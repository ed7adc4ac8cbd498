//! The names of a family's vectors, written one a line.
ghost use Rattle.std.specs.Prelude.{◌≡◌, ◌≢◌, false, map, IfErr};
ghost use Rattle.sgb_vec.specs.declared.panics.Panic.TheVariants.{NoRoom};
ghost use Rattle.std.specs.List.{flat_map};
ghost use Rattle.sgb_file.specs.Devices.{change};
ghost use Rattle.sgb_vec.specs.Names.{name_of_vector};
ghost use Rattle.sgb_requests.specs.declared.faults.Fault.TheVariants as fault;
ghost use Rattle.sgb.specs.Outcomes.{names_answer};
ghost use Rattle.sgb.specs.Texts.{name_line};
ghost use Rattle.sgb.specs.Writing.{IsEnded, IsWritten, effect};

use super::kept_names::KeptName;
use super::pages::{Page, put_page};
use super::resumed::{slice_of, start_of, vectors_after};
use sgb_file::Sink;
use sgb_gen::{Listed, Visit, Visitor};
use sgb_requests::{Fault, Resume};
use sgb_vec::{Family, Vectors};

// Writes the name lines of a family's vectors, from where the answer begins.
//
// `NoVertex` where it is to begin after a name that no vector has.
fn write_names<F: Family, W: Sink>(family: &F, resume: &Resume, out: &mut W) -> Result<(), Fault>
    requires { W.has_failed out.old ≡ false }
    ensures ended { IsEnded (names_answer (map name_of_vector (F.members family.now)) resume.now)
        (effect W.written W.has_failed out.old out.new) result }
    ensures certain { IfErr result (λ f. f ≢ Fault.Panic NoRoom) }
{
    let start = start_of(family, resume)?;
    write_all(vectors_after(family, slice_of(&start)), out)
}

/// The names of a generator's vertices, as `write_names` writes them.
#[derive(Drop)]
pub(crate) struct NamesAnswer<'r> {
    /// Where they begin.
    pub(crate) resume: &'r Resume,
}

impl<'r, W: Sink> Visitor<W> for NamesAnswer<'r> {
    type Answer = Result<(), Fault>;

    ghost needs = { λ _ _ _ old. W.has_failed old ≡ false };

    ghost gives = { λ v g _ old new result.
        IsEnded (names_answer (map name_of_vector g.vectors) v.resume.now)
        (effect W.written W.has_failed old new) result
        × IfErr result (λ f. f ≢ fault.Panic NoRoom) };
}

impl<'a, 'r, L: Listed<'a>, W: Sink> Visit<'a, L, W> for NamesAnswer<'r> {
    fn visit(self, listed: &mut L, out: &mut W) -> Result<(), Fault> {
        write_names(listed.family(), self.resume, out)
    }
}

// Writes the lines of these vectors.
fn write_all<F: Family, W: Sink>(vectors: Vectors<'_, F>, out: &mut W) -> Result<(), Fault>
    requires { W.has_failed out.old ≡ false }
    ensures written { IsWritten (flat_map name_line (map name_of_vector vectors.entry))
        (change W.written W.has_failed out.old out.new) result }
    ensures fault { IfErr result (λ f. f ≡ Fault.Write) }
{
    let mut name = KeptName::new();
    let mut page = Page::new();
    let mut left = vectors;
    while let Some(vector) = left.front() {
        name.turn_to(vector);
        name.push_line(&mut page, out)?;
        let _some = left.advance();
    }
    put_page(&mut page, out)
}
