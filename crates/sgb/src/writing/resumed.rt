//! Where the answer to a request about a family begins.
//!
//! A name, or a number of vertices, is turned into the vector after which an answer begins (`start_of`, for names and
//! for listings). So what `list_family` promises speaks of the graph alone.
ghost use Rattle.std.specs.Prelude.{◌≡◌, ◌≢◌, false, true, drop, map, option_map, Contains, Err, IfSome};
ghost use Rattle.std.specs.Bool.{OnFalse, OnTrue};
ghost use Rattle.std.specs.Result.{MatchResult};
ghost use Rattle.sgb_graph.specs.Graphs.{GraphData};
ghost use Rattle.sgb_vec.specs.Names.{name_of_vector};
ghost use Rattle.sgb.specs.Certain.{IsPast};
ghost use Rattle.sgb.specs.Locals.{head_if, left_out_after};
ghost use Rattle.sgb.specs.Outcomes.{head_for, left_out};
ghost use Rattle.sgb.specs.Texts.{head};
ghost use Rattle.sgb.specs.inner.Remaining.{BeginsAfter, IsLastSkipped, IsMemberNamed};

use sgb_requests::{Fault, Resume};
use sgb_vec::{Family, Vector, Vectors, vector_of};

/// Whether the answer has a head: where it is not resumed.
pub(super) fn has_head(resume: &Resume) -> bool
    ensures head { (g : GraphData) → head_if result g ≡ head_for resume.now (head g) }
    ensures resumed { resume.now ≢ Resume.Whole → result ≡ false }
    ensures whole { resume.now ≡ Resume.Whole → result ≡ true }
{
    match resume {
        Resume::Whole => true,
        Resume::Skip(_) | Resume::After(_) => false,
    }
}

/// The vector after which the answer begins; `None` where it begins with the first one.
///
/// `NoVertex` where it is to begin after a name that no vector has.
pub(super) fn start_of<F: Family>(family: &F, resume: &Resume) -> Result<Option<Vector>, Fault>
    ensures { MatchResult result
        (λ start. BeginsAfter (F.members family.now) resume.now
        (option_map (λ vector. vector.items) start))
        (λ fault. left_out (map name_of_vector (F.members family.now)) resume.now ≡ Err fault) }
{
    match resume {
        Resume::Whole => Ok(None),
        Resume::Skip(count) => Ok(last_skipped(family, *count)),
        Resume::After(name) => match member_named(family, name.bytes()) {
            Some(vector) => Ok(Some(vector)),
            None => Err(Fault::NoVertex),
        },
    }
}

/// Whether the answer is to begin after a name that no vector has, or is resumed after all vectors.
pub(super) fn is_past<F: Family>(family: &F, resume: &Resume) -> bool
    ensures past { OnTrue result
        (IsPast (map name_of_vector (F.members family.now)) resume.now) }
    ensures before { OnFalse result
        (IsPast (map name_of_vector (F.members family.now)) resume.now → ⊥) }
{
    if has_head(resume) {
        return false;
    }
    match start_of(family, resume) {
        Ok(start) => vectors_after(family, slice_of(&start)).front().is_none(),
        Err(_no_vertex) => true,
    }
}

// The last of the first `count` vectors of the family, or of all where there are fewer; `None` where there is none.
fn last_skipped<F: Family>(family: &F, count: u64) -> Option<Vector>
    ensures { IsLastSkipped (F.members family.now) count
        (option_map (λ vector. vector.items) result) }
{
    let skipped = count.min(u64::from(family.size()));
    if skipped == 0 {
        return None;
    }
    let mut vector = Vector::new();
    let _found = family.at((skipped - 1) as u32, &mut vector);
    Some(vector)
}

// The vector of the family that has this name. The name tells which vector that is, so none is searched for.
fn member_named<F: Family>(family: &F, name: &[u8]) -> Option<Vector>
    ensures { IsMemberNamed (F.members family.now) name.now
        (option_map (λ vector. vector.items) result) }
{
    let dims = family.dims();
    let vector = vector_of(name)?;
    if vector.len() != dims {
        return None;
    }
    if !family.holds(vector.as_slice()) {
        return None;
    }
    Some(vector)
}

/// The entries of a vector that there may be.
pub(super) fn slice_of(vector: &Option<Vector>) -> Option<&[u32]>
    ensures { option_map (λ x. x.now) result ≡ option_map (λ v. v.items) vector.now }
{
    match vector {
        Some(vector) => Some(vector.as_slice()),
        None => None,
    }
}

/// The vectors of the family after this member, or all.
pub(super) fn vectors_after<'a, F: Family>(family: &'a F, after: Option<&[u32]>) -> Vectors<'a, F>
    requires { IfSome after (λ x. Contains (F.members family.now) x.now) }
    ensures { result ≡ drop (left_out_after (F.members family.now)
        (option_map (λ x. x.now) after.entry)) (F.members family.now) }
{
    match after {
        None => Vectors::all(family),
        Some(x) => Vectors::after(family, x).unwrap(),
    }
}
