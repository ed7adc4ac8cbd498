//! The answer to a request for the listing of a generator's graph.
//!
//! What a board wants of memory is taken before something is written, and its arcs are handed out in order with no list kept
//! (`OrderedBoard`): so want of memory is told then or never.
ghost use Rattle.std.specs.Prelude.{◌≡◌, ◌≢◌, false, IfErr};
ghost use Rattle.sgb_graph.specs.Made.{graph_described};
ghost use Rattle.sgb_graph.specs.Vertices.{names_of};
ghost use Rattle.sgb_gen.specs.Boards.{board_vector_graph};
ghost use Rattle.sgb_gen.specs.Generators.{described, sort_of, vector_graph_of};
ghost use Rattle.sgb_gen.specs.Sorts.{of_board, of_simplex, of_subsets};
ghost use Rattle.sgb_gen.specs.VectorGraphs.{HasUnitToMove, described_by};
ghost use Rattle.sgb_requests.specs.declared.faults.Fault.TheVariants as fault;
ghost use Rattle.sgb_requests.specs.declared.requests.Resume.TheVariants.{Whole};
ghost use Rattle.sgb_vec.specs.declared.panics.Panic.TheVariants.{NoRoom};
ghost use Rattle.sgb.specs.Certain.{IsPast};
ghost use Rattle.sgb.specs.Outcomes.{list_answer};
ghost use Rattle.sgb.specs.Writing.{IsEnded, effect};

use super::families::list_vectors;
use super::resumed::{has_head, is_past, slice_of, start_of};
use sgb_file::Sink;
use sgb_gen::{Board, BoardLists, Links, Listed, Local, Visit, Visitor};
use sgb_requests::{Fault, Resume};

/// Writes the answer to a request for the listing of a generator's graph: the head, and a block for each vertex; or, where it
/// begins further on, the blocks from there.
///
/// `NoVertex` where it is to begin after a name that no vertex has.
pub(crate) fn write_local_list<W: Sink>(
    local: &Local,
    resume: &Resume,
    links: &mut Links,
    out: &mut W,
) -> Result<(), Fault>
    requires { W.has_failed out.old ≡ false }
    ensures ended { IsEnded (list_answer (graph_described (described local.now)) resume.now)
        (effect W.written W.has_failed out.old out.new) result }
    ensures past { IsPast (names_of (graph_described (described local.now))) resume.now
        → IfErr result (λ f. f ≢ Fault.Panic NoRoom) }
    ensures subsets { sort_of local.now ≡ of_subsets
        → IfErr result (λ f. f ≢ Fault.Panic NoRoom) }
    ensures simplex { sort_of local.now ≡ of_simplex → IfErr result (λ f. f ≡ Fault.Panic NoRoom
        → (resume.now ≡ Resume.Whole) × HasUnitToMove (vector_graph_of local.now)) }
    ensures untouched { IfErr result (λ f. f ≡ Fault.Panic NoRoom → out.new ≡ out.old) }
{
    if let Local::Board(board) = local {
        return write_board_list(board, resume, links, out);
    }
    local.visit(ListAnswer { resume, links }, out)
}

// The same of a board. Where nothing is to be written no memory is taken.
fn write_board_list<W: Sink>(
    board: &Board,
    resume: &Resume,
    links: &mut Links,
    out: &mut W,
) -> Result<(), Fault>
    requires { W.has_failed out.old ≡ false }
    ensures ended { IsEnded
        (list_answer (graph_described (described_by (board_vector_graph board.now))) resume.now)
        (effect W.written W.has_failed out.old out.new) result }
    ensures past { IsPast
        (names_of (graph_described (described_by (board_vector_graph board.now)))) resume.now
        → IfErr result (λ f. f ≢ Fault.Panic NoRoom) }
    ensures untouched { IfErr result (λ f. f ≡ Fault.Panic NoRoom → out.new ≡ out.old) }
{
    if is_past(board.family(), resume) {
        let mut lists = BoardLists::new(board);
        return ListAnswer { resume, links }.visit(&mut lists, out);
    }
    let mut ordered = board.in_order(links)?;
    ListAnswer { resume, links }.visit(&mut ordered, out)
}

// The answer to a request for the listing of a generator's graph: the head, and a block for each vertex; or, where it
// begins further on, the blocks from there.
//
// `NoVertex` where it is to begin after a name that no vertex has.
#[derive(Drop)]
struct ListAnswer<'l> {
    // Where it begins.
    resume: &'l Resume,
    // Room for one list after another.
    links: &'l mut Links,
}

impl<'l, W: Sink> Visitor<W> for ListAnswer<'l> {
    type Answer = Result<(), Fault>;

    ghost needs = { λ _ _ _ old. W.has_failed old ≡ false };

    ghost gives = { λ v g sort old new result.
        IsEnded (list_answer (graph_described (described_by g)) v.resume.now)
        (effect W.written W.has_failed old new) result
        × (IsPast (names_of (graph_described (described_by g))) v.resume.now
        → IfErr result (λ f. f ≢ fault.Panic NoRoom))
        × (sort ≡ of_subsets → IfErr result (λ f. f ≢ fault.Panic NoRoom))
        × (sort ≡ of_simplex → IfErr result (λ f. f ≡ fault.Panic NoRoom
        → (v.resume.now ≡ Whole) × HasUnitToMove g))
        × (sort ≢ of_board → IfErr result (λ f. f ≡ fault.Panic NoRoom → new ≡ old)) };
}

impl<'a, 'l, L: Listed<'a>, W: Sink> Visit<'a, L, W> for ListAnswer<'l> {
    fn visit(self, listed: &mut L, out: &mut W) -> Result<(), Fault> {
        let start = start_of(listed.family(), self.resume)?;
        list_vectors(
            listed,
            has_head(self.resume),
            slice_of(&start),
            self.links,
            out,
        )
    }
}
