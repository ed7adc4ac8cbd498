//! The listing of a generator's graph, written from its vectors: one list of arcs after another, and no graph is built.
//! The arcs are handed to the page one by one (`ArcLines`), so no list is kept. What a board wants of memory is taken before
//! something is written (`OrderedBoard`); what makes its lists faster is made after the head (`prepare`).
//!
//! The head is put before the first list, which takes time in a great graph, and its beginning before the arcs are counted, which
//! may take time, too. Only where the count might be refused nothing is put before it.
ghost use Rattle.std.specs.Prelude.{◌≡◌, ◌≢◌, ◌≤◌, ◌+◌, [], false, true, drop, length, option_map, Contains, IfErr, IfSome, IsOk, OnOk};
ghost use Rattle.std.specs.List.{flat_map};
ghost use Rattle.sgb_file.specs.Devices.{change};
ghost use Rattle.sgb_vec.specs.Boxes.{box};
ghost use Rattle.sgb_vec.specs.Limits.{most_dimensions};
ghost use Rattle.sgb_gen.specs.Boards.{board_vector_graph};
ghost use Rattle.sgb_gen.specs.VectorGraphs.{HasUnitToMove, described_by};
ghost use Rattle.sgb_graph.specs.Made.{graph_described};
ghost use Rattle.sgb_requests.specs.declared.faults.Fault.TheVariants as fault;
ghost use Rattle.sgb_gen.specs.Generators.{described, sort_of, vector_graph_of, vectors_of};
ghost use Rattle.sgb_gen.specs.Sorts.{of_board, of_simplex, of_subsets};
ghost use Rattle.sgb.specs.Locals.{family_text, head_if, left_out_after};
ghost use Rattle.sgb.specs.inner.Locals.{local_block};
ghost use Rattle.sgb.specs.inner.Pages.{IsPaged, page_bytes};
ghost use Rattle.sgb.specs.inner.Remaining.{IsRest};
ghost use Rattle.sgb.specs.inner.Texts.{most_count_bytes, title_text};
ghost use Rattle.sgb.specs.Texts.{head};
ghost use Rattle.sgb_vec.specs.declared.panics.Panic.TheVariants.{NoRoom};
ghost use Rattle.sgb.specs.Writing.{IsWritten};
// For the search alone.
ghost use Rattle.std.specs.Prelude.{IfOk};

use super::kept_names::KeptName;
use super::line_sink::ArcLines;
use super::listing::{push_arcs_count, push_title};
use super::pages::{Page, put_page};
use super::resumed::vectors_after;
use sgb_file::Sink;
use sgb_gen::{Board, Links, Listed, Local, Visit, Visitor};
use sgb_graph::Id;
use sgb_requests::Fault;
use sgb_vec::{Family, Panic, Vectors};

/// Writes the listing of a generator's graph, one arc list after another: the head where `head` asks for it, and a
/// block for each vertex after that of the vector `after`, or for all. No flush. All memory that it takes is from where
/// that of `links` comes: of a board its displacements, and room for starts that want a sort, for one of them at least; of a
/// simplex the counts for the head, about a megabyte at most. What `links` holds afterwards is open.
///
/// `after` is a vector of the family. `Write` where the sink failed; a prefix is then written. `Panic(NoRoom)` when out of
/// memory, which leaves `out` as it was. Subsets take no memory, and a simplex only for its head, where a vector has a unit
/// that might go to another entry.
pub fn list_family<W: Sink>(
    local: &Local,
    head: bool,
    after: Option<&[u32]>,
    links: &mut Links,
    out: &mut W,
) -> Result<(), Fault>
    requires member { IfSome after (λ x. Contains (vectors_of local.now) x.now) }
    requires sound { W.has_failed out.old ≡ false }
    ensures written { IsWritten (family_text (graph_described (described local.now)) head
        (left_out_after (vectors_of local.now) (option_map (λ x. x.now) after.entry)))
        (change W.written W.has_failed out.old out.new) result }
    ensures untouched { IfErr result (λ f. f ≢ Fault.Write → out.new ≡ out.old) }
    ensures subsets { sort_of local.now ≡ of_subsets → IfErr result (λ f. f ≡ Fault.Write) }
    ensures simplex { sort_of local.now ≡ of_simplex → IfErr result (λ f. f ≢ Fault.Write
        → (head ≡ true) × HasUnitToMove (vector_graph_of local.now)) }
{
    if let Local::Board(board) = local {
        return list_board(board, head, after, links, out);
    }
    local.visit(FamilyListing { head, after, links }, out)
}

// The same of a board. What it wants of memory is told before something is written.
fn list_board<W: Sink>(
    board: &Board,
    head: bool,
    after: Option<&[u32]>,
    links: &mut Links,
    out: &mut W,
) -> Result<(), Fault>
    requires member { IfSome after (λ x. Contains (box board.now.sizes) x.now) }
    requires sound { W.has_failed out.old ≡ false }
    ensures written { IsWritten
        (family_text (graph_described (described_by (board_vector_graph board.now))) head
        (left_out_after (box board.now.sizes) (option_map (λ x. x.now) after.entry)))
        (change W.written W.has_failed out.old out.new) result }
    ensures untouched { IfErr result (λ f. f ≢ Fault.Write → out.new ≡ out.old) }
{
    let mut ordered = board.in_order(links)?;
    list_vectors(&mut ordered, head, after, links, out)
}

// The listing of a generator's graph, as `list_family` writes it.
#[derive(Drop)]
struct FamilyListing<'l> {
    // Whether the head is written.
    head: bool,
    // The vector after which it begins, if any.
    after: Option<&'l [u32]>,
    // Room for one list after another.
    links: &'l mut Links,
}

impl<'l, W: Sink> Visitor<W> for FamilyListing<'l> {
    type Answer = Result<(), Fault>;

    ghost needs = { λ v g _ old. IfSome v.after (λ x. Contains g.vectors x.now)
        × (W.has_failed old ≡ false) };

    ghost gives = { λ v g sort old new result. IsWritten
        (family_text (graph_described (described_by g)) v.head
        (left_out_after g.vectors (option_map (λ x. x.now) v.after)))
        (change W.written W.has_failed old new) result
        × (sort ≡ of_subsets → IfErr result (λ f. f ≡ fault.Write))
        × (sort ≡ of_simplex → IfErr result (λ f. f ≢ fault.Write → (v.head ≡ true) × HasUnitToMove g))
        × (sort ≢ of_board → IfErr result (λ f. f ≢ fault.Write → new ≡ old)) };
}

impl<'a, 'l, L: Listed<'a>, W: Sink> Visit<'a, L, W> for FamilyListing<'l> {
    fn visit(self, listed: &mut L, out: &mut W) -> Result<(), Fault> {
        list_vectors(listed, self.head, self.after, self.links, out)
    }
}

/// Writes the listing of a graph by what a listing asks of it, as `list_family` does.
pub(super) fn list_vectors<'a, L: Listed<'a>, W: Sink>(
    listed: &mut L,
    head: bool,
    after: Option<&[u32]>,
    links: &mut Links,
    out: &mut W,
) -> Result<(), Fault>
    requires member { IfSome after (λ x. Contains (L.graph listed.old).vectors x.now) }
    requires sound { W.has_failed out.old ≡ false }
    ensures written { IsWritten
        (family_text (graph_described (described_by (L.graph listed.old))) head
        (left_out_after (L.graph listed.old).vectors (option_map (λ x. x.now) after.entry)))
        (change W.written W.has_failed out.old out.new) result }
    // Where there is no head and no vector is left no memory is taken.
    ensures end { head ≡ false → drop (left_out_after (L.graph listed.old).vectors
        (option_map (λ x. x.now) after.entry)) (L.graph listed.old).vectors ≡ []
        → IfErr result (λ f. f ≢ Fault.Panic NoRoom) }
    ensures subsets { L.sort listed.old ≡ of_subsets → IfErr result (λ f. f ≡ Fault.Write) }
    ensures simplex { L.sort listed.old ≡ of_simplex → IfErr result (λ f. f ≢ Fault.Write
        → (head ≡ true) × HasUnitToMove (L.graph listed.old)) }
    ensures untouched { L.sort listed.old ≢ of_board
        → IfErr result (λ f. f ≢ Fault.Write → out.new ≡ out.old) }
{
    let vectors = vectors_after(listed.family(), after);
    let mut page = Page::new();
    put_head_if(head, listed, links, &mut page, out)?;
    listed.prepare(links);
    write_blocks(listed, vectors, links, &mut page, out)
}

// Puts the head where it is asked for.
fn put_head_if<'a, L: Listed<'a>, W: Sink>(
    asked: bool,
    listed: &L,
    links: &Links,
    page: &mut Page,
    out: &mut W,
) -> Result<(), Fault>
    requires empty { page.old ≡ [] }
    requires sound { W.has_failed out.old ≡ false }
    ensures written { IsWritten (head_if asked (graph_described (described_by (L.graph listed.now))))
        (change W.written W.has_failed out.old out.new) result }
    ensures empty { OnOk result (page.new ≡ []) }
    ensures none { asked ≡ false → IsOk result }
    ensures subsets { L.sort listed.now ≡ of_subsets → IfErr result (λ f. f ≡ Fault.Write) }
    ensures simplex { L.sort listed.now ≡ of_simplex → IfErr result (λ f. f ≢ Fault.Write
        → HasUnitToMove (L.graph listed.now)) }
    ensures untouched { IfErr result (λ f. f ≢ Fault.Write → out.new ≡ out.old) }
{
    if !asked {
        return Ok(());
    }
    put_head(listed, links, page, out)
}

// Puts the head. It leaves before the first list, which in a great graph takes time, and what stands in it before the number of
// arcs leaves before these are counted, where they are known to be told.
fn put_head<'a, L: Listed<'a>, W: Sink>(
    listed: &L,
    links: &Links,
    page: &mut Page,
    out: &mut W,
) -> Result<(), Fault>
    requires empty { page.old ≡ [] }
    requires sound { W.has_failed out.old ≡ false }
    ensures written { IsWritten (head (graph_described (described_by (L.graph listed.now))))
        (change W.written W.has_failed out.old out.new) result }
    ensures empty { OnOk result (page.new ≡ []) }
    ensures subsets { L.sort listed.now ≡ of_subsets → IfErr result (λ f. f ≡ Fault.Write) }
    ensures simplex { L.sort listed.now ≡ of_simplex → IfErr result (λ f. f ≢ Fault.Write
        → HasUnitToMove (L.graph listed.now)) }
    ensures untouched { IfErr result (λ f. f ≢ Fault.Write → out.new ≡ out.old) }
{
    let is_told = listed.has_countable_arcs();
    put_title(&listed.id(), listed.family().size(), is_told, page, out)?;
    let m = listed.arcs_count(links)?;
    push_arcs_count(m, page);
    put_page(page, out)
}

// Puts what stands in a head before the number of arcs; or leaves it on the page, where `now` does not ask for it.
fn put_title<W: Sink>(id: &Id, n: u32, now: bool, page: &mut Page, out: &mut W) -> Result<(), Fault>
    requires empty { page.old ≡ [] }
    requires sound { W.has_failed out.old ≡ false }
    ensures paged { IsPaged [] (title_text id.now n) page.new
        (change W.written W.has_failed out.old out.new) result }
    ensures room { OnOk result (length page.new + most_count_bytes ≤ page_bytes) }
    ensures fault { IfErr result (λ f. f ≡ Fault.Write) }
    ensures later { now ≡ false → out.new ≡ out.old }
{
    push_title(id, n, page);
    if now {
        return put_page(page, out);
    }
    Ok(())
}

// Writes the blocks of these vectors, by a page that is empty.
fn write_blocks<'a, L: Listed<'a>, W: Sink>(
    listed: &mut L,
    vectors: Vectors<'_, L::Members>,
    links: &mut Links,
    page: &mut Page,
    out: &mut W,
) -> Result<(), Fault>
    requires rest { IsRest (L.graph listed.old).vectors vectors }
    requires empty { page.old ≡ [] }
    requires sound { W.has_failed out.old ≡ false }
    ensures written { IsWritten (flat_map (local_block (L.graph listed.old)) vectors.entry)
        (change W.written W.has_failed out.old out.new) result }
    ensures end { vectors.entry ≡ [] → IfErr result (λ f. f ≢ Fault.Panic NoRoom) }
    ensures fault { L.sort listed.old ≢ of_board → IfErr result (λ f. f ≡ Fault.Write) }
{
    let mut name = KeptName::new();
    let mut left = vectors;
    while let Some(x) = left.front() {
        name.turn_to(x);
        push_block(listed, x, links, &name, page, out)?;
        let _some = left.advance();
    }
    put_page(page, out)
}

// Hands the block of a vector to a page: its name, and a line for each of its arcs. Out of memory the page is left as it is.
fn push_block<'a, L: Listed<'a>, W: Sink>(
    listed: &mut L,
    x: &[u32],
    links: &mut Links,
    name: &KeptName,
    page: &mut Page,
    out: &mut W,
) -> Result<(), Fault>
    requires member { Contains (L.graph listed.old).vectors x.now }
    requires short { length x.now ≤ most_dimensions + 1 }
    requires named { name.now ≡ x.now }
    requires sound { W.has_failed out.old ≡ false }
    ensures paged { IsPaged page.old (local_block (L.graph listed.old) x.now) page.new
        (change W.written W.has_failed out.old out.new) result }
    ensures fault { L.sort listed.old ≢ of_board → IfErr result (λ f. f ≡ Fault.Write) }
    ensures same { L.graph listed.new ≡ L.graph listed.old }
    ensures sort { L.sort listed.new ≡ L.sort listed.old }
{
    name.push_line(page, out)?;
    listed.give_arcs(x, links, &ArcLines { name }, page, out)?
}
