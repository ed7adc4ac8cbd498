//! The names of a run.
ghost use Rattle.std.specs.Prelude.{◌≡◌, ◌⊎◌, ◌++◌, ◌∷◌, ◌≤◌, ◌+◌, [], length, IfErr, IfOk, IsOkUnless, OnOk, ⊤};
ghost use Rattle.sgb_vec.specs.Limits.{most_dimensions};
ghost use Rattle.sgb_vec.specs.Names.{name_of_vector};
ghost use Rattle.sgb_gen.specs.VectorGraphs.{described_by};
ghost use Rattle.sgb_graph.specs.Made.{graph_described};
ghost use Rattle.sgb_graph.specs.Vertices.{name_at};
ghost use Rattle.sgb_gen.specs.Generators.{described};
ghost use Rattle.sgb_arrays.specs.Runs.{AreNames, IsRunRefusal, IsThere, part_starts, parts_of};
ghost use Rattle.sgb_arrays.specs.inner.VectorNames.{name_there};

use crate::names::Names;
use crate::refusals::Wrong;
use crate::runs::{has_run, vectors_from};
use sgb_gen::{Listed, Local, Visit, Visitor};
use sgb_vec::{Family, NameText, Panic, name_len, put_name};
use std::alloc::Global;

/// The names of `count` vertices of a generator's graph, from vertex `first` on. The graph is not built.
///
/// `Vertices` where there are not so many vertices; `NoRoom` when out of memory.
pub fn names_of_run(alloc: Global, local: &Local, first: u32, count: u32) -> Result<Names, Wrong>
    ensures names { IfOk result (λ names. IsThere (graph_described (described local.now)) first
        count
        × AreNames (graph_described (described local.now)) first count names.starts.items
        names.bytes.items) }
    ensures refused { IfErr result (IsRunRefusal (graph_described (described local.now)) first
        count) }
{
    let run = NamesOfRun {
        alloc,
        first,
        count,
    };
    local.visit(run, &mut ())
}

// The names of a run of a generator's graph.
#[derive(Drop)]
struct NamesOfRun {
    alloc: Global,
    first: u32,
    count: u32,
}

impl Visitor<()> for NamesOfRun {
    type Answer = Result<Names, Wrong>;

    ghost needs = { λ _ _ _ _. ⊤ };

    ghost gives = { λ v g _ _ _ result.
        IfOk result (λ names. IsThere (graph_described (described_by g)) v.first v.count
        × AreNames (graph_described (described_by g)) v.first v.count names.starts.items
        names.bytes.items)
        × IfErr result (IsRunRefusal (graph_described (described_by g)) v.first v.count) };
}

impl<'a, L: Listed<'a>> Visit<'a, L, ()> for NamesOfRun {
    fn visit(self, listed: &mut L, _state: &mut ()) -> Result<Names, Wrong> {
        names_in(self.alloc, listed.family(), self.first, self.count)
    }
}

// The names of a run of a family's vectors.
fn names_in<F: Family>(alloc: Global, family: &F, first: u32, count: u32) -> Result<Names, Wrong>
    ensures names { IfOk result (λ names. (first + count ≤ length (F.members family.now))
        × (names.starts.items ≡ part_starts (name_there (F.members family.now)) first count)
        × (names.bytes.items ≡ parts_of (name_there (F.members family.now)) first count)) }
    ensures refused { IfErr result (λ why. ((why ≡ Wrong.Vertices)
        × (first + count ≤ length (F.members family.now) → ⊥)) ⊎ (why ≡ Wrong.NoRoom)) }
{
    if !has_run(family, first, count) {
        return Err(Wrong::Vertices);
    }
    match put_names(alloc, family, first, count) {
        Ok(names) => Ok(names),
        Err(_) => Err(Wrong::NoRoom),
    }
}

// The names of a run that is there.
fn put_names<F: Family>(alloc: Global, family: &F, first: u32, count: u32) -> Result<Names, Panic>
    requires { first + count ≤ length (F.members family.now) }
    ensures starts { IfOk result (λ names. names.starts.items
        ≡ part_starts (name_there (F.members family.now)) first count) }
    ensures bytes { IfOk result (λ names. names.bytes.items
        ≡ parts_of (name_there (F.members family.now)) first count) }
    ensures memory { IsOkUnless result Panic.NoRoom }
{
    let mut names = Names::new(alloc, count as usize)?;
    let mut name = NameText::new();
    let mut left = vectors_from(family, first);
    for _k in 0..count {
        let x = left.front().unwrap();
        names.push(&mut name, x)?;
        let _some = left.advance();
    }
    Ok(names)
}

impl Names {
    // Appends the name of a vector, which is left in the text. The next one starts behind it.
    fn push(&mut self, name: &mut NameText, x: &[u32]) -> Result<(), Panic>
        requires { length x.now ≤ most_dimensions + 1 }
        ensures bytes { OnOk result (self.new.bytes.items ≡ self.old.bytes.items
            ++ name_of_vector x.now) }
        ensures starts { OnOk result (self.new.starts.items ≡ self.old.starts.items
            ++ length self.new.bytes.items ∷ []) }
        ensures memory { IsOkUnless result Panic.NoRoom }
    {
        put_name(x, name);
        self.bytes.extend_from_slice(name.bytes())?;
        self.starts.push(self.bytes.len() as u64)?;
        Ok(())
    }
}

/// How many bytes the names of `count` vertices of a generator's graph have, from vertex `first` on. No name is written, and
/// no memory is taken.
pub(crate) fn names_len_of_run(local: &Local, first: u32, count: u32) -> u64
    requires { IsThere (graph_described (described local.now)) first count }
    ensures { result ≡ length (parts_of (name_at (graph_described (described local.now))) first
        count) }
{
    local.visit(NamesLenOfRun { first, count }, &mut ())
}

// How many bytes the names of a run of a generator's graph have.
#[derive(Drop)]
struct NamesLenOfRun {
    first: u32,
    count: u32,
}

impl Visitor<()> for NamesLenOfRun {
    type Answer = u64;

    ghost needs = { λ v g _ _. v.first + v.count ≤ length g.vectors };

    ghost gives = { λ v g _ _ _ result. result
        ≡ length (parts_of (name_at (graph_described (described_by g))) v.first v.count) };
}

impl<'a, L: Listed<'a>> Visit<'a, L, ()> for NamesLenOfRun {
    fn visit(self, listed: &mut L, _state: &mut ()) -> u64 {
        count_bytes(listed.family(), self.first, self.count)
    }
}

// How many bytes the names of a run of a family's vectors have.
fn count_bytes<F: Family>(family: &F, first: u32, count: u32) -> u64
    requires { first + count ≤ length (F.members family.now) }
    ensures { result ≡ length (parts_of (name_there (F.members family.now)) first count) }
{
    let mut bytes = 0;
    let mut left = vectors_from(family, first);
    for _k in 0..count {
        let x = left.front().unwrap();
        bytes += name_len(x);
        let _some = left.advance();
    }
    bytes
}
