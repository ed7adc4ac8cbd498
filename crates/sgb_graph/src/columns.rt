//! The values of one utility field, of all vertices or of all arc records of a graph, kept by their kind.
//!
//! No value can stand where its kind forbids it, and the kinds of a graph are those of its columns.
ghost use Rattle.std.specs.Prelude.{◌≡◌, ◌<◌, ◌+◌, ℕ, [], ◌∷◌, ◌++◌, map, slice_get, Some, IfOk, OnOk};
ghost use Rattle.std.specs.Bool.{OnTrue};
ghost use Rattle.sgb_graph.specs.Columns.{util_seen};
ghost use Rattle.std.specs.List.{list_all};
ghost use Rattle.sgb_graph.specs.Sound.{chain_fits, ref_fits, util_fits};
ghost use Rattle.sgb_graph.specs.Growth.{at_place, number_or_zero};
ghost use Rattle.sgb_graph.specs.inner.Columns.{HasPlace, HasRoom, HoldsMany, column_kind, util_kind, values};
ghost use Rattle.sgb_graph.specs.declared.columns.Column.TheVariants.{Unused};
ghost use Rattle.sgb_graph.specs.declared.fields.Kind.TheVariants.{I};
ghost use Rattle.sgb_graph.specs.declared.fields.Util.TheVariants.{Int};

use crate::fields::{Kind, Ref, Util, UtilRef};
use crate::ranges::{chain_fits, ref_fits};
use crate::room::put;
use sgb_vec::Text;
use std::alloc::{AllocError, Global};

// The values of a field, one after another; of a field that is not used, none.
pub(crate) enum Column {
    Unused,
    Ints(Vec<i64>),
    Vertices(Vec<Ref>),
    Texts(Vec<Text>),
    Chains(Vec<Option<usize>>),
}

// One function drops a column. A derived drop would be a case for each kind wherever a column is dropped.
impl Drop for Column {
    fn drop(self) {
        match self {
            Column::Unused => {}
            Column::Ints(_) => {}
            Column::Vertices(_) => {}
            Column::Texts(_) => {}
            Column::Chains(_) => {}
        }
    }
}

impl Column {
    // The column of a field of this kind, with no values yet. It takes no memory.
    pub(crate) fn new(alloc: Global, kind: Kind) -> Column
        ensures kind { column_kind result ≡ kind }
        ensures none { HoldsMany 0 result }
    {
        match kind {
            Kind::Z => Column::Unused,
            Kind::I => Column::Ints(Vec::new(alloc)),
            Kind::V => Column::Vertices(Vec::new(alloc)),
            Kind::S => Column::Texts(Vec::new(alloc)),
            Kind::A => Column::Chains(Vec::new(alloc)),
        }
    }

    // What the field holds.
    pub(crate) fn kind(&self) -> Kind
        ensures { result ≡ column_kind self.now }
    {
        match self {
            Column::Unused => Kind::Z,
            Column::Ints(_) => Kind::I,
            Column::Vertices(_) => Kind::V,
            Column::Texts(_) => Kind::S,
            Column::Chains(_) => Kind::A,
        }
    }

    // Whether the field is not used.
    #[inline(always)]
    pub(crate) fn is_unused(&self) -> bool
        ensures { OnTrue result (self.now ≡ Unused) }
    {
        matches!(self, Column::Unused)
    }

    // Whether the field holds integers.
    #[inline(always)]
    pub(crate) fn is_of_ints(&self) -> bool
        ensures { OnTrue result (column_kind self.now ≡ I) }
    {
        matches!(self, Column::Ints(_))
    }

    // Takes room for one value more. The values stay, whether there is room or not. What most files have is tried first.
    #[inline(always)]
    pub(crate) fn reserve(&mut self) -> Result<(), AllocError>
        ensures kind { column_kind self.new ≡ column_kind self.old }
        ensures values { (n : ℕ) → values n self.new ≡ values n self.old }
        ensures room { OnOk result (HasRoom self.new) }
    {
        match self {
            Column::Unused => Ok(()),
            Column::Ints(numbers) => numbers.reserve(1),
            _ => self.reserve_other(),
        }
    }

    // The same of any column.
    #[inline(never)]
    fn reserve_other(&mut self) -> Result<(), AllocError>
        ensures kind { column_kind self.new ≡ column_kind self.old }
        ensures values { (n : ℕ) → values n self.new ≡ values n self.old }
        ensures room { OnOk result (HasRoom self.new) }
    {
        match self {
            Column::Unused => {}
            Column::Ints(numbers) => numbers.reserve(1)?,
            Column::Vertices(vertices) => vertices.reserve(1)?,
            Column::Texts(texts) => texts.reserve(1)?,
            Column::Chains(chains) => chains.reserve(1)?,
        }
        Ok(())
    }

    // Puts a value of the column's kind after the others, for which there is room. It takes no memory.
    #[inline(always)]
    pub(crate) fn push(&mut self, value: Util)
        requires kind { util_kind value ≡ column_kind self.old }
        requires room { HasRoom self.old }
        ensures kind { column_kind self.new ≡ column_kind self.old }
        ensures values { (n : ℕ) → HoldsMany n self.old → values (1 + n) self.new
            ≡ values n self.old ++ value ∷ [] }
    {
        match (self, value) {
            (Column::Ints(numbers), Util::Int(number)) => put(numbers, number),
            (Column::Vertices(vertices), Util::Vertex(vertex)) => put(vertices, vertex),
            (Column::Texts(texts), Util::Str(text)) => put(texts, text),
            (Column::Chains(chains), Util::Chain(first)) => put(chains, first),
            _ => {}
        }
    }

    // Whether each vertex that is named is one of n, and each arc record one of m.
    pub(crate) fn fits(&self, n: usize, m: usize) -> bool
        ensures { (k : ℕ) → result
            ≡ list_all (util_fits n m (column_kind self.now)) (values k self.now) }
    {
        match self {
            Column::Unused => true,
            Column::Ints(_) => true,
            Column::Vertices(vertices) => each_vertex_fits(vertices, n),
            Column::Texts(_) => true,
            Column::Chains(chains) => each_chain_fits(chains, m),
        }
    }

    // The value of place k.
    pub(crate) fn get(&self, k: usize) -> UtilRef<'_>
        requires { HasPlace k self.now }
        ensures { (n : ℕ) → k < n → HoldsMany n self.now → slice_get (values n self.now) k
            ≡ Some (util_seen result) }
    {
        match self {
            Column::Unused => UtilRef::Nothing,
            Column::Ints(numbers) => UtilRef::Int(numbers[k]),
            Column::Vertices(vertices) => UtilRef::Vertex(vertices[k]),
            Column::Texts(texts) => UtilRef::Str(&texts[k]),
            Column::Chains(chains) => UtilRef::Chain(chains[k]),
        }
    }

    // The integers of n values: 0 for a value that is none.
    pub(crate) fn numbers(&self, alloc: Global, n: usize) -> Result<Vec<i64>, AllocError>
        requires { HoldsMany n self.now }
        ensures { IfOk result (λ numbers. map (λ i. Int i) numbers.items
            ≡ map number_or_zero (values n self.now)) }
    {
        let mut numbers = Vec::with_capacity(alloc, n)?;
        for k in 0..n {
            numbers.push(own_number(self.get(k)))?;
        }
        Ok(numbers)
    }

    // Makes the value of place k, of a field that holds integers, this one.
    #[inline(always)]
    pub(crate) fn set_int(&mut self, k: usize, value: i64)
        requires kind { column_kind self.old ≡ I }
        requires place { HasPlace k self.old }
        ensures kind { column_kind self.new ≡ I }
        ensures values { (n : ℕ) → values n self.new
            ≡ at_place (λ _. Int value) k (values n self.old) }
    {
        let Column::Ints(numbers) = self else {
            return;
        };
        numbers[k] = value;
    }
}

// The integer that the value is, or 0.
fn own_number(value: UtilRef<'_>) -> i64
    ensures { number_or_zero (util_seen value.entry) ≡ Int result }
{
    match value {
        UtilRef::Int(number) => number,
        _ => 0,
    }
}

// Whether each is one of n vertices, or none.
fn each_vertex_fits(vertices: &[Ref], n: usize) -> bool
    ensures { result ≡ list_all (ref_fits n) vertices.now }
{
    vertices.iter().all(|vertex| ref_fits(n, *vertex))
}

// Whether each is one of m records, or none.
fn each_chain_fits(chains: &[Option<usize>], m: usize) -> bool
    ensures { result ≡ list_all (chain_fits m) chains.now }
{
    chains.iter().all(|first| chain_fits(m, *first))
}
