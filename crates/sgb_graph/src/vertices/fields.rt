//! The utility fields of all vertices, each by its kind.
ghost use Rattle.std.specs.Prelude.{◌≡◌, ◌<◌, ◌+◌, ℕ, [], ◌∷◌, map, slice_get, Some, OnErr, OnOk};
ghost use Rattle.std.specs.Bool.{OnTrue};
ghost use Rattle.sgb_graph.specs.Columns.{util_seen};
ghost use Rattle.sgb_graph.specs.Growth.{put_numbers};
ghost use Rattle.sgb_graph.specs.Made.{no_fields};
ghost use Rattle.sgb_graph.specs.inner.Columns.{util_kind};
ghost use Rattle.sgb_graph.specs.inner.KeptVertices.{AreColumns, AreIntegers, HaveRoom, HaveValues, HoldNumbers, columns_fit, field_columns, field_kinds, ints_alone, put_columns, rows, with_row};

use crate::columns::Column;
use crate::fields::{Kind, Util, UtilRef};
use std::alloc::{AllocError, Global};

// The utility fields of all vertices, each by its kind.
#[derive(Drop)]
pub(super) struct Fields {
    u: Column,
    v: Column,
    w: Column,
    x: Column,
    y: Column,
    z: Column,
}

impl Fields {
    // Fields of these kinds, with no values yet. They take no memory.
    pub(super) fn new(alloc: Global, kinds: [Kind; 6]) -> Fields
        ensures kinds { field_kinds result ≡ kinds }
        ensures none { AreColumns 0 (field_columns 0 result) }
    {
        let [u, v, w, x, y, z] = kinds;
        Fields {
            u: Column::new(alloc, u),
            v: Column::new(alloc, v),
            w: Column::new(alloc, w),
            x: Column::new(alloc, x),
            y: Column::new(alloc, y),
            z: Column::new(alloc, z),
        }
    }

    // What the fields hold.
    pub(super) fn kinds(&self) -> [Kind; 6]
        ensures { result ≡ field_kinds self.now }
    {
        [
            self.u.kind(),
            self.v.kind(),
            self.w.kind(),
            self.x.kind(),
            self.y.kind(),
            self.z.kind(),
        ]
    }

    // Whether x, y, z hold integers, and u, v, w nothing.
    #[inline(always)]
    pub(super) fn are_ints_alone(&self) -> bool
        ensures { OnTrue result (field_kinds self.now ≡ ints_alone) }
    {
        self.u.is_unused() && self.v.is_unused() && self.w.is_unused() && self.are_integers()
    }

    // Whether x, y, z hold integers.
    #[inline(always)]
    fn are_integers(&self) -> bool
        ensures { OnTrue result (AreIntegers self.now) }
    {
        self.x.is_of_ints() && self.y.is_of_ints() && self.z.is_of_ints()
    }

    // Takes room for the values of one vertex more. The values stay, whether there is room or not.
    #[inline(always)]
    pub(super) fn reserve(&mut self) -> Result<(), AllocError>
        ensures kinds { field_kinds self.new ≡ field_kinds self.old }
        ensures columns { (n : ℕ) → field_columns n self.new ≡ field_columns n self.old }
        ensures room { OnOk result (HaveRoom self.new) }
    {
        self.u.reserve()?;
        self.v.reserve()?;
        self.w.reserve()?;
        self.x.reserve()?;
        self.y.reserve()?;
        self.z.reserve()?;
        Ok(())
    }

    // Puts the values of a vertex after the others, for which there is room. It takes no memory.
    pub(super) fn push(&mut self, values: [Util; 6])
        requires kinds { map util_kind values ≡ field_kinds self.old }
        requires room { HaveRoom self.old }
        ensures kinds { field_kinds self.new ≡ field_kinds self.old }
        ensures values { (n : ℕ) → AreColumns n (field_columns n self.old)
            → field_columns (1 + n) self.new ≡ with_row (field_columns n self.old) values }
    {
        let (u, v, w, x, y, z) = each(values);
        self.u.push(u);
        self.v.push(v);
        self.w.push(w);
        self.x.push(x);
        self.y.push(y);
        self.z.push(z);
    }

    // The same of a vertex that holds integers in x, y, z and nothing in u, v, w, as the others do.
    #[inline(always)]
    pub(super) fn push_ints(&mut self, x: i64, y: i64, z: i64)
        requires kinds { field_kinds self.old ≡ ints_alone }
        requires room { HaveRoom self.old }
        ensures kinds { field_kinds self.new ≡ ints_alone }
        ensures values { (n : ℕ) → AreColumns n (field_columns n self.old)
            → field_columns (1 + n) self.new
            ≡ with_row (field_columns n self.old) (put_numbers x y z no_fields) }
    {
        self.x.push(Util::Int(x));
        self.y.push(Util::Int(y));
        self.z.push(Util::Int(z));
    }

    // Whether each vertex that is named is one of n, and each arc record one of m.
    pub(super) fn fit(&self, n: usize, m: usize) -> bool
        ensures { (k : ℕ) → result
            ≡ columns_fit n m (field_kinds self.now) (field_columns k self.now) }
    {
        self.u.fits(n, m)
            && self.v.fits(n, m)
            && self.w.fits(n, m)
            && self.x.fits(n, m)
            && self.y.fits(n, m)
            && self.z.fits(n, m)
    }

    // The values of vertex k.
    pub(super) fn get(&self, k: usize) -> [UtilRef<'_>; 6]
        requires { HaveValues k self.now }
        ensures { (n : ℕ) → k < n → AreColumns n (field_columns n self.now)
            → slice_get (rows n (field_columns n self.now)) k ≡ Some (map util_seen result) }
    {
        [
            self.u.get(k),
            self.v.get(k),
            self.w.get(k),
            self.x.get(k),
            self.y.get(k),
            self.z.get(k),
        ]
    }

    // Makes the fields x, y, z of n vertices hold integers: 0 where a vertex had none. It takes memory where they held none.
    #[inline(always)]
    pub(super) fn hold_numbers(&mut self, alloc: Global, n: usize) -> Result<(), AllocError>
        requires { AreColumns n (field_columns n self.old) }
        ensures ok { OnOk result (HoldNumbers n self.old self.new) }
        ensures err { OnErr result (self.new ≡ self.old) }
    {
        if self.are_integers() {
            return Ok(());
        }
        self.take_numbers(alloc, n)
    }

    // The same, where one of them does not.
    #[inline(never)]
    fn take_numbers(&mut self, alloc: Global, n: usize) -> Result<(), AllocError>
        requires { AreColumns n (field_columns n self.old) }
        ensures ok { OnOk result (HoldNumbers n self.old self.new) }
        ensures err { OnErr result (self.new ≡ self.old) }
    {
        let x = self.x.numbers(alloc, n)?;
        let y = self.y.numbers(alloc, n)?;
        let z = self.z.numbers(alloc, n)?;
        self.x = Column::Ints(x);
        self.y = Column::Ints(y);
        self.z = Column::Ints(z);
        Ok(())
    }

    // Puts integers into the fields x, y, z of vertex k, which hold integers.
    #[inline(always)]
    pub(super) fn set_numbers(&mut self, k: usize, x: i64, y: i64, z: i64)
        requires kinds { AreIntegers self.old }
        requires place { HaveValues k self.old }
        ensures kinds { field_kinds self.new ≡ field_kinds self.old }
        ensures columns { (n : ℕ) → field_columns n self.new
            ≡ put_columns k x y z (field_columns n self.old) }
    {
        self.x.set_int(k, x);
        self.y.set_int(k, y);
        self.z.set_int(k, z);
    }
}

// The six values, each by itself.
fn each(values: [Util; 6]) -> (Util, Util, Util, Util, Util, Util)
    ensures { values ≡ result.0 ∷ result.1 ∷ result.2 ∷ result.3 ∷ result.4 ∷ result.5 ∷ [] }
{
    let [u, v, w, x, y, z] = values;
    (u, v, w, x, y, z)
}
