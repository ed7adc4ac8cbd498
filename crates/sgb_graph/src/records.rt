//! The arc records of a graph, in little memory: where each leads, and its utility fields beside.
ghost use Rattle.std.specs.Prelude.{◌≡◌, ◌<◌, ◌+◌, ◌++◌, ◌^◌, ◌&&◌, ℕ, [], ◌∷◌, length, option_map, slice_get, Some, IfSome, OnOk, OnErr};
ghost use Rattle.sgb_graph.specs.Columns.{arc_seen};
ghost use Rattle.sgb_graph.specs.Sound.{util_fits};
ghost use Rattle.sgb_graph.specs.inner.Columns.{column_kind, util_kind, values};
ghost use Rattle.sgb_graph.specs.Graphs.{arc_record};
ghost use Rattle.std.specs.List.{list_all};
ghost use Rattle.sgb_graph.specs.inner.Fitting.{record_fits_by};
ghost use Rattle.sgb_graph.specs.inner.KeptRecords.{plain_fits, plain_records};
ghost use Rattle.sgb_graph.specs.declared.fields.Kind.TheVariants.{Z};

use crate::columns::Column;
use crate::fields::{ArcRec, ArcRef, Kind, Ref};
use crate::kept_numbers::read_number;
use crate::leads::{Leads, PlainRecord};
use std::alloc::{AllocError, Global};
use std::marker::Model;

// The arc records of a graph, one after another, and their utility fields a and b beside them.
#[derive(Drop)]
pub(crate) struct Records {
    plain: Leads,
    a: Column,
    b: Column,
}

impl Model for Records {
    ghost use Rattle.std.specs.Prelude.{length};
    ghost use Rattle.sgb_graph.specs.inner.Columns.{HoldsMany};
    ghost use Rattle.sgb_graph.specs.inner.KeptRecords.{KeptRecords, kept_records, plain_records};

    ghost Value = { KeptRecords };

    ghost view = { λ r. kept_records (plain_records r.plain) r.a r.b };

    ghost invariant = { λ r. HoldsMany (length (plain_records r.plain)) r.a
        × HoldsMany (length (plain_records r.plain)) r.b };
}

impl Records {
    // No records, whose utility fields a and b are of these kinds. It takes no memory.
    pub(crate) fn new(alloc: Global, a: Kind, b: Kind) -> Records
        ensures { result ≡ record { a = a; b = b; items = [] } }
    {
        Records {
            plain: Leads::new(alloc),
            a: Column::new(alloc, a),
            b: Column::new(alloc, b),
        }
    }

    // The number of records.
    pub(crate) fn len(&self) -> usize
        ensures count { result ≡ length self.now.items }
        ensures small { result < 2 ^ 63 }
    {
        self.plain.len()
    }

    // What the utility fields a and b hold.
    pub(crate) fn kinds(&self) -> [Kind; 2]
        ensures { result ≡ self.now.a ∷ self.now.b ∷ [] }
    {
        [self.a.kind(), self.b.kind()]
    }

    // Record k, below the number of records.
    #[inline(always)]
    pub(crate) fn get(&self, k: usize) -> ArcRef<'_>
        requires { k < length self.now.items }
        ensures { slice_get self.now.items k ≡ Some (arc_seen result) }
    {
        let plain = self.plain.at(k);
        ArcRef {
            tip: plain.tip,
            next: read_number(plain.next),
            len: plain.len,
            a: self.a.get(k),
            b: self.b.get(k),
        }
    }

    // Where record k leads, the next one, and its length, without the utility fields. k is below the number of records.
    #[inline(always)]
    pub(crate) fn lead(&self, k: usize) -> (Ref, Option<usize>, i64)
        requires { k < length self.now.items }
        ensures tip { option_map (λ r. r.tip) (slice_get self.now.items k) ≡ Some result.0 }
        ensures next { option_map (λ r. r.next) (slice_get self.now.items k) ≡ Some result.1 }
        ensures len { option_map (λ r. r.len) (slice_get self.now.items k) ≡ Some result.2 }
    {
        let plain = self.plain.at(k);
        (plain.tip, read_number(plain.next), plain.len)
    }

    // Whether the fields of each record fit n vertices and as many records as there are.
    pub(crate) fn fit(&self, n: usize) -> bool
        ensures { result ≡ list_all (record_fits_by n (length self.now.items)
            (self.now.a ∷ self.now.b ∷ [])) self.now.items }
    {
        all_fit(&self.plain, &self.a, &self.b, n, self.plain.len())
    }

    // Takes room for so many records more, but not for their utility fields. The records stay, whether there is room or not.
    pub(crate) fn reserve(&mut self, count: usize) -> Result<(), AllocError>
        ensures { self.new ≡ self.old }
    {
        self.plain.reserve(count)
    }

    // Puts a record, whose utility fields are of the kinds here, after the others.
    #[inline(always)]
    pub(crate) fn push(&mut self, arc: ArcRec) -> Result<(), AllocError>
        requires kinds { (util_kind arc.a ≡ self.old.a) × (util_kind arc.b ≡ self.old.b) }
        requires next { IfSome arc.next (λ k. k + 1 < 2 ^ 64) }
        ensures ok { OnOk result (self.new
            ≡ record self.old { items = self.old.items ++ arc ∷ [] }) }
        ensures err { OnErr result (self.new ≡ self.old) }
    {
        self.a.reserve()?;
        self.b.reserve()?;
        self.plain
            .push(PlainRecord::new(arc.tip, arc.next, arc.len))?;
        self.a.push(arc.a);
        self.b.push(arc.b);
        Ok(())
    }

    // Puts a record that leads to v, before the one given, after the others; the utility fields of records are not used.
    #[inline(always)]
    pub(crate) fn push_plain(
        &mut self,
        v: u32,
        after: Option<usize>,
        len: i64,
    ) -> Result<(), AllocError>
        requires plain { (self.old.a ≡ Z) × (self.old.b ≡ Z) }
        requires small { IfSome after (λ k. k + 1 < 2 ^ 64) }
        ensures ok { OnOk result (self.new
            ≡ record self.old { items = self.old.items ++ arc_record v after len ∷ [] }) }
        ensures err { OnErr result (self.new ≡ self.old) }
    {
        self.plain.push(PlainRecord::new(Ref::At(v), after, len))
    }

    // Puts two records of this length after the others, or neither: each leads to a vertex, before the record given.
    #[inline(always)]
    pub(crate) fn push_pair(
        &mut self,
        len: i64,
        high: u32,
        after_lower: Option<usize>,
        low: u32,
        after_higher: Option<usize>,
    ) -> Result<(), AllocError>
        requires plain { (self.old.a ≡ Z) × (self.old.b ≡ Z) }
        requires lower { IfSome after_lower (λ k. k + 1 < 2 ^ 64) }
        requires higher { IfSome after_higher (λ k. k + 1 < 2 ^ 64) }
        ensures ok { OnOk result (self.new ≡ record self.old {
          items = self.old.items
              ++ arc_record high after_lower len ∷ arc_record low after_higher len ∷ [];
        }) }
        ensures err { OnErr result (self.new ≡ self.old) }
    {
        let lower = PlainRecord::new(Ref::At(high), after_lower, len);
        let higher = PlainRecord::new(Ref::At(low), after_higher, len);
        self.plain.push_two(lower, higher)?;
        Ok(())
    }
}

// Whether all of these fit n vertices and m records.
fn all_fit(plain: &Leads, a: &Column, b: &Column, n: usize, m: usize) -> bool
    ensures { (k : ℕ) → result ≡ (list_all (plain_fits n m) (plain_records plain.now)
        && list_all (util_fits n m (column_kind a.now)) (values k a.now)
        && list_all (util_fits n m (column_kind b.now)) (values k b.now)) }
{
    plain.fit(n, m) && a.fits(n, m) && b.fits(n, m)
}
