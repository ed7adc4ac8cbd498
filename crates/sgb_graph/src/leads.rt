//! Where the arc records of a graph lead, and their lengths, in little memory: 12 bytes for each where all lead to vertices,
//! and 32 bits keep all numbers and lengths; else 24 for each.
ghost use Rattle.std.specs.Prelude.{◌≡◌, ◌<◌, ◌+◌, ◌%◌, ◌++◌, ◌^◌, [], ◌∷◌, length, map, nat_abs, slice_get, None, Ok, Some, IfOk, IfSome, OnOk, OnErr};
ghost use Rattle.std.specs.List.{list_all};
ghost use Rattle.std.specs.Bool.{OnTrue};
ghost use Rattle.sgb_graph.specs.inner.KeptRecords.{ArePlain, kept_number, plain_fits, plain_of, plain_records, short_fits, short_of, wide};

use crate::fields::Ref;
use crate::kept_numbers::{keep_number, read_number};
use crate::ranges::{chain_fits, ref_fits};
use std::alloc::{AllocError, Global};

// Where a record leads, the number of the next one, and its length.
#[derive(Clone, Copy)]
pub(crate) struct PlainRecord {
    pub(crate) len: i64,
    pub(crate) next: usize,
    pub(crate) tip: Ref,
}

// The same of one that leads to a vertex, in 32 bits each.
#[derive(Clone, Copy)]
pub(crate) struct ShortRecord {
    len: i32,
    next: u32,
    tip: u32,
}

const _: () = prove!(size_of::<PlainRecord>() == 24);

const _: () = prove!(size_of::<ShortRecord>() == 12);

// Where records lead, one after another: all in 32 bits each, or none.
pub(crate) enum Leads {
    Short(Vec<ShortRecord>),
    Plain(Vec<PlainRecord>),
}

// One function drops them. A derived drop would be a case for each wherever records are dropped.
impl Drop for Leads {
    fn drop(self) {
        match self {
            Leads::Short(_) => {}
            Leads::Plain(_) => {}
        }
    }
}

impl PlainRecord {
    // A record that leads to this tip, before the one given.
    pub(crate) fn new(tip: Ref, after: Option<usize>, len: i64) -> PlainRecord
        requires { IfSome after (λ k. k + 1 < 2 ^ 64) }
        ensures tip { result.tip ≡ tip }
        ensures next { kept_number result.next ≡ after }
        ensures len { result.len ≡ len }
    {
        PlainRecord {
            len,
            next: keep_number(after),
            tip,
        }
    }

    // The record in 32 bits each.
    #[inline(always)]
    fn short(self) -> ShortRecord
        requires { nat_abs self.len < 2 ^ 31 }
        ensures { result ≡ short_of self }
    {
        let tip = match self.tip {
            Ref::At(v) => v,
            _ => 0,
        };
        ShortRecord {
            len: self.len as i32,
            next: narrow(self.next),
            tip,
        }
    }

    // Whether nothing is lost so.
    #[inline(always)]
    fn is_short(self) -> bool
        ensures len { OnTrue result (nat_abs self.len < 2 ^ 31) }
        ensures kept { OnTrue result (plain_of (short_of self) ≡ self) }
    {
        match self.tip {
            Ref::At(_) => {
                self.len.unsigned_abs() < 1 << 31 && wide(narrow(self.next)) == self.next
            }
            _ => false,
        }
    }

    // Whether the record leads to one of n vertices, or none, before one of m records, or none.
    fn fits(&self, n: usize, m: usize) -> bool
        ensures { result ≡ plain_fits n m self.now }
    {
        ref_fits(n, self.tip) && chain_fits(m, read_number(self.next))
    }
}

impl ShortRecord {
    // The record as others are kept.
    #[inline(always)]
    fn plain(self) -> PlainRecord
        ensures { result ≡ plain_of self }
    {
        PlainRecord {
            len: i64::from(self.len),
            next: wide(self.next),
            tip: Ref::At(self.tip),
        }
    }

    // Whether the record leads to one of n vertices, before one of m records, or none.
    fn fits(&self, n: usize, m: usize) -> bool
        ensures { result ≡ short_fits n m self.now }
    {
        ref_fits(n, Ref::At(self.tip)) && chain_fits(m, read_number(wide(self.next)))
    }
}

// The last 32 bits of a word.
#[inline(always)]
fn narrow(word: usize) -> u32
    ensures { result ≡ word % 2 ^ 32 }
{
    (word % (1 << 32)) as u32
}

// The word that keeps the number which these 32 bits keep: the greatest of them stands for none too.
#[inline(always)]
fn wide(short: u32) -> usize
    ensures { result ≡ wide short }
{
    if short == u32::MAX {
        return usize::MAX;
    }
    short as usize
}

impl Leads {
    // No records. It takes no memory.
    pub(crate) fn new(alloc: Global) -> Leads
        ensures { plain_records result ≡ [] }
    {
        Leads::Short(Vec::new(alloc))
    }

    // The number of records.
    #[inline(always)]
    pub(crate) fn len(&self) -> usize
        ensures count { result ≡ length (plain_records self.now) }
        ensures small { result < 2 ^ 63 }
    {
        match self {
            Leads::Short(records) => records.len(),
            Leads::Plain(records) => records.len(),
        }
    }

    // Record k, below the number of records.
    #[inline(always)]
    pub(crate) fn at(&self, k: usize) -> PlainRecord
        requires { k < length (plain_records self.now) }
        ensures { slice_get (plain_records self.now) k ≡ Some result }
    {
        match self {
            Leads::Short(records) => records[k].plain(),
            Leads::Plain(records) => records[k],
        }
    }

    // Whether each record leads to one of n vertices, or none, before one of m records, or none.
    pub(crate) fn fit(&self, n: usize, m: usize) -> bool
        ensures { result ≡ list_all (plain_fits n m) (plain_records self.now) }
    {
        match self {
            Leads::Short(records) => each_short_fits(records, n, m),
            Leads::Plain(records) => each_fits(records, n, m),
        }
    }

    // Takes room for so many records more. The records stay, whether there is room or not.
    pub(crate) fn reserve(&mut self, count: usize) -> Result<(), AllocError>
        ensures { plain_records self.new ≡ plain_records self.old }
    {
        match self {
            Leads::Short(records) => records.reserve(count),
            Leads::Plain(records) => records.reserve(count),
        }
    }

    // Puts a record after the others.
    #[inline(always)]
    pub(crate) fn push(&mut self, last: PlainRecord) -> Result<(), AllocError>
        ensures ok { OnOk result (plain_records self.new ≡ plain_records self.old ++ last ∷ []) }
        ensures err { OnErr result (plain_records self.new ≡ plain_records self.old) }
    {
        match self {
            Leads::Short(short) if last.is_short() => {
                short.reserve(1)?;
                short.push_reserved(last.short());
                Ok(())
            }
            _ => self.push_plain(last.tip, last.next, last.len),
        }
    }

    // Puts two records after the others, or neither.
    #[inline(always)]
    pub(crate) fn push_two(
        &mut self,
        first: PlainRecord,
        second: PlainRecord,
    ) -> Result<(), AllocError>
        ensures ok { OnOk result (plain_records self.new
            ≡ plain_records self.old ++ first ∷ second ∷ []) }
        ensures err { OnErr result (plain_records self.new ≡ plain_records self.old) }
    {
        match self {
            Leads::Short(short) if first.is_short() && second.is_short() => {
                short.reserve(2)?;
                short.push_reserved(first.short());
                short.push_reserved(second.short());
                Ok(())
            }
            _ => self.push_two_plain(first, second),
        }
    }

    // Puts any record after the others. It is handed over by its parts, so that one in 32 bits each is put together once.
    #[inline(never)]
    fn push_plain(&mut self, tip: Ref, next: usize, len: i64) -> Result<(), AllocError>
        ensures ok { OnOk result (plain_records self.new
            ≡ plain_records self.old ++ record { len = len; next = next; tip = tip } ∷ []) }
        ensures err { OnErr result (plain_records self.new ≡ plain_records self.old) }
    {
        self.make_plain()?;
        match self {
            Leads::Short(_) => {}
            Leads::Plain(records) => {
                records.reserve(1)?;
                records.push_reserved(PlainRecord { len, next, tip });
            }
        }
        Ok(())
    }

    // Puts any two records after the others, or neither.
    #[inline(never)]
    fn push_two_plain(&mut self, first: PlainRecord, second: PlainRecord) -> Result<(), AllocError>
        ensures ok { OnOk result (plain_records self.new
            ≡ plain_records self.old ++ first ∷ second ∷ []) }
        ensures err { OnErr result (plain_records self.new ≡ plain_records self.old) }
    {
        self.make_plain()?;
        match self {
            Leads::Short(_) => {}
            Leads::Plain(records) => {
                records.reserve(2)?;
                records.push_reserved(first);
                records.push_reserved(second);
            }
        }
        Ok(())
    }

    // Makes it such that any record can be put.
    fn make_plain(&mut self) -> Result<(), AllocError>
        ensures records { plain_records self.new ≡ plain_records self.old }
        ensures ready { OnOk result (ArePlain self.new) }
    {
        if let Some(records) = self.plain()? {
            *self = Leads::Plain(records);
        }
        Ok(())
    }

    // The records as others are kept, where they do not stand so.
    fn plain(&self) -> Result<Option<Vec<PlainRecord>>, AllocError>
        ensures some { IfOk result (λ plain. IfSome plain
            (λ records. records.items ≡ plain_records self.now)) }
        ensures none { result ≡ Ok None → ArePlain self.now }
    {
        match self {
            Leads::Short(records) => Ok(Some(plain_of(records)?)),
            Leads::Plain(_) => Ok(None),
        }
    }
}

// The records as others are kept, and room for as many as there was.
fn plain_of(short: &Vec<ShortRecord>) -> Result<Vec<PlainRecord>, AllocError>
    ensures { IfOk result (λ records. records.items ≡ map plain_of short.now.items) }
{
    let mut records = Vec::with_capacity(*short.allocator(), short.capacity())?;
    for record in short {
        records.push(record.plain())?;
    }
    Ok(records)
}

// Whether each record leads to one of n vertices, before one of m records, or none.
fn each_short_fits(records: &[ShortRecord], n: usize, m: usize) -> bool
    ensures { result ≡ list_all (short_fits n m) records.now }
{
    records.iter().all(|record| record.fits(n, m))
}

// Whether each record leads to one of n vertices, or none, before one of m records, or none.
fn each_fits(records: &[PlainRecord], n: usize, m: usize) -> bool
    ensures { result ≡ list_all (plain_fits n m) records.now }
{
    records.iter().all(|record| record.fits(n, m))
}
