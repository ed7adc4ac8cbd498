//! The arcs of one vertex, with the vectors where they lead.
//!
//! The vectors stand one after another, and each is handed out as a slice: a vector for each arc would be a thousand
//! bytes. What all lists of a board have in common stands elsewhere (`BoardLists`): links serve for list after list,
//! also of another board.
ghost use Rattle.std.specs.Prelude.{◌≡◌, ◌<◌, pos, [], ◌∷◌, ◌++◌, ◌+◌, ◌*◌, ◌≤◌, length, vec_capacity, vec_len, take, drop, slice_get, Some, OnOk, OnErr, IsOkUnless};
ghost use Rattle.sgb_gen.specs.LocalLists.{LinksData, LocalArc};

use sgb_moves::Starts;
use sgb_vec::Panic;
use std::alloc::Global;
use std::marker::Model;
use std::mem::replace;

/// An arc of a vertex: the vector where it leads, and its length. Contracts see the vector as a list.
#[derive(Drop)]
pub struct LocalArcRef<'a> {
    /// The vector where the arc leads.
    pub tip: &'a [u32],
    /// Its length.
    pub len: u32,
}

impl<'a> Model for LocalArcRef<'a> {
    ghost use Rattle.std.specs.Prelude.{pos};
    ghost use Rattle.sgb_gen.specs.LocalLists.{LocalArc};

    ghost Value = { LocalArc };

    ghost view = { λ l. record { tip = l.tip.now; len = pos l.len } };
}

/// The arcs of one vertex, in the order of its list. All vectors where they lead have as many entries. One value
/// serves for vertex after vertex. Contracts see a list of vectors with lengths, and the count of entries.
#[derive(Drop)]
pub struct Links {
    // The entries of all vectors, how many each has, and the lengths of the arcs.
    tips: Vec<u32>,
    width: usize,
    lens: Vec<u32>,
    // Room that is used again for the starts of moves: no part of the arcs.
    starts: Vec<(u32, u32)>,
}

impl Model for Links {
    ghost use Rattle.std.specs.Prelude.{◌≡◌, ◌*◌, length};
    ghost use Rattle.sgb_gen.specs.inner.LocalArcs.{arcs_in};
    ghost use Rattle.sgb_gen.specs.LocalLists.{LinksData};

    ghost Value = { LinksData };

    ghost view = { λ l. record {
      width = l.width;
      arcs = arcs_in l.width l.tips.items l.lens.items;
    } };

    ghost invariant = { λ l. length l.tips.items ≡ length l.lens.items * l.width };
}

impl Links {
    /// No arcs. They keep the allocator, and take no memory yet.
    pub fn new(alloc: Global) -> Links
        ensures { result.arcs ≡ [] }
    {
        Links {
            tips: Vec::new(alloc),
            width: 0,
            lens: Vec::new(alloc),
            starts: Vec::new(alloc),
        }
    }

    /// The number of arcs.
    pub fn len(&self) -> usize
        ensures { result ≡ length self.now.arcs }
    {
        self.lens.len()
    }

    /// The arc at place `i`, counted from 0, of a list of more than `i` arcs.
    pub fn get(&self, i: usize) -> LocalArcRef<'_>
        requires { i < length self.now.arcs }
        ensures { slice_get self.now.arcs i ≡ Some result }
    {
        LocalArcRef {
            tip: row(self.tips.as_slice(), self.width, i),
            len: self.lens[i],
        }
    }

    // Where the memory of the arcs comes from.
    pub(crate) fn alloc(&self) -> Global {
        *self.lens.allocator()
    }

    // Drops all arcs; those that follow lead to vectors of this width.
    pub(crate) fn clear(&mut self, width: usize)
        ensures { self.new ≡ record { width = width; arcs = [] } }
    {
        self.tips.clear();
        self.lens.clear();
        self.width = width;
    }

    // What putting the arcs of a list ended with: where that was refused, all arcs are dropped.
    pub(crate) fn ended(&mut self, put: Result<(), Panic>) -> Result<(), Panic>
        ensures result { result ≡ put }
        ensures ok { OnOk put (self.new ≡ self.old) }
        ensures err { OnErr put (self.new.arcs ≡ []) }
    {
        if put.is_err() {
            self.clear(self.width);
        }
        put
    }

    // Puts an arc behind the others. An error means out of memory: the arcs stay as they were.
    pub(crate) fn push(&mut self, tip: &[u32], len: u32) -> Result<(), Panic>
        requires width { length tip.now ≡ self.old.width }
        ensures ok { OnOk result (self.new
            ≡ record self.old {
              arcs = self.old.arcs ++ record { tip = tip.now; len = pos len }
                  ∷ [];
            }) }
        ensures err { OnErr result (self.new ≡ self.old) }
        ensures memory { IsOkUnless result Panic.NoRoom }
    {
        self.lens.reserve(1)?;
        push_entries(&mut self.tips, tip)?;
        self.lens.push(len)?;
        Ok(())
    }

    // Hands out room for the starts of moves; its memory comes from where that of the links does.
    pub(crate) fn take_starts(&mut self) -> Result<Starts, Panic>
        ensures same { self.new ≡ self.old }
        ensures memory { IsOkUnless result Panic.NoRoom }
    {
        let none = Vec::new(*self.lens.allocator());
        Starts::new(replace(&mut self.starts, none))
    }

    // Takes that room back.
    pub(crate) fn keep_starts(&mut self, starts: Starts)
        ensures { self.new ≡ self.old }
    {
        self.starts = starts.into_room();
    }
}

// Puts the entries of a vector behind the others: few of them one by one, which takes less than a copy of so few bytes. An
// error means out of memory: they stay as they were.
#[inline(always)]
fn push_entries(entries: &mut Vec<u32>, x: &[u32]) -> Result<(), Panic>
    ensures ok { OnOk result (entries.new.items ≡ entries.old.items ++ x.now) }
    ensures err { OnErr result (entries.new.items ≡ entries.old.items) }
    ensures memory { IsOkUnless result Panic.NoRoom }
{
    if x.len() > 8 {
        entries.extend_from_slice(x)?;
        return Ok(());
    }
    entries.reserve(x.len())?;
    for entry in x {
        put(entries, *entry);
    }
    Ok(())
}

// Puts an entry behind the others, where there is room for it.
#[inline(always)]
fn put(entries: &mut Vec<u32>, entry: u32)
    requires { vec_len entries.old < vec_capacity entries.old }
    ensures items { entries.new.items ≡ entries.old.items ++ entry ∷ [] }
    ensures len { vec_len entries.new ≡ vec_len entries.old + 1 }
    ensures room { vec_capacity entries.old ≤ vec_capacity entries.new }
{
    let _pushed = entries.push(entry);
}

// The row at this place, counted from 0, of rows that have this width and stand one after another.
#[inline(always)]
fn row(entries: &[u32], width: usize, place: usize) -> &[u32]
    requires { place * width + width ≤ length entries.now }
    ensures { result.now ≡ take width (drop (place * width) entries.now) }
{
    let start = place * width;
    &entries[start..start + width]
}
