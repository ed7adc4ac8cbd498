//! The name of a vector, of which the next name keeps what it has in common with it.
//!
//! A name whose entries have one digit or two, as its length tells, is copied whole for a tip, and its digits are
//! written over where no entry has more or fewer of them; else the entries are put anew from the first that differs to
//! the last. Single digits are written whether they differ or not. To compare them takes fewer instructions, but which
//! of them differ no branch can tell beforehand: sets of 25 elements take little more than half as long so.
ghost use Rattle.std.specs.Prelude.{◌≡◌, ◌≤◌, ◌<◌, ◌+◌, ◌-◌, ◌*◌, [], ◌∷◌, ◌++◌, drop, false, length, nat_lt, take, IfErr};
ghost use Rattle.std.specs.Bool.{OnFalse, OnTrue};
ghost use Rattle.sgb_file.specs.Devices.{change};
ghost use Rattle.sgb_vec.specs.Limits.{most_dimensions};
ghost use Rattle.sgb_vec.specs.Names.{name_of_vector};
ghost use Rattle.sgb_moves.specs.MovedCoordinates.{parts_put};
ghost use Rattle.sgb.specs.Texts.{name_line};
ghost use Rattle.sgb.specs.inner.Pages.{IsPaged, page_bytes};
ghost use Rattle.sgb.specs.inner.Texts.{entries_text, entry_text};

use super::numerals::Numerals;
use super::pages::{Page, make_room};
use sgb_file::Sink;
use sgb_gen::Span;
use sgb_requests::Fault;
use sgb_vec::{Filled, Vector};
use std::marker::Model;

// A name has at most this many bytes, with room for one entry more.
const MOST_NAME_BYTES: usize = 2_816;

/// The name of a vector, with the places where its entries end. Contracts see it as the vector.
#[derive(Drop)]
pub(super) struct KeptName {
    vector: Vector,
    // How many bytes each entry takes in the name together with those before it.
    ends: Vector,
    text: Filled<MOST_NAME_BYTES>,
    numerals: Numerals,
}

impl Model for KeptName {
    ghost use Rattle.std.specs.Prelude.{List, ℕ};
    ghost use Rattle.sgb.specs.inner.KeptNames.{IsKeptName};

    ghost Value = { List ℕ };

    ghost view = { λ name. name.vector.items };

    ghost invariant = { λ name. IsKeptName name.vector.items name.ends.items name.text };
}

impl KeptName {
    /// The name of the vector with no entries.
    pub(super) fn new() -> KeptName
        ensures { result ≡ [] }
    {
        KeptName {
            vector: Vector::new(),
            ends: Vector::new(),
            text: Filled::new(),
            numerals: Numerals::new(),
        }
    }

    /// Makes it the name of this vector. The entries before the first one that is new keep their bytes.
    pub(super) fn turn_to(&mut self, vector: &[u32])
        requires { length vector.now ≤ most_dimensions + 1 }
        ensures { self.new ≡ vector.now }
    {
        let kept = equal_from_start(self.vector.as_slice(), vector);
        self.cut(kept);
        for entry in &vector[kept..] {
            self.push(*entry);
        }
    }

    // The name of the first `count` entries.
    fn cut(&mut self, count: usize)
        requires { count ≤ length self.old }
        ensures { self.new ≡ take count self.old }
    {
        let end = self.end_of(count);
        self.text.cut(end);
        shorten(&mut self.vector, count);
        shorten(&mut self.ends, count);
    }

    // The name with one more entry.
    fn push(&mut self, entry: u32)
        requires { length self.old ≤ most_dimensions }
        ensures { self.new ≡ self.old ++ entry ∷ [] }
    {
        self.numerals
            .push_entry(&mut self.text, self.vector.len() > 0, entry);
        self.vector.push(entry);
        self.ends.push(self.text.len() as u32);
    }

    // How many bytes the first `count` entries take.
    #[inline(always)]
    fn end_of(&self, count: usize) -> usize
        requires { count ≤ length self.now }
        ensures value { result ≡ length (name_of_vector (take count self.now)) }
        ensures short { result ≤ 11 * count }
        ensures within { result ≤ length (name_of_vector self.now) }
    {
        if count == 0 {
            return 0;
        }
        self.ends.as_slice()[count - 1] as usize
    }

    /// Hands the line of the vector to a page: its name and a newline.
    pub(super) fn push_line<W: Sink>(&self, page: &mut Page, out: &mut W) -> Result<(), Fault>
        requires { W.has_failed out.old ≡ false }
        ensures paged { IsPaged page.old (name_line (name_of_vector self.now)) page.new
            (change W.written W.has_failed out.old out.new) result }
        ensures fault { IfErr result (λ f. f ≡ Fault.Write) }
    {
        make_room(page, out)?;
        page.push_text(self.text.bytes());
        page.push_text(b"\n");
        Ok(())
    }

    /// Appends the name of a vector of as many entries to a page. Only digits are put anew, or the entries between those that
    /// both vectors have alike, at the start and at the end.
    #[inline(always)]
    pub(super) fn push_other(&self, other: &[u32], page: &mut Page)
        requires width { length other.now ≡ length self.now }
        requires room { length page.old + (11 * length self.now + 41) ≤ page_bytes }
        ensures text { page.new ≡ page.old ++ name_of_vector other.now }
        ensures short { length page.new ≤ length page.old + 11 * length self.now }
    {
        if !self.push_with_digits(other, page) {
            self.push_between_ends(other, page);
        }
    }

    // The same by this name, in which the digits are written over. `false`, and nothing is appended, where an entry that differs
    // has not as many digits, or more than two, or this name seems to have such entries.
    #[inline(always)]
    fn push_with_digits(&self, other: &[u32], page: &mut Page) -> bool
        requires width { length other.now ≡ length self.now }
        requires room { length page.old + (11 * length self.now + 41) ≤ page_bytes }
        ensures text { OnTrue result (page.new ≡ page.old ++ name_of_vector other.now) }
        ensures short { OnTrue result (length page.new ≤ length page.old + 11 * length self.now) }
        ensures none { OnFalse result (page.new ≡ page.old) }
    {
        if self.text.len() >= 3 * self.vector.len() {
            return false;
        }
        let start = page.len();
        page.push_start_of(&self.text, self.text.len());
        let vector = self.vector.as_slice();
        for (k, entry) in other.iter().enumerate() {
            let end = start + self.end_of(k + 1);
            if *entry < 10 && vector[k] < 10 {
                page.put_digit(end - 1, *entry);
                continue;
            }
            if *entry == vector[k] {
                continue;
            }
            if *entry < 10 || vector[k] < 10 || *entry > 99 || vector[k] > 99 {
                page.cut(start);
                return false;
            }
            page.put_two_digits(end - 2, *entry);
        }
        true
    }

    // The same with the entries put in digits anew from the first one that differs to the last.
    #[inline(never)]
    fn push_between_ends(&self, other: &[u32], page: &mut Page)
        requires width { length other.now ≡ length self.now }
        requires room { length page.old + (11 * length self.now + 41) ≤ page_bytes }
        ensures text { page.new ≡ page.old ++ name_of_vector other.now }
        ensures short { length page.new ≤ length page.old + 11 * length self.now }
    {
        let vector = self.vector.as_slice();
        let from = equal_from_start(vector, other);
        let to = equal_to_end(vector, other, from);
        page.push_start_of(&self.text, self.end_of(from));
        self.numerals.push_entries(page, other, from, to);
        page.push_rest_of(&self.text, self.end_of(to));
    }

    /// Appends the name of the vector where an arc of length `l` leads to a page. Only their entries are put in digits anew, and no vector is made. `span` has arcs of this vector.
    #[inline(always)]
    pub(super) fn push_moved(&self, span: &Span, l: u32, page: &mut Page)
        requires named { self.now ≡ span.now.x }
        requires room { length page.old + (11 * length self.now + 41) ≤ page_bytes }
        ensures text { page.new ≡ page.old ++ name_of_vector (parts_put span.now.sizes span.now.wrap
            self.now l span.now.parts self.now) }
        ensures short { length page.new ≤ length page.old + 11 * length self.now }
    {
        let mut place = 0;
        for (k, amount) in span.parts() {
            self.push_through(place, *k, span.entry_at(*k, *amount, l), page);
            place = *k + 1;
        }
        page.push_rest_of(&self.text, self.end_of(place));
    }

    // Appends its entries from place `from` on and before `to`, as they stand in its name, and then this entry.
    #[inline(always)]
    fn push_through(&self, from: usize, to: usize, entry: u32, page: &mut Page)
        requires order { from ≤ to }
        requires within { to < length self.now }
        requires room { length page.old + (11 * (to - from) + 41) ≤ page_bytes }
        ensures text { page.new ≡ page.old
            ++ (entries_text (nat_lt 0 from) (take (to - from) (drop from self.now))
            ++ entry_text (nat_lt 0 to) entry) }
        ensures short { length page.new ≤ length page.old + 11 * (to + 1 - from) }
    {
        page.push_part_of(&self.text, self.end_of(from), self.end_of(to));
        self.numerals.push_entry(page, to > 0, entry);
    }
}

// Keeps the first `count` entries. The others, of which there are few as a rule, go one by one.
fn shorten(entries: &mut Vector, count: usize)
    ensures { entries.new.items ≡ take count entries.old.items }
{
    while entries.len() > count {
        let _last = entries.pop();
    }
}

// A number of first entries that both vectors have alike: the greatest there is.
fn equal_from_start(a: &[u32], b: &[u32]) -> usize
    ensures within { (result ≤ length a.now) × (result ≤ length b.now) }
    ensures equal { take result a.now ≡ take result b.now }
{
    let most = a.len().min(b.len());
    for place in 0..most {
        if a[place] != b[place] {
            return place;
        }
    }
    most
}

// A place, not before `from`, from which on both vectors have their entries alike: the least there is.
fn equal_to_end(a: &[u32], b: &[u32], from: usize) -> usize
    requires width { length b.now ≡ length a.now }
    requires place { from ≤ length a.now }
    ensures within { (from ≤ result) × (result ≤ length a.now) }
    ensures equal { drop result a.now ≡ drop result b.now }
{
    let mut to = a.len();
    while from < to && a[to - 1] == b[to - 1] {
        to -= 1;
    }
    to
}
