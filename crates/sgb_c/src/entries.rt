//! The entries of an induced graph, as C gathers them (`struct sgb_entries`), and the graph that they induce.
//!
//! A list is taken out of its handle, grows, and is put back: so nothing of it is lent. A graph comes in as a copy, so that it may
//! be an entry many times, be the operand too, and be closed before the list is.
ghost use Rattle.std.specs.Prelude.{◌≡◌, [], None, Some, Err, IfSome};
ghost use Rattle.std.specs.Option.{option_map, option_map_or};
ghost use Rattle.sgb_vec.specs.declared.panics.Panic.{Panic};
ghost use Rattle.sgb_graph.specs.Vertices.{order_of};
ghost use Rattle.sgb_ops.specs.Entries.{accepted_entries};
ghost use Rattle.sgb_ops.specs.Induced.{induced_of};
ghost use Rattle.sgb_values.specs.Values.{numbered_entry};
ghost use Rattle.sgb_c.specs.Answers.{number_of};
ghost use Rattle.sgb_c.specs.Handles.{IsListedIn, graph_in};
ghost use Rattle.sgb_c.specs.Made.{IsAdded, IsGraphAdded, IsMade, entries_in};
ghost use Rattle.sgb_c.specs.declared.answers.Answer.TheVariants as answer;

use crate::answers::Answer;
use crate::entry_handles::EntriesHandle;
use crate::entry_lists::EntryList;
use crate::handles::GraphHandle;
use crate::operated::graph_induced;
use sgb_ops::Entry;
use sgb_values::numbered_entry;
use sgb_vec::Panic;
use std::alloc::Global;

impl EntriesHandle {
    // Adds an entry after the others; the number of the answer.
    fn add(&mut self, alloc: Global, entry: Entry) -> u64
        ensures { IsAdded entry (entries_in self.old) (entries_in self.new) result }
    {
        match self.list(alloc) {
            Some(list) => self.put_longer(list, entry),
            None => Answer::Panic(Panic::NoRoom).number(),
        }
    }

    // The list, taken out, or an empty one. `None` out of memory; then there was none.
    fn list(&mut self, alloc: Global) -> Option<Box<EntryList>>
        ensures list { IfSome result (λ b. b.value.entries.items ≡ entries_in self.old) }
        ensures none { result ≡ None → entries_in self.new ≡ entries_in self.old }
    {
        match self.take(alloc) {
            Some(list) => Some(list),
            None => empty_list(alloc),
        }
    }

    // Holds the list, with this entry after the others; the number of the answer.
    fn put_longer(&mut self, mut list: Box<EntryList>, entry: Entry) -> u64
        ensures { IsAdded entry list.value.entries.items (entries_in self.new) result }
    {
        let number = list.as_mut().push(entry);
        self.put(list);
        number
    }
}

impl EntryList {
    // Adds an entry after the others; the number of the answer.
    fn push(&mut self, entry: Entry) -> u64
        ensures { IsAdded entry self.old.entries.items self.new.entries.items result }
    {
        match self.entries.push(entry) {
            Ok(()) => Answer::Done.number(),
            Err(_refused) => Answer::Panic(Panic::NoRoom).number(),
        }
    }
}

// A list with no entries.
fn empty_list(alloc: Global) -> Option<Box<EntryList>>
    ensures { IfSome result (λ b. b.value.entries.items ≡ []) }
{
    let list = EntryList {
        entries: Vec::new(alloc),
    };
    match Box::new(alloc, list) {
        Ok(boxed) => Some(boxed),
        Err(_refused) => None,
    }
}

// The entries of what was taken out of a handle.
fn entries_of(taken: &Option<Box<EntryList>>) -> &[Entry]
    ensures { result.now ≡ option_map_or (λ b. b.value.entries.items) taken.now [] }
{
    match taken {
        Some(list) => list.entries.as_slice(),
        None => &[],
    }
}

/// Adds a number to the entries: so many copies of a vertex, or for -k merged vertex k (GB_BASIC, induced).
#[unsafe(no_mangle)]
pub extern "C" fn sgb_entries_number(alloc: Global, entries: &mut EntriesHandle, number: i64) -> u64
    ensures { IsAdded (numbered_entry number) (entries_in entries.old) (entries_in entries.new)
        result }
{
    entries.add(alloc, numbered_entry(number))
}

/// Adds a copy of the graph that is open to the entries.
#[unsafe(no_mangle)]
pub extern "C" fn sgb_entries_graph(
    alloc: Global,
    entries: &mut EntriesHandle,
    graph: &mut GraphHandle,
) -> u64
    ensures added { IsGraphAdded (graph_in graph.old) (entries_in entries.old)
        (entries_in entries.new) result }
    ensures kept { graph.new.held.value ≡ graph.old.held.value }
{
    match graph.lend() {
        Some(held) => match held.graph.copy(alloc) {
            Ok(copy) => entries.add(alloc, Entry::Graph(copy)),
            Err(panic) => Answer::Panic(panic).number(),
        },
        None => Answer::NotOpen.number(),
    }
}

/// Gives the list of entries back, if there is one.
#[unsafe(no_mangle)]
pub extern "C" fn sgb_entries_close(alloc: Global, entries: &mut EntriesHandle)
    ensures { entries.new.held.value ≡ None }
{
    let _closed = entries.take(alloc);
}

/// The graph that the entries induce of the graph that is open (GB_BASIC, induced). The list stays.
#[unsafe(no_mangle)]
pub extern "C" fn sgb_induced_by(
    alloc: Global,
    graph: &mut GraphHandle,
    entries: &mut EntriesHandle,
    self_loops: bool,
    multi: bool,
    directed: bool,
    made: &mut GraphHandle,
) -> u64
    ensures made { IsMade (option_map
        (λ g. induced_of g (entries_in entries.old) self_loops multi directed)
        (graph_in graph.old)) (graph_in made.old) (graph_in made.new) result }
    ensures refused { (p : Panic) → graph_in made.old ≡ None
        → option_map (λ g. accepted_entries (order_of g) (entries_in entries.old))
        (graph_in graph.old) ≡ Some (Err p) → result ≡ number_of (answer.Panic p) }
    ensures left { (result ≡ number_of answer.Done → ⊥)
        → made.new.held.value ≡ made.old.held.value }
    ensures built { graph_in made.old ≡ None → IsListedIn made.new → ⊥ }
    ensures kept { graph.new.held.value ≡ graph.old.held.value }
    ensures entries { entries.new.held.value ≡ entries.old.held.value }
{
    if made.is_open() {
        return Answer::AlreadyOpen.number();
    }
    match graph.lend() {
        Some(held) => {
            let taken = entries.take(alloc);
            let list = entries_of(&taken);
            let answer = graph_induced(alloc, &held.graph, list, self_loops, multi, directed);
            entries.put_back(taken);
            made.put_made(alloc, answer)
        }
        None => Answer::NotOpen.number(),
    }
}
