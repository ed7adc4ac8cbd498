//! The handle of a list of entries, as C has it: `struct sgb_entries`.
ghost use Rattle.std.specs.Prelude.{◌≡◌, None, Some, is_some};
ghost use Rattle.std.specs.Option.{option_map};

use crate::entry_lists::{EntryList, LooseList};
use std::alloc::Global;
use std::mem::replace;

/// A list of entries, or none. All bytes 0 stand for none.
#[repr(C)]
#[derive(Drop)]
pub struct EntriesHandle {
    /// The list, if there is one.
    pub held: LooseList,
    /// Whether there is one.
    pub is_held: bool,
    ghost agrees: { is_held ≡ is_some held.value },
}

impl EntriesHandle {
    // No list.
    fn closed() -> EntriesHandle
        ensures { result.held.value ≡ None }
    {
        EntriesHandle {
            held: LooseList::none(),
            is_held: false,
        }
    }

    // Takes the list out, if there is one: there is none then.
    pub(crate) fn take(&mut self, alloc: Global) -> Option<Box<EntryList>>
        ensures taken { option_map (λ b. b.value) result ≡ self.old.held.value }
        ensures left { self.new.held.value ≡ None }
    {
        if !self.is_held {
            return None;
        }
        let EntriesHandle { held, is_held: _ } = replace(self, EntriesHandle::closed());
        Some(held.into_box(alloc))
    }

    // Holds the list in the box.
    pub(crate) fn put(&mut self, boxed: Box<EntryList>)
        ensures { self.new.held.value ≡ Some boxed.value }
    {
        *self = EntriesHandle {
            held: LooseList::of(boxed),
            is_held: true,
        };
    }

    // Holds what was taken out.
    pub(crate) fn put_back(&mut self, taken: Option<Box<EntryList>>)
        ensures { self.new.held.value ≡ option_map (λ b. b.value) taken }
    {
        match taken {
            Some(boxed) => self.put(boxed),
            None => *self = EntriesHandle::closed(),
        }
    }
}
