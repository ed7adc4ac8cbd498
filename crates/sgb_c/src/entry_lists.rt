//! A list of entries that C holds, as `held` has a graph: the pointer to it, and what it owns.
ghost use Rattle.std.specs.Prelude.{◌≡◌, Option, Some, None, is_some, true};
ghost use Rattle.sgb_c.specs.declared.entry_lists.EntryList.{EntryList};

use sgb_ops::Entry;
use std::alloc::Global;
use std::marker::Model;

/// Entries in a block of their own.
#[derive(Drop)]
pub struct EntryList {
    /// The entries, in order.
    pub entries: Vec<Entry>,
}

/// The pointer to a list that is held, or to none. Only the ghost field says which, as that of `Loose` does.
#[repr(C)]
#[derive(Drop)]
pub struct LooseList {
    at: *mut (),
    pub ghost value: { Option EntryList },
}

impl Model for LooseList {
    ghost use Rattle.sgb_c.specs.contracts.entry_lists.EntryList.{the_row};
    ghost use Rattle.sgb_c.specs.Owns.{owns_if};

    ghost also_owns = { λ h. owns_if the_row h.at h.value };
}

impl LooseList {
    /// Holds nothing.
    pub(crate) fn none() -> LooseList
        ensures { result.value ≡ None }
    {
        LooseList {
            at: std::ptr::null_mut(),
        }
    }

    /// Holds what is in the box.
    pub(crate) fn of(boxed: Box<EntryList>) -> LooseList
        ensures { result.value ≡ Some boxed.value }
    {
        let at = Box::into_raw(boxed);
        LooseList { at: at as *mut () }
    }

    /// The box again. There is one only where something is held.
    pub(crate) fn into_box(self, alloc: Global) -> Box<EntryList>
        requires { is_some self.value ≡ true }
        ensures { Some result.value ≡ self.value }
    {
        unsafe { Box::from_raw(alloc, self.at as *mut EntryList) }
    }
}
