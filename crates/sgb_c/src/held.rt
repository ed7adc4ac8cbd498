//! A graph that C holds: the pointer to it, and what it owns.
//!
//! An export may not take a `&Graph`, a pointer to one or a struct that holds one, since vectors can be read through a
//! `&` (`also_shares`). So the pointer has no type, and `Loose` says in `also_owns` what lies there. Its four functions
//! are proved by hand, and all others are plain code: opening hands the handle a box, closing takes it out, and each
//! call between is lent the graph where it lies. What C keeps may own and not be shared, so it is lent as a `&mut`, and
//! a handle is handed over for writing also where a call reads.
ghost use Rattle.std.specs.Prelude.{◌≡◌, Option, Some, None, is_some, true};
ghost use Rattle.sgb_c.specs.declared.held.Held.{Held};

use sgb_arrays::OpenGraph;
use std::alloc::Global;
use std::marker::Model;

/// A graph in a block of its own.
#[derive(Drop)]
pub struct Held {
    /// The graph, built or not.
    pub graph: OpenGraph,
}

/// The pointer to a graph that is held, or to none. Only the ghost field says which: code that needs to know keeps a flag
/// beside it.
#[repr(C)]
#[derive(Drop)]
pub struct Loose {
    at: *mut (),
    pub ghost value: { Option Held },
}

impl Model for Loose {
    ghost use Rattle.sgb_c.specs.contracts.held.Held.{the_row};
    ghost use Rattle.sgb_c.specs.Owns.{owns_if};

    ghost also_owns = { λ h. owns_if the_row h.at h.value };
}

impl Loose {
    ghost use types.Logic.{sem};
    ghost use Rattle.sgb_c.specs.inner.Lending.{LendsHeld};

    /// Holds nothing.
    pub(crate) fn none() -> Loose
        ensures { result.value ≡ None }
    {
        Loose {
            at: std::ptr::null_mut(),
        }
    }

    /// Holds what is in the box.
    pub(crate) fn of(boxed: Box<Held>) -> Loose
        ensures { result.value ≡ Some boxed.value }
    {
        let at = Box::into_raw(boxed);
        Loose { at: at as *mut () }
    }

    /// The box again. There is one only where something is held.
    pub(crate) fn into_box(self, alloc: Global) -> Box<Held>
        requires { is_some self.value ≡ true }
        ensures { Some result.value ≡ self.value }
    {
        unsafe { Box::from_raw(alloc, self.at as *mut Held) }
    }

    /// What is held, lent where it lies. There is something only where something is held.
    pub(crate) fn lend(&mut self) -> &mut Held
        requires { is_some self.old.value ≡ true }
        ensures* writes_back { sem 𝓛 (LendsHeld self.entry result) }
        ensures value { Some result.now ≡ self.old.value }
    {
        unsafe { &mut *(self.at as *mut Held) }
    }
}
