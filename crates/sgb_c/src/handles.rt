//! The handle of a graph, as C has it: `struct sgb_graph`.
ghost use Rattle.std.specs.Prelude.{◌≡◌, Some, None, is_some};
ghost use Rattle.std.specs.Option.{option_map};

use crate::held::{Held, Loose};
use std::alloc::Global;
use std::mem::replace;

/// A graph that is open, or none. All bytes 0 stand for none.
#[repr(C)]
#[derive(Drop)]
pub struct GraphHandle {
    /// The graph, if there is one.
    pub held: Loose,
    /// Whether there is one.
    pub is_open: bool,
    ghost agrees: { is_open ≡ is_some held.value },
}

impl GraphHandle {
    ghost use types.Logic.{sem};
    ghost use Rattle.sgb_c.specs.inner.Lending.{LendsGraph};

    // No graph.
    fn closed() -> GraphHandle
        ensures { result.held.value ≡ None }
    {
        GraphHandle {
            held: Loose::none(),
            is_open: false,
        }
    }

    // Whether a graph is open.
    pub(crate) fn is_open(&self) -> bool
        ensures { result ≡ is_some self.now.held.value }
    {
        self.is_open
    }

    // Takes the graph out, if one is open: none is then.
    pub(crate) fn take(&mut self, alloc: Global) -> Option<Box<Held>>
        ensures taken { option_map (λ b. b.value) result ≡ self.old.held.value }
        ensures left { self.new.held.value ≡ None }
    {
        if !self.is_open {
            return None;
        }
        let GraphHandle { held, is_open: _ } = replace(self, GraphHandle::closed());
        Some(held.into_box(alloc))
    }

    // Holds the graph in the box.
    pub(crate) fn put(&mut self, boxed: Box<Held>)
        ensures { self.new.held.value ≡ Some boxed.value }
    {
        *self = GraphHandle {
            held: Loose::of(boxed),
            is_open: true,
        };
    }

    // Lends the graph where it lies, if one is open.
    pub(crate) fn lend(&mut self) -> Option<&mut Held>
        ensures* writes_back { sem 𝓛 (LendsGraph self.entry result) }
        ensures value { option_map (λ h. h.now) result ≡ self.old.held.value }
    {
        if self.is_open {
            Some(self.held.lend())
        } else {
            None
        }
    }
}
