//! The names of a graph's vertices.
//!
//! Each stands where its vertex will: the graph takes them over, and none is moved. Where their number is known before
//! they are made, as that of a line graph, their room is taken at once: a vector that grows moves, and leaves holes behind.
ghost use Rattle.std.specs.Prelude.{◌≡◌, ◌<◌, [], ◌∷◌, ◌++◌, Some, length, slice_get, OnOk, OnErr, IfErr, IfOk, IsOkUnless};

use sgb_vec::{Panic, Text};
use std::alloc::Global;
use std::marker::Model;

/// The names of a graph's vertices, in their order. Contracts see them as a list of texts.
#[derive(Drop)]
pub struct Names {
    texts: Vec<Text>,
}

impl Model for Names {
    ghost use Rattle.std.specs.Prelude.{List, ℕ};

    ghost Value = { List (List ℕ) };

    ghost view = { λ names. names.texts.items };
}

impl Names {
    /// No names. They keep the allocator, and take no memory yet.
    pub fn new(alloc: Global) -> Names
        ensures { result ≡ [] }
    {
        Names {
            texts: Vec::new(alloc),
        }
    }

    /// No names, with room for so many.
    ///
    /// `NoRoom` when out of memory, and nothing else.
    pub fn with_capacity(alloc: Global, count: usize) -> Result<Names, Panic>
        ensures ok { IfOk result (λ names. names ≡ []) }
        ensures memory { IsOkUnless result Panic.NoRoom }
    {
        let texts = Vec::with_capacity(alloc, count)?;
        Ok(Names { texts })
    }

    /// Appends a name.
    ///
    /// An error means out of memory: it hands the name back, and the names stay as they were.
    pub fn push(&mut self, name: Text) -> Result<(), Text>
        ensures ok { OnOk result (self.new ≡ self.old ++ name ∷ []) }
        ensures err { OnErr result (self.new ≡ self.old) }
        ensures returned { IfErr result (λ text. text ≡ name) }
    {
        match self.texts.push(name) {
            Ok(()) => Ok(()),
            Err(refused) => Err(refused.value),
        }
    }

    /// The number of names.
    pub fn len(&self) -> usize
        ensures { result ≡ length self.now }
    {
        self.texts.len()
    }

    /// Name number `v`, counted from 0, below `len()`.
    pub fn get(&self, v: u32) -> &Text
        requires { v < length self.now }
        ensures { slice_get self.now v ≡ Some result.now }
    {
        &self.texts[v as usize]
    }

    // The names, one after another.
    pub(crate) fn into_texts(self) -> Vec<Text>
        ensures { result.items ≡ self }
    {
        let Names { texts } = self;
        texts
    }
}
