//! What the program is asked to do.
ghost use Rattle.std.specs.Prelude.{◌≡◌, IfOk, IsOkUnless};

use sgb_expr::{Expr, FlipParams};
use sgb_vec::Panic;
use std::alloc::Global;
use std::marker::Model;

/// A name asked for: any bytes. Contracts see it as the list of its bytes.
#[derive(Drop)]
pub struct Name {
    bytes: Vec<u8>,
}

impl Model for Name {
    ghost use Rattle.std.specs.Prelude.{List, ℕ};

    ghost Value = { List ℕ };

    ghost view = { λ name. name.bytes.items };
}

impl Name {
    /// The name of these bytes. `NoRoom` when out of memory.
    pub fn new(alloc: Global, bytes: &[u8]) -> Result<Name, Panic>
        ensures ok { IfOk result (λ name. name ≡ bytes.now) }
        ensures memory { IsOkUnless result Panic.NoRoom }
    {
        let bytes = Vec::from_slice(alloc, bytes)?;
        Ok(Name { bytes })
    }

    /// The bytes of the name.
    pub fn bytes(&self) -> &[u8]
        ensures { result.now ≡ self.now }
    {
        self.bytes.as_slice()
    }
}

/// Where an answer begins.
#[derive(Drop)]
pub enum Resume {
    /// At the first vertex.
    Whole,
    /// After the first so many vertices.
    Skip(u64),
    /// After the first vertex of this name.
    After(Name),
}

/// What the program is asked to do.
#[derive(Drop)]
pub enum Request {
    /// The names of the graph's vertices.
    Names(Expr, Resume),
    /// The graph's listing: its vertices, each with its arcs.
    List(Expr, Resume),
    /// The `.gb` file of the graph.
    Save(Expr),
    /// The moves of queens on a board of three rows and four columns.
    Queen,
    /// Random numbers, one a line (GB_FLIP).
    Flip(FlipParams),
}
