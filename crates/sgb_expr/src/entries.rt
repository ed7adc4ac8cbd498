//! The entries of an induced graph: integers and expressions, in order.
//!
//! They are a type of their own over a `Vec`. It has no `Model`, since it stands in a cycle of types with expressions:
//! contracts see the list through `items_of` (`specs/CodeEntries`).
ghost use Rattle.std.specs.Prelude.{◌≡◌, ◌==◌, length};
ghost use Rattle.sgb_expr.specs.CodeEntries.{items_of};

use crate::expressions::Expr;

/// An entry of an induced graph (GB_BASIC, induced).
#[cycle(expr)]
#[derive(Debug, Drop, PartialEq, Eq)]
pub enum EntryExpr {
    /// An integer.
    Number(i64),
    /// An expression. In a box it takes no more than an integer does: an induced graph may have 32,000 entries.
    Graph(Box<Expr>),
}

/// The entries of an induced graph, in order (GB_BASIC, induced).
#[cycle(expr)]
#[derive(Debug, Drop, PartialEq, Eq)]
pub struct Entries {
    list: Vec<EntryExpr>,
}

impl Entries {
    /// These entries, in order.
    pub fn new(list: Vec<EntryExpr>) -> Entries
        ensures { items_of result ≡ list.items }
    {
        Entries { list }
    }

    /// How many entries there are.
    pub fn len(&self) -> usize
        ensures { result ≡ length (items_of self.now) }
    {
        self.list.len()
    }

    /// Whether there is no entry.
    pub fn is_empty(&self) -> bool
        ensures { result ≡ (length (items_of self.now) == 0) }
    {
        self.list.is_empty()
    }

    /// All entries, in order.
    pub fn as_slice(&self) -> &[EntryExpr]
        ensures { result.now ≡ items_of self.now }
    {
        self.list.as_slice()
    }
}
