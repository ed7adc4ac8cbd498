//! Which expressions read standard input.
ghost use Rattle.std.specs.Prelude.{◌≡◌};
ghost use Rattle.sgb_expr.specs.Listed.{listed};
ghost use Rattle.sgb_expr.specs.Expression.{entries_of, entry_of, expression_of};
ghost use Rattle.sgb_expr.specs.StdinUses.{entries_have_stdin, entry_has_stdin, has_stdin};

use crate::entries::EntryExpr;
use crate::expressions::Expr;

impl Expr {
    /// Whether `stdin` stands anywhere in the expression: whether its graph is read from standard input, or one of its
    /// operands or entries has it.
    #[cycle(stdin_uses)]
    pub fn has_stdin(&self) -> bool
        ensures { result ≡ has_stdin (expression_of self.now) }
    {
        match self {
            Expr::Generator(_) => false,
            Expr::Complement { graph, .. } => graph.has_stdin(),
            Expr::Gunion { first, second, .. } => first.has_stdin() || second.has_stdin(),
            Expr::Intersection { first, second, .. } => first.has_stdin() || second.has_stdin(),
            Expr::Lines { graph, .. } => graph.has_stdin(),
            Expr::Product { first, second, .. } => first.has_stdin() || second.has_stdin(),
            Expr::Induced { graph, entries, .. } => {
                graph.has_stdin() || have_stdin(entries.as_slice())
            }
            Expr::BiComplete { .. } => false,
            Expr::Wheel { .. } => false,
            Expr::Stdin => true,
        }
    }
}

/// Whether `stdin` stands anywhere in one of the entries.
#[cycle(stdin_uses)]
pub fn have_stdin(entries: &[EntryExpr]) -> bool
    ensures { result ≡ entries_have_stdin (entries_of (listed entries.now)) }
{
    for entry in entries {
        if entry_has_stdin(entry) {
            return true;
        }
    }
    false
}

// Whether `stdin` stands anywhere in the entry.
#[cycle(stdin_uses)]
fn entry_has_stdin(entry: &EntryExpr) -> bool
    ensures { result ≡ entry_has_stdin (entry_of entry.now) }
{
    match entry {
        EntryExpr::Number(_) => false,
        EntryExpr::Graph(graph) => graph.has_stdin(),
    }
}
