//! The expressions that name a graph, and reading them.
ghost use Rattle.std.specs.Prelude.{◌≡◌, Err, IfOk};
ghost use Rattle.sgb_expr.specs.Expression.{Expression, expression_of};
ghost use Rattle.sgb_expr.specs.Expressions.{IsExpression, IsExpressionRead, IsTooLarge, TakesMemory};
ghost use Rattle.sgb_expr.specs.inner.Gives.{Gives};
ghost use Rattle.sgb_expr.specs.inner.Reading.{whole_at};

use crate::entries::Entries;
use crate::measure::is_too_large;
use crate::operations::expression;
use crate::wrong::Wrong;
use sgb_gen::Generator;
use std::alloc::Global;

/// An expression that names a graph.
#[cycle(expr)]
#[derive(Debug, Drop, PartialEq, Eq)]
pub enum Expr {
    /// A graph of a generator.
    Generator(Generator),
    /// The complement of a graph, or a copy of it (GB_BASIC, complement).
    Complement {
        graph: Box<Expr>,
        copy: bool,
        self_loops: bool,
        directed: bool,
    },
    /// The union of two graphs (GB_BASIC, gunion).
    Gunion {
        first: Box<Expr>,
        second: Box<Expr>,
        multi: bool,
        directed: bool,
    },
    /// The intersection of two graphs (GB_BASIC, intersection).
    Intersection {
        first: Box<Expr>,
        second: Box<Expr>,
        multi: bool,
        directed: bool,
    },
    /// The line graph of a graph (GB_BASIC, lines).
    Lines {
        graph: Box<Expr>,
        directed: bool,
    },
    /// A product of two graphs, of this kind (GB_BASIC, product).
    Product {
        first: Box<Expr>,
        second: Box<Expr>,
        kind: i64,
        directed: bool,
    },
    /// The graph induced by entries (GB_BASIC, induced).
    Induced {
        graph: Box<Expr>,
        entries: Entries,
        self_loops: bool,
        multi: bool,
        directed: bool,
    },
    /// A complete bipartite graph with n1 and n2 vertices in its parts (GB_BASIC, bi_complete).
    BiComplete {
        n1: i64,
        n2: i64,
        directed: bool,
    },
    /// A wheel with n vertices around n1 in its middle (GB_BASIC, wheel).
    Wheel {
        n: i64,
        n1: i64,
        directed: bool,
    },
    /// The graph of the file on standard input (GB_SAVE, restore_graph).
    Stdin,
}

/// Why a text is not read, as an expression or as what is asked of the random generator.
#[derive(Clone, Copy, Debug, PartialEq, Eq)]
pub enum Unread {
    /// It has more than 65,536 bytes, or some prefix of it has over 64 more `(` than `)`.
    TooLarge,
    /// It is no such text; its longest prefix that begins one has this many bytes.
    At(u32),
    /// Out of memory, which is taken for an operation on graphs that has been read, and for entries.
    NoRoom,
}

/// The expression that the text is: `stdin`, or one of GraphBase's official names and, in parentheses, its arguments
/// with commas between them, with no spaces: `board`, `simplex`, `subsets` and their special cases, with integers; `complement`
/// with an expression and three integers, `gunion` and `intersection` with two expressions and two integers, `lines`
/// with an expression and an integer, `product` with two expressions and two integers, `induced` with an expression,
/// entries and three integers, `bi_complete` and `wheel` with three integers (GB_BASIC). Entries are a `[`, integers and
/// expressions in any order with commas between them, and a `]`.
/// `size_bits` is 1 to 18 digits, or `0x` and 1 to 32 hexadecimal ones; each other integer is an optional `-` and 1 to
/// 18 digits, and a flag is true where its integer is not zero. A short name is read as the parameters that it stands
/// for.
///
/// `TooLarge` before all else where the text has more than 65,536 bytes, or some prefix of it has over 64 more `(`
/// than `)`. `At(k)` where it is no expression; its first k bytes are its longest prefix that begins one. `NoRoom`
/// when out of memory, and only where an operation on graphs stands in the text as a whole, or a `[`: any other text is
/// read, or refused, whatever memory there is.
pub fn read_expr(alloc: Global, text: &[u8]) -> Result<Expr, Unread>
    ensures read { IsExpressionRead text.now result }
    ensures only { (e : Expression) → IsExpression text.now e
        → IfOk result (λ read. expression_of read ≡ e) }
    ensures large { IsTooLarge text.now → result ≡ Err Unread.TooLarge }
{
    if is_too_large(text) {
        return Err(Unread::TooLarge);
    }
    match whole(alloc, text) {
        Ok(expression) => Ok(expression),
        Err(Wrong::Left(left)) => Err(Unread::At((text.len() - left) as u32)),
        Err(Wrong::NoRoom) => Err(Unread::NoRoom),
    }
}

// The expression that the whole text is, or where it goes wrong.
fn whole(alloc: Global, text: &[u8]) -> Result<Expr, Wrong>
    ensures { Gives (TakesMemory text.now) expression_of result (whole_at text.now) }
{
    let (expression, rest) = expression(alloc, text)?;
    if rest.is_empty() {
        Ok(expression)
    } else {
        Err(Wrong::Left(rest.len()))
    }
}
