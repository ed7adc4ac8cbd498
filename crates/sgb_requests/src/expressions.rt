//! Expressions and flips read for a request.
ghost use Rattle.std.specs.Prelude.{◌≡◌, Err, IfOk};
ghost use Rattle.sgb_expr.specs.Expression.{Expression, expression_of};
ghost use Rattle.sgb_expr.specs.Expressions.{IsExpression, IsTooLarge};
ghost use Rattle.sgb_expr.specs.FlipTexts.{IsFlip};
ghost use Rattle.sgb_expr.specs.declared.flips.FlipParams.{FlipParams};
ghost use Rattle.sgb_requests.specs.Reading.{IsFlipReadAs, IsReadAs};

use crate::faults::Fault;
use sgb_expr::{Expr, FlipParams, Unread, read_expr, read_flip};
use sgb_vec::Panic;
use std::alloc::Global;

impl From<Unread> for Fault {
    ghost use Rattle.std.specs.Prelude.{◌≡◌};
    ghost use Rattle.sgb_requests.specs.Faults.{fault_of_unread};

    ghost from_gives = { λ cause fault. fault ≡ fault_of_unread cause };

    fn from(cause: Unread) -> Fault {
        match cause {
            Unread::TooLarge => Fault::TooLarge,
            Unread::At(k) => Fault::Expr(k),
            Unread::NoRoom => Fault::Panic(Panic::NoRoom),
        }
    }
}

/// The expression that the text is: one of GraphBase's official names and, in parentheses, its arguments with commas
/// between them (GB_BASIC, board, simplex, subsets and their special cases), with no spaces.
///
/// `TooLarge` before all else, whatever memory there is, where the text has more than 65,536 bytes, or some prefix of it
/// has over 64 more `(` than `)`. `Expr(k)` where it is no expression; its first k bytes are its longest prefix that
/// begins one. `Panic(NoRoom)` when out of memory, and only where an operation on graphs stands in the text as a whole, or
/// a `[`.
pub fn parse_expr(alloc: Global, text: &[u8]) -> Result<Expr, Fault>
    ensures read { IsReadAs text.now result }
    ensures only { (e : Expression) → IsExpression text.now e
        → IfOk result (λ read. expression_of read ≡ e) }
    ensures large { IsTooLarge text.now → result ≡ Err Fault.TooLarge }
{
    let expression = read_expr(alloc, text)?;
    Ok(expression)
}

/// The flip that the text is: `flip(START,SKIP,COUNT,M)` with integers as in expressions, and no spaces.
///
/// `TooLarge` before all else, as `parse_expr` returns it. `Expr(k)` where it is no flip; its first k bytes are its
/// longest prefix that begins one.
pub fn parse_flip(text: &[u8]) -> Result<FlipParams, Fault>
    ensures read { IsFlipReadAs text.now result }
    ensures only { (p : FlipParams) → IsFlip text.now p → IfOk result (λ read. read ≡ p) }
{
    let params = read_flip(text)?;
    Ok(params)
}
