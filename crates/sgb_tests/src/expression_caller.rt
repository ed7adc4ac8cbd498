//! A caller of `sgb_expr`, as its page for callers shows it.
use sgb_expr::{Unread, read_expr};
use sgb_values::graph_of;
use sgb_vec::Panic;
use std::alloc::Global;
use std::test::Fail;

/// What became of a text.
#[derive(Debug, Drop, PartialEq, Eq)]
pub enum Seen {
    /// It is an expression, whose graph has so many vertices.
    Vertices(u32),
    /// It is one whose graph is refused, or there is no memory.
    Refused(Panic),
    /// It is none, as its longest prefix of so many bytes that begins one tells.
    WrongAt(u32),
    /// It is too large to be read.
    TooLarge,
    /// Its graph is not known before standard input is.
    WantsInput,
}

/// How many vertices the graph of an expression has, or why that is not known.
pub fn look_at(alloc: Global, text: &[u8]) -> Seen {
    let expression = match read_expr(alloc, text) {
        Ok(expression) => expression,
        Err(Unread::TooLarge) => return Seen::TooLarge,
        Err(Unread::At(k)) => return Seen::WrongAt(k),
        Err(Unread::NoRoom) => return Seen::Refused(Panic::NoRoom),
    };
    if expression.has_stdin() {
        return Seen::WantsInput;
    }
    match graph_of(alloc, &expression, b"") {
        Ok(graph) => Seen::Vertices(graph.n()),
        Err(panic) => Seen::Refused(panic),
    }
}

#[test]
fn texts_and_their_graphs(rt: HostRuntime) -> Result<(), Fail> {
    assert!(rt; look_at(rt.alloc(), b"lines(complete(4),0)") == Seen::Vertices(6));
    assert!(rt; look_at(rt.alloc(), b"lines(cycle(3),0)") == Seen::Refused(Panic::Invalid));
    assert!(rt; look_at(rt.alloc(), b"lines(cycle(3))") == Seen::WrongAt(14));
    assert!(rt; look_at(rt.alloc(), b"lines(stdin,0)") == Seen::WantsInput);
    Ok(())
}
