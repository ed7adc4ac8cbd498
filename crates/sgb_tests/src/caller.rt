//! A caller of `sgb`, as the page for callers shows it.
use sgb::{Fault, graph_of, parse_expr, read_input, run_program};
use sgb_file::{MemSink, MemSource, Source};
use sgb_graph::Graph;
use sgb_vec::Panic;
use std::alloc::Global;
use std::test::Fail;

/// What the program writes for these words, of which the first is its name, and its exit status.
pub fn answer_to(alloc: Global, texts: &[&str]) -> Result<(MemSink, u8), Fail> {
    let mut words = Vec::new(alloc);
    for text in texts {
        words.push(String::from_str(alloc, text)?)?;
    }
    let mut source = MemSource::new(b"");
    let mut out = MemSink::new(alloc);
    let mut errors = MemSink::new(alloc);
    let status = run_program(alloc, Ok(words), &mut source, &mut out, &mut errors);
    Ok((out, status))
}

/// The graph of the expression that a text is. The source is read only where the expression has `stdin`.
pub fn graph_named<R: Source>(alloc: Global, text: &[u8], source: &mut R) -> Result<Graph, Fault> {
    let expression = parse_expr(alloc, text)?;
    let mut input = Vec::new(alloc);
    if expression.has_stdin() {
        input = read_input(alloc, source)?;
    }
    let graph = graph_of(alloc, &expression, &input)?;
    Ok(graph)
}

/// How many vertices that graph has.
pub fn vertices_of<R: Source>(alloc: Global, text: &[u8], source: &mut R) -> Result<u32, Fault> {
    let graph = graph_named(alloc, text, source)?;
    Ok(graph.n())
}

#[test]
fn an_answer_and_a_graph(rt: HostRuntime) -> Result<(), Fail> {
    let (out, status) = answer_to(rt.alloc(), &["sgb", "names", "complete(2)"])?;
    assert!(rt; status == 0 && out.bytes() == b"0\n1\n".as_slice());
    let mut source = MemSource::new(b"no file");
    assert!(rt; vertices_of(rt.alloc(), b"lines(complete(4),0)", &mut source) == Ok(6));
    let early = Err(Fault::Panic(Panic::Early));
    assert!(rt; vertices_of(rt.alloc(), b"stdin", &mut source) == early);
    Ok(())
}
