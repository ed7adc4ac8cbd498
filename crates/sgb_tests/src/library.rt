//! Each public name of the library once, from outside; `run_program` stands in `caller`.
ghost use Rattle.std.specs.Prelude.{◌≡◌, false, Contains, IfSome, ⊤};
ghost use Rattle.sgb_gen.specs.Generators.{vectors_of};

use sgb::{
    Answer, Expr, Fault, Local, Request, answered_once_law, graph_of, input_unread_law,
    list_family, local_of, parse_expr, read_input, report, request, run, run_answer,
    run_endings_law, status, unread_fault, write_bytes,
};
use sgb_file::{CutSource, MemSink, MemSource, Sink};
use sgb_gen::{Board, BoardParams, Links, Listed, Visit, Visitor};
use sgb_vec::{Family, Panic};
use std::alloc::Global;
use std::io::{Error, ErrorKind};

// A graph of no vertices.
const EMPTY: &[u8] =
    b"* GraphBase graph (util_types ZZZZZZZZZZZZZZ,0V,0A)\n\"a\",0,0\n* Vertices\n* Arcs\n* Checksum 18619\n";

// Whether the text is an expression that is a generator's.
fn is_generator(alloc: Global, text: &[u8]) -> bool {
    match parse_expr(alloc, text) {
        Ok(Expr::Generator(_)) => true,
        Ok(_) | Err(_) => false,
    }
}

#[test]
fn an_expression_is_read(rt: HostRuntime) {
    assert!(rt; is_generator(rt.alloc(), b"complete(2)"));
}

// How many vertices and arcs the graph of a text has, where standard input has these bytes.
fn sizes_of(alloc: Global, text: &[u8], input: &[u8]) -> Option<(u32, u64)> {
    let Ok(expression) = parse_expr(alloc, text) else {
        return None;
    };
    let Ok(graph) = graph_of(alloc, &expression, input) else {
        return None;
    };
    Some((graph.n(), graph.m()))
}

#[test]
fn the_graph_of_an_expression(rt: HostRuntime) {
    assert!(rt; sizes_of(rt.alloc(), b"lines(petersen(),0)", b"") == Some((15, 60)));
    assert!(rt; sizes_of(rt.alloc(), b"stdin", EMPTY) == Some((0, 0)));
    assert!(rt; sizes_of(rt.alloc(), b"lines(transitive(2),0)", b"") == None);
}

// Whether all bytes of a source that gives at most two at once are read.
fn is_read_whole(alloc: Global, bytes: &[u8]) -> bool {
    let mut source = CutSource::new(bytes, 2, bytes.len().saturating_add(1));
    read_input(alloc, &mut source).is_ok_and(|read| read.as_slice() == bytes)
}

// The fault of a source that fails after so many bytes.
fn fault_after(alloc: Global, bytes: &[u8], count: usize) -> Option<Fault> {
    let mut source = CutSource::new(bytes, 2, count);
    read_input(alloc, &mut source).err()
}

#[test]
fn an_input_is_read(rt: HostRuntime) {
    assert!(rt; is_read_whole(rt.alloc(), b"abcde"));
    assert!(rt; is_read_whole(rt.alloc(), b""));
    assert!(rt; fault_after(rt.alloc(), b"abcde", 3) == Some(Fault::Read));
}

// Whether a request is one for names.
fn asks_for_names(request: &Request) -> bool {
    match request {
        Request::Names(_, _) => true,
        _ => false,
    }
}

// Whether an answer leaves this output and ends well.
fn gives<A: Answer>(alloc: Global, answer: &A, output: &[u8]) -> bool {
    let mut source = MemSource::new(b"");
    let mut out = MemSink::new(alloc);
    let mut errors = MemSink::new(alloc);
    let status = run_answer(alloc, answer, &mut source, &mut out, &mut errors);
    status == 0 && out.bytes() == output
}

// Whether a run of the request leaves this output and ends well.
fn is_run(alloc: Global, request: &Request, output: &[u8]) -> bool {
    let mut source = MemSource::new(b"");
    let mut out = MemSink::new(alloc);
    let mut errors = MemSink::new(alloc);
    let status = run(alloc, request, &mut source, &mut out, &mut errors);
    status == 0 && out.bytes() == output
}

// Whether the words make a request for names that leaves this output and ends well, also where it is an answer.
fn is_asked_for(alloc: Global, words: &[String], output: &[u8]) -> bool {
    match request(alloc, words) {
        Ok(request) => {
            asks_for_names(&request)
                && is_run(alloc, &request, output)
                && gives(alloc, &request, output)
        }
        Err(_) => false,
    }
}

// The words.
fn words_of(alloc: Global, texts: &[&str]) -> Result<Vec<String>, Panic> {
    let mut words = Vec::new(alloc);
    for text in texts {
        words.push(String::from_str(alloc, text)?)?;
    }
    Ok(words)
}

// Whether that is so of these words.
fn is_answered(alloc: Global, texts: &[&str], output: &[u8]) -> bool {
    match words_of(alloc, texts) {
        Ok(words) => is_asked_for(alloc, &words, output),
        Err(_) => false,
    }
}

#[test]
fn a_request_is_answered(rt: HostRuntime) {
    assert!(rt; is_answered(rt.alloc(), &["sgb", "names", "complete(2)"], b"0\n1\n"));
    answered_once_law();
    input_unread_law();
    run_endings_law();
}

#[test]
fn bytes_are_written(rt: HostRuntime) {
    let mut out = MemSink::new(rt.alloc());
    assert!(rt; write_bytes(&mut out, b"ab").is_ok() && out.bytes() == b"ab".as_slice());
}

#[test]
fn words_that_could_not_be_read(rt: HostRuntime) {
    assert!(rt; unread_fault(&Error::from(ErrorKind::InvalidData)) == Fault::Usage);
}

#[test]
fn a_fault_is_reported(rt: HostRuntime) {
    let mut errors = MemSink::new(rt.alloc());
    let reported = report(&Fault::NoVertex, &mut errors);
    assert!(rt; reported == 1 && status(&Fault::NoVertex) == 1);
    assert!(rt; errors.bytes() == "sgb: no such vertex\n".as_bytes());
}

// How many vectors the accepted parameters of a generator's call have.
#[derive(Drop)]
struct Size;

impl Visitor<()> for Size {
    type Answer = u32;

    ghost needs = { λ _ _ _ _. ⊤ };

    ghost gives = { λ _ _ _ _ _ _. ⊤ };
}

impl<'a, L: Listed<'a>> Visit<'a, L, ()> for Size {
    fn visit(self, listed: &mut L, _state: &mut ()) -> u32 {
        listed.family().size()
    }
}

// How many vertices the graph of a generator's call has, or its refusal. `None` where the text is no such call.
fn size_of_call(alloc: Global, text: &[u8]) -> Option<Result<u32, Panic>> {
    let Ok(Expr::Generator(generator)) = parse_expr(alloc, text) else {
        return None;
    };
    Some(local_of(alloc, &generator).map(|local| local.visit(Size, &mut ())))
}

#[test]
fn the_parameters_of_a_call(rt: HostRuntime) {
    let sizes = [
        (b"board(3,4,0,0,1,0,0)".as_slice(), Some(Ok(12))),
        (b"simplex(2,0,0,0,0,0,0)".as_slice(), Some(Ok(6))),
        (b"petersen()".as_slice(), Some(Ok(10))),
        (b"board(2,-251,0,0,1,0,0)".as_slice(), Some(Err(Panic::Bad))),
        (b"lines(petersen(),0)".as_slice(), None),
    ];
    for (text, size) in sizes {
        assert!(rt; size_of_call(rt.alloc(), text) == size);
    }
}

// Writes the listing of a graph: of all vertices with its head, or of those after a vector alone. It says nothing of
// what it writes, so that a function that calls it is proved with no more than what it does itself.
fn is_written<W: Sink>(alloc: Global, local: &Local, after: Option<&[u32]>, out: &mut W) -> bool
    requires member { IfSome after (λ x. Contains (vectors_of local.now) x.now) }
    requires sound { W.has_failed out.old ≡ false }
{
    let mut links = Links::new(alloc);
    list_family(local, after.is_none(), after, &mut links, out).is_ok()
}

// Whether this is the listing of a board, written from its vectors.
fn is_listed(alloc: Global, params: &BoardParams, text: &[u8]) -> bool {
    let Ok(board) = Board::from_params(params) else {
        return false;
    };
    let mut out = MemSink::new(alloc);
    is_written(alloc, &Local::Board(board), None, &mut out) && out.bytes() == text
}

#[test]
fn a_listing_from_vectors(rt: HostRuntime) {
    let params = BoardParams {
        n1: 2,
        n2: 0,
        n3: 0,
        n4: 0,
        piece: 1,
        wrap: 0,
        directed: false,
    };
    let text =
        "  The graph whose official name is\nboard(2,0,0,0,1,0,0)\n  has 2 vertices and 2 arcs:\n\n\
        0\n  -> 1, length 1\n1\n  -> 0, length 1\n";
    assert!(rt; is_listed(rt.alloc(), &params, text.as_bytes()));
}

// Whether this is what comes after a square of a board on a line, with no head.
fn is_rest(alloc: Global, board: Board, square: u32, text: &[u8]) -> bool {
    let after = [square];
    if !board.family().holds(&after) {
        return false;
    }
    let mut out = MemSink::new(alloc);
    is_written(alloc, &Local::Board(board), Some(&after), &mut out) && out.bytes() == text
}

// Whether that is so of the last square of a great one.
fn is_last_of_many(alloc: Global, text: &[u8]) -> bool {
    match Board::new(1_000_000_000, 0, 0, 0, 1, 0, false) {
        Ok(board) => is_rest(alloc, board, 999_999_998, text),
        Err(_) => false,
    }
}

#[test]
fn a_listing_after_a_vector(rt: HostRuntime) {
    let text = b"999999999\n  -> 999999998, length 1\n";
    assert!(rt; is_last_of_many(rt.alloc(), text));
}
