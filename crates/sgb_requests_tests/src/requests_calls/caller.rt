//! A caller of `sgb_requests`, as the page for callers shows it.
use sgb_file::{MemSink, Sink};
use sgb_requests::{Request, report, request};
use std::alloc::{AllocError, Global};
use std::test::Fail;

/// Appends words of a command line, of which the first is the program's name.
pub fn push_words(
    words: &mut Vec<String>,
    alloc: Global,
    texts: &[&str],
) -> Result<(), AllocError> {
    for text in texts {
        words.push(String::from_str(alloc, text)?)?;
    }
    Ok(())
}

/// The request that the words make; or the line of their fault, written to `errors`, and its status.
pub fn asked<E: Sink>(alloc: Global, words: &[String], errors: &mut E) -> Result<Request, u8> {
    match request(alloc, words) {
        Ok(request) => Ok(request),
        Err(fault) => Err(report(&fault, errors)),
    }
}

/// Whether the words make no request: this is their status, and this line is written.
pub fn is_fault(alloc: Global, words: &[String], status: u8, line: &[u8]) -> bool {
    let mut errors = MemSink::new(alloc);
    match asked(alloc, words, &mut errors) {
        Ok(_) => false,
        Err(found) => found == status && errors.bytes() == line,
    }
}

#[test]
fn words_that_make_no_request(rt: HostRuntime) -> Result<(), Fail> {
    let mut words = Vec::new(rt.alloc());
    push_words(&mut words, rt.alloc(), &["sgb", "list", "board(3,"])?;
    assert!(rt; is_fault(rt.alloc(), &words, 2, b"sgb: bad expression at byte 8\n"));
    Ok(())
}
