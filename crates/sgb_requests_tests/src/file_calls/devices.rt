//! Calls of devices at concrete types: over memory, over a reader and a writer, with a buffer, and cut short.
use sgb_file::{
    Buffered, CutSink, CutSource, FromRead, MemSink, MemSource, Sink, Source, ToWrite, put_all,
};
use std::alloc::Global;

// Whether the source gives three bytes, and the sink takes them and is flushed.
fn hands_over<R: Source, W: Sink>(source: &mut R, sink: &mut W) -> bool {
    let mut buffer = [0; 3];
    source.take(&mut buffer) == Ok(3)
        && !source.failed()
        && put_all(sink, &buffer) == Ok(())
        && sink.flush() == Ok(())
        && !sink.failed()
}

// Whether a writer, here a vector, has the bytes of a reader, here a slice.
fn is_written(alloc: Global) -> bool {
    let mut written = Vec::new(alloc);
    let mut source = FromRead::new(b"abc".as_slice());
    let is_met = hands_over(&mut source, &mut ToWrite::new(&mut written));
    is_met && written.as_slice() == b"abc".as_slice()
}

// Whether the sink, which stands here alone, has those of memory, and is then dropped.
fn is_handed_over<W: Sink + Drop>(mut sink: W) -> bool {
    hands_over(&mut MemSource::new(b"abc"), &mut sink)
}

// Whether a writer behind a buffer has the bytes.
fn is_written_behind_a_buffer(alloc: Global) -> bool {
    let mut written = Vec::new(alloc);
    let is_met = match Buffered::new(alloc, &mut written) {
        Ok(sink) => is_handed_over(sink),
        Err(_) => false,
    };
    is_met && written.as_slice() == b"abc".as_slice()
}

// Whether devices that are cut short give and take as much as they may.
fn is_cut() -> bool {
    let mut source = CutSource::new(b"abcdef", 3, 6);
    let mut sink: CutSink<4> = CutSink::new(2, 3, false);
    hands_over(&mut source, &mut sink) && sink.bytes() == b"abc".as_slice()
}

#[test]
fn devices_hand_over(rt: HostRuntime) {
    let mut sink = MemSink::new(rt.alloc());
    assert!(rt;
        hands_over(&mut MemSource::new(b"abc"), &mut sink) && sink.bytes() == b"abc".as_slice()
    );
    assert!(rt; is_written(rt.alloc()) && is_written_behind_a_buffer(rt.alloc()) && is_cut());
}
