//! A caller of `sgb_file`, as the page for callers shows it.
use sgb_file::{MemSink, read_gb, write_gb};
use sgb_vec::Panic;
use std::alloc::Global;

/// Two vertices, with an arc from the first to the second. A negative checksum is not compared.
const BY_HAND: &[u8] = b"* GraphBase graph (util_types ZZZZZZZZZZZZZZ,2V,1A)
\"by hand\",2,1
* Vertices
\"a\",A0
\"b\",0
* Arcs
V1,0,7
* Checksum -1
";

/// Writes the graph that these bytes are a file of: the same graph's file, with its checksum.
pub fn write_again(alloc: Global, file: &[u8], sink: &mut MemSink) -> Result<(), Panic> {
    let graph = read_gb(alloc, file)?;
    match write_gb(&graph, sink) {
        Ok(()) => Ok(()),
        Err(_) => Err(Panic::NoRoom),
    }
}

/// Whether the file by hand is then written with this checksum at its end.
pub fn has_checksum(alloc: Global, end: &[u8]) -> bool {
    let mut sink = MemSink::new(alloc);
    write_again(alloc, BY_HAND, &mut sink).is_ok() && sink.bytes().ends_with(end)
}

#[test]
fn a_file_by_hand_gets_its_checksum(rt: HostRuntime) {
    assert!(rt; has_checksum(rt.alloc(), b"V1,0,7\n* Checksum 492864400\n"));
}
