//! A caller of `sgb_vec`, as the page for callers shows it.
use sgb_vec::{BoxFamily, Panic, Text, Vectors, name_of, vector_of};
use std::alloc::Global;
use std::test::Fail;

/// The name of the vector after the one of this name, in the box of these sizes, if both are there.
pub fn name_after(alloc: Global, sizes: &[u32], name: &[u8]) -> Result<Option<Text>, Panic> {
    let family = BoxFamily::new(sizes)?;
    let Some(vector) = vector_of(name) else {
        return Ok(None);
    };
    let Some(mut left) = Vectors::after(&family, vector.as_slice()) else {
        return Ok(None);
    };
    let Some(next) = left.next() else {
        return Ok(None);
    };
    let text = name_of(alloc, next.as_slice())?;
    Ok(Some(text))
}

#[test]
fn a_name_has_a_next_one(rt: HostRuntime) -> Result<(), Fail> {
    let next = name_after(rt.alloc(), &[2, 3], b"0.2")?;
    assert!(rt; next.is_some_and(|name| name.bytes() == b"1.0".as_slice()));
    let none = name_after(rt.alloc(), &[2, 3], b"1.2")?;
    assert!(rt; none.is_none());
    Ok(())
}
