//! Values put into a slice from a place on.
ghost use Rattle.std.specs.Prelude.{◌≡◌, ◌+◌, ◌≤◌, length};
ghost use Rattle.sgb_arrays.specs.inner.Puts.{put_from};

// Puts these bytes into a slice of their length.
pub(crate) fn put_all_bytes(out: &mut [u8], bytes: &[u8])
    requires { length out.old ≡ length bytes.now }
    ensures { out.new ≡ bytes.now }
{
    put_bytes(out, 0, bytes);
}

// Puts these bytes into the slice, from this place on.
pub(crate) fn put_bytes(out: &mut [u8], at: usize, bytes: &[u8])
    requires { at + length bytes.now ≤ length out.old }
    ensures { out.new ≡ put_from at bytes.now out.old }
{
    let mut place = at;
    for byte in bytes {
        out[place] = *byte;
        place += 1;
    }
}
