//! Where a byte stands first in a text, found sixteen bytes at a time.
ghost use Rattle.std.specs.Prelude.{◌≡◌, ◌≤◌, ◌==◌, length, take};
ghost use Rattle.std.specs.List.{position, position_or_len};
ghost use Rattle.sgb_file.specs.inner.Lanes.{first_set};

use std::simd::prelude::*;

// How many bytes are looked at together.
const LANES: usize = 16;

// How many bytes stand before the first one like `byte`, or in all.
pub(crate) fn bytes_before(text: &[u8], byte: u8) -> usize
    ensures { result ≡ position_or_len (λ b. b == byte) text.now }
{
    let mut passed = 0;
    let mut rest = text;
    while rest.len() >= LANES {
        let few = lanes_before(rest, byte);
        if few < LANES {
            return passed + few;
        }
        passed += LANES;
        rest = &rest[LANES..];
    }
    passed + place_of(rest, byte).unwrap_or(rest.len())
}

// Where the first byte like `byte` stands.
fn place_of(text: &[u8], byte: u8) -> Option<usize>
    ensures { result ≡ position (λ b. b == byte) text.now }
{
    text.iter().position(|b| *b == byte)
}

// How many of the first sixteen bytes stand before the first one like `byte`.
fn lanes_before(text: &[u8], byte: u8) -> usize
    requires { 16 ≤ length text.now }
    ensures { result ≡ position_or_len (λ b. b == byte) (take 16 text.now) }
{
    let alike = u8x16::from_slice(text).simd_eq(u8x16::splat(byte));
    first_set(alike.to_bitmask())
}

// The place of the lowest bit that is set, or 16.
fn first_set(bits: u64) -> usize
    ensures { result ≡ first_set bits }
{
    if bits == 0 {
        LANES
    } else {
        bits.trailing_zeros() as usize
    }
}
