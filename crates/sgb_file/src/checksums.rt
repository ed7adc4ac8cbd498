//! The checksum of a file, made byte by byte (GB_IO, new_checksum).
//!
//! A remainder is taken once for a line of at most 30 bytes, with its newline, and once more for each 30 bytes beyond.
//! Eight bytes a step would gain nothing on lines of some fifteen.
ghost use Rattle.std.specs.Prelude.{◌≡◌, ◌≤◌, ◌<◌, ◌+◌, ◌*◌, ◌^◌, ◌%◌, ◌++◌, ◌∷◌, [], length};
ghost use Rattle.sgb_file.specs.Checksum.{checksum_prime, has_star};
ghost use Rattle.sgb_file.specs.inner.Layouts.{checksum_from, counted_bytes, place_of, places, value_after, value_from};

// The checksum is taken modulo this prime.
const PRIME: u64 = 1_073_741_741;

// A value below 2^32, doubled once more than this often with a byte's place added each time, is below 2^64.
pub(crate) const MOST_AT_ONCE: usize = 30;

// The place of each byte among the 96 characters of a file, and 96 where it is none of them (GB_IO, imap_chr).
#[rattlefmt::skip]
const PLACES: [u8; 256] = [
    96, 96, 96, 96, 96, 96, 96, 96, 96, 96, 95, 96, 96, 96, 96, 96,
    96, 96, 96, 96, 96, 96, 96, 96, 96, 96, 96, 96, 96, 96, 96, 96,
    94, 72, 93, 74, 75, 73, 65, 92, 85, 86, 78, 76, 67, 77, 69, 79,
    0, 1, 2, 3, 4, 5, 6, 7, 8, 9, 70, 68, 82, 83, 84, 71,
    66, 10, 11, 12, 13, 14, 15, 16, 17, 18, 19, 20, 21, 22, 23, 24,
    25, 26, 27, 28, 29, 30, 31, 32, 33, 34, 35, 87, 81, 88, 63, 62,
    91, 36, 37, 38, 39, 40, 41, 42, 43, 44, 45, 46, 47, 48, 49, 50,
    51, 52, 53, 54, 55, 56, 57, 58, 59, 60, 61, 89, 80, 90, 64, 96,
    96, 96, 96, 96, 96, 96, 96, 96, 96, 96, 96, 96, 96, 96, 96, 96,
    96, 96, 96, 96, 96, 96, 96, 96, 96, 96, 96, 96, 96, 96, 96, 96,
    96, 96, 96, 96, 96, 96, 96, 96, 96, 96, 96, 96, 96, 96, 96, 96,
    96, 96, 96, 96, 96, 96, 96, 96, 96, 96, 96, 96, 96, 96, 96, 96,
    96, 96, 96, 96, 96, 96, 96, 96, 96, 96, 96, 96, 96, 96, 96, 96,
    96, 96, 96, 96, 96, 96, 96, 96, 96, 96, 96, 96, 96, 96, 96, 96,
    96, 96, 96, 96, 96, 96, 96, 96, 96, 96, 96, 96, 96, 96, 96, 96,
    96, 96, 96, 96, 96, 96, 96, 96, 96, 96, 96, 96, 96, 96, 96, 96,
];

// The checksum after a line more, from the checksum before it: where the line begins with a star, it does not count.
#[inline(always)]
pub(crate) fn checksum_after_line(sum: u32, line: &[u8]) -> u32
    ensures { result ≡ checksum_from sum (counted_bytes (line.now ∷ [])) }
{
    if has_star(line) {
        return sum;
    }
    checksum_with_newline(sum, line)
}

// Whether the line begins with a star.
pub(crate) fn has_star(line: &[u8]) -> bool
    ensures { result ≡ has_star line.now }
{
    !line.is_empty() && line[0] == b'*'
}

// The checksum after these bytes and a newline, from the checksum before them.
#[inline(always)]
fn checksum_with_newline(sum: u32, bytes: &[u8]) -> u32
    ensures { result ≡ checksum_from sum (bytes.now ++ 10 ∷ []) }
{
    let (after, rest) = last_bytes(sum, bytes);
    remainder(value_with_newline(after, rest))
}

// The checksum after these bytes, from the checksum before them.
#[inline(always)]
pub(crate) fn checksum_after(sum: u32, bytes: &[u8]) -> u32
    requires { 0 < length bytes.now }
    ensures { result ≡ checksum_from sum bytes.now }
{
    let (after, rest) = last_bytes(sum, bytes);
    remainder(value_after(u64::from(after), rest))
}

// At most thirty of these bytes, the last ones, and the checksum after those before them, from the checksum before all: a
// remainder is taken for many bytes at once.
#[inline(always)]
fn last_bytes(sum: u32, bytes: &[u8]) -> (u32, &[u8])
    ensures counted { checksum_from result.0 result.1.now ≡ checksum_from sum bytes.now }
    ensures few { length result.1.now ≤ 30 }
    ensures some { 0 < length bytes.now → 0 < length result.1.now }
{
    let mut after = sum;
    let mut rest = bytes;
    while rest.len() > MOST_AT_ONCE {
        let (few, others) = rest.split_at(MOST_AT_ONCE);
        after = remainder(value_after(u64::from(after), few));
        rest = others;
    }
    (after, rest)
}

// The value after these bytes and a newline, and the checksum is its remainder.
#[inline(always)]
fn value_with_newline(sum: u32, bytes: &[u8]) -> u64
    ensures { result ≡ value_from sum (bytes.now ++ 10 ∷ []) }
{
    value_after_byte(value_after(u64::from(sum), bytes), b'\n')
}

// The value after these bytes: where they are few, the checksum is its remainder.
#[inline(always)]
pub(crate) fn value_after(value: u64, bytes: &[u8]) -> u64
    ensures { result ≡ value_from value bytes.now }
{
    let mut after = value;
    for byte in bytes {
        after = value_after_byte(after, *byte);
    }
    after
}

// The value with a byte's place more, in 64 bits.
#[inline(always)]
pub(crate) fn value_with(value: u64, place: u8) -> u64
    ensures { result ≡ (2 * value + place) % 2 ^ 64 }
{
    value.wrapping_mul(2).wrapping_add(u64::from(place))
}

// A value after a byte more, in 64 bits.
#[inline(always)]
pub(crate) fn value_after_byte(value: u64, byte: u8) -> u64
    ensures { result ≡ value_after value byte }
{
    value_with(value, place_of(byte))
}

// The remainder of a number.
#[inline(always)]
pub(crate) fn remainder(value: u64) -> u32
    ensures { result ≡ value % checksum_prime }
{
    (value % PRIME) as u32
}

// The place of a byte.
#[inline(always)]
pub(crate) fn place_of(byte: u8) -> u8
    ensures { result ≡ place_of byte }
{
    places()[usize::from(byte)]
}

// The table of places.
fn places() -> &'static [u8; 256]
    ensures { result.now ≡ places }
{
    &PLACES
}
