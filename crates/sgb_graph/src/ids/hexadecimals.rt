//! The digits of numbers in hexadecimal.
ghost use Rattle.std.specs.Prelude.{◌≡◌, ◌≤◌, ◌%◌, false, drop};
ghost use Rattle.std.specs.Fmt.{digit_glyph, digits};

// A number of 128 bits has at most this many hexadecimal digits.
pub(super) const MOST_HEXADECIMAL_DIGITS: usize = 32;

// Puts the hexadecimal digits of the number at the end of the text, in lower case and without leading zeros. Returns
// where they start.
pub(super) fn put_hexadecimal_digits(
    text: &mut [u8; MOST_HEXADECIMAL_DIGITS],
    number: u128,
) -> usize
    ensures within { result ≤ 32 }
    ensures digits { drop result text.new ≡ digits 16 false number }
{
    let mut rest = number;
    for start in (0..MOST_HEXADECIMAL_DIGITS).rev() {
        text[start] = digit(rest);
        rest /= 16;
        if rest == 0 {
            return start;
        }
    }
    0
}

// The last hexadecimal digit of the number.
fn digit(number: u128) -> u8
    ensures { result ≡ digit_glyph false (number % 16) }
{
    let value = (number % 16) as u8;
    if value < 10 {
        b'0' + value
    } else {
        b'a' + (value - 10)
    }
}
