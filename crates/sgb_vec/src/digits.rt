//! Digits in a radix, and the number that they write.
ghost use Rattle.std.specs.Prelude.{◌≡◌, ◌^◌, ◌<◌, ◌≤◌, IfSome, option_map};
ghost use Rattle.std.specs.Str.Parse.{IsNumeral, digits_value};
ghost use Rattle.sgb_vec.specs.Digits.{leading_digits, leading_number};
// For the search alone.
ghost use Rattle.std.specs.Prelude.{◌+◌};

/// The number that the digits in the radix, 2 to 36, write with which the text begins, `most` of them at the most, and
/// the text after them. `None` where it begins with none. Letters of either case are the digits from 10 on. Numbers of so
/// many digits have to fit into 128 bits.
pub fn leading_number(text: &[u8], radix: u32, most: usize) -> Option<(u128, &[u8])>
    requires low { 2 ≤ radix }
    requires high { radix ≤ 36 }
    requires fits { radix ^ most ≤ 2 ^ 128 }
    ensures value { option_map (λ x. (x.0, x.1.now)) result ≡ leading_number radix most text.now }
    ensures bound { IfSome result (λ x. x.0 < radix ^ most) }
{
    let digits = leading_digits(text, radix, most);
    if digits.is_empty() {
        return None;
    }
    Some((digits_value(digits, radix), &text[digits.len()..]))
}

// The digits in the radix that the text begins with, `most` of them at the most.
fn leading_digits(text: &[u8], radix: u32, most: usize) -> &[u8]
    requires low { 2 ≤ radix }
    requires high { radix ≤ 36 }
    ensures { result.now ≡ leading_digits radix most text.now }
{
    let longest = &text[..most.min(text.len())];
    for (count, byte) in longest.iter().enumerate() {
        if !char::from(*byte).is_digit(radix) {
            return &longest[..count];
        }
    }
    longest
}

// The number that these digits in the radix write. It has to be below 2^128; leading zeros are allowed.
fn digits_value(digits: &[u8], radix: u32) -> u128
    requires low { 2 ≤ radix }
    requires high { radix ≤ 36 }
    requires numeral { IsNumeral radix digits.now }
    requires fits { digits_value radix digits.now < 2 ^ 128 }
    ensures { result ≡ digits_value radix digits.now }
{
    let mut value: u128 = 0;
    for byte in digits {
        let digit = char::from(*byte).to_digit(radix).unwrap();
        value = u128::from(radix) * value + u128::from(digit);
    }
    value
}
