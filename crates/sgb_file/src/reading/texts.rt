//! What a line begins with: fixed texts and numbers.
ghost use Rattle.std.specs.Prelude.{◌≡◌, ◌<◌, ◌^◌, IfSome, option_map};
ghost use Rattle.sgb_text.proofs.Findings.{after_prefix};
ghost use Rattle.sgb_file.specs.inner.ReadFiles.{leading_number};

use super::numbers::MOST_NUMBER_DIGITS;

// What follows this prefix of a text.
pub(super) fn after_prefix<'a>(prefix: &[u8], text: &'a [u8]) -> Option<&'a [u8]>
    ensures { option_map (λ rest. rest.now) result ≡ after_prefix prefix.now text.entry.now }
{
    if text.starts_with(prefix) {
        Some(&text[prefix.len()..])
    } else {
        None
    }
}

// The number of 1 to 18 digits that all the digits write which a text begins with, and what follows them.
pub(super) fn leading_number(text: &[u8]) -> Option<(u64, &[u8])>
    ensures value { option_map (λ x. record { value = x.0; rest = x.1.now }) result
        ≡ leading_number text.now }
    ensures bound { IfSome result (λ x. x.0 < 10 ^ 18) }
{
    let (number, rest) = sgb_vec::leading_number(text, 10, MOST_NUMBER_DIGITS + 1)?;
    if text.len() - rest.len() > MOST_NUMBER_DIGITS {
        return None;
    }
    Some((number as u64, rest))
}
