//! Texts as words of languages, and reading them: what the contracts and proofs of the crates above speak of. Its one
//! function tells whether a checksum that a text tells is right.
#![tactic(auto)]

mod checksums;

pub use checksums::agrees;
