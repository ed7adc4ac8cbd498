//! The checksum that a text tells of itself, and the one that it has.
ghost use Rattle.std.specs.Prelude.{◌≡◌};
ghost use Rattle.sgb_text.specs.Checksums.{agrees};

/// Whether a checksum that the last line of a file tells is taken, where the lines before it have this one: one below 0
/// always is, any other where it is the same (GB_SAVE, restore_graph).
pub fn agrees(told: i64, sum: u32) -> bool
    ensures { result ≡ agrees told sum }
{
    told < 0 || told == i64::from(sum)
}
