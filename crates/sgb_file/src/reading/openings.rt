//! The opening of a file: its first line, and lines before it that begin with a star (GB_SAVE, restore_graph).
ghost use Rattle.std.specs.Prelude.{◌≡◌, ◌≤◌, IfSome, option_map};
ghost use Rattle.sgb_vec.specs.Limits.{most_vertices};
ghost use Rattle.sgb_file.specs.FileLines.{clean_lines};
ghost use Rattle.sgb_file.specs.inner.LinesLeft.{next_begun, none_begun};
ghost use Rattle.sgb_file.specs.inner.ReadFiles.{head_of_line, kind_of_letter, kinds_at, opening_of};

use super::heads::{Counts, Head};
use super::lines::{Lines, first_line};
use super::texts::{after_prefix, leading_number};
use crate::checksums::has_star;
use sgb_graph::Kind;
use sgb_vec::MOST_VERTICES;

// What the first line of a file says, and the lines after it; or none, where the file does not open as it has to.
pub(super) fn opening(bytes: &[u8]) -> Option<(Head, Lines<'_>)>
    ensures head { option_map (λ x. record { head = x.0; lines = x.1.all }) result
        ≡ opening_of (clean_lines bytes.now) }
    ensures begun { IfSome result (λ x. x.1 ≡ next_begun (none_begun x.1.all)) }
    ensures few { IfSome result (λ x. x.0.counts.vertices ≤ most_vertices) }
{
    let mut rest = bytes;
    while !rest.is_empty() {
        let (line, others) = first_line(rest);
        if let Some(head) = head_of_line(line) {
            return Some((head, Lines::new(others)));
        }
        if !has_star(line) {
            return None;
        }
        rest = others;
    }
    None
}

// What a line says that has the form of a first line: `* GraphBase graph (util_types T,NV,MA)`, then anything.
fn head_of_line(line: &[u8]) -> Option<Head>
    ensures head { result ≡ head_of_line line.now }
    ensures few { IfSome result (λ head. head.counts.vertices ≤ most_vertices) }
{
    let letters = after_prefix(b"* GraphBase graph (util_types ", line)?;
    let (kinds, second) = kinds_at(letters)?;
    let (vertices, third) = leading_number(after_prefix(b",", second)?)?;
    let (arcs, fourth) = leading_number(after_prefix(b"V,", third)?)?;
    let _anything = after_prefix(b"A)", fourth)?;
    if vertices > u64::from(MOST_VERTICES) {
        return None;
    }
    Some(Head {
        kinds,
        counts: Counts { vertices, arcs },
    })
}

// The kinds of the fourteen letters that a text begins with, and what follows them.
fn kinds_at(text: &[u8]) -> Option<([Kind; 14], &[u8])>
    ensures { option_map (λ x. record { value = x.0; rest = x.1.now }) result ≡ kinds_at text.now }
{
    if text.len() < 14 {
        return None;
    }
    let mut kinds = [Kind::Z; 14];
    for place in 0..14 {
        kinds[place] = kind_of_letter(text[place])?;
    }
    Some((kinds, &text[14..]))
}

// The kind of a letter.
fn kind_of_letter(letter: u8) -> Option<Kind>
    ensures { result ≡ kind_of_letter letter }
{
    match letter {
        b'Z' => Some(Kind::Z),
        b'I' => Some(Kind::I),
        b'V' => Some(Kind::V),
        b'S' => Some(Kind::S),
        b'A' => Some(Kind::A),
        _ => None,
    }
}
