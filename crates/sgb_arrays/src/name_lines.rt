//! Names as lines of a text.
ghost use Rattle.std.specs.Prelude.{◌≡◌, ◌+◌, ◌-◌, ◌≤◌, ◌++◌, ◌∷◌, [], true, length, IfErr, OnOk};
ghost use Rattle.std.specs.List.{flat_map};
ghost use Rattle.sgb_arrays.specs.Given.{is_table, names_given};
ghost use Rattle.sgb_arrays.specs.inner.Puts.{put_from};
ghost use Rattle.sgb_arrays.specs.declared.refusals.Wrong.TheVariants as wrong;

use crate::given::{is_table, part};
use crate::puts::put_bytes;
use crate::refusals::Wrong;

/// Puts names into an array as lines, each with a newline behind it. The name of vertex v is what stands in `names` from
/// `starts[v]` up to `starts[v + 1]`, as `fill_names` puts them. No memory is taken.
///
/// `Length` where the starts do not begin with 0, fall, or do not end with the number of bytes, or where `lines` has not
/// as many places as there are bytes and names together.
pub fn fill_name_lines(starts: &[u64], names: &[u8], lines: &mut [u8]) -> Result<(), Wrong>
    ensures filled { OnOk result ((is_table (length names.now) starts.now ≡ true)
        × (length lines.old ≡ length names.now + (length starts.now - 1))
        × (lines.new ≡ flat_map (λ name. name ++ 10 ∷ []) (names_given starts.now names.now))) }
    ensures refused { IfErr result (λ why. (why ≡ wrong.Length) × (lines.new ≡ lines.old)
        × ((is_table (length names.now) starts.now ≡ true)
        × (length lines.old ≡ length names.now + (length starts.now - 1)) → ⊥)) }
{
    if !is_table(names.len(), starts) {
        return Err(Wrong::Length);
    }
    let count = starts.len() - 1;
    if lines.len() < count || lines.len() - count != names.len() {
        return Err(Wrong::Length);
    }
    put_lines(starts, names, lines);
    Ok(())
}

// Puts names as lines into an array of the right length.
fn put_lines(starts: &[u64], names: &[u8], lines: &mut [u8])
    requires table { is_table (length names.now) starts.now ≡ true }
    requires places { length lines.old ≡ length names.now + (length starts.now - 1) }
    ensures { lines.new ≡ flat_map (λ name. name ++ 10 ∷ []) (names_given starts.now names.now) }
{
    let mut at = 0;
    for v in 0..starts.len() - 1 {
        let name = part(starts, names, v);
        put_line(lines, at, name);
        at += name.len() + 1;
    }
}

// Puts a name and a newline into the array, from this place on.
fn put_line(lines: &mut [u8], at: usize, name: &[u8])
    requires { at + length name.now + 1 ≤ length lines.old }
    ensures { lines.new ≡ put_from at (name.now ++ 10 ∷ []) lines.old }
{
    put_bytes(lines, at, name);
    lines[at + name.len()] = b'\n';
}
