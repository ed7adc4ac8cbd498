//! The lines of arcs, put together in place.
ghost use Rattle.std.specs.Prelude.{◌≡◌, ◌≤◌, ◌<◌, ◌+◌, ◌++◌, codes, decimal, length};
ghost use Rattle.std.specs.Fmt.{signed_decimal};
// For the search alone.
ghost use Rattle.std.specs.Prelude.{[], ◌∷◌};

use sgb_vec::Filled;

/// Begins the line of an arc: what stands before the name of the vertex where it leads.
#[inline(always)]
pub(super) fn begin_arc<const N: usize>(line: &mut Filled<N>)
    requires { length line.old + 5 ≤ N }
    ensures put { line.new ≡ line.old ++ codes "  -> " }
    ensures size { length line.new ≡ length line.old + 5 }
{
    let arrow = [b' ', b' ', b'-', b'>', b' '];
    line.push_text(&arrow);
}

/// Ends the line of an arc: what stands after that name.
#[inline(always)]
pub(super) fn end_arc<const N: usize>(line: &mut Filled<N>, len: i64)
    requires { length line.old + 50 ≤ N }
    ensures { line.new ≡ line.old
        ++ (codes ", length " ++ (signed_decimal len ++ codes "\n")) }
{
    if 0 <= len && len < 10 {
        end_short_arc(line, len as u32);
    } else {
        end_greater_arc(line, len);
    }
}

// Ends the line of an arc whose length has not one digit, or is below 0.
#[inline(never)]
fn end_greater_arc<const N: usize>(line: &mut Filled<N>, len: i64)
    requires { length line.old + 50 ≤ N }
    ensures { line.new ≡ line.old
        ++ (codes ", length " ++ (signed_decimal len ++ codes "\n")) }
{
    match u32::try_from(len) {
        Ok(count) => end_long_arc(line, count),
        Err(_) => end_other_arc(line, len),
    }
}

/// Ends the line of an arc of a length that no file brought.
#[inline(always)]
pub(super) fn end_counted_arc<const N: usize>(line: &mut Filled<N>, len: u32)
    requires { length line.old + 50 ≤ N }
    ensures { line.new ≡ line.old ++ (codes ", length " ++ (decimal len ++ codes "\n")) }
{
    if len < 10 {
        end_short_arc(line, len);
    } else {
        end_long_arc(line, len);
    }
}

// Ends the line of an arc whose length has one digit.
#[inline(always)]
fn end_short_arc<const N: usize>(line: &mut Filled<N>, len: u32)
    requires few { len < 10 }
    requires room { length line.old + 11 ≤ N }
    ensures { line.new ≡ line.old ++ (codes ", length " ++ (decimal len ++ codes "\n")) }
{
    let digit = b'0' + len as u8;
    line.push_text(&[
        b',', b' ', b'l', b'e', b'n', b'g', b't', b'h', b' ', digit, b'\n',
    ]);
}

// Ends the line of an arc of any length.
#[inline(never)]
fn end_long_arc<const N: usize>(line: &mut Filled<N>, len: u32)
    requires { length line.old + 50 ≤ N }
    ensures { line.new ≡ line.old ++ (codes ", length " ++ (decimal len ++ codes "\n")) }
{
    line.push_text(b", length ");
    line.push_count(len);
    line.push_text(b"\n");
}

// Ends the line of an arc whose length is below 0 or above 32 bits.
#[inline(never)]
fn end_other_arc<const N: usize>(line: &mut Filled<N>, len: i64)
    requires { length line.old + 50 ≤ N }
    ensures { line.new ≡ line.old
        ++ (codes ", length " ++ (signed_decimal len ++ codes "\n")) }
{
    line.push_text(b", length ");
    line.push_number(len);
    line.push_text(b"\n");
}
