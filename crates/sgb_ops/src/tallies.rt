//! How many arcs lead to each vertex, and the least of their lengths.
ghost use Rattle.std.specs.Prelude.{◌≡◌, ◌<◌, ◌≤◌, ◌+◌, ◌^◌, ℕ, All, None, length, OnOk, IsOkUnless};
ghost use Rattle.std.specs.Option.{option_map_or};
ghost use Rattle.sgb_ops.specs.Intersection.{count_to};
ghost use Rattle.sgb_ops.specs.inner.Tallies.{one_more, tally_at, tally_to};
// For the search alone.
ghost use Rattle.std.specs.Prelude.{Some};

use sgb_graph::Link;
use sgb_vec::Panic;

/// How many arcs there are, and the least of their lengths.
#[derive(Clone, Copy)]
pub(crate) struct Tally {
    pub(crate) count: usize,
    pub(crate) least: i64,
}

/// Makes a table of no tallies one of at least `n` vertices.
///
/// `NoRoom` when out of memory, and nothing else.
pub(crate) fn make_room(tallies: &mut Vec<Option<Tally>>, n: usize) -> Result<(), Panic>
    requires none { (u : ℕ) → tally_at tallies.old.items u ≡ None }
    ensures room { OnOk result (n ≤ length tallies.new.items) }
    ensures none { OnOk result ((u : ℕ) → tally_at tallies.new.items u ≡ None) }
    ensures memory { IsOkUnless result Panic.NoRoom }
{
    for _u in tallies.len()..n {
        tallies.push(None)?;
    }
    Ok(())
}

/// Notes in a table of no tallies those of the vertices that some of these arcs lead to.
pub(crate) fn note(tallies: &mut [Option<Tally>], arcs: &[Link])
    requires within { All (λ l. l.tip < length tallies.old) arcs.now }
    requires none { (u : ℕ) → tally_at tallies.old u ≡ None }
    ensures size { length tallies.new ≡ length tallies.old }
    ensures noted { (u : ℕ) → tally_at tallies.new u ≡ tally_to u arcs.now }
{
    for arc in arcs {
        let u = arc.tip as usize;
        tallies[u] = Some(with_one_more(tallies[u], *arc));
    }
}

/// Takes the tallies of a table out, all of which are of vertices that some of these arcs lead to.
pub(crate) fn take_out(tallies: &mut [Option<Tally>], arcs: &[Link])
    requires within { All (λ l. l.tip < length tallies.old) arcs.now }
    requires noted { (u : ℕ) → tally_to u arcs.now ≡ None → tally_at tallies.old u ≡ None }
    ensures { (u : ℕ) → tally_at tallies.new u ≡ None }
{
    for arc in arcs {
        tallies[arc.tip as usize] = None;
    }
}

/// How many of the arcs lead to vertex `u`.
pub(crate) fn count_to(arcs: &[Link], u: u32) -> usize
    ensures { result ≡ count_to u arcs.now }
{
    let mut count = 0;
    for arc in arcs {
        count += usize::from(arc.tip == u);
    }
    count
}

/// The tally of the arcs that lead to vertex `u`.
pub(crate) fn tally_to(arcs: &[Link], u: u32) -> Option<Tally>
    ensures { result ≡ tally_to u arcs.now }
{
    let mut tally = None;
    for arc in arcs {
        if arc.tip == u {
            tally = Some(with_one_more(tally, *arc));
        }
    }
    tally
}

// The tally with one arc more.
fn with_one_more(tally: Option<Tally>, arc: Link) -> Tally
    requires { option_map_or (λ t. t.count + 1) tally 0 < 2 ^ 64 }
    ensures { result ≡ one_more arc.len tally }
{
    match tally {
        None => Tally {
            count: 1,
            least: arc.len,
        },
        Some(tally) => Tally {
            count: tally.count + 1,
            least: tally.least.min(arc.len),
        },
    }
}
