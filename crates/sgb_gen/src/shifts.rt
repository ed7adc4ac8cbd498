ghost use Rattle.std.specs.Prelude.{◌≡◌, ◌≢◌, ◌<◌, ◌≤◌, ◌+◌, length, true};
ghost use Rattle.sgb_vec.specs.Limits.{most_dimensions};
ghost use Rattle.sgb_gen.specs.Simplexes.{can_move_unit, unit_moved};

use sgb_vec::Vector;

/// Whether a unit of `v` can go from one place to another: there is one, and room for it below the bound
/// (GB_BASIC, simplex).
pub(crate) fn can_move_unit(bounds: &[u32], v: &[u32], from: usize, to: usize) -> bool
    requires from { from < length v.now }
    requires to { to < length v.now }
    requires bounds { length v.now ≡ length bounds.now }
    ensures { result ≡ can_move_unit bounds.now v.now from to }
{
    v[from] > 0 && v[to] < bounds[to]
}

/// Moves a unit of `v` from one place to another (GB_BASIC, simplex).
pub(crate) fn move_unit(bounds: &[u32], v: &mut [u32], from: usize, to: usize)
    requires apart { from ≢ to }
    requires from { from < length v.old }
    requires to { to < length v.old }
    requires bounds { length v.old ≡ length bounds.now }
    requires can { can_move_unit bounds.now v.old from to ≡ true }
    ensures { v.new ≡ unit_moved v.old from to }
{
    v[from] -= 1;
    v[to] += 1;
}

/// The vector `v` with a unit gone from one place to another (GB_BASIC, simplex).
pub(crate) fn unit_moved(bounds: &[u32], v: &[u32], from: usize, to: usize) -> Vector
    requires few { length v.now ≤ most_dimensions + 1 }
    requires apart { from ≢ to }
    requires from { from < length v.now }
    requires to { to < length v.now }
    requires bounds { length v.now ≡ length bounds.now }
    requires can { can_move_unit bounds.now v.now from to ≡ true }
    ensures { result.items ≡ unit_moved v.now from to }
{
    let mut there = copy_of(v);
    move_unit(bounds, there.as_mut_slice(), from, to);
    there
}

/// The vector `v`, kept in place.
pub(crate) fn copy_of(v: &[u32]) -> Vector
    requires { length v.now ≤ most_dimensions + 1 }
    ensures { result.items ≡ v.now }
{
    let mut copy = Vector::new();
    for entry in v {
        copy.push(*entry);
    }
    copy
}
