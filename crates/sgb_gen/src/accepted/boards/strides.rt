//! How many places displacements lead on among a board's vertices.
//!
//! Where no side is crossed that wraps around, a unit of length of a displacement leads so many places on among the vectors,
//! from wherever it is made: its stride, a number in the mixed radix of the sizes. It is found once for each displacement.
//! So the tips of a span of arcs are one sum apart. That holds on a board with no side that wraps around, and of a leaper
//! from where no side is near.
ghost use Rattle.std.specs.Prelude.{◌≡◌, ◌+ℤ◌, ◌*ℤ◌, ◌≤◌, ◌&&◌, ◌||◌, length, map, pos, true, All, IfNone, IfSome, None};
ghost use Rattle.std.specs.Bool.{OnTrue};
ghost use Rattle.sgb_vec.specs.Boxes.{product_of};
ghost use Rattle.sgb_vec.specs.Limits.{most_vertices};
ghost use Rattle.sgb_gen.specs.inner.Strides.{stride_of};

use super::Board;
use crate::displacement_tables::DisplacementTable;
use std::alloc::Global;

impl Board {
    // Whether no side wraps around.
    pub(super) fn is_flat(&self) -> bool
        ensures flat { OnTrue result (self.now.wrap ≡ pos 0) }
        ensures few { product_of self.now.sizes ≤ most_vertices }
    {
        self.wrap == 0
    }
}

// Whether arcs lead by strides: all of them, where no side wraps around, or those of a leaper's vertices that no side is
// near.
pub(super) fn have_strides(straight: bool, flat: bool, leaping: bool, near: bool) -> bool
    ensures { result ≡ (straight && flat) || (leaping && near) }
{
    (straight && flat) || (leaping && near)
}

/// The strides, where arcs lead by them.
#[inline(always)]
pub(super) fn kept_strides(strides: &Option<Vec<u32>>, have: bool) -> Option<&[u32]>
    ensures have { IfSome result (λ _. have ≡ true) }
    ensures kept { IfSome result (λ s. IfSome strides.now (λ v. s.now ≡ v.items)) }
    ensures none { IfNone strides.now (result ≡ None) }
{
    match strides {
        Some(strides) if have => Some(strides.as_slice()),
        _ => None,
    }
}

/// How many places a unit of length leads on by each displacement in a table. `None` where there is no table, out of memory, or
/// where one leads back.
pub(super) fn strides_of(
    alloc: Global,
    sizes: &[u32],
    table: &Option<DisplacementTable>,
) -> Option<Vec<u32>>
    requires { IfSome table.now (All (λ t. length t ≡ length sizes.now)) }
    ensures { IfSome result (λ s. IfSome table.now (λ d. map pos s.items
        ≡ map (stride_of sizes.now) d)) }
{
    match table {
        Some(table) => strides_in(alloc, sizes, table),
        None => None,
    }
}

/// The same of a table that is there.
fn strides_in(alloc: Global, sizes: &[u32], table: &DisplacementTable) -> Option<Vec<u32>>
    requires { All (λ t. length t ≡ length sizes.now) table.now }
    ensures { IfSome result (λ s. map pos s.items ≡ map (stride_of sizes.now) table.now) }
{
    let mut strides = Vec::with_capacity(alloc, table.len()).ok()?;
    for k in 0..table.len() {
        let stride = stride_by(sizes, table.at(k).ahead().entries())?;
        strides.push(stride).ok()?;
    }
    Some(strides)
}

/// How many places a unit of length leads on by a displacement. `None` where it leads back.
pub(super) fn stride_by(sizes: &[u32], t: &[i32]) -> Option<u32>
    requires { length t.now ≡ length sizes.now }
    ensures { IfSome result (λ s. pos s ≡ stride_of sizes.now t.now) }
{
    let mut places: i64 = 0;
    for (k, size) in sizes.iter().enumerate() {
        places = next_place(places, *size, t[k])?;
    }
    u32::try_from(places).ok()
}

// So many places, one side more: each counts as often as that side has coordinates.
fn next_place(places: i64, size: u32, entry: i32) -> Option<i64>
    ensures { IfSome result (λ p. p ≡ places *ℤ pos size +ℤ entry) }
{
    places
        .checked_mul(i64::from(size))?
        .checked_add(i64::from(entry))
}
