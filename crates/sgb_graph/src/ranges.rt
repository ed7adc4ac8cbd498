//! Whether vertices and arc records that are named by their numbers are there.
ghost use Rattle.std.specs.Prelude.{◌≡◌};
ghost use Rattle.sgb_graph.specs.Sound.{chain_fits, ref_fits};

use crate::fields::Ref;

// Whether this is one of n vertices, or none.
pub(crate) fn ref_fits(n: usize, vertex: Ref) -> bool
    ensures { result ≡ ref_fits n vertex }
{
    match vertex {
        Ref::Null | Ref::One => true,
        Ref::At(v) => (v as usize) < n,
    }
}

// Whether this is one of m records, or none.
pub(crate) fn chain_fits(m: usize, first: Option<usize>) -> bool
    ensures { result ≡ chain_fits m first }
{
    match first {
        Some(k) => k < m,
        None => true,
    }
}
