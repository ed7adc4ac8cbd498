//! Whether values, vertices and arc records fit kinds, and so many vertices and records.
ghost use Rattle.std.specs.Prelude.{◌≡◌, [], ◌∷◌, length};
ghost use Rattle.std.specs.List.{list_all, zip};
ghost use Rattle.sgb_graph.specs.Sound.{util_fits, utils_fit};
ghost use Rattle.sgb_graph.specs.inner.Fitting.{record_fits_by, vertex_fits_by};

use crate::fields::{ArcRec, Kind, Util, Vertex};
use crate::ranges::{chain_fits, ref_fits};

// Whether a vertex's fields fit n vertices and m records.
pub(super) fn vertex_fits(n: usize, m: usize, kinds: &[Kind], vertex: &Vertex) -> bool
    requires { length kinds.now ≡ 6 }
    ensures { result ≡ vertex_fits_by n m kinds.now vertex.now }
{
    chain_fits(m, vertex.arcs) && utils_fit(n, m, kinds, &vertex.util)
}

// Whether an arc record's fields fit n vertices and m records.
#[inline(always)]
pub(super) fn record_fits(n: usize, m: usize, kinds: &[Kind], arc: &ArcRec) -> bool
    requires { length kinds.now ≡ 2 }
    ensures { result ≡ record_fits_by n m kinds.now arc.now }
{
    ref_fits(n, arc.tip) && chain_fits(m, arc.next) && arc_utils_fit(n, m, kinds, arc)
}

// Whether an arc record's two utility fields are of these kinds.
#[inline(always)]
fn arc_utils_fit(n: usize, m: usize, kinds: &[Kind], arc: &ArcRec) -> bool
    requires { length kinds.now ≡ 2 }
    ensures { result ≡ utils_fit n m kinds.now (arc.now.a ∷ arc.now.b ∷ []) }
{
    util_fits(n, m, kinds[0], &arc.a) && util_fits(n, m, kinds[1], &arc.b)
}

// Whether the values fit these kinds, of which there are as many.
pub(super) fn utils_fit(n: usize, m: usize, kinds: &[Kind], utils: &[Util]) -> bool
    requires { length kinds.now ≡ length utils.now }
    ensures { result ≡ utils_fit n m kinds.now utils.now }
{
    each_fits(n, m, kinds, utils)
}

// Whether each value is of the kind at its place.
fn each_fits(n: usize, m: usize, kinds: &[Kind], utils: &[Util]) -> bool
    ensures { result ≡ list_all (λ p. util_fits n m p.0 p.1) (zip kinds.now utils.now) }
{
    kinds
        .iter()
        .zip(utils)
        .all(|(kind, util)| util_fits(n, m, *kind, util))
}

// Whether the value is one of this kind, of n vertices and m records.
#[inline(always)]
fn util_fits(n: usize, m: usize, kind: Kind, util: &Util) -> bool
    ensures { result ≡ util_fits n m kind util.now }
{
    match kind {
        Kind::Z => matches!(util, Util::Nothing),
        Kind::I => matches!(util, Util::Int(_)),
        Kind::V => matches!(util, Util::Vertex(vertex) if ref_fits(n, *vertex)),
        Kind::S => matches!(util, Util::Str(_)),
        Kind::A => matches!(util, Util::Chain(first) if chain_fits(m, *first)),
    }
}
