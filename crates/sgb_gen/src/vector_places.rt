//! Vectors, each of which is found at once: what a run asks that looks for many.
ghost use Rattle.std.specs.Prelude.{◌≡◌, ℕ, List, Contains};
ghost use Rattle.sgb_vec.specs.Boxes.{box};
ghost use Rattle.sgb_gen.specs.VectorGraphs.{vertex_among};

use crate::counted_places::CountedPlaces;
use sgb_vec::BoxFamily;

/// The vectors that are the vertices of a graph, where the place of each is found at once.
pub trait VectorPlaces {
    // The vectors.
    ghost vectors: { Self → List (List ℕ) };

    /// The place of a vector among them, counted from 0: of one that is not among them the number tells nothing. No memory is
    /// taken.
    fn place_if_there(&self, x: &[u32]) -> u32
        ensures { Contains (vectors self.now) x.now → result ≡ vertex_among (vectors self.now) x.now };
}

impl<'a> VectorPlaces for CountedPlaces<'a> {
    ghost vectors = { λ p. p };

    #[inline(always)]
    fn place_if_there(&self, x: &[u32]) -> u32 {
        CountedPlaces::place_if_there(self, x)
    }
}

impl<'a> VectorPlaces for &'a BoxFamily {
    ghost vectors = { λ b. box b.now };

    #[inline(always)]
    fn place_if_there(&self, x: &[u32]) -> u32 {
        (**self).place_if_there(x)
    }
}
