//! The number of arcs of the subsets' graph, with no list made. Pairs of many vectors are counted in a table, where it
//! has room (`pairs`); else, or when out of memory, the descent of the lists hands the arcs from each vector down to the
//! first to a counter. So each edge is found once, from the later one of its ends.
//!
//! A walk takes minutes for a thousand million vectors, a table a tenth of a second at most.
ghost use Rattle.std.specs.Prelude.{◌≡◌, length, Contains, IfSome};
ghost use Rattle.sgb_graph.specs.Made.{graph_described};
ghost use Rattle.sgb_gen.specs.Subsets.{moves_of_subsets, subsets_vector_graph, subsets_vectors};
ghost use Rattle.sgb_gen.specs.VectorGraphs.{described_by};
ghost use Rattle.sgb_gen.specs.inner.Descents.{down_from};
ghost use Rattle.sgb_gen.specs.inner.SubsetsCounts.{wanted_among};

use super::Subsets;
use crate::arc_sinks::ArcSink;
use sgb_vec::{Family, Vectors};
use std::alloc::Global;

impl Subsets {
    /// The number of arcs of the graph of the subsets (GB_BASIC, subsets), where an edge counts as two. No arc is made.
    /// Of more than 2,000 vectors the pairs with a wanted size in common are counted in a table: of the vectors, or of
    /// what they leave of the bounds, where that adds to less. With n this sum, and c the greatest wanted size, but no
    /// more than n, that has room where (n + 1)²(c + 1) is at most 262,144, so always where n is below 64; it takes two
    /// megabytes at most. Else, or where memory is refused, the vectors are walked, and of each the joined ones up to it
    /// are counted, by their beginnings.
    pub fn arcs_count(&self, alloc: Global) -> u128
        ensures { result ≡ (graph_described (described_by (subsets_vector_graph self.now))).m }
    {
        let moves = match self.moves_by_pairs(alloc) {
            Some(moves) => moves,
            None => self.moves_by_walk(),
        };
        self.arcs_of(moves)
    }

    /// The number of arcs, where a count of pairs tells it: the same as `arcs_count`. `None` where the vectors would be
    /// walked, which may take longer than their lists.
    pub fn arcs_by_table(&self, alloc: Global) -> Option<u128>
        ensures { IfSome result (λ m.
            m ≡ (graph_described (described_by (subsets_vector_graph self.now))).m) }
    {
        let moves = self.moves_by_pairs(alloc)?;
        Some(self.arcs_of(moves))
    }

    // How many arcs these moves make, which are all.
    fn arcs_of(&self, moves: u64) -> u128
        requires { moves ≡ length (moves_of_subsets self.now) }
        ensures { result ≡ (graph_described (described_by (subsets_vector_graph self.now))).m }
    {
        if self.directed {
            return u128::from(moves);
        }
        u128::from(moves) * 2
    }

    // The number of moves, by a walk.
    fn moves_by_walk(&self) -> u64
        ensures { result ≡ length (moves_of_subsets self.now) }
    {
        let mut counted: u64 = 0;
        let mut left = Vectors::all(&self.family);
        while let Some(x) = left.front() {
            counted += self.count_from(x);
            let _some = left.advance();
        }
        counted
    }

    // How many vectors from `x` on down have a wanted size in common with it.
    fn count_from(&self, x: &[u32]) -> u64
        requires { Contains (subsets_vectors self.now) x.now }
        ensures { result
            ≡ wanted_among self.now.size_bits 0 x.now (down_from self.now.sum.bounds x.now) }
    {
        // There are few vectors, so the count does not wrap.
        let _size = self.family.size();
        let mut counted: u64 = 0;
        let _all = self.push_earlier(x, &ArcCounter::of(x.len()), &mut counted, &mut ());
        counted
    }
}

// Counts arcs to vectors of this width, in 64 bits.
#[derive(Drop)]
struct ArcCounter {
    width: usize,
}

impl ArcCounter {
    // Of vectors of this width.
    fn of(width: usize) -> ArcCounter
        ensures { result.width ≡ width }
    {
        ArcCounter { width }
    }
}

impl ArcSink<u64, ()> for ArcCounter {
    ghost use Rattle.std.specs.Prelude.{◌≡◌, ◌<◌, ◌+◌, ◌%◌, ◌^◌, length, ⊤};
    ghost use Rattle.std.proofs.Common.{arith, length-append};

    type Fault = ();

    ghost width = { λ s. s.width };

    ghost at = { λ _ _ _. ⊤ };

    ghost ready = { λ _ _ _. ⊤ };

    ghost took = { λ _ old _ arcs new _. old < 2 ^ 64 → new ≡ (old + length arcs) % 2 ^ 64 };

    ghost cut = { λ _ _ _ _ _ _ _. ⊥ };

    ghost laws = { λ s. record {
      none = λ old _ fits. omega (arith, fits);
      more = λ xs ys _ _ _ _ _ _ p q fits.
          omega (arith, length-append xs ys, p fits, q (omega (arith, p fits)));
      cut_after = λ _ _ _ _ _ _ _ _ _ _ q. q;
      cut_more = λ _ _ _ _ _ _ _ q. q;
    } };

    fn put_arc(&self, _tip: &[u32], _len: u32, counted: &mut u64, _out: &mut ()) -> Result<(), ()> {
        *counted = counted.wrapping_add(1);
        Ok(())
    }
}
