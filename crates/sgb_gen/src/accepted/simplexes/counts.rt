//! The number of arcs of a simplex's graph, with no list made.
//!
//! Each pair of bounds makes a row of counts, as `SumFamily::new` does, and gives it back before the next one. It has 8
//! bytes for each sum up to the lesser of n and the sum of all bounds but the two greatest. That is some 45,000 at
//! most, since more bounds, or greater ones, have more than 1,000,000,000 vectors: about a megabyte while it grows.
//!
//! There are fewer than 2^64 moves, so a number that is too great is no cause to refuse. No clause says so: it would
//! speak of counts that were not made.
ghost use Rattle.std.specs.Prelude.{◌≡◌, ◌≤◌, ◌<◌, ◌*◌, ◌+◌, length, slice_index, Contains, IfOk, IfErr, IfSome, IsOkUnless};
ghost use Rattle.sgb_graph.specs.Made.{graph_described};
ghost use Rattle.sgb_vec.specs.Limits.{most_dimensions, most_vertices};
ghost use Rattle.sgb_vec.specs.Sums.{BoundedSum};
ghost use Rattle.sgb_gen.specs.Simplexes.{simplex_vector_graph, simplex_vectors, moves_of_simplex};
ghost use Rattle.sgb_gen.specs.inner.Simplexes.{pairs_from};
ghost use Rattle.sgb_gen.specs.VectorGraphs.{described_by};
ghost use Rattle.sgb_gen.specs.inner.SimplexCounts.{lowered, shifts_count, shifts_by, AreKnown, IsKnown};

use super::Simplex;
use super::known::{KnownCount, KnownCounts};
use crate::links::Links;
use sgb_vec::{Family, Panic, SumFamily, Vector};
use std::alloc::Global;

impl Simplex {
    /// The number of arcs of the simplex's graph (GB_BASIC, simplex), where an edge counts as two. It is found by
    /// pairs of places, with no arc made and no vector walked: where a unit can go from one place to another, the
    /// vectors are as many as those of a sum and of bounds that are one less.
    ///
    /// `NoRoom` when out of memory, and nothing else: never because the number is too great, and never for a sum of 0, vectors
    /// of one entry, or no vectors, for which none is taken. The memory is from where that of the links comes; for each pair of
    /// bounds, of which there are at most sixteen, it is that of `sgb_vec::SumFamily::new`, as is the time.
    pub fn arcs_count(&self, links: &Links) -> Result<u128, Panic>
        ensures count { IfOk result (λ m.
            m ≡ (graph_described (described_by (simplex_vector_graph self.now))).m) }
        ensures memory { IsOkUnless result Panic.NoRoom }
        ensures some { IfErr result (λ p. 0 < self.now.sum.total) }
        ensures pair { IfErr result (λ p. 1 < length self.now.sum.bounds) }
        ensures vertex { IfErr result (λ p. 0 < length (simplex_vectors self.now)) }
    {
        let moves = self.moves_count(links.alloc())?;
        if self.directed {
            return Ok(u128::from(moves));
        }
        Ok(u128::from(moves) * 2)
    }

    // The number of moves.
    fn moves_count(&self, alloc: Global) -> Result<u64, Panic>
        ensures ok { IfOk result (λ n. n ≡ length (moves_of_simplex self.now)) }
        ensures memory { IsOkUnless result Panic.NoRoom }
        ensures some { IfErr result (λ p. 0 < self.now.sum.total) }
        ensures pair { IfErr result (λ p. 1 < length self.now.sum.bounds) }
        ensures vertex { IfErr result (λ p. 0 < length (simplex_vectors self.now)) }
    {
        if self.family.size() == 0 {
            return Ok(0);
        }
        let mut known = KnownCounts::new();
        let mut counted: u64 = 0;
        for lower in 0..self.sizes().len() {
            counted += self.shifts_from(alloc, lower, &mut known)?;
        }
        Ok(counted)
    }

    // From how many vectors a unit goes from the lower place to a higher one: for each of these.
    fn shifts_from(
        &self,
        alloc: Global,
        lower: usize,
        known: &mut KnownCounts,
    ) -> Result<u64, Panic>
        requires entry { lower < length self.now.sum.bounds }
        requires known { AreKnown self.now.sum known.old.items }
        ensures ok { IfOk result (λ n. n
            ≡ shifts_by self.now.sum (pairs_from (length self.now.sum.bounds) lower)) }
        ensures small { IfOk result (λ n. n ≤ (most_dimensions + 1) * most_vertices) }
        ensures known { AreKnown self.now.sum known.new.items }
        ensures memory { IsOkUnless result Panic.NoRoom }
        ensures some { IfErr result (λ p. 0 < self.now.sum.total) }
        ensures pair { IfErr result (λ p. 1 < length self.now.sum.bounds) }
    {
        let bounds = self.sizes();
        let mut counted: u64 = 0;
        for higher in lower + 1..bounds.len() {
            counted += u64::from(self.shifts_known(alloc, lower, higher, known)?);
        }
        Ok(counted)
    }

    // From how many vectors a unit can go from the lower place to the higher one, which is counted once for two bounds:
    // places with equal bounds have equal counts.
    fn shifts_known(
        &self,
        alloc: Global,
        lower: usize,
        higher: usize,
        known: &mut KnownCounts,
    ) -> Result<u32, Panic>
        requires order { lower < higher }
        requires entry { higher < length self.now.sum.bounds }
        requires known { AreKnown self.now.sum known.old.items }
        ensures ok { IfOk result (λ n. n
            ≡ shifts_count self.now.sum (record { lower = lower; higher = higher })) }
        ensures small { IfOk result (λ n. n ≤ most_vertices) }
        ensures known { AreKnown self.now.sum known.new.items }
        ensures memory { IsOkUnless result Panic.NoRoom }
        ensures some { IfErr result (λ p. 0 < self.now.sum.total) }
        ensures pair { IfErr result (λ p. 1 < length self.now.sum.bounds) }
    {
        let bounds = self.sizes();
        let (low, high) = (bounds[lower], bounds[higher]);
        if let Some(count) = known_count(known.as_slice(), low, high) {
            return Ok(count);
        }
        let count = self.shifts_count(alloc, lower, higher)?;
        keep(known, KnownCount { low, high, count });
        Ok(count)
    }

    // From how many vectors a unit can go from the lower place to the higher one: as many as have a sum and bounds
    // that are one less.
    fn shifts_count(&self, alloc: Global, lower: usize, higher: usize) -> Result<u32, Panic>
        requires order { lower < higher }
        requires entry { higher < length self.now.sum.bounds }
        ensures ok { IfOk result (λ n. n
            ≡ shifts_count self.now.sum (record { lower = lower; higher = higher })) }
        ensures small { IfOk result (λ n. n ≤ most_vertices) }
        ensures memory { IsOkUnless result Panic.NoRoom }
        ensures some { IfErr result (λ p. 0 < self.now.sum.total) }
        ensures pair { IfErr result (λ p. 1 < length self.now.sum.bounds) }
    {
        let bounds = self.sizes();
        let total = self.family.total();
        if total == 0 || bounds[lower] == 0 || bounds[higher] == 0 {
            return Ok(0);
        }
        let bounds = lowered(bounds, lower, higher);
        let family = SumFamily::new(alloc, i64::from(total - 1), bounds.as_slice())?;
        Ok(family.size())
    }
}

// The count that is known of these bounds.
fn known_count(known: &[KnownCount], low: u32, high: u32) -> Option<u32>
    ensures { IfSome result (λ n. Contains known.now
        (record { low = low; high = high; count = n })) }
{
    for k in known {
        if k.low == low && k.high == high {
            return Some(k.count);
        }
    }
    None
}

// Keeps one more count, where there is room.
fn keep(known: &mut KnownCounts, count: KnownCount)
    ensures { (s : BoundedSum) → IsKnown s count → AreKnown s known.old.items
        → AreKnown s known.new.items }
{
    if known.is_full() {
        return;
    }
    known.push(count);
}

// The bounds with one less at both places.
fn lowered(bounds: &[u32], lower: usize, higher: usize) -> Vector
    requires few { length bounds.now ≤ most_dimensions + 1 }
    requires order { lower < higher }
    requires entry { higher < length bounds.now }
    requires low { 0 < slice_index bounds.now lower }
    requires high { 0 < slice_index bounds.now higher }
    ensures { result.items ≡ lowered bounds.now (record { lower = lower; higher = higher }) }
{
    let mut less = Vector::new();
    for bound in bounds {
        less.push(*bound);
    }
    less[lower] -= 1;
    less[higher] -= 1;
    less
}
