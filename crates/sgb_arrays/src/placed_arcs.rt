//! Arcs that are handed out one by one, and put into rows.
//!
//! Each leads to a vector that is found at once. Those of a span lead to vertices that are equal strides apart, where that is known.
use crate::rows::Rows;
use sgb_gen::{ArcSink, Span, VectorPlaces};
use sgb_vec::Panic;

/// Puts arcs to vectors that are found at once behind those of the rows.
#[derive(Drop)]
pub(crate) struct PlacedArcs<'p, P: VectorPlaces> {
    /// The vectors.
    pub(crate) places: &'p P,
    /// How many entries each has.
    pub(crate) width: usize,
    /// The vertex.
    pub(crate) vertex: u32,
}

impl<'p, P: VectorPlaces> ArcSink<Rows, ()> for PlacedArcs<'p, P> {
    ghost use Rattle.std.specs.Prelude.{◌≡◌, slice_get, Some, ⊤};
    ghost use Rattle.sgb_vec.specs.declared.panics.Panic.TheVariants.{NoRoom};
    ghost use Rattle.sgb_arrays.specs.inner.PlacedArcs.{PutsArcs, more_arcs_put, no_arc_put};

    type Fault = Panic;

    ghost width = { λ s. s.width };

    ghost at = { λ s vectors x. (P.vectors s.places.now ≡ vectors) × (slice_get vectors s.vertex ≡ Some x) };

    ghost ready = { λ _ _ _. ⊤ };

    ghost took = { λ s old _ arcs new _. PutsArcs (P.vectors s.places.now) old arcs new };

    ghost cut = { λ _ _ _ _ _ _ f. f ≡ NoRoom };

    ghost laws = { λ s. record {
      none = λ rows _. no_arc_put (P.vectors s.places.now) rows;
      more = λ xs ys old _ mid _ new _ p q. more_arcs_put (P.vectors s.places.now) xs ys old mid new p q;
      cut_after = λ _ _ _ _ _ _ _ _ _ _ q. q;
      cut_more = λ _ _ _ _ _ _ _ q. q;
    } };

    #[inline(always)]
    fn put_arc(&self, tip: &[u32], len: u32, rows: &mut Rows, _out: &mut ()) -> Result<(), Panic> {
        rows.push_arc(self.places.place_if_there(tip), len)
    }

    #[inline(always)]
    fn put_span(&self, span: &Span<'_>, rows: &mut Rows, _out: &mut ()) -> Result<(), Panic> {
        let tips = span.tips(self.vertex);
        for k in 0..span.len() {
            let l = span.length_at(k);
            let tip = span.tip_among(self.places, &tips, k, l);
            rows.push_arc(tip, l)?;
        }
        Ok(())
    }
}
