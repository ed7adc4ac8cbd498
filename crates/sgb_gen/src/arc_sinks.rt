//! Arcs that are handed out one by one, so that no list of them is kept.
ghost use Rattle.std.specs.Prelude.{◌≡◌, ℕ, List, [], ◌∷◌, pos, length, OnOk};
ghost use Rattle.sgb_vec.specs.Boxes.{box};
ghost use Rattle.sgb_gen.specs.ArcSinks.{AreGiven};
ghost use Rattle.sgb_gen.specs.LocalLists.{LocalArc};
ghost use Rattle.sgb_gen.specs.Spans.{arcs_of_span};
ghost use Rattle.sgb_gen.specs.inner.ArcSinks.{AreTakenInTurn};

use crate::spans::Span;
use sgb_vec::Vector;

/// Takes the arcs of a list, one after another: `R` is the room that it keeps, `S` where it puts them.
pub trait ArcSink<R, S> {
    /// Why an arc was not taken.
    type Fault;

    // How many entries the vectors have where the arcs lead.
    ghost width: { Self → ℕ };

    // It takes the arcs of this vector, which is one of these vectors.
    ghost at: { Self → List (List ℕ) → List ℕ → Type 0 };

    // What is needed before an arc is put.
    ghost ready: { Self → R → S → Type 0 };

    // All of these arcs were taken: what it keeps and where it puts them, before; the arcs; and both after.
    ghost took: { Self → R → S → List LocalArc → R → S → Type 0 };

    // A fault came before all of these arcs were taken.
    ghost cut: { Self → R → S → List LocalArc → R → S → Self.Fault → Type 0 };

    /// Takes an arc of this length to this vector.
    fn put_arc(&self, tip: &[u32], len: u32, room: &mut R, out: &mut S) -> Result<(), Self::Fault>
        requires width { length tip.now ≡ width self.now }
        requires ready { ready self.now room.old out.old }
        ensures given { AreGiven (took self.now) (cut self.now) room.old out.old
            (record { tip = tip.now; len = pos len } ∷ []) room.new out.new result }
        ensures ready { OnOk result (ready self.now room.new out.new) };

    /// Takes the arcs of a span in their order, which are some of the vector's.
    #[inline(always)]
    fn put_span(&self, span: &Span<'_>, room: &mut R, out: &mut S) -> Result<(), Self::Fault>
        requires at { at self.now (box span.now.sizes) span.now.x }
        requires width { length span.now.x ≡ width self.now }
        requires ready { ready self.now room.old out.old }
        ensures given { AreGiven (took self.now) (cut self.now) room.old out.old
            (arcs_of_span span.now) room.new out.new result }
        ensures ready { OnOk result (ready self.now room.new out.new) }
    {
        let mut there = Vector::new();
        span.put_start(&mut there);
        for k in 0..span.len() {
            let l = span.length_at(k);
            span.put_tip(l, &mut there);
            self.put_arc(there.as_slice(), l, room, out)?;
        }
        Ok(())
    }

    // Arcs are taken in turn.
    ghost laws: { (s : Self) → AreTakenInTurn (took s) (cut s) };
}
