//! Arcs that are handed out one by one, and counted.
//!
//! Those of a span are counted at once.
ghost use Rattle.std.specs.Prelude.{◌≡◌, ◌+◌, IsOkUnless, OnOk};

use sgb_gen::{ArcSink, Span};
use sgb_vec::Panic;

/// Counts arcs, beyond those that were counted before.
#[derive(Drop)]
pub(crate) struct CountedArcs {
    /// How many entries the vectors have where they lead.
    pub(crate) width: usize,
}

impl ArcSink<u128, ()> for CountedArcs {
    ghost use Rattle.std.specs.Prelude.{◌≡◌, ◌+◌, length, ⊤};
    ghost use Rattle.sgb_vec.specs.declared.panics.Panic.TheVariants.{NoRoom};
    ghost use Rattle.sgb_arrays.specs.inner.CountedArcs.{more_arcs_counted, no_arc_counted};

    type Fault = Panic;

    ghost width = { λ s. s.width };

    ghost at = { λ _ _ _. ⊤ };

    ghost ready = { λ _ _ _. ⊤ };

    ghost took = { λ _ old _ arcs new _. new ≡ old + length arcs };

    ghost cut = { λ _ _ _ _ _ _ f. f ≡ NoRoom };

    ghost laws = { λ _. record {
      none = λ n _. no_arc_counted n;
      more = λ xs ys old _ mid _ new _ p q. more_arcs_counted xs ys old mid new p q;
      cut_after = λ _ _ _ _ _ _ _ _ _ _ q. q;
      cut_more = λ _ _ _ _ _ _ _ q. q;
    } };

    #[inline(always)]
    fn put_arc(
        &self,
        _tip: &[u32],
        _len: u32,
        arcs: &mut u128,
        _out: &mut (),
    ) -> Result<(), Panic> {
        count_more(arcs, 1)
    }

    #[inline(always)]
    fn put_span(&self, span: &Span<'_>, arcs: &mut u128, _out: &mut ()) -> Result<(), Panic> {
        count_more(arcs, span.len())
    }
}

// Counts so many arcs more. `NoRoom` where 128 bits do not hold the number, which no graph has so many arcs for.
#[inline(always)]
fn count_more(arcs: &mut u128, more: u32) -> Result<(), Panic>
    ensures sum { OnOk result (arcs.new ≡ arcs.old + more) }
    ensures memory { IsOkUnless result Panic.NoRoom }
{
    let Some(sum) = (*arcs).checked_add(u128::from(more)) else {
        return Err(Panic::NoRoom);
    };
    *arcs = sum;
    Ok(())
}
