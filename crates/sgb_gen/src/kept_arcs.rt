//! Arcs that are handed out one by one, and kept in links.
ghost use Rattle.std.specs.Prelude.{◌≡◌};

use crate::arc_sinks::ArcSink;
use crate::links::Links;
use sgb_vec::Panic;

// Puts arcs to vectors of this width into links, behind the others.
#[derive(Drop)]
pub(crate) struct KeptArcs {
    width: usize,
}

impl KeptArcs {
    // Of vectors of this width.
    pub(crate) fn of(width: usize) -> KeptArcs
        ensures { result.width ≡ width }
    {
        KeptArcs { width }
    }
}

impl ArcSink<Links, ()> for KeptArcs {
    ghost use Rattle.std.specs.Prelude.{◌≡◌, ⊤};
    ghost use Rattle.std.proofs.Common.{sym, ap, ◌∙◌, append-nil, append_assoc};
    ghost use Rattle.sgb_vec.specs.declared.panics.Panic.TheVariants.{NoRoom};
    ghost use Rattle.sgb_gen.specs.inner.LocalSimplexes.{with_arcs};

    type Fault = Panic;

    ghost width = { λ s. s.width };

    ghost at = { λ _ _ _. ⊤ };

    ghost ready = { λ s links _. links.width ≡ s.width };

    ghost took = { λ _ old _ arcs new _. new ≡ with_arcs old arcs };

    ghost cut = { λ _ _ _ _ _ _ f. f ≡ NoRoom };

    ghost laws = { λ s. record {
      none = λ links _. ap (λ arcs. record links { arcs = arcs }) (sym (append-nil links.arcs));
      more = λ xs ys old _ mid _ new _ p q. q ∙ ap (λ l. with_arcs l ys) p
          ∙ ap (λ arcs. record old { arcs = arcs }) (append_assoc old.arcs xs ys);
      cut_after = λ _ _ _ _ _ _ _ _ _ _ q. q;
      cut_more = λ _ _ _ _ _ _ _ q. q;
    } };

    fn put_arc(
        &self,
        tip: &[u32],
        len: u32,
        links: &mut Links,
        _out: &mut (),
    ) -> Result<(), Panic> {
        links.push(tip, len)
    }
}
