//! The lines of arcs that are handed out one by one, put on a page.
ghost use Rattle.std.specs.Prelude.{◌≡◌, ◌≤◌, ◌+◌, ◌++◌, ℕ, List, [], false, length, IfErr};
ghost use Rattle.std.specs.List.{flat_map};
ghost use Rattle.std.specs.Io.KnownBytes.{Appends};
ghost use Rattle.sgb_file.specs.Devices.{AppendsPrefix, change};
ghost use Rattle.sgb_vec.specs.Limits.{most_dimensions};
ghost use Rattle.sgb_requests.specs.declared.faults.Fault.TheVariants as fault;
ghost use Rattle.sgb.specs.inner.Locals.{local_line};
ghost use Rattle.sgb.specs.Writing.{IsCutOff};
ghost use Rattle.sgb.specs.inner.Pages.{IsPaged};
ghost use Rattle.sgb_gen.specs.Spans.{arc_along, arcs_of_span};

use super::arc_lines::{begin_arc, end_counted_arc};
use super::kept_names::KeptName;
use super::pages::{Page, make_room};
use sgb_file::Sink;
use sgb_gen::{ArcSink, Span};
use sgb_requests::Fault;

/// Takes the arcs of the vector of this name, and hands their lines to a page.
#[derive(Drop)]
pub(super) struct ArcLines<'n> {
    /// The name.
    pub(super) name: &'n KeptName,
}

impl<'n, W: Sink> ArcSink<Page, W> for ArcLines<'n> {
    ghost use Rattle.std.proofs.Common.{◌∙◌, sym, ap, subst, append-nil, append_assoc};
    ghost use Rattle.std.proofs.KnownBytes.{Appends-nil, Appends-trans};
    ghost use Rattle.std.proofs.lemmas.Grind.{flat_map-append};
    ghost use Rattle.sgb_file.proofs.WrittenPrefixes.{prefix_after, prefix_more};

    type Fault = Fault;

    ghost width = { λ s. length s.name.now };

    ghost at = { λ s _ x. s.name.now ≡ x };

    ghost ready = { λ s page out. (W.has_failed out ≡ false)
        × (length s.name.now ≤ most_dimensions + 1) };

    ghost took = { λ _ page old arcs after new. (put : List ℕ)
        × (put ++ after ≡ page ++ flat_map local_line arcs)
        × Appends (W.written old) (W.written new) put };

    ghost cut = { λ _ page old arcs _ new f. IsCutOff (page ++ flat_map local_line arcs)
        (change W.written W.has_failed old new) f × (f ≡ fault.Write) };

    // A page that took some lines and then others took both, and what cuts the others off cuts off both.
    ghost laws = { λ s. record {
      none = λ page out. ([], sym (append-nil page), Appends-nil (W.written out));
      more = λ xs ys page old mid out _ new p q. (
        p.0 ++ q.0,
        append_assoc p.0 q.0 _
            ∙ ap (λ text. p.0 ++ text) q.1 ∙ sym (append_assoc p.0 mid (flat_map local_line ys))
            ∙ ap (λ text. text ++ flat_map local_line ys) p.1
            ∙ append_assoc page (flat_map local_line xs) (flat_map local_line ys)
            ∙ ap (λ text. page ++ text) (sym (flat_map-append local_line xs ys)),
        Appends-trans (W.written old) (W.written out) (W.written new) p.0 q.0 p.2 q.2,
      );
      cut_after = λ xs ys page old mid out _ new f p q. (
        record {
          output = subst (AppendsPrefix (W.written old) (W.written new))
              (sym (append_assoc p.0 mid (flat_map local_line ys))
              ∙ ap (λ text. text ++ flat_map local_line ys) p.1
              ∙ append_assoc page (flat_map local_line xs) (flat_map local_line ys)
              ∙ ap (λ text. page ++ text) (sym (flat_map-append local_line xs ys)))
              (prefix_after (W.written old) (W.written out) (W.written new) p.0
              (mid ++ flat_map local_line ys) p.2 q.0.output);
          cause = q.0.cause;
        },
        q.1,
      );
      cut_more = λ xs ys page old _ new f q. (
        record {
          output = subst (AppendsPrefix (W.written old) (W.written new))
              (append_assoc page (flat_map local_line xs) (flat_map local_line ys)
              ∙ ap (λ text. page ++ text) (sym (flat_map-append local_line xs ys)))
              (prefix_more (W.written old) (W.written new) (page ++ flat_map local_line xs)
              (flat_map local_line ys) q.0.output);
          cause = q.0.cause;
        },
        q.1,
      );
    } };

    #[inline(always)]
    fn put_arc(&self, tip: &[u32], len: u32, page: &mut Page, out: &mut W) -> Result<(), Fault> {
        make_room(page, out)?;
        begin_arc(page);
        self.name.push_other(tip, page);
        end_counted_arc(page, len);
        Ok(())
    }

    #[inline(always)]
    fn put_span(&self, span: &Span<'_>, page: &mut Page, out: &mut W) -> Result<(), Fault> {
        push_span(span, self.name, page, out)
    }
}

// Hands the lines of the arcs of a span to a page.
#[inline(always)]
fn push_span<W: Sink>(
    span: &Span<'_>,
    name: &KeptName,
    page: &mut Page,
    out: &mut W,
) -> Result<(), Fault>
    requires named { name.now ≡ span.now.x }
    requires short { length name.now ≤ most_dimensions + 1 }
    requires sound { W.has_failed out.old ≡ false }
    ensures paged { IsPaged page.old (flat_map local_line (arcs_of_span span.now)) page.new
        (change W.written W.has_failed out.old out.new) result }
    ensures fault { IfErr result (λ f. f ≡ Fault.Write) }
{
    for k in 0..span.len() {
        push_moved_line(span, span.length_at(k), name, page, out)?;
    }
    Ok(())
}

// Hands the line of the arc of length `l` of a span to a page: of the name only the coordinates that are moved are put anew.
#[inline(always)]
fn push_moved_line<W: Sink>(
    span: &Span<'_>,
    l: u32,
    name: &KeptName,
    page: &mut Page,
    out: &mut W,
) -> Result<(), Fault>
    requires named { name.now ≡ span.now.x }
    requires short { length name.now ≤ most_dimensions + 1 }
    requires sound { W.has_failed out.old ≡ false }
    ensures paged { IsPaged page.old (local_line (arc_along span.now.sizes span.now.wrap
        span.now.x span.now.parts l)) page.new
        (change W.written W.has_failed out.old out.new) result }
    ensures fault { IfErr result (λ f. f ≡ Fault.Write) }
{
    make_room(page, out)?;
    begin_arc(page);
    name.push_moved(span, l, page);
    end_counted_arc(page, l);
    Ok(())
}
