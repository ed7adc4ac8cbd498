//! Arcs that are handed out one by one, and taken as events.
//!
//! Each leads to a vector whose vertex is found at once.
ghost use Rattle.std.specs.Prelude.{◌≡◌, ◌<◌, ◌++◌, [], ◌==◌, ◌&&◌, false, not, pos, if◌then◌else◌, IfNone, IfSome, OnOk, IsOkUnless};
ghost use Rattle.std.specs.Bool.{OnTrue};
ghost use Rattle.sgb_ops.specs.inner.Sources.{event_to};

use sgb_gen::{ArcSink, Span, SpanTips, VectorPlaces};
use sgb_taken::Event;
use sgb_vec::Panic;

/// Appends the events of the arcs taken of a vertex.
#[derive(Drop)]
pub(crate) struct TakenEvents<'p, P: VectorPlaces> {
    /// The vectors.
    pub(crate) places: &'p P,
    /// How many entries each has.
    pub(crate) width: usize,
    /// The vertex.
    pub(crate) vertex: u32,
    /// An arc is taken where its tip is below this.
    pub(crate) n: u32,
    /// Whether arcs to earlier vertices are taken.
    pub(crate) directed: bool,
    /// Whether each second loop is left out.
    pub(crate) loops_once: bool,
}

impl<'p, P: VectorPlaces> ArcSink<bool, Vec<Event>> for TakenEvents<'p, P> {
    ghost use Rattle.std.specs.Prelude.{◌≡◌, slice_get, Some, ⊤};
    ghost use Rattle.sgb_vec.specs.declared.panics.Panic.TheVariants.{NoRoom};
    ghost use Rattle.sgb_ops.specs.inner.TakenEvents.{TakesArcs, more_arcs_taken, no_arc_taken};

    type Fault = Panic;

    ghost width = { λ s. s.width };

    ghost at = { λ s vectors x. (P.vectors s.places.now ≡ vectors) × (slice_get vectors s.vertex ≡ Some x) };

    ghost ready = { λ _ _ _. ⊤ };

    ghost took = { λ s second old arcs after new.
        TakesArcs (P.vectors s.places.now) s.directed s.loops_once s.vertex s.n second old.items arcs
        after new.items };

    ghost cut = { λ _ _ _ _ _ _ f. f ≡ NoRoom };

    ghost laws = { λ s. record {
      none = λ second events. no_arc_taken (P.vectors s.places.now) s.directed s.loops_once s.vertex s.n second events.items;
      more = λ xs ys second old between mid after new p q.
          more_arcs_taken (P.vectors s.places.now) s.directed s.loops_once s.vertex s.n xs ys second between after
          old.items mid.items new.items p q;
      cut_after = λ _ _ _ _ _ _ _ _ _ _ q. q;
      cut_more = λ _ _ _ _ _ _ _ q. q;
    } };

    #[inline(always)]
    fn put_arc(
        &self,
        tip: &[u32],
        len: u32,
        after_loop: &mut bool,
        events: &mut Vec<Event>,
    ) -> Result<(), Panic> {
        self.push(self.places.place_if_there(tip), len, after_loop, events)
    }

    #[inline(always)]
    fn put_span(
        &self,
        span: &Span<'_>,
        after_loop: &mut bool,
        events: &mut Vec<Event>,
    ) -> Result<(), Panic> {
        let tips = span.tips(self.vertex);
        if !self.directed && lead_before(&tips, self.vertex) {
            return Ok(());
        }
        for k in 0..span.len() {
            let l = span.length_at(k);
            let w = span.tip_among(self.places, &tips, k, l);
            self.push(w, l, after_loop, events)?;
        }
        Ok(())
    }
}

impl<'p, P: VectorPlaces> TakenEvents<'p, P> {
    // Appends the event of an arc to this vertex, where it is taken.
    #[inline(always)]
    fn push(
        &self,
        tip: u32,
        len: u32,
        after_loop: &mut bool,
        events: &mut Vec<Event>,
    ) -> Result<(), Panic>
        ensures events { OnOk result (events.new.items ≡ events.old.items
            ++ (if (self.now.loops_once && (tip == self.now.vertex)) && after_loop.old then []
            else event_to self.now.directed self.now.vertex self.now.n tip (pos len))) }
        ensures after { after_loop.new ≡ (if self.now.loops_once && (tip == self.now.vertex)
            then not after_loop.old else after_loop.old) }
        ensures memory { IsOkUnless result Panic.NoRoom }
    {
        if is_left_out(self.loops_once, self.vertex, tip, after_loop) {
            return Ok(());
        }
        push_event(events, self.vertex, tip, len, self.directed, self.n)
    }
}

// Appends the event of an arc of `v`, where it is taken and its tip is below `n`.
#[inline(always)]
fn push_event(
    events: &mut Vec<Event>,
    v: u32,
    tip: u32,
    len: u32,
    directed: bool,
    n: u32,
) -> Result<(), Panic>
    ensures ok { OnOk result (events.new.items
        ≡ events.old.items ++ event_to directed v n tip (pos len)) }
    ensures memory { IsOkUnless result Panic.NoRoom }
{
    if tip < n && (directed || tip >= v) {
        events.push(Event::new(v, tip, i64::from(len)))?;
    }
    Ok(())
}

// Whether the vertices are known to be before `v`.
#[inline(always)]
fn lead_before(tips: &Option<SpanTips>, v: u32) -> bool
    ensures before { IfSome tips.now (λ t. OnTrue result (t.first < v)) }
    ensures none { IfNone tips.now (result ≡ false) }
{
    match tips {
        Some(tips) => tips.first < v,
        None => false,
    }
}

// Whether an arc of `v` to `w` is a loop that comes second, where loops are taken once. `after_loop` tells whether one came first.
#[inline(always)]
fn is_left_out(loops_once: bool, v: u32, w: u32, after_loop: &mut bool) -> bool
    ensures left { result ≡ ((loops_once && (w == v)) && after_loop.old) }
    ensures after { after_loop.new
        ≡ (if loops_once && (w == v) then not after_loop.old else after_loop.old) }
{
    if !loops_once || w != v {
        return false;
    }
    let is_second = *after_loop;
    *after_loop = !is_second;
    is_second
}
