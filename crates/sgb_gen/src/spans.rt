//! Spans: arcs of a board's vertex by one displacement, of some lengths in turn.
//!
//! Each list of a board is spans, one after another, but where the moves of a rider want a sort. A taker of arcs that knows the
//! vector needs to look at the moved coordinates alone.
ghost use Rattle.std.specs.Prelude.{◌≡◌, ◌+◌, ◌-◌, ◌<◌, ◌≤◌, length, reverse, slice_get, Contains, IfSome, Some, unwrap_or};
ghost use Rattle.std.specs.List.{range_with_len};
ghost use Rattle.sgb_vec.specs.Boxes.{box};
ghost use Rattle.sgb_vec.specs.Lexicographic.{IsBelow};
ghost use Rattle.sgb_vec.specs.Limits.{most_dimensions};
ghost use Rattle.sgb_moves.specs.MovedCoordinates.{part_at, parts_put};
ghost use Rattle.sgb_gen.specs.Spans.{AreMoved, FallBy};
ghost use Rattle.sgb_gen.specs.VectorGraphs.{vertex_among};
ghost use Rattle.sgb_gen.specs.inner.Spans.{IsBesides, LeadBack, LeadOn};

use crate::vector_places::VectorPlaces;
use sgb_moves::{Part, Step, part_at, put_parts, put_vector};
use sgb_vec::Vector;
use std::marker::Model;

/// Arcs of a board's vertex by one displacement, of lengths one after another.
#[derive(Drop)]
pub struct Span<'b> {
    sizes: &'b [u32],
    wrap: i64,
    x: &'b [u32],
    parts: &'b [Part],
    // The lengths are those above `from` up to `to`, from the shortest on where they rise.
    from: u32,
    to: u32,
    rising: bool,
    // How many places a unit of length leads among the vertices, where that is known: back where the lengths rise, and else on.
    stride: Option<u32>,
}

/// Where the arcs of a span lead: to the first vertex, and then to one that is so many places before the last one.
#[derive(Clone, Copy, Drop)]
pub struct SpanTips {
    /// The first one.
    pub first: u32,
    /// How many places.
    pub stride: u32,
}

impl<'b> Model for Span<'b> {
    ghost use Rattle.std.specs.Prelude.{◌≤◌, length, IfSome};
    ghost use Rattle.std.specs.Bool.{OnFalse, OnTrue};
    ghost use Rattle.sgb_vec.specs.Lexicographic.{IsBelow};
    ghost use Rattle.sgb_vec.specs.Limits.{most_dimensions};
    ghost use Rattle.sgb_gen.specs.Spans.{AreMoved, SpanData};
    ghost use Rattle.sgb_gen.specs.inner.Spans.{LeadBack, LeadOn, lengths_between};

    ghost Value = { SpanData };

    ghost view = { λ s. record {
      sizes = s.sizes.now;
      wrap = s.wrap;
      x = s.x.now;
      parts = s.parts.now;
      lengths = lengths_between s.rising s.from s.to;
    } };

    ghost invariant = { λ s. IsBelow s.x.now s.sizes.now
        × AreMoved (length s.x.now) s.parts.now
        × (length s.x.now ≤ most_dimensions)
        × (s.from ≤ s.to)
        × OnTrue s.rising (IfSome s.stride (LeadBack s.sizes.now s.wrap s.x.now s.parts.now s.to))
        × OnFalse s.rising (IfSome s.stride (LeadOn s.sizes.now s.wrap s.x.now s.parts.now s.to)) };
}

impl<'b> Span<'b> {
    // The arcs of `x` of the lengths above `from` up to `to`, the shortest first; and how many places back a unit of length leads.
    pub(crate) fn rising(
        sizes: &'b [u32],
        wrap: i64,
        x: &'b [u32],
        parts: &'b [Part],
        from: u32,
        to: u32,
        stride: Option<u32>,
    ) -> Span<'b>
        requires below { IsBelow x.now sizes.now }
        requires moved { AreMoved (length x.now) parts.now }
        requires few { length x.now ≤ most_dimensions }
        requires order { from ≤ to }
        requires stride { IfSome stride (LeadBack sizes.now wrap x.now parts.now to) }
        ensures { result ≡ record {
          sizes = sizes.now;
          wrap = wrap;
          x = x.now;
          parts = parts.now;
          lengths = range_with_len (from + 1) (to - from);
        } }
    {
        Span {
            sizes,
            wrap,
            x,
            parts,
            from,
            to,
            rising: true,
            stride,
        }
    }

    // Those of the lengths from `to` down to 1; and how many places on a unit of length leads.
    pub(crate) fn falling(
        sizes: &'b [u32],
        wrap: i64,
        x: &'b [u32],
        parts: &'b [Part],
        to: u32,
        stride: Option<u32>,
    ) -> Span<'b>
        requires below { IsBelow x.now sizes.now }
        requires moved { AreMoved (length x.now) parts.now }
        requires few { length x.now ≤ most_dimensions }
        requires stride { IfSome stride (LeadOn sizes.now wrap x.now parts.now to) }
        ensures { result ≡ record {
          sizes = sizes.now;
          wrap = wrap;
          x = x.now;
          parts = parts.now;
          lengths = reverse (range_with_len 1 to);
        } }
    {
        Span {
            sizes,
            wrap,
            x,
            parts,
            from: 0,
            to,
            rising: false,
            stride,
        }
    }

    /// How many arcs these are.
    #[inline(always)]
    pub fn len(&self) -> u32
        ensures { result ≡ length self.now.lengths }
    {
        self.to - self.from
    }

    /// The length of arc number `k`.
    #[inline(always)]
    pub fn length_at(&self, k: u32) -> u32
        requires { k < length self.now.lengths }
        ensures { slice_get self.now.lengths k ≡ Some result }
    {
        if self.rising {
            return self.from + 1 + k;
        }
        self.to - k
    }

    /// The coordinates that are moved, and how far each goes for a unit of length.
    #[inline(always)]
    pub fn parts(&self) -> &'b [(usize, i32)]
        ensures same { result.now ≡ self.now.parts }
        ensures moved { AreMoved (length self.now.x) self.now.parts }
    {
        self.parts
    }

    /// Where this coordinate leads at length `l`, where it goes so far for each unit of length; 0 where that is off the board.
    #[inline(always)]
    pub fn entry_at(&self, k: usize, amount: i32, l: u32) -> u32
        requires { k < length self.now.x }
        ensures { result ≡ unwrap_or (part_at self.now.sizes self.now.wrap self.now.x l (k, amount))
            0 }
    {
        part_at(self.sizes, self.wrap, self.x, l, k, amount).unwrap_or(0)
    }

    /// Where its arcs lead, where they are the arcs of vertex `v` and the vertices are known to be equally far apart. `None` where
    /// they are not, or where there is no arc.
    #[inline(always)]
    pub fn tips(&self, v: u32) -> Option<SpanTips>
        requires { slice_get (box self.now.sizes) v ≡ Some self.now.x }
        ensures { IfSome result (λ t. FallBy self.now t.first t.stride) }
    {
        let stride = self.stride?;
        if self.from == self.to {
            return None;
        }
        let first = if self.rising {
            v - (self.from + 1) * stride
        } else {
            v + self.to * stride
        };
        Some(SpanTips { first, stride })
    }

    /// The vertex where arc number `k`, of length `l`, leads: by `tips` where these are known; else it is found by its vector.
    #[inline(always)]
    pub fn tip_among<P: VectorPlaces>(
        &self,
        places: &P,
        tips: &Option<SpanTips>,
        k: u32,
        l: u32,
    ) -> u32
        requires places { P.vectors places.now ≡ box self.now.sizes }
        requires tips { IfSome tips.now (λ t. FallBy self.now t.first t.stride) }
        requires length { slice_get self.now.lengths k ≡ Some l }
        ensures { Contains (box self.now.sizes) (parts_put self.now.sizes self.now.wrap self.now.x l
            self.now.parts self.now.x)
            → result ≡ vertex_among (box self.now.sizes) (parts_put self.now.sizes self.now.wrap
            self.now.x l self.now.parts self.now.x) }
    {
        match tips {
            Some(tips) => tips.first - k * tips.stride,
            None => self.tip_found(places, l),
        }
    }

    // The vertex where the arc of length `l` leads, found by its vector.
    fn tip_found<P: VectorPlaces>(&self, places: &P, l: u32) -> u32
        requires { P.vectors places.now ≡ box self.now.sizes }
        ensures { Contains (box self.now.sizes) (parts_put self.now.sizes self.now.wrap self.now.x l
            self.now.parts self.now.x)
            → result ≡ vertex_among (box self.now.sizes) (parts_put self.now.sizes self.now.wrap
            self.now.x l self.now.parts self.now.x) }
    {
        let mut there = Vector::new();
        self.put_start(&mut there);
        self.put_tip(l, &mut there);
        places.place_if_there(there.as_slice())
    }

    // Puts the vector itself into `there`.
    pub(crate) fn put_start(&self, there: &mut Vector)
        ensures { IsBesides self.now there.new.items }
    {
        put_vector(self.x, there);
    }

    // Puts the tip of the arc of length `l` into `there`, which is the vector but for the coordinates that are moved.
    #[inline(always)]
    pub(crate) fn put_tip(&self, l: u32, there: &mut Vector)
        requires { IsBesides self.now there.old.items }
        ensures tip { there.new.items ≡ parts_put self.now.sizes self.now.wrap self.now.x l
            self.now.parts self.now.x }
        ensures there { IsBesides self.now there.new.items }
    {
        put_parts(
            self.sizes,
            self.wrap,
            self.x,
            self.parts,
            l,
            there.as_mut_slice(),
        );
    }
}
