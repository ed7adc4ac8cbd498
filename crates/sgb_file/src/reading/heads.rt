//! What a file's first line says.
use sgb_graph::Kind;
use std::marker::Model;

// How many vertices and arc records a file has: at most 1,000,000,000 vertices, and numbers of 18 digits.
#[derive(Drop)]
pub(super) struct Counts {
    pub(super) vertices: u64,
    pub(super) arcs: u64,
}

impl Model for Counts {
    ghost use Rattle.std.specs.Prelude.{◌≤◌, ◌<◌, ◌^◌};
    ghost use Rattle.sgb_vec.specs.Limits.{most_vertices};
    ghost use Rattle.sgb_file.specs.inner.Heads.{Counts as FileCounts};

    ghost Value = { FileCounts };

    ghost view = { λ c. record { vertices = c.vertices; arcs = c.arcs } };

    ghost invariant = { λ c. (c.vertices ≤ most_vertices) × (c.arcs < 10 ^ 18) };
}

// The kinds of the utility fields, and the counts.
#[derive(Drop)]
pub(super) struct Head {
    pub(super) kinds: [Kind; 14],
    pub(super) counts: Counts,
}

impl Model for Head {
    ghost use Rattle.std.specs.Prelude.{◌≡◌, length};
    ghost use Rattle.sgb_file.specs.inner.Heads.{Head as FileHead};

    ghost Value = { FileHead };

    ghost view = { λ h. record { kinds = h.kinds; counts = h.counts } };

    ghost invariant = { λ h. length h.kinds ≡ 14 };
}
