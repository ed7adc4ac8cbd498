//! New events, each an arc or an edge (GB_GRAPH, gb_new_arc and gb_new_edge).
ghost use Rattle.std.specs.Prelude.{◌≡◌, ◌<◌, [], ◌∷◌, length, OnOk, OnErr, IsOkUnless};
ghost use Rattle.sgb_graph.specs.Growth.{AddsEvents, HasPlainArcs, with_event};

use super::Graph;
use sgb_vec::Panic;

impl Graph {
    /// A new event of length `len` from vertex `u < n` to vertex `v < n`: an arc where `directed`, else an edge
    /// (GB_GRAPH, gb_new_arc and gb_new_edge). Records may not have utility fields yet.
    ///
    /// `NoRoom` when out of memory, and nothing else; the graph is then as it was.
    #[inline(always)]
    pub fn add_event(&mut self, directed: bool, u: u32, v: u32, len: i64) -> Result<(), Panic>
        requires from { u < length self.old.vertices }
        requires to { v < length self.old.vertices }
        requires plain { HasPlainArcs self.old }
        ensures ok { OnOk result (AddsEvents directed self.old self.new
            (record { from = u; to = v; len = len } ∷ [])) }
        ensures one { OnOk result (self.new ≡ with_event directed self.old
            (record { from = u; to = v; len = len })) }
        ensures err { OnErr result (self.new ≡ self.old) }
        ensures memory { IsOkUnless result Panic.NoRoom }
    {
        if directed {
            self.new_arc(u, v, len)
        } else {
            self.new_edge(u, v, len)
        }
    }
}
