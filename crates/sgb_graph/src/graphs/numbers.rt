//! Integers in the utility fields x, y, z of vertices, and in the graph's own field uu.
ghost use Rattle.std.specs.Prelude.{◌≡◌, ◌<◌, ℕ, length, map, OnErr, OnOk, IsOkUnless};
ghost use Rattle.sgb_graph.specs.Graphs.{chain_of};
ghost use Rattle.sgb_graph.specs.Growth.{at_place, put_numbers, some_numbers, with_ints, with_uu};

use super::Graph;
use crate::fields::Util;
use sgb_vec::Panic;
use std::alloc::Global;

impl Graph {
    /// Puts three integers into the utility fields x, y, z of vertex `v < n`. These fields then
    /// hold integers in every vertex: 0 where there was none (GB_GRAPH, util_types).
    ///
    /// `NoRoom` when out of memory, and nothing else; the graph is then as it was.
    pub fn set_vertex_ints(
        &mut self,
        alloc: Global,
        v: u32,
        x: i64,
        y: i64,
        z: i64,
    ) -> Result<(), Panic>
        requires { v < length self.old.vertices }
        ensures data { OnOk result (self.new ≡ with_ints self.old v x y z) }
        ensures chains { (w : ℕ) → chain_of self.new w ≡ chain_of self.old w }
        ensures names { map (λ w. w.name) self.new.vertices ≡ map (λ w. w.name) self.old.vertices }
        ensures fields { OnOk result (map (λ w. w.util) self.new.vertices
            ≡ at_place (put_numbers x y z) v (map (λ w. some_numbers w.util) self.old.vertices)) }
        ensures err { OnErr result (self.new ≡ self.old) }
        ensures memory { IsOkUnless result Panic.NoRoom }
    {
        self.vertices.put_numbers(alloc, v, x, y, z)?;
        Ok(())
    }

    /// Puts an integer into the graph's own utility field uu, which then holds integers (GB_GRAPH, util_types).
    pub fn set_uu(&mut self, value: i64)
        ensures data { self.new ≡ with_uu value self.old }
        ensures chains { (w : ℕ) → chain_of self.new w ≡ chain_of self.old w }
    {
        self.util[0] = Util::Int(value);
    }
}
