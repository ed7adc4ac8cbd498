//! What holds of all graphs' arrays.
ghost use Rattle.std.specs.Prelude.{◌≡◌, ◌<◌, ◌+◌, ◌++◌, ℕ, ℤ, List, map};
ghost use Rattle.sgb_graph.specs.Graphs.{GraphData, chain_of};
ghost use Rattle.sgb_arrays.specs.Lists.{part_by_starts};
ghost use Rattle.sgb_arrays.specs.Runs.{AreNames, AreRows, parts_of};
ghost use Rattle.sgb_graph.specs.Vertices.{name_at};

/// In arrays that hold the lists of a run, the list of its vertex k is what stands from its start up to the next one; in
/// those that hold its names, the name of that vertex stands so.
pub fn parts_law()
    ensures tips { (g : GraphData) (first count k : ℕ) (starts tips : List ℕ) (lengths : List ℤ)
        → AreRows g first count starts tips lengths → k < count
        → part_by_starts tips starts k ≡ map (λ l. l.tip) (chain_of g (first + k)) }
    ensures lengths { (g : GraphData) (first count k : ℕ) (starts tips : List ℕ) (lengths : List ℤ)
        → AreRows g first count starts tips lengths → k < count
        → part_by_starts lengths starts k ≡ map (λ l. l.len) (chain_of g (first + k)) }
    ensures names { (g : GraphData) (first count k : ℕ) (starts bytes : List ℕ)
        → AreNames g first count starts bytes → k < count
        → part_by_starts bytes starts k ≡ name_at g (first + k) }
{}

/// Two runs one after the other are one.
pub fn runs_join_law()
    ensures arcs { (g : GraphData) (first a b : ℕ) → parts_of (chain_of g) first (a + b)
        ≡ parts_of (chain_of g) first a ++ parts_of (chain_of g) (first + a) b }
    ensures names { (g : GraphData) (first a b : ℕ) → parts_of (name_at g) first (a + b)
        ≡ parts_of (name_at g) first a ++ parts_of (name_at g) (first + a) b }
{}
