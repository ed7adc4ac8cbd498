//! What holds of distances and of answers: functions with nothing in them, whose contracts say so.
ghost use Rattle.std.specs.Prelude.{◌≡◌, ℕ, List, Option, Result};
ghost use Rattle.sgb_expr.specs.Expression.{Expression};
ghost use Rattle.sgb_graph.specs.Graphs.{GraphData};
ghost use Rattle.sgb_requests.specs.declared.faults.Fault.{Fault};
ghost use Rattle.sgb_levels.specs.Distances.{AreDistances};
ghost use Rattle.sgb_levels.specs.Program.{AreLevelsOn};

/// In each graph there are the distances from its first vertex, and no others; and so to each expression an answer on
/// each input, and no other.
pub fn distances_law()
    ensures distances { (g : GraphData) → (distances : List (Option ℕ)) × AreDistances g 0 distances
        × ((others : List (Option ℕ)) → AreDistances g 0 others → others ≡ distances) }
    ensures answer { (e : Expression) (input : List ℕ) → (answer : Result (List ℕ) Fault)
        × AreLevelsOn input e answer
        × ((other : Result (List ℕ) Fault) → AreLevelsOn input e other → other ≡ answer) }
{}
