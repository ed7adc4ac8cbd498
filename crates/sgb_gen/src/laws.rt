ghost use Rattle.std.specs.Prelude.{◌≡◌, ◌↔◌, ◌<◌, ◌≤◌, ◌*◌, ℕ, ℤ, List, Some, All, Contains, length, map, nat_abs, sum, sum_by, true, false};
ghost use Rattle.sgb_vec.specs.Lexicographic.{IsBelow, IsWithin};
ghost use Rattle.sgb_moves.specs.Displacements.{displacements};
ghost use Rattle.sgb_moves.specs.Moves.{LeadsTo, Side, is_elsewhere, opposite, place, places_count, rider_reach};
ghost use Rattle.sgb_gen.specs.Simplexes.{Places, can_move_unit, unit_moved};

/// The squares of each displacement of a piece add to the piece (GB_BASIC, board).
pub fn displacements_have_their_norm()
    ensures { (p d : ℕ) → All (λ t. sum_by (λ x. nat_abs x * nat_abs x) t ≡ p)
        (displacements p d) }
{}

/// A rider from a place of a board always stops, after as many steps as there are places at the latest; and the lengths
/// of its moves are those from 1 on up to which, at each length, the place exists and is not the one where it begins
/// (GB_BASIC, board).
pub fn riders_stop()
    ensures stops { (sides : List Side) (x : List ℕ) (t : List ℤ)
        → IsBelow x (map (λ s. s.size) sides)
        → is_elsewhere x (place sides x t (places_count sides)) ≡ false }
    ensures lengths { (sides : List Side) (x : List ℕ) (t : List ℤ) (l : ℕ)
        → IsBelow x (map (λ s. s.size) sides)
        → Contains (rider_reach sides x t) l ↔ (1 ≤ l)
        × ((k : ℕ) → 1 ≤ k → k ≤ l → is_elsewhere x (place sides x t k) ≡ true) }
{}

/// Each move from a place of a board leads to a place of the board (GB_BASIC, board).
pub fn moves_stay_on_board()
    ensures { (sides : List Side) (x : List ℕ) (t : List ℤ) (l : ℕ) (y : List ℕ)
        → IsBelow x (map (λ s. s.size) sides) → place sides x t l ≡ Some y
        → IsBelow y (map (λ s. s.size) sides) }
{}

/// A move leads from one place of a board to another exactly where one of the same length leads back by the opposite
/// displacement (GB_BASIC, board).
pub fn moves_turn_back()
    ensures { (sides : List Side) (piece : ℤ) (t : List ℤ) (x y : List ℕ) (l : ℕ)
        → IsBelow x (map (λ s. s.size) sides) → IsBelow y (map (λ s. s.size) sides)
        → LeadsTo sides piece y t l x ↔ LeadsTo sides piece x (opposite t) l y }
{}

/// A unit that goes to a higher place leaves a vector within its bounds and its sum as it is
/// (GB_BASIC, simplex).
pub fn shifts_stay_in_sum()
    ensures { (bounds v : List ℕ) (at : Places) → at.lower < at.higher → at.higher < length v
        → can_move_unit bounds v at.lower at.higher ≡ true → IsWithin v bounds
        → IsWithin (unit_moved v at.lower at.higher) bounds
        × (sum (unit_moved v at.lower at.higher) ≡ sum v) }
{}
