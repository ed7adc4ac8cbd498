ghost use Rattle.std.specs.Prelude.{◌≡◌, ◌≢◌, ℕ, ℤ, min, max, ◌+◌, ◌-◌, ◌*◌, ◌%◌, ◌<◌, ◌≤◌, ◌==◌, ◌++◌, [], ◌∷◌, Bool, true, false, List, length, Some, Ok, Err, slice_get, Contains, count_by, IsTrue, All, ◌↔◌};
ghost use Rattle.sgb_graph.specs.Graphs.{GraphData, ListsEnd, chain_of};
ghost use Rattle.sgb_vec.specs.declared.panics.Panic.TheVariants.{Syntax};
ghost use Rattle.sgb_graph.specs.Descriptions.{Description, IsGraphOf};
ghost use Rattle.sgb_graph.specs.Parts.{checked};
ghost use Rattle.sgb_graph.specs.Sound.{IsGraph};
ghost use Rattle.sgb_graph.specs.Made.{graph_described, plain};
ghost use Rattle.sgb_graph.specs.Events.{Event, HasArcsOf, HasEndsBelow, Record, all_records, list_of};
ghost use Rattle.sgb_graph.specs.Growth.{AddsEvents, KeepsAllButArcs, link, new_graph, with_arc, with_edge, with_events, with_id};
ghost use Rattle.sgb_graph.specs.declared.fields.Link.{Link};
ghost use Rattle.sgb_graph.specs.IdTexts.{is_id_text};
ghost use Rattle.sgb_vec.specs.Names.{IsTextByte};
ghost use Rattle.sgb_graph.specs.Draws.{IsUniformDraw, difference, draw, first_taken, modulus, most_tried, used_draw, x_number, y_number};

/// The random numbers by their rules (GB_FLIP, gb_init_rand and gb_flip_cycle): number 55 is the seed,
/// number 21k mod 55 is Y(k), and each later number is the 55th before it less the 24th before it.
pub fn random_numbers_law()
    ensures seed { (seed : ℕ) → x_number seed 55 ≡ y_number seed 0 }
    ensures first { (seed k : ℕ) → 1 ≤ k → k ≤ 54 → x_number seed (21 * k % 55) ≡ y_number seed k }
    ensures later { (seed n : ℕ) → 55 < n → x_number seed n
        ≡ difference (x_number seed (n - 55)) (x_number seed (n - 24)) }
{}

/// The first draw of some that is not thrown away makes the uniform draw below `m`; for `m` from 1 to 2^31 one of any
/// 1760 draws in a row is not thrown away, and there is no other uniform draw (GB_FLIP, gb_unif_rand).
pub fn uniform_draw_law()
    ensures first { (seed m k many last : ℕ) → first_taken seed m k many ≡ Some last
        → IsUniformDraw seed m k (draw seed last % m) last }
    ensures found { (seed m k : ℕ) → 1 ≤ m → m ≤ modulus → first_taken seed m k most_tried
        ≡ Some (used_draw seed m k) }
    ensures taken { (seed m k : ℕ) → 1 ≤ m → m ≤ modulus
        → IsUniformDraw seed m k (draw seed (used_draw seed m k) % m) (used_draw seed m k) }
    ensures only { (seed m k number last : ℕ) → 1 ≤ m → m ≤ modulus
        → IsUniformDraw seed m k number last
        → (last ≡ used_draw seed m k) × (number ≡ draw seed last % m) }
{}

/// A new arc is in front of the list of its start; the other lists stay, each list ends as before, and all but the arcs
/// is as it was (GB_GRAPH, gb_new_arc).
pub fn new_arc_law()
    ensures chain { (g : GraphData) (u v : ℕ) (len : ℤ) → ListsEnd g → u < length g.vertices
        → chain_of (with_arc g u v len) u ≡ link (length g.records) v len ∷ chain_of g u }
    ensures others { (g : GraphData) (u v w : ℕ) (len : ℤ) → ListsEnd g → u < length g.vertices
        → w ≢ u → chain_of (with_arc g u v len) w ≡ chain_of g w }
    ensures ends { (g : GraphData) (u v : ℕ) (len : ℤ) → ListsEnd g → u < length g.vertices
        → ListsEnd (with_arc g u v len) }
    ensures rest { (g : GraphData) (u v : ℕ) (len : ℤ) → KeepsAllButArcs g (with_arc g u v len) }
{}

/// A new edge is in front of the lists of its ends, the lower record on that of the smaller one; a loop is twice in front
/// of its list, the lower record first. The other lists stay, each list ends as before, and all but the arcs is as it was
/// (GB_GRAPH, gb_new_edge).
pub fn new_edge_law()
    ensures loops { (g : GraphData) (u : ℕ) (len : ℤ) → ListsEnd g → u < length g.vertices
        → chain_of (with_edge g u u len) u
        ≡ link (length g.records) u len ∷ link (length g.records + 1) u len ∷ chain_of g u }
    ensures smaller { (g : GraphData) (u v : ℕ) (len : ℤ) → ListsEnd g → u < length g.vertices
        → v < length g.vertices → u ≢ v → chain_of (with_edge g u v len) (min u v)
        ≡ link (length g.records) (max u v) len ∷ chain_of g (min u v) }
    ensures greater { (g : GraphData) (u v : ℕ) (len : ℤ) → ListsEnd g → u < length g.vertices
        → v < length g.vertices → u ≢ v → chain_of (with_edge g u v len) (max u v)
        ≡ link (length g.records + 1) (min u v) len ∷ chain_of g (max u v) }
    ensures others { (g : GraphData) (u v w : ℕ) (len : ℤ) → ListsEnd g → u < length g.vertices
        → v < length g.vertices → w ≢ u → w ≢ v
        → chain_of (with_edge g u v len) w ≡ chain_of g w }
    ensures ends { (g : GraphData) (u v : ℕ) (len : ℤ) → ListsEnd g → u < length g.vertices
        → v < length g.vertices → ListsEnd (with_edge g u v len) }
    ensures rest { (g : GraphData) (u v : ℕ) (len : ℤ) → KeepsAllButArcs g (with_edge g u v len) }
{}

/// New arcs, one for each event in order, leave the graph of the events (GB_GRAPH, gb_new_arc).
pub fn arcs_law()
    ensures none { (names : List (List ℕ)) → HasArcsOf true [] (new_graph names) }
    ensures more { (events : List Event) (e : Event) (g : GraphData)
        → HasArcsOf true events g → HasEndsBelow (length g.vertices) e
        → HasArcsOf true (events ++ e ∷ []) (with_arc g e.from e.to e.len) }
    ensures all { (names : List (List ℕ)) (events : List Event)
        → All (HasEndsBelow (length names)) events
        → HasArcsOf true events (with_events true (new_graph names) events) }
{}

/// New edges, one for each event in order, leave the graph of the events (GB_GRAPH, gb_new_edge).
pub fn edges_law()
    ensures none { (names : List (List ℕ)) → HasArcsOf false [] (new_graph names) }
    ensures more { (events : List Event) (e : Event) (g : GraphData)
        → HasArcsOf false events g → HasEndsBelow (length g.vertices) e
        → HasArcsOf false (events ++ e ∷ []) (with_edge g e.from e.to e.len) }
    ensures all { (names : List (List ℕ)) (events : List Event)
        → All (HasEndsBelow (length names)) events
        → HasArcsOf false events (with_events false (new_graph names) events) }
{}

/// Events that are added one after another add all of them, in order; added to a new graph they make the graph of
/// the events (GB_GRAPH, gb_new_arc and gb_new_edge).
pub fn events_law()
    ensures none { (directed : Bool) (g : GraphData) → AddsEvents directed g g [] }
    ensures more { (directed : Bool) (first second third : GraphData) (events others : List Event)
        → AddsEvents directed first second events → AddsEvents directed second third others
        → AddsEvents directed first third (events ++ others) }
    ensures arcs { (directed : Bool) (names : List (List ℕ)) (events : List Event) (g : GraphData)
        → AddsEvents directed (new_graph names) g events → HasArcsOf directed events g }
    ensures graph { (directed : Bool) (names : List (List ℕ)) (events : List Event) (g : GraphData)
        (id : List ℕ)
        → AddsEvents directed (new_graph names) g events
        → IsGraphOf (plain directed events names id) (with_id id g) }
{}

/// The list of a vertex has each record of the events that starts there, once, and nothing else.
pub fn lists_law()
    ensures each { (directed : Bool) (events : List Event) (k : ℕ) (r : Record)
        → slice_get (all_records directed events) k ≡ Some r
        → Contains (list_of directed events r.start) (link k r.tip r.len) }
    ensures only { (directed : Bool) (events : List Event) (v : ℕ) (l : Link)
        → Contains (list_of directed events v) l
        → slice_get (all_records directed events) l.number
        ≡ Some (record { start = v; tip = l.tip; len = l.len }) }
    ensures once { (directed : Bool) (events : List Event) (v : ℕ)
        → length (list_of directed events v)
        ≡ count_by (λ r. r.start == v) (all_records directed events) }
{}

/// A description makes one graph, and no other graph is the one that it describes.
pub fn described_law()
    ensures only { (d : Description) (g : GraphData) → IsGraphOf d g → g ≡ graph_described d }
    ensures is { (d : Description)
        → All (HasEndsBelow (length d.names)) d.events → length d.fields ≡ length d.names
        → IsGraphOf d (graph_described d) }
{}

/// A text passes the test for ids exactly where each of its bytes may stand in a string (GB_SAVE).
pub fn id_texts_law()
    ensures { (text : List ℕ) → IsTrue (is_id_text text) ↔ All IsTextByte text }
{}

/// Parts that make up a graph are that graph, and others are refused (GB_SAVE, restore_graph).
pub fn parts_law()
    ensures graph { (g : GraphData) → IsGraph g → checked g ≡ Ok g }
    ensures other { (g : GraphData) → ¬ IsGraph g → checked g ≡ Err Syntax }
{}
