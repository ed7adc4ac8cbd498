ghost use Rattle.std.specs.Prelude.{◌≡◌, ◌≢◌, ◌⊎◌, ◌<◌, ◌≤◌, ◌+◌, ◌-◌, ◌++◌, ℕ, Bool, false, true, List, length, map, reverse, sum_by, flat_map, All, AllPairs, Contains, Err, Some, slice_get};
ghost use Rattle.std.specs.List.{list_any, range_with_len};
ghost use Rattle.sgb_vec.specs.declared.panics.Panic.TheVariants.{Invalid};
ghost use Rattle.sgb_graph.specs.Events.{Event, HasArcsOf};
ghost use Rattle.sgb_graph.specs.Graphs.{GraphData};
ghost use Rattle.sgb_graph.specs.Ids.{compound_id, cut_id, double_compound_id, most_id_bytes};
ghost use Rattle.sgb_ops.specs.Copies.{own_copies};
ghost use Rattle.sgb_ops.specs.Entries.{copies_of, is_unnumbered, merged_count, size_of_entry};
ghost use Rattle.sgb_ops.specs.Lines.{is_of_edges, line_graph_of, lines_of_graph};
ghost use Rattle.sgb_ops.specs.Merged.{IsShortest, first_ones, has_ends_of, merged, named_ends};
ghost use Rattle.sgb_taken.specs.Taken.{edges_up_from, lower_record, taken};
ghost use Rattle.sgb_ops.specs.declared.induced_graphs.entries.Entry.{Entry};
ghost use Rattle.sgb_ops.specs.declared.induced_graphs.entries.Entry.TheVariants as entry;

/// An arc that is taken of a vertex for an undirected result leads to no vertex before it (GB_BASIC, gunion).
pub fn taken_lead_up()
    ensures { (g : GraphData) (v : ℕ) → All (λ l. v ≤ l.tip) (taken false g v) }
{}

/// The arcs taken of a vertex of a graph of edges for an undirected result are, of each edge with this smaller end, its
/// lower record, once; later edges come first (GB_BASIC, gunion).
pub fn taking_law()
    ensures { (events : List Event) (g : GraphData) (v : ℕ) → HasArcsOf false events g
        → v < length g.vertices
        → taken false g v ≡ reverse (map lower_record (edges_up_from v events)) }
{}

/// Of merged events no two have the same ends (GB_BASIC, gunion).
pub fn merged_are_apart()
    ensures { (directed : Bool) (events : List Event)
        → AllPairs (λ e f. has_ends_of directed e f ≡ false) (merged directed events) }
{}

/// Of all events with the same ends one is left, at the first one's place, with the least length of them all, and
/// nothing else is left (GB_BASIC, gunion).
pub fn merging_law()
    ensures each { (directed : Bool) (events : List Event) (e : Event) → Contains events e
        → (f : Event) × Contains (merged directed events) f × (has_ends_of directed e f ≡ true) }
    ensures first { (directed : Bool) (events : List Event)
        → map named_ends (merged directed events) ≡ map named_ends (first_ones directed events) }
    ensures least { (directed : Bool) (events : List Event)
        → All (IsShortest directed events) (merged directed events) }
{}

/// The copies of the vertices that are not merged, one after another, are all vertices of the result after the merged ones, in
/// order; each is a copy of one vertex only, and a merged one of those that have its number (GB_BASIC, induced).
pub fn copies_law()
    ensures all { (entries : List Entry) → list_any is_unnumbered entries ≡ false
        → flat_map (own_copies entries) (range_with_len 0 (length entries))
        ≡ range_with_len (merged_count entries) (sum_by size_of_entry entries) }
    ensures apart { (entries : List Entry) (u v w : ℕ) → list_any is_unnumbered entries ≡ false
        → Contains (copies_of entries v) u → Contains (copies_of entries w) u
        → (v ≡ w) ⊎ ((slice_get entries v ≡ Some (entry.Merged (u + 1)))
        × (slice_get entries w ≡ Some (entry.Merged (u + 1)))) }
{}

/// The line graph of a graph of edges is never refused for its edges: each line has its way back, and the lines are as many
/// as the edges (GB_BASIC, lines).
pub fn lines_law()
    ensures { (events : List Event) (g : GraphData) → HasArcsOf false events g
        → (is_of_edges g (lines_of_graph g false) ≡ true)
        × (line_graph_of g false ≢ Err Invalid) }
{}

/// The ids of operands stand whole in the id of a result where that has at most 160 bytes. Else one operand's is cut, so
/// that the result's has 160; of two both are cut, to the same number of bytes or one more of the second, so that the
/// result's has room for 159 (GB_GRAPH, make_compound_id and make_double_compound_id).
pub fn compound_ids_law()
    ensures one_fits { (s1 id s2 : List ℕ) → length (s1 ++ id ++ s2) ≤ most_id_bytes
        → compound_id s1 id s2 ≡ s1 ++ id ++ s2 }
    ensures one_is_cut { (s1 id s2 : List ℕ) → length (s1 ++ s2) ≤ 151
        → most_id_bytes < length (s1 ++ id ++ s2)
        → (k : ℕ) × (compound_id s1 id s2 ≡ s1 ++ cut_id k id ++ s2)
        × (length (s1 ++ cut_id k id ++ s2) ≡ most_id_bytes) }
    ensures both_fit { (s1 id1 s2 id2 s3 : List ℕ)
        → length (s1 ++ id1 ++ s2 ++ id2 ++ s3) ≤ most_id_bytes
        → double_compound_id s1 id1 s2 id2 s3 ≡ s1 ++ id1 ++ s2 ++ id2 ++ s3 }
    ensures both_are_cut { (s1 id1 s2 id2 s3 : List ℕ) → length (s1 ++ s2 ++ s3) ≤ 151
        → most_id_bytes < length (s1 ++ id1 ++ s2 ++ id2 ++ s3)
        → (k j : ℕ) × (k ≤ j) × (j ≤ k + 1)
        × (length (s1 ++ s2 ++ s3) + (k + 4) + (j + 4) ≡ most_id_bytes - 1)
        × (double_compound_id s1 id1 s2 id2 s3
        ≡ s1 ++ cut_id k id1 ++ s2 ++ cut_id j id2 ++ s3) }
{}
