ghost use Rattle.std.specs.Prelude.{◌≡◌, ◌<◌, All, length, map};
ghost use Rattle.sgb_graph.specs.Columns.{arc_seen, util_seen, vertex_seen};
ghost use Rattle.sgb_file.specs.Saved.{ArcCanBeSaved, CanBeSaved, ValueCanBeSaved, VertexCanBeSaved, number_limit};

use crate::saving::graph_fields;
use sgb_graph::{ArcRef, Graph, Kind, UtilRef, VertexRef};

/// Every graph can be saved whose numbers of arcs and of arc records have at most 18 digits (GB_SAVE,
/// save_graph).
pub fn graphs_can_be_saved(graph: &Graph)
    requires arcs { graph.now.m < number_limit }
    requires records { length graph.now.records < number_limit }
    ensures { CanBeSaved graph.now }
{
    // What a type keeps, as that a name is a text, is known of a value that is read. So each part is read once.
    let _n = graph.n();
    let _id = graph.id().bytes();
    are_fourteen(&graph.kinds());
    values_can_be_saved(&graph_fields(graph));
    vertices_can_be_saved(graph);
    records_can_be_saved(graph);
}

// There are fourteen kinds.
fn are_fourteen(kinds: &[Kind; 14])
    ensures { length kinds.now ≡ 14 }
{}

// The vertices can be saved.
fn vertices_can_be_saved(graph: &Graph)
    ensures { All VertexCanBeSaved graph.now.vertices }
{
    for v in 0..graph.n() {
        vertex_can_be_saved(graph.vertex(v));
    }
}

// The arc records can be saved.
fn records_can_be_saved(graph: &Graph)
    ensures { All ArcCanBeSaved graph.now.records }
{
    for k in 0..graph.records_len() {
        arc_can_be_saved(graph.arc_rec(k));
    }
}

// The name and the fields of a vertex can be saved.
fn vertex_can_be_saved(vertex: VertexRef<'_>)
    ensures { VertexCanBeSaved (vertex_seen vertex.entry) }
{
    let _name = vertex.name.bytes();
    values_can_be_saved(&vertex.util);
}

// The values of a vertex's fields can be saved.
fn values_can_be_saved(values: &[UtilRef<'_>; 6])
    ensures { All ValueCanBeSaved (map util_seen values.now) }
{
    for value in values {
        value_can_be_saved(*value);
    }
}

// The length and the fields of an arc record can be saved.
fn arc_can_be_saved(arc: ArcRef<'_>)
    ensures { ArcCanBeSaved (arc_seen arc.entry) }
{
    let _len = arc.len;
    value_can_be_saved(arc.a);
    value_can_be_saved(arc.b);
}

// The value of a field can be saved.
fn value_can_be_saved(value: UtilRef<'_>)
    ensures { ValueCanBeSaved (util_seen value.entry) }
{
    match value {
        UtilRef::Int(number) => {
            let _number = number;
        }
        UtilRef::Str(text) => {
            let _bytes = text.bytes();
        }
        UtilRef::Nothing | UtilRef::Vertex(_) | UtilRef::Chain(_) => {}
    }
}
