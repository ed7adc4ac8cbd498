//! The records of a file (GB_SAVE, save_graph).
ghost use Rattle.std.specs.Prelude.{◌≡◌, length, map};
ghost use Rattle.sgb_graph.specs.Columns.{arc_seen, util_seen, vertex_seen};
ghost use Rattle.sgb_file.specs.inner.Layouts.{AreLaidOut, stage};
ghost use Rattle.sgb_file.specs.inner.SavedLines.{arc_texts, graph_texts, vertex_texts};

use super::fields::{
    any_used, put_fields, put_integer, put_number, put_record_number, put_ref, put_string,
};
use super::layouts::Layout;
use crate::devices::{Failed, Sink};
use sgb_graph::{ArcRef, Graph, UtilRef, VertexRef};

// Writes the record of the graph.
pub(super) fn put_graph<W: Sink>(
    layout: &mut Layout,
    sink: &mut W,
    graph: &Graph,
) -> Result<(), Failed>
    requires { length graph.now.util ≡ 6 }
    ensures { AreLaidOut (graph_texts graph.now)
        (stage W.written W.has_failed sink.old layout.old)
        (stage W.written W.has_failed sink.new layout.new) result }
{
    let fields = graph_fields(graph);
    put_string(layout, sink, graph.id().bytes(), true)?;
    put_number(layout, sink, u64::from(graph.n()), true)?;
    put_number(layout, sink, graph.m(), any_used(&fields))?;
    put_fields(layout, sink, &fields)
}

// The graph's own fields.
pub(crate) fn graph_fields(graph: &Graph) -> [UtilRef<'_>; 6]
    requires { length graph.now.util ≡ 6 }
    ensures { map util_seen result ≡ graph.now.util }
{
    [
        graph.graph_util(0).seen(),
        graph.graph_util(1).seen(),
        graph.graph_util(2).seen(),
        graph.graph_util(3).seen(),
        graph.graph_util(4).seen(),
        graph.graph_util(5).seen(),
    ]
}

// Writes the record of a vertex.
pub(super) fn put_vertex<W: Sink>(
    layout: &mut Layout,
    sink: &mut W,
    vertex: VertexRef<'_>,
) -> Result<(), Failed>
    ensures { AreLaidOut (vertex_texts (vertex_seen vertex.entry))
        (stage W.written W.has_failed sink.old layout.old)
        (stage W.written W.has_failed sink.new layout.new) result }
{
    put_string(layout, sink, vertex.name.bytes(), true)?;
    put_record_number(layout, sink, vertex.arcs, any_used(&vertex.util))?;
    put_fields(layout, sink, &vertex.util)
}

// Writes an arc record.
pub(super) fn put_arc<W: Sink>(
    layout: &mut Layout,
    sink: &mut W,
    arc: ArcRef<'_>,
) -> Result<(), Failed>
    ensures { AreLaidOut (arc_texts (arc_seen arc.entry))
        (stage W.written W.has_failed sink.old layout.old)
        (stage W.written W.has_failed sink.new layout.new) result }
{
    let fields = [arc.a, arc.b];
    put_ref(layout, sink, arc.tip, true)?;
    put_record_number(layout, sink, arc.next, true)?;
    put_integer(layout, sink, arc.len, any_used(&fields))?;
    put_fields(layout, sink, &fields)
}
