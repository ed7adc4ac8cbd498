//! A caller of `sgb_arrays`, as the page for callers shows it.
use sgb_arrays::{Wrong, fill_rows, rows_of_run};
use sgb_gen::{Board, Local, complete};
use sgb_graph::Graph;
use sgb_vec::Panic;
use std::alloc::Global;
use std::test::Fail;

/// Where the arcs of a graph of three vertices and six arcs lead, vertex by vertex.
pub fn tips_of_a_triangle(graph: &Graph) -> Result<[u32; 6], Wrong> {
    let mut starts = [0; 4];
    let mut tips = [0; 6];
    let mut lengths = [0; 6];
    fill_rows(graph, 0, 3, &mut starts, &mut tips, &mut lengths)?;
    Ok(tips)
}

/// A row of a thousand million squares, with steps of one square.
pub fn row_of_squares() -> Result<Local, Panic> {
    let row = Board::new(1_000_000_000, 0, 0, 0, 1, 0, false)?;
    Ok(Local::Board(row))
}

/// Where the arcs of one vertex of a generator's graph lead. The graph is not built.
pub fn neighbors_of(alloc: Global, local: &Local, vertex: u32) -> Result<Vec<u32>, Wrong> {
    let rows = rows_of_run(alloc, local, vertex, 1)?;
    Ok(rows.tips)
}

#[test]
fn the_tips_of_a_triangle(rt: HostRuntime) -> Result<(), Fail> {
    let triangle = complete(3).graph(rt.alloc())?;
    assert!(rt; tips_of_a_triangle(&triangle) == Ok([2, 1, 2, 0, 1, 0]));
    Ok(())
}

#[test]
fn a_line_has_fewer(rt: HostRuntime) -> Result<(), Fail> {
    let line = complete(2).graph(rt.alloc())?;
    assert!(rt; tips_of_a_triangle(&line) == Err(Wrong::Vertices));
    Ok(())
}

#[test]
fn the_neighbors_of_a_square(rt: HostRuntime) -> Result<(), Fail> {
    let row = row_of_squares()?;
    let tips = neighbors_of(rt.alloc(), &row, 999_999_998).unwrap_or(Vec::new(rt.alloc()));
    assert!(rt; tips.as_slice() == [999_999_999, 999_999_997].as_slice());
    assert!(rt; neighbors_of(rt.alloc(), &row, 1_000_000_000) == Err(Wrong::Vertices));
    Ok(())
}
