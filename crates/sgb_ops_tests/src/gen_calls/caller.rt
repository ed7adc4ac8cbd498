//! A caller of `sgb_gen`, as the page for callers shows it.
use sgb_gen::{Board, Links, board};
use sgb_vec::{Family, Panic, Vectors};
use std::alloc::Global;
use std::test::Fail;

/// How many arcs a vertex of a board has at most, from its vectors alone: no graph is built.
pub fn most_arcs(alloc: Global, board: &Board) -> Result<usize, Panic> {
    let mut links = Links::new(alloc);
    let mut most: usize = 0;
    for x in Vectors::all(board.family()) {
        // `arcs_at` wants a vector of the family
        if board.family().holds(x.as_slice()) {
            board.arcs_at(x.as_slice(), &mut links)?;
            most = most.max(links.len());
        }
    }
    Ok(most)
}

/// How many moves a knight has at most.
pub fn most_moves(alloc: Global) -> Result<usize, Panic> {
    let knights = Board::new(8, 8, 0, 0, 5, 0, false)?;
    most_arcs(alloc, &knights)
}

/// How many vertices and arcs the graph of its moves has, which is built.
pub fn built_size(alloc: Global) -> Result<(u32, u64), Panic> {
    let built = board(alloc, 8, 8, 0, 0, 5, 0, false)?;
    Ok((built.n(), built.m()))
}

#[test]
fn knights_have_eight_moves_at_most(rt: HostRuntime) -> Result<(), Fail> {
    assert!(rt; most_moves(rt.alloc())? == 8);
    assert!(rt; built_size(rt.alloc())? == (64, 336));
    Ok(())
}
