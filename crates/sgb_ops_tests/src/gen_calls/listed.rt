//! Calls that any generator's graph answers with nothing built, made of a board, a simplex and subsets.
use sgb_gen::{Board, Links, Listed, Simplex, Subsets};
use sgb_vec::Family;
use std::alloc::Global;

// Whether this vertex stands at this place, with a list of so many arcs.
fn has<'a, L: Listed<'a>>(
    listed: &mut L,
    alloc: Global,
    x: &[u32],
    place: u32,
    count: usize,
) -> bool {
    if !listed.family().holds(x) || listed.place_of(x) != place {
        return false;
    }
    let mut links = Links::new(alloc);
    listed.arcs_at(x, &mut links).is_ok() && links.len() == count
}

fn is_of_board(alloc: Global) -> bool {
    match Board::new(3, 4, 0, 0, 1, 0, false) {
        Ok(board) => has(&mut board.lists(&Links::new(alloc)), alloc, &[1, 1], 5, 4),
        Err(_) => false,
    }
}

fn is_of_simplex(alloc: Global) -> bool {
    match Simplex::new(alloc, 2, 0, 0, 0, 0, 0, false) {
        Ok(simplex) => has(&mut &simplex, alloc, &[2, 0, 0], 5, 2),
        Err(_) => false,
    }
}

fn is_of_subsets(alloc: Global) -> bool {
    match Subsets::new(alloc, 2, 1, -4, 0, 0, 0, 1, false) {
        Ok(subsets) => has(&mut &subsets, alloc, &[1, 1, 0, 0, 0], 9, 3),
        Err(_) => false,
    }
}

#[test]
fn lists_of_vertices(rt: HostRuntime) {
    let alloc = rt.alloc();
    assert!(rt; is_of_board(alloc) && is_of_simplex(alloc) && is_of_subsets(alloc));
}
