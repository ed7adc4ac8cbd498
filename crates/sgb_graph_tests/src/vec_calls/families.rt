//! Calls that any family answers, made of a box and of a bounded sum.
use sgb_vec::{BoxFamily, Family, SumFamily, Vector, Vectors};
use std::alloc::Global;

// How many vectors a walk comes to.
fn count_of<F: Family>(family: &F) -> u32 {
    let mut count: u32 = 0;
    for _vector in Vectors::all(family) {
        count = count.saturating_add(1);
    }
    count
}

// Whether there are so many vectors, and this one stands at this place.
fn has<F: Family>(family: &F, size: u32, place: u32, vector: &[u32]) -> bool {
    let mut there = Vector::new();
    family.size() == size
        && count_of(family) == size
        && family.at(place, &mut there)
        && there.as_slice() == vector
        && family.holds(vector)
}

// Whether it is so of a box.
fn is_of_box() -> bool {
    match BoxFamily::new(&[2, 3]) {
        Ok(family) => has(&family, 6, 4, &[1, 1]),
        Err(_) => false,
    }
}

// Whether it is so of a bounded sum.
fn is_of_sum(alloc: Global) -> bool {
    match SumFamily::new(alloc, 3, &[2, 2, 2]) {
        Ok(family) => has(&family, 7, 3, &[1, 1, 1]),
        Err(_) => false,
    }
}

#[test]
fn families_of_both_kinds(rt: HostRuntime) {
    assert!(rt; is_of_box() && is_of_sum(rt.alloc()));
}
