/// Why an array is not filled, or there are none. Arrays that were handed in are then as they were.
#[derive(Clone, Copy, Debug, PartialEq, Eq)]
pub enum Wrong {
    /// An array has another length than it must have.
    Length,
    /// The vertices have no such field, or it holds no integers.
    Field,
    /// No uniform number can be below this bound.
    Bound,
    /// Vertices of the run are none of the graph.
    Vertices,
    /// Out of memory.
    NoRoom,
}
