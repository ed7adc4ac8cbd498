/// The parameters of a board, with their official names (GB_BASIC, board): `n1` to `n4` tell the sizes, `piece` the
/// moves, where 0 stands for 1 and a negative piece rides, bit k-1 of `wrap` whether coordinate k wraps around, and
/// `directed` whether a move is an arc or an edge.
///
/// Any values are parameters; of these no board is made: `Bad` above 250 dimensions; else `VeryBad` above
/// 1,000,000,000 vertices, or where `piece` is above 2,147,483,647 or below its negative.
#[derive(Clone, Copy, Debug, PartialEq, Eq)]
pub struct BoardParams {
    pub n1: i64,
    pub n2: i64,
    pub n3: i64,
    pub n4: i64,
    pub piece: i64,
    pub wrap: i64,
    pub directed: bool,
}

/// The parameters of a simplex, with their official names (GB_BASIC, simplex): the sum `n` of its vectors, `n0` to
/// `n4`, which tell the bounds, and `directed`, whether a move is an arc or an edge.
///
/// Any values are parameters; of these no simplex is made: `Bad` where `n` is negative, else above 250 dimensions; else
/// `VeryBad` where `n` is above 1,000,000,000, or where for some j from 1 to the last dimension and some k up to `n`
/// more than 1,000,000,000 vectors within the first j+1 bounds add to k.
#[derive(Clone, Copy, Debug, PartialEq, Eq)]
pub struct SimplexParams {
    pub n: i64,
    pub n0: i64,
    pub n1: i64,
    pub n2: i64,
    pub n3: i64,
    pub n4: i64,
    pub directed: bool,
}

/// The parameters of subsets, with their official names (GB_BASIC, subsets): the sum `n` of their vectors, `n0` to
/// `n4`, which tell the bounds, `size_bits`, whose bit c is 1 where two subsets with c elements in common are joined,
/// and `directed`, whether they are joined by an arc or an edge.
///
/// Any values are parameters; some are refused, as those of a simplex are: see `SimplexParams`.
#[derive(Clone, Copy, Debug, PartialEq, Eq)]
pub struct SubsetsParams {
    pub n: i64,
    pub n0: i64,
    pub n1: i64,
    pub n2: i64,
    pub n3: i64,
    pub n4: i64,
    pub size_bits: u128,
    pub directed: bool,
}

/// A graph of one of the three generators, by its parameters.
#[derive(Clone, Copy, Debug, PartialEq, Eq)]
pub enum Generator {
    Board(BoardParams),
    Simplex(SimplexParams),
    Subsets(SubsetsParams),
}
