//! The products of two graphs, on the pairs of their vertices (GB_BASIC, product).
ghost use Rattle.std.specs.Prelude.{◌≡◌, ◌≤◌, ◌*◌, [], ◌∷◌, length, decimal, nat_lt, Ok, Err, OnOk, IfOk, IsOkUnless};
ghost use Rattle.sgb_vec.specs.Limits.{most_vertices};
ghost use Rattle.sgb_graph.specs.Descriptions.{IsAnswerOf};
ghost use Rattle.sgb_graph.specs.Growth.{AddsEvents};
ghost use Rattle.sgb_graph.specs.Vertices.{order_of};
ghost use Rattle.sgb_ops.specs.Product.{product_events, product_graph_of, product_type, type_number};
ghost use Rattle.sgb_ops.specs.inner.Pairs.{HasRoomForPairs, names_of_pairs, paired_names, product_graph};
ghost use Rattle.sgb_ops.specs.inner.Compounds.{product_id};
ghost use Rattle.sgb_ops.specs.inner.Sources.{names_held};

// The steps from pair to pair.
mod steps;

use crate::compounds::flag_byte;
use crate::operands::{VertexNames, graph_with_room, push_joined_names};
use crate::sources::Source;
use sgb_graph::{Graph, Id, Names, double_compound_id};
use sgb_vec::{MOST_VERTICES, Panic};
use std::alloc::Global;
use steps::{add_both_steps, add_single_steps};

/// A product of two graphs (GB_BASIC, product): its vertices are the pairs of a vertex x of `first` and a vertex y of
/// `second`, in lexicographic order, each named by the names of both with a comma between, of which at most 2,047 bytes
/// count. Its arcs, or edges unless `directed`, step as those of the operands.
///
/// The cartesian product, where `kind` is 0, steps in the second coordinate (for each y, each arc of y, each x) and then
/// in the first one (for each x, each arc of x, each y). The direct product, where `kind` is odd, steps in both, with the
/// lesser length (for each pair, each arc of x, each arc of y). The strong product, for any other `kind`, has the steps of
/// the cartesian product and then those of the direct one. Of an edge the arc at the smaller end counts, and in the
/// direct product both arcs of each edge of `second`. The id is `product(ID1,ID2,kind,directed)`, with 0, 1 or 2 for the
/// kind.
///
/// `VeryBad` above 1,000,000,000 pairs, whatever memory there is. `NoRoom` when out of memory.
pub fn product(
    alloc: Global,
    first: &Graph,
    second: &Graph,
    kind: i64,
    directed: bool,
) -> Result<Graph, Panic>
    ensures answer { IsAnswerOf (product_graph_of first.now second.now kind directed) result }
    ensures refused { (e : Panic)
        → product_graph_of first.now second.now kind directed ≡ Err e → result ≡ Err e }
{
    product_of(
        alloc,
        &Source::built(first),
        &Source::built(second),
        kind,
        directed,
    )
}

/// The same of graphs that need not be built. The lists of each are gone through once, in order, and of the strong product
/// those of `first` twice; but where `kind` is not 0, those of `second` once for each vertex of `first`: so it is best built.
///
/// `VeryBad` above 1,000,000,000 pairs, whatever memory there is. `NoRoom` when out of memory.
pub fn product_of(
    alloc: Global,
    first: &Source<'_>,
    second: &Source<'_>,
    kind: i64,
    directed: bool,
) -> Result<Graph, Panic>
    ensures answer { IsAnswerOf (product_graph_of first.now second.now kind directed) result }
    ensures refused { (e : Panic)
        → product_graph_of first.now second.now kind directed ≡ Err e → result ≡ Err e }
{
    if have_too_many_pairs(first.n(), second.n()) {
        return Err(Panic::VeryBad);
    }
    product_of_few(alloc, first, second, ProductType::of(kind), directed)
}

/// Whether graphs of so many vertices have more than 1,000,000,000 pairs of them, so that `product` is refused.
pub fn have_too_many_pairs(first: u32, second: u32) -> bool
    ensures { result ≡ nat_lt most_vertices (first * second) }
{
    u64::from(first) * u64::from(second) > u64::from(MOST_VERTICES)
}

// The product of this type of two graphs that have not too many pairs of vertices.
fn product_of_few(
    alloc: Global,
    first: &Source<'_>,
    second: &Source<'_>,
    product_type: ProductType,
    directed: bool,
) -> Result<Graph, Panic>
    requires { order_of first.now * order_of second.now ≤ most_vertices }
    ensures { IsAnswerOf (Ok (product_graph product_type first.now second.now directed)) result }
{
    let names = names_of_pairs(alloc, first, second)?;
    let mut built = graph_with_room(alloc, names, product_type.records_of(first, second))?;
    product_type.add_steps(&mut built, alloc, first, second, directed)?;
    built.set_id(product_type.id(first.id(), second.id(), directed));
    Ok(built)
}

// The three products.
#[derive(Clone, Copy)]
enum ProductType {
    Cartesian,
    Direct,
    Strong,
}

impl ProductType {
    // The product of this kind.
    fn of(kind: i64) -> ProductType
        ensures { result ≡ product_type kind }
    {
        let size = kind.unsigned_abs();
        if size == 0 {
            return ProductType::Cartesian;
        }
        if size % 2 == 1 {
            return ProductType::Direct;
        }
        ProductType::Strong
    }

    // Its digit in ids.
    fn digit(self) -> u8
        ensures { (result ∷ []) ≡ decimal (type_number self) }
    {
        match self {
            ProductType::Cartesian => b'0',
            ProductType::Direct => b'1',
            ProductType::Strong => b'2',
        }
    }

    // The id of the result, made from the operands'.
    fn id(self, id1: &Id, id2: &Id, directed: bool) -> Id
        ensures { result ≡ product_id id1.now id2.now self directed }
    {
        let end = [b',', self.digit(), b',', flag_byte(directed), b')'];
        double_compound_id(b"product(", id1, b",", id2, &end)
    }

    // How many records its arcs take, where all arcs of the operands are known to be on lists. It is told for room alone.
    fn records_of(self, first: &Source<'_>, second: &Source<'_>) -> usize {
        let (m1, m2) = (first.most_arcs(), second.most_arcs());
        let beside = m1.saturating_mul(second.n() as usize);
        let along = m2.saturating_mul(first.n() as usize);
        let single = beside.saturating_add(along);
        let both = m1.saturating_mul(m2);
        match self {
            ProductType::Cartesian => single,
            ProductType::Direct => both,
            ProductType::Strong => single.saturating_add(both),
        }
    }

    // Adds the arcs of the product.
    fn add_steps(
        self,
        built: &mut Graph,
        alloc: Global,
        first: &Source<'_>,
        second: &Source<'_>,
        directed: bool,
    ) -> Result<(), Panic>
        requires room { HasRoomForPairs built.old (order_of first.now) (order_of second.now) }
        ensures ok { OnOk result (AddsEvents directed built.old built.new
            (product_events self first.now second.now directed)) }
        ensures memory { IsOkUnless result Panic.NoRoom }
    {
        match self {
            ProductType::Cartesian => add_single_steps(built, alloc, first, second, directed),
            ProductType::Direct => add_both_steps(built, alloc, first, second, directed),
            ProductType::Strong => {
                add_single_steps(built, alloc, first, second, directed)?;
                add_both_steps(built, alloc, first, second, directed)
            }
        }
    }
}

// The names of the pairs.
fn names_of_pairs(alloc: Global, first: &Source<'_>, second: &Source<'_>) -> Result<Names, Panic>
    ensures ok { IfOk result (λ names. names ≡ names_of_pairs first.now second.now) }
    ensures memory { IsOkUnless result Panic.NoRoom }
{
    let ours = first.vertex_names(alloc)?;
    let theirs = second.vertex_names(alloc)?;
    paired_names(alloc, &ours, first.n(), &theirs, second.n())
}

// The names of the pairs of `n` vertices of the first names and `h` of the second.
fn paired_names(
    alloc: Global,
    first: &VertexNames<'_>,
    n: u32,
    second: &VertexNames<'_>,
    h: u32,
) -> Result<Names, Panic>
    requires first { n ≡ length (names_held first.now) }
    requires second { h ≡ length (names_held second.now) }
    ensures ok { IfOk result (λ names. names
        ≡ paired_names (names_held first.now) (names_held second.now)) }
    ensures memory { IsOkUnless result Panic.NoRoom }
{
    let pairs = u64::from(n) * u64::from(h);
    let mut names = Names::with_capacity(alloc, pairs as usize)?;
    for x in 0..n {
        push_joined_names(alloc, &mut names, first.get(x), b",", second, h)?;
    }
    Ok(names)
}
