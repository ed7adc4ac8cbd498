//! What is done with a generator's graph, whichever generator it is of: its accepted parameters are matched here alone.
//!
//! A visitor is passed by value, so that it may hold the room that it needs, as `FamilyListing` its links; what a
//! contract speaks of, as a sink, is its state. `Visit` has the graph's type as a parameter, and not its method: the
//! checker states no method whose own bound names its lifetime.
ghost use Rattle.sgb_gen.specs.VectorGraphs.{VectorGraph};
ghost use Rattle.sgb_gen.specs.Generators.{sort_of, vector_graph_of};
ghost use Rattle.sgb_gen.specs.Sorts.{Sort};

use crate::accepted::{BoardLists, Simplex, Subsets};
use crate::listed::Listed;
use crate::locals::Local;

/// What is done with a generator's graph, whichever generator it is of. `S` is what it changes beside its answer.
pub trait Visitor<S> {
    /// What comes of it.
    type Answer;

    // What is needed before, of the graph, of which generator it is from, and of the state.
    ghost needs: { Self → VectorGraph → Sort → S → Type 0 };

    // What comes of it: of the graph and its generator, of the state before and after, and of the answer.
    ghost gives: { Self → VectorGraph → Sort → S → S → Self.Answer → Type 0 };
}

/// A visitor that does it with a graph by what a listing asks of it.
pub trait Visit<'a, L: Listed<'a>, S>: Visitor<S> {
    /// Does it. What the lists have in common is not made yet: where lists are made, `prepare` comes first.
    fn visit(self, listed: &mut L, state: &mut S) -> Self::Answer
        requires { Self.needs self (L.graph listed.old) (L.sort listed.old) state.old }
        ensures { Self.gives self (L.graph listed.old) (L.sort listed.old) state.old state.new
            result };
}

impl Local {
    /// Does with the generator's graph what the visitor does with each. No graph is built, and no memory is taken but by the
    /// visitor.
    pub fn visit<'a, S, V>(&'a self, visitor: V, state: &mut S) -> V::Answer
    where
        V: Visitor<S>
            + Visit<'a, BoardLists<'a>, S>
            + Visit<'a, &'a Simplex, S>
            + Visit<'a, &'a Subsets, S>,
        requires { V.needs visitor (vector_graph_of self.now) (sort_of self.now) state.old }
        ensures { V.gives visitor (vector_graph_of self.now) (sort_of self.now) state.old state.new
            result }
    {
        match self {
            Local::Board(board) => {
                let mut listed = BoardLists::new(board);
                visitor.visit(&mut listed, state)
            }
            Local::Simplex(simplex) => {
                let mut listed = simplex;
                visitor.visit(&mut listed, state)
            }
            Local::Subsets(subsets) => {
                let mut listed = subsets;
                visitor.visit(&mut listed, state)
            }
        }
    }
}
