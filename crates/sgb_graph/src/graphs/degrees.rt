//! How long the lists of some vertices are, followed side by side.
ghost use Rattle.std.specs.Prelude.{◌≡◌, ◌<◌, ◌+◌, ◌^◌, [], ◌∷◌, length, map};
ghost use Rattle.std.specs.Bool.{OnTrue, OnFalse};
ghost use Rattle.sgb_graph.specs.Graphs.{chain_of};

use super::{Arcs, Graph};

impl Graph {
    /// How many arcs the lists of vertex `v` and the seven after it have, where there are so many (GB_GRAPH, arcs field).
    ///
    /// The lists are followed side by side, each by a step in turn. The records of a list lie far apart, and each tells
    /// where the next one is: so the processor waits for eight of them at once.
    pub fn degrees(&self, v: u32) -> [usize; 8]
        requires { v + 7 < length self.now.vertices }
        ensures { result ≡ map (λ k. length (chain_of self.now (v + k)))
            (0 ∷ 1 ∷ 2 ∷ 3 ∷ 4 ∷ 5 ∷ 6 ∷ 7 ∷ []) }
    {
        prove!(v < self.n() && self.n() - v > 7);
        let mut first = DegreeSoFar::new(self.arcs(v));
        let mut second = DegreeSoFar::new(self.arcs(v + 1));
        let mut third = DegreeSoFar::new(self.arcs(v + 2));
        let mut fourth = DegreeSoFar::new(self.arcs(v + 3));
        let mut fifth = DegreeSoFar::new(self.arcs(v + 4));
        let mut sixth = DegreeSoFar::new(self.arcs(v + 5));
        let mut seventh = DegreeSoFar::new(self.arcs(v + 6));
        let mut eighth = DegreeSoFar::new(self.arcs(v + 7));
        let mut more = self.records_len() > 0;
        while more {
            more = first.step()
                | second.step()
                | third.step()
                | fourth.step()
                | fifth.step()
                | sixth.step()
                | seventh.step()
                | eighth.step();
        }
        [
            first.count,
            second.count,
            third.count,
            fourth.count,
            fifth.count,
            sixth.count,
            seventh.count,
            eighth.count,
        ]
    }

    /// A hint for who follows the lists of all vertices in order, at each vertex `v` before its list: at every eighth,
    /// those of the next eight are followed side by side. Their records are then at hand (GB_GRAPH, arcs field).
    ///
    /// It changes nothing, and takes no memory.
    pub fn read_ahead(&self, v: u32) {
        let n = self.n();
        if v % 8 == 0 && v < n && n - v > 7 {
            self.degrees(v);
        }
    }
}

// What is left of a vertex's list, and how many arcs were counted.
#[derive(Drop)]
struct DegreeSoFar<'a> {
    left: Arcs<'a>,
    count: usize,
}

impl<'a> DegreeSoFar<'a> {
    // A list, with no arc counted.
    fn new(left: Arcs<'a>) -> DegreeSoFar<'a>
        ensures left { result.left ≡ left.entry }
        ensures count { result.count ≡ 0 }
    {
        DegreeSoFar { left, count: 0 }
    }

    // Counts an arc, if one is left: whether there was one.
    fn step(&mut self) -> bool
        requires { self.old.count + length self.old.left < 2 ^ 64 }
        ensures whole { self.new.count + length self.new.left
            ≡ self.old.count + length self.old.left }
        ensures some { OnTrue result (length self.new.left + 1 ≡ length self.old.left) }
        ensures none { OnFalse result (length self.new.left ≡ 0) }
    {
        let some = self.left.next().is_some();
        self.count += usize::from(some);
        some
    }
}
