//! How many coordinates a walk visits.
ghost use Rattle.std.specs.Prelude.{◌≡◌, ◌<◌, ◌+◌, ◌^◌};

use std::marker::Model;

/// A count of visits of coordinates, from 0 on: a visit is one turn of a loop over the entries of a vector. Contracts
/// see it as the count.
#[derive(Drop)]
pub struct Steps {
    visits: u64,
}

impl Model for Steps {
    ghost use Rattle.std.specs.Prelude.{ℕ};

    ghost Value = { ℕ };

    ghost view = { λ s. s.visits };
}

impl Steps {
    /// No visit yet.
    pub fn new() -> Steps
        ensures { result ≡ 0 }
    {
        Steps { visits: 0 }
    }

    /// How many visits there were.
    pub fn count(&self) -> u64
        ensures { result ≡ self.now }
    {
        self.visits
    }

    // One visit more.
    pub(crate) fn visit(&mut self)
        requires { self.old + 1 < 2 ^ 64 }
        ensures { self.new ≡ self.old + 1 }
    {
        self.visits += 1;
    }
}
