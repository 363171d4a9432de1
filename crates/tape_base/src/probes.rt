// Counting the steps of a search.
ghost use Rattle.std.specs.Prelude.{◌≡◌, ℕ, ◌+◌, ◌-◌, ◌^◌, min};

use std::marker::Model;

/// A counter of steps, seen as their number. It stays at 2^64 - 1.
#[derive(Debug, Drop)]
pub struct Steps {
    taken: u64,
}

impl Model for Steps {
    ghost Value = { ℕ };

    ghost view = { λ s. s.taken };
}

impl Steps {
    pub fn new() -> Steps
        ensures { result ≡ 0 }
    {
        Steps { taken: 0 }
    }

    pub fn tick(&mut self)
        ensures { self.new ≡ min (self.old + 1) (2 ^ 64 - 1) }
    {
        self.taken = self.taken.saturating_add(1);
    }

    pub fn count(&self) -> u64
        ensures { result ≡ self.now }
    {
        self.taken
    }
}
