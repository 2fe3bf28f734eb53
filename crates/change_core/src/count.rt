//! A counter that saturates at the greatest number of 64 bits.

ghost use Rattle.std.specs.Prelude.{◌≡◌, ◌≤◌, ℕ};
ghost use Rattle.change_core.specs.Meters.{ticked};

use std::marker::Model;

/// A counter that saturates at the greatest number of 64 bits.
#[derive(Drop)]
pub struct Count {
    count: u64,
}

impl Model for Count {
    ghost Value = { ℕ };

    ghost view = { λ c. c.count };
}

impl Count {
    /// Returns a counter at 0.
    pub fn new() -> Self
        ensures { result ≡ 0 }
    {
        Count { count: 0 }
    }

    /// Adds a number of 32 bits.
    pub fn add(&mut self, more: u32)
        ensures exact { self.new ≡ ticked self.old more }
        ensures rises { self.old ≤ self.new }
    {
        self.count = self.count.saturating_add(u64::from(more));
    }

    /// Adds a number of 64 bits.
    pub fn add_many(&mut self, more: u64)
        ensures exact { self.new ≡ ticked self.old more }
        ensures rises { self.old ≤ self.new }
    {
        self.count = self.count.saturating_add(more);
    }

    /// Adds another counter.
    pub fn include(&mut self, other: &Count)
        ensures exact { self.new ≡ ticked self.old other.now }
        ensures rises { self.old ≤ self.new }
    {
        self.count = self.count.saturating_add(other.count);
    }

    /// Returns the count.
    pub fn total(&self) -> u64
        ensures { result ≡ self.now }
    {
        let Count { count } = self;
        *count
    }
}
