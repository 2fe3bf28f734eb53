//! The work of a recalculation: computed items, and joins of partial sums.

ghost use Rattle.std.specs.Prelude.{◌≡◌, ◌+◌, ◌≤◌};
ghost use Rattle.change_core.specs.Meters.{ticked};

use crate::count::Count;
use std::marker::Model;

/// Counts the items that were computed, and the joins of partial sums made for them.
#[derive(Drop)]
pub struct Meter {
    ticks: Count,
    joins: Count,
}

impl Model for Meter {
    ghost use Rattle.change_core.specs.Meters.{MeterValue};

    ghost Value = { MeterValue };

    ghost view = { λ m. record { ticks = m.ticks; joins = m.joins } };
}

impl Meter {
    /// Returns a meter at 0.
    pub fn new() -> Self
        ensures { result ≡ record { ticks = 0; joins = 0 } }
    {
        Meter {
            ticks: Count::new(),
            joins: Count::new(),
        }
    }

    /// Counts one item.
    pub fn tick(&mut self)
        ensures exact { self.new ≡ record { ticks = ticked self.old.ticks 1; joins = self.old.joins } }
        ensures by_one { self.new.ticks ≤ self.old.ticks + 1 }
        ensures rises { self.old.ticks ≤ self.new.ticks }
    {
        self.ticks.add(1);
    }

    /// Counts several items.
    pub fn add(&mut self, items: u32)
        ensures exact { self.new ≡ record { ticks = ticked self.old.ticks items; joins = self.old.joins } }
        ensures rises { self.old.ticks ≤ self.new.ticks }
    {
        self.ticks.add(items);
    }

    /// Counts several joins of partial sums.
    pub fn count_joins(&mut self, joins: u64)
        ensures { self.new ≡ record { ticks = self.old.ticks; joins = ticked self.old.joins joins } }
    {
        self.joins.add_many(joins);
    }

    /// Adds the counts of another meter.
    pub fn include(&mut self, other: &Meter)
        ensures exact { self.new ≡ record { ticks = ticked self.old.ticks other.now.ticks; joins = ticked self.old.joins other.now.joins } }
        ensures rises { self.old.ticks ≤ self.new.ticks }
    {
        self.ticks.include(&other.ticks);
        self.joins.include(&other.joins);
    }

    /// Returns the number of items.
    pub fn ticks(&self) -> u64
        ensures { result ≡ self.now.ticks }
    {
        self.ticks.total()
    }

    /// Returns the number of joins.
    pub fn joins(&self) -> u64
        ensures { result ≡ self.now.joins }
    {
        self.joins.total()
    }
}
