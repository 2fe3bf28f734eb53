//! Changes in steps.

ghost use Rattle.std.specs.Prelude.{◌≡◌, min};
ghost use Rattle.sheet_recalc.specs.Pending.{steps_left};

use crate::budget::Budget;
use crate::growth::Growth;
use crate::plans::Plans;
use crate::proposal::Proposal;
use change_core::Meter;
use names::Name;

/// A change that is worked out by steps, with all the memory of making it.
#[derive(Drop)]
pub struct Pending {
    pub(crate) name: Name,
    pub(crate) proposal: Proposal,
    pub(crate) plans: Plans,
    pub(crate) growth: Option<Box<Growth>>,
    /// The number of steps left, one for each function.
    pub(crate) left: u128,
    /// The budget of the next step. It is spent if a step applied its function, and had no memory to plan what follows.
    pub(crate) budget: Budget,
    /// The number of items that the finished steps have computed.
    pub(crate) ticks: u64,
    /// The items computed, a step that was cut off included.
    pub(crate) meter: Meter,
}

impl Pending {
    /// Returns the number of steps left, one for each function; at most the greatest number of 32 bits.
    pub fn left(&self) -> u32
        ensures { result ≡ min (steps_left self.now) 4294967295 }
    {
        u32::try_from(self.left).unwrap_or(u32::MAX)
    }
}
