//! The plan of a formula.

ghost use Rattle.std.specs.Prelude.{◌≡◌, ◌<◌, length};
ghost use Rattle.formula_core.specs.Plans.{root_change};

use crate::kept::NodeChange;
use change_core::Count;
use index_region::Delta;
use std::marker::Model;

/// The changes of the nodes of a formula from the first on, and their cost. The stored results stay meanwhile. The plan is whole once each node has
/// its change.
#[derive(Drop)]
pub struct Plan {
    pub(crate) changes: Vec<NodeChange>,
    pub(crate) cost: Count,
}

impl Model for Plan {
    ghost use Rattle.formula_core.specs.Plans.{PlanValue};

    ghost Value = { PlanValue };

    ghost view = { λ p. record { changes = p.changes.items; cost = p.cost } };
}

impl Plan {
    /// Returns the change of the formula's result: the change of the last node of a whole plan.
    pub fn delta(&self) -> &Delta
        requires { 0 < length self.now.changes }
        ensures { result.now ≡ root_change self.now.changes }
    {
        &self.changes[self.changes.len() - 1].delta
    }

    /// Returns the greatest number of items that may change, at most `u64::MAX`. A node adds the size of its changed box, or of its whole result.
    pub fn cost(&self) -> u64
        ensures { result ≡ self.now.cost }
    {
        self.cost.total()
    }
}
