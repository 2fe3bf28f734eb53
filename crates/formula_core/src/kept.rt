//! A node with its stored results, and the changes of these.

ghost use Rattle.std.specs.Prelude.{◌≡◌, ◌-◌, true, length, take, None, Err};
ghost use Rattle.arrays_core.specs.declared.item.Kind.TheVariants.{Value};
ghost use Rattle.change_rules.specs.Currency.{applied};
ghost use Rattle.formula_core.specs.Changes.{FitsIn, each_with};
ghost use Rattle.arrays_core.specs.Outcomes.{fault};
ghost use Rattle.formula_core.specs.Holdings.{holding, holdings_of, can_be_lent, no_change, node_taking, IsFit, AllChangesFit};

use crate::lent_fault::unknown;
use crate::sums::{SumsDelta, take_sums_delta};
use crate::table::Node;
use arrays_core::{Array, Fault};
use index_region::Delta;
use sum_rules::LineSums;

/// A node of a formula with its stored results.
#[derive(Drop)]
pub(crate) struct Kept {
    /// The function and its operands.
    pub(crate) node: Node,
    /// The last result.
    pub(crate) result: Result<Array, Fault>,
    /// The sums of the argument's lines, if the node is a total of an array.
    pub(crate) sums: Option<LineSums>,
}

/// The change of a node.
#[derive(Drop)]
pub(crate) struct NodeChange {
    /// The change of its result.
    pub(crate) delta: Delta,
    /// The change of its sums.
    pub(crate) sums: SumsDelta,
}

impl Kept {
    /// Makes a node without a result: VALUE ERROR and no sums.
    pub(crate) fn new(node: Node) -> Kept
        ensures { result ≡ record { node = node; result = Err (fault Value); sums = None } }
    {
        Kept {
            node,
            result: Err(unknown()),
            sums: None,
        }
    }

    /// Applies a borrowed change in place. Allocates nothing.
    fn adopt_lent(&mut self, change: &NodeChange)
        requires fit { IsFit change.now (holding self.old) }
        requires lent { can_be_lent change.now ≡ true }
        ensures { self.new ≡ node_taking change.now self.old }
    {
        if let Delta::Patch(patch) = &change.delta {
            if let Ok(array) = &mut self.result {
                patch.write_into(array);
            }
        }
    }

    /// Applies a change. Allocates nothing.
    #[inline(always)]
    fn adopt(&mut self, change: NodeChange)
        requires { IsFit change (holding self.old) }
        ensures { self.new ≡ node_taking change self.old }
    {
        adopt_change(&mut self.result, change.delta);
        take_sums_delta(&mut self.sums, change.sums);
    }
}

impl NodeChange {
    /// Makes the change of a node whose result and sums stay.
    pub(crate) fn none() -> NodeChange
        ensures { result ≡ no_change }
    {
        NodeChange {
            delta: Delta::Same,
            sums: SumsDelta::Same,
        }
    }

    /// Returns whether the change can be applied while it is borrowed: nothing changes, or only items of the result.
    fn can_be_lent(&self) -> bool
        ensures { result ≡ can_be_lent self.now }
    {
        matches!(
            (&self.delta, &self.sums),
            (Delta::Same | Delta::Patch(_), SumsDelta::Same)
        )
    }
}

/// Applies a change to a result. Allocates nothing: a patch writes its items in place, and a tail brings the memory that its items may need.
fn adopt_change(held: &mut Result<Array, Fault>, change: Delta)
    requires { FitsIn change held.old }
    ensures { held.new ≡ applied change held.old }
{
    match change {
        Delta::Same => {}
        Delta::Whole(outcome) => *held = outcome,
        Delta::Patch(patch) => {
            if let Ok(array) = held {
                patch.write_into(array);
            }
        }
        Delta::Grown(tail) => {
            if let Ok(array) = held {
                tail.write_behind(array);
            }
        }
    }
}

/// Applies its change to each node and empties the list. A change that can be borrowed is not moved.
pub(crate) fn adopt_all(nodes: &mut Vec<Kept>, changes: &mut Vec<NodeChange>)
    requires each { length changes.old.items ≡ length nodes.old.items }
    requires fit { AllChangesFit changes.old.items (holdings_of nodes.old.items) }
    ensures { nodes.new.items ≡ each_with node_taking changes.old.items nodes.old.items }
{
    while !changes.is_empty() {
        let place = changes.len() - 1;
        if changes[place].can_be_lent() {
            nodes[place].adopt_lent(&changes[place]);
            remove_last(changes);
        } else if let Some(change) = changes.pop() {
            nodes[place].adopt(change);
        }
    }
}

/// Removes the last change. `truncate` would read all of it, and `pop` reads only the variant that is there.
#[inline(always)]
fn remove_last(changes: &mut Vec<NodeChange>)
    ensures { changes.new.items ≡ take (length changes.old.items - 1) changes.old.items }
{
    let _removed = changes.pop();
}
