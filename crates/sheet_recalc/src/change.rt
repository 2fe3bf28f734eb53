//! Changes of a sheet: begun, made, and made in a list.

ghost use Rattle.std.specs.Prelude.{◌≡◌, ◌≤◌, IfOk, IfErr, OnOk, OnErr, map};
ghost use Rattle.sheet_recalc.specs.Changes.{Accepts, Refuses};
ghost use Rattle.sheet_recalc.specs.Costs.{HasCost, HasTicks, changed_name, expression_cost, IsStepCount};
ghost use Rattle.sheet_recalc.specs.Names.{Names};
ghost use Rattle.sheet_recalc.specs.History.{Run, change_of, sheet_state_of};
ghost use Rattle.sheet_recalc.specs.Pending.{IsBetweenSteps, IsPendingOn, steps_left};

use crate::pending::Pending;
use crate::refusal::Refusal;
use crate::sheet::Sheet;
use apl_expr::Change;
use change_core::Meter;
use names::Name;
use std::alloc::{AllocError, Global};
use std::collections::VecDeque;

impl Sheet {
    /// Begins a change, which `advance` works out by steps and `adopt` makes, or refuses it. The sheet stays the same.
    pub fn begin(&self, change: Change) -> Result<Pending, Refusal>
        ensures ok { IfOk result (IsPendingOn self.now (change_of change)) }
        ensures steps { IfOk result (λ pending. (new : Names) × Accepts self.now.names (change_of change) new × IsStepCount new (changed_name (change_of change)) (steps_left pending)) }
        ensures ticks { IfOk result (λ pending. pending.ticks ≤ expression_cost self.now.names (change_of change)) }
        ensures between { IfOk result IsBetweenSteps }
        ensures refused { IfErr result (Refuses self.now.names (change_of change)) }
    {
        self.begin_lent(&change)
    }

    /// Begins a borrowed change, as `begin` does.
    pub fn begin_lent(&self, change: &Change) -> Result<Pending, Refusal>
        ensures ok { IfOk result (IsPendingOn self.now (change_of change.now)) }
        ensures steps { IfOk result (λ pending. (new : Names) × Accepts self.now.names (change_of change.now) new × IsStepCount new (changed_name (change_of change.now)) (steps_left pending)) }
        ensures ticks { IfOk result (λ pending. pending.ticks ≤ expression_cost self.now.names (change_of change.now)) }
        ensures between { IfOk result IsBetweenSteps }
        ensures refused { IfErr result (Refuses self.now.names (change_of change.now)) }
    {
        let mut meter = Meter::new();
        let proposal = self.proposal_of(change, &mut meter)?;
        self.propose(name_of(change), proposal, meter)
    }

    /// Makes a change as `define`, `data`, `set_cell`, `add_row` and `erase` do, or refuses it.
    pub fn apply(&mut self, change: Change) -> Result<(), Refusal>
        ensures ok { OnOk result (Accepts self.old.names (change_of change) self.new.names) }
        ensures cost { OnOk result (HasCost self.old.names (change_of change) self.new.names self.new.cost) }
        ensures ticks { OnOk result (HasTicks self.old.names (change_of change) self.new.names self.new.ticks) }
        ensures refused { IfErr result (Refuses self.old.names (change_of change)) }
        ensures err { OnErr result (self.new ≡ self.old) }
    {
        self.apply_lent(&change)
    }

    /// Makes a borrowed change, as `apply` does.
    #[inline(always)]
    pub fn apply_lent(&mut self, change: &Change) -> Result<(), Refusal>
        ensures ok { OnOk result (Accepts self.old.names (change_of change.now) self.new.names) }
        ensures cost { OnOk result (HasCost self.old.names (change_of change.now) self.new.names self.new.cost) }
        ensures ticks { OnOk result (HasTicks self.old.names (change_of change.now) self.new.names self.new.ticks) }
        ensures refused { IfErr result (Refuses self.old.names (change_of change.now)) }
        ensures err { OnErr result (self.new ≡ self.old) }
    {
        let mut meter = Meter::new();
        let proposal = self.proposal_of(change, &mut meter)?;
        self.make_change(name_of(change), proposal, meter)
    }

    /// Makes changes in their order, and returns the answer to each. With no memory for the list of answers, nothing changes.
    pub fn apply_all(
        &mut self,
        mut changes: VecDeque<Change>,
    ) -> Result<Vec<Result<(), Refusal>>, AllocError>
        ensures run { IfOk result (λ answers. Run (sheet_state_of self.old) (map change_of changes.items) answers.items (sheet_state_of self.new)) }
        ensures err { OnErr result (self.new ≡ self.old) }
    {
        let mut answers = Vec::with_capacity(self.alloc(), changes.len())?;
        while let Some(change) = changes.pop_front() {
            let answer = self.apply(change);
            answers.push(answer).unwrap();
        }
        Ok(answers)
    }
}

/// Returns the name that a change is about.
fn name_of(change: &Change) -> Name
    ensures { result ≡ changed_name (change_of change.now) }
{
    match change {
        Change::Define(name, _) => *name,
        Change::Data(name, _) => *name,
        Change::Cell(name, _, _) => *name,
        Change::Row(name, _) => *name,
        Change::Erase(name) => *name,
    }
}
