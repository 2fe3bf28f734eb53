//! The values of names after a change, before it is made.

ghost use Rattle.std.specs.Prelude.{◌≡◌, ℕ, IfOk, OnOk, OnErr, IsSome, MatchBool, MatchOption, Some, None, List};
ghost use Rattle.std.specs.List.{Contains};
ghost use Rattle.arrays_core.specs.Outcomes.{Outcome};
ghost use Rattle.formula_core.specs.Meaning.{names_in};
ghost use Rattle.formula_core.specs.Inputs.{IsInput};
ghost use Rattle.formula_core.specs.Plans.{PlanValue, IsTold};
ghost use Rattle.index_region.specs.declared.delta.Delta.{Delta as AnyDelta};
ghost use Rattle.change_rules.specs.Currency.{applied};
ghost use Rattle.sheet_recalc.specs.declared.budget.Budget.TheVariants.{Spent};
ghost use Rattle.sheet_recalc.specs.declared.entry.Entry.TheVariants.{Formula as FormulaEntry};
ghost use Rattle.sheet_recalc.specs.declared.plans.Plans.{Plans};
ghost use Rattle.sheet_recalc.specs.Costs.{origin_delta};
ghost use Rattle.sheet_recalc.specs.Meaning.{with_origin};
ghost use Rattle.sheet_recalc.specs.ProposedSheet.{outline_of, proposed_change, entry_of};
ghost use Rattle.sheet_recalc.specs.Planning.{IsAhead, HasItsPlan, IsInputOf, AreInputsOf, IsNext, IsPaid, IsStopped, IsPlanAt};
ghost use Rattle.sheet_recalc.specs.Live.{plan_in};

use crate::budget::Budget;
use crate::evaluation::{Inputs, lent};
use crate::plans::Found;
use crate::proposal::Proposal;
use crate::proposed_sheet::ProposedSheet;
use change_core::Meter;
use formula_core::{Formula, Input, LentFault, Plan};
use index_region::Delta;
use names::Name;
use smallvec::SmallVec;
use std::alloc::{AllocError, Global};

/// The values of names after a change: the sheet as it is, and the plans so far.
#[derive(Drop)]
pub(crate) struct Ahead<'a, 'b> {
    pub(crate) proposed: &'b ProposedSheet<'a>,
    pub(crate) found: &'b Found,
    /// The change of a name that shows the same as before: none.
    pub(crate) unchanged: &'b Delta,
    /// The formula of the newest plan, which is at `place` of the map: most often the next formula refers to its name.
    pub(crate) last: Option<&'b Formula>,
    pub(crate) place: usize,
}

/// Returns the plan of a name. Compares the name where the map has only one, and hashes it otherwise.
fn plan_in<'a>(found: &'a Found, name: &Name) -> Option<&'a Plan>
    ensures { MatchOption result (plan_in found.now.entries name.now ≡ None) (λ plan. plan_in found.now.entries name.now ≡ Some plan.now) }
{
    if let [only] = found.keys().as_slice() {
        if *name != *only {
            return None;
        }
    }
    match found.get(name) {
        Some(plan) => plan.as_ref(),
        None => None,
    }
}

impl<'a, 'b> Ahead<'a, 'b> {
    /// Applies functions of a formula within the budget, and starts its plan if there is none. Returns true if the plan is whole. The input of one
    /// name takes no memory.
    #[inline(always)]
    pub(crate) fn work(
        &self,
        alloc: Global,
        formula: &Formula,
        current: &mut Option<Plan>,
        budget: &mut Budget,
        meter: &mut Meter,
    ) -> Result<bool, AllocError>
        requires ahead { IsAhead self.now }
        requires next { (base left : ℕ) × (w : Plans) × IsNext (outline_of self.now.proposed.now) base left w formula.now current.old meter.old.ticks }
        requires done { (x : List ℕ) → Contains (names_in formula.now.tree) x → HasItsPlan (outline_of self.now.proposed.now) (plan_in self.now.found.now.entries) x }
        ensures way { (base left : ℕ) (w : Plans) → IsNext (outline_of self.now.proposed.now) base left w formula.now current.old meter.old.ticks
            → (rest : ℕ) × IsNext (outline_of self.now.proposed.now) base rest w formula.now current.new meter.new.ticks × IsPaid (outline_of self.now.proposed.now) budget.old budget.new left rest meter.old.ticks meter.new.ticks }
        ensures whole { IfOk result (λ is_whole. IsStopped formula.now current.new is_whole budget.new) }
    {
        match formula.references() {
            [one] => self.apply(formula, &[self.input_of(one)], current, budget, meter),
            _ => self.work_on_many(alloc, formula, current, budget, meter),
        }
    }

    /// Does the work of a formula with any number of references. Inputs of up to four names take no memory. Not inlined: the path of one reference
    /// must not clear four inputs on its stack.
    #[inline(never)]
    fn work_on_many<'c>(
        &'c self,
        alloc: Global,
        formula: &'c Formula,
        current: &mut Option<Plan>,
        budget: &mut Budget,
        meter: &mut Meter,
    ) -> Result<bool, AllocError>
        requires ahead { IsAhead self.now }
        requires next { (base left : ℕ) × (w : Plans) × IsNext (outline_of self.now.proposed.now) base left w formula.now current.old meter.old.ticks }
        requires done { (x : List ℕ) → Contains (names_in formula.now.tree) x → HasItsPlan (outline_of self.now.proposed.now) (plan_in self.now.found.now.entries) x }
        ensures way { (base left : ℕ) (w : Plans) → IsNext (outline_of self.now.proposed.now) base left w formula.now current.old meter.old.ticks
            → (rest : ℕ) × IsNext (outline_of self.now.proposed.now) base rest w formula.now current.new meter.new.ticks × IsPaid (outline_of self.now.proposed.now) budget.old budget.new left rest meter.old.ticks meter.new.ticks }
        ensures whole { IfOk result (λ is_whole. IsStopped formula.now current.new is_whole budget.new) }
    {
        let references = formula.references();
        let mut inputs: Inputs = SmallVec::new(alloc);
        for reference in references {
            inputs.push(self.input_of(reference))?;
        }
        self.apply(formula, inputs.as_slice(), current, budget, meter)
    }

    /// Applies functions of a formula with these inputs, one for each of its references.
    fn apply(
        &self,
        formula: &Formula,
        inputs: &[Input],
        current: &mut Option<Plan>,
        budget: &mut Budget,
        meter: &mut Meter,
    ) -> Result<bool, AllocError>
        requires ahead { IsAhead self.now }
        requires told { IsTold formula.now (proposed_change (outline_of self.now.proposed.now)) inputs.now }
        requires next { (base left : ℕ) × (w : Plans) × IsNext (outline_of self.now.proposed.now) base left w formula.now current.old meter.old.ticks }
        ensures way { (base left : ℕ) (w : Plans) → IsNext (outline_of self.now.proposed.now) base left w formula.now current.old meter.old.ticks
            → (rest : ℕ) × IsNext (outline_of self.now.proposed.now) base rest w formula.now current.new meter.new.ticks × IsPaid (outline_of self.now.proposed.now) budget.old budget.new left rest meter.old.ticks meter.new.ticks }
        ensures whole { IfOk result (λ is_whole. IsStopped formula.now current.new is_whole budget.new) }
    {
        self.start(formula, inputs, current)?;
        let Some(plan) = current else {
            return Ok(false);
        };
        while !formula.is_whole(plan) {
            if budget.is_spent() {
                return Ok(false);
            }
            formula.advance(plan, inputs, meter)?;
            budget.pay();
        }
        Ok(true)
    }

    /// Starts the plan of a formula, if there is none.
    #[inline(always)]
    fn start(
        &self,
        formula: &Formula,
        inputs: &[Input],
        current: &mut Option<Plan>,
    ) -> Result<(), AllocError>
        requires ahead { IsAhead self.now }
        requires told { IsTold formula.now (proposed_change (outline_of self.now.proposed.now)) inputs.now }
        ensures way { OnOk result ((base left ticks : ℕ) (w : Plans) → IsNext (outline_of self.now.proposed.now) base left w formula.now current.old ticks
            → IsNext (outline_of self.now.proposed.now) base left w formula.now current.new ticks) }
        ensures some { OnOk result (IsSome current.new) }
        ensures err { OnErr result (current.new ≡ current.old) }
    {
        if current.is_none() {
            *current = Some(formula.start(inputs)?);
        }
        Ok(())
    }

    /// Returns the input of a name: its value and its change. Compares the name with that of the newest plan before a lookup.
    #[inline(always)]
    fn input_of<'c>(&'c self, name: &'c Name) -> Input<'c>
        requires ahead { IsAhead self.now }
        requires done { HasItsPlan (outline_of self.now.proposed.now) (plan_in self.now.found.now.entries) name.now }
        ensures { IsInputOf (outline_of self.now.proposed.now) name.now result }
    {
        match (self.last, self.found.get_index(self.place)) {
            (Some(formula), Some((there, Some(plan)))) if *there == *name => {
                self.by_plan(there, formula, plan)
            }
            _ => self.looked_up(name),
        }
    }

    /// Returns the input of a name by lookups.
    fn looked_up<'c>(&'c self, name: &'c Name) -> Input<'c>
        requires ahead { IsAhead self.now }
        requires done { HasItsPlan (outline_of self.now.proposed.now) (plan_in self.now.found.now.entries) name.now }
        ensures { IsInputOf (outline_of self.now.proposed.now) name.now result }
    {
        if *name == self.proposed.name {
            let name = &self.proposed.name;
            return match self.proposed.proposal {
                Proposal::Data(delta) => Input::of(lent(self.proposed.entries, name), delta),
                Proposal::Removed => Input::Bad {
                    fault: LentFault::unknown(),
                    changed: true,
                },
                Proposal::Formula(formula) => match plan_in(self.found, name) {
                    Some(plan) => self.by_plan(name, formula, plan),
                    None => unreachable!(),
                },
            };
        }
        let Some(plan) = plan_in(self.found, name) else {
            return Input::of(lent(self.proposed.entries, name), self.unchanged);
        };
        match self.proposed.formula_of(*name) {
            Some(formula) => self.by_plan(name, formula, plan),
            None => unreachable!(),
        }
    }

    /// Returns the input of a name by its formula and plan.
    fn by_plan<'c>(&self, name: &'c Name, formula: &'c Formula, plan: &'c Plan) -> Input<'c>
        requires ahead { IsAhead self.now }
        requires held { entry_of (outline_of self.now.proposed.now) name.now ≡ Some (FormulaEntry formula.now) }
        requires plan { IsPlanAt (outline_of self.now.proposed.now) name.now plan.now }
        ensures { IsInputOf (outline_of self.now.proposed.now) name.now result }
    {
        with_origin(name, Input::of(formula.lent(), plan.delta()))
    }
}

/// Gives the error of a formula's result the name as its origin.
fn with_origin<'a>(name: &'a Name, input: Input<'a>) -> Input<'a>
    ensures { (held : Outcome) (d : AnyDelta) → IsInput (applied d held) d input.entry → IsInput (with_origin name.now (applied d held)) (origin_delta name.now d) result }
{
    match input {
        Input::Good(array, delta) => Input::Good(array, delta),
        Input::Bad { fault, changed } => Input::Bad {
            fault: fault.arisen_in(name),
            changed,
        },
    }
}
