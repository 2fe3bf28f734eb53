//! The sheet.

ghost use Rattle.std.specs.Prelude.{◌≡◌, ◌+◌, ◌-◌, ◌<◌, ◌≤◌, ℕ, List, min, true, [], IfOk, IfErr, OnOk, OnErr, Ok, Some, None, IsSome, is_some, if◌then◌else◌};
ghost use Rattle.std.specs.Map.{keys_of};
ghost use Rattle.std.specs.Option.{option_map};
ghost use Rattle.apl_expr.specs.Trees.{tree_of, literal_of};
ghost use Rattle.arrays_core.specs.Arrays.{ArrayValue};
ghost use Rattle.formula_core.specs.Outcomes.{read};
ghost use Rattle.formula_core.specs.Meaning.{eval};
ghost use Rattle.sheet_recalc.specs.Names.{Names, binding, IsSheet};
ghost use Rattle.sheet_recalc.specs.Meaning.{val, IsOnlySolution};
ghost use Rattle.sheet_recalc.specs.Pending.{IsBetweenSteps, IsPendingOn, IsProposalOf, steps_left};
ghost use Rattle.sheet_recalc.specs.Changes.{SheetChange, Accepts, Refuses, Define, Store, Put, SetCell, AddRow, Erase};
ghost use Rattle.sheet_recalc.specs.Costs.{HasCost, HasTicks, changed_name, IsStepCost, IsStepCount};
ghost use Rattle.sheet_recalc.specs.History.{change_of};

use crate::budget::Budget;
use crate::cell::cell_patch;
use crate::commit::make;
use crate::entry::{Entry, data_of};
use crate::growth::growth_for;
use crate::pending::Pending;
use crate::planning::{begun, functions_in, run};
use crate::plans::Plans;
use crate::proposal::Proposal;
use crate::proposed_sheet::ProposedSheet;
use crate::refusal::Refusal;
use crate::row::row_behind;
use apl_expr::{Change, Expr, Literal};
use arrays_core::{Array, Fault};
use change_core::Meter;
use dep_order::Users;
use formula_core::{Formula, Shows, evaluate, evaluate_counted, unknown};
use index_region::Delta;
use indexmap::IndexMap;
use indexmap::map::Keys;
use names::Name;
use std::alloc::{AllocError, Global};
use std::cell::Cell;
use std::marker::Model;

/// The most names of a sheet. A new name is refused where this many are present.
pub const MOST_NAMES: usize = 1024;

/// Names bound to data or to formulas, in the order in which they were first bound. Each result of each formula is current.
/// A run begins with one sheet, and every line of it reads or changes that sheet.
#[derive(Drop)]
pub struct Sheet {
    alloc: Global,
    entries: IndexMap<Name, Entry>,
    users: Users<Name>,
    /// The cost of the last change.
    cost: u64,
    /// The number of items computed in the last change.
    ticks: u64,
    /// The last change was an edit of the last name in `room`.
    edited: bool,
    /// The memory of the plans of the next change, with the names that the last change reached: an edit of the same name reaches the same.
    room: Plans,
    /// The memory of the plans of the next change in steps. Its contents do not matter.
    step_room: Cell<Plans>,
}

impl Model for Sheet {
    ghost use Rattle.sheet_recalc.specs.Names.{SheetValue};

    ghost Value = { SheetValue };

    ghost use Rattle.std.specs.Coded.{codes};
    ghost use Rattle.apl_expr.specs.Laws.Codes.{coded_tree};
    ghost use Rattle.sheet_recalc.specs.Laws.Codes.{coded_binding};
    ghost use Rattle.sheet_recalc.specs.contracts.entry.Entry as entry_row;
    ghost use Rattle.indexmap.specs.Layout.{hash_map_code};

    ghost coded = { Prim.hlevel (codes, coded_tree, coded_binding, entry_row.the_row.coded, hash_map_code) };

    ghost use Rattle.sheet_recalc.specs.Entries.{names_of};
    ghost use Rattle.sheet_recalc.specs.Live.{IsKeptBySheet};

    ghost view = { λ s. record { names = names_of s.entries.entries; cost = s.cost; ticks = s.ticks; tables = record { entries = s.entries; users = s.users } } };

    ghost invariant = { λ s. IsKeptBySheet s.entries.entries s.users.entries s.cost s.ticks s.edited s.room.found.entries };
}

impl Shows for Sheet {
    ghost use Rattle.sheet_recalc.specs.Meaning.{val};

    ghost shows = { λ s. val s.names };

    fn result_of(&self, name: Name) -> Result<&Array, Fault> {
        match self.value(name) {
            Some(result) => result,
            None => Err(unknown()),
        }
    }
}

impl Sheet {
    /// Makes a sheet without names.
    pub fn new(alloc: Global) -> Sheet
        ensures names { result.names ≡ [] }
        ensures cost { result.cost ≡ 0 }
        ensures ticks { result.ticks ≡ 0 }
    {
        Sheet {
            alloc,
            entries: IndexMap::new(alloc),
            users: IndexMap::new(alloc),
            cost: 0,
            ticks: 0,
            edited: false,
            room: Plans::none(alloc),
            step_room: Cell::new(Plans::none(alloc)),
        }
    }

    /// Returns the value of a name: the array or the error, with the name where it arose, that evaluating all formulas from scratch gives. None for an
    /// absent name. No other assignment of values to names satisfies all formulas.
    pub fn value(&self, name: Name) -> Option<Result<&Array, Fault>>
        ensures is { option_map read result ≡ (if is_some (binding self.now.names name) then Some (val self.now.names name) else None) }
        ensures solution { IsOnlySolution self.now.names }
        ensures sound { IsSheet self.now.names }
    {
        match self.entries.get(&name) {
            Some(entry) => Some(entry.result(name)),
            None => None,
        }
    }

    /// Returns the names, in the order in which they were first bound: no two are equal, none reaches itself by references, and there are at most
    /// `MOST_NAMES`.
    #[tactic(auto, using(crate::proofs::Live::keys_of_names))]
    pub fn names(&self) -> Keys<'_, Name, Entry>
        ensures names { result ≡ keys_of self.now.names }
        ensures sound { IsSheet self.now.names }
    {
        self.entries.keys()
    }

    /// Returns the cost of the last change: for each result of each formula the places worked out again, at most. 0 before the first change; at most the
    /// greatest number of 64 bits.
    pub fn last_cost(&self) -> u64
        ensures { result ≡ self.now.cost }
    {
        self.cost
    }

    /// Returns the number of items of results computed in the last change, however long one takes.
    pub fn last_ticks(&self) -> u64
        ensures is { result ≡ self.now.ticks }
        ensures at_most { self.now.ticks ≤ self.now.cost }
    {
        self.ticks
    }

    /// Evaluates an expression with the values of the names.
    pub fn show(&self, tree: &Expr) -> Result<Result<Array, Fault>, AllocError>
        ensures { IfOk result (λ outcome. outcome ≡ eval (tree_of tree.now) (val self.now.names)) }
    {
        evaluate(self.alloc, tree, self)
    }

    /// Binds a name to a formula. This is no assignment of ISO/IEC 13751: the name follows its references.
    pub fn define(&mut self, name: Name, tree: Expr) -> Result<(), Refusal>
        ensures ok { OnOk result (Accepts self.old.names (Define name (tree_of tree)) self.new.names) }
        ensures cost { OnOk result (HasCost self.old.names (Define name (tree_of tree)) self.new.names self.new.cost) }
        ensures ticks { OnOk result (HasTicks self.old.names (Define name (tree_of tree)) self.new.names self.new.ticks) }
        ensures refused { IfErr result (Refuses self.old.names (Define name (tree_of tree))) }
        ensures err { OnErr result (self.new ≡ self.old) }
    {
        self.apply_lent(&Change::Define(name, tree))
    }

    /// Does one step of a change begun on this sheet: applies one function, and plans until the next has to be applied. Returns the number of steps
    /// left; where none was, does nothing. The step computes no more items than some one function of the change costs. With no memory, the number of
    /// steps left and the items counted stay the same.
    pub fn advance(&self, pending: &mut Pending) -> Result<u32, AllocError>
        requires { (change : SheetChange) × IsPendingOn self.now change pending.old }
        ensures left { IfOk result (λ n. n ≡ min (steps_left pending.new) 4294967295) }
        ensures one { OnOk result (steps_left pending.new ≡ steps_left pending.old - 1) }
        ensures kept { (change : SheetChange) → IsPendingOn self.now change pending.old → IsPendingOn self.now change pending.new }
        ensures ticks { OnOk result (0 < steps_left pending.old → (change : SheetChange) → IsPendingOn self.now change pending.old → (cost : ℕ) × IsStepCost self.now.names change cost × (pending.new.ticks ≤ pending.old.ticks + cost)) }
        ensures rises { pending.old.ticks ≤ pending.new.ticks }
        ensures between { OnOk result (IsBetweenSteps pending.new) }
        ensures none { steps_left pending.old ≡ 0 → pending.new ≡ pending.old }
        ensures err { OnErr result (steps_left pending.new ≡ steps_left pending.old) }
        ensures err_ticks { OnErr result (pending.new.ticks ≡ pending.old.ticks) }
    {
        if pending.left == 0 {
            return Ok(0);
        }
        let proposed = ProposedSheet {
            entries: &self.entries,
            name: pending.name,
            proposal: &pending.proposal,
        };
        run(
            self.alloc,
            &proposed,
            &mut pending.plans,
            &mut pending.budget,
            &mut pending.meter,
        )?;
        pending.budget = Budget::One;
        pending.left -= 1;
        pending.ticks = pending.meter.ticks();
        Ok(pending.left())
    }

    /// Makes a change begun on this sheet, with no step left. It takes no memory.
    #[inline(always)]
    pub fn adopt(&mut self, pending: Pending)
        requires begun { (change : SheetChange) × IsPendingOn self.old change pending }
        requires left { steps_left pending ≡ 0 }
        ensures made { (change : SheetChange) → IsPendingOn self.old change pending → Accepts self.old.names change self.new.names }
        ensures cost { (change : SheetChange) → IsPendingOn self.old change pending → HasCost self.old.names change self.new.names self.new.cost }
        ensures ticks { self.new.ticks ≡ pending.ticks }
        ensures computed { (change : SheetChange) → IsPendingOn self.old change pending → HasTicks self.old.names change self.new.names self.new.ticks }
    {
        let Pending {
            name,
            proposal,
            mut plans,
            growth,
            ticks,
            ..
        } = pending;
        self.cost = plans.cost;
        self.ticks = ticks;
        make(
            &mut self.entries,
            &mut self.users,
            name,
            proposal,
            &mut plans.found,
            plans.places.as_slice(),
            growth,
        );
        self.edited = false;
        self.step_room.set(plans);
    }

    /// Plans a proposal formula by formula, and makes it. The meter has the cost of finding the proposal.
    pub(crate) fn make_change(
        &mut self,
        name: Name,
        proposal: Proposal,
        meter: Meter,
    ) -> Result<(), Refusal>
        requires { (change : SheetChange) × IsProposalOf self.old change name proposal meter.ticks }
        ensures made { OnOk result ((change : SheetChange) → IsProposalOf self.old change name proposal meter.ticks
            → Accepts self.old.names change self.new.names × HasCost self.old.names change self.new.names self.new.cost × HasTicks self.old.names change self.new.names self.new.ticks) }
        ensures refused { IfErr result (λ cause. (change : SheetChange) → IsProposalOf self.old change name proposal meter.ticks → Refuses self.old.names change cause) }
        ensures err { OnErr result (self.new ≡ self.old) }
    {
        let spent = meter.ticks();
        let proposed = ProposedSheet {
            entries: &self.entries,
            name,
            proposal: &proposal,
        };
        // The plans are made in place.
        let plans = &mut self.room;
        let is_edit = proposal.is_edit();
        let is_known = plans.keep_reach(self.edited, &name);
        self.edited = false;
        begun(self.alloc, &proposed, &self.users, spent, is_known, plans)?;
        let growth = growth_for(self.alloc, &self.entries, &self.users, &proposal)?;
        let mut meter = meter;
        run(self.alloc, &proposed, plans, &mut Budget::All, &mut meter)?;
        self.cost = plans.cost;
        self.ticks = meter.ticks();
        make(
            &mut self.entries,
            &mut self.users,
            name,
            proposal,
            &mut plans.found,
            plans.places.as_slice(),
            growth,
        );
        self.edited = self.room.keep_reach(is_edit, &name);
        Ok(())
    }

    /// Binds a name to the value that an expression has now, as an assignment does (ISO/IEC 13751, "Evaluate-Assignment"). The cost of the
    /// expression counts.
    pub fn data(&mut self, name: Name, tree: Expr) -> Result<(), Refusal>
        ensures ok { OnOk result (Accepts self.old.names (Store name (tree_of tree)) self.new.names) }
        ensures cost { OnOk result (HasCost self.old.names (Store name (tree_of tree)) self.new.names self.new.cost) }
        ensures ticks { OnOk result (HasTicks self.old.names (Store name (tree_of tree)) self.new.names self.new.ticks) }
        ensures refused { IfErr result (Refuses self.old.names (Store name (tree_of tree))) }
        ensures err { OnErr result (self.new ≡ self.old) }
    {
        self.apply_lent(&Change::Data(name, tree))
    }

    /// Replaces one item of data, in place: the indexed assignment of one item (ISO/IEC 13751, "Indexed Assignment").
    #[inline(always)]
    pub fn set_cell(
        &mut self,
        name: Name,
        positions: &[i64],
        literal: &Literal,
    ) -> Result<(), Refusal>
        ensures ok { OnOk result (Accepts self.old.names (SetCell name positions.now (literal_of literal.now)) self.new.names) }
        ensures cost { OnOk result (HasCost self.old.names (SetCell name positions.now (literal_of literal.now)) self.new.names self.new.cost) }
        ensures ticks { OnOk result (HasTicks self.old.names (SetCell name positions.now (literal_of literal.now)) self.new.names self.new.ticks) }
        ensures refused { IfErr result (Refuses self.old.names (SetCell name positions.now (literal_of literal.now))) }
        ensures err { OnErr result (self.new ≡ self.old) }
    {
        let proposal = self.cell_proposal(name, positions, literal)?;
        self.make_change(name, proposal, Meter::new())
    }

    /// Appends a literal to data in place: one more item of a vector, one more row of a table. The first of these refuses it: the name is absent,
    /// or bound to a formula; the data has another rank; the literal has another number of items than a row, or items of the other type; the data
    /// would exceed the limits of arrays. Items are moved only where their memory is full, into memory for the next power of two.
    #[inline(always)]
    pub fn add_row(&mut self, name: Name, literal: &Literal) -> Result<(), Refusal>
        ensures ok { OnOk result (Accepts self.old.names (AddRow name (literal_of literal.now)) self.new.names) }
        ensures cost { OnOk result (HasCost self.old.names (AddRow name (literal_of literal.now)) self.new.names self.new.cost) }
        ensures ticks { OnOk result (HasTicks self.old.names (AddRow name (literal_of literal.now)) self.new.names self.new.ticks) }
        ensures refused { IfErr result (Refuses self.old.names (AddRow name (literal_of literal.now))) }
        ensures err { OnErr result (self.new ≡ self.old) }
    {
        let proposal = self.row_proposal(name, literal)?;
        self.make_change(name, proposal, Meter::new())
    }

    /// Removes a name, as the command `)ERASE` does (ISO/IEC 13751, "System Commands"). The names after it move up, and formulas that refer to it
    /// show VALUE ERROR from then on.
    pub fn erase(&mut self, name: Name) -> Result<(), Refusal>
        ensures ok { OnOk result (Accepts self.old.names (Erase name) self.new.names) }
        ensures cost { OnOk result (HasCost self.old.names (Erase name) self.new.names self.new.cost) }
        ensures ticks { OnOk result (HasTicks self.old.names (Erase name) self.new.names self.new.ticks) }
        ensures refused { IfErr result (Refuses self.old.names (Erase name)) }
        ensures err { OnErr result (self.new ≡ self.old) }
    {
        self.apply_lent(&Change::Erase(name))
    }

    /// Binds a name to an array. Refuses only a new name where `MOST_NAMES` names are present, or with no memory.
    pub fn put_array(&mut self, name: Name, array: Array) -> Result<(), Refusal>
        ensures ok { OnOk result (Accepts self.old.names (Put name array) self.new.names) }
        ensures cost { OnOk result (HasCost self.old.names (Put name array) self.new.names self.new.cost) }
        ensures ticks { OnOk result (HasTicks self.old.names (Put name array) self.new.names self.new.ticks) }
        ensures refused { IfErr result (Refuses self.old.names (Put name array)) }
        ensures err { OnErr result (self.new ≡ self.old) }
    {
        let proposal = Proposal::Data(Delta::Whole(Ok(array)));
        self.make_change(name, proposal, Meter::new())
    }

    /// Returns the proposal of a change. The meter counts the items of the expression of stored data.
    #[inline(always)]
    pub(crate) fn proposal_of(
        &self,
        change: &Change,
        meter: &mut Meter,
    ) -> Result<Proposal, Refusal>
        requires { meter.old.ticks ≡ 0 }
        ensures is { IfOk result (λ proposal. IsProposalOf self.now (change_of change.now) (changed_name (change_of change.now)) proposal meter.new.ticks) }
        ensures refused { IfErr result (Refuses self.now.names (change_of change.now)) }
    {
        match change {
            Change::Define(_, tree) => self.definition(tree),
            Change::Data(_, tree) => self.stored(tree, meter),
            Change::Cell(name, positions, literal) => self.cell_proposal(*name, positions, literal),
            Change::Row(name, literal) => self.row_proposal(*name, literal),
            Change::Erase(name) => self.removal(*name),
        }
    }

    /// Returns a new formula of an expression.
    fn definition(&self, tree: &Expr) -> Result<Proposal, Refusal>
        ensures is { IfOk result (λ proposal. (name : List ℕ) → IsProposalOf self.now (Define name (tree_of tree.now)) name proposal 0) }
        ensures refused { IfErr result (λ cause. (name : List ℕ) → Refuses self.now.names (Define name (tree_of tree.now)) cause) }
    {
        let formula = Formula::of(self.alloc, tree)?;
        Ok(Proposal::Formula(formula))
    }

    /// Returns the array that an expression has now; an error of the expression is the refusal.
    fn stored(&self, tree: &Expr, meter: &mut Meter) -> Result<Proposal, Refusal>
        requires { meter.old.ticks ≡ 0 }
        ensures is { IfOk result (λ proposal. (name : List ℕ) → IsProposalOf self.now (Store name (tree_of tree.now)) name proposal meter.new.ticks) }
        ensures refused { IfErr result (λ cause. (name : List ℕ) → Refuses self.now.names (Store name (tree_of tree.now)) cause) }
    {
        match evaluate_counted(self.alloc, tree, self, meter)? {
            Ok(array) => Ok(Proposal::Data(Delta::Whole(Ok(array)))),
            Err(fault) => Err(Refusal::Fault(fault)),
        }
    }

    /// Returns the patch of one item of data.
    #[inline(always)]
    fn cell_proposal(
        &self,
        name: Name,
        positions: &[i64],
        literal: &Literal,
    ) -> Result<Proposal, Refusal>
        ensures is { IfOk result (λ proposal. IsProposalOf self.now (SetCell name positions.now (literal_of literal.now)) name proposal 0) }
        ensures refused { IfErr result (Refuses self.now.names (SetCell name positions.now (literal_of literal.now))) }
    {
        let patch = cell_patch(data_of(&self.entries, &name)?, positions, literal)?;
        Ok(Proposal::Data(Delta::Patch(patch)))
    }

    /// Returns the row that data grows by.
    #[inline(always)]
    fn row_proposal(&self, name: Name, literal: &Literal) -> Result<Proposal, Refusal>
        ensures is { IfOk result (λ proposal. IsProposalOf self.now (AddRow name (literal_of literal.now)) name proposal 0) }
        ensures refused { IfErr result (Refuses self.now.names (AddRow name (literal_of literal.now))) }
    {
        let tail = row_behind(self.alloc, data_of(&self.entries, &name)?, literal)?;
        Ok(Proposal::Data(Delta::Grown(tail)))
    }

    /// Returns the removal of a name that is present.
    fn removal(&self, name: Name) -> Result<Proposal, Refusal>
        ensures is { IfOk result (λ proposal. IsProposalOf self.now (Erase name) name proposal 0) }
        ensures refused { IfErr result (Refuses self.now.names (Erase name)) }
    {
        if !self.entries.contains_key(&name) {
            return Err(Refusal::NotFound);
        }
        Ok(Proposal::Removed)
    }

    /// Begins a proposal: finds the names that it reaches, allocates the memory of making it, and plans what precedes the first function. The meter
    /// has the cost of finding the proposal.
    pub(crate) fn propose(
        &self,
        name: Name,
        proposal: Proposal,
        meter: Meter,
    ) -> Result<Pending, Refusal>
        requires { (change : SheetChange) × IsProposalOf self.now change name proposal meter.ticks }
        ensures ok { IfOk result (λ pending. (change : SheetChange) → IsProposalOf self.now change name proposal meter.ticks
            → IsPendingOn self.now change pending × ((new : Names) × Accepts self.now.names change new × IsStepCount new (changed_name change) (steps_left pending))) }
        ensures ticks { IfOk result (λ pending. pending.ticks ≡ meter.ticks) }
        ensures between { IfOk result IsBetweenSteps }
        ensures refused { IfErr result (λ cause. (change : SheetChange) → IsProposalOf self.now change name proposal meter.ticks → Refuses self.now.names change cause) }
    {
        let spent = meter.ticks();
        let proposed = ProposedSheet {
            entries: &self.entries,
            name,
            proposal: &proposal,
        };
        let mut plans = self.step_room.replace(Plans::none(self.alloc));
        begun(self.alloc, &proposed, &self.users, spent, false, &mut plans)?;
        let growth = growth_for(self.alloc, &self.entries, &self.users, &proposal)?;
        let left = functions_in(&proposed, &plans.found);
        let mut meter = meter;
        run(
            self.alloc,
            &proposed,
            &mut plans,
            &mut Budget::Spent,
            &mut meter,
        )?;
        Ok(Pending {
            name,
            proposal,
            plans,
            growth,
            left,
            budget: Budget::One,
            ticks: spent,
            meter,
        })
    }

    /// Returns the allocator of the sheet.
    pub(crate) fn alloc(&self) -> Global {
        self.alloc
    }
}
