//! A formula: an expression as a table of nodes, with the last result of each node.

ghost use Rattle.std.specs.Prelude.{◌≡◌, ◌+◌, ◌≤◌, ◌<◌, ℕ, List, true, false, [], length, min, IfOk, OnOk, OnErr, MatchBool};
ghost use Rattle.std.specs.List.{Contains, count_by};
ghost use Rattle.apl_expr.specs.Trees.{tree_of};
ghost use Rattle.change_core.specs.Meters.{ticked};
ghost use Rattle.index_region.specs.declared.delta.Delta.TheVariants.{Same};
ghost use Rattle.formula_core.specs.Outcomes.{read};
ghost use Rattle.formula_core.specs.Meaning.{eval, names_in};
ghost use Rattle.formula_core.specs.Changes.{NamesChange, at_rest};
ghost use Rattle.formula_core.specs.Holdings.{nodes_of, adopted, AreNotWorkedOut};
ghost use Rattle.formula_core.specs.Formulas.{new_formula, root_result, operations, IsHeld, IsTableOf};
ghost use Rattle.formula_core.specs.Joins.{most_joins, least_joins, tree_joins, tree_least_joins};
ghost use Rattle.formula_core.specs.Plans.{tree_cost, node_cost_at, IsComputed, AllComputed, IsPlanOf, IsTold, IsPlanned};
ghost use Rattle.formula_core.specs.Progress.{operations_among, IsPlannedTo};
ghost use Rattle.formula_core.specs.Stages.{IsBegun, IsLiteralChange, IsOneMore};
ghost use Rattle.formula_core.specs.Tables.{applies, subtrees, tree_at};

use crate::evaluation::{Shows, errors_shown, inputs_at_rest};
use crate::input::Input;
use crate::kept::{Kept, NodeChange, adopt_all};
use crate::lent_fault::{LentFault, unknown};
use crate::plan::Plan;
use crate::stage::Stage;
use crate::table::{Node, Operand, lower, room_for};
use apl_expr::Expr;
use arrays_core::{Array, Fault};
use change_core::{Count, Meter};
use index_region::Delta;
use names::Name;
use std::alloc::{AllocError, Global};
use std::cell::Cell;
use std::marker::Model;

/// An expression as a table of nodes, with the last result of each. A node follows the nodes whose results it takes. A total, such as `+/` or `+⌿`,
/// also keeps the sums of its argument's lines. A name inside the expression has no node: its array is borrowed and not stored.
#[derive(Drop)]
pub struct Formula {
    alloc: Global,
    /// Boxed to keep a formula small: an entry of data is as large as one with a formula.
    names: Box<Vec<Name>>,
    nodes: Vec<Kept>,
    is_new: bool,
    /// Memory for the changes of the next plan, reused from the last edit.
    room: Cell<Vec<NodeChange>>,
}

impl Model for Formula {
    ghost use Rattle.formula_core.specs.Formulas.{FormulaValue, IsTableOf, root_of};
    ghost use Rattle.formula_core.specs.Holdings.{holdings_of, nodes_of};

    ghost Value = { FormulaValue };

    ghost use Rattle.std.specs.Coded.{codes};
    ghost use Rattle.apl_expr.specs.Laws.Codes.{coded_tree};

    ghost coded = { Prim.hlevel (codes, coded_tree) };

    ghost view = { λ f. record { tree = root_of f.names.value.items (nodes_of f.nodes.items); is_new = f.is_new; nodes = holdings_of f.nodes.items } };

    ghost invariant = { λ f. IsTableOf f.names.value.items (nodes_of f.nodes.items) (root_of f.names.value.items (nodes_of f.nodes.items)) };
}

impl Formula {
    /// Makes the formula of an expression. Its results are VALUE ERROR until it adopts a plan.
    pub fn build(alloc: Global, tree: Expr) -> Result<Formula, AllocError>
        ensures { IfOk result (λ formula. formula ≡ new_formula (tree_of tree)) }
    {
        Formula::of(alloc, &tree)
    }

    /// Makes the formula of a borrowed expression. Its results are VALUE ERROR until it adopts a plan.
    pub fn of(alloc: Global, tree: &Expr) -> Result<Formula, AllocError>
        ensures { IfOk result (λ formula. formula ≡ new_formula (tree_of tree.now)) }
    {
        let room = room_for(tree);
        let mut names = Vec::with_capacity(alloc, room.names)?;
        // A literal or name that is the whole expression has a node.
        let mut nodes = Vec::with_capacity(alloc, room.nodes.max(1))?;
        lower_whole(alloc, &mut names, &mut nodes, tree)?;
        Ok(Formula {
            alloc,
            names: Box::new(alloc, names)?,
            nodes,
            is_new: true,
            room: Cell::new(Vec::new(alloc)),
        })
    }

    /// Returns the names of the expression from the left, one for each occurrence.
    pub fn references(&self) -> &[Name]
        ensures { result.now ≡ names_in self.now.tree }
    {
        self.names.as_slice()
    }

    /// Returns the number of functions in the expression, at most `u32::MAX`. Visits every node.
    pub fn operations(&self) -> u32
        ensures { result ≡ min (operations self.now.tree) 4294967295 }
    {
        u32::try_from(self.all_operations()).unwrap_or(u32::MAX)
    }

    /// Returns the number of functions in the expression. Visits every node.
    pub fn all_operations(&self) -> usize
        ensures { result ≡ operations self.now.tree }
    {
        count_operations(self.nodes.as_slice())
    }

    /// Returns the last result of the expression; VALUE ERROR if there is none yet.
    pub fn result(&self) -> Result<&Array, Fault>
        ensures { read result ≡ root_result self.now.nodes }
    {
        match self.held() {
            Ok(array) => Ok(array),
            Err(fault) => Err(*fault),
        }
    }

    /// Returns the last result of the expression; its error is borrowed.
    pub fn lent(&self) -> Result<&Array, LentFault<'_>>
        ensures { read result ≡ root_result self.now.nodes }
    {
        match self.held() {
            Ok(array) => Ok(array),
            Err(fault) => Err(LentFault::of(fault)),
        }
    }

    /// Returns the result of the last node.
    fn held(&self) -> &Result<Array, Fault>
        ensures { result.now ≡ root_result self.now.nodes }
    {
        &self.nodes[self.nodes.len() - 1].result
    }

    /// Plans the changes of all nodes for these inputs, one for each of `references`. The formula itself does not change; `adopt` applies the plan.
    /// If the formula holds results, each input gives the change of its name since they were computed. The meter counts the computed items: the
    /// cost of the plan if no item fails, at most that otherwise. If no name changed, only a new formula computes items. The meter also counts
    /// joins of two parts of a line, at most `tree_joins`. With trees, a new number takes at most as many joins as its line's length less one has
    /// binary digits. A line that is folded whole takes one join less than it has numbers.
    #[inline(always)]
    pub fn plan(&self, inputs: &[Input], meter: &mut Meter) -> Result<Plan, AllocError>
        requires { (c : NamesChange) × IsTold self.now c inputs.now }
        ensures of { IfOk result (IsPlanOf self.now) }
        ensures planned { IfOk result (λ p. (c : NamesChange) → IsTold self.now c inputs.now → IsPlanned self.now c p) }
        ensures ticks { (c : NamesChange) → IsTold self.now c inputs.now → meter.new.ticks ≤ meter.old.ticks + tree_cost self.now.is_new c self.now.tree }
        ensures exact { OnOk result ((c : NamesChange) → IsTold self.now c inputs.now → AllComputed self.now.is_new c self.now.tree → meter.new.ticks ≡ ticked meter.old.ticks (tree_cost self.now.is_new c self.now.tree)) }
        ensures rises { meter.old.ticks ≤ meter.new.ticks }
        ensures joins { (c : NamesChange) → IsTold self.now c inputs.now → meter.new.joins ≤ meter.old.joins + tree_joins self.now.is_new c self.now.tree }
        ensures joined { OnOk result ((c : NamesChange) → IsTold self.now c inputs.now → AllComputed self.now.is_new c self.now.tree → ticked meter.old.joins (tree_least_joins self.now.is_new c self.now.tree) ≤ meter.new.joins) }
        ensures still { self.now.is_new ≡ false → (c : NamesChange) → IsTold self.now c inputs.now → ((x : List ℕ) → Contains (names_in self.now.tree) x → c.delta x ≡ Same) → meter.new.ticks ≡ meter.old.ticks }
    {
        let mut plan = self.start(inputs)?;
        while !self.is_whole(&plan) {
            self.advance(&mut plan, inputs, meter)?;
        }
        // This call states that the count fits in 64 bits.
        let _counted = meter.ticks();
        Ok(plan)
    }

    /// Returns whether each node has its change.
    pub fn is_whole(&self, plan: &Plan) -> bool
        ensures { MatchBool result (length plan.now.changes ≡ length self.now.nodes) (length plan.now.changes ≡ length self.now.nodes → ⊥) }
    {
        plan.changes.len() == self.nodes.len()
    }

    /// Starts a plan with no function done. It has only the change of a literal or name that is the whole expression. The inputs are as for `plan`.
    #[inline(always)]
    pub fn start(&self, inputs: &[Input]) -> Result<Plan, AllocError>
        requires { (c : NamesChange) × IsTold self.now c inputs.now }
        ensures none { IfOk result (λ p. operations_among self.now p.changes ≡ 0) }
        ensures cost { IfOk result (λ p. p.cost ≡ 0) }
        ensures planned { IfOk result (λ p. (c : NamesChange) → IsTold self.now c inputs.now → IsPlannedTo self.now c p) }
    {
        let mut plan = Plan {
            changes: room_for_changes(self.alloc, &self.room, self.nodes.len())?,
            cost: Count::new(),
        };
        if self.nodes[0].node.applies() {
            return Ok(plan);
        }
        let _items = self.push_apart(self.is_new, &mut plan.changes, inputs, &mut Meter::new())?;
        Ok(plan)
    }

    /// Adds one function to an unfinished plan of this formula. Each call takes the same inputs. If memory is refused, the plan and the meter stay.
    #[inline(always)]
    pub fn advance(
        &self,
        plan: &mut Plan,
        inputs: &[Input],
        meter: &mut Meter,
    ) -> Result<(), AllocError>
        requires left { operations_among self.now plan.old.changes < operations self.now.tree }
        requires planned { (c : NamesChange) × (IsTold self.now c inputs.now × IsPlannedTo self.now c plan.old) }
        ensures one { OnOk result (operations_among self.now plan.new.changes ≡ operations_among self.now plan.old.changes + 1) }
        ensures planned { OnOk result ((c : NamesChange) → IsTold self.now c inputs.now → IsPlannedTo self.now c plan.old → IsPlannedTo self.now c plan.new) }
        ensures ticks { OnOk result ((c : NamesChange) → IsTold self.now c inputs.now → IsPlannedTo self.now c plan.old
            → meter.new.ticks ≤ meter.old.ticks + node_cost_at self.now.is_new c (tree_at (subtrees self.now.tree) (length plan.old.changes))) }
        ensures exact { OnOk result ((c : NamesChange) → IsTold self.now c inputs.now → IsPlannedTo self.now c plan.old → IsComputed self.now.is_new c (tree_at (subtrees self.now.tree) (length plan.old.changes))
            → meter.new.ticks ≡ ticked meter.old.ticks (node_cost_at self.now.is_new c (tree_at (subtrees self.now.tree) (length plan.old.changes)))) }
        ensures rises { meter.old.ticks ≤ meter.new.ticks }
        ensures cost { OnOk result ((c : NamesChange) → IsTold self.now c inputs.now → IsPlannedTo self.now c plan.old
            → plan.new.cost ≡ ticked plan.old.cost (node_cost_at self.now.is_new c (tree_at (subtrees self.now.tree) (length plan.old.changes)))) }
        ensures joins { OnOk result ((c : NamesChange) → IsTold self.now c inputs.now → IsPlannedTo self.now c plan.old
            → meter.new.joins ≤ meter.old.joins + most_joins self.now.is_new c (tree_at (subtrees self.now.tree) (length plan.old.changes))) }
        ensures joined { OnOk result ((c : NamesChange) → IsTold self.now c inputs.now → IsPlannedTo self.now c plan.old → IsComputed self.now.is_new c (tree_at (subtrees self.now.tree) (length plan.old.changes))
            → ticked meter.old.joins (least_joins self.now.is_new c (tree_at (subtrees self.now.tree) (length plan.old.changes))) ≤ meter.new.joins) }
        ensures err { OnErr result (plan.new ≡ plan.old) }
        ensures err_meter { OnErr result (meter.new ≡ meter.old) }
    {
        let mut counted = Meter::new();
        let items = self.push_next(&mut plan.changes, inputs, &mut counted)?;
        plan.cost.add(items);
        meter.include(&counted);
        Ok(())
    }

    /// Appends the change of the next node. Returns its cost.
    #[inline(always)]
    fn push_next(
        &self,
        changes: &mut Vec<NodeChange>,
        inputs: &[Input],
        meter: &mut Meter,
    ) -> Result<u32, AllocError>
        requires below { length changes.old.items < length self.now.nodes }
        requires begun { (c : NamesChange) × (IsTold self.now c inputs.now × ((cost : ℕ) × IsBegun self.now c changes.old.items cost)) }
        ensures more { IfOk result (λ n. (c : NamesChange) → IsTold self.now c inputs.now → (cost : ℕ) → IsBegun self.now c changes.old.items cost
            → IsOneMore self.now c changes.old.items changes.new.items n meter.old meter.new) }
        ensures err { OnErr result (changes.new.items ≡ changes.old.items) }
    {
        if self.is_new {
            return self.push_apart(true, changes, inputs, meter);
        }
        self.push(false, &Delta::Same, changes, inputs, meter)
    }

    /// Does the work of `push` for a new formula, and for one that is a literal or a name. Not inlined: most edits do not use it.
    #[inline(never)]
    fn push_apart(
        &self,
        is_new: bool,
        changes: &mut Vec<NodeChange>,
        inputs: &[Input],
        meter: &mut Meter,
    ) -> Result<u32, AllocError>
        requires new { is_new ≡ self.now.is_new }
        requires below { length changes.old.items < length self.now.nodes }
        requires begun { (c : NamesChange) × (IsTold self.now c inputs.now × ((cost : ℕ) × IsBegun self.now c changes.old.items cost)) }
        ensures more { IfOk result (λ n. (c : NamesChange) → IsTold self.now c inputs.now → (cost : ℕ) → IsBegun self.now c changes.old.items cost
            → IsOneMore self.now c changes.old.items changes.new.items n meter.old meter.new) }
        ensures err { OnErr result (changes.new.items ≡ changes.old.items) }
    {
        self.push(is_new, &of_literals(is_new), changes, inputs, meter)
    }

    /// Appends the change of the next node. Returns its cost. The change is large, so it is written in its place in the list.
    #[inline(always)]
    fn push<'x>(
        &'x self,
        is_new: bool,
        of_literals: &'x Delta,
        changes: &mut Vec<NodeChange>,
        inputs: &'x [Input],
        meter: &mut Meter,
    ) -> Result<u32, AllocError>
        requires new { is_new ≡ self.now.is_new }
        requires literals { IsLiteralChange is_new of_literals.now }
        requires below { length changes.old.items < length self.now.nodes }
        requires begun { (c : NamesChange) × (IsTold self.now c inputs.now × ((cost : ℕ) × IsBegun self.now c changes.old.items cost)) }
        ensures more { IfOk result (λ n. (c : NamesChange) → IsTold self.now c inputs.now → (cost : ℕ) → IsBegun self.now c changes.old.items cost
            → IsOneMore self.now c changes.old.items changes.new.items n meter.old meter.new) }
        ensures err { OnErr result (changes.new.items ≡ changes.old.items) }
    {
        let place = changes.len();
        changes.reserve(1)?;
        changes.push_reserved(NodeChange::none());
        let Some((change, done)) = changes.split_last_mut() else {
            unreachable!()
        };
        let stage = Stage {
            alloc: self.alloc,
            is_new,
            inputs: &*inputs,
            nodes: self.nodes.as_slice(),
            changes: done,
            of_literals: &*of_literals,
        };
        let items = match stage.next(change, meter) {
            Ok(items) => items,
            Err(refused) => {
                changes.truncate(place);
                return Err(refused);
            }
        };
        Ok(items)
    }

    /// Applies a plan of this formula. Allocates nothing: patches are written in place. Keeps the memory of an edit's plan for the next plan. Frees
    /// the memory of a new formula's plan, since the formula may never be edited.
    pub fn adopt(&mut self, plan: Plan)
        requires { IsPlanOf self.old plan }
        ensures { self.new ≡ record { tree = self.old.tree; is_new = false; nodes = adopted plan.changes self.old.nodes } }
    {
        let mut changes = plan.changes;
        adopt_all(&mut self.nodes, &mut changes);
        if !self.is_new {
            self.room.set(changes);
        }
        self.is_new = false;
    }

    /// Computes the result of every node from the results of the names. The formula's result is then the value of its expression. If memory is
    /// refused, the formula stays.
    pub fn evaluate<S: Shows>(&mut self, names: &S) -> Result<(), AllocError>
        ensures tree { self.new.tree ≡ self.old.tree }
        ensures held { OnOk result (IsHeld self.new (S.shows names.now)) }
        ensures value { OnOk result (root_result self.new.nodes ≡ eval self.old.tree (S.shows names.now)) }
        ensures err { OnErr result (self.new ≡ self.old) }
    {
        let was_new = self.is_new;
        self.count_as_new(true);
        match self.plan_anew(names) {
            Ok(plan) => {
                self.adopt(plan);
                Ok(())
            }
            Err(refused) => {
                self.count_as_new(was_new);
                Err(refused)
            }
        }
    }

    /// Plans a formula that is marked new, from the results of the names.
    fn plan_anew<S: Shows>(&self, names: &S) -> Result<Plan, AllocError>
        requires { self.now.is_new ≡ true }
        ensures of { IfOk result (IsPlanOf self.now) }
        ensures planned { IfOk result (IsPlanned self.now (at_rest (S.shows names.now))) }
    {
        let unchanged = Delta::Same;
        let references = self.references();
        let errors = errors_shown(self.alloc, names, references)?;
        let errors = errors.as_slice();
        let inputs = inputs_at_rest(self.alloc, names, references, errors, &unchanged)?;
        self.plan(inputs.as_slice(), &mut Meter::new())
    }

    /// Marks the formula new, so that a plan computes every node, or not new. The results stay.
    fn count_as_new(&mut self, is_new: bool)
        ensures { self.new ≡ record { tree = self.old.tree; is_new = is_new; nodes = self.old.nodes } }
    {
        self.is_new = is_new;
    }
}

/// Appends the names and the nodes of an expression; its own node comes last.
fn lower_whole(
    alloc: Global,
    names: &mut Vec<Name>,
    nodes: &mut Vec<Kept>,
    tree: &Expr,
) -> Result<(), AllocError>
    requires names { names.old.items ≡ [] }
    requires nodes { nodes.old.items ≡ [] }
    ensures table { OnOk result (IsTableOf names.new.items (nodes_of nodes.new.items) (tree_of tree.now)) }
    ensures anew { OnOk result (AreNotWorkedOut nodes.new.items) }
{
    match lower(alloc, names, nodes, tree)? {
        Operand::Node(_) => {}
        Operand::Name(place) => nodes.push(Kept::new(Node::Name(place)))?,
        Operand::Literal(constant) => nodes.push(Kept::new(Node::Constant(constant)))?,
    }
    Ok(())
}

/// Returns the change of every literal: the whole in a new formula, otherwise nothing.
#[inline(always)]
fn of_literals(is_new: bool) -> Delta
    ensures { IsLiteralChange is_new result }
{
    if is_new {
        return Delta::Whole(Err(unknown()));
    }
    Delta::Same
}

/// Returns an empty list with capacity for `count` changes; reuses the kept memory if it suffices.
fn room_for_changes(
    alloc: Global,
    room: &Cell<Vec<NodeChange>>,
    count: usize,
) -> Result<Vec<NodeChange>, AllocError>
    ensures { IfOk result (λ changes. changes.items ≡ []) }
{
    let mut changes = room.replace(Vec::new(alloc));
    changes.clear();
    changes.reserve_exact(count)?;
    Ok(changes)
}

/// Counts the nodes that apply a function.
#[tactic(auto, using(crate::proofs::Rooted::counted_yes, crate::proofs::Rooted::counted_no))]
fn count_operations(nodes: &[Kept]) -> usize
    ensures { result ≡ count_by (λ k. applies k.node) nodes.now }
{
    let mut count = 0;
    for kept in nodes {
        if kept.node.applies() {
            count += 1;
        }
    }
    count
}
