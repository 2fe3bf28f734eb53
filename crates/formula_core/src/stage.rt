//! The data from which the next change of a formula is computed.

ghost use Rattle.std.specs.Prelude.{◌≡◌, ◌≤◌, ◌<◌, ℕ, List, false, length, map, get_or, IfOk, OnOk};
ghost use Rattle.std.specs.Option.{option_map};
ghost use Rattle.apl_expr.specs.Trees.{Tree, Const, Name};
ghost use Rattle.formula_core.specs.Meaning.{eval};
ghost use Rattle.formula_core.specs.Changes.{NamesChange, IsNameChanged};
ghost use Rattle.arrays_core.specs.declared.item.Kind.TheVariants.{Value};
ghost use Rattle.arrays_core.specs.Outcomes.{fault};
ghost use Rattle.formula_core.specs.declared.input.Input.TheVariants.{Bad};
ghost use Rattle.formula_core.specs.Inputs.{HasFit, AllHaveFit, IsInput};
ghost use Rattle.formula_core.specs.Holdings.{holdings_of, no_change, not_worked_out, AllChangesFit};
ghost use Rattle.formula_core.specs.Plans.{node_change};
ghost use Rattle.formula_core.specs.Rules.{with_change};
ghost use Rattle.formula_core.specs.Stages.{IsStaged, StagedBy, IsKeptBy, IsMadeBy, IsTaken, GivesItsTree, GiveTheirTrees, IsStep, IsJoined, IsNodeStep, IsSumsStep, IsLiteralChange};
ghost use Rattle.formula_core.specs.declared.sums.SumsDelta.TheVariants.{Same as Stays};
ghost use Rattle.formula_core.specs.Sums.{summed_at, IsJoinedFrom};
ghost use Rattle.formula_core.specs.Tables.{IsOperand, AreOperands, IsNode, tree_at, tree_of_index, tree_of_operand, tree_of_node};

use crate::constant::Constant;
use crate::index_change::change_of_index;
use crate::input::{Input, outcome_is_array, outcomes_are_arrays};
use crate::kept::{Kept, NodeChange};
use crate::operation_change::{change_of_both, change_of_monad};
use crate::positions::Positions;
use crate::sums::{SumsDelta, sums_delta};
use crate::table::{Node, Operand};
use arrays_core::{Array, Fault};
use change_core::Meter;
use index_region::Delta;
use smallvec::SmallVec;
use std::alloc::{AllocError, Global};
use sum_rules::LineSums;

/// The data for the change of the next node: the inputs of the names, the stored results of all nodes, and the changes of the earlier nodes.
#[derive(Drop)]
pub(crate) struct Stage<'a> {
    pub(crate) alloc: Global,
    /// The formula is new: its nodes have no results yet.
    pub(crate) is_new: bool,
    pub(crate) inputs: &'a [Input<'a>],
    pub(crate) nodes: &'a [Kept],
    pub(crate) changes: &'a [NodeChange],
    /// The change of every literal: the whole in a new formula, otherwise nothing.
    pub(crate) of_literals: &'a Delta,
}

impl<'a> Stage<'a> {
    /// Returns the input for an operand of the next node. In a new formula it is marked new.
    #[inline(always)]
    fn argument(&self, argument: &'a Operand) -> Input<'a>
        requires within { IsOperand (length self.now.inputs.now) (length self.now.changes.now) argument.now }
        requires staged { StagedBy self.now }
        requires literals { IsLiteralChange self.now.is_new self.now.of_literals.now }
        ensures fit { HasFit result }
        ensures ready { (c : NamesChange) → (names : List (List ℕ)) → (trees : List Tree) → IsStaged c names trees self.now → GivesItsTree self.now.is_new c (tree_of_operand names trees argument.now) result }
    {
        let input = self.taken(argument);
        if self.is_new {
            return input.made_anew(self.of_literals);
        }
        input
    }

    /// Returns the input for an operand without that mark.
    #[inline(always)]
    fn taken(&self, argument: &'a Operand) -> Input<'a>
        requires within { IsOperand (length self.now.inputs.now) (length self.now.changes.now) argument.now }
        requires few { length self.now.changes.now ≤ length self.now.nodes.now }
        requires fit { AllChangesFit self.now.changes.now (holdings_of self.now.nodes.now) }
        requires literals { IsLiteralChange self.now.is_new self.now.of_literals.now }
        ensures { IsTaken self.now.inputs.now (holdings_of self.now.nodes.now) self.now.changes.now self.now.of_literals.now argument.now result }
    {
        match argument {
            Operand::Literal(constant) => constant.input(self.of_literals),
            Operand::Name(place) => told(self.inputs, *place),
            Operand::Node(place) => {
                Input::of_node(&self.nodes[*place].result, &self.changes[*place].delta)
            }
        }
    }

    /// Returns the inputs of the positions of an index. Up to four positions allocate nothing.
    fn positions(&self, arguments: &'a [Option<Operand>]) -> Result<Positions<'a>, AllocError>
        requires within { AreOperands (length self.now.inputs.now) (length self.now.changes.now) arguments.now }
        requires staged { StagedBy self.now }
        requires literals { IsLiteralChange self.now.is_new self.now.of_literals.now }
        ensures fit { IfOk result (λ positions. AllHaveFit positions.items) }
        ensures ready { IfOk result (λ positions. (c : NamesChange) → (names : List (List ℕ)) → (trees : List Tree) → IsStaged c names trees self.now
            → GiveTheirTrees self.now.is_new c (map (option_map (tree_of_operand names trees)) arguments.now) positions.items) }
    {
        let mut positions = SmallVec::new(self.alloc);
        for argument in arguments {
            positions.push(match argument {
                Some(argument) => Some(self.argument(argument)),
                None => None,
            })?;
        }
        Ok(positions)
    }

    /// Replaces `change`, which is none, with the change of the next node; returns its cost. Of the functions only the scalar ones are inlined.
    #[inline(always)]
    pub(crate) fn next(&self, change: &mut NodeChange, meter: &mut Meter) -> Result<u32, AllocError>
        requires none { change.old ≡ no_change }
        requires below { length self.now.changes.now < length self.now.nodes.now }
        requires staged { StagedBy self.now }
        requires literals { IsLiteralChange self.now.is_new self.now.of_literals.now }
        ensures { IfOk result (λ n. (c : NamesChange) → (names : List (List ℕ)) → (trees : List Tree) → IsStaged c names trees self.now
            → IsNodeStep self.now.is_new c (tree_at trees (length self.now.changes.now)) (get_or (holdings_of self.now.nodes.now) (length self.now.changes.now) not_worked_out)
            change.new n meter.old meter.new) }
    {
        let kept = &self.nodes[self.changes.len()];
        outcome_is_array(&kept.result);
        let sums = self.sums_of(&kept.node, &kept.sums)?;
        put_sums(&mut change.sums, sums);
        let NodeChange { delta, sums } = change;
        let items = self.change_of(&kept.node, &kept.result, &kept.sums, sums, delta, meter)?;
        outcomes_are_arrays(&kept.result, &change.delta);
        Ok(items)
    }

    /// Replaces `change` with the change of the node's result; returns its cost. `held` and `kept` are its result and sums. `made` is the change of
    /// the sums, computed first: so a replaced argument is read once.
    #[inline(always)]
    fn change_of(
        &self,
        node: &'a Node,
        held: &Result<Array, Fault>,
        kept: &Option<LineSums>,
        made: &SumsDelta,
        change: &mut Delta,
        meter: &mut Meter,
    ) -> Result<u32, AllocError>
        requires node { IsNode (length self.now.inputs.now) (length self.now.changes.now) node.now }
        requires staged { StagedBy self.now }
        requires kept { IsKeptBy self.now node.now kept.now }
        requires made { IsMadeBy self.now node.now made.now }
        requires joined { IsJoinedFrom kept.now made.now }
        requires literals { IsLiteralChange self.now.is_new self.now.of_literals.now }
        ensures step { (c : NamesChange) → (names : List (List ℕ)) → (trees : List Tree) → IsStaged c names trees self.now
            → (self.now.is_new ≡ false → held.now ≡ eval (tree_of_node names trees node.now) c.old)
            → IsStep self.now.is_new c (tree_of_node names trees node.now) meter.old.ticks meter.new.ticks (with_change change.new result) }
        ensures joins { (c : NamesChange) → (names : List (List ℕ)) → (trees : List Tree) → IsStaged c names trees self.now
            → (self.now.is_new ≡ false → held.now ≡ eval (tree_of_node names trees node.now) c.old)
            → IsJoined self.now.is_new c (tree_of_node names trees node.now) meter.old.joins meter.new.joins (with_change change.new result) }
    {
        match node {
            Node::Constant(constant) => self.change_of_literal(constant, change),
            Node::Name(place) => self.change_of_name(*place, change),
            Node::Monad(function, right) => {
                let right = self.argument(right);
                change_of_monad(
                    self.alloc, *function, &right, kept, made, held, change, meter,
                )
            }
            Node::Dyad(function, left, right) => {
                let left = self.argument(left);
                let right = self.argument(right);
                change_of_both(self.alloc, *function, &left, &right, held, change, meter)
            }
            Node::Index(array, positions) => {
                self.change_of_indexed(array, positions, held, change, meter)
            }
        }
    }

    /// Replaces `change` with the change of an index, as `change_of` does. Not inlined: its positions need stack that other nodes need not clear.
    #[inline(never)]
    fn change_of_indexed(
        &self,
        array: &'a Operand,
        positions: &'a [Option<Operand>],
        held: &Result<Array, Fault>,
        change: &mut Delta,
        meter: &mut Meter,
    ) -> Result<u32, AllocError>
        requires array { IsOperand (length self.now.inputs.now) (length self.now.changes.now) array.now }
        requires positions { AreOperands (length self.now.inputs.now) (length self.now.changes.now) positions.now }
        requires staged { StagedBy self.now }
        requires literals { IsLiteralChange self.now.is_new self.now.of_literals.now }
        ensures step { (c : NamesChange) → (names : List (List ℕ)) → (trees : List Tree) → IsStaged c names trees self.now
            → (self.now.is_new ≡ false → held.now ≡ eval (tree_of_index names trees array.now positions.now) c.old)
            → IsStep self.now.is_new c (tree_of_index names trees array.now positions.now) meter.old.ticks meter.new.ticks (with_change change.new result) }
        ensures joins { meter.new.joins ≡ meter.old.joins }
    {
        let array = self.argument(array);
        let positions = self.positions(positions)?;
        change_of_index(self.alloc, &array, &positions, held, change, meter)
    }

    /// Returns the change of the sums of a node; only a total has any.
    #[inline(always)]
    fn sums_of(&self, node: &'a Node, kept: &Option<LineSums>) -> Result<SumsDelta, AllocError>
        requires node { IsNode (length self.now.inputs.now) (length self.now.changes.now) node.now }
        requires staged { StagedBy self.now }
        requires literals { IsLiteralChange self.now.is_new self.now.of_literals.now }
        ensures { IfOk result (λ s. (c : NamesChange) → (names : List (List ℕ)) → (trees : List Tree) → IsStaged c names trees self.now
            → (self.now.is_new ≡ false → kept.now ≡ summed_at c.old (tree_of_node names trees node.now)) → IsSumsStep c (tree_of_node names trees node.now) kept.now s) }
    {
        match node.totalled() {
            Some((fold, right)) => sums_delta(self.alloc, fold, &self.argument(right), kept),
            None if self.is_new => Ok(SumsDelta::Whole(None)),
            None => Ok(SumsDelta::Same),
        }
    }

    /// Replaces `change` with that of a literal that is the whole expression: the whole in a new formula, otherwise nothing. Costs 0. Not inlined,
    /// like the next call: its locals need stack that other nodes need not clear.
    #[inline(never)]
    fn change_of_literal(&self, constant: &Constant, change: &mut Delta) -> Result<u32, AllocError>
        requires { IsLiteralChange self.now.is_new self.now.of_literals.now }
        ensures change { OnOk result ((c : NamesChange) → change.new ≡ node_change self.now.is_new c (Const constant.now)) }
        ensures free { IfOk result (λ n. n ≡ 0) }
    {
        if !self.is_new {
            *change = Delta::Same;
            return Ok(0);
        }
        *change = Delta::Whole(constant.input(self.of_literals).copy()?);
        Ok(0)
    }

    /// Replaces `change` with the change of a name that is the whole expression. Costs 0.
    #[inline(never)]
    fn change_of_name(&self, place: usize, change: &mut Delta) -> Result<u32, AllocError>
        requires { place < length self.now.inputs.now }
        ensures change { OnOk result ((c : NamesChange) → (x : List ℕ) → IsInput (c.new x) (c.delta x) (get_or self.now.inputs.now place (Bad (fault Value) false)) → IsNameChanged c x
            → change.new ≡ node_change self.now.is_new c (Name x)) }
        ensures free { IfOk result (λ n. n ≡ 0) }
    {
        let input = told(self.inputs, place);
        *change = self.delta_of_name(&input)?;
        Ok(0)
    }

    /// Returns the change of a name that is the whole expression: the whole in a new formula, otherwise a copy of the name's change.
    fn delta_of_name(&self, input: &Input) -> Result<Delta, AllocError>
        ensures { IfOk result (λ d. (c : NamesChange) → (x : List ℕ) → IsInput (c.new x) (c.delta x) input.now → IsNameChanged c x → d ≡ node_change self.now.is_new c (Name x)) }
    {
        if self.is_new {
            return Ok(Delta::Whole(input.copy()?));
        }
        match input {
            Input::Good(_, Delta::Same) => Ok(Delta::Same),
            Input::Good(_, Delta::Patch(patch)) => Ok(Delta::Patch(patch.copy()?)),
            Input::Good(_, Delta::Grown(tail)) => Ok(Delta::Grown(tail.copy()?)),
            Input::Bad { changed: false, .. } => Ok(Delta::Same),
            _ => Ok(Delta::Whole(input.copy()?)),
        }
    }
}

/// Replaces `sums`, which is none, with a change. Most nodes have no sums: then nothing is written or dropped.
#[inline(always)]
fn put_sums(sums: &mut SumsDelta, change: SumsDelta)
    requires { sums.old ≡ Stays }
    ensures { sums.new ≡ change }
{
    match change {
        SumsDelta::Same => {}
        change => *sums = change,
    }
}

/// Returns the input of the name at this index of the references.
#[inline(always)]
fn told<'a>(inputs: &'a [Input<'a>], place: usize) -> Input<'a>
    requires { place < length inputs.now }
    ensures { result ≡ get_or inputs.now place (Bad (fault Value) false) }
{
    inputs[place].again()
}
