//! The change of an operation, from the changes of its array arguments.

ghost use Rattle.std.specs.Prelude.{◌≡◌, suc, length, map};
ghost use Rattle.index_region.specs.Moves.{changed_box};
ghost use Rattle.change_core.specs.Reaches.{AllFit};
ghost use Rattle.selection_fns.specs.Index.{count_written, index_rule};
ghost use Rattle.formula_core.specs.Rules.{monadic_rule, dyadic_rule, right_rule, both_rule, with_change, IsRefreshedBy};

use crate::evaluation::{scalar_before, scalar_between};
use apl_expr::{Dyadic, Function1, Function2, Monadic};
use arrays_core::{Array, Fault};
use change_core::{Meter, Rule};
use change_rules::change_of;
use index_region::{Delta, Moved, Seen};
use operator_fns::{Inner, Outer, Reduce, Scan};
use scalar_fns::{EachDyadic, EachMonadic};
use search_fns::{Decode, Encode, IndexOf, Member};
use selection_fns::{Index, IndexGenerator, Replicate, ShapeOf};
use std::alloc::{AllocError, Global};
use structural_fns::{
    Catenate, DropPlaces, DyadicTranspose, Ravel, Reshape, Reverse, Rotate, Take, Transpose,
};

/// The arguments of an operation, the changed places of each, and the last result.
#[derive(Drop)]
pub(crate) struct Operation<'a> {
    /// The allocator of new items.
    pub(crate) alloc: Global,
    /// The arguments.
    pub(crate) seen: &'a [Seen<'a>],
    /// The changed places of each argument.
    pub(crate) moved: &'a [Moved<'a>],
    /// The last result.
    pub(crate) held: &'a Result<Array, Fault>,
}

impl<'a> Operation<'a> {
    /// Replaces `change` with the operation's change by this rule; returns its cost.
    #[inline(always)]
    fn by<R: Rule>(
        &self,
        rule: &R,
        change: &mut Delta,
        meter: &mut Meter,
    ) -> Result<u32, AllocError>
        requires count { length self.now.seen.now ≡ length (R.model rule.now).selectors }
        requires moves { length self.now.moved.now ≡ length self.now.seen.now }
        requires fit { AllFit self.now.seen.now (map changed_box self.now.moved.now) }
        ensures refreshed { IsRefreshedBy (R.model rule.now) self.now.seen.now self.now.moved.now self.now.held.now meter.old.ticks meter.new.ticks (with_change change.new result) }
        ensures joins { meter.new.joins ≡ meter.old.joins }
    {
        change_of(
            self.alloc, rule, self.seen, self.moved, self.held, change, meter,
        )
    }

    /// Replaces `change` with the change of a function of one argument; returns its cost. Only scalar functions are inlined.
    #[inline(always)]
    pub(crate) fn of_right(
        &self,
        function: Function1,
        change: &mut Delta,
        meter: &mut Meter,
    ) -> Result<u32, AllocError>
        requires count { length self.now.seen.now ≡ 1 }
        requires moves { length self.now.moved.now ≡ length self.now.seen.now }
        requires fit { AllFit self.now.seen.now (map changed_box self.now.moved.now) }
        ensures refreshed { IsRefreshedBy (right_rule function) self.now.seen.now self.now.moved.now self.now.held.now meter.old.ticks meter.new.ticks (with_change change.new result) }
        ensures joins { meter.new.joins ≡ meter.old.joins }
    {
        if let Some(function) = scalar_before(function) {
            return self.by(&EachMonadic { function }, change, meter);
        }
        self.of_any_right(function, change, meter)
    }

    /// Does the same for every function. Not inlined: the many rules are large.
    #[inline(never)]
    fn of_any_right(
        &self,
        function: Function1,
        change: &mut Delta,
        meter: &mut Meter,
    ) -> Result<u32, AllocError>
        requires count { length self.now.seen.now ≡ 1 }
        requires moves { length self.now.moved.now ≡ length self.now.seen.now }
        requires fit { AllFit self.now.seen.now (map changed_box self.now.moved.now) }
        ensures refreshed { IsRefreshedBy (right_rule function) self.now.seen.now self.now.moved.now self.now.held.now meter.old.ticks meter.new.ticks (with_change change.new result) }
        ensures joins { meter.new.joins ≡ meter.old.joins }
    {
        match function {
            Function1::Monad(function) => match function {
                Monadic::Scalar(function) => self.by(&EachMonadic { function }, change, meter),
                Monadic::Ravel => self.by(&Ravel, change, meter),
                Monadic::Reverse(along) => self.by(&Reverse { along }, change, meter),
                Monadic::Transpose => self.by(&Transpose, change, meter),
                Monadic::Shape => self.by(&ShapeOf, change, meter),
                Monadic::Iota => self.by(&IndexGenerator, change, meter),
            },
            Function1::Reduce(function, along) => {
                self.by(&Reduce { function, along }, change, meter)
            }
            Function1::Scan(function, along) => self.by(&Scan { function, along }, change, meter),
        }
    }

    /// Replaces `change` with the change of a function of two arguments, the left one first; returns its cost. Only scalar functions are inlined.
    #[inline(always)]
    pub(crate) fn of_both(
        &self,
        function: Function2,
        change: &mut Delta,
        meter: &mut Meter,
    ) -> Result<u32, AllocError>
        requires count { length self.now.seen.now ≡ 2 }
        requires moves { length self.now.moved.now ≡ length self.now.seen.now }
        requires fit { AllFit self.now.seen.now (map changed_box self.now.moved.now) }
        ensures refreshed { IsRefreshedBy (both_rule function) self.now.seen.now self.now.moved.now self.now.held.now meter.old.ticks meter.new.ticks (with_change change.new result) }
        ensures joins { meter.new.joins ≡ meter.old.joins }
    {
        if let Some(function) = scalar_between(function) {
            return self.by(&EachDyadic { function }, change, meter);
        }
        self.of_any_both(function, change, meter)
    }

    /// Does the same for every function. Not inlined: the many rules are large.
    #[inline(never)]
    fn of_any_both(
        &self,
        function: Function2,
        change: &mut Delta,
        meter: &mut Meter,
    ) -> Result<u32, AllocError>
        requires count { length self.now.seen.now ≡ 2 }
        requires moves { length self.now.moved.now ≡ length self.now.seen.now }
        requires fit { AllFit self.now.seen.now (map changed_box self.now.moved.now) }
        ensures refreshed { IsRefreshedBy (both_rule function) self.now.seen.now self.now.moved.now self.now.held.now meter.old.ticks meter.new.ticks (with_change change.new result) }
        ensures joins { meter.new.joins ≡ meter.old.joins }
    {
        match function {
            Function2::Dyad(function) => match function {
                Dyadic::Scalar(function) => self.by(&EachDyadic { function }, change, meter),
                Dyadic::Reshape => self.by(&Reshape, change, meter),
                Dyadic::Catenate(along) => self.by(&Catenate { along }, change, meter),
                Dyadic::Take => self.by(&Take, change, meter),
                Dyadic::Drop => self.by(&DropPlaces, change, meter),
                Dyadic::Rotate(along) => self.by(&Rotate { along }, change, meter),
                Dyadic::Transpose => self.by(&DyadicTranspose, change, meter),
                Dyadic::Replicate(along) => self.by(&Replicate { along }, change, meter),
                Dyadic::IndexOf => self.by(&IndexOf, change, meter),
                Dyadic::Member => self.by(&Member, change, meter),
                Dyadic::Encode => self.by(&Encode, change, meter),
                Dyadic::Decode => self.by(&Decode, change, meter),
            },
            Function2::Outer(function) => self.by(&Outer { function }, change, meter),
            Function2::Inner(fold, each) => self.by(&Inner { fold, each }, change, meter),
        }
    }

    /// Replaces `change` with the change of an index; returns its cost. The arguments are the array and the written positions.
    pub(crate) fn of_positions(
        &self,
        written: &[bool],
        change: &mut Delta,
        meter: &mut Meter,
    ) -> Result<u32, AllocError>
        requires count { length self.now.seen.now ≡ suc (count_written written.now) }
        requires moves { length self.now.moved.now ≡ length self.now.seen.now }
        requires fit { AllFit self.now.seen.now (map changed_box self.now.moved.now) }
        ensures refreshed { IsRefreshedBy (index_rule written.now) self.now.seen.now self.now.moved.now self.now.held.now meter.old.ticks meter.new.ticks (with_change change.new result) }
        ensures joins { meter.new.joins ≡ meter.old.joins }
    {
        self.by(&Index { written }, change, meter)
    }
}
