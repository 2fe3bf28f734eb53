//! The change of an operation, from its inputs. An error among the inputs is the result.

ghost use Rattle.std.specs.Prelude.{◌≡◌, [], ◌∷◌, Some, None, Err, if◌then◌else◌};
ghost use Rattle.index_region.specs.declared.delta.Delta.TheVariants.{Same, Whole as WholeDelta};
ghost use Rattle.sum_rules.specs.Totals.{total_rule};
ghost use Rattle.formula_core.specs.Inputs.{shown, delta_of, HasFit, IsOperationChange};
ghost use Rattle.formula_core.specs.Rules.{right_rule, both_rule, with_change};
ghost use Rattle.formula_core.specs.Stages.{AreTotalsJoined};
ghost use Rattle.formula_core.specs.Sums.{total_of as fold_of_total, IsSummedFor, IsJoinedFrom, AreNewSums, AreSumsKept};

use crate::input::Input;
use crate::lent_fault::LentFault;
use crate::refreshing::Operation;
use crate::sums::{SumsDelta, total_of, trees_with};
use apl_expr::{Function1, Function2};
use arrays_core::{Array, Fault};
use change_core::Meter;
use index_region::{Delta, Moved};
use operator_fns::Reduce;
use std::alloc::{AllocError, Global};
use sum_rules::{LineSums, fold_totals_with_cost, read_totals_with_cost, refresh_totals_with_cost};

/// Replaces `change` with the change of a function of one argument; returns its cost. An error of the argument is the result.
#[inline(always)]
fn change_of_right(
    alloc: Global,
    function: Function1,
    right: &Input,
    held: &Result<Array, Fault>,
    change: &mut Delta,
    meter: &mut Meter,
) -> Result<u32, AllocError>
    requires { HasFit right.now }
    ensures change { IsOperationChange (right_rule function) (right.now ∷ []) held.now meter.old.ticks meter.new.ticks (with_change change.new result) }
    ensures joins { meter.new.joins ≡ meter.old.joins }
{
    match right {
        Input::Good(array, delta) => {
            let operation = Operation {
                alloc,
                seen: &[array.again()],
                moved: &[Moved::of(delta)],
                held,
            };
            operation.of_right(function, change, meter)
        }
        Input::Bad { fault, .. } => {
            beside_error(fault, right.stays(), change);
            Ok(0)
        }
    }
}

/// Replaces `change` with the change of a function of one argument; returns its cost. A total uses the kept or rebuilt sums of its argument's
/// lines. Only totals join.
#[inline(always)]
pub(crate) fn change_of_monad(
    alloc: Global,
    function: Function1,
    right: &Input,
    kept: &Option<LineSums>,
    made: &SumsDelta,
    held: &Result<Array, Fault>,
    change: &mut Delta,
    meter: &mut Meter,
) -> Result<u32, AllocError>
    requires fit { HasFit right.now }
    requires kept { (fold : Reduce) → fold_of_total function ≡ Some fold → IsSummedFor fold (shown right.now) (delta_of right.now) kept.now }
    requires made { (fold : Reduce) → fold_of_total function ≡ Some fold → AreNewSums fold (shown right.now) made.now }
    requires joined { IsJoinedFrom kept.now made.now }
    ensures change { IsOperationChange (right_rule function) (right.now ∷ []) held.now meter.old.ticks meter.new.ticks (with_change change.new result) }
    ensures joins { (fold : Reduce) → fold_of_total function ≡ Some fold → AreSumsKept fold (shown right.now) (delta_of right.now) kept.now
        → AreTotalsJoined fold right.now held.now meter.old.joins meter.new.joins (with_change change.new result) }
    ensures no_joins { fold_of_total function ≡ None → meter.new.joins ≡ meter.old.joins }
{
    match total_of(function) {
        Some(fold) => change_of_total(alloc, fold, right, kept, made, held, change, meter),
        None => change_of_right(alloc, function, right, held, change, meter),
    }
}

/// Replaces `change` with the change of a total along an axis; returns its cost. For a replaced array it reads the new sums, if there are any.
/// Otherwise it uses the kept sums, or folds the lines if there are none. An error of the argument is the result.
#[inline(never)]
fn change_of_total(
    alloc: Global,
    fold: Reduce,
    right: &Input,
    kept: &Option<LineSums>,
    made: &SumsDelta,
    held: &Result<Array, Fault>,
    change: &mut Delta,
    meter: &mut Meter,
) -> Result<u32, AllocError>
    requires fit { HasFit right.now }
    requires kept { IsSummedFor fold (shown right.now) (delta_of right.now) kept.now }
    requires made { AreNewSums fold (shown right.now) made.now }
    requires joined { IsJoinedFrom kept.now made.now }
    ensures change { IsOperationChange (total_rule fold) (right.now ∷ []) held.now meter.old.ticks meter.new.ticks (with_change change.new result) }
    ensures joins { AreSumsKept fold (shown right.now) (delta_of right.now) kept.now → AreTotalsJoined fold right.now held.now meter.old.joins meter.new.joins (with_change change.new result) }
{
    match right {
        Input::Good(array, delta) => {
            if let Delta::Whole(_) = delta {
                if let SumsDelta::Whole(new) = made {
                    if let Some(new) = new {
                        return read_totals_with_cost(alloc, fold, array, new, change, meter);
                    }
                }
            }
            let arg = (array.again(), *delta);
            match kept {
                Some(sums) => {
                    let trees = trees_with(sums, made);
                    refresh_totals_with_cost(alloc, fold, arg, held, &trees, change, meter)
                }
                None => fold_totals_with_cost(alloc, fold, arg, held, change, meter),
            }
        }
        Input::Bad { fault, .. } => {
            beside_error(fault, right.stays(), change);
            Ok(0)
        }
    }
}

/// Replaces `change` with the change of a function of two arguments; returns its cost. An error of an argument is the result, the right one's
/// first.
#[inline(always)]
pub(crate) fn change_of_both(
    alloc: Global,
    function: Function2,
    left: &Input,
    right: &Input,
    held: &Result<Array, Fault>,
    change: &mut Delta,
    meter: &mut Meter,
) -> Result<u32, AllocError>
    requires left { HasFit left.now }
    requires right { HasFit right.now }
    ensures change { IsOperationChange (both_rule function) (left.now ∷ right.now ∷ []) held.now meter.old.ticks meter.new.ticks (with_change change.new result) }
    ensures joins { meter.new.joins ≡ meter.old.joins }
{
    let stay = left.stays() && right.stays();
    match (left, right) {
        (_, Input::Bad { fault, .. }) => {
            beside_error(fault, stay, change);
            Ok(0)
        }
        (Input::Bad { fault, .. }, _) => {
            beside_error(fault, stay, change);
            Ok(0)
        }
        (Input::Good(left, of_left), Input::Good(right, of_right)) => {
            let operation = Operation {
                alloc,
                seen: &[left.again(), right.again()],
                moved: &[Moved::of(of_left), Moved::of(of_right)],
                held,
            };
            operation.of_both(function, change, meter)
        }
    }
}

/// Replaces `change` with the change of an operation with an error among its inputs: that error, or nothing if no input changed. Costs 0. Not
/// inlined: an error is large.
#[inline(never)]
pub(crate) fn beside_error(fault: &LentFault, stay: bool, change: &mut Delta)
    ensures { change.new ≡ (if stay then Same else WholeDelta (Err fault.now)) }
{
    *change = if stay {
        Delta::Same
    } else {
        Delta::Whole(Err(fault.fault()))
    };
}
