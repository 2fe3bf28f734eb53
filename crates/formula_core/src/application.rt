//! Applies a function to arrays: asks for its change with every argument marked new.

ghost use Rattle.std.specs.Prelude.{◌≡◌, IfOk, true};
ghost use Rattle.arrays_core.specs.Outcomes.{given};
ghost use Rattle.index_region.specs.declared.delta.Delta.TheVariants.{Whole};
ghost use Rattle.change_rules.specs.Nodes.{is_whole};
ghost use Rattle.formula_core.specs.Meaning.{of_right, of_both};

use crate::lent_fault::unknown;
use crate::refreshing::Operation;
use apl_expr::{Function1, Function2};
use arrays_core::{Array, Fault};
use change_core::Meter;
use index_region::{Delta, Moved, Seen};
use std::alloc::{AllocError, Global};

/// Applies a function of one argument. Returns the array or the error without an origin.
pub(crate) fn of_right(
    alloc: Global,
    function: Function1,
    array: &Array,
) -> Result<Result<Array, Fault>, AllocError>
    ensures { IfOk result (λ outcome. outcome ≡ given (of_right function array.now)) }
{
    let operation = Operation {
        alloc,
        seen: &[Seen::plain(array)],
        moved: &[Moved::Anew],
        held: &Err(unknown()),
    };
    let mut change = Delta::Same;
    let _cost = operation.of_right(function, &mut change, &mut Meter::new())?;
    Ok(brought(change))
}

/// Applies a function of two arguments. Returns the array or the error without an origin.
pub(crate) fn of_both(
    alloc: Global,
    function: Function2,
    left: &Array,
    right: &Array,
) -> Result<Result<Array, Fault>, AllocError>
    ensures { IfOk result (λ outcome. outcome ≡ given (of_both function left.now right.now)) }
{
    let operation = Operation {
        alloc,
        seen: &[Seen::plain(left), Seen::plain(right)],
        moved: &[Moved::Anew, Moved::Anew],
        held: &Err(unknown()),
    };
    let mut change = Delta::Same;
    let _cost = operation.of_both(function, &mut change, &mut Meter::new())?;
    Ok(brought(change))
}

/// Returns the array or the error of a change of the whole.
fn brought(change: Delta) -> Result<Array, Fault>
    requires { is_whole change ≡ true }
    ensures { change ≡ Whole result }
{
    match change {
        Delta::Whole(outcome) => outcome,
        _ => unreachable!(),
    }
}
