//! The change of an index, from its inputs.

ghost use Rattle.std.specs.Prelude.{◌≡◌, ◌≤◌, ◌∷◌, is_some, length, map, take};
ghost use Rattle.std.specs.List.{list_all};
ghost use Rattle.change_core.specs.Reaches.{AllFit};
ghost use Rattle.change_rules.specs.Nodes.{views, moved};
ghost use Rattle.selection_fns.specs.Index.{count_written, index_rule};
ghost use Rattle.formula_core.specs.Rules.{with_change, IsRefreshed};
ghost use Rattle.formula_core.specs.Inputs.{stays, HasFit, AllHaveFit, IsOperationChange, arrays_among, last_error, written_inputs};

use crate::input::Input;
use crate::lent_fault::LentFault;
use crate::operation_change::beside_error;
use crate::positions::{FEW_POSITIONS, written_of};
use crate::refreshing::Operation;
use arrays_core::{Array, Fault, Kind};
use change_core::Meter;
use index_region::{Delta, Moved, Seen};
use std::alloc::{AllocError, Global};

/// Replaces `change` with the change of an index; returns its cost. An error among the inputs is the result: the last position comes first,
/// the array last.
pub(crate) fn change_of_index(
    alloc: Global,
    array: &Input,
    positions: &[Option<Input>],
    held: &Result<Array, Fault>,
    change: &mut Delta,
    meter: &mut Meter,
) -> Result<u32, AllocError>
    requires array { HasFit array.now }
    requires positions { AllHaveFit positions.now }
    ensures change { IsOperationChange (index_rule (map is_some positions.now)) (array.now ∷ written_inputs positions.now) held.now meter.old.ticks meter.new.ticks (with_change change.new result) }
    ensures joins { meter.new.joins ≡ meter.old.joins }
{
    match (last_fault(positions), array) {
        (Some(fault), _) => {
            beside_error(&fault, all_stay(array, positions), change);
            Ok(0)
        }
        (None, Input::Bad { fault, .. }) => {
            beside_error(fault, all_stay(array, positions), change);
            Ok(0)
        }
        (None, Input::Good(indexed, delta)) => {
            if positions.len() > FEW_POSITIONS {
                let _is_array = indexed.shape();
                let rank: Fault = Kind::Rank.into();
                beside_error(&LentFault::of(&rank), all_stay(array, positions), change);
                return Ok(0);
            }
            let indexed = (indexed.again(), *delta);
            change_of_arrays(alloc, &indexed, positions, held, change, meter)
        }
    }
}

/// Replaces `change` with the change of an index of arrays; returns its cost. Allocates nothing for the arguments; the array fills their unused
/// entries.
fn change_of_arrays<'x>(
    alloc: Global,
    indexed: &'x (Seen<'x>, &'x Delta),
    positions: &'x [Option<Input<'x>>],
    held: &'x Result<Array, Fault>,
    change: &mut Delta,
    meter: &mut Meter,
) -> Result<u32, AllocError>
    requires few { length positions.now ≤ 4 }
    requires count { length (arrays_among (written_inputs positions.now)) ≡ count_written (map is_some positions.now) }
    requires fit { AllFit (views (indexed.now ∷ arrays_among (written_inputs positions.now))) (moved (indexed.now ∷ arrays_among (written_inputs positions.now))) }
    ensures refreshed { IsRefreshed (index_rule (map is_some positions.now)) (indexed.now ∷ arrays_among (written_inputs positions.now)) held.now meter.old.ticks meter.new.ticks (with_change change.new result) }
    ensures joins { meter.new.joins ≡ meter.old.joins }
{
    let written = written_of(alloc, positions)?;
    let mut seen = [
        indexed.0.again(),
        indexed.0.again(),
        indexed.0.again(),
        indexed.0.again(),
        indexed.0.again(),
    ];
    let mut moved = [Moved::of(indexed.1); 5];
    let mut count = 1;
    for position in positions {
        match position {
            Some(Input::Good(array, delta)) => {
                seen[count] = array.again();
                moved[count] = Moved::of(delta);
                count += 1;
            }
            Some(Input::Bad { .. }) => {}
            None => {}
        }
    }
    let operation = Operation {
        alloc,
        seen: &seen[..count],
        moved: &moved[..count],
        held,
    };
    operation.of_positions(written.as_slice(), change, meter)
}

/// Returns the error of the last position that has one.
fn last_fault<'a>(positions: &'a [Option<Input>]) -> Option<LentFault<'a>>
    ensures { result ≡ last_error (written_inputs positions.now) }
{
    let mut last = None;
    for position in positions {
        if let Some(Input::Bad { fault, .. }) = position {
            last = Some(fault.again());
        }
    }
    last
}

/// Returns whether neither the array nor a position changed.
fn all_stay(array: &Input, positions: &[Option<Input>]) -> bool
    ensures { result ≡ list_all stays (array.now ∷ written_inputs positions.now) }
{
    array.stays()
        && positions.iter().all(|position| match position {
            Some(input) => input.stays(),
            None => true,
        })
}
