//! The slots of a desk.

ghost use Rattle.std.specs.Prelude.{◌≡◌, ◌+◌, ◌<◌, pos, length, map, false, None, Some, MatchOption, OnErr, OnOk, IfOk, IfErr};
ghost use Rattle.std.specs.Option.{option_map};
ghost use Rattle.sheet_recalc.specs.Pending.{steps_left};
ghost use Rattle.sheet_desk.specs.Slots.{slot_in, with_slot};
ghost use Rattle.sheet_desk.specs.Desk.{commit_refusal};
ghost use Rattle.sheet_desk.specs.Held.{slot_values_of, marked};

use apl_expr::Change;
use sheet_recalc::{Pending, Refusal};

/// An open change.
#[derive(Drop)]
pub(crate) struct Slot {
    pub(crate) change: Change,
    pub(crate) pending: Pending,
    /// Another change was made after this one was opened.
    pub(crate) is_stale: bool,
}

/// Returns the index of the slot with this number; numbers begin at 1.
pub(crate) fn place_in(slots: &[Option<Slot>], number: i64) -> Option<usize>
    ensures { MatchOption result (slot_in slots.now number ≡ None) (λ place. (place < length slots.now) × (number ≡ pos (place + 1))) }
{
    let place = usize::try_from(number).ok()?.checked_sub(1)?;
    if place < slots.len() {
        Some(place)
    } else {
        None
    }
}

/// Marks every open change as stale.
pub(crate) fn mark_stale(slots: &mut [Option<Slot>])
    ensures { slots.new ≡ map (option_map marked) slots.old }
{
    for held in slots.iter_mut() {
        if let Some(slot) = held {
            slot.is_stale = true;
        }
    }
}

/// Takes the change out of a slot for a commit. Fails if there is no such slot, it is empty, its change is stale, or steps are left.
pub(crate) fn take_ready(slots: &mut [Option<Slot>], number: i64) -> Result<Slot, Refusal>
    ensures ok { IfOk result (λ slot. slot_in slots.old number ≡ Some (Some slot)) }
    ensures fresh { IfOk result (λ slot. slot.is_stale ≡ false) }
    ensures left { IfOk result (λ slot. steps_left slot.pending ≡ 0) }
    ensures out { OnOk result (slots.new ≡ with_slot slots.old number None) }
    ensures refused { IfErr result (λ cause. commit_refusal (slot_in (slot_values_of slots.old) number) ≡ Some cause) }
    ensures err { OnErr result (slots.new ≡ slots.old) }
{
    let Some(place) = place_in(slots, number) else {
        return Err(Refusal::NoSlot);
    };
    match &slots[place] {
        None => Err(Refusal::NoSlot),
        Some(slot) if slot.is_stale => Err(Refusal::Stale),
        Some(slot) if slot.pending.left() > 0 => Err(Refusal::NotReady),
        Some(_) => slots[place].take().ok_or(Refusal::NoSlot),
    }
}
