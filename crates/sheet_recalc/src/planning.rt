//! The planner: plans each formula that a change reaches, references first.

ghost use Rattle.std.specs.Prelude.{◌≡◌, ◌+◌, ◌≤◌, ◌<◌, ◌∷◌, ◌++◌, ◌⊎◌, ℕ, [], true, false, length, get_or, IfOk, IfErr, OnOk, Some, List, IsTrue, MatchBool};
ghost use Rattle.std.specs.List.{sum_by};
ghost use Rattle.std.specs.Map.{keys_of};
ghost use Rattle.arrays_core.specs.Arrays.{IsArray};
ghost use Rattle.sheet_recalc.specs.Meaning.{val};
ghost use Rattle.sheet_recalc.specs.ProposedSheet.{outline_of, is_data, proposed_names};
ghost use Rattle.sheet_recalc.specs.Changes.{HasRoomForName, IsFullFor, CannotBecome};
ghost use Rattle.sheet_recalc.specs.Costs.{AreAllThatReach};
ghost use Rattle.sheet_recalc.specs.Entries.{names_of};
ghost use Rattle.sheet_recalc.specs.Live.{IsLive, IsCurrent, IsReach};
ghost use Rattle.sheet_recalc.specs.Planning.{IsProposalAt, IsProposed, IsOnTheWay, IsPaid, HasFunctionLeft, CanBe, functions_at};
ghost use Rattle.index_region.specs.declared.delta.Delta.TheVariants.{Same};
ghost use Rattle.sheet_recalc.specs.declared.budget.Budget.TheVariants.{Spent};

use crate::ahead::Ahead;
use crate::budget::Budget;
use crate::cycle::cycle_through;
use crate::entry::Entry;
use crate::evaluation::lent;
use crate::plans::{Found, Plans};
use crate::proposed_sheet::ProposedSheet;
use crate::refusal::Refusal;
use crate::sheet::MOST_NAMES;
use change_core::Meter;
use dep_order::{Users, affected, first_found};
use index_region::Delta;
use indexmap::IndexMap;
use names::Name;
use std::alloc::{AllocError, Global};

/// Finds the names that a change reaches, in the memory of `found`. With `is_known` that map has them already, and the call returns at once.
#[inline(always)]
fn reach(
    proposed: &ProposedSheet<'_>,
    users: &Users<Name>,
    is_known: bool,
    found: &mut Found,
) -> Result<(), AllocError>
    requires live { IsLive proposed.now.entries.now.entries users.now.entries }
    requires known { IsTrue is_known → IsReach users.now.entries proposed.now.name found.old.entries }
    ensures { OnOk result (IsReach users.now.entries proposed.now.name found.new.entries) }
{
    if is_known {
        return Ok(());
    }
    affected(users, proposed.name, proposed.entries.len(), found)
}

/// Begins to plan: finds the names that the change reaches, in the memory of `plans`, and clears the plans. `spent` is the cost so far. With `is_known`
/// the names are there already. Refuses a change by which the name would reach itself, and a new name for which the sheet has no room.
pub(crate) fn begun(
    alloc: Global,
    proposed: &ProposedSheet<'_>,
    users: &Users<Name>,
    spent: u64,
    is_known: bool,
    plans: &mut Plans,
) -> Result<(), Refusal>
    requires known { IsTrue is_known → IsReach users.now.entries proposed.now.name plans.old.found.entries }
    requires live { IsLive proposed.now.entries.now.entries users.now.entries }
    requires proposal { IsProposalAt proposed.now.entries.now.entries proposed.now.name proposed.now.proposal.now }
    ensures proposed { OnOk result (IsProposed (outline_of proposed.now)) }
    ensures way { OnOk result ((base : ℕ) → base ≡ spent
        → IsOnTheWay (outline_of proposed.now) base (sum_by (functions_at (outline_of proposed.now)) (keys_of plans.new.found.entries)) plans.new base) }
    ensures reached { OnOk result (IsReach users.now.entries proposed.now.name plans.new.found.entries) }
    ensures all { OnOk result (AreAllThatReach (proposed_names (outline_of proposed.now)) proposed.now.name (keys_of plans.new.found.entries)) }
    ensures can { OnOk result (CanBe (outline_of proposed.now)) }
    ensures refused { IfErr result (CannotBecome (names_of proposed.now.entries.now.entries) (proposed_names (outline_of proposed.now)) proposed.now.name) }
{
    shown_is_sound(proposed);
    reach(proposed, users, is_known, &mut plans.found)?;
    plans.places.resize(plans.found.len(), 0)?;
    if let Some(reference) = first_found(&plans.found, proposed.proposal.references()) {
        let cycle = cycle_through(alloc, proposed, &plans.found, reference)?;
        return Err(Refusal::Cycle(cycle));
    }
    if !has_room(proposed.entries, proposed.name) {
        return Err(Refusal::SheetFull);
    }
    plans.waiting = plans.found.len();
    plans.current = None;
    plans.cost = spent;
    Ok(())
}

/// Brings the fact that the name shows an array or an error. It looks a name up that is bound to a formula or removed; data needs no lookup.
fn shown_is_sound(proposed: &ProposedSheet<'_>)
    requires { IsCurrent proposed.now.entries.now.entries }
    ensures { is_data proposed.now.proposal.now ≡ false → IfOk (val (names_of proposed.now.entries.now.entries) proposed.now.name) IsArray }
{
    if proposed.proposal.is_data() {
        return;
    }
    if let Ok(array) = lent(proposed.entries, &proposed.name) {
        let _is_array = array.shape();
    }
}

/// Returns true if there is room for a name: it is present, or fewer than `MOST_NAMES` names are.
fn has_room(entries: &IndexMap<Name, Entry>, name: Name) -> bool
    ensures { MatchBool result (HasRoomForName (names_of entries.now.entries) name) (IsFullFor (names_of entries.now.entries) name) }
{
    entries.len() < MOST_NAMES || entries.contains_key(&name)
}

/// Counts the functions that the formulas of the names in the map apply.
pub(crate) fn functions_in(proposed: &ProposedSheet<'_>, found: &Found) -> u128
    ensures { result ≡ sum_by (functions_at (outline_of proposed.now)) (keys_of found.now.entries) }
{
    let mut count = 0;
    for place in 0..found.len() {
        count += u128::from(functions_at(proposed, found, place));
    }
    count
}

/// Counts the functions of the formula of the name at a place.
fn functions_at(proposed: &ProposedSheet<'_>, found: &Found, place: usize) -> u64
    requires { place < length found.now.entries }
    ensures { result ≡ functions_at (outline_of proposed.now) (get_or (keys_of found.now.entries) place []) }
{
    let Some((name, _)) = found.get_index(place) else {
        return 0;
    };
    match proposed.formula_of(*name) {
        Some(formula) => formula.all_operations() as u64,
        None => 0,
    }
}

/// Plans the formulas of the names that wait, the last first, and applies functions within the budget. If memory is refused, the plans made so far
/// stay, the one under way included, and the budget tells whether a function was applied.
pub(crate) fn run(
    alloc: Global,
    proposed: &ProposedSheet<'_>,
    plans: &mut Plans,
    budget: &mut Budget,
    meter: &mut Meter,
) -> Result<(), AllocError>
    requires proposed { IsProposed (outline_of proposed.now) }
    requires way { (base left : ℕ) × IsOnTheWay (outline_of proposed.now) base left plans.old meter.old.ticks }
    ensures way { (base left : ℕ) → IsOnTheWay (outline_of proposed.now) base left plans.old meter.old.ticks
        → (rest : ℕ) × IsOnTheWay (outline_of proposed.now) base rest plans.new meter.new.ticks × IsPaid (outline_of proposed.now) budget.old budget.new left rest meter.old.ticks meter.new.ticks }
    ensures end { OnOk result ((plans.new.waiting ≡ 0) ⊎ ((budget.new ≡ Spent) × HasFunctionLeft (outline_of proposed.now) plans.new meter.new.ticks)) }
    ensures keys { keys_of plans.new.found.entries ≡ keys_of plans.old.found.entries }
{
    // The change of each name that shows the same as before.
    let unchanged = Delta::Same;
    let mut last = None;
    while let Some(name) = plans.next_name() {
        let Some((formula, place)) = proposed.placed_formula(name, plans.hint()) else {
            plans.waiting -= 1;
            last = None;
            continue;
        };
        let ahead = Ahead {
            proposed,
            found: &plans.found,
            unchanged: &unchanged,
            last,
            place: plans.waiting,
        };
        let is_whole = ahead.work(alloc, formula, &mut plans.current, budget, meter)?;
        if !is_whole {
            return Ok(());
        }
        plans.keep(place);
        last = Some(formula);
    }
    Ok(())
}
