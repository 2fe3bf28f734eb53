//! The change of a node, from the changes of its arguments.

ghost use Rattle.std.specs.Prelude.{◌≡◌, ◌+◌, ◌≤◌, List, length, map, IfOk, OnOk, Ok, Some, false};
ghost use Rattle.arrays_core.specs.Shapes.{IsWithinLimits};
ghost use Rattle.arrays_core.specs.declared.item.ItemType.{ItemType as TypeOfItems};
ghost use Rattle.index_region.specs.Boxes.{box_size};
ghost use Rattle.index_region.specs.Checks.{form_of};
ghost use Rattle.index_region.specs.Moves.{changed_box};
ghost use Rattle.change_core.specs.Growth.{last_place};
ghost use Rattle.change_core.specs.Reaches.{AllFit};
ghost use Rattle.change_core.specs.Meters.{ticked, most_ticks};
ghost use Rattle.change_core.specs.RuleModels.{form_size};
ghost use Rattle.index_region.specs.declared.delta.Delta.TheVariants.{Whole};
ghost use Rattle.change_rules.specs.Evaluation.{evaluation};
ghost use Rattle.change_rules.specs.Nodes.{Argument, AreArguments, views, moved, is_error, node_delta, node_cost, reached_delta, reached_cost, grown_in, grown_size};
ghost use Rattle.change_rules.specs.Together.{lengthens, longer_delta, longer_cost, moved_delta, moved_cost};
ghost use Rattle.change_rules.specs.Currency.{BringsUpToDate, HasAxis, IsRight};

use crate::arguments::{
    any_longer, lists_of, longer_at_most, marks_of, none_moved, starts_anew, views_are_arrays,
};
use crate::evaluation::evaluate;
use crate::patch::{is_one_place, patch_of, patch_of_one};
use arrays_core::{Array, Fault, Shape, outcome, shape_of, size};
use change_core::{Meter, Reach, Rule, last_place};
use index_region::{Delta, IndexBox, Moved, Seen, Tail};
use std::alloc::{AllocError, Global};

/// Writes the change of a node that held an array and whose arguments were at most patched. Returns its cost. A `Delta` is large, so functions here
/// write it through `change`.
fn reached<R: Rule>(
    alloc: Global,
    rule: &R,
    seen: &[Seen],
    moved: &[Moved],
    change: &mut Delta,
    meter: &mut Meter,
) -> Result<u32, AllocError>
    requires count { length seen.now ≡ length (R.model rule.now).selectors }
    requires moves { length moved.now ≡ length seen.now }
    requires fit { AllFit seen.now (map changed_box moved.now) }
    requires small { meter.old.ticks ≤ most_ticks }
    ensures delta { OnOk result (change.new ≡ reached_delta (R.model rule.now) seen.now (map changed_box moved.now)) }
    ensures cost { IfOk result (λ n. n ≡ reached_cost (R.model rule.now) seen.now (map changed_box moved.now)) }
    ensures ticks { meter.new.ticks ≤ meter.old.ticks + reached_cost (R.model rule.now) seen.now (map changed_box moved.now) }
    ensures exact { IfOk result (λ n. is_error change.new ≡ false → meter.new.ticks ≡ ticked meter.old.ticks n) }
    ensures rises { meter.old.ticks ≤ meter.new.ticks }
    ensures joins { meter.new.joins ≡ meter.old.joins }
{
    let reached = match rule.reached(seen, moved) {
        Ok(reached) => reached,
        Err(kind) => {
            *change = Delta::Whole(Err(kind.into()));
            return Ok(0);
        }
    };
    match &reached.reach {
        Reach::Unmoved => {
            *change = Delta::Same;
            Ok(0)
        }
        Reach::Inside(region) => {
            if reached.reads_few && is_one_place(region) {
                patch_of_one(rule, seen, region, change, meter);
                return Ok(1);
            }
            patch_of(alloc, rule, seen, region, change, meter)
        }
        Reach::Anew => change_anew(alloc, rule, seen, change, meter),
    }
}

/// Evaluates the node from scratch, writes the result as the change, and returns its cost.
#[inline(never)]
fn change_anew<R: Rule>(
    alloc: Global,
    rule: &R,
    seen: &[Seen],
    change: &mut Delta,
    meter: &mut Meter,
) -> Result<u32, AllocError>
    requires { length seen.now ≡ length (R.model rule.now).selectors }
    ensures delta { OnOk result (change.new ≡ Whole (evaluation (R.model rule.now) seen.now)) }
    ensures cost { IfOk result (λ n. n ≡ form_size ((R.model rule.now).form seen.now)) }
    ensures ticks { meter.new.ticks ≤ meter.old.ticks + form_size ((R.model rule.now).form seen.now) }
    ensures exact { IfOk result (λ n. is_error change.new ≡ false → meter.new.ticks ≡ ticked meter.old.ticks n) }
    ensures rises { meter.old.ticks ≤ meter.new.ticks }
    ensures joins { meter.new.joins ≡ meter.old.joins }
{
    let whole = evaluate(alloc, rule, seen, meter)?;
    // the shape of the result gives the cost, since the checks of an index would visit all positions again
    let cost = match &whole {
        Ok(array) => size(array.shape().as_slice()),
        Err(_) => rule.places(seen),
    };
    *change = Delta::Whole(whole);
    Ok(cost)
}

/// Writes the change of a node that held an array and has an argument that grew, but none that was replaced. Returns its cost.
fn change_grown<R: Rule>(
    alloc: Global,
    rule: &R,
    seen: &[Seen],
    moved: &[Moved],
    change: &mut Delta,
    meter: &mut Meter,
) -> Result<u32, AllocError>
    requires count { length seen.now ≡ length (R.model rule.now).selectors }
    requires moves { length moved.now ≡ length seen.now }
    requires small { meter.old.ticks ≤ most_ticks }
    ensures delta { OnOk result (change.new ≡ longer_delta (R.model rule.now) seen.now moved.now) }
    ensures cost { IfOk result (λ n. n ≡ longer_cost (R.model rule.now) seen.now moved.now) }
    ensures ticks { meter.new.ticks ≤ meter.old.ticks + longer_cost (R.model rule.now) seen.now moved.now }
    ensures exact { IfOk result (λ n. is_error change.new ≡ false → meter.new.ticks ≡ ticked meter.old.ticks n) }
    ensures rises { meter.old.ticks ≤ meter.new.ticks }
    ensures joins { meter.new.joins ≡ meter.old.joins }
{
    if node_grows(alloc, rule, seen, moved)? {
        tail_of(alloc, rule, seen, change, meter)
    } else {
        change_anew(alloc, rule, seen, change, meter)
    }
}

/// Tells if the node grows by one place of its first axis.
fn node_grows<R: Rule>(
    alloc: Global,
    rule: &R,
    seen: &[Seen],
    moved: &[Moved],
) -> Result<bool, AllocError>
    requires count { length seen.now ≡ length (R.model rule.now).selectors }
    requires moves { length moved.now ≡ length seen.now }
    ensures { IfOk result (λ b. b ≡ lengthens (R.model rule.now) seen.now moved.now) }
{
    if !longer_at_most(moved) {
        return Ok(false);
    }
    let marks = marks_of(alloc, moved)?;
    Ok(rule.grows(seen, marks.as_slice()))
}

/// Runs the checks, then writes the items of the new last place as the change. Returns its cost.
fn tail_of<R: Rule>(
    alloc: Global,
    rule: &R,
    seen: &[Seen],
    change: &mut Delta,
    meter: &mut Meter,
) -> Result<u32, AllocError>
    requires count { length seen.now ≡ length (R.model rule.now).selectors }
    requires small { meter.old.ticks ≤ most_ticks }
    ensures delta { OnOk result (change.new ≡ grown_in ((R.model rule.now).form seen.now) ((R.model rule.now).item seen.now)) }
    ensures cost { IfOk result (λ n. n ≡ grown_size ((R.model rule.now).form seen.now)) }
    ensures ticks { meter.new.ticks ≤ meter.old.ticks + grown_size ((R.model rule.now).form seen.now) }
    ensures exact { IfOk result (λ n. is_error change.new ≡ false → meter.new.ticks ≡ ticked meter.old.ticks n) }
    ensures rises { meter.old.ticks ≤ meter.new.ticks }
    ensures joins { meter.new.joins ≡ meter.old.joins }
{
    let (shape, item_type) = match rule.shape(seen) {
        Ok(form) => form,
        Err(kind) => {
            *change = Delta::Whole(Err(kind.into()));
            return Ok(0);
        }
    };
    let Some(region) = last_place(shape.as_slice()) else {
        let none = Array::filled(alloc, item_type, &shape_of(alloc, &[0]))?;
        *change = Delta::Grown(Tail::of(shape, none)?);
        return Ok(0);
    };
    let cost = region.size() as u32;
    if cost == 1 {
        tail_of_one(rule, seen, shape, &region, change, meter)?;
        return Ok(1);
    }
    match outcome(rule.part(alloc, seen, shape.as_slice(), item_type, &region, meter))? {
        Ok(values) => *change = Delta::Grown(Tail::of(shape, values)?),
        Err(fault) => *change = Delta::Whole(Err(fault)),
    }
    Ok(cost)
}

/// Writes the one new item of a node that grows to `shape`, or its error. Allocates only if the result needs new memory for its items.
fn tail_of_one<R: Rule>(
    rule: &R,
    seen: &[Seen],
    shape: Shape,
    region: &IndexBox,
    change: &mut Delta,
    meter: &mut Meter,
) -> Result<(), AllocError>
    requires count { length seen.now ≡ length (R.model rule.now).selectors }
    requires one { box_size region.now ≡ 1 }
    requires inline { shape.capacity ≡ 4 }
    requires within { IsWithinLimits shape.items }
    requires checked { (t : TypeOfItems) × ((R.model rule.now).form seen.now ≡ Ok (form_of shape.items t)) }
    requires last { last_place shape.items ≡ Some region.now }
    ensures delta { OnOk result (change.new ≡ grown_in ((R.model rule.now).form seen.now) ((R.model rule.now).item seen.now)) }
    ensures ticks { meter.new.ticks ≤ meter.old.ticks + 1 }
    ensures exact { OnOk result (is_error change.new ≡ false → meter.new.ticks ≡ ticked meter.old.ticks 1) }
    ensures rises { meter.old.ticks ≤ meter.new.ticks }
    ensures joins { meter.new.joins ≡ meter.old.joins }
{
    let index = region.index_at(0);
    match rule.item(seen, index.as_slice(), meter) {
        Ok(item) => *change = Delta::Grown(Tail::one(shape, item)?),
        Err(kind) => *change = Delta::Whole(Err(kind.into())),
    }
    Ok(())
}

/// Writes the change of a node, by cases on the changed places of its arguments. Returns its cost.
#[inline(always)]
fn change_by_moves<R: Rule>(
    alloc: Global,
    rule: &R,
    seen: &[Seen],
    moved: &[Moved],
    held: &Result<Array, Fault>,
    change: &mut Delta,
    meter: &mut Meter,
) -> Result<u32, AllocError>
    requires count { length seen.now ≡ length (R.model rule.now).selectors }
    requires moves { length moved.now ≡ length seen.now }
    requires fit { AllFit seen.now (map changed_box moved.now) }
    requires small { meter.old.ticks ≤ most_ticks }
    ensures delta { OnOk result (change.new ≡ moved_delta (R.model rule.now) seen.now moved.now held.now) }
    ensures cost { IfOk result (λ n. n ≡ moved_cost (R.model rule.now) seen.now moved.now held.now) }
    ensures ticks { meter.new.ticks ≤ meter.old.ticks + moved_cost (R.model rule.now) seen.now moved.now held.now }
    ensures exact { IfOk result (λ n. is_error change.new ≡ false → meter.new.ticks ≡ ticked meter.old.ticks n) }
    ensures rises { meter.old.ticks ≤ meter.new.ticks }
    ensures joins { meter.new.joins ≡ meter.old.joins }
{
    if none_moved(moved) {
        *change = Delta::Same;
        return Ok(0);
    }
    if starts_anew(moved, held) {
        return change_anew(alloc, rule, seen, change, meter);
    }
    if any_longer(moved) {
        return change_grown(alloc, rule, seen, moved, change, meter);
    }
    reached(alloc, rule, seen, moved, change, meter)
}

/// Replaces `change` by the change of a node, given the views of its arguments, the changed places of each and the value that it held. Returns the cost:
/// the most items of the result that it computes. Does not allocate if one place of the result changes, unless `patch_of` does.
#[inline(always)]
pub fn change_of<R: Rule>(
    alloc: Global,
    rule: &R,
    seen: &[Seen],
    moved: &[Moved],
    held: &Result<Array, Fault>,
    change: &mut Delta,
    meter: &mut Meter,
) -> Result<u32, AllocError>
    requires count { length seen.now ≡ length (R.model rule.now).selectors }
    requires moves { length moved.now ≡ length seen.now }
    requires fit { AllFit seen.now (map changed_box moved.now) }
    ensures delta { OnOk result ((args : List Argument) → AreArguments seen.now moved.now args → change.new ≡ node_delta (R.model rule.now) args held.now) }
    ensures cost { IfOk result (λ n. (args : List Argument) → AreArguments seen.now moved.now args → n ≡ node_cost (R.model rule.now) args held.now) }
    ensures ticks { (args : List Argument) → AreArguments seen.now moved.now args → meter.new.ticks ≤ meter.old.ticks + node_cost (R.model rule.now) args held.now }
    ensures exact { IfOk result (λ n. is_error change.new ≡ false → meter.new.ticks ≡ ticked meter.old.ticks n) }
    ensures rises { meter.old.ticks ≤ meter.new.ticks }
    ensures joins { meter.new.joins ≡ meter.old.joins }
    ensures right { OnOk result ((args : List Argument) → AreArguments seen.now moved.now args → IsRight (R.model rule.now) (views args) change.new) }
    ensures whole { OnOk result ((args : List Argument) → AreArguments seen.now moved.now args → HasAxis args → BringsUpToDate (R.model rule.now) args held.now change.new) }
{
    views_are_arrays(seen);
    // Reading the count brings in the fact that it fits 64 bits.
    let _counted = meter.ticks();
    change_by_moves(alloc, rule, seen, moved, held, change, meter)
}

/// Returns the change of a node from the changes of its arguments. If `old` was the evaluation of the old arguments, applying the change yields the
/// evaluation of the new ones. Returns `Same` if no argument changed. Ticks once for each computed item. Fails only for lack of memory.
#[tactic(auto, using(crate::proofs::Told::count_told, crate::proofs::Told::moves_told, crate::proofs::Told::fit_told))]
pub fn refresh<R: Rule>(
    alloc: Global,
    rule: &R,
    args: &[(Seen, &Delta)],
    old: &Result<Array, Fault>,
    meter: &mut Meter,
) -> Result<Delta, AllocError>
    requires count { length args.now ≡ length (R.model rule.now).selectors }
    requires fit { AllFit (views args.now) (moved args.now) }
    requires axes { HasAxis args.now }
    ensures delta { IfOk result (λ d. d ≡ node_delta (R.model rule.now) args.now old.now) }
    ensures ticks { meter.new.ticks ≤ meter.old.ticks + node_cost (R.model rule.now) args.now old.now }
    ensures exact { IfOk result (λ d. is_error d ≡ false → meter.new.ticks ≡ ticked meter.old.ticks (node_cost (R.model rule.now) args.now old.now)) }
    ensures rises { meter.old.ticks ≤ meter.new.ticks }
    ensures joins { meter.new.joins ≡ meter.old.joins }
    ensures right { IfOk result (λ d. IsRight (R.model rule.now) (views args.now) d) }
    ensures whole { IfOk result (λ d. BringsUpToDate (R.model rule.now) args.now old.now d) }
{
    let mut change = Delta::Same;
    // One argument needs no allocation.
    if let [(array, delta)] = args {
        let (view, places) = ([array.again()], [Moved::of(delta)]);
        change_of(alloc, rule, &view, &places, old, &mut change, meter)?;
        return Ok(change);
    }
    let (seen, moved) = lists_of(alloc, args)?;
    change_of(alloc, rule, &seen, &moved, old, &mut change, meter)?;
    Ok(change)
}
