//! The new items of a box of a result.

ghost use Rattle.std.specs.Prelude.{◌≡◌, ◌==◌, ◌+◌, ◌≤◌, length, false, Ok, IsTrue, IfOk, OnOk};
ghost use Rattle.std.specs.List.{list_all};
ghost use Rattle.index_region.specs.Answers.{IsFormAnswerTo};
ghost use Rattle.index_region.specs.Boxes.{box_size, fits};
ghost use Rattle.index_region.specs.Checks.{Form};
ghost use Rattle.change_core.specs.declared.reach.Reach.TheVariants.{Inside};
ghost use Rattle.change_core.specs.Meters.{ticked};
ghost use Rattle.change_core.specs.Parts.{HoldsItems, items_in};
ghost use Rattle.change_rules.specs.Nodes.{is_error, delta_in};

use crate::evaluation::all_of;
use arrays_core::{ApplyFault, Array, ItemType, Shape, outcome, size};
use change_core::{Meter, Rule};
use index_region::{Delta, IndexBox, Patch, Seen};
use std::alloc::{AllocError, Global};

/// The most places of a small argument.
const FEW_PLACES: u32 = 16;

/// Returns the items of a box of the result. If the box is the whole result, it evaluates the whole rule, unless items read few items.
fn items_of<R: Rule>(
    alloc: Global,
    rule: &R,
    args: &[Seen],
    form: &(Shape, ItemType),
    region: &IndexBox,
    meter: &mut Meter,
) -> Result<Array, ApplyFault>
    requires count { length args.now ≡ length (R.model rule.now).selectors }
    requires checked { IsFormAnswerTo ((R.model rule.now).form args.now) (Ok form.now) }
    requires fit { IsTrue (fits region.now form.now.0.items) }
    ensures items { HoldsItems form.now.1 (items_in ((R.model rule.now).item args.now) region.now) result }
    ensures ticks { meter.new.ticks ≤ meter.old.ticks + box_size region.now }
    ensures exact { IfOk result (λ _. meter.new.ticks ≡ ticked meter.old.ticks (box_size region.now)) }
    ensures rises { meter.old.ticks ≤ meter.new.ticks }
    ensures joins { meter.new.joins ≡ meter.old.joins }
{
    let shape = form.0.as_slice();
    if region.size() == size(shape) as usize && rule.reads_many_items() {
        all_of(alloc, rule, args, meter)
    } else {
        rule.part(alloc, args, shape, form.1, region, meter)
    }
}

/// Tells if the only item of a result is computed as fast from views as from copies. Either it reads few items, or all arguments are small.
fn goes_item_by_item<R: Rule>(rule: &R, args: &[Seen]) -> bool {
    !rule.reads_many_items() || args.iter().all(|arg| arg.places() <= FEW_PLACES)
}

/// Tells if the box has one place.
#[inline(always)]
pub(crate) fn is_one_place(region: &IndexBox) -> bool
    ensures { result ≡ list_all (λ s. s.0 == s.1) region.now }
{
    region.as_slice().iter().all(|(first, last)| first == last)
}

/// Replaces `change` by the patch of a box of one place, or by the error there. Ticks once, and does not allocate.
#[inline(always)]
pub(crate) fn patch_of_one<R: Rule>(
    rule: &R,
    args: &[Seen],
    region: &IndexBox,
    change: &mut Delta,
    meter: &mut Meter,
)
    requires count { length args.now ≡ length (R.model rule.now).selectors }
    requires one { box_size region.now ≡ 1 }
    requires checked { (f : Form) × ((R.model rule.now).form args.now ≡ Ok f) × IsTrue (fits region.now f.shape) }
    ensures delta { change.new ≡ delta_in ((R.model rule.now).form args.now) ((R.model rule.now).item args.now) (Inside region.now) }
    ensures ticks { meter.new.ticks ≡ ticked meter.old.ticks 1 }
    ensures rises { meter.old.ticks ≤ meter.new.ticks }
    ensures joins { meter.new.joins ≡ meter.old.joins }
{
    let index = region.index_at(0);
    match rule.item(args, index.as_slice(), meter) {
        Ok(item) => *change = Delta::Patch(Patch::one(region.copy(), item)),
        Err(kind) => *change = Delta::Whole(Err(kind.into())),
    }
}

/// Replaces `change` by the patch of a box of the result, or by the first error in it. Returns the cost. A single place does not allocate, unless it
/// is the whole result and reads many items of a large argument.
#[inline(never)]
pub(crate) fn patch_of<R: Rule>(
    alloc: Global,
    rule: &R,
    args: &[Seen],
    region: &IndexBox,
    change: &mut Delta,
    meter: &mut Meter,
) -> Result<u32, AllocError>
    requires count { length args.now ≡ length (R.model rule.now).selectors }
    requires checked { (f : Form) × ((R.model rule.now).form args.now ≡ Ok f) × IsTrue (fits region.now f.shape) }
    ensures delta { OnOk result (change.new ≡ delta_in ((R.model rule.now).form args.now) ((R.model rule.now).item args.now) (Inside region.now)) }
    ensures cost { IfOk result (λ n. n ≡ box_size region.now) }
    ensures ticks { meter.new.ticks ≤ meter.old.ticks + box_size region.now }
    ensures exact { OnOk result (is_error change.new ≡ false → meter.new.ticks ≡ ticked meter.old.ticks (box_size region.now)) }
    ensures rises { meter.old.ticks ≤ meter.new.ticks }
    ensures joins { meter.new.joins ≡ meter.old.joins }
{
    let form = match rule.shape(args) {
        Ok(form) => form,
        Err(_) => unreachable!(),
    };
    let cost = region.size() as u32;
    if cost == 1 && (size(form.0.as_slice()) > 1 || goes_item_by_item(rule, args)) {
        patch_of_one(rule, args, region, change, meter);
        return Ok(cost);
    }
    match outcome(items_of(alloc, rule, args, &form, region, meter))? {
        Ok(values) => *change = Delta::Patch(Patch::of(region.copy(), values)),
        Err(fault) => *change = Delta::Whole(Err(fault)),
    }
    Ok(cost)
}
