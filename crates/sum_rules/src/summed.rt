//! All totals of an array, from the trees of its lines.

ghost use Rattle.std.specs.Prelude.{◌≡◌, ◌-◌, ◌+◌, ◌≤◌, ◌<◌, ◌∷◌, [], true, false, ℕ, List, length, Ok, Err, Some, None, if◌then◌else◌, IfOk, IfSome, OnOk};
ghost use Rattle.arrays_core.specs.declared.item.ItemType.{ItemType as TypeOfItems};
ghost use Rattle.arrays_core.specs.declared.item.ItemType.TheVariants.{Nums};
ghost use Rattle.arrays_core.specs.Arrays.{collect, IsAnswerTo};
ghost use Rattle.arrays_core.specs.Outcomes.{fault};
ghost use Rattle.arrays_core.specs.Shapes.{size, places_before, index_after, IsWithinLimits};
ghost use Rattle.function_names.specs.Axes.{axis_at};
ghost use Rattle.index_region.specs.declared.delta.Delta.TheVariants.{Whole};
ghost use Rattle.index_region.specs.Boxes.{box_size, is_within};
ghost use Rattle.index_region.specs.Checks.{form_of};
ghost use Rattle.reduce_fns.specs.Reduce.{reduce_form};
ghost use Rattle.item_fns.specs.Items.{number_item};
ghost use Rattle.fold_trees.specs.ArrayLines.{line_count};
ghost use Rattle.change_core.specs.Meters.{ticked};
ghost use Rattle.change_core.specs.RuleModels.{form_size};
ghost use Rattle.change_rules.specs.Evaluation.{evaluation};
ghost use Rattle.change_rules.specs.Nodes.{is_error};
ghost use Rattle.sum_rules.specs.LineSums.{length_along, summed};
ghost use Rattle.sum_rules.specs.Totals.{total_rule, StoodFor, AreFolds, AreFoldsWithin, AreJoinsWithin, AreJoinsFrom, is_one_a_line, box_of_lines};
ghost use Rattle.sum_rules.specs.Summed.{AreTotals, IsNewsOf, number_in, total_at};

use crate::line_sums::{LineSums, length_along};
use crate::line_totals::{JoinedTrees, LineTotals};
use crate::totals::patch_of;
use arrays_core::{
    ApplyFault, Array, Item, ItemType, Kind, Shape, index_of_position, outcome, size,
};
use change_core::{Announced, Meter, Reach, Rule};
use index_region::{Delta, IndexBox, Moved, Patch, Seen};
use reduce_fns::{NumberFunction, Reduce, collect_numbers};
use std::alloc::{AllocError, Global};

/// The changes of an array after its trees were built.
#[derive(Clone, Copy, Drop)]
pub(crate) enum News<'a> {
    /// No change.
    Nothing,
    /// Changed lines, by the patch of their totals.
    Changed(&'a Patch),
    /// One more number at the end of each line.
    Behind(&'a [i64]),
}

/// Returns the number of a patch at a place of this shape, counted from 0; None if the place lies outside its box.
fn number_in(totals: &Patch, shape: &Shape, place: usize) -> Option<i64>
    requires within { IsWithinLimits shape.now.items }
    requires below { place < size shape.now.items }
    ensures { result ≡ (if is_within totals.now.region (index_after shape.now.items place) then Some (number_in totals.now (index_after shape.now.items place)) else None) }
{
    let index = index_of_position(shape, place as u32 + 1);
    if !totals.region().contains(index.as_slice()) {
        return None;
    }
    match totals.item(index.as_slice()) {
        Item::Num(number) => Some(number),
        Item::Char(_) => Some(0),
    }
}

/// The totals of all lines: their shape, the trees of the lines, and the news since those were built.
#[derive(Drop)]
struct Summed<'a, S: LineTotals> {
    shape: &'a Shape,
    sums: &'a S,
    news: News<'a>,
    ghost within: { IsWithinLimits shape.now.items },
    ghost places: { size shape.now.items ≡ line_count (S.trees sums.now) },
    ghost some: { 0 < (S.trees sums.now).count },
    ghost fit: { IsNewsOf (size shape.now.items) news },
}

impl<'a, S: LineTotals> Summed<'a, S> {
    /// Returns the total at a place of the result.
    fn total_at(&self, place: usize) -> Result<i64, Kind>
        requires { place < size self.now.shape.now.items }
        ensures { result ≡ total_at (S.function self.now.sums.now) (S.trees self.now.sums.now) self.now.news self.now.shape.now.items place }
    {
        match self.news {
            News::Nothing => self.sums.total(place),
            News::Changed(totals) => match number_in(totals, self.shape, place) {
                Some(total) => Ok(total),
                None => self.sums.total(place),
            },
            News::Behind(numbers) => self.sums.total_behind(place, numbers[place]),
        }
    }

    /// Returns all totals, or the first error among them. Does not allocate for one total.
    #[inline(always)]
    fn all(&self, alloc: Global, places: u32) -> Result<Array, ApplyFault>
        requires { places ≡ size self.now.shape.now.items }
        ensures { IsAnswerTo (collect Nums self.now.shape.now.items (λ index. number_item (total_at (S.function self.now.sums.now) (S.trees self.now.sums.now) self.now.news self.now.shape.now.items (places_before self.now.shape.now.items index)))) result }
    {
        if places != 1 {
            return collect_numbers(alloc, self, self.shape);
        }
        match self.total_at(0) {
            Ok(total) => {
                let mut one = Array::filled(alloc, ItemType::Nums, self.shape)?;
                one.write_at(1, Item::Num(total));
                Ok(one)
            }
            Err(kind) => Err(ApplyFault::Kind(kind)),
        }
    }
}

impl<'a, S: LineTotals> NumberFunction for Summed<'a, S> {
    ghost places = { λ s. size s.shape.now.items };

    ghost number = { λ s place. total_at (S.function s.sums.now) (S.trees s.sums.now) s.news s.shape.now.items place };

    /// Remembers a line that fails.
    fn number_at(&self, place: usize) -> Result<i64, Kind> {
        let total = self.total_at(place);
        if total.is_err() {
            self.sums.remember_failing(place);
        }
        total
    }
}

/// Replaces `change` by all totals of an array, from the trees and the news. Returns their number as the cost.
#[inline(always)]
pub(crate) fn change_whole<S: LineTotals>(
    alloc: Global,
    fold: Reduce,
    array: &Seen,
    sums: &S,
    news: News,
    change: &mut Delta,
) -> Result<u32, AllocError>
    requires { (shape : List ℕ) (type : TypeOfItems) → reduce_form fold.along array.now ≡ Ok (form_of shape type) → AreTotals fold (S.function sums.now) (S.trees sums.now) news array.now shape }
    ensures delta { OnOk result (change.new ≡ Whole (evaluation (total_rule fold) (array.now ∷ []))) }
    ensures cost { IfOk result (λ n. n ≡ form_size ((total_rule fold).form (array.now ∷ []))) }
{
    let form = match fold.shape(&[array.again()]) {
        Ok(form) => form,
        Err(kind) => {
            *change = Delta::Whole(Err(kind.into()));
            return Ok(0);
        }
    };
    let shape = &form.0;
    let cost = size(shape.as_slice());
    let totals = Summed { shape, sums, news };
    *change = Delta::Whole(outcome(totals.all(alloc, cost))?);
    Ok(cost)
}

/// Replaces `change` by the evaluation of the totals, read from the trees of the lines; the items are not visited again. Returns the number of totals
/// as the cost. Also counts the joins that built the trees: one less for each line than it has numbers.
pub fn read_totals_with_cost(
    alloc: Global,
    fold: Reduce,
    array: &Seen,
    sums: &LineSums,
    change: &mut Delta,
    meter: &mut Meter,
) -> Result<u32, AllocError>
    requires { Some sums.now ≡ summed fold array.now }
    ensures delta { OnOk result (change.new ≡ Whole (evaluation (total_rule fold) (array.now ∷ []))) }
    ensures cost { IfOk result (λ n. n ≡ form_size ((total_rule fold).form (array.now ∷ []))) }
    ensures ticks { meter.new.ticks ≤ meter.old.ticks + form_size ((total_rule fold).form (array.now ∷ [])) }
    ensures exact { IfOk result (λ n. is_error change.new ≡ false → meter.new.ticks ≡ ticked meter.old.ticks n) }
    ensures rises { meter.old.ticks ≤ meter.new.ticks }
    ensures joins { AreFoldsWithin (form_size ((total_rule fold).form (array.now ∷ []))) (length_along fold.along array.now.shape) meter.old.joins meter.new.joins }
    ensures folds { IfOk result (λ n. is_error change.new ≡ false → AreFolds n (length_along fold.along array.now.shape) meter.old.joins meter.new.joins) }
{
    let long = length_along(fold.along, array.shape().as_slice());
    let trees = JoinedTrees::alone(sums.trees());
    let cost = change_whole(alloc, fold, array, &trees, News::Nothing, change)?;
    meter.add(cost);
    meter.count_joins(u64::from(cost) * u64::from(long.saturating_sub(1)));
    Ok(cost)
}

/// Returns the error of the remembered line if it still fails and the patch leaves it alone. The lines of one fold all fail alike, so this is the
/// error of all totals. Joins nothing and ticks nothing.
fn failure_elsewhere<S: LineTotals>(
    fold: Reduce,
    shape: &Shape,
    array: &Seen,
    sums: &S,
    patch: &Patch,
    lines: &IndexBox,
) -> Option<Kind>
    requires function { S.function sums.now ≡ fold.function }
    requires lines { StoodFor fold.along (S.trees sums.now) patch.now array.now }
    requires one { is_one_a_line (axis_at (length array.now.shape) fold.along) patch.now.region ≡ true }
    requires changed { lines.now ≡ box_of_lines (axis_at (length array.now.shape) fold.along) patch.now.region }
    requires within { IsWithinLimits shape.now.items }
    requires formed { (type : TypeOfItems) × (reduce_form fold.along array.now ≡ Ok (form_of shape.now.items type)) }
    ensures { IfSome result (λ kind. evaluation (total_rule fold) (array.now ∷ []) ≡ Err (fault kind)) }
{
    // Reading the shape brings in the fact that the argument is an array; the function, that it has trees.
    let _an_array = array.shape();
    let _has_trees = sums.folds_by();
    let line = sums.failing_line();
    if line >= size(shape.as_slice()) as usize {
        return None;
    }
    let index = index_of_position(shape, line as u32 + 1);
    if lines.contains(index.as_slice()) {
        return None;
    }
    match sums.total(line) {
        Ok(_) => None,
        Err(kind) => Some(kind),
    }
}

/// Replaces `change` by all totals, after an error of which the patch may be the cure. Returns their number as the cost. Totals of unchanged lines are
/// read from their trees without a join.
fn change_beside<S: LineTotals>(
    alloc: Global,
    fold: Reduce,
    lines: IndexBox,
    cost: u32,
    array: &Seen,
    patch: &Patch,
    sums: &S,
    change: &mut Delta,
    meter: &mut Meter,
) -> Result<(), AllocError>
    requires function { S.function sums.now ≡ fold.function }
    requires lines { StoodFor fold.along (S.trees sums.now) patch.now array.now }
    requires one { is_one_a_line (axis_at (length array.now.shape) fold.along) patch.now.region ≡ true }
    requires changed { lines ≡ box_of_lines (axis_at (length array.now.shape) fold.along) patch.now.region }
    requires formed { (shape : List ℕ) × (type : TypeOfItems) × (reduce_form fold.along array.now ≡ Ok (form_of shape type)) }
    requires cost { cost ≡ form_size ((total_rule fold).form (array.now ∷ [])) }
    ensures delta { OnOk result (change.new ≡ Whole (evaluation (total_rule fold) (array.now ∷ []))) }
    ensures ticks { meter.new.ticks ≡ ticked meter.old.ticks cost }
    ensures rises { meter.old.ticks ≤ meter.new.ticks }
    ensures joins { AreJoinsWithin (box_size patch.now.region) (length_along fold.along array.now.shape) meter.old.joins meter.new.joins }
    ensures least { OnOk result (is_error change.new ≡ false → AreJoinsFrom (box_size patch.now.region) (length_along fold.along array.now.shape) meter.old.joins meter.new.joins) }
{
    let mut own = Meter::new();
    let mut changed = Delta::Same;
    let made = patch_of(
        alloc,
        fold,
        lines,
        array,
        sums,
        patch,
        &mut changed,
        &mut own,
    );
    meter.add(cost);
    meter.count_joins(own.joins());
    made?;
    if let Delta::Patch(totals) = &changed {
        // Reading the item type brings in the fact that the patch has one item for each place.
        let _one_item_a_place = totals.item_type();
        change_whole(alloc, fold, array, sums, News::Changed(totals), change)?;
        return Ok(());
    }
    // Reading the shape brings in the fact that the argument is an array; the function, that it has trees.
    let _an_array = array.shape();
    let _has_trees = sums.folds_by();
    *change = changed;
    Ok(())
}

/// Replaces `change` by the evaluation of all totals, after an error. The patch has one place on the axis of the lines. Returns the number of totals
/// as the cost. Totals of unchanged lines are read from their trees without a join.
pub(crate) fn change_after_error<S: LineTotals>(
    alloc: Global,
    fold: Reduce,
    array: &Seen,
    patch: &Patch,
    sums: &S,
    change: &mut Delta,
    meter: &mut Meter,
) -> Result<u32, AllocError>
    requires function { S.function sums.now ≡ fold.function }
    requires lines { StoodFor fold.along (S.trees sums.now) patch.now array.now }
    requires one { is_one_a_line (axis_at (length array.now.shape) fold.along) patch.now.region ≡ true }
    ensures delta { OnOk result (change.new ≡ Whole (evaluation (total_rule fold) (array.now ∷ []))) }
    ensures cost { IfOk result (λ n. n ≡ form_size ((total_rule fold).form (array.now ∷ []))) }
    ensures ticks { meter.new.ticks ≤ meter.old.ticks + form_size ((total_rule fold).form (array.now ∷ [])) }
    ensures exact { IfOk result (λ n. is_error change.new ≡ false → meter.new.ticks ≡ ticked meter.old.ticks n) }
    ensures rises { meter.old.ticks ≤ meter.new.ticks }
    ensures joins { AreJoinsWithin (box_size patch.now.region) (length_along fold.along array.now.shape) meter.old.joins meter.new.joins }
    ensures least { OnOk result (is_error change.new ≡ false → AreJoinsFrom (box_size patch.now.region) (length_along fold.along array.now.shape) meter.old.joins meter.new.joins) }
{
    let args = [array.again()];
    let form = match fold.shape(&args) {
        Ok(form) => form,
        Err(kind) => {
            *change = Delta::Whole(Err(kind.into()));
            return Ok(0);
        }
    };
    let moved = [Moved::Inside(patch.region())];
    match fold.reach_in(&args, form.0.as_slice(), &moved) {
        Reach::Inside(lines) => {
            let cost = size(form.0.as_slice());
            if let Some(kind) = failure_elsewhere(fold, &form.0, array, sums, patch, &lines) {
                meter.tick();
                *change = Delta::Whole(Err(kind.into()));
                return Ok(cost);
            }
            change_beside(alloc, fold, lines, cost, array, patch, sums, change, meter)?;
            Ok(cost)
        }
        _ => unreachable!(),
    }
}
