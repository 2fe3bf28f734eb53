//! The change of the totals of lines, from trees of the lines.

ghost use Rattle.std.specs.Prelude.{◌≡◌, ◌-◌, ◌+◌, ◌≤◌, ◌<◌, ◌∷◌, [], true, false, Some, length, map, remove, IfOk, OnOk, IsTrue};
ghost use Rattle.arrays_core.specs.declared.item.Item.TheVariants.{Num};
ghost use Rattle.arrays_core.specs.Items.{type_of};
ghost use Rattle.arrays_core.specs.Shapes.{size, IsWithinLimits};
ghost use Rattle.arrays_core.specs.declared.item.ItemType.TheVariants.{Nums};
ghost use Rattle.index_region.specs.declared.delta.Delta.TheVariants.{Whole};
ghost use Rattle.index_region.specs.Arguments.{number_of};
ghost use Rattle.function_names.specs.Axes.{is_axis, axis_at};
ghost use Rattle.index_region.specs.Boxes.{box_size, is_within};
ghost use Rattle.index_region.specs.Patches.{FitsPatch, patched};
ghost use Rattle.reduce_fns.specs.Reduce.{reduce_item};
ghost use Rattle.item_fns.specs.RightFold.{fold_right};
ghost use Rattle.fold_trees.specs.FoldTrees.{IsWithinDigitsOf};
ghost use Rattle.fold_trees.specs.ArrayLines.{line_count, numbers_through, with_number};
ghost use Rattle.change_core.specs.Meters.{ticked, most_ticks};
ghost use Rattle.change_core.specs.Parts.{HoldsItems, items_in};
ghost use Rattle.change_core.specs.Reaches.{AllFit};
ghost use Rattle.change_core.specs.RuleModels.{form_size};
ghost use Rattle.change_rules.specs.Evaluation.{evaluation};
ghost use Rattle.change_rules.specs.Nodes.{views, moved, is_error, node_delta, node_cost, reached_delta, reached_cost, patch_delta};
ghost use Rattle.change_rules.specs.Currency.{BringsUpToDate, HasAxis, IsRight};
ghost use Rattle.sum_rules.specs.LineSums.{StandFor, array_of_shape, length_along};
ghost use Rattle.sum_rules.specs.Totals.{total_rule, StoodFor, StoodBefore, IsSummedUp, IsSummedByLines, AreJoinsWithin, AreJoinsFrom, AreFoldsWithin, AreFolds, HasJoins, HasAllJoins, is_one_a_line, box_of_lines, row_sums};

use crate::line_sums::length_along;
use crate::line_totals::{LineTotals, TreeALine};
use crate::summed::{News, change_after_error, change_whole};
use arrays_core::{
    ApplyFault, Array, Fault, Item, ItemType, Kind, Shape, outcome, places_before, shape_of,
};
use change_core::{Announced, Meter, Reach, Rule};
use change_rules::change_of;
use fold_trees::SumTree;
use index_region::{Along, Delta, IndexBox, Moved, Patch, Seen, Tail};
use item_fns::Scalar2;
use reduce_fns::Reduce;
use std::alloc::{AllocError, Global};

/// Tells if the box has one place on an axis; axes count from 0.
fn is_one_a_line(axis: usize, region: &IndexBox) -> bool
    ensures { result ≡ is_one_a_line axis region.now }
{
    match region.as_slice().get(axis) {
        Some((first, last)) => first == last,
        None => false,
    }
}

/// Returns the total of the line through a place with a new item there, and the number of parts joined for it.
fn total_with<S: LineTotals>(sums: &S, place: usize, item: Item) -> (Result<Item, Kind>, u32)
    requires { place < length (S.trees sums.now).numbers }
    ensures total { result.0 ≡ fold_right (S.function sums.now) (map (λ z. Num z) (numbers_through (with_number (S.trees sums.now) place (number_of item)) place)) }
    ensures typed { IfOk result.0 (λ total. type_of total ≡ Nums) }
    ensures joins { IsWithinDigitsOf ((S.trees sums.now).count - 1) result.1 }
    ensures some { 1 < (S.trees sums.now).count → 0 < result.1 }
{
    let number = match item {
        Item::Num(number) => number,
        Item::Char(_) => 0,
    };
    let (total, joins) = sums.total_with(place, number);
    match total {
        Ok(total) => (Ok(Item::Num(total)), joins),
        Err(kind) => (Err(kind), joins),
    }
}

/// Returns the total of the line through a place of the patch, with its new number. Does not allocate.
fn line_total<S: LineTotals>(
    fold: Reduce,
    shape: &Shape,
    sums: &S,
    patch: &Patch,
    index: &[u32],
    meter: &mut Meter,
) -> Result<Item, Kind>
    requires function { S.function sums.now ≡ fold.function }
    requires on_axis { is_axis (length shape.now.items) fold.along ≡ true }
    requires lines { StandFor (S.trees sums.now) (axis_at (length shape.now.items) fold.along) (array_of_shape shape.now.items (S.trees sums.now).numbers) }
    requires fit { FitsPatch (array_of_shape shape.now.items (S.trees sums.now).numbers) patch.now }
    requires one { is_one_a_line (axis_at (length shape.now.items) fold.along) patch.now.region ≡ true }
    requires inside { IsTrue (is_within patch.now.region index.now) }
    ensures total { result ≡ reduce_item fold.function fold.along (patched (array_of_shape shape.now.items (S.trees sums.now).numbers) patch.now) (remove index.now (axis_at (length shape.now.items) fold.along)) }
    ensures typed { IfOk result (λ total. type_of total ≡ Nums) }
    ensures ticks { meter.new.ticks ≡ ticked meter.old.ticks 1 }
    ensures rises { meter.old.ticks ≤ meter.new.ticks }
    ensures joins { AreJoinsWithin 1 (length_along fold.along shape.now.items) meter.old.joins meter.new.joins }
    ensures least { AreJoinsFrom 1 (length_along fold.along shape.now.items) meter.old.joins meter.new.joins }
{
    // Reading the item type brings in the fact that the patch has one item for each place.
    let _one_item_a_place = patch.item_type();
    let place = places_before(shape, index);
    let item = patch.item(index);
    let (total, joins) = total_with(sums, place as usize, item);
    meter.tick();
    meter.count_joins(u64::from(joins));
    total
}

/// Returns the totals of the lines that get a new number, or the first error among them.
fn new_totals<S: LineTotals>(
    alloc: Global,
    fold: Reduce,
    shape: &Shape,
    sums: &S,
    patch: &Patch,
    meter: &mut Meter,
) -> Result<Array, ApplyFault>
    requires function { S.function sums.now ≡ fold.function }
    requires on_axis { is_axis (length shape.now.items) fold.along ≡ true }
    requires lines { StandFor (S.trees sums.now) (axis_at (length shape.now.items) fold.along) (array_of_shape shape.now.items (S.trees sums.now).numbers) }
    requires fit { FitsPatch (array_of_shape shape.now.items (S.trees sums.now).numbers) patch.now }
    requires one { is_one_a_line (axis_at (length shape.now.items) fold.along) patch.now.region ≡ true }
    ensures totals { HoldsItems Nums (items_in (reduce_item fold.function fold.along (patched (array_of_shape shape.now.items (S.trees sums.now).numbers) patch.now)) (box_of_lines (axis_at (length shape.now.items) fold.along) patch.now.region)) result }
    ensures ticks { meter.new.ticks ≤ meter.old.ticks + box_size patch.now.region }
    ensures exact { IfOk result (λ _. meter.new.ticks ≡ ticked meter.old.ticks (box_size patch.now.region)) }
    ensures rises { meter.old.ticks ≤ meter.new.ticks }
    ensures joins { AreJoinsWithin (box_size patch.now.region) (length_along fold.along shape.now.items) meter.old.joins meter.new.joins }
    ensures least { IfOk result (λ _. AreJoinsFrom (box_size patch.now.region) (length_along fold.along shape.now.items) meter.old.joins meter.new.joins) }
{
    let region = patch.region();
    let lines = region.size();
    let mut totals = Array::filled(alloc, ItemType::Nums, &shape_of(alloc, &[lines as u32]))?;
    let mut index = region.index_at(0);
    for line in 0..lines {
        match line_total(fold, shape, sums, patch, index.as_slice(), meter) {
            Ok(total) => totals.write_at(line as u32 + 1, total),
            Err(kind) => return Err(ApplyFault::Kind(kind)),
        }
        region.advance(&mut index);
    }
    Ok(totals)
}

/// Replaces `change` by the change of the totals, if they were an array and the patch has one place on the axis of the lines. Returns its cost.
fn change_by_trees<S: LineTotals>(
    alloc: Global,
    fold: Reduce,
    array: &Seen,
    patch: &Patch,
    sums: &S,
    change: &mut Delta,
    meter: &mut Meter,
) -> Result<u32, AllocError>
    requires function { S.function sums.now ≡ fold.function }
    requires lines { StoodFor fold.along (S.trees sums.now) patch.now array.now }
    requires one { is_one_a_line (axis_at (length array.now.shape) fold.along) patch.now.region ≡ true }
    requires small { meter.old.ticks ≤ most_ticks }
    ensures delta { OnOk result (change.new ≡ reached_delta (total_rule fold) (array.now ∷ []) (Some patch.now.region ∷ [])) }
    ensures cost { IfOk result (λ n. n ≡ reached_cost (total_rule fold) (array.now ∷ []) (Some patch.now.region ∷ [])) }
    ensures ticks { meter.new.ticks ≤ meter.old.ticks + reached_cost (total_rule fold) (array.now ∷ []) (Some patch.now.region ∷ []) }
    ensures exact { IfOk result (λ n. is_error change.new ≡ false → meter.new.ticks ≡ ticked meter.old.ticks n) }
    ensures rises { meter.old.ticks ≤ meter.new.ticks }
    ensures joins { AreJoinsWithin (box_size patch.now.region) (length_along fold.along array.now.shape) meter.old.joins meter.new.joins }
    ensures least { OnOk result (is_error change.new ≡ false → AreJoinsFrom (box_size patch.now.region) (length_along fold.along array.now.shape) meter.old.joins meter.new.joins) }
{
    let args = [array.again()];
    let form = match fold.shape(&args) {
        Ok(form) => form,
        Err(kind) => {
            *change = Delta::Whole(Err(kind.into()));
            return Ok(0);
        }
    };
    let moved = [Moved::Inside(patch.region())];
    match fold.reach_in(&args, form.0.as_slice(), &moved) {
        Reach::Unmoved => {
            *change = Delta::Same;
            Ok(0)
        }
        Reach::Inside(region) => {
            let cost = region.size() as u32;
            patch_of(alloc, fold, region, array, sums, patch, change, meter)?;
            Ok(cost)
        }
        Reach::Anew => unreachable!(),
    }
}

/// Replaces `change` by the patch of the total of one line, or by its error. Does not allocate.
fn patch_of_one<S: LineTotals>(
    fold: Reduce,
    region: IndexBox,
    array: &Seen,
    sums: &S,
    patch: &Patch,
    change: &mut Delta,
    meter: &mut Meter,
)
    requires function { S.function sums.now ≡ fold.function }
    requires lines { StoodFor fold.along (S.trees sums.now) patch.now array.now }
    requires one { is_one_a_line (axis_at (length array.now.shape) fold.along) patch.now.region ≡ true }
    requires region { region ≡ box_of_lines (axis_at (length array.now.shape) fold.along) patch.now.region }
    requires single { box_size region ≡ 1 }
    ensures delta { change.new ≡ patch_delta Nums region (items_in (reduce_item fold.function fold.along array.now) region) }
    ensures ticks { meter.new.ticks ≡ ticked meter.old.ticks 1 }
    ensures rises { meter.old.ticks ≤ meter.new.ticks }
    ensures joins { AreJoinsWithin 1 (length_along fold.along array.now.shape) meter.old.joins meter.new.joins }
    ensures least { AreJoinsFrom 1 (length_along fold.along array.now.shape) meter.old.joins meter.new.joins }
{
    let index = patch.region().index_at(0);
    match line_total(fold, array.shape(), sums, patch, index.as_slice(), meter) {
        Ok(total) => *change = Delta::Patch(Patch::one(region, total)),
        Err(kind) => *change = Delta::Whole(Err(kind.into())),
    }
}

/// Replaces `change` by the patch of the totals of the changed lines, or by the first error among them. For one total it does not allocate.
pub(crate) fn patch_of<S: LineTotals>(
    alloc: Global,
    fold: Reduce,
    region: IndexBox,
    array: &Seen,
    sums: &S,
    patch: &Patch,
    change: &mut Delta,
    meter: &mut Meter,
) -> Result<(), AllocError>
    requires function { S.function sums.now ≡ fold.function }
    requires lines { StoodFor fold.along (S.trees sums.now) patch.now array.now }
    requires one { is_one_a_line (axis_at (length array.now.shape) fold.along) patch.now.region ≡ true }
    requires region { region ≡ box_of_lines (axis_at (length array.now.shape) fold.along) patch.now.region }
    ensures delta { OnOk result (change.new ≡ patch_delta Nums region (items_in (reduce_item fold.function fold.along array.now) region)) }
    ensures ticks { meter.new.ticks ≤ meter.old.ticks + box_size patch.now.region }
    ensures exact { OnOk result (is_error change.new ≡ false → meter.new.ticks ≡ ticked meter.old.ticks (box_size patch.now.region)) }
    ensures rises { meter.old.ticks ≤ meter.new.ticks }
    ensures joins { AreJoinsWithin (box_size patch.now.region) (length_along fold.along array.now.shape) meter.old.joins meter.new.joins }
    ensures least { OnOk result (is_error change.new ≡ false → AreJoinsFrom (box_size patch.now.region) (length_along fold.along array.now.shape) meter.old.joins meter.new.joins) }
{
    if region.size() == 1 {
        patch_of_one(fold, region, array, sums, patch, change, meter);
        return Ok(());
    }
    match outcome(new_totals(alloc, fold, array.shape(), sums, patch, meter))? {
        Ok(values) => *change = Delta::Patch(Patch::of(region, values)),
        Err(fault) => *change = Delta::Whole(Err(fault)),
    }
    Ok(())
}

/// Replaces `change` by all totals of an array whose lines got one more place each. Returns their number as the cost. Takes one join for each total.
fn change_by_growth<S: LineTotals>(
    alloc: Global,
    fold: Reduce,
    array: &Seen,
    tail: &Tail,
    sums: &S,
    change: &mut Delta,
    meter: &mut Meter,
) -> Result<u32, AllocError>
    requires function { S.function sums.now ≡ fold.function }
    requires lines { StoodBefore fold.along (S.trees sums.now) tail.now array.now }
    requires first { axis_at (length array.now.shape) fold.along ≡ 0 }
    ensures delta { OnOk result (change.new ≡ Whole (evaluation (total_rule fold) (array.now ∷ []))) }
    ensures cost { IfOk result (λ n. n ≡ form_size ((total_rule fold).form (array.now ∷ []))) }
    ensures ticks { meter.new.ticks ≤ meter.old.ticks + form_size ((total_rule fold).form (array.now ∷ [])) }
    ensures exact { IfOk result (λ n. is_error change.new ≡ false → meter.new.ticks ≡ ticked meter.old.ticks n) }
    ensures rises { meter.old.ticks ≤ meter.new.ticks }
    ensures joins { AreJoinsWithin (length tail.now.items) (length_along fold.along array.now.shape) meter.old.joins meter.new.joins }
    ensures least { OnOk result (is_error change.new ≡ false → AreJoinsFrom (length tail.now.items) (length_along fold.along array.now.shape) meter.old.joins meter.new.joins) }
{
    let Some(numbers) = tail.numbers() else {
        unreachable!()
    };
    let cost = change_whole(alloc, fold, array, sums, News::Behind(numbers), change)?;
    meter.add(cost);
    meter.count_joins(numbers.len() as u64);
    Ok(cost)
}

/// Replaces `change` by the change of the totals of B, as `refresh` does. Returns the cost: the most totals that it computes. Folds each of
/// these lines, and counts one join less than the line has numbers.
pub fn fold_totals_with_cost(
    alloc: Global,
    fold: Reduce,
    arg: (Seen, &Delta),
    old: &Result<Array, Fault>,
    change: &mut Delta,
    meter: &mut Meter,
) -> Result<u32, AllocError>
    requires fit { AllFit (views (arg ∷ [])) (moved (arg ∷ [])) }
    requires axes { HasAxis (arg ∷ []) }
    ensures delta { OnOk result (change.new ≡ node_delta (total_rule fold) (arg.entry ∷ []) old.now) }
    ensures cost { IfOk result (λ n. n ≡ node_cost (total_rule fold) (arg.entry ∷ []) old.now) }
    ensures ticks { meter.new.ticks ≤ meter.old.ticks + node_cost (total_rule fold) (arg.entry ∷ []) old.now }
    ensures exact { IfOk result (λ n. is_error change.new ≡ false → meter.new.ticks ≡ ticked meter.old.ticks n) }
    ensures rises { meter.old.ticks ≤ meter.new.ticks }
    ensures joins { AreFoldsWithin (node_cost (total_rule fold) (arg.entry ∷ []) old.now) (length_along fold.along arg.entry.0.shape) meter.old.joins meter.new.joins }
    ensures folds { IfOk result (λ n. is_error change.new ≡ false → AreFolds n (length_along fold.along arg.entry.0.shape) meter.old.joins meter.new.joins) }
    ensures right { OnOk result (IsRight (total_rule fold) (views (arg.entry ∷ [])) change.new) }
    ensures whole { OnOk result (BringsUpToDate (total_rule fold) (arg.entry ∷ []) old.now change.new) }
{
    let (array, delta) = arg;
    let long = length_along(fold.along, array.shape().as_slice());
    let mut own = Meter::new();
    let cost = change_of(
        alloc,
        &fold,
        &[array],
        &[Moved::of(delta)],
        old,
        change,
        &mut own,
    )?;
    own.count_joins(own.ticks() * u64::from(long.saturating_sub(1)));
    meter.include(&own);
    Ok(cost)
}

/// Replaces `change` by the change of the totals of B, as `refresh` does. Returns the cost: the most totals that it computes. If the
/// changed box of B has one place on the axis of the lines, each new total comes from the tree of its line. This takes at most as many joins as the
/// length of the line, less one, has binary digits. After an error the other totals are read from their trees, without joins. If B grew along the
/// axis of the lines, each total takes one join. In all other cases the lines are folded.
pub fn refresh_totals_with_cost<S: LineTotals>(
    alloc: Global,
    fold: Reduce,
    arg: (Seen, &Delta),
    old: &Result<Array, Fault>,
    sums: &S,
    change: &mut Delta,
    meter: &mut Meter,
) -> Result<u32, AllocError>
    requires fit { AllFit (views (arg ∷ [])) (moved (arg ∷ [])) }
    requires axes { HasAxis (arg ∷ []) }
    requires sums { IsSummedUp fold arg (S.function sums.now) (S.trees sums.now) }
    ensures delta { OnOk result (change.new ≡ node_delta (total_rule fold) (arg.entry ∷ []) old.now) }
    ensures cost { IfOk result (λ n. n ≡ node_cost (total_rule fold) (arg.entry ∷ []) old.now) }
    ensures ticks { meter.new.ticks ≤ meter.old.ticks + node_cost (total_rule fold) (arg.entry ∷ []) old.now }
    ensures exact { IfOk result (λ n. is_error change.new ≡ false → meter.new.ticks ≡ ticked meter.old.ticks n) }
    ensures rises { meter.old.ticks ≤ meter.new.ticks }
    ensures joins { HasJoins fold arg.entry old.now meter.old.joins meter.new.joins }
    ensures least { OnOk result (is_error change.new ≡ false → HasAllJoins fold arg.entry old.now meter.old.joins meter.new.joins) }
    ensures right { OnOk result (IsRight (total_rule fold) (views (arg.entry ∷ [])) change.new) }
    ensures whole { OnOk result (BringsUpToDate (total_rule fold) (arg.entry ∷ []) old.now change.new) }
{
    let (array, delta) = arg;
    // Reading the shape brings in the fact that the argument is an array.
    let rank = array.shape().as_slice().len() as u32;
    if let Delta::Patch(patch) = delta {
        if is_one_a_line(fold.along.axis_at(rank), patch.region()) {
            // Reading the count brings in the fact that it fits 64 bits.
            let _counted = meter.ticks();
            if old.is_ok() {
                return change_by_trees(alloc, fold, &array, patch, sums, change, meter);
            }
            return change_after_error(alloc, fold, &array, patch, sums, change, meter);
        }
    }
    if let Delta::Grown(tail) = delta {
        if fold.along.axis_at(rank) == 0 {
            return change_by_growth(alloc, fold, &array, tail, sums, change, meter);
        }
    }
    fold_totals_with_cost(alloc, fold, (array, delta), old, change, meter)
}

/// Returns the change of `+/B`, as `refresh_totals_with_cost` does with one tree for each line, but without the cost.
pub fn refresh_sums(
    alloc: Global,
    arg: (Seen, &Delta),
    old: &Result<Array, Fault>,
    sums: &[SumTree],
    meter: &mut Meter,
) -> Result<Delta, AllocError>
    requires fit { AllFit (views (arg ∷ [])) (moved (arg ∷ [])) }
    requires axes { HasAxis (arg ∷ []) }
    requires sums { IsSummedByLines arg sums.now }
    ensures delta { IfOk result (λ d. d ≡ node_delta (total_rule row_sums) (arg.entry ∷ []) old.now) }
    ensures ticks { meter.new.ticks ≤ meter.old.ticks + node_cost (total_rule row_sums) (arg.entry ∷ []) old.now }
    ensures exact { IfOk result (λ d. is_error d ≡ false → meter.new.ticks ≡ ticked meter.old.ticks (node_cost (total_rule row_sums) (arg.entry ∷ []) old.now)) }
    ensures rises { meter.old.ticks ≤ meter.new.ticks }
    ensures joins { HasJoins row_sums arg.entry old.now meter.old.joins meter.new.joins }
    ensures least { IfOk result (λ d. is_error d ≡ false → HasAllJoins row_sums arg.entry old.now meter.old.joins meter.new.joins) }
    ensures right { IfOk result (λ d. IsRight (total_rule row_sums) (views (arg.entry ∷ [])) d) }
    ensures whole { IfOk result (λ d. BringsUpToDate (total_rule row_sums) (arg.entry ∷ []) old.now d) }
{
    let (array, delta) = arg;
    let mut change = Delta::Same;
    let fold = Reduce {
        function: Scalar2::Plus,
        along: Along::Last,
    };
    let lengths = array.shape();
    let long = length_along(Along::Last, lengths.as_slice()) as usize;
    let count = match delta {
        Delta::Patch(_) => long,
        Delta::Grown(_) if lengths.len() == 1 && long > 1 => long - 1,
        _ => {
            fold_totals_with_cost(alloc, fold, (array, delta), old, &mut change, meter)?;
            return Ok(change);
        }
    };
    let trees = TreeALine { count, trees: sums };
    refresh_totals_with_cost(alloc, fold, (array, delta), old, &trees, &mut change, meter)?;
    Ok(change)
}
