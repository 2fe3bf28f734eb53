//! Take: the first or last places of each axis, with fill beyond them.

ghost use Rattle.std.specs.Prelude.{◌≡◌, ◌≤◌, ◌<◌, ◌+◌, ◌^◌, ◌++◌, ◌∷◌, [], pos, unsigned_abs, IsTrue, IfOk, IfSome, OnOk, Ok, Some, None, if◌then◌else◌, All, length, get_or, nat_eq, nat_le, ◌&&◌};
ghost use Rattle.std.proofs.Common.{rules};
ghost use Rattle.arrays_core.specs.Limits.{most_axes, longest_axis};
ghost use Rattle.arrays_core.specs.Building.{with_row};
ghost use Rattle.arrays_core.specs.Arrays.{ArrayValue, IsAnswerTo};
ghost use Rattle.arrays_core.specs.Shapes.{IsWithinLimits, is_index_of, places_before, size};
ghost use Rattle.index_region.specs.ArgumentLists.{of_two_arguments};
ghost use Rattle.index_region.specs.Arguments.{numbers};
ghost use Rattle.index_region.specs.Answers.{IsPlaceOf, IsSourceIn, source_value};
ghost use Rattle.index_region.specs.Checks.{form_of};
ghost use Rattle.index_region.specs.Boxes.{fits};
ghost use Rattle.change_core.specs.Ways.{images};
ghost use Rattle.change_core.proofs.Growing.{never_grows};
ghost use Rattle.structural_fns.specs.AxisCounts.{counted_shape};
ghost use Rattle.structural_fns.specs.Reshape.{magnitudes};
ghost use Rattle.structural_fns.specs.Take.{take_form, take_source, take_item, take_whole, taken_place, taken_places, AreOnLastAxis, taken, taken_axes, take_rule};
ghost use Rattle.structural_fns.specs.Part.{AreBeforeTaken};
ghost use Rattle.structural_fns.specs.Laws.Take.{take_tight};

use crate::axis_counts::{check_axis_counts, counted_box, counted_shape, uncounted};
use crate::index_source::index_on_axis;
use crate::magnitudes::magnitudes;
use crate::part::part_of;
use arrays_core::{ApplyFault, Array, ArrayBuilder, Item, ItemType, Kind, Shape, is_index_of};
use change_core::Announced;
use index_region::{
    IndexBox, Intervals, Primitive, RowPrimitive, Seen, Source, apply_rows, item_from, limited,
};
use smallvec::SmallVec;
use std::alloc::{AllocError, Global};

/// Returns the place on an axis that place `i` of the result comes from. If it is 0 or beyond the end, there is none.
fn taken_place(axis: u32, count: i64, i: u32) -> u32
    requires axis_within { axis ≤ longest_axis }
    requires count_within { unsigned_abs count ≤ longest_axis }
    requires index_within { i ≤ longest_axis }
    ensures { result ≡ taken_place axis count i }
{
    if count >= 0 {
        i
    } else {
        (i + axis).saturating_sub(count.unsigned_abs() as u32)
    }
}

/// Returns the places on all axes that an index list of the result comes from.
fn taken_places(counts: &Seen, axes: &[u32], index: &[u32]) -> Shape
    requires long { length counts.now.items ≡ length axes.now }
    requires axes_within { All (λ n. n ≤ longest_axis) axes.now }
    requires within { IsWithinLimits (magnitudes counts.now) }
    requires inside { IsTrue (is_index_of (magnitudes counts.now) index.now) }
    ensures is { result.items ≡ taken_places axes.now (numbers counts.now) index.now }
    ensures inline { result.capacity ≡ 4 }
{
    let mut places = SmallVec::new(*counts.shape().allocator());
    for k in 0..axes.len() {
        let count = counts.number(k as u32 + 1);
        places.push_reserved(taken_place(axes[k], count, index[k]));
    }
    places
}

/// Returns the offset in an array with these axes of the item at an index of a row of the result. Returns None if that item is fill.
fn place_in_row(counts: &Seen, axes: &[u32], row: &[u32], index: u32) -> Option<u32>
    requires long { length counts.now.items ≡ length axes.now }
    requires axes_within { IsWithinLimits axes.now }
    requires within { IsWithinLimits (magnitudes counts.now) }
    requires inside { IsTrue (is_index_of (magnitudes counts.now) (row.now ++ index ∷ [])) }
    ensures { let at = taken_places axes.now (numbers counts.now) (row.now ++ index ∷ []) in
        result ≡ (if is_index_of axes.now at then Some (places_before axes.now at) else None) }
{
    let mut before: u32 = 0;
    for k in 0..axes.len() {
        let count = counts.number(k as u32 + 1);
        let place = taken_place(axes[k], count, index_on_axis(row, index, k));
        if place == 0 || place > axes[k] {
            return None;
        }
        // Wraps only if a later axis has no places. The array then has no item.
        before = before.wrapping_mul(axes[k]).wrapping_add(place - 1);
    }
    Some(before)
}

/// Returns the number of places before the taken ones on each axis of the array. None if places are missing, or the array is a scalar.
fn places_before_taken(counts: &Seen, array: &Seen) -> Option<Shape>
    requires { length counts.now.items ≡ length (counted_shape counts.now array.now) }
    ensures { IfSome result (λ before. AreBeforeTaken array.now.shape (numbers counts.now) before.items) }
{
    let shape = array.shape();
    if shape.is_empty() {
        return None;
    }
    let axes = shape.as_slice();
    let mut before = SmallVec::new(*shape.allocator());
    for k in 0..axes.len() {
        let count = counts.number(k as u32 + 1);
        if count.unsigned_abs() > u64::from(axes[k]) {
            return None;
        }
        before.push_reserved(taken_place(axes[k], count, 1) - 1);
    }
    Some(before)
}

/// Take, `A↑B` (ISO/IEC 13751, "Take"): axis k has the magnitude of A[k] as its length. A positive count takes the first places, a negative
/// one the last; missing places are fill. A scalar B has an axis of length 1 for each count. RANK if A is neither a scalar nor a vector,
/// LENGTH unless it has a count for each axis. DOMAIN unless it has numbers, LIMIT beyond the limits of arrays.
#[derive(Clone, Copy, PartialEq, Eq, Debug)]
pub struct Take;

impl Take {
    /// Returns the source of the item at an index list of the result, after the checks have passed. Allocates nothing.
    pub fn source_of(&self, args: &[Seen], index: &[u32]) -> Source
        requires count { length args.now ≡ 2 }
        requires place { IsPlaceOf (of_two_arguments take_form args.now) index.now }
        ensures is { (a b : ArrayValue) → args.now ≡ a ∷ b ∷ [] → source_value result ≡ take_source a b index.now }
        ensures inside { (a b : ArrayValue) → args.now ≡ a ∷ b ∷ [] → IsSourceIn a b result }
    {
        self.source(&args[0], &args[1], index)
    }

    /// Returns the source of the item at an index list of the result.
    fn source(self, counts: &Seen, array: &Seen, index: &[u32]) -> Source
        requires { IsPlaceOf (take_form counts.now array.now) index.now }
        ensures is { source_value result ≡ take_source counts.now array.now index.now }
        ensures inside { IsSourceIn counts.now array.now result }
    {
        let axes = counted_shape(counts, array);
        let at = taken_places(counts, axes.as_slice(), index);
        if !is_index_of(axes.as_slice(), at.as_slice()) {
            return Source::Fill;
        }
        let at = uncounted(array, at);
        Source::Place { arg: 1, at }
    }

    /// Appends the part of a row that lies on the last axis of the array: `kept` items after the first `before`. Copies a run, or appends
    /// fill if the array has no such row.
    fn extend_kept(
        self,
        counts: &Seen,
        array: &Seen,
        axes: &[u32],
        row: &[u32],
        before: u32,
        kept: u32,
        items: &mut ArrayBuilder,
    ) -> Result<(), AllocError>
        requires rank { length row.now < most_axes }
        requires some { 0 < kept }
        requires room { before + kept < 2 ^ 32 }
        requires place { IsPlaceOf (take_form counts.now array.now) (row.now ++ (before + 1) ∷ []) }
        requires typed { array.now.item_type ≡ items.old.item_type }
        requires axis { AreOnLastAxis counts.now array.now row.now before kept }
        requires counted { axes.now ≡ counted_shape counts.now array.now }
        ensures items { OnOk result (with_row items.old.items (λ i. take_item counts.now array.now (row.now ++ (before + i) ∷ [])) kept ≡ Ok items.new.items) }
        ensures typed { items.new.item_type ≡ items.old.item_type }
    {
        // The contract of `shape` states that this is an array.
        let _sound = array.shape();
        match place_in_row(counts, axes, row, before + 1) {
            Some(place) => array.extend_run(items, place, kept),
            None => items.extend_with(array.item_type().fill(), kept),
        }
    }

    /// Computes the whole result. If no place is missing, it is a part of the array.
    pub fn apply(&self, alloc: Global, args: &[Seen]) -> Result<Array, ApplyFault>
        requires { length args.now ≡ 2 }
        ensures { IsAnswerTo (of_two_arguments take_whole args.now) result }
    {
        let (counts, array) = (&args[0], &args[1]);
        let (shape, _) = self.shape_of(args)?;
        match places_before_taken(counts, array) {
            Some(before) => part_of(alloc, array, before.as_slice(), &shape),
            None => apply_rows(alloc, self, args),
        }
    }
}

impl Primitive for Take {
    ghost arity = { λ _. 2 };

    ghost form = { λ _ args. of_two_arguments take_form args };

    ghost item = { λ _ args index. of_two_arguments (λ a b. take_item a b index) args };

    fn shape_of(&self, args: &[Seen]) -> Result<(Shape, ItemType), Kind> {
        let counts = &args[0];
        let array = &args[1];
        check_axis_counts(counts, array)?;
        limited(magnitudes(counts)?, array.item_type())
    }

    fn item_at(&self, args: &[Seen], index: &[u32]) -> Result<Item, Kind> {
        let counts = &args[0];
        let array = &args[1];
        let source = self.source(counts, array, index);
        Ok(item_from(array, array, array.item_type(), source))
    }
}

impl RowPrimitive for Take {
    fn extend_row(
        &self,
        args: &[Seen],
        row: &[u32],
        count: u32,
        items: &mut ArrayBuilder,
    ) -> Result<(), AllocError> {
        let (counts, array) = (&args[0], &args[1]);
        let axes = counted_shape(counts, array);
        let fill = array.item_type().fill();
        let kept = axes[row.len()].min(count);
        if kept == 0 {
            return items.extend_with(fill, count);
        }
        let missing = count - kept;
        if counts.number(row.len() as u32 + 1) >= 0 {
            self.extend_kept(counts, array, axes.as_slice(), row, 0, kept, items)?;
            items.extend_with(fill, missing)
        } else {
            items.extend_with(fill, missing)?;
            self.extend_kept(counts, array, axes.as_slice(), row, missing, kept, items)
        }
    }
}

/// Maps an interval of an axis to the result, for this count.
fn taken_interval(axis: u32, count: i64, places: u32, interval: (u32, u32)) -> (u32, u32)
    requires magnitude { places ≡ unsigned_abs count }
    requires order { interval.0 ≤ interval.1 }
    requires on_axis { interval.1 ≤ axis }
    ensures { result ≡ (taken axis count).image interval }
{
    if count >= 0 {
        return interval;
    }
    let (first, last) = interval;
    (
        places.saturating_sub(axis - first),
        places.saturating_sub(axis - last),
    )
}

/// Maps the intervals of a box to the result, given its shape.
fn taken_box(counts: &Seen, axes: &[u32], shape: &[u32], intervals: &[(u32, u32)]) -> Intervals
    requires long { length counts.now.items ≡ length axes.now }
    requires rank { length axes.now ≤ most_axes }
    requires fit { IsTrue (fits intervals.now axes.now) }
    requires shaped { shape.now ≡ magnitudes counts.now }
    ensures { result ≡ images (taken_axes axes.now (numbers counts.now)) intervals.now }
{
    let mut moved = Intervals::none();
    for k in 0..axes.len() {
        let count = counts.number(k as u32 + 1);
        let (first, last) = taken_interval(axes[k], count, shape[k], intervals[k]);
        moved.push(first, last);
    }
    moved
}

impl Announced for Take {
    ghost selectors = { λ _. take_rule.selectors };

    ghost uses = { λ _. take_rule.uses };

    fn grows(&self, _args: &[Seen], _grown: &[bool]) -> bool {
        false
    }

    fn reads_many_items(&self) -> bool {
        false
    }

    fn selects(&self, which: usize) -> bool {
        which == 0
    }

    fn box_of(
        &self,
        args: &[Seen],
        shape: &[u32],
        which: usize,
        region: &IndexBox,
    ) -> Option<Intervals> {
        if which == 0 {
            return None;
        }
        let (counts, array) = (&args[0], &args[1]);
        let axes = counted_shape(counts, array);
        let intervals = counted_box(counts, array, region);
        Some(taken_box(counts, axes.as_slice(), shape, intervals.as_slice()))
    }

    fn whole(&self, alloc: Global, args: &[Seen]) -> Result<Array, ApplyFault> {
        self.apply(alloc, args)
    }

    ghost counted = { λ _. Prim.search rules };

    ghost tight = { λ _. take_tight };

    ghost growing = { λ _. never_grows _ };
}
