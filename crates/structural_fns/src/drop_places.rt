//! Drop: leaves out the first or last places of each axis.

ghost use Rattle.std.specs.Prelude.{◌≡◌, ◌≤◌, ◌+◌, min, unsigned_abs, IsTrue, IfOk, Ok, length, ◌∷◌, [], ℕ};
ghost use Rattle.std.proofs.Common.{rules};
ghost use Rattle.arrays_core.specs.Limits.{most_axes, longest_axis};
ghost use Rattle.arrays_core.specs.Arrays.{ArrayValue, IsAnswerTo, IsArray};
ghost use Rattle.arrays_core.specs.Shapes.{IsWithinLimits, is_index_of};
ghost use Rattle.index_region.specs.ArgumentLists.{of_two_arguments};
ghost use Rattle.index_region.specs.Arguments.{numbers};
ghost use Rattle.index_region.specs.Answers.{IsPlaceOf, IsSourceIn, source_value};
ghost use Rattle.index_region.specs.Checks.{form_of};
ghost use Rattle.change_core.specs.Ways.{images};
ghost use Rattle.change_core.proofs.Growing.{never_grows};
ghost use Rattle.structural_fns.specs.AxisCounts.{counted_shape, uncounted};
ghost use Rattle.structural_fns.specs.Drop.{drop_form, drop_source, drop_item, drop_whole, dropped_shape, kept_place, kept_places, kept, kept_axes, drop_rule};
ghost use Rattle.structural_fns.specs.Part.{AreBeforeKept};
ghost use Rattle.structural_fns.specs.Laws.Drop.{drop_tight};

use crate::axis_counts::{check_axis_counts, counted_box, counted_shape, uncounted};
use crate::limits::MOST_AXES;
use crate::part::part_of;
use arrays_core::{ApplyFault, Array, Item, ItemType, Kind, Shape};
use change_core::Announced;
use index_region::{IndexBox, Intervals, Primitive, Seen, Source, apply, item_from, limited};
use smallvec::SmallVec;
use std::alloc::Global;

/// Returns the lengths of the axes of the result.
fn dropped_shape(counts: &Seen, axes: &[u32]) -> Shape
    requires long { length counts.now.items ≡ length axes.now }
    requires rank { length axes.now ≤ most_axes }
    ensures is { result.items ≡ dropped_shape axes.now (numbers counts.now) }
    ensures inline { result.capacity ≡ 4 }
{
    let mut shape = SmallVec::new(*counts.shape().allocator());
    for k in 0..axes.len() {
        let count = counts.number(k as u32 + 1).unsigned_abs();
        let left = u64::from(axes[k]).saturating_sub(count);
        shape.push_reserved(left as u32);
    }
    shape
}

/// Returns the place on an axis that place `i` of the result comes from.
fn kept_place(count: i64, i: u32) -> u32
    requires { i + unsigned_abs count ≤ longest_axis }
    ensures { result ≡ kept_place count i }
{
    if count >= 0 {
        i + count.unsigned_abs() as u32
    } else {
        i
    }
}

/// Returns the places on all axes that an index list of the result comes from.
fn kept_places(counts: &Seen, array: &Seen, index: &[u32]) -> Shape
    requires long { length counts.now.items ≡ length (counted_shape counts.now array.now) }
    requires within { IsWithinLimits (dropped_shape (counted_shape counts.now array.now) (numbers counts.now)) }
    requires inside { IsTrue (is_index_of (dropped_shape (counted_shape counts.now array.now) (numbers counts.now)) index.now) }
    ensures is { result.items ≡ kept_places (numbers counts.now) index.now }
    ensures inline { result.capacity ≡ 4 }
{
    let mut places = SmallVec::new(*array.shape().allocator());
    for k in 0..counts.places() {
        let count = counts.number(k + 1);
        places.push_reserved(kept_place(count, index[k as usize]));
    }
    places
}

/// Returns the number of places before the kept ones on an axis. A result without a place may begin anywhere.
fn skipped(axis: u32, count: i64) -> u32
    ensures { result ≡ min (kept_place count 0) axis }
{
    if count < 0 {
        return 0;
    }
    count.unsigned_abs().min(u64::from(axis)) as u32
}

/// Returns the number of places before the kept ones on each axis of the array.
fn places_before_kept(counts: &Seen, axes: &[u32]) -> Shape
    requires long { length counts.now.items ≡ length axes.now }
    requires rank { length axes.now ≤ most_axes }
    ensures { AreBeforeKept axes.now (numbers counts.now) result.items }
{
    let mut before = SmallVec::new(*counts.shape().allocator());
    for k in 0..axes.len() {
        let count = counts.number(k as u32 + 1);
        before.push_reserved(skipped(axes[k], count));
    }
    before
}

/// Drop, `A↓B` (ISO/IEC 13751, "Drop"): a positive count leaves out the first places of its axis, a negative one the last. No length is
/// below 0. A scalar B has an axis of length 1 for each count. RANK if A is neither a scalar nor a vector, LENGTH unless it has a count for
/// each axis. DOMAIN unless it has numbers, LIMIT beyond the limits of arrays.
#[derive(Clone, Copy, PartialEq, Eq, Debug)]
pub struct DropPlaces;

impl DropPlaces {
    /// Returns the index list of the array for an index list of the result. Allocates nothing.
    fn place_of(self, counts: &Seen, array: &Seen, index: &[u32]) -> Shape
        requires { IsPlaceOf (drop_form counts.now array.now) index.now }
        ensures is { result.items ≡ uncounted array.now (kept_places (numbers counts.now) index.now) }
        ensures inside { IsTrue (is_index_of array.now.shape result.items) }
        ensures inline { result.capacity ≡ 4 }
    {
        uncounted(array, kept_places(counts, array, index))
    }

    /// Returns the source of the item at an index list of the result, after the checks have passed. Allocates nothing.
    pub fn source_of(&self, args: &[Seen], index: &[u32]) -> Source
        requires count { length args.now ≡ 2 }
        requires place { IsPlaceOf (of_two_arguments drop_form args.now) index.now }
        ensures is { (a b : ArrayValue) → args.now ≡ a ∷ b ∷ [] → source_value result ≡ drop_source a b index.now }
        ensures inside { (a b : ArrayValue) → args.now ≡ a ∷ b ∷ [] → IsSourceIn a b result }
    {
        self.source(&args[0], &args[1], index)
    }

    /// Returns the source of the item at an index list of the result.
    fn source(self, counts: &Seen, array: &Seen, index: &[u32]) -> Source
        requires { IsPlaceOf (drop_form counts.now array.now) index.now }
        ensures is { source_value result ≡ drop_source counts.now array.now index.now }
        ensures inside { IsSourceIn counts.now array.now result }
    {
        let at = self.place_of(counts, array, index);
        Source::Place { arg: 1, at }
    }

    /// Computes the whole result, a part of the array.
    pub fn apply(&self, alloc: Global, args: &[Seen]) -> Result<Array, ApplyFault>
        requires { length args.now ≡ 2 }
        ensures { IsAnswerTo (of_two_arguments drop_whole args.now) result }
    {
        let (counts, array) = (&args[0], &args[1]);
        let (shape, _) = self.shape_of(args)?;
        let axes = array.shape();
        if axes.is_empty() {
            return apply(alloc, self, args);
        }
        let before = places_before_kept(counts, axes.as_slice());
        part_of(alloc, array, before.as_slice(), &shape)
    }
}

impl Primitive for DropPlaces {
    ghost arity = { λ _. 2 };

    ghost form = { λ _ args. of_two_arguments drop_form args };

    ghost item = { λ _ args index. of_two_arguments (λ a b. drop_item a b index) args };

    fn shape_of(&self, args: &[Seen]) -> Result<(Shape, ItemType), Kind> {
        let counts = &args[0];
        let array = &args[1];
        check_axis_counts(counts, array)?;
        if counts.places() > MOST_AXES {
            return Err(Kind::Limit);
        }
        let axes = counted_shape(counts, array);
        limited(dropped_shape(counts, axes.as_slice()), array.item_type())
    }

    fn item_at(&self, args: &[Seen], index: &[u32]) -> Result<Item, Kind> {
        let counts = &args[0];
        let array = &args[1];
        let source = self.source(counts, array, index);
        Ok(item_from(array, array, array.item_type(), source))
    }
}

/// Maps an interval of an axis to the result, for this count.
fn kept_interval(count: i64, interval: (u32, u32)) -> (u32, u32)
    ensures { (n : ℕ) → result ≡ (kept n count).image interval }
{
    if count < 0 {
        return interval;
    }
    let dropped = count.unsigned_abs();
    let (first, last) = interval;
    (
        u64::from(first).saturating_sub(dropped) as u32,
        u64::from(last).saturating_sub(dropped) as u32,
    )
}

/// Maps the intervals of a box to the result.
fn kept_box(counts: &Seen, axes: &[u32], intervals: &[(u32, u32)]) -> Intervals
    requires long { length counts.now.items ≡ length axes.now }
    requires rank { length axes.now ≤ most_axes }
    requires as_many { length intervals.now ≡ length axes.now }
    ensures { result ≡ images (kept_axes axes.now (numbers counts.now)) intervals.now }
{
    let mut moved = Intervals::none();
    for k in 0..axes.len() {
        let count = counts.number(k as u32 + 1);
        let (first, last) = kept_interval(count, intervals[k]);
        moved.push(first, last);
    }
    moved
}

impl Announced for DropPlaces {
    ghost selectors = { λ _. drop_rule.selectors };

    ghost uses = { λ _. drop_rule.uses };

    fn grows(&self, _args: &[Seen], _grown: &[bool]) -> bool {
        false
    }

    fn reads_many_items(&self) -> bool {
        false
    }

    fn selects(&self, which: usize) -> bool {
        which == 0
    }

    fn box_of(
        &self,
        args: &[Seen],
        _shape: &[u32],
        which: usize,
        region: &IndexBox,
    ) -> Option<Intervals> {
        if which == 0 {
            return None;
        }
        let (counts, array) = (&args[0], &args[1]);
        let axes = counted_shape(counts, array);
        let intervals = counted_box(counts, array, region);
        Some(kept_box(counts, axes.as_slice(), intervals.as_slice()))
    }

    fn whole(&self, alloc: Global, args: &[Seen]) -> Result<Array, ApplyFault> {
        self.apply(alloc, args)
    }

    ghost counted = { λ _. Prim.search rules };

    ghost tight = { λ _. drop_tight };

    ghost growing = { λ _. never_grows _ };
}
