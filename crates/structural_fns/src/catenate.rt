//! Catenate: joins two arrays along an axis.

ghost use Rattle.std.specs.Prelude.{◌≡◌, ◌≤◌, ◌<◌, ◌+◌, ◌-◌, ◌^◌, ◌++◌, ◌∷◌, [], ◌↔◌, ℕ, IfOk, OnOk, Err, IfErr, IsTrue, Result, true, if◌then◌else◌, length, nat_eq, ◌&&◌, Some};
ghost use Rattle.std.proofs.Common.{rules};
ghost use Rattle.arrays_core.specs.Limits.{most_axes, longest_axis};
ghost use Rattle.arrays_core.specs.declared.item.Kind.{Kind as AKind};
ghost use Rattle.arrays_core.specs.Arrays.{ArrayValue, IsAnswerTo, IsArray, item_of};
ghost use Rattle.arrays_core.specs.Building.{listed};
ghost use Rattle.arrays_core.specs.Shapes.{size, is_index_of, places_before, IsWithinLimits};
ghost use Rattle.index_region.specs.Checks.{Form};
ghost use Rattle.index_region.specs.Arguments.{is_scalar, has_items};
ghost use Rattle.function_names.specs.Axes.{is_axis, axis_at};
ghost use Rattle.index_region.specs.ArgumentLists.{of_two_arguments};
ghost use Rattle.index_region.specs.Answers.{IsPlaceOf, IsSourceIn, source_value};
ghost use Rattle.index_region.specs.Boxes.{fits};
ghost use Rattle.change_core.proofs.Growing.{never_grows};
ghost use Rattle.structural_fns.specs.Catenate.{joined_rank, joined_places, other_axes, ranks_join, axes_agree, types_join, joined_type, joined_shape, sides_checked, in_side, in_side_of_row, catenate_form, catenate_source, catenate_item, catenate_whole, side_box, catenate_rule, IsSide};
ghost use Rattle.structural_fns.specs.Laws.Catenate.{catenate_tight};

use crate::even_steps::extend_evenly;
use arrays_core::{
    ApplyFault, Array, ArrayBuilder, Item, ItemType, Kind, Shape, index_in_row, places_before,
    shape_of, with_axis, without_axis,
};
use change_core::Announced;
use index_region::{
    Along, IndexBox, Intervals, Primitive, RowPrimitive, Seen, Source, apply_rows, item_from,
    limited,
};
use std::alloc::{AllocError, Global};

/// Returns the rank of the result: the greater rank, and at least 1.
fn joined_rank(left: &Seen, right: &Seen) -> usize
    ensures is { result ≡ joined_rank left.now right.now }
    ensures low { 1 ≤ result }
    ensures high { result ≤ most_axes }
{
    let rank = left.shape().len().max(right.shape().len());
    rank.max(1)
}

/// Returns the number of places of a side along the axis.
fn joined_places(side: &Seen, rank: usize, axis: usize) -> u32
    requires { axis < rank }
    ensures is { result ≡ joined_places rank axis side.now }
    ensures within { result ≤ longest_axis }
{
    let axes = side.shape().as_slice();
    if axes.len() == rank { axes[axis] } else { 1 }
}

/// Returns the other axes of a side. An array of one rank less has no axis to leave out.
fn other_axes(side: &Seen, rank: usize, axis: usize) -> Shape
    requires { axis < rank }
    ensures is { result.items ≡ other_axes rank axis side.now }
    ensures inline { result.capacity ≡ 4 }
{
    let shape = side.shape();
    let alloc = *shape.allocator();
    if shape.len() == rank {
        without_axis(alloc, shape.as_slice(), axis)
    } else {
        shape_of(alloc, shape.as_slice())
    }
}

/// Tests whether the ranks can join: a scalar joins any array; otherwise they differ by at most 1.
fn ranks_join(left: &Seen, right: &Seen) -> bool
    ensures { result ≡ ranks_join left.now right.now }
{
    let (left, right) = (left.shape().len(), right.shape().len());
    if left == 0 || right == 0 {
        return true;
    }
    left <= right + 1 && right <= left + 1
}

/// Tests whether the other axes agree. A scalar is repeated over them.
fn axes_agree(left: &Seen, right: &Seen, rank: usize, axis: usize) -> bool
    requires { axis < rank }
    ensures { result ≡ axes_agree rank axis left.now right.now }
{
    if left.shape().is_empty() || right.shape().is_empty() {
        return true;
    }
    let others = other_axes(left, rank, axis);
    others.as_slice() == other_axes(right, rank, axis).as_slice()
}

/// Tests whether the types agree, or one side has no items.
fn types_join(left: &Seen, right: &Seen) -> bool
    ensures { result ≡ types_join left.now right.now }
{
    if left.places() == 0 || right.places() == 0 {
        return true;
    }
    left.item_type() == right.item_type()
}

/// Returns the type of the left side, unless only the right side has items.
fn joined_type(left: &Seen, right: &Seen) -> ItemType
    ensures { result ≡ joined_type left.now right.now }
{
    if left.places() == 0 && right.places() > 0 {
        right.item_type()
    } else {
        left.item_type()
    }
}

/// Checks the two sides. Fails with RANK, LENGTH or DOMAIN, in this order.
fn check_sides(left: &Seen, right: &Seen, rank: usize, axis: usize) -> Result<(), Kind>
    requires { axis < rank }
    ensures passed { IfOk result (λ _. (rest : Result Form AKind) → sides_checked rank axis left.now right.now rest ≡ rest) }
    ensures failed { IfErr result (λ kind. (rest : Result Form AKind) → sides_checked rank axis left.now right.now rest ≡ Err kind) }
    ensures ranks { IfOk result (λ _. IsTrue (ranks_join left.now right.now)) }
{
    if !ranks_join(left, right) {
        return Err(Kind::Rank);
    }
    if !axes_agree(left, right, rank, axis) {
        return Err(Kind::Length);
    }
    if !types_join(left, right) {
        return Err(Kind::Domain);
    }
    Ok(())
}

/// Returns the other axes, taken from a side that is no scalar if there is one.
fn shared_axes(left: &Seen, right: &Seen, rank: usize, axis: usize) -> Shape
    requires { axis < rank }
    ensures is { result.items ≡ other_axes rank axis (if is_scalar left.now then right.now else left.now) }
    ensures inline { result.capacity ≡ 4 }
{
    if left.shape().is_empty() {
        other_axes(right, rank, axis)
    } else {
        other_axes(left, rank, axis)
    }
}

/// Returns the shape of the result.
fn joined_shape(left: &Seen, right: &Seen, rank: usize, axis: usize) -> Shape
    requires there { axis < rank }
    requires greatest { rank ≡ joined_rank left.now right.now }
    requires high { rank ≤ most_axes }
    requires ranks { IsTrue (ranks_join left.now right.now) }
    ensures is { result.items ≡ joined_shape rank axis left.now right.now }
    ensures inline { result.capacity ≡ 4 }
{
    let places = joined_places(left, rank, axis) + joined_places(right, rank, axis);
    let others = shared_axes(left, right, rank, axis);
    with_axis(*left.shape().allocator(), others.as_slice(), axis, places)
}

/// Returns the index list of a side at place `i` along the axis. A scalar is repeated.
fn in_side(side: &Seen, rank: usize, axis: usize, index: &[u32], i: u32) -> Shape
    requires there { axis < rank }
    requires long { length index.now ≡ rank }
    requires high { rank ≤ most_axes }
    ensures is { result.items ≡ in_side rank axis side.now index.now i }
    ensures inline { result.capacity ≡ 4 }
{
    let shape = side.shape();
    let alloc = *shape.allocator();
    if shape.is_empty() {
        return shape_of(alloc, &[]);
    }
    if shape.len() != rank {
        return without_axis(alloc, index, axis);
    }
    let mut at = shape_of(alloc, index);
    at[axis] = i;
    at
}

/// Returns the offset in a side of an item of a row.
fn place_in_side(side: &Seen, axis: usize, skipped: u32, row: &[u32], i: u32) -> u32
    requires rank { length row.now < most_axes }
    requires axis { axis ≤ length row.now }
    requires inside { IsTrue (is_index_of side.now.shape (in_side_of_row axis skipped side.now row.now i)) }
    ensures is { result ≡ places_before side.now.shape (in_side_of_row axis skipped side.now row.now i) }
    ensures sound { IsArray side.now }
{
    let shape = side.shape();
    let index = index_in_row(*shape.allocator(), row, i);
    let along = index[axis].saturating_sub(skipped);
    let at = in_side(side, row.len() + 1, axis, index.as_slice(), along);
    places_before(shape, at.as_slice())
}

/// Appends the part of a row that comes from one side: `kept` items after the first `before` places.
fn extend_side(
    side: &Seen,
    axis: usize,
    skipped: u32,
    row: &[u32],
    before: u32,
    kept: u32,
    items: &mut ArrayBuilder,
) -> Result<(), AllocError>
    requires rank { length row.now < most_axes }
    requires axis { axis ≤ length row.now }
    requires room { before + kept < 2 ^ 32 }
    requires skipped { axis ≡ length row.now → skipped ≤ before }
    requires inside { (i : ℕ) → before < i → i ≤ before + kept → IsTrue (is_index_of side.now.shape (in_side_of_row axis skipped side.now row.now i)) }
    requires typed { has_items side.now ≡ true → side.now.item_type ≡ items.old.item_type }
    ensures items { OnOk result (items.new.items ≡ items.old.items ++ listed kept (λ k. item_of side.now (in_side_of_row axis skipped side.now row.now (before + k + 1)))) }
    ensures typed { items.new.item_type ≡ items.old.item_type }
{
    if kept == 0 {
        return Ok(());
    }
    let first = place_in_side(side, axis, skipped, row, before + 1);
    let second = place_in_side(side, axis, skipped, row, before + kept.min(2));
    extend_evenly(side, first, second - first, kept, items)
}

/// Tests whether each item of a side is used once, in row-major order: no scalar is repeated.
fn is_run(side: &Seen, rank: usize) -> bool
    ensures is { IsTrue result ↔ (is_scalar side.now ≡ true → rank ≡ 1) }
    ensures sound { IsArray side.now }
{
    !side.shape().is_empty() || rank == 1
}

/// Joins the items of the left and the right side.
fn joined_runs(left: &Seen, right: &Seen, shape: &Shape) -> Result<Array, AllocError>
    requires within { IsWithinLimits shape.now.items }
    requires one_item_a_place { length left.now.items + length right.now.items ≡ size shape.now.items }
    requires types { IsTrue (types_join left.now right.now) }
    ensures { IfOk result (λ a. a ≡ record {
      item_type = joined_type left.now right.now;
      shape = shape.now.items;
      items = left.now.items ++ right.now.items;
    }) }
{
    if right.places() == 0 {
        return left.part(0, shape);
    }
    if left.places() == 0 {
        return right.part(0, shape);
    }
    left.joined(right, shape)
}

/// Catenate, `A,B` and `A⍪B` (ISO/IEC 13751, "Join along an axis"): the places of A along the axis, followed by those of B. A scalar, or an
/// array of one rank less, is one place along the axis; a scalar is repeated over the other axes. Two scalars make a vector. The side
/// that has items gives the type. AXIS if the axis is none of the result's. RANK if ranks differ by more than 1, LENGTH if other axes
/// differ, DOMAIN if types differ. LIMIT beyond the limits of arrays.
#[derive(Clone, Copy, PartialEq, Eq, Debug)]
pub struct Catenate {
    /// The axis along which the sides are joined.
    pub along: Along,
}

impl Catenate {
    /// Returns the source of the item at an index list of the result, after the checks have passed. Allocates nothing.
    pub fn source_of(&self, args: &[Seen], index: &[u32]) -> Source
        requires count { length args.now ≡ 2 }
        requires place { IsPlaceOf (of_two_arguments (catenate_form self.now.along) args.now) index.now }
        ensures is { (a b : ArrayValue) → args.now ≡ a ∷ b ∷ [] → source_value result ≡ catenate_source self.now.along a b index.now }
        ensures inside { (a b : ArrayValue) → args.now ≡ a ∷ b ∷ [] → IsSourceIn a b result }
    {
        self.source(&args[0], &args[1], index)
    }

    /// Returns the source of the item at an index list of the result.
    fn source(self, left: &Seen, right: &Seen, index: &[u32]) -> Source
        requires { IsPlaceOf (catenate_form self.along left.now right.now) index.now }
        ensures is { source_value result ≡ catenate_source self.along left.now right.now index.now }
        ensures inside { IsSourceIn left.now right.now result }
    {
        let rank = joined_rank(left, right);
        let axis = self.along.axis_at(rank as u32);
        let i = index[axis];
        let places = joined_places(left, rank, axis);
        if i <= places {
            let at = in_side(left, rank, axis, index, i);
            return Source::Place { arg: 0, at };
        }
        let at = in_side(right, rank, axis, index, i - places);
        Source::Place { arg: 1, at }
    }

    /// Tests whether the sides are joined along the first of `rank` axes.
    fn is_along_first(self, rank: usize) -> bool
        requires low { 1 ≤ rank }
        requires high { rank ≤ most_axes }
        ensures { result ≡ is_axis rank self.along && nat_eq (axis_at rank self.along) 0 }
    {
        self.along.is_axis(rank as u32) && self.along.axis_at(rank as u32) == 0
    }

    /// Computes the whole result. Along the first axis, copies each side in one run unless a scalar is repeated.
    pub fn apply(&self, alloc: Global, args: &[Seen]) -> Result<Array, ApplyFault>
        requires { length args.now ≡ 2 }
        ensures { IsAnswerTo (of_two_arguments (catenate_whole self.now.along) args.now) result }
    {
        let (left, right) = (&args[0], &args[1]);
        let rank = joined_rank(left, right);
        if self.is_along_first(rank) && is_run(left, rank) && is_run(right, rank) {
            let (shape, _) = self.shape_of(args)?;
            let runs = joined_runs(left, right, &shape)?;
            return Ok(runs);
        }
        apply_rows(alloc, self, args)
    }
}

impl Primitive for Catenate {
    ghost arity = { λ _. 2 };

    ghost form = { λ r args. of_two_arguments (catenate_form r.along) args };

    ghost item = { λ r args index. of_two_arguments (λ a b. catenate_item r.along a b index) args };

    fn shape_of(&self, args: &[Seen]) -> Result<(Shape, ItemType), Kind> {
        let left = &args[0];
        let right = &args[1];
        let rank = joined_rank(left, right);
        if !self.along.is_axis(rank as u32) {
            return Err(Kind::Axis);
        }
        let axis = self.along.axis_at(rank as u32);
        check_sides(left, right, rank, axis)?;
        limited(
            joined_shape(left, right, rank, axis),
            joined_type(left, right),
        )
    }

    fn item_at(&self, args: &[Seen], index: &[u32]) -> Result<Item, Kind> {
        let left = &args[0];
        let right = &args[1];
        let source = self.source(left, right, index);
        Ok(item_from(left, right, joined_type(left, right), source))
    }
}

impl RowPrimitive for Catenate {
    fn extend_row(
        &self,
        args: &[Seen],
        row: &[u32],
        count: u32,
        items: &mut ArrayBuilder,
    ) -> Result<(), AllocError> {
        let (left, right) = (&args[0], &args[1]);
        let rank = joined_rank(left, right);
        let axis = self.along.axis_at(rank as u32);
        let places = joined_places(left, rank, axis);
        if axis == row.len() {
            extend_side(left, axis, 0, row, 0, places, items)?;
            return extend_side(right, axis, places, row, places, count - places, items);
        }
        if row[axis] <= places {
            extend_side(left, axis, 0, row, 0, count, items)
        } else {
            extend_side(right, axis, places, row, 0, count, items)
        }
    }
}

/// Moves an interval of a side by the `before` places in front of it.
fn moved_interval(before: u32, interval: (u32, u32)) -> (u32, u32)
    requires within { before ≤ longest_axis }
    requires order { interval.0 ≤ interval.1 }
    requires high { interval.1 ≤ longest_axis }
    ensures { result ≡ (before + interval.0, before + interval.1) }
{
    let (first, last) = interval;
    (before + first, before + last)
}

/// Returns the intervals of the result for a changed box of a side with `before` places in front of it.
fn side_box(side: &Seen, shape: &[u32], axis: usize, before: u32, region: &IndexBox) -> Intervals
    requires rank { length shape.now ≤ most_axes }
    requires there { axis < length shape.now }
    requires near { IsSide side.now (length shape.now) }
    requires within { before ≤ longest_axis }
    requires fit { IsTrue (fits region.now side.now.shape) }
    ensures { Some result ≡ side_box shape.now axis before side.now region.now }
{
    let rank = side.shape().len();
    if rank == 0 {
        return Intervals::whole(shape).with(axis, before + 1, before + 1);
    }
    let intervals = region.intervals().copy();
    if rank == shape.len() {
        let (first, last) = moved_interval(before, region.as_slice()[axis]);
        return intervals.with(axis, first, last);
    }
    intervals.with_axis(axis, before + 1, before + 1)
}

impl Announced for Catenate {
    ghost selectors = { λ r. (catenate_rule r.along).selectors };

    ghost uses = { λ r. (catenate_rule r.along).uses };

    fn grows(&self, _args: &[Seen], _grown: &[bool]) -> bool {
        false
    }

    fn selects(&self, _which: usize) -> bool {
        false
    }

    fn box_of(
        &self,
        args: &[Seen],
        shape: &[u32],
        which: usize,
        region: &IndexBox,
    ) -> Option<Intervals> {
        let (left, right) = (&args[0], &args[1]);
        let axis = self.along.axis_at(shape.len() as u32);
        if which == 0 {
            return Some(side_box(left, shape, axis, 0, region));
        }
        let before = joined_places(left, shape.len(), axis);
        Some(side_box(right, shape, axis, before, region))
    }

    fn whole(&self, alloc: Global, args: &[Seen]) -> Result<Array, ApplyFault> {
        self.apply(alloc, args)
    }

    ghost counted = { λ _. Prim.search rules };

    ghost tight = { λ r. catenate_tight r.along };

    ghost growing = { λ _. never_grows _ };
}
