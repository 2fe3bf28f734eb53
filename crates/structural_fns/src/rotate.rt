//! Rotate: moves the places of an axis cyclically.

ghost use Rattle.std.specs.Prelude.{◌≡◌, ◌≤◌, ◌<◌, ◌≢◌, ◌++◌, ◌∷◌, [], suc, ℤ, pos, IfOk, OnOk, Ok, Err, IfErr, IsTrue, Result, length, All, set, get_or, remove};
ghost use Rattle.std.proofs.Common.{rules};
ghost use Rattle.arrays_core.specs.Limits.{most_axes, longest_axis};
ghost use Rattle.arrays_core.specs.declared.item.Kind.{Kind as AKind};
ghost use Rattle.arrays_core.specs.Arrays.{ArrayValue, IsAnswerTo, IsArray};
ghost use Rattle.arrays_core.specs.Shapes.{is_index_of, size};
ghost use Rattle.arrays_core.specs.Building.{with_row};
ghost use Rattle.index_region.specs.Checks.{Form, form_of};
ghost use Rattle.function_names.specs.Axes.{axis_at};
ghost use Rattle.index_region.specs.Axes.{places_along};
ghost use Rattle.index_region.specs.Arguments.{numbers};
ghost use Rattle.index_region.specs.ArgumentLists.{of_two_arguments};
ghost use Rattle.index_region.specs.Answers.{IsPlaceOf, IsRowIn, IsSourceIn, source_value};
ghost use Rattle.change_core.proofs.Growing.{never_grows};
ghost use Rattle.structural_fns.specs.Rotate.{lines_checked, rotate_form, rotation, rotated_place, rotate_source, rotate_item, rotate_whole, rotate_rule};
ghost use Rattle.structural_fns.specs.Laws.Rotate.{rotate_tight};

use crate::index_source::{RowWith, place_of, row_place};
use arrays_core::{
    ApplyFault, Array, ArrayBuilder, Item, ItemFunction, ItemType, Kind, RowFunction, Shape,
    collect_rows, index_in_row, places_before, position, shape_of, without_axis,
};
use change_core::Announced;
use index_region::{
    Along, IndexBox, Intervals, Primitive, RowPrimitive, Seen, Source, apply_rows, item_from,
    limited,
};
use std::alloc::{AllocError, Global};

/// Checks the amounts, unless there is just one. Fails with RANK unless they have one axis less, with LENGTH unless there is one for each
/// line.
fn check_lines(amounts: &Seen, axes: &[u32], axis: usize) -> Result<(), Kind>
    requires rank { length axes.now ≤ most_axes }
    requires there { 0 < length axes.now → axis < length axes.now }
    ensures passed { IfOk result (λ _. (rest : Result Form AKind) → lines_checked axis amounts.now axes.now rest ≡ rest) }
    ensures failed { IfErr result (λ kind. (rest : Result Form AKind) → lines_checked axis amounts.now axes.now rest ≡ Err kind) }
{
    if amounts.places() == 1 {
        return Ok(());
    }
    let shape = amounts.shape();
    if shape.len() + 1 != axes.len() {
        return Err(Kind::Rank);
    }
    let lines = without_axis(*shape.allocator(), axes, axis);
    if shape.as_slice() != lines.as_slice() {
        return Err(Kind::Length);
    }
    Ok(())
}

/// Returns the amount for the line of an index list.
fn amount_at(amounts: &Seen, axis: usize, index: &[u32]) -> i64
    requires rank { length index.now ≤ most_axes }
    requires there { length amounts.now.items ≢ 1 → axis < length index.now }
    requires line { length amounts.now.items ≢ 1 → IsTrue (is_index_of amounts.now.shape (remove index.now axis)) }
    ensures { result ≡ rotation axis amounts.now index.now }
{
    if amounts.places() == 1 {
        return amounts.number(1);
    }
    let shape = amounts.shape();
    let line = without_axis(*shape.allocator(), index, axis);
    amounts.number(position(shape, line.as_slice()))
}

/// Returns the place that moves to place `i` of an axis.
fn rotated_place(axis: u32, amount: i64, i: u32) -> u32
    requires low { 1 ≤ i }
    requires high { i ≤ axis }
    requires within { axis ≤ longest_axis }
    ensures { result ≡ rotated_place axis amount i }
{
    let place = i128::from(i) + i128::from(amount) - 1;
    place.rem_euclid(i128::from(axis)) as u32 + 1
}

/// Returns the index list that moves to an index list.
fn rotated(alloc: Global, axes: &[u32], axis: usize, amount: i64, index: &[u32]) -> Shape
    requires rank { length axes.now ≤ most_axes }
    requires axes_in { All (λ n. n ≤ longest_axis) axes.now }
    requires there { 0 < length axes.now → axis < length axes.now }
    requires in_range { IsTrue (is_index_of axes.now index.now) }
    ensures is { result.items ≡ set index.now axis (rotated_place (places_along axes.now axis) amount (get_or index.now axis 1)) }
    ensures inline { result.capacity ≡ 4 }
{
    let mut at = shape_of(alloc, index);
    if !axes.is_empty() {
        at[axis] = rotated_place(axes[axis], amount, index[axis]);
    }
    at
}

/// Rotate, `A⌽B` and `A⊖B` (ISO/IEC 13751, "Rotate"): place i along the axis is place i+a, counted cyclically. The amount a is the one item
/// of A, or A's item for the line. A scalar B is unchanged. AXIS if B has no such axis. Unless A has one item, RANK if it has not one axis
/// less, LENGTH if its shape is not that of B without the axis. DOMAIN unless A has numbers.
#[derive(Clone, Copy, PartialEq, Eq, Debug)]
pub struct Rotate {
    /// The axis along which places move.
    pub along: Along,
}

impl Rotate {
    /// Returns the index list of the array for an index list of the result. Allocates nothing.
    fn place_of(self, amounts: &Seen, array: &Seen, index: &[u32]) -> Shape
        requires { IsPlaceOf (rotate_form self.along amounts.now array.now) index.now }
        ensures is { let axis = axis_at (length array.now.shape) self.along in
            result.items ≡ set index.now axis (rotated_place (places_along array.now.shape axis) (rotation axis amounts.now index.now) (get_or index.now axis 1)) }
        ensures inside { IsTrue (is_index_of array.now.shape result.items) }
        ensures inline { result.capacity ≡ 4 }
    {
        let shape = array.shape();
        let axes = shape.as_slice();
        let axis = self.along.axis_at(axes.len() as u32);
        let amount = amount_at(amounts, axis, index);
        rotated(*shape.allocator(), axes, axis, amount, index)
    }

    /// Returns the source of the item at an index list of the result, after the checks have passed. Allocates nothing.
    pub fn source_of(&self, args: &[Seen], index: &[u32]) -> Source
        requires count { length args.now ≡ 2 }
        requires place { IsPlaceOf (of_two_arguments (rotate_form self.now.along) args.now) index.now }
        ensures is { (a b : ArrayValue) → args.now ≡ a ∷ b ∷ [] → source_value result ≡ rotate_source self.now.along a b index.now }
        ensures inside { (a b : ArrayValue) → args.now ≡ a ∷ b ∷ [] → IsSourceIn a b result }
    {
        self.source(&args[0], &args[1], index)
    }

    /// Returns the source of the item at an index list of the result.
    fn source(self, amounts: &Seen, array: &Seen, index: &[u32]) -> Source
        requires { IsPlaceOf (rotate_form self.along amounts.now array.now) index.now }
        ensures is { source_value result ≡ rotate_source self.along amounts.now array.now index.now }
        ensures inside { IsSourceIn amounts.now array.now result }
    {
        let at = self.place_of(amounts, array, index);
        Source::Place { arg: 1, at }
    }

    /// Appends a row along the axis: its line in two runs.
    fn extend_turned(
        self,
        amounts: &Seen,
        array: &Seen,
        row: &[u32],
        count: u32,
        items: &mut ArrayBuilder,
    ) -> Result<(), AllocError>
        requires row { IsRowIn (rotate_form self.along amounts.now array.now) row.now count items.old.item_type }
        requires last { axis_at (length array.now.shape) self.along ≡ length row.now }
        ensures items { OnOk result (with_row items.old.items (λ i. rotate_item self.along amounts.now array.now (row.now ++ i ∷ [])) count ≡ Ok items.new.items) }
        ensures typed { items.new.item_type ≡ items.old.item_type }
    {
        let shape = array.shape();
        let first = index_in_row(*shape.allocator(), row, 1);
        let at = self.place_of(amounts, array, first.as_slice());
        let place = places_before(shape, at.as_slice());
        let before = at[row.len()] - 1;
        array.extend_run(items, place, count - before)?;
        array.extend_run(items, place - before, before)
    }

    /// Appends a row across the lines item by item, as each may have its own amount.
    fn push_row(
        self,
        amounts: &Seen,
        array: &Seen,
        row: &[u32],
        count: u32,
        items: &mut ArrayBuilder,
    ) -> Result<(), AllocError>
        requires row { IsRowIn (rotate_form self.along amounts.now array.now) row.now count items.old.item_type }
        ensures items { OnOk result (with_row items.old.items (λ i. rotate_item self.along amounts.now array.now (row.now ++ i ∷ [])) count ≡ Ok items.new.items) }
        ensures typed { items.new.item_type ≡ items.old.item_type }
    {
        let shape = array.shape();
        for before in 0..count {
            let index = index_in_row(*shape.allocator(), row, before + 1);
            let at = self.place_of(amounts, array, index.as_slice());
            items.push(array.item(position(shape, at.as_slice())))?;
        }
        Ok(())
    }

    /// Computes the whole result by rows.
    pub fn apply(&self, alloc: Global, args: &[Seen]) -> Result<Array, ApplyFault>
        requires { length args.now ≡ 2 }
        ensures { IsAnswerTo (of_two_arguments (rotate_whole self.now.along) args.now) result }
    {
        let (amounts, array) = (&args[0], &args[1]);
        if amounts.places() != 1 {
            return apply_rows(alloc, self, args);
        }
        let (shape, item_type) = self.shape_of(args)?;
        let axes = array.shape().as_slice();
        let axis = self.along.axis_at(axes.len() as u32);
        let rotated = RotatedArray {
            rotate: *self,
            amounts,
            array,
            axes,
            axis,
            turn: turn_of(axes.get(axis).copied().unwrap_or(1), amounts.number(1)),
        };
        collect_rows(alloc, &rotated, item_type, &shape)
    }
}

impl Primitive for Rotate {
    ghost arity = { λ _. 2 };

    ghost form = { λ r args. of_two_arguments (rotate_form r.along) args };

    ghost item = { λ r args index. of_two_arguments (λ a b. rotate_item r.along a b index) args };

    fn shape_of(&self, args: &[Seen]) -> Result<(Shape, ItemType), Kind> {
        let amounts = &args[0];
        let array = &args[1];
        let shape = array.shape();
        let axes = shape.as_slice();
        if !self.along.is_axis(axes.len() as u32) {
            return Err(Kind::Axis);
        }
        check_lines(amounts, axes, self.along.axis_at(axes.len() as u32))?;
        if !amounts.counts_as_numbers() {
            return Err(Kind::Domain);
        }
        limited(shape_of(*shape.allocator(), axes), array.item_type())
    }

    fn item_at(&self, args: &[Seen], index: &[u32]) -> Result<Item, Kind> {
        let amounts = &args[0];
        let array = &args[1];
        let source = self.source(amounts, array, index);
        Ok(item_from(array, array, array.item_type(), source))
    }
}

impl RowPrimitive for Rotate {
    fn extend_row(
        &self,
        args: &[Seen],
        row: &[u32],
        count: u32,
        items: &mut ArrayBuilder,
    ) -> Result<(), AllocError> {
        let (amounts, array) = (&args[0], &args[1]);
        if self.along.axis_at(array.shape().len() as u32) == row.len() {
            return self.extend_turned(amounts, array, row, count, items);
        }
        self.push_row(amounts, array, row, count, items)
    }
}

/// Reduces an amount to a number of places below the length of an axis.
fn turn_of(axis: u32, amount: i64) -> u32
    requires within { axis ≤ longest_axis }
    ensures { 0 < axis → suc result ≡ rotated_place axis amount 1 }
{
    if axis == 0 {
        return 0;
    }
    rotated_place(axis, amount, 1) - 1
}

/// Returns the index that moves to an index of an axis.
#[inline]
fn turned_index(axis: u32, turn: u32, index: u32) -> u32
    requires low { 1 ≤ index }
    requires high { index ≤ axis }
    requires below { turn < axis }
    requires within { axis ≤ longest_axis }
    ensures { (amount : ℤ) → suc turn ≡ rotated_place axis amount 1 → result ≡ rotated_place axis amount index }
{
    let moved = index + turn;
    if moved > axis {
        return moved - axis;
    }
    moved
}

/// The rotation of an array along an axis that it has, all lines by one amount.
#[derive(Drop)]
struct RotatedArray<'a, 'b> {
    rotate: Rotate,
    amounts: &'a Seen<'b>,
    array: &'a Seen<'b>,
    axes: &'a [u32],
    /// The axis, counted from 0.
    axis: usize,
    /// The amount, reduced to a number of places below the length of the axis.
    turn: u32,
    ghost sound: { IsArray array.now },
    ghost axes_are: { axes.now ≡ array.now.shape },
    ghost axis_is: { axis ≡ axis_at (length array.now.shape) rotate.along },
    ghost amounts_are: { IsArray amounts.now },
    ghost one: { size amounts.now.shape ≡ 1 },
    ghost turn_is: { 0 < places_along array.now.shape axis → suc turn ≡ rotated_place (places_along array.now.shape axis) (get_or (numbers amounts.now) 0 (pos 0)) 1 },
    ghost passed: { rotate_form rotate.along amounts.now array.now ≡ Ok (form_of array.now.shape array.now.item_type) },
}

impl<'a, 'b> ItemFunction for RotatedArray<'a, 'b> {
    ghost result_shape = { λ r. r.array.now.shape };

    ghost result_type = { λ r. r.array.now.item_type };

    ghost item = { λ r. rotate_item r.rotate.along r.amounts.now r.array.now };

    fn item_at(&self, index: &[u32]) -> Result<Item, Kind> {
        let array = self.array;
        let source = self.rotate.source(self.amounts, array, index);
        Ok(item_from(array, array, array.item_type(), source))
    }
}

impl<'a, 'b> RowFunction for RotatedArray<'a, 'b> {
    #[inline]
    fn extend_row(
        &self,
        row: &[u32],
        count: u32,
        items: &mut ArrayBuilder,
    ) -> Result<(), AllocError> {
        let (axes, axis) = (self.axes, self.axis);
        if axis == row.len() {
            let first = row_place(axes, row);
            self.array
                .extend_run(items, first + self.turn, count - self.turn)?;
            return self.array.extend_run(items, first, self.turn);
        }
        let index = turned_index(axes[axis], self.turn, row[axis]);
        let first = place_of(axes, &RowWith { row, axis, index });
        self.array.extend_run(items, first, count)
    }
}

impl Announced for Rotate {
    ghost selectors = { λ r. (rotate_rule r.along).selectors };

    ghost uses = { λ r. (rotate_rule r.along).uses };

    fn grows(&self, _args: &[Seen], _grown: &[bool]) -> bool {
        false
    }

    fn selects(&self, _which: usize) -> bool {
        false
    }

    fn box_of(
        &self,
        args: &[Seen],
        shape: &[u32],
        which: usize,
        region: &IndexBox,
    ) -> Option<Intervals> {
        let (amounts, array) = (&args[0], &args[1]);
        let axes = array.shape().as_slice();
        let axis = self.along.axis_at(axes.len() as u32);
        let places = axes.get(axis).copied().unwrap_or(1);
        let intervals = region.intervals().copy();
        if which == 1 {
            return Some(intervals.with(axis, 1, places));
        }
        if amounts.places() == 1 {
            return Some(Intervals::whole(shape));
        }
        Some(intervals.with_axis(axis, 1, places))
    }

    fn whole(&self, alloc: Global, args: &[Seen]) -> Result<Array, ApplyFault> {
        self.apply(alloc, args)
    }

    ghost counted = { λ _. Prim.search rules };

    ghost tight = { λ r. rotate_tight r.along };

    ghost growing = { λ _. never_grows _ };
}
