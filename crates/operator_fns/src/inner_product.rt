//! Inner product: the rows of one array folded with the columns of another.

ghost use Rattle.std.specs.Prelude.{◌≡◌, ◌≢◌, ℕ, ◌+◌, ◌<◌, ◌≤◌, ◌++◌, ◌∷◌, [], IsTrue, IfOk, length, map, take, drop, ◌-◌, false};
ghost use Rattle.std.proofs.Common.{rules};
ghost use Rattle.arrays_core.specs.Limits.{most_places};
ghost use Rattle.arrays_core.specs.declared.item.Item.TheVariants.{Num};
ghost use Rattle.arrays_core.specs.Arrays.{IsAnswerTo, IsArray};
ghost use Rattle.arrays_core.specs.Items.{fill};
ghost use Rattle.arrays_core.specs.Shapes.{is_index_of};
ghost use Rattle.index_region.specs.ArgumentLists.{of_two_arguments};
ghost use Rattle.index_region.specs.Answers.{IsFormAnswerTo, IsPlaceOf, HasTypeOf};
ghost use Rattle.change_core.specs.Sourced.{uses_of_two};
ghost use Rattle.change_core.proofs.Growing.{never_grows};
ghost use Rattle.scalar_fns.specs.ScalarExtension.{extended};
ghost use Rattle.operator_fns.specs.InnerProduct.{row_rank, row_length, column_length, inner_length, inner_form, inner_item, inner_whole, row_use, column_use};
ghost use Rattle.operator_fns.specs.RowByColumn.{entry, IsInside, grid_of};
ghost use Rattle.operator_fns.specs.Laws.InnerProduct.{inner_tight};

use crate::grid::{Grid, grid_products};
use crate::row_by_column::{ItemLines, StridedLine, fold_row};
use arrays_core::{
    ApplyFault, Array, Item, ItemType, Kind, MOST_AXES, Shape, append_axes, position, shape_of,
    size, with_axis,
};
use change_core::Announced;
use index_region::{IndexBox, Intervals, Primitive, Seen, apply, limited};
use item_fns::Scalar2;
use reduce_fns::{identity_item, stride};
use std::alloc::Global;

/// Returns the number of axes that select a row: all but the last.
fn row_rank(array: &Seen) -> usize
    ensures { result ≡ row_rank array.now }
{
    array.shape().len().saturating_sub(1)
}

/// Returns the axes that select a column: all but the first.
fn column_axes<'a>(array: &'a Seen<'a>) -> &'a [u32]
    ensures is { result.now ≡ drop 1 array.now.shape }
    ensures sound { IsArray array.now }
{
    match array.shape().as_slice() {
        [_, rest @ ..] => rest,
        [] => &[],
    }
}

/// Returns the length of a row, the last axis. A scalar is a row of one item.
fn row_length(array: &Seen) -> u32
    ensures { result ≡ row_length array.now }
{
    match array.shape().last() {
        Some(length) => *length,
        None => 1,
    }
}

/// Returns the length of a column, the first axis. A scalar is a column of one item.
fn column_length(array: &Seen) -> u32
    ensures { result ≡ column_length array.now }
{
    match array.shape().first() {
        Some(length) => *length,
        None => 1,
    }
}

/// Returns the number of items that are paired. A side of one item extends to the length of the other.
fn inner_length(left: &Seen, right: &Seen) -> u32
    ensures { result ≡ inner_length left.now right.now }
{
    if left.places() == 1 {
        column_length(right)
    } else {
        row_length(left)
    }
}

/// Returns the position of the row at the indices `row` of the other axes. A side of one item repeats it.
fn row_line(array: &Seen, row: &[u32], count: u32) -> StridedLine
    requires inside { IsTrue (is_index_of (take (row_rank array.now) array.now.shape) row.now) }
    requires some { 1 ≤ count }
    requires long { length array.now.items ≢ 1 → row_length array.now ≡ count }
    ensures is { (k : ℕ) → k < count → entry (fill array.now.item_type) array.now.items result k ≡ extended array.now (row.now ++ (k + 1) ∷ []) }
    ensures there { IsInside result count (length array.now.items) }
    ensures few { length array.now.items ≤ most_places }
{
    if array.places() == 1 {
        return StridedLine {
            first: 0,
            stride: 0,
        };
    }
    let shape = array.shape();
    let first = with_axis(*shape.allocator(), row, row.len(), 1);
    StridedLine {
        first: position(shape, first.as_slice()) as usize - 1,
        stride: 1,
    }
}

/// Returns the position of the column at the indices `column` of the other axes. A side of one item repeats it.
fn column_line(array: &Seen, column: &[u32], count: u32) -> StridedLine
    requires inside { IsTrue (is_index_of (drop 1 array.now.shape) column.now) }
    requires some { 1 ≤ count }
    requires long { length array.now.items ≢ 1 → column_length array.now ≡ count }
    ensures is { (k : ℕ) → k < count → entry (fill array.now.item_type) array.now.items result k ≡ extended array.now ((k + 1) ∷ column.now) }
    ensures there { IsInside result count (length array.now.items) }
    ensures few { length array.now.items ≤ most_places }
{
    if array.places() == 1 {
        return StridedLine {
            first: 0,
            stride: 0,
        };
    }
    let shape = array.shape();
    let first = with_axis(*shape.allocator(), column, 0, 1);
    StridedLine {
        first: position(shape, first.as_slice()) as usize - 1,
        stride: stride(shape.as_slice(), 0) as usize,
    }
}

/// Returns the layout of the rows and columns of two arrays.
fn grid(left: &Seen, right: &Seen) -> Grid
    requires { 0 < length right.now.items }
    ensures { result ≡ grid_of left.now right.now }
{
    let columns = size(column_axes(right)) as usize;
    Grid {
        columns,
        count: inner_length(left, right) as usize,
        row_stride: if left.places() == 1 { 0 } else { 1 },
        column_stride: if right.places() == 1 { 0 } else { columns },
    }
}

/// Inner product, `A f.g B` (ISO/IEC 13751, "Inner Product"). The result has the axes of A but the last, then the axes of B but the first. Each item
/// combines a row of A, along its last axis, with a column of B, along its first. It applies g to the paired items, then folds the results by f from
/// the last to the first. g is applied to all pairs, from the last to the first. If g fails, the last pair that fails gives the error, ahead of any
/// error of f. Empty lines yield the identity of f, or DOMAIN if it has none. A side of one item extends to the length of the other, also to length
/// 0. The result is of numbers. Fails with LENGTH if rows of A and columns of B differ in length and neither side is one item. Fails with LIMIT
/// beyond the limits of arrays.
#[derive(Clone, Copy, PartialEq, Eq, Debug)]
pub struct Inner {
    /// f, which folds the results of g.
    pub fold: Scalar2,
    /// g, which is applied to an item of a row and an item of a column.
    pub each: Scalar2,
}

impl Inner {
    /// Checks the arguments; returns the shape and the item type of the result.
    fn form(self, left: &Seen, right: &Seen) -> Result<(Shape, ItemType), Kind>
        ensures is { IsFormAnswerTo (inner_form left.now right.now) result }
        ensures left_sound { IsArray left.now }
        ensures right_sound { IsArray right.now }
    {
        let one = left.places() == 1 || right.places() == 1;
        if !one && row_length(left) != column_length(right) {
            return Err(Kind::Length);
        }
        let axes = left.shape();
        let (rows, columns) = (&axes.as_slice()[..row_rank(left)], column_axes(right));
        if rows.len() + columns.len() > MOST_AXES {
            return Err(Kind::Limit);
        }
        let mut shape = shape_of(*axes.allocator(), rows);
        append_axes(&mut shape, columns);
        limited(shape, ItemType::Nums)
    }

    /// Returns the item at an index list of the result.
    fn folded_at(self, left: &Seen, right: &Seen, index: &[u32]) -> Result<Item, Kind>
        requires { IsPlaceOf (inner_form left.now right.now) index.now }
        ensures is { result ≡ inner_item self.fold self.each left.now right.now index.now }
        ensures typed { IfOk result (HasTypeOf (inner_form left.now right.now)) }
    {
        let count = inner_length(left, right);
        if count == 0 {
            return identity_item(self.fold);
        }
        let (front, back) = index.split_at(row_rank(left));
        let row = row_line(left, front, count);
        let column = column_line(right, back, count);
        let lines = ItemLines {
            fold: self.fold,
            each: self.each,
            left,
            row,
            right,
            column,
            count: count as usize,
        };
        fold_row(&lines)
    }

    /// Folds the rows of A with the columns of B. Reads numbers straight from the slices of the arguments if both have one.
    pub fn apply(&self, alloc: Global, args: &[Seen]) -> Result<Array, ApplyFault>
        requires { length args.now ≡ 2 }
        ensures { IsAnswerTo (of_two_arguments (inner_whole self.now.fold self.now.each) args.now) result }
    {
        match (args[0].numbers(), args[1].numbers()) {
            (Some(numbers), Some(others)) if !numbers.is_empty() && !others.is_empty() => {
                self.of_numbers(alloc, &args[0], &args[1], numbers, others)
            }
            _ => apply(alloc, self, args),
        }
    }

    /// Folds the rows of A with the columns of B; both are non-empty and of numbers.
    fn of_numbers(
        self,
        alloc: Global,
        left: &Seen,
        right: &Seen,
        numbers: &[i64],
        others: &[i64],
    ) -> Result<Array, ApplyFault>
        requires numbers { left.now.items ≡ map (λ z. Num z) numbers.now }
        requires others { right.now.items ≡ map (λ z. Num z) others.now }
        requires some_numbers { 0 < length numbers.now }
        requires some_others { 0 < length others.now }
        ensures { IsAnswerTo (inner_whole self.fold self.each left.now right.now) result }
    {
        let (shape, _) = self.form(left, right)?;
        let grid = grid(left, right);
        grid_products(alloc, self.fold, self.each, numbers, others, grid, &shape)
    }
}

impl Primitive for Inner {
    ghost arity = { λ _. 2 };

    ghost form = { λ _ args. of_two_arguments inner_form args };

    ghost item = { λ i args index. of_two_arguments (λ a b. inner_item i.fold i.each a b index) args };

    fn shape_of(&self, args: &[Seen]) -> Result<(Shape, ItemType), Kind> {
        self.form(&args[0], &args[1])
    }

    fn item_at(&self, args: &[Seen], index: &[u32]) -> Result<Item, Kind> {
        self.folded_at(&args[0], &args[1], index)
    }
}

/// Returns a list without its last entry.
fn but_last<T>(list: &[T]) -> &[T]
    ensures { result.now ≡ take (length list.now - 1) list.now }
{
    &list[..list.len().saturating_sub(1)]
}

/// Returns a list without its first entry.
fn but_first<T>(list: &[T]) -> &[T]
    ensures { result.now ≡ drop 1 list.now }
{
    match list {
        [_, rest @ ..] => rest,
        [] => &[],
    }
}

impl Announced for Inner {
    ghost selectors = { λ _. false ∷ false ∷ [] };

    ghost uses = { λ _ shape args. uses_of_two row_use column_use shape args };

    fn grows(&self, _args: &[Seen], _grown: &[bool]) -> bool {
        false
    }

    fn selects(&self, _which: usize) -> bool {
        false
    }

    fn box_of(
        &self,
        args: &[Seen],
        _shape: &[u32],
        which: usize,
        region: &IndexBox,
    ) -> Option<Intervals> {
        let intervals = if which == 0 {
            let columns = but_first(args[1].shape().as_slice());
            Intervals::of(but_last(region.as_slice())).and_whole(columns)
        } else {
            let rows = but_last(args[0].shape().as_slice());
            Intervals::whole(rows).and_all(but_first(region.as_slice()))
        };
        Some(intervals)
    }

    fn whole(&self, alloc: Global, args: &[Seen]) -> Result<Array, ApplyFault> {
        self.apply(alloc, args)
    }

    ghost counted = { λ _. Prim.search rules };

    ghost tight = { λ i. inner_tight i.fold i.each };

    ghost growing = { λ _. never_grows _ };
}
