//! Indexed reference: the items at given indices, one position for each axis.

ghost use Rattle.std.specs.Prelude.{◌≡◌, ◌<◌, ◌≤◌, ◌+◌, ◌-◌, ◌++◌, ◌∷◌, [], ℕ, IsTrue, IfOk, IfErr, IfSome, OnOk, Result, Ok, Err, suc, length, get_or, drop, pos, unsigned_abs, List};
ghost use Rattle.std.specs.List.{list_all};
ghost use Rattle.arrays_core.specs.Limits.{most_axes};
ghost use Rattle.arrays_core.specs.declared.item.Kind.{Kind as AKind};
ghost use Rattle.arrays_core.specs.declared.item.Kind.TheVariants.{Limit};
ghost use Rattle.arrays_core.specs.Arrays.{ArrayValue, item_of, IsArray, IsAnswerTo};
ghost use Rattle.arrays_core.specs.Building.{with_row};
ghost use Rattle.arrays_core.specs.Shapes.{is_index_of, places_before};
ghost use Rattle.index_region.specs.Checks.{Form};
ghost use Rattle.index_region.specs.Arguments.{number_of, numbers};
ghost use Rattle.index_region.specs.Answers.{IsFormAnswerTo, IsPlaceOf, IsRowIn, IsSourceIn, source_value};
ghost use Rattle.selection_fns.specs.Index.{written_positions, count_written, of_array_and_positions, is_on_axis, is_on, are_on, are_numbers, indexed_shape, source_index, positions_checked, index_form, index_source, index_item, index_whole};

use crate::index_places::places_of;
use arrays_core::{
    ApplyFault, Array, ArrayBuilder, Item, ItemType, Kind, MOST_AXES, Shape, append_axes,
    index_in_row, places_before, position, size,
};
use index_region::{Primitive, RowPrimitive, Seen, Source, apply_rows, item_from, limited};
use smallvec::SmallVec;
use std::alloc::{AllocError, Global};

/// The least length of a row that `apply` appends in one piece.
const LONG_ROW: u32 = 256;

/// Returns whether each written position has numbers, or no items.
fn are_numbers(written: &[bool], positions: &[Seen]) -> bool
    requires few { length written.now ≤ most_axes }
    requires long { length positions.now ≡ count_written written.now }
    ensures { result ≡ list_all are_numbers (written_positions written.now positions.now) }
{
    if written.is_empty() {
        return true;
    }
    if !written[0] {
        return are_numbers(&written[1..], positions);
    }
    if !positions[0].counts_as_numbers() {
        return false;
    }
    are_numbers(&written[1..], &positions[1..])
}

/// Returns whether the index is on an axis.
#[inline]
fn is_within(index: i64, axis: u32) -> bool
    ensures { result ≡ is_on_axis axis index }
{
    1 <= index && index <= i64::from(axis)
}

/// Returns whether all indices are on an axis.
fn are_all_on(indices: &[i64], axis: u32) -> bool
    ensures { result ≡ list_all (is_on_axis axis) indices.now }
{
    indices.iter().all(|index| is_within(*index, axis))
}

/// Returns whether all indices of a position are on an axis.
fn is_on(position: &Seen, axis: u32) -> bool
    ensures { result ≡ list_all (is_on_axis axis) (numbers position.now) }
{
    if let Some(indices) = position.numbers() {
        return are_all_on(indices, axis);
    }
    for place in 0..position.places() {
        if !is_within(position.number(place + 1), axis) {
            return false;
        }
    }
    true
}

/// Returns whether the indices of each position are on its axis; an empty position always is.
fn are_on(axes: &[u32], written: &[bool], positions: &[Seen]) -> bool
    requires few { length written.now ≤ most_axes }
    requires one_an_axis { length written.now ≡ length axes.now }
    requires long { length positions.now ≡ count_written written.now }
    ensures { result ≡ are_on axes.now (written_positions written.now positions.now) }
{
    if written.is_empty() {
        return true;
    }
    if !written[0] {
        return are_on(&axes[1..], &written[1..], positions);
    }
    if !is_on(&positions[0], axes[0]) {
        return false;
    }
    are_on(&axes[1..], &written[1..], &positions[1..])
}

/// Checks the positions. RANK where their number differs from the rank, or A is a scalar; DOMAIN where one is not of
/// numbers; INDEX where an index is not on its axis.
fn check_positions(array: &Seen, written: &[bool], positions: &[Seen]) -> Result<(), Kind>
    requires long { length positions.now ≡ count_written written.now }
    ensures passed { IfOk result (λ _. (rest : Result Form AKind) → positions_checked array.now (written_positions written.now positions.now) rest ≡ rest) }
    ensures failed { IfErr result (λ kind. (rest : Result Form AKind) → positions_checked array.now (written_positions written.now positions.now) rest ≡ Err kind) }
    ensures one_an_axis { IfOk result (λ _. length written.now ≡ length array.now.shape) }
{
    let axes = array.shape().as_slice();
    if axes.is_empty() {
        return Err(Kind::Rank);
    }
    if written.len() != axes.len() {
        return Err(Kind::Rank);
    }
    if !are_numbers(written, positions) {
        return Err(Kind::Domain);
    }
    if !are_on(axes, written, positions) {
        return Err(Kind::Index);
    }
    Ok(())
}

/// Appends axes to a shape. LIMIT where the rank is then too high for an array.
fn append_within(shape: &mut Shape, axes: &[u32]) -> Result<(), Kind>
    requires { shape.old.capacity ≡ 4 }
    ensures items { IfOk result (λ _. shape.new.items ≡ shape.old.items ++ axes.now) }
    ensures inline { shape.new.capacity ≡ 4 }
    ensures beyond { IfErr result (λ kind. (kind ≡ Limit) × (most_axes < length shape.old.items + length axes.now)) }
{
    if shape.len() + axes.len() > MOST_AXES {
        return Err(Kind::Limit);
    }
    append_axes(shape, axes);
    Ok(())
}

/// Appends the axes of the result that each position gives. LIMIT where the rank is then too high for an array.
fn append_positions(
    shape: &mut Shape,
    axes: &[u32],
    written: &[bool],
    positions: &[Seen],
) -> Result<(), Kind>
    requires inline { shape.old.capacity ≡ 4 }
    requires one_an_axis { length written.now ≡ length axes.now }
    requires long { length positions.now ≡ count_written written.now }
    ensures items { IfOk result (λ _. shape.new.items ≡ shape.old.items ++ indexed_shape axes.now (written_positions written.now positions.now)) }
    ensures inline { shape.new.capacity ≡ 4 }
    ensures beyond { IfErr result (λ kind. (kind ≡ Limit) × (most_axes < length shape.old.items + length (indexed_shape axes.now (written_positions written.now positions.now)))) }
{
    if written.is_empty() {
        return Ok(());
    }
    if !written[0] {
        append_within(shape, &axes[..1])?;
        return append_positions(shape, &axes[1..], &written[1..], positions);
    }
    append_within(shape, positions[0].shape().as_slice())?;
    append_positions(shape, &axes[1..], &written[1..], &positions[1..])
}

/// Returns the index that a position holds at `at`.
fn index_in(position: &Seen, at: &[u32], axis: u32) -> u32
    requires inside { IsTrue (is_index_of position.now.shape at.now) }
    requires on { IsTrue (list_all (is_on_axis axis) (numbers position.now)) }
    ensures { result ≡ unsigned_abs (number_of (item_of position.now at.now)) }
{
    match position.at(at) {
        Some(Item::Num(index)) => index.unsigned_abs() as u32,
        _ => 0,
    }
}

/// Appends the index on each axis of the array. Each position takes its own part of `index`, an index list of the
/// result.
fn append_source_index(
    at: &mut Shape,
    axes: &[u32],
    written: &[bool],
    positions: &[Seen],
    index: &[u32],
)
    requires inline { at.old.capacity ≡ 4 }
    requires room { length at.old.items + length written.now ≤ most_axes }
    requires one_an_axis { length written.now ≡ length axes.now }
    requires long { length positions.now ≡ count_written written.now }
    requires on { IsTrue (are_on axes.now (written_positions written.now positions.now)) }
    requires inside { IsTrue (is_index_of (indexed_shape axes.now (written_positions written.now positions.now)) index.now) }
    ensures items { at.new.items ≡ at.old.items ++ source_index (written_positions written.now positions.now) index.now }
    ensures inside { IsTrue (is_index_of axes.now (source_index (written_positions written.now positions.now) index.now)) }
    ensures inline { at.new.capacity ≡ 4 }
{
    if written.is_empty() {
        return;
    }
    if !written[0] {
        prove!(1 <= index.len());
        at.push_reserved(index[0]);
        append_source_index(at, &axes[1..], &written[1..], positions, &index[1..]);
        return;
    }
    let position = &positions[0];
    let rank = position.shape().len();
    prove!(rank <= index.len());
    let (own, others) = index.split_at(rank);
    at.push_reserved(index_in(position, own, axes[0]));
    append_source_index(at, &axes[1..], &written[1..], &positions[1..], others);
}

/// Returns the indices of the last position that a row of the result uses. None where that position is a scalar, or its numbers are not contiguous.
/// `row` holds the indices of the row on all axes of the result but the last.
fn indices_in_row<'p>(indices: &'p Seen, row: &[u32], count: u32) -> Option<&'p [i64]>
    requires some { 0 < count }
    requires rank { length indices.now.shape ≤ length row.now + 1 }
    requires places { 0 < length indices.now.shape → (i : ℕ) → 1 ≤ i → i ≤ count
        → IsTrue (is_index_of indices.now.shape (drop (length row.now + 1 - length indices.now.shape) row.now ++ i ∷ [])) }
    ensures axes { IfSome result (λ _. 0 < length indices.now.shape) }
    ensures sound { IsArray indices.now }
    ensures long { IfSome result (λ part. length part.now ≡ count) }
    ensures is { IfSome result (λ part. (i : ℕ) → i < count
        → get_or part.now i (pos 0) ≡ number_of (item_of indices.now (drop (length row.now + 1 - length indices.now.shape) row.now ++ (i + 1) ∷ []))) }
{
    let axes = indices.shape();
    if axes.is_empty() {
        return None;
    }
    let numbers = indices.numbers()?;
    let own = &row[row.len() + 1 - axes.len()..];
    let first = index_in_row(*axes.allocator(), own, 1);
    let before = places_before(axes, first.as_slice()) as usize;
    Some(&numbers[before..before + count as usize])
}

/// Indexed reference, `A[I;..]` (ISO/IEC 13751, "Indexed Reference"): the items of A at the indices of each position,
/// one position for each axis. The shape is the shapes of the positions, joined. An empty position takes its whole
/// axis. The arguments are A and the written positions. RANK where the number of positions differs from the rank, or A
/// is a scalar; DOMAIN where a position is not of numbers; INDEX where an index is below 1 or above its axis; LIMIT
/// beyond the limits of arrays.
#[derive(Drop, Clone, Copy)]
pub struct Index<'w> {
    /// For each axis of the array, whether its position is written.
    pub written: &'w [bool],
}

impl<'w> Index<'w> {
    /// Returns the index list in the array for an index list of the result. Allocates nothing.
    fn index_of(&self, array: &Seen, positions: &[Seen], index: &[u32]) -> Shape
        requires count { length positions.now ≡ count_written self.now.written.now }
        requires place { IsPlaceOf (index_form array.now (written_positions self.now.written.now positions.now)) index.now }
        ensures is { result.items ≡ source_index (written_positions self.now.written.now positions.now) index.now }
        ensures inside { IsTrue (is_index_of array.now.shape result.items) }
        ensures inline { result.capacity ≡ 4 }
    {
        let axes = array.shape();
        let mut at = SmallVec::new(*axes.allocator());
        append_source_index(&mut at, axes.as_slice(), self.written, positions, index);
        at
    }

    /// Returns the source of the item at an index list of the result: a place of the indexed array. Requires that the
    /// checks pass. Allocates nothing. The arguments are the array and the written positions.
    pub fn source_of(&self, args: &[Seen], index: &[u32]) -> Source
        requires count { length args.now ≡ suc (count_written self.now.written.now) }
        requires place { IsPlaceOf (of_array_and_positions self.now.written.now index_form args.now) index.now }
        ensures is { (a : ArrayValue) (others : List ArrayValue) → args.now ≡ a ∷ others → source_value result ≡ index_source (written_positions self.now.written.now others) index.now }
        ensures inside { (a : ArrayValue) (others : List ArrayValue) → args.now ≡ a ∷ others → IsSourceIn a a result }
    {
        self.source(&args[0], &args[1..], index)
    }

    /// Returns the source of the item at an index list of the result.
    fn source(&self, array: &Seen, positions: &[Seen], index: &[u32]) -> Source
        requires count { length positions.now ≡ count_written self.now.written.now }
        requires place { IsPlaceOf (index_form array.now (written_positions self.now.written.now positions.now)) index.now }
        ensures is { source_value result ≡ index_source (written_positions self.now.written.now positions.now) index.now }
        ensures inside { IsSourceIn array.now array.now result }
    {
        let at = self.index_of(array, positions, index);
        Source::Place { arg: 0, at }
    }

    /// Returns the number of items of the array before the row that holds the first item of a row of the result.
    fn places_before_row(&self, array: &Seen, positions: &[Seen], row: &[u32]) -> u32
        requires count { length positions.now ≡ count_written self.now.written.now }
        requires rank { length row.now < most_axes }
        requires place { IsPlaceOf (index_form array.now (written_positions self.now.written.now positions.now)) (row.now ++ 1 ∷ []) }
        ensures is { result + get_or (source_index (written_positions self.now.written.now positions.now) (row.now ++ 1 ∷ [])) (length array.now.shape - 1) 0
            ≡ places_before array.now.shape (source_index (written_positions self.now.written.now positions.now) (row.now ++ 1 ∷ [])) + 1 }
        ensures inside { IsTrue (is_index_of array.now.shape (source_index (written_positions self.now.written.now positions.now) (row.now ++ 1 ∷ []))) }
        ensures sound { IsArray array.now }
    {
        let axes = array.shape();
        let first = index_in_row(*axes.allocator(), row, 1);
        let at = self.index_of(array, positions, first.as_slice());
        position(axes, at.as_slice()) - at[at.len() - 1]
    }

    /// Appends a row, one item after another.
    fn push_row(
        &self,
        array: &Seen,
        positions: &[Seen],
        row: &[u32],
        count: u32,
        items: &mut ArrayBuilder,
    ) -> Result<(), AllocError>
        requires long { length positions.now ≡ count_written self.now.written.now }
        requires row { IsRowIn (index_form array.now (written_positions self.now.written.now positions.now)) row.now count items.old.item_type }
        ensures items { OnOk result (with_row items.old.items (λ i. index_item array.now (written_positions self.now.written.now positions.now) (row.now ++ i ∷ [])) count ≡ Ok items.new.items) }
        ensures typed { items.new.item_type ≡ items.old.item_type }
    {
        let shape = array.shape();
        for before in 0..count {
            let index = index_in_row(*shape.allocator(), row, before + 1);
            let at = self.index_of(array, positions, index.as_slice());
            items.push(array.item(position(shape, at.as_slice())))?;
        }
        Ok(())
    }

    /// Returns whether the last position is written and gives long rows.
    fn has_long_rows(&self, positions: &[Seen]) -> bool {
        match (self.written.last(), positions.last()) {
            (Some(true), Some(position)) => {
                let axes = position.shape();
                axes.last().is_some_and(|axis| *axis >= LONG_ROW)
            }
            _ => false,
        }
    }

    /// Returns the items at the indices. Reads long rows by the indices of the last position; for other results it computes the places of all items
    /// first.
    pub fn apply(&self, alloc: Global, args: &[Seen]) -> Result<Array, ApplyFault>
        requires { length args.now ≡ suc (count_written self.now.written.now) }
        ensures { IsAnswerTo (of_array_and_positions self.now.written.now index_whole args.now) result }
    {
        let (array, positions) = (&args[0], &args[1..]);
        if self.has_long_rows(positions) {
            return apply_rows(alloc, self, args);
        }
        self.at_places(alloc, array, positions)
    }

    /// Checks the positions, and returns the shape and the type of the result.
    fn form(&self, array: &Seen, positions: &[Seen]) -> Result<(Shape, ItemType), Kind>
        requires { length positions.now ≡ count_written self.now.written.now }
        ensures { IsFormAnswerTo (index_form array.now (written_positions self.now.written.now positions.now)) result }
    {
        check_positions(array, self.written, positions)?;
        let axes = array.shape();
        let mut shape = SmallVec::new(*axes.allocator());
        append_positions(&mut shape, axes.as_slice(), self.written, positions)?;
        limited(shape, array.item_type())
    }

    /// Returns the items at the indices. Computes the places of all items first.
    fn at_places(
        &self,
        alloc: Global,
        array: &Seen,
        positions: &[Seen],
    ) -> Result<Array, ApplyFault>
        requires { length positions.now ≡ count_written self.now.written.now }
        ensures { IsAnswerTo (index_whole array.now (written_positions self.now.written.now positions.now)) result }
    {
        let (shape, item_type) = self.form(array, positions)?;
        if size(shape.as_slice()) == 0 {
            return Ok(Array::filled(alloc, item_type, &shape)?);
        }
        let axes = array.shape();
        let places = places_of(alloc, axes.as_slice(), self.written, positions)?;
        Ok(places.items(alloc, array, &shape)?)
    }
}

impl<'w> Primitive for Index<'w> {
    ghost arity = { λ r. suc (count_written r.written.now) };

    ghost form = { λ r args. of_array_and_positions r.written.now index_form args };

    ghost item = { λ r args index. of_array_and_positions r.written.now (λ a positions. index_item a positions index) args };

    fn shape_of(&self, args: &[Seen]) -> Result<(Shape, ItemType), Kind> {
        self.form(&args[0], &args[1..])
    }

    fn item_at(&self, args: &[Seen], index: &[u32]) -> Result<Item, Kind> {
        let array = &args[0];
        let source = self.source(array, &args[1..], index);
        Ok(item_from(array, array, array.item_type(), source))
    }
}

impl<'w> RowPrimitive for Index<'w> {
    fn extend_row(
        &self,
        args: &[Seen],
        row: &[u32],
        count: u32,
        items: &mut ArrayBuilder,
    ) -> Result<(), AllocError> {
        let (array, positions) = (&args[0], &args[1..]);
        if !self.written[self.written.len() - 1] {
            return self.push_row(array, positions, row, count, items);
        }
        match indices_in_row(&positions[positions.len() - 1], row, count) {
            Some(indices) => {
                let before = self.places_before_row(array, positions, row);
                array.extend_at(items, before, indices)
            }
            None => self.push_row(array, positions, row, count, items),
        }
    }
}
