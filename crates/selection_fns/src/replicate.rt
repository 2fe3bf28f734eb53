//! Replicate: each place of an axis, as many times as its count.

ghost use Rattle.std.specs.Prelude.{◌≡◌, ◌<◌, ◌≤◌, ◌+◌, ◌-◌, ◌*◌, ◌++◌, ℕ, All, Ok, Some, IsTrue, OnOk, IfOk, IfErr, Result, Err, unsigned_abs, not, IfSome, length, map, max, sum, insert, remove, replicate, set, get_or, ◌∷◌, []};
ghost use Rattle.std.specs.List.{list_all};
ghost use Rattle.arrays_core.specs.Limits.{most_axes, longest_axis, most_places};
ghost use Rattle.arrays_core.specs.declared.item.Kind.{Kind as AKind};
ghost use Rattle.arrays_core.specs.declared.item.Kind.TheVariants.{Limit};
ghost use Rattle.arrays_core.specs.Arrays.{ArrayValue, IsAnswerTo};
ghost use Rattle.arrays_core.specs.Shapes.{is_index_of, IsWithinLimits};
ghost use Rattle.index_region.specs.Checks.{form_of, Form};
ghost use Rattle.index_region.specs.ArgumentLists.{of_two_arguments};
ghost use Rattle.index_region.specs.Arguments.{numbers, none_negative};
ghost use Rattle.function_names.specs.Axes.{axis_at};
ghost use Rattle.index_region.specs.Axes.{places_along};
ghost use Rattle.index_region.specs.Sources.{Place};
ghost use Rattle.index_region.specs.Answers.{IsFormAnswerTo, IsPlaceOf, IsSourceIn, source_value};
ghost use Rattle.selection_fns.specs.Kept.{IsKept};
ghost use Rattle.selection_fns.specs.Replicate.{is_bit, IsMask, times, counts_checked, maker, copied_place, replicate_form, replicate_source, replicate_item, replicate_whole};

use crate::axes::{LONGEST_AXIS, places_along};
use crate::kept::kept_numbers;
use crate::numbers::numbers_of;
use arrays_core::{
    ApplyFault, Array, ArrayBuilder, Item, ItemFunction, ItemType, Kind, RowFunction, Shape,
    collect_rows, index_in_row, places_before, shape_of,
};
use index_region::{Along, Primitive, Seen, Source, item_from, limited};
use std::alloc::{AllocError, Global};

/// Returns whether a count is 0 or 1.
#[inline]
pub(crate) fn is_bit(count: i64) -> bool
    ensures { result ≡ is_bit count }
{
    0 <= count && count <= 1
}

/// Returns the number of counts that are 1, if each is 0 or 1.
fn mask_total(counts: &[i64]) -> Option<u32>
    requires { length counts.now ≤ most_places }
    ensures { IfSome result (IsMask counts.now) }
{
    let mut are_bits = true;
    let mut ones: u64 = 0;
    for count in counts {
        are_bits &= is_bit(*count);
        ones += u64::from(*count == 1);
    }
    are_bits.then_some(ones as u32)
}

/// Returns the number of counts that are 1, if each is 0 or 1 and they are contiguous in memory.
fn mask_of(counts: &Seen) -> Option<u32>
    ensures { IfSome result (IsMask (numbers counts.now)) }
{
    let places = counts.places();
    let list = counts.numbers()?;
    prove!(list.len() == places as usize);
    mask_total(list)
}

/// Returns whether a count is negative. With a mask none is, so nothing is scanned.
fn has_negative(counts: &Seen, mask: Option<u32>) -> bool
    requires { IfSome mask (IsMask (numbers counts.now)) }
    ensures { result ≡ not (none_negative (numbers counts.now)) }
{
    mask.is_none() && counts.has_negative()
}

/// Checks the counts for an axis. RANK where they are neither a scalar nor a vector; LENGTH where their number differs
/// from the length of the axis and neither is 1; DOMAIN where they are not numbers, or one is negative.
fn check_counts(counts: &Seen, places: u32, mask: Option<u32>) -> Result<(), Kind>
    requires { IfSome mask (IsMask (numbers counts.now)) }
    ensures passed { IfOk result (λ _. (rest : Result Form AKind) → counts_checked counts.now places rest ≡ rest) }
    ensures failed { IfErr result (λ kind. (rest : Result Form AKind) → counts_checked counts.now places rest ≡ Err kind) }
{
    if counts.shape().len() > 1 {
        return Err(Kind::Rank);
    }
    if counts.places() != 1 && places != 1 && counts.places() != places {
        return Err(Kind::Length);
    }
    if !counts.counts_as_numbers() {
        return Err(Kind::Domain);
    }
    if has_negative(counts, mask) {
        return Err(Kind::Domain);
    }
    Ok(())
}

/// Returns the number of copies where all places have one count. LIMIT where it exceeds the greatest length of an axis.
fn repeated(count: u64, places: u32) -> Result<u32, Kind>
    requires { places ≤ longest_axis }
    ensures total { IfOk result (λ total. total ≡ places * count) }
    ensures beyond { IfErr result (λ kind. (kind ≡ Limit) × (longest_axis < places * count)) }
{
    if places == 0 {
        return Ok(0);
    }
    if count > LONGEST_AXIS {
        return Err(Kind::Limit);
    }
    let total = u64::from(places) * count;
    if total > LONGEST_AXIS {
        return Err(Kind::Limit);
    }
    Ok(total as u32)
}

/// Returns the sum of contiguous counts. LIMIT where it exceeds the greatest length of an axis.
fn summed_list(counts: &[i64]) -> Result<u32, Kind>
    ensures total { IfOk result (λ total. total ≡ sum (map unsigned_abs counts.now)) }
    ensures beyond { IfErr result (λ kind. (kind ≡ Limit) × (longest_axis < sum (map unsigned_abs counts.now))) }
{
    let mut total = 0;
    for count in counts {
        let count = count.unsigned_abs();
        if count > LONGEST_AXIS {
            return Err(Kind::Limit);
        }
        total += count;
        if total > LONGEST_AXIS {
            return Err(Kind::Limit);
        }
    }
    Ok(total as u32)
}

/// Returns the sum of the counts. LIMIT where it exceeds the greatest length of an axis.
fn summed(counts: &Seen) -> Result<u32, Kind>
    ensures total { IfOk result (λ total. total ≡ sum (map unsigned_abs (numbers counts.now))) }
    ensures beyond { IfErr result (λ kind. (kind ≡ Limit) × (longest_axis < sum (map unsigned_abs (numbers counts.now)))) }
{
    if let Some(list) = counts.numbers() {
        return summed_list(list);
    }
    let mut total = 0;
    for place in 0..counts.places() {
        let count = counts.number(place + 1).unsigned_abs();
        if count > LONGEST_AXIS {
            return Err(Kind::Limit);
        }
        total += count;
        if total > LONGEST_AXIS {
            return Err(Kind::Limit);
        }
    }
    Ok(total as u32)
}

/// Returns the number of copies. LIMIT where it exceeds the greatest length of an axis.
fn copies(counts: &Seen, places: u32, mask: Option<u32>) -> Result<u32, Kind>
    requires few { places ≤ longest_axis }
    requires mask { IfSome mask (IsMask (numbers counts.now)) }
    ensures total { IfOk result (λ total. total ≡ sum (times counts.now places)) }
    ensures beyond { IfErr result (λ kind. (kind ≡ Limit) × (longest_axis < sum (times counts.now places))) }
{
    if counts.places() == 1 {
        return repeated(counts.number(1).unsigned_abs(), places);
    }
    match mask {
        Some(total) => Ok(total),
        None => summed(counts),
    }
}

/// Returns the shape with another length on one axis; a scalar becomes a vector.
fn replicated_shape(alloc: Global, axes: &[u32], axis: usize, places: u32) -> Shape
    requires rank { length axes.now ≤ most_axes }
    requires there { axis < max 1 (length axes.now) }
    ensures is { result.items ≡ insert (remove axes.now axis) axis places }
    ensures inline { result.capacity ≡ 4 }
{
    if axes.is_empty() {
        return shape_of(alloc, &[places]);
    }
    let mut shape = shape_of(alloc, axes);
    shape[axis] = places;
    shape
}

/// Returns the place of a copy, where each place has its own count.
fn maker(counts: &Seen, copy: u32) -> u32
    requires low { 1 ≤ copy }
    requires high { copy ≤ sum (map unsigned_abs (numbers counts.now)) }
    ensures { result ≡ maker (map unsigned_abs (numbers counts.now)) copy }
{
    let mut left = copy;
    for place in 0..counts.places() {
        let count = counts.number(place + 1).unsigned_abs();
        if u64::from(left) <= count {
            return place + 1;
        }
        left -= count as u32;
    }
    counts.places() + 1
}

/// Returns the place of a copy, where all places have one count.
fn maker_of_each(count: u64, places: u32, copy: u32) -> u32
    requires low { 1 ≤ copy }
    requires high { copy ≤ places * count }
    ensures { result ≡ maker (replicate places count) copy }
{
    (u64::from(copy - 1) / count) as u32 + 1
}

/// Returns the place of a copy. On an axis of length 1 that is always 1.
fn copied_place(counts: &Seen, places: u32, copy: u32) -> u32
    requires low { 1 ≤ copy }
    requires high { copy ≤ sum (times counts.now places) }
    ensures { result ≡ copied_place counts.now places copy }
{
    if places == 1 {
        return 1;
    }
    if counts.places() == 1 {
        maker_of_each(counts.number(1).unsigned_abs(), places, copy)
    } else {
        maker(counts, copy)
    }
}

/// Appends copies of a number.
fn append_copies(list: &mut Vec<u32>, count: u32, number: u32) -> Result<(), AllocError>
    requires { length list.old.items + count ≤ longest_axis }
    ensures { OnOk result (list.new.items ≡ list.old.items ++ replicate count number) }
{
    match count {
        0 => {}
        1 => list.push(number)?,
        _ => list.resize(list.len() + count as usize, number)?,
    }
    Ok(())
}

/// Returns the place of each copy, counted from 0, where all places have one count.
fn before_copies_of_one_count(
    alloc: Global,
    count: u64,
    places: u32,
    total: u32,
) -> Result<Vec<u32>, AllocError>
    requires total { total ≡ places * count }
    requires within { total ≤ longest_axis }
    ensures long { IfOk result (λ before. length before.items ≡ total) }
    ensures is { IfOk result (λ before. (i : ℕ) → i < total → get_or before.items i 0 + 1 ≡ maker (replicate places count) (i + 1)) }
{
    let mut before = Vec::with_capacity(alloc, total as usize)?;
    for place in 0..places {
        append_copies(&mut before, count as u32, place)?;
    }
    Ok(before)
}

/// Returns the place of each copy, counted from 0, where the counts have any size.
fn before_copies_of_counts(
    alloc: Global,
    counts: &[i64],
    total: u32,
) -> Result<Vec<u32>, AllocError>
    requires total { total ≡ sum (map unsigned_abs counts.now) }
    requires within { total ≤ longest_axis }
    requires few { length counts.now ≤ longest_axis }
    ensures long { IfOk result (λ before. length before.items ≡ total) }
    ensures is { IfOk result (λ before. (i : ℕ) → i < total → get_or before.items i 0 + 1 ≡ maker (map unsigned_abs counts.now) (i + 1)) }
{
    let mut before = Vec::with_capacity(alloc, total as usize)?;
    for place in 0..counts.len() {
        append_copies(
            &mut before,
            counts[place].unsigned_abs() as u32,
            place as u32,
        )?;
    }
    Ok(before)
}

/// Returns the place of each copy, counted from 0, where each count is 0 or 1. Writes each place at the next slot
/// without a branch; a count of 1 moves to the slot after it.
fn before_copies_of_mask(alloc: Global, counts: &[i64], total: u32) -> Result<Vec<u32>, AllocError>
    requires mask { IsTrue (list_all is_bit counts.now) }
    requires total { total ≡ sum (map unsigned_abs counts.now) }
    requires within { total ≤ longest_axis }
    requires few { length counts.now ≤ longest_axis }
    ensures long { IfOk result (λ before. length before.items ≡ total) }
    ensures is { IfOk result (λ before. (i : ℕ) → i < total → get_or before.items i 0 + 1 ≡ maker (map unsigned_abs counts.now) (i + 1)) }
{
    let mut before = vec![in alloc; 0; total as usize + 1]?;
    let mut copies = 0;
    for place in 0..counts.len() {
        before[copies] = place as u32;
        copies += counts[place].unsigned_abs() as usize;
    }
    before.truncate(total as usize);
    Ok(before)
}

/// Returns the place of each copy, counted from 0, where each place has its own count.
fn before_copies_of_list(
    alloc: Global,
    counts: &[i64],
    total: u32,
    is_mask: bool,
) -> Result<Vec<u32>, AllocError>
    requires mask { IsTrue is_mask → IsTrue (list_all is_bit counts.now) }
    requires total { total ≡ sum (map unsigned_abs counts.now) }
    requires within { total ≤ longest_axis }
    requires few { length counts.now ≤ longest_axis }
    ensures long { IfOk result (λ before. length before.items ≡ total) }
    ensures is { IfOk result (λ before. (i : ℕ) → i < total → get_or before.items i 0 + 1 ≡ maker (map unsigned_abs counts.now) (i + 1)) }
{
    if is_mask {
        before_copies_of_mask(alloc, counts, total)
    } else {
        before_copies_of_counts(alloc, counts, total)
    }
}

/// Returns the place of each copy, counted from 0.
fn before_each_copy(
    alloc: Global,
    counts: &Seen,
    places: u32,
    total: u32,
    mask: Option<u32>,
) -> Result<Vec<u32>, AllocError>
    requires mask { IfSome mask (IsMask (numbers counts.now)) }
    requires total { total ≡ sum (times counts.now places) }
    requires within { total ≤ longest_axis }
    ensures long { IfOk result (λ before. length before.items ≡ total) }
    ensures is { IfOk result (λ before. (i : ℕ) → i < total → get_or before.items i 0 + 1 ≡ copied_place counts.now places (i + 1)) }
    ensures few { length counts.now.items ≤ longest_axis }
{
    let is_single = counts.places() == 1;
    if places == 1 {
        let zeros = vec![in alloc; 0; total as usize]?;
        return Ok(zeros);
    }
    if is_single {
        return before_copies_of_one_count(alloc, counts.number(1).unsigned_abs(), places, total);
    }
    match counts.numbers() {
        Some(list) => before_copies_of_list(alloc, list, total, mask.is_some()),
        None => before_copies_of_list(alloc, &numbers_of(alloc, counts)?, total, mask.is_some()),
    }
}

/// Returns the numbers of a vector that a mask keeps. None unless counts and numbers are contiguous, of one length, and each count is 0 or 1.
fn kept_of(counts: &Seen, array: &Seen) -> Result<Option<Vec<i64>>, AllocError>
    ensures { IfOk result (λ o. IfSome o (λ kept. IsKept counts.now array.now kept.items)) }
{
    let axes = array.shape();
    if axes.len() != 1 || counts.places() == 1 || counts.places() != array.places() {
        return Ok(None);
    }
    let Some(list) = counts.numbers() else {
        return Ok(None);
    };
    let Some(numbers) = array.numbers() else {
        return Ok(None);
    };
    kept_numbers(*axes.allocator(), list, numbers)
}

/// Returns the index list in the array for an index list of the result.
fn copied_index(alloc: Global, counts: &Seen, axes: &[u32], axis: usize, index: &[u32]) -> Shape
    requires rank { length axes.now ≤ most_axes }
    requires there { axis < length axes.now }
    requires inside { IsTrue (is_index_of (insert (remove axes.now axis) axis (sum (times counts.now (places_along axes.now axis)))) index.now) }
    ensures is { result.items ≡ set index.now axis (copied_place counts.now (places_along axes.now axis) (get_or index.now axis 1)) }
    ensures inline { result.capacity ≡ 4 }
{
    let mut at = shape_of(alloc, index);
    at[axis] = copied_place(counts, axes[axis], index[axis]);
    at
}

/// Returns the index list in the array for an index list of the result, by the list of the places of all copies.
fn index_of_copy(alloc: Global, axis: usize, before: &[u32], index: &[u32]) -> Shape
    requires rank { length index.now ≤ most_axes }
    requires there { axis < length index.now }
    requires low { 1 ≤ get_or index.now axis 0 }
    requires high { get_or index.now axis 0 ≤ length before.now }
    requires within { All (λ n. n ≤ longest_axis) before.now }
    ensures is { result.items ≡ set index.now axis (get_or before.now (get_or index.now axis 0 - 1) 0 + 1) }
    ensures inline { result.capacity ≡ 4 }
{
    let mut at = shape_of(alloc, index);
    at[axis] = before[(index[axis] - 1) as usize] + 1;
    at
}

/// Replicate, `A/B` and `A⌿B` (ISO/IEC 13751, "Replicate"): each place of B along the axis, as many times as its count
/// in A. A scalar B is a vector of one item. A single count applies to all places. An axis of length 1 extends to the
/// counts. AXIS where the array does not have the axis; RANK where A is neither a scalar nor a vector; LENGTH where the
/// number of counts differs from the length of the axis and neither is 1; DOMAIN where A is not of numbers, or one is
/// negative; LIMIT beyond the limits of arrays.
#[derive(Clone, Copy, PartialEq, Eq, Debug)]
pub struct Replicate {
    /// The axis whose places are copied.
    pub along: Along,
}

impl Replicate {
    /// Returns the source of the item at an index list of the result: a place of the second argument. Requires that the
    /// checks pass. Allocates nothing.
    pub fn source_of(&self, args: &[Seen], index: &[u32]) -> Source
        requires count { length args.now ≡ 2 }
        requires place { IsPlaceOf (of_two_arguments (replicate_form self.now.along) args.now) index.now }
        ensures is { (a b : ArrayValue) → args.now ≡ a ∷ b ∷ [] → source_value result ≡ replicate_source self.now.along a b index.now }
        ensures inside { (a b : ArrayValue) → args.now ≡ a ∷ b ∷ [] → IsSourceIn a b result }
    {
        self.source(&args[0], &args[1], index)
    }

    /// Returns the source of the item at an index list of the result.
    fn source(self, counts: &Seen, array: &Seen, index: &[u32]) -> Source
        requires { IsPlaceOf (replicate_form self.along counts.now array.now) index.now }
        ensures is { source_value result ≡ replicate_source self.along counts.now array.now index.now }
        ensures inside { IsSourceIn counts.now array.now result }
    {
        let axes = array.shape();
        let alloc = *axes.allocator();
        if axes.is_empty() {
            let at = shape_of(alloc, &[]);
            return Source::Place { arg: 1, at };
        }
        let axis = self.along.axis_at(axes.len() as u32);
        let at = copied_index(alloc, counts, axes.as_slice(), axis, index);
        Source::Place { arg: 1, at }
    }

    /// Checks the arguments, and returns the shape and the type of the result.
    fn form(self, counts: &Seen, array: &Seen) -> Result<(Shape, ItemType), Kind>
        ensures { IsFormAnswerTo (replicate_form self.along counts.now array.now) result }
    {
        self.checked(counts, array, mask_of(counts))
    }

    /// Checks the arguments, and returns the shape and the type of the result. `mask` is the number of counts that are 1, if each is 0 or 1.
    fn checked(
        self,
        counts: &Seen,
        array: &Seen,
        mask: Option<u32>,
    ) -> Result<(Shape, ItemType), Kind>
        requires { IfSome mask (IsMask (numbers counts.now)) }
        ensures { IsFormAnswerTo (replicate_form self.along counts.now array.now) result }
    {
        let axes = array.shape();
        let rank = axes.len().max(1) as u32;
        if !self.along.is_axis(rank) {
            return Err(Kind::Axis);
        }
        let axis = self.along.axis_at(rank);
        let places = places_along(axes.as_slice(), axis);
        check_counts(counts, places, mask)?;
        let copied = copies(counts, places, mask)?;
        let shape = replicated_shape(*axes.allocator(), axes.as_slice(), axis, copied);
        limited(shape, array.item_type())
    }

    /// Returns the copies. Applies a mask over a vector of numbers in one pass. Otherwise computes the place of each
    /// copy first; it then copies a vector item by item, and other arrays row by row.
    pub fn apply(&self, alloc: Global, args: &[Seen]) -> Result<Array, ApplyFault>
        requires { length args.now ≡ 2 }
        ensures { IsAnswerTo (of_two_arguments (replicate_whole self.now.along) args.now) result }
    {
        self.copied(alloc, &args[0], &args[1])
    }

    /// Returns the numbers that a mask keeps as a vector, after the checks.
    fn kept(self, counts: &Seen, array: &Seen, kept: Vec<i64>) -> Result<Array, ApplyFault>
        requires { IsKept counts.now array.now kept.items }
        ensures { IsAnswerTo (replicate_whole self.along counts.now array.now) result }
    {
        let (_sound, _also) = (counts.places(), array.places());
        let (shape, _) = self.checked(counts, array, Some(kept.len() as u32))?;
        Ok(Array::from_numbers(&shape, kept)?)
    }

    /// Returns the copies of the places of an array.
    fn copied(self, alloc: Global, counts: &Seen, array: &Seen) -> Result<Array, ApplyFault>
        ensures { IsAnswerTo (replicate_whole self.along counts.now array.now) result }
    {
        if let Some(kept) = kept_of(counts, array)? {
            return self.kept(counts, array, kept);
        }
        let mask = mask_of(counts);
        let (shape, item_type) = self.checked(counts, array, mask)?;
        let axes = array.shape();
        let axis = self.along.axis_at(axes.len().max(1) as u32);
        let places = places_along(axes.as_slice(), axis);
        let before = before_each_copy(alloc, counts, places, shape[axis], mask)?;
        if axes.len() <= 1 {
            let picked = array.picked(before.as_slice(), &shape)?;
            return Ok(picked);
        }
        let copies = CopyFunction {
            replicate: self,
            counts,
            array,
            before: before.as_slice(),
            shape: &shape,
        };
        collect_rows(alloc, &copies, item_type, &shape)
    }
}

/// Computes items and rows of the copies, after the checks. `before` holds the place of each copy, counted from 0.
#[derive(Drop)]
struct CopyFunction<'a, 'b, 'c> {
    replicate: Replicate,
    counts: &'a Seen<'b>,
    array: &'a Seen<'c>,
    before: &'a [u32],
    shape: &'a Shape,
    ghost form: { replicate_form replicate.along counts.now array.now ≡ Ok (form_of shape.now.items array.now.item_type) },
    ghost long: { length before.now ≡ sum (times counts.now (places_along array.now.shape (axis_at (max 1 (length array.now.shape)) replicate.along))) },
    ghost is: { (i : ℕ) → i < length before.now → get_or before.now i 0 + 1 ≡ copied_place counts.now (places_along array.now.shape (axis_at (max 1 (length array.now.shape)) replicate.along)) (i + 1) },
    ghost within: { All (λ n. n ≤ longest_axis) before.now },
    ghost rank: { 1 < length array.now.shape },
}

impl<'a, 'b, 'c> CopyFunction<'a, 'b, 'c> {
    /// Returns the index list in the array for an index list of the result.
    fn index_of(&self, index: &[u32]) -> Shape
        requires { IsTrue (is_index_of self.now.shape.now.items index.now) }
        ensures is { Place 1 result.items ≡ replicate_source self.now.replicate.along self.now.counts.now self.now.array.now index.now }
        ensures inside { IsTrue (is_index_of self.now.array.now.shape result.items) }
        ensures inline { result.capacity ≡ 4 }
    {
        let axes = self.array.shape();
        let axis = self.replicate.along.axis_at(axes.len() as u32);
        index_of_copy(*axes.allocator(), axis, self.before, index)
    }
}

impl<'a, 'b, 'c> ItemFunction for CopyFunction<'a, 'b, 'c> {
    ghost result_shape = { λ r. r.shape.now.items };

    ghost result_type = { λ r. r.array.now.item_type };

    ghost item = { λ r index. replicate_item r.replicate.along r.counts.now r.array.now index };

    fn item_at(&self, index: &[u32]) -> Result<Item, Kind> {
        let array = self.array;
        let at = self.index_of(index);
        let source = Source::Place { arg: 1, at };
        Ok(item_from(array, array, array.item_type(), source))
    }
}

impl<'a, 'b, 'c> RowFunction for CopyFunction<'a, 'b, 'c> {
    fn extend_row(
        &self,
        row: &[u32],
        count: u32,
        items: &mut ArrayBuilder,
    ) -> Result<(), AllocError> {
        let array = self.array;
        let axes = array.shape();
        let first = index_in_row(*axes.allocator(), row, 1);
        let at = self.index_of(first.as_slice());
        let place = places_before(axes, at.as_slice());
        if self.replicate.along.axis_at(axes.len() as u32) == row.len() {
            array.extend_places(items, place - self.before[0], self.before)
        } else {
            array.extend_run(items, place, count)
        }
    }
}

impl Primitive for Replicate {
    ghost arity = { λ _. 2 };

    ghost form = { λ r args. of_two_arguments (replicate_form r.along) args };

    ghost item = { λ r args index. of_two_arguments (λ a b. replicate_item r.along a b index) args };

    fn shape_of(&self, args: &[Seen]) -> Result<(Shape, ItemType), Kind> {
        self.form(&args[0], &args[1])
    }

    fn item_at(&self, args: &[Seen], index: &[u32]) -> Result<Item, Kind> {
        let counts = &args[0];
        let array = &args[1];
        let source = self.source(counts, array, index);
        Ok(item_from(array, array, array.item_type(), source))
    }
}
