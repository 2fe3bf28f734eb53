//! The places of the items of an indexed reference, each as the number of items before it in the indexed array.

ghost use Rattle.std.specs.Prelude.{◌≡◌, ◌<◌, ◌≤◌, ◌+◌, ◌-◌, ◌*◌, ◌^◌, ◌++◌, ◌∷◌, [], ℕ, IsTrue, IfOk, IfSome, OnOk, map, length, get_or, pos, unsigned_abs, vec_len, vec_capacity};
ghost use Rattle.std.specs.List.{list_all, range_with_len};
ghost use Rattle.arrays_core.specs.Building.{listed};
ghost use Rattle.arrays_core.specs.Items.{fill};
ghost use Rattle.arrays_core.specs.declared.item.Item.TheVariants.{Num};
ghost use Rattle.arrays_core.specs.declared.item.ItemType.TheVariants.{Nums};
ghost use Rattle.arrays_core.specs.Limits.{most_places};
ghost use Rattle.arrays_core.specs.Shapes.{size, IsWithinLimits};
ghost use Rattle.index_region.specs.Arguments.{numbers};
ghost use Rattle.selection_fns.specs.Index.{written_positions, count_written, is_on_axis, are_on, indexed_shape};
ghost use Rattle.selection_fns.specs.IndexPlaces.{sums, row_places, all_places, ArePlacesOf};

use crate::numbers::numbers_of;
use arrays_core::{Array, ArrayBuilder, Shape, room_of, size};
use index_region::Seen;
use std::alloc::{AllocError, Global};

/// Shorter rows are combined with their neighbours.
const LEAST_ROW: usize = 16;

/// Appends each place plus `by`, within the capacity of the list. The list is passed by value, so that its length stays
/// in a register while the loop writes.
fn with_moved(list: Vec<u32>, by: u32, places: &[u32]) -> Vec<u32>
    requires fit { (k : ℕ) → k < length places.now → by + get_or places.now k 0 < 2 ^ 32 }
    requires room { vec_len list + length places.now ≤ vec_capacity list }
    ensures items { result.items ≡ list.items ++ map (λ place. by + place) places.now }
    ensures long { vec_len result ≡ vec_len list + length places.now }
    ensures room { vec_capacity result ≡ vec_capacity list }
{
    let mut list = list;
    for k in 0..places.len() {
        list.push_reserved(by + places[k]);
    }
    list
}

/// Appends each number of the first list plus each of the two numbers of the second, within the capacity of the list.
fn with_pairs(list: Vec<u32>, first: &[u32], second: &[u32]) -> Vec<u32>
    requires two { length second.now ≡ 2 }
    requires fit { (i j : ℕ) → i < length first.now → j < length second.now → get_or first.now i 0 + get_or second.now j 0 < 2 ^ 32 }
    requires room { vec_len list + length first.now * 2 ≤ vec_capacity list }
    ensures { result.items ≡ list.items ++ sums first.now second.now }
{
    let mut list = list;
    let (one, other) = (second[0], second[1]);
    for k in 0..first.len() {
        list.push_reserved(first[k] + one);
        list.push_reserved(first[k] + other);
    }
    list
}

/// Returns each number of the first list plus each number of the second.
fn sums(alloc: Global, first: &[u32], second: &[u32]) -> Result<Vec<u32>, AllocError>
    requires few { length first.now * length second.now ≤ most_places }
    requires fit { (i j : ℕ) → i < length first.now → j < length second.now → get_or first.now i 0 + get_or second.now j 0 < 2 ^ 32 }
    ensures { IfOk result (λ list. list.items ≡ sums first.now second.now) }
{
    let mut list = Vec::with_capacity(alloc, first.len() * second.len())?;
    if second.len() == 1 {
        return Ok(with_moved(list, second[0], first));
    }
    if second.len() == 2 {
        return Ok(with_pairs(list, first, second));
    }
    for k in 0..first.len() {
        list = with_moved(list, first[k], second);
    }
    Ok(list)
}

/// Returns the offsets of all places of an axis from its first place; neighbours are `step` places apart.
fn axis_offsets(alloc: Global, axis: u32, step: u32) -> Result<Vec<u32>, AllocError>
    requires { axis * step ≤ most_places }
    ensures { IfOk result (λ list. list.items ≡ listed axis (λ k. k * step)) }
{
    let mut list = Vec::with_capacity(alloc, axis as usize)?;
    for before in 0..axis {
        list.push_reserved(before * step);
    }
    Ok(list)
}

/// Returns the offsets of the places that indices name, from the first place of the axis; neighbours are `step` places apart.
fn index_offsets(
    alloc: Global,
    indices: &[i64],
    axis: u32,
    step: u32,
) -> Result<Vec<u32>, AllocError>
    requires on { IsTrue (list_all (is_on_axis axis) indices.now) }
    requires fit { axis * step ≤ most_places }
    ensures { IfOk result (λ list. list.items ≡ map (λ index. (unsigned_abs index - 1) * step) indices.now) }
{
    let mut list = Vec::with_capacity(alloc, indices.len())?;
    for k in 0..indices.len() {
        list.push_reserved((indices[k].unsigned_abs() as u32 - 1) * step);
    }
    Ok(list)
}

/// Appends the numbers at `head` plus each place, within the capacity of the list. The list is passed by value, so that
/// its length stays in a register while the loop writes.
fn with_numbers_at(list: Vec<i64>, numbers: &[i64], head: u32, places: &[u32]) -> Vec<i64>
    requires inside { (k : ℕ) → k < length places.now → head + get_or places.now k 0 < length numbers.now }
    requires room { vec_len list + length places.now ≤ vec_capacity list }
    ensures items { result.items ≡ list.items ++ map (λ place. get_or numbers.now (head + place) (pos 0)) places.now }
    ensures long { vec_len result ≡ vec_len list + length places.now }
    ensures room { vec_capacity result ≡ vec_capacity list }
{
    let mut list = list;
    let head = head as usize;
    for k in 0..places.len() {
        list.push_reserved(numbers[head + places[k] as usize]);
    }
    list
}

/// Returns the numbers at rows of places. Each row has the same offsets from its head.
fn numbers_at(
    alloc: Global,
    numbers: &[i64],
    heads: &[u32],
    row: &[u32],
) -> Result<Vec<i64>, AllocError>
    requires few { length heads.now * length row.now ≤ most_places }
    requires inside { (i j : ℕ) → i < length heads.now → j < length row.now → get_or heads.now i 0 + get_or row.now j 0 < length numbers.now }
    ensures { IfOk result (λ list. list.items ≡ map (λ k. get_or numbers.now k (pos 0)) (sums heads.now row.now)) }
{
    let mut list = Vec::with_capacity(alloc, room_of(heads.len() * row.len()))?;
    for k in 0..heads.len() {
        list = with_numbers_at(list, numbers, heads[k], row);
    }
    Ok(list)
}

/// A row: the offsets of its places from its head.
#[derive(Drop)]
pub(crate) enum Row {
    /// A run of this length from the head.
    Run(u32),
    /// Any offsets.
    Listed(Vec<u32>),
}

impl Row {
    /// Appends the items of an array at the places of the row that begins at `head`.
    fn extend(&self, array: &Seen, head: u32, items: &mut ArrayBuilder) -> Result<(), AllocError>
        requires typed { array.now.item_type ≡ items.old.item_type }
        requires begins { head < length array.now.items }
        requires inside { (k : ℕ) → k < length (row_places self.now) → head + get_or (row_places self.now) k 0 < length array.now.items }
        ensures items { OnOk result (items.new.items ≡ items.old.items ++ map (λ k. get_or array.now.items (head + k) (fill array.now.item_type)) (row_places self.now)) }
        ensures typed { items.new.item_type ≡ items.old.item_type }
    {
        match self {
            Row::Run(count) => array.extend_run(items, head, *count),
            Row::Listed(places) => array.extend_places(items, head, places),
        }
    }
}

/// Rows of places; each row has the same offsets from its head.
#[derive(Drop)]
pub(crate) struct Places {
    heads: Vec<u32>,
    row: Row,
}

impl Places {
    /// Returns place 0 alone.
    fn first(alloc: Global) -> Result<Places, AllocError>
        ensures { IfOk result (λ p. all_places p ≡ 0 ∷ []) }
    {
        let heads = vec![in alloc; 0; 1]?;
        let places = vec![in alloc; 0; 1]?;
        let row = Row::Listed(places);
        Ok(Places { heads, row })
    }

    /// Returns the places from 0 up to `count`, without it.
    fn run(alloc: Global, count: u32) -> Result<Places, AllocError>
        ensures { IfOk result (λ p. all_places p ≡ range_with_len 0 count) }
    {
        let heads = vec![in alloc; 0; 1]?;
        let row = Row::Run(count);
        Ok(Places { heads, row })
    }

    /// Returns the places plus each offset, one offset after another. For a single place the offsets become the row, if
    /// they are long enough for one.
    fn moved(self, alloc: Global, offsets: Vec<u32>) -> Result<Places, AllocError>
        requires some { 0 < length (all_places self) }
        requires few { length offsets.items * length (all_places self) ≤ most_places }
        requires fit { (i j : ℕ) → i < length offsets.items → j < length (all_places self) → get_or offsets.items i 0 + get_or (all_places self) j 0 < 2 ^ 32 }
        ensures { IfOk result (λ p. all_places p ≡ sums offsets.items (all_places self)) }
    {
        let Places { heads, row } = self;
        match row {
            Row::Listed(places) => {
                if heads.len() == 1 && heads[0] == 0 && places.len() < LEAST_ROW {
                    if places.len() == 1 && offsets.len() >= LEAST_ROW {
                        let row = Row::Listed(offsets);
                        return Ok(Places { heads: places, row });
                    }
                    let row = Row::Listed(sums(alloc, &offsets, &places)?);
                    return Ok(Places { heads, row });
                }
                let heads = sums(alloc, &offsets, &heads)?;
                let row = Row::Listed(places);
                Ok(Places { heads, row })
            }
            Row::Run(count) => {
                let heads = sums(alloc, &offsets, &heads)?;
                let row = Row::Run(count);
                Ok(Places { heads, row })
            }
        }
    }

    /// Returns the numbers at the places. None where the row is a run, or the numbers of the array are not contiguous.
    fn numbers(&self, alloc: Global, array: &Seen) -> Result<Option<Vec<i64>>, AllocError>
        requires few { length (all_places self.now) ≤ most_places }
        requires inside { (k : ℕ) → k < length (all_places self.now) → get_or (all_places self.now) k 0 < length array.now.items }
        ensures typed { IfOk result (λ o. IfSome o (λ list. array.now.item_type ≡ Nums)) }
        ensures items { IfOk result (λ o. IfSome o (λ list. map (λ z. Num z) list.items
            ≡ map (λ k. get_or array.now.items k (fill array.now.item_type)) (all_places self.now))) }
    {
        let Row::Listed(row) = &self.row else {
            return Ok(None);
        };
        let Some(numbers) = array.numbers() else {
            return Ok(None);
        };
        Ok(Some(numbers_at(alloc, numbers, &self.heads, row)?))
    }

    /// Returns the items of an array at the places, as an array of the given shape.
    pub(crate) fn items(
        &self,
        alloc: Global,
        array: &Seen,
        shape: &Shape,
    ) -> Result<Array, AllocError>
        requires within { IsWithinLimits shape.now.items }
        requires one_item_a_place { length (all_places self.now) ≡ size shape.now.items }
        requires some { 0 < length (all_places self.now) }
        requires inside { (k : ℕ) → k < length (all_places self.now) → get_or (all_places self.now) k 0 < length array.now.items }
        ensures { IfOk result (λ a. a ≡ record {
          item_type = array.now.item_type;
          shape = shape.now.items;
          items = map (λ k. get_or array.now.items k (fill array.now.item_type)) (all_places self.now);
        }) }
    {
        if let Some(numbers) = self.numbers(alloc, array)? {
            return Array::from_numbers(shape, numbers);
        }
        let count = size(shape.as_slice()) as usize;
        let mut items = ArrayBuilder::with_capacity(alloc, array.item_type(), count)?;
        self.extend(array, &mut items)?;
        items.into_array(shape)
    }

    /// Appends the items of an array at the places.
    fn extend(&self, array: &Seen, items: &mut ArrayBuilder) -> Result<(), AllocError>
        requires typed { array.now.item_type ≡ items.old.item_type }
        requires some { 0 < length (all_places self.now) }
        requires inside { (k : ℕ) → k < length (all_places self.now) → get_or (all_places self.now) k 0 < length array.now.items }
        ensures items { OnOk result (items.new.items ≡ items.old.items ++ map (λ k. get_or array.now.items k (fill array.now.item_type)) (all_places self.now)) }
        ensures typed { items.new.item_type ≡ items.old.item_type }
    {
        for head in &self.heads {
            self.row.extend(array, *head, items)?;
        }
        Ok(())
    }
}

/// Returns the offsets of the places that the indices of a position name, from the place of index 1; neighbours are `step` places apart.
fn position_offsets(
    alloc: Global,
    position: &Seen,
    axis: u32,
    step: u32,
) -> Result<Vec<u32>, AllocError>
    requires on { IsTrue (list_all (is_on_axis axis) (numbers position.now)) }
    requires fit { axis * step ≤ most_places }
    ensures { IfOk result (λ list. list.items ≡ map (λ index. (unsigned_abs index - 1) * step) (numbers position.now)) }
{
    match position.numbers() {
        Some(indices) => index_offsets(alloc, indices, axis, step),
        None => index_offsets(alloc, &numbers_of(alloc, position)?, axis, step),
    }
}

/// Returns the places of all items of the result. The result has at least one item.
pub(crate) fn places_of(
    alloc: Global,
    axes: &[u32],
    written: &[bool],
    positions: &[Seen],
) -> Result<Places, AllocError>
    requires within { IsWithinLimits axes.now }
    requires one_an_axis { length written.now ≡ length axes.now }
    requires long { length positions.now ≡ count_written written.now }
    requires on { IsTrue (are_on axes.now (written_positions written.now positions.now)) }
    requires some { 0 < size (indexed_shape axes.now (written_positions written.now positions.now)) }
    requires few { size (indexed_shape axes.now (written_positions written.now positions.now)) ≤ most_places }
    ensures { IfOk result (λ p. ArePlacesOf axes.now (written_positions written.now positions.now) (all_places p)) }
{
    if written.is_empty() {
        return Places::first(alloc);
    }
    let others = &axes[1..];
    if !written[0] {
        if others.is_empty() && axes[0] as usize >= LEAST_ROW {
            return Places::run(alloc, axes[0]);
        }
        let rest = places_of(alloc, others, &written[1..], positions)?;
        let offsets = axis_offsets(alloc, axes[0], size(others))?;
        return rest.moved(alloc, offsets);
    }
    let position = &positions[0];
    prove!(0 < position.places());
    let rest = places_of(alloc, others, &written[1..], &positions[1..])?;
    let offsets = position_offsets(alloc, position, axes[0], size(others))?;
    rest.moved(alloc, offsets)
}
