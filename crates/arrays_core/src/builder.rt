//! Arrays that are built by appending items.

ghost use Rattle.std.specs.Prelude.{◌≡◌, ◌≤◌, ◌<◌, ◌+◌, ◌-◌, ◌*◌, ◌%◌, ◌++◌, ◌∷◌, [], ℕ, pos, unsigned_abs, IfOk, OnOk, length, get_or};
ghost use Rattle.arrays_core.specs.Building.{listed};
ghost use Rattle.arrays_core.specs.Items.{fill, type_of};
ghost use Rattle.arrays_core.specs.Shapes.{size, IsWithinLimits};

use crate::array::Array;
use crate::item::{Item, ItemType};
use crate::item_list::ItemList;
use crate::room::room_of;
use crate::shape::Shape;
use std::alloc::{AllocError, Global};
use std::marker::Model;
use std::mem;

/// Appends `count` copies of an item.
fn extend_with<T: Copy + Drop>(items: &mut Vec<T>, item: T, count: u32) -> Result<(), AllocError>
    ensures { OnOk result (items.new.items ≡ items.old.items ++ listed count (λ k. item)) }
{
    items.resize(items.len() + count as usize, item)
}

/// Appends a run of items.
fn extend_run<T: Copy + Drop>(
    items: &mut Vec<T>,
    from: &[T],
    first: usize,
    count: usize,
) -> Result<(), AllocError>
    requires { first + count ≤ length from.now }
    ensures { OnOk result ((d : T) → items.new.items ≡ items.old.items ++ listed count (λ k. get_or from.now (first + k) d)) }
{
    items.extend_from_slice(&from[first..first + count])
}

/// Appends a run of items in reverse order. Here and below the list is moved out of `items` during the loop, so that no push waits for the last
/// write of the length.
fn extend_back<T: Copy + Drop>(
    items: &mut Vec<T>,
    from: &[T],
    last: usize,
    count: usize,
) -> Result<(), AllocError>
    requires low { count ≤ last + 1 }
    requires high { 0 < count → last < length from.now }
    ensures { OnOk result ((d : T) → items.new.items ≡ items.old.items ++ listed count (λ k. get_or from.now (last - k) d)) }
{
    items.reserve(count)?;
    let mut list = mem::replace(items, Vec::new(*items.allocator()));
    let end = last.saturating_add(1).min(from.len());
    let part = &from[end - count..end];
    for k in 0..count {
        list.push_reserved(part[count - 1 - k]);
    }
    *items = list;
    Ok(())
}

/// Appends items that are `step` places apart.
fn extend_steps<T: Copy + Drop>(
    items: &mut Vec<T>,
    from: &[T],
    first: usize,
    step: usize,
    count: usize,
) -> Result<(), AllocError>
    requires { (k : ℕ) → k < count → first + k * step < length from.now }
    ensures { OnOk result ((d : T) → items.new.items ≡ items.old.items ++ listed count (λ k. get_or from.now (first + k * step) d)) }
{
    items.reserve(count)?;
    let mut list = mem::replace(items, Vec::new(*items.allocator()));
    for k in 0..count {
        list.push_reserved(from[first + k * step]);
    }
    *items = list;
    Ok(())
}

/// Appends the items at these indices; index 1 is the place after `before` items.
fn extend_at<T: Copy + Drop>(
    items: &mut Vec<T>,
    from: &[T],
    before: usize,
    indices: &[i64],
) -> Result<(), AllocError>
    requires low { (k : ℕ) → k < length indices.now → 1 ≤ unsigned_abs (get_or indices.now k (pos 0)) }
    requires high { (k : ℕ) → k < length indices.now → before + unsigned_abs (get_or indices.now k (pos 0)) ≤ length from.now }
    ensures { OnOk result ((d : T) → items.new.items ≡ items.old.items ++ listed (length indices.now) (λ k. get_or from.now (before + unsigned_abs (get_or indices.now k (pos 0)) - 1) d)) }
{
    items.reserve(indices.len())?;
    let mut list = mem::replace(items, Vec::new(*items.allocator()));
    for k in 0..indices.len() {
        list.push_reserved(from[before + indices[k].unsigned_abs() as usize - 1]);
    }
    *items = list;
    Ok(())
}

/// Appends the items at these places; place 0 is the place after `first` items.
fn extend_places<T: Copy + Drop>(
    items: &mut Vec<T>,
    from: &[T],
    first: usize,
    places: &[u32],
) -> Result<(), AllocError>
    requires { (k : ℕ) → k < length places.now → first + get_or places.now k 0 < length from.now }
    ensures { OnOk result ((d : T) → items.new.items ≡ items.old.items ++ listed (length places.now) (λ k. get_or from.now (first + get_or places.now k 0) d)) }
{
    items.reserve(places.len())?;
    let mut list = mem::replace(items, Vec::new(*items.allocator()));
    for k in 0..places.len() {
        list.push_reserved(from[first + places[k] as usize]);
    }
    *items = list;
    Ok(())
}

/// Appends copies of the items until there are `places` items.
fn repeat_to<T: Copy + Drop>(items: &mut Vec<T>, places: usize) -> Result<(), AllocError>
    requires some { 0 < length items.old.items }
    requires more { length items.old.items ≤ places }
    ensures { OnOk result ((d : T) → items.new.items ≡ listed places (λ k. get_or items.old.items (k % length items.old.items) d)) }
{
    while items.len() < places {
        let more = items.len().min(places - items.len());
        items.extend_from_within(..more)?;
    }
    Ok(())
}

/// The items of an array under construction, of one type, in row-major order. Each item is written once, in its final place.
#[derive(Drop)]
pub struct ArrayBuilder {
    list: ItemList,
}

impl Model for ArrayBuilder {
    ghost use Rattle.arrays_core.specs.Building.{BuilderValue};

    ghost Value = { BuilderValue };

    ghost use Rattle.arrays_core.specs.Ravels.{list_items, list_type};

    ghost view = { λ b. record { item_type = list_type b.list; items = list_items b.list } };
}

impl ArrayBuilder {
    /// Returns a builder without items, with capacity for `places` items.
    pub fn with_capacity(
        alloc: Global,
        item_type: ItemType,
        places: usize,
    ) -> Result<ArrayBuilder, AllocError>
        ensures { IfOk result (λ b. b ≡ record { item_type = item_type; items = [] }) }
    {
        let list = ItemList::with_capacity(alloc, item_type, room_of(places))?;
        Ok(ArrayBuilder { list })
    }

    /// Appends `count` copies of an item.
    pub fn extend_with(&mut self, item: Item, count: u32) -> Result<(), AllocError>
        requires { type_of item ≡ self.old.item_type }
        ensures items { OnOk result (self.new.items ≡ self.old.items ++ listed count (λ k. item)) }
        ensures typed { self.new.item_type ≡ self.old.item_type }
    {
        match &mut self.list {
            ItemList::Nums(items) => match item {
                Item::Num(number) => extend_with(items, number, count),
                Item::Char(_) => unreachable!(),
            },
            ItemList::Chars(items) => match item {
                Item::Num(_) => unreachable!(),
                Item::Char(character) => extend_with(items, character, count),
            },
        }
    }

    /// Appends items of an array of the same type: the item at the place `first` and those after it. Places are counted from 0.
    pub fn extend_run(&mut self, array: &Array, first: u32, count: u32) -> Result<(), AllocError>
        requires typed { array.now.item_type ≡ self.old.item_type }
        requires inside { first + count ≤ length array.now.items }
        ensures items { OnOk result (self.new.items ≡ self.old.items ++ listed count (λ k. get_or array.now.items (first + k) (fill array.now.item_type))) }
        ensures typed { self.new.item_type ≡ self.old.item_type }
    {
        match &mut self.list {
            ItemList::Nums(items) => match array.numbers() {
                Some(from) => extend_run(items, from, first as usize, count as usize),
                None => unreachable!(),
            },
            ItemList::Chars(items) => match array.characters() {
                Some(from) => extend_run(items, from, first as usize, count as usize),
                None => unreachable!(),
            },
        }
    }

    /// Appends items of an array of the same type: the item at the place `last`, then those before it, in reverse order. Places are counted from
    /// 0.
    pub fn extend_back(&mut self, array: &Array, last: u32, count: u32) -> Result<(), AllocError>
        requires typed { array.now.item_type ≡ self.old.item_type }
        requires low { count ≤ last + 1 }
        requires high { 0 < count → last < length array.now.items }
        ensures items { OnOk result (self.new.items ≡ self.old.items ++ listed count (λ k. get_or array.now.items (last - k) (fill array.now.item_type))) }
        ensures typed { self.new.item_type ≡ self.old.item_type }
    {
        match &mut self.list {
            ItemList::Nums(items) => match array.numbers() {
                Some(from) => extend_back(items, from, last as usize, count as usize),
                None => unreachable!(),
            },
            ItemList::Chars(items) => match array.characters() {
                Some(from) => extend_back(items, from, last as usize, count as usize),
                None => unreachable!(),
            },
        }
    }

    /// Appends items of an array of the same type that are `step` places apart, from the place `first` on. Places are counted from 0.
    pub fn extend_steps(
        &mut self,
        array: &Array,
        first: u32,
        step: u32,
        count: u32,
    ) -> Result<(), AllocError>
        requires typed { array.now.item_type ≡ self.old.item_type }
        requires inside { (k : ℕ) → k < count → first + k * step < length array.now.items }
        ensures items { OnOk result (self.new.items ≡ self.old.items ++ listed count (λ k. get_or array.now.items (first + k * step) (fill array.now.item_type))) }
        ensures typed { self.new.item_type ≡ self.old.item_type }
    {
        let (first, step, count) = (first as usize, step as usize, count as usize);
        match &mut self.list {
            ItemList::Nums(items) => match array.numbers() {
                Some(from) => extend_steps(items, from, first, step, count),
                None => unreachable!(),
            },
            ItemList::Chars(items) => match array.characters() {
                Some(from) => extend_steps(items, from, first, step, count),
                None => unreachable!(),
            },
        }
    }

    /// Appends items of an array of the same type, at indices counted from 1; index 1 is the place after `before` places.
    pub fn extend_at(
        &mut self,
        array: &Array,
        before: u32,
        indices: &[i64],
    ) -> Result<(), AllocError>
        requires typed { array.now.item_type ≡ self.old.item_type }
        requires low { (k : ℕ) → k < length indices.now → 1 ≤ unsigned_abs (get_or indices.now k (pos 0)) }
        requires high { (k : ℕ) → k < length indices.now → before + unsigned_abs (get_or indices.now k (pos 0)) ≤ length array.now.items }
        ensures items { OnOk result (self.new.items ≡ self.old.items ++ listed (length indices.now) (λ k. get_or array.now.items (before + unsigned_abs (get_or indices.now k (pos 0)) - 1) (fill array.now.item_type))) }
        ensures typed { self.new.item_type ≡ self.old.item_type }
    {
        match &mut self.list {
            ItemList::Nums(items) => match array.numbers() {
                Some(from) => extend_at(items, from, before as usize, indices),
                None => unreachable!(),
            },
            ItemList::Chars(items) => match array.characters() {
                Some(from) => extend_at(items, from, before as usize, indices),
                None => unreachable!(),
            },
        }
    }

    /// Appends items of an array of the same type, at places counted from 0; place 0 is the place after `first` others.
    pub fn extend_places(
        &mut self,
        array: &Array,
        first: u32,
        places: &[u32],
    ) -> Result<(), AllocError>
        requires typed { array.now.item_type ≡ self.old.item_type }
        requires inside { (k : ℕ) → k < length places.now → first + get_or places.now k 0 < length array.now.items }
        ensures items { OnOk result (self.new.items ≡ self.old.items ++ listed (length places.now) (λ k. get_or array.now.items (first + get_or places.now k 0) (fill array.now.item_type))) }
        ensures typed { self.new.item_type ≡ self.old.item_type }
    {
        match &mut self.list {
            ItemList::Nums(items) => match array.numbers() {
                Some(from) => extend_places(items, from, first as usize, places),
                None => unreachable!(),
            },
            ItemList::Chars(items) => match array.characters() {
                Some(from) => extend_places(items, from, first as usize, places),
                None => unreachable!(),
            },
        }
    }

    /// Appends copies of the items until there are `places` items.
    pub fn repeat_to(&mut self, places: u32) -> Result<(), AllocError>
        requires some { 0 < length self.old.items }
        requires more { length self.old.items ≤ places }
        ensures items { OnOk result (self.new.items ≡ listed places (λ k. get_or self.old.items (k % length self.old.items) (fill self.old.item_type))) }
        ensures typed { self.new.item_type ≡ self.old.item_type }
    {
        match &mut self.list {
            ItemList::Nums(items) => repeat_to(items, places as usize),
            ItemList::Chars(items) => repeat_to(items, places as usize),
        }
    }

    /// Appends an item.
    pub fn push(&mut self, item: Item) -> Result<(), AllocError>
        requires { type_of item ≡ self.old.item_type }
        ensures items { OnOk result (self.new.items ≡ self.old.items ++ item ∷ []) }
        ensures typed { self.new.item_type ≡ self.old.item_type }
    {
        self.list.push(item)
    }

    /// Returns the array of a shape with as many places as there are items. Allocates only if there are more items than the capacity promised.
    pub fn into_array(self, shape: &Shape) -> Result<Array, AllocError>
        requires within { IsWithinLimits shape.now.items }
        requires one_item_a_place { length self.items ≡ size shape.now.items }
        ensures { IfOk result (λ a. a ≡ record { item_type = self.item_type; shape = shape.now.items; items = self.items }) }
    {
        Array::of_list(shape, self.list)
    }
}
