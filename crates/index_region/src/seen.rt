//! Views of arrays.

ghost use Rattle.std.specs.Prelude.{◌≡◌, ◌+◌, ◌-◌, ◌≤◌, IfSome, IfOk, Ok, not, length, map, take, drop, ◌++◌, get_or, pos};
ghost use Rattle.index_region.specs.Patches.{patched, FitsPatch};
ghost use Rattle.index_region.specs.Tails.{FitsTail};
ghost use Rattle.index_region.specs.Laid.{seen, IsLaid};
ghost use Rattle.arrays_core.specs.Growth.{grown_by};
ghost use Rattle.arrays_core.specs.Arrays.{ArrayValue, IsArray, item_if_there};
ghost use Rattle.arrays_core.specs.Shapes.{size, IsWithinLimits};
ghost use Rattle.arrays_core.specs.declared.item.Item.TheVariants.{Num, Char};
ghost use Rattle.arrays_core.specs.declared.item.ItemType.TheVariants.{Nums, Chars};
ghost use Rattle.arrays_core.specs.Items.{fill, type_of};
ghost use Rattle.index_region.specs.Arguments.{numbers, none_negative, counts_as_numbers};

use crate::patch::Patch;
use crate::tail::Tail;
use arrays_core::{Array, Item, ItemType, Shape, index_of_position, is_index_of, position, size};
use std::alloc::AllocError;
use std::marker::Model;

/// The change that a view adds to its array: nothing, a patch or a tail.
#[derive(Clone, Copy, Drop)]
enum Laid<'a> {
    Nothing,
    Over(&'a Patch),
    Behind(&'a Tail),
}

/// A borrowed view of an array: unchanged, with a patch over it, or with a tail behind it. Copies no item.
#[derive(Drop)]
pub struct Seen<'a> {
    array: &'a Array,
    laid: Laid<'a>,
}

impl<'a> Model for Seen<'a> {
    ghost Value = { ArrayValue };

    ghost view = { λ s. seen s.array.now s.laid };

    ghost invariant = { λ s. IsLaid s.array.now s.laid };
}

/// Tests whether no number is negative.
fn are_none_negative(numbers: &[i64]) -> bool
    ensures { result ≡ none_negative numbers.now }
{
    numbers.iter().all(|number| *number >= 0)
}

/// Returns the item at an index list of a patched array.
#[tactic(auto, using(crate::proofs::Patched::patched_if_there))]
fn at_patched(array: &Array, patch: &Patch, index: &[u32]) -> Option<Item>
    requires { FitsPatch array.now patch.now }
    ensures is { result ≡ item_if_there (patched array.now patch.now) index.now }
    ensures typed { IfSome result (λ x. type_of x ≡ array.now.item_type) }
{
    if patch.region().contains(index) {
        return Some(patch.item(index));
    }
    array.at(index)
}

/// Returns the item at a place of a patched array, counted from 1. Not inlined, like `item_grown`: an item of an unchanged array needs no stack.
#[inline(never)]
fn item_patched(array: &Array, patch: &Patch, position: u32) -> Item
    requires fits { FitsPatch array.now patch.now }
    requires low { 1 ≤ position }
    requires high { position ≤ size array.now.shape }
    ensures is { result ≡ get_or (patched array.now patch.now).items (position - 1) (fill array.now.item_type) }
    ensures typed { type_of result ≡ array.now.item_type }
{
    let index = index_of_position(array.shape(), position);
    match at_patched(array, patch, index.as_slice()) {
        Some(item) => item,
        None => array.item_type().fill(),
    }
}

/// Returns the item at a place of a grown array, counted from 1.
#[inline(never)]
#[tactic(auto, using(crate::proofs::Grown::item_before, crate::proofs::Grown::item_behind))]
fn item_grown(array: &Array, tail: &Tail, position: u32) -> Item
    requires fits { FitsTail array.now tail.now }
    requires low { 1 ≤ position }
    requires high { position ≤ length (grown_by array.now tail.now.items).items }
    ensures is { result ≡ get_or (grown_by array.now tail.now.items).items (position - 1) (fill array.now.item_type) }
    ensures typed { type_of result ≡ array.now.item_type }
{
    let places = size(array.shape().as_slice());
    if position <= places {
        return array.item(position);
    }
    tail.item(position - places - 1)
}

/// Returns the item at an index list of a grown array.
fn at_grown(array: &Array, tail: &Tail, index: &[u32]) -> Option<Item>
    requires { FitsTail array.now tail.now }
    ensures is { result ≡ item_if_there (grown_by array.now tail.now.items) index.now }
    ensures typed { IfSome result (λ x. type_of x ≡ array.now.item_type) }
{
    // The contract of `shape` states that this is an array.
    let _is_array = array.shape();
    if is_index_of(tail.shape().as_slice(), index) {
        Some(item_grown(array, tail, position(tail.shape(), index)))
    } else {
        None
    }
}

impl<'a> Seen<'a> {
    /// Views an array unchanged.
    pub fn plain(array: &'a Array) -> Seen<'a>
        ensures { result ≡ array.now }
    {
        let _sound = array.shape();
        Seen {
            array,
            laid: Laid::Nothing,
        }
    }

    /// Views an array with a patch over it.
    #[tactic(auto, using(crate::proofs::Patched::patched_sound))]
    pub fn patched(array: &'a Array, patch: &'a Patch) -> Seen<'a>
        requires { FitsPatch array.now patch.now }
        ensures { result ≡ patched array.now patch.now }
    {
        let _sound = array.shape();
        let _patch = patch.item_type();
        Seen {
            array,
            laid: Laid::Over(patch),
        }
    }

    /// Views an array grown by a tail: its first axis has one more place, with the items of the tail.
    #[tactic(auto, using(crate::proofs::Grown::tail_sound))]
    pub fn grown(array: &'a Array, tail: &'a Tail) -> Seen<'a>
        requires { FitsTail array.now tail.now }
        ensures { result ≡ grown_by array.now tail.now.items }
    {
        let _sound = array.shape();
        let _tail = tail.shape();
        Seen {
            array,
            laid: Laid::Behind(tail),
        }
    }

    /// Reborrows the view.
    pub fn again<'b>(&'b self) -> Seen<'b>
        ensures { result ≡ self.now }
    {
        Seen {
            array: self.array,
            laid: self.laid,
        }
    }

    /// Returns the array if it is viewed unchanged.
    pub fn array(&self) -> Option<&'a Array>
        ensures { IfSome result (λ a. a.now ≡ self.now) }
    {
        match self.laid {
            Laid::Nothing => Some(self.array),
            Laid::Over(_) | Laid::Behind(_) => None,
        }
    }

    /// Returns the type of the items.
    pub fn item_type(&self) -> ItemType
        ensures is { result ≡ self.now.item_type }
        ensures sound { IsArray self.now }
    {
        self.array.item_type()
    }

    /// Returns the lengths of the axes.
    pub fn shape(&self) -> &Shape
        ensures is { result.now.items ≡ self.now.shape }
        ensures inline { result.now.capacity ≡ 4 }
        ensures sound { IsArray self.now }
    {
        match self.laid {
            Laid::Nothing | Laid::Over(_) => self.array.shape(),
            Laid::Behind(tail) => tail.shape(),
        }
    }

    /// Returns the number of items.
    pub fn places(&self) -> u32
        ensures is { result ≡ length self.now.items }
        ensures size { result ≡ size self.now.shape }
        ensures sound { IsArray self.now }
    {
        size(self.shape().as_slice())
    }

    /// Returns the item at an index list; None if the rank differs or an index is below 1 or beyond its axis.
    pub fn at(&self, index: &[u32]) -> Option<Item>
        ensures is { result ≡ item_if_there self.now index.now }
        ensures typed { IfSome result (λ x. type_of x ≡ self.now.item_type) }
    {
        match self.laid {
            Laid::Nothing => self.array.at(index),
            Laid::Over(patch) => at_patched(self.array, patch, index),
            Laid::Behind(tail) => at_grown(self.array, tail, index),
        }
    }

    /// Returns the item at a place in row-major order, counted from 1.
    pub fn item(&self, position: u32) -> Item
        requires low { 1 ≤ position }
        requires high { position ≤ length self.now.items }
        ensures is { result ≡ get_or self.now.items (position - 1) (fill self.now.item_type) }
        ensures typed { type_of result ≡ self.now.item_type }
    {
        match self.laid {
            Laid::Nothing => self.array.item(position),
            Laid::Over(patch) => item_patched(self.array, patch, position),
            Laid::Behind(tail) => item_grown(self.array, tail, position),
        }
    }

    /// Returns the number at a place in row-major order, counted from 1; 0 for a character.
    pub fn number(&self, position: u32) -> i64
        requires low { 1 ≤ position }
        requires high { position ≤ length self.now.items }
        ensures { result ≡ get_or (numbers self.now) (position - 1) (pos 0) }
    {
        match self.item(position) {
            Item::Num(number) => number,
            Item::Char(_) => 0,
        }
    }

    /// Borrows the numbers in row-major order; None for characters, and for a patched or grown array.
    pub fn numbers(&self) -> Option<&[i64]>
        ensures is { IfSome result (λ s. (self.now.item_type ≡ Nums) × (self.now.items ≡ map (λ z. Num z) s.now)) }
    {
        self.array()?.numbers()
    }

    /// Borrows the characters in row-major order; None for numbers, and for a patched or grown array.
    pub fn characters(&self) -> Option<&[char]>
        ensures is { IfSome result (λ s. (self.now.item_type ≡ Chars) × (self.now.items ≡ map (λ c. Char c) s.now)) }
    {
        self.array()?.characters()
    }

    /// Copies the array and applies its patch or tail.
    pub fn copy(&self) -> Result<Array, AllocError>
        ensures { IfOk result (λ a. a ≡ self.now) }
    {
        match self.laid {
            Laid::Nothing => self.array.copy(),
            Laid::Over(patch) => {
                let mut array = self.array.copy()?;
                patch.write_into(&mut array);
                Ok(array)
            }
            Laid::Behind(tail) => tail.grown(self.array),
        }
    }

    /// Returns a run of items after the first `skipped` ones, in a given shape. Copies a patched or grown array first.
    pub fn part(&self, skipped: u32, shape: &Shape) -> Result<Array, AllocError>
        requires within { IsWithinLimits shape.now.items }
        requires inside { skipped + size shape.now.items ≤ length self.now.items }
        ensures { IfOk result (λ a. a ≡ record {
          item_type = self.now.item_type;
          shape = shape.now.items;
          items = take (size shape.now.items) (drop skipped self.now.items);
        }) }
    {
        match self.array() {
            Some(array) => array.part(skipped, shape),
            None => self.copy()?.part(skipped, shape),
        }
    }

    /// Joins the items of two arrays of one type, in a given shape. Copies both if one is patched or grown.
    pub fn joined(&self, other: &Seen, shape: &Shape) -> Result<Array, AllocError>
        requires within { IsWithinLimits shape.now.items }
        requires one_item_a_place { length self.now.items + length other.now.items ≡ size shape.now.items }
        requires typed { self.now.item_type ≡ other.now.item_type }
        ensures { IfOk result (λ a. a ≡ record {
          item_type = self.now.item_type;
          shape = shape.now.items;
          items = self.now.items ++ other.now.items;
        }) }
    {
        match (self.array(), other.array()) {
            (Some(left), Some(right)) => left.joined(right, shape),
            _ => {
                let left = self.copy()?;
                let right = other.copy()?;
                left.joined(&right, shape)
            }
        }
    }

    /// Returns the items at given offsets in row-major order, in a given shape, with fill for offsets out of range. Copies a patched or
    /// grown array first.
    pub fn picked(&self, before: &[u32], shape: &Shape) -> Result<Array, AllocError>
        requires within { IsWithinLimits shape.now.items }
        requires one_item_a_place { length before.now ≡ size shape.now.items }
        ensures { IfOk result (λ a. a ≡ record {
          item_type = self.now.item_type;
          shape = shape.now.items;
          items = map (λ k. get_or self.now.items k (fill self.now.item_type)) before.now;
        }) }
    {
        match self.array() {
            Some(array) => array.picked(before, shape),
            None => self.copy()?.picked(before, shape),
        }
    }

    /// Tests whether a number is negative.
    pub fn has_negative(&self) -> bool
        ensures { result ≡ not (none_negative (numbers self.now)) }
    {
        if let Some(numbers) = self.numbers() {
            return !are_none_negative(numbers);
        }
        for place in 0..self.places() {
            if self.number(place + 1) < 0 {
                return true;
            }
        }
        false
    }

    /// Tests whether the items are numbers, or there are none. Functions on numbers fail with DOMAIN ERROR otherwise.
    pub fn counts_as_numbers(&self) -> bool
        ensures { result ≡ counts_as_numbers self.now }
    {
        self.item_type() == ItemType::Nums || self.places() == 0
    }
}
