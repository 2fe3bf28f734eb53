//! Tails: the items of one more place at the end of the first axis of an array.

ghost use Rattle.std.specs.Prelude.{◌≡◌, ◌-◌, ◌<◌, ◌≤◌, ◌↔◌, ◌∷◌, [], ℕ, length, map, get_or, IfOk, IfSome, IsNone};
ghost use Rattle.arrays_core.specs.Growth.{grown_by, HasRoom};
ghost use Rattle.arrays_core.specs.Items.{fill, type_of};
ghost use Rattle.arrays_core.specs.Limits.{most_places};
ghost use Rattle.arrays_core.specs.Shapes.{IsWithinLimits, size};
ghost use Rattle.arrays_core.specs.declared.item.Item.TheVariants.{Num};
ghost use Rattle.arrays_core.specs.declared.item.ItemType.TheVariants.{Nums, Chars};
ghost use Rattle.index_region.specs.Tails.{FitsTail, IsTail, IsRoomBehind};

use crate::new_items::NewItems;
use arrays_core::{Array, Item, ItemType, Room, Shape, is_same_room, shape_of, size};
use std::alloc::{AllocError, Global};
use std::marker::Model;

/// The growth of an array by one place of its first axis: the items of that place in row-major order, and the new shape. A tail owns the
/// memory that the array may need, so that growing allocates nothing.
#[derive(Drop)]
pub struct Tail {
    shape: Shape,
    items: NewItems,
    /// Memory for all items of the grown array; None if the new items fit into its present memory.
    room: Option<Box<Room>>,
}

impl Model for Tail {
    ghost use Rattle.std.specs.Prelude.{length};
    ghost use Rattle.index_region.specs.NewItems.{items_of, type_of_items};
    ghost use Rattle.index_region.specs.Tails.{TailValue, IsTailOf};

    ghost Value = { TailValue };

    ghost view = { λ t. record { item_type = type_of_items t.items; shape = t.shape.items; items = items_of t.items } };

    ghost invariant = { λ t. IsTailOf t.shape.capacity t.shape.items (type_of_items t.items) (length (items_of t.items)) t.room };
}

/// Allocates memory for `places` items, of which `held` are in the array. Returns None, and allocates nothing, if they fit into its memory.
fn room_behind(
    alloc: Global,
    item_type: ItemType,
    held: usize,
    places: usize,
) -> Result<Option<Box<Room>>, AllocError>
    requires { places ≤ most_places }
    ensures { IfOk result (IsRoomBehind item_type held places) }
{
    if is_same_room(held, places) {
        return Ok(None);
    }
    let room = Room::between(alloc, item_type, held, places)?;
    Ok(Some(Box::new(alloc, room)?))
}

/// Returns the memory that was brought, or none. Allocates nothing.
fn brought(alloc: Global, item_type: ItemType, room: Option<Box<Room>>) -> Room
    ensures { (held items : ℕ) → IsRoomBehind item_type held items room → (result.item_type ≡ item_type) × HasRoom held items result.places }
{
    match room {
        Some(room) => Box::into_inner(room),
        None => Room::none(alloc, item_type),
    }
}

impl Tail {
    /// Makes a tail from an array of any shape. The new shape is inline and within the limits. Fails if the allocator refuses memory.
    pub fn of(shape: Shape, values: Array) -> Result<Tail, AllocError>
        requires inline { shape.capacity ≡ 4 }
        requires within { IsWithinLimits shape.items }
        ensures { IfOk result (λ t. t ≡ record { item_type = values.item_type; shape = shape.items; items = values.items }) }
    {
        let more = size(values.shape().as_slice());
        let places = size(shape.as_slice()) as usize;
        let held = places.saturating_sub(more as usize);
        let room = room_behind(*shape.allocator(), values.item_type(), held, places)?;
        Ok(Tail {
            shape,
            items: NewItems::Many(values),
            room,
        })
    }

    /// Makes a tail of one item. The new shape is inline and within the limits. Allocates only if the array needs larger memory for its
    /// items.
    #[inline(always)]
    pub fn one(shape: Shape, item: Item) -> Result<Tail, AllocError>
        requires inline { shape.capacity ≡ 4 }
        requires within { IsWithinLimits shape.items }
        ensures { IfOk result (λ t. t ≡ record { item_type = type_of item; shape = shape.items; items = item ∷ [] }) }
    {
        let places = size(shape.as_slice()) as usize;
        let held = places.saturating_sub(1);
        let room = room_behind(*shape.allocator(), item.item_type(), held, places)?;
        Ok(Tail {
            shape,
            items: NewItems::One(item),
            room,
        })
    }

    /// Copies the tail.
    pub fn copy(&self) -> Result<Tail, AllocError>
        ensures { IfOk result (λ t. t ≡ self.now) }
    {
        let shape = shape_of(*self.shape.allocator(), self.shape().as_slice());
        match &self.items {
            NewItems::One(item) => Tail::one(shape, *item),
            NewItems::Many(values) => Tail::of(shape, values.copy()?),
        }
    }

    /// Returns the shape of the grown array.
    pub fn shape(&self) -> &Shape
        ensures is { result.now.items ≡ self.now.shape }
        ensures inline { result.now.capacity ≡ 4 }
        ensures sound { IsTail self.now }
    {
        // The contract of `item_type` states that all items have one type.
        let _one_type = self.items.item_type();
        &self.shape
    }

    /// Returns the type of the new items.
    pub fn item_type(&self) -> ItemType
        ensures { result ≡ self.now.item_type }
    {
        self.items.item_type()
    }

    /// Borrows the new numbers in row-major order; None for characters.
    pub fn numbers(&self) -> Option<&[i64]>
        ensures none { IsNone result ↔ (self.now.item_type ≡ Chars) }
        ensures is { IfSome result (λ s. (self.now.item_type ≡ Nums) × (self.now.items ≡ map (λ z. Num z) s.now)) }
    {
        self.items.numbers()
    }

    /// Returns the new item at an offset, counted from 0.
    pub(crate) fn item(&self, before: u32) -> Item
        requires { before < length self.now.items }
        ensures is { result ≡ get_or self.now.items before (fill self.now.item_type) }
        ensures typed { type_of result ≡ self.now.item_type }
    {
        self.items.item(before)
    }

    /// Returns a grown copy of an array.
    pub(crate) fn grown(&self, array: &Array) -> Result<Array, AllocError>
        requires { FitsTail array.now self.now }
        ensures { IfOk result (λ a. a ≡ grown_by array.now self.now.items) }
    {
        let mut grown = array.copy()?;
        self.copy()?.write_behind(&mut grown);
        Ok(grown)
    }

    /// Grows an array in place. Allocates nothing.
    #[inline(always)]
    #[tactic(auto, using(crate::proofs::Grown::grows_by))]
    pub fn write_behind(self, array: &mut Array)
        requires { FitsTail array.old self }
        ensures { array.new ≡ grown_by array.old self.items }
    {
        // The contracts of `shape` state that these are an array and a tail.
        let _is_array = array.shape();
        let _is_tail = self.shape();
        let Tail { shape, items, room } = self;
        let room = brought(*shape.allocator(), items.item_type(), room);
        match items {
            NewItems::One(item) => array.grow_by_one(room, item),
            NewItems::Many(values) => array.grow(room, &values),
        }
    }
}
