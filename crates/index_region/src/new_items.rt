//! The new items of a patch or a tail.

ghost use Rattle.std.specs.Prelude.{◌≡◌, ◌<◌, ◌↔◌, ◌∷◌, [], All, length, get_or, map, IfOk, IfSome, IsNone};
ghost use Rattle.arrays_core.specs.Items.{fill, type_of};
ghost use Rattle.arrays_core.specs.declared.item.Item.TheVariants.{Num};
ghost use Rattle.arrays_core.specs.declared.item.ItemType.TheVariants.{Nums, Chars};
ghost use Rattle.index_region.specs.NewItems.{items_of, type_of_items};

use arrays_core::{Array, Item, ItemType, size};
use std::alloc::AllocError;
use std::slice;

/// New items in row-major order. A single item is stored inline.
#[derive(Drop)]
pub(crate) enum NewItems {
    One(Item),
    Many(Array),
}

impl NewItems {
    /// Copies the items.
    pub(crate) fn copy(&self) -> Result<NewItems, AllocError>
        ensures { IfOk result (λ items. items ≡ self.now) }
    {
        match self {
            NewItems::One(item) => Ok(NewItems::One(*item)),
            NewItems::Many(array) => Ok(NewItems::Many(array.copy()?)),
        }
    }

    /// Returns the type of the items.
    pub(crate) fn item_type(&self) -> ItemType
        ensures is { result ≡ type_of_items self.now }
        ensures sound { All (λ item. type_of item ≡ type_of_items self.now) (items_of self.now) }
    {
        match self {
            NewItems::One(item) => item.item_type(),
            NewItems::Many(array) => array.item_type(),
        }
    }

    /// Returns the number of items.
    pub(crate) fn count(&self) -> u32
        ensures { result ≡ length (items_of self.now) }
    {
        match self {
            NewItems::One(_) => 1,
            NewItems::Many(array) => {
                let _one_item_a_place = array.item_type();
                size(array.shape().as_slice())
            }
        }
    }

    /// Borrows the numbers; None for characters.
    pub(crate) fn numbers(&self) -> Option<&[i64]>
        ensures none { IsNone result ↔ (type_of_items self.now ≡ Chars) }
        ensures is { IfSome result (λ s. (type_of_items self.now ≡ Nums) × (items_of self.now ≡ map (λ z. Num z) s.now)) }
    {
        match self {
            NewItems::One(Item::Num(number)) => Some(slice::from_ref(number)),
            NewItems::One(Item::Char(_)) => None,
            NewItems::Many(array) => array.numbers(),
        }
    }

    /// Returns an item that is stored inline; None if an array holds the items.
    #[inline(always)]
    pub(crate) fn only(&self) -> Option<Item>
        ensures items { IfSome result (λ item. items_of self.now ≡ item ∷ []) }
        ensures typed { IfSome result (λ item. type_of_items self.now ≡ type_of item) }
    {
        match self {
            NewItems::One(item) => Some(*item),
            NewItems::Many(_) => None,
        }
    }

    /// Returns the item at an offset, counted from 0.
    pub(crate) fn item(&self, before: u32) -> Item
        requires { before < length (items_of self.now) }
        ensures is { result ≡ get_or (items_of self.now) before (fill (type_of_items self.now)) }
        ensures typed { type_of result ≡ type_of_items self.now }
    {
        match self {
            NewItems::One(item) => *item,
            NewItems::Many(array) => {
                let _within_limits = array.item_type();
                array.item(before + 1)
            }
        }
    }
}
