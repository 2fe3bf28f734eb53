//! Lists of items of one type.

ghost use Rattle.std.specs.Prelude.{◌≡◌, ◌∷◌, ◌++◌, [], IfOk, OnOk, replicate};
ghost use Rattle.arrays_core.specs.Items.{fill, type_of};
ghost use Rattle.arrays_core.specs.Ravels.{list_items, list_type, list_capacity};

use crate::item::{Item, ItemType};
use crate::room::repeated;
use std::alloc::{AllocError, Global};

/// A list of items: numbers take eight bytes each, characters four.
#[derive(Drop)]
pub(crate) enum ItemList {
    Nums(Vec<i64>),
    Chars(Vec<char>),
}

impl ItemList {
    /// Returns a list of fill items.
    pub(crate) fn filled(
        alloc: Global,
        item_type: ItemType,
        places: usize,
    ) -> Result<ItemList, AllocError>
        ensures items { IfOk result (λ l. list_items l ≡ replicate places (fill item_type)) }
        ensures typed { IfOk result (λ l. list_type l ≡ item_type) }
    {
        match item_type {
            ItemType::Nums => Ok(ItemList::Nums(repeated(alloc, 0, places)?)),
            ItemType::Chars => Ok(ItemList::Chars(repeated(alloc, ' ', places)?)),
        }
    }

    /// Returns an empty list with this capacity.
    pub(crate) fn with_capacity(
        alloc: Global,
        item_type: ItemType,
        places: usize,
    ) -> Result<ItemList, AllocError>
        ensures items { IfOk result (λ l. list_items l ≡ []) }
        ensures typed { IfOk result (λ l. list_type l ≡ item_type) }
        ensures room { IfOk result (λ l. list_capacity l ≡ places) }
    {
        match item_type {
            ItemType::Nums => Ok(ItemList::Nums(Vec::with_capacity(alloc, places)?)),
            ItemType::Chars => Ok(ItemList::Chars(Vec::with_capacity(alloc, places)?)),
        }
    }

    /// Appends an item.
    pub(crate) fn push(&mut self, item: Item) -> Result<(), AllocError>
        requires { type_of item ≡ list_type self.old }
        ensures items { OnOk result (list_items self.new ≡ list_items self.old ++ item ∷ []) }
        ensures typed { list_type self.new ≡ list_type self.old }
    {
        match self {
            ItemList::Nums(numbers) => {
                if let Item::Num(number) = item {
                    numbers.push(number)?;
                }
            }
            ItemList::Chars(characters) => {
                if let Item::Char(character) = item {
                    characters.push(character)?;
                }
            }
        }
        Ok(())
    }
}
