//! Patches: new items for a box of an array.

ghost use Rattle.std.specs.Prelude.{◌≡◌, ◌-◌, ◌<◌, ◌∷◌, [], length, get_or, IsTrue, IfOk};
ghost use Rattle.arrays_core.specs.Items.{fill, type_of};
ghost use Rattle.index_region.specs.Boxes.{box_size, box_offset, is_within};
ghost use Rattle.index_region.specs.NewItems.{items_of, type_of_items};
ghost use Rattle.index_region.specs.Patches.{PatchValue, IsPatch, FitsPatch, patched};

use crate::index_box::IndexBox;
use crate::new_items::NewItems;
use arrays_core::{Array, Item, ItemType, position};
use std::alloc::AllocError;
use std::marker::Model;

/// New items for the places of a box, in row-major order.
#[derive(Drop)]
pub struct Patch {
    region: IndexBox,
    items: NewItems,
}

impl Model for Patch {
    ghost Value = { PatchValue };

    ghost view = { λ p. record { region = p.region; item_type = type_of_items p.items; items = items_of p.items } };

    ghost invariant = { λ p. length (items_of p.items) ≡ box_size p.region };
}

impl Patch {
    /// Makes a patch from a box and an array with as many items, in row-major order.
    pub fn of(region: IndexBox, values: Array) -> Patch
        requires { length values.items ≡ box_size region }
        ensures { result ≡ record { region = region; item_type = values.item_type; items = values.items } }
    {
        Patch {
            region,
            items: NewItems::Many(values),
        }
    }

    /// Makes a patch of one place. Allocates nothing.
    pub fn one(region: IndexBox, item: Item) -> Patch
        requires { box_size region ≡ 1 }
        ensures { result ≡ record { region = region; item_type = type_of item; items = item ∷ [] } }
    {
        Patch {
            region,
            items: NewItems::One(item),
        }
    }

    /// Copies the patch. Allocates only if an array holds the items.
    pub fn copy(&self) -> Result<Patch, AllocError>
        ensures { IfOk result (λ p. p ≡ self.now) }
    {
        Ok(Patch {
            region: self.region.copy(),
            items: self.items.copy()?,
        })
    }

    /// Borrows the box.
    pub fn region(&self) -> &IndexBox
        ensures { result.now ≡ self.now.region }
    {
        &self.region
    }

    /// Returns the type of the items.
    pub fn item_type(&self) -> ItemType
        ensures is { result ≡ self.now.item_type }
        ensures sound { IsPatch self.now }
    {
        let _region = &self.region;
        self.items.item_type()
    }

    /// Returns the new item at an index list of the box.
    pub fn item(&self, index: &[u32]) -> Item
        requires { IsTrue (is_within self.now.region index.now) }
        ensures is { result ≡ get_or self.now.items (box_offset self.now.region index.now) (fill self.now.item_type) }
        ensures typed { type_of result ≡ self.now.item_type }
    {
        if let Some(item) = self.items.only() {
            return item;
        }
        self.item_of_many(index)
    }

    /// Does the work of `item`. Not inlined: a single item needs no stack.
    #[inline(never)]
    fn item_of_many(&self, index: &[u32]) -> Item
        requires { IsTrue (is_within self.now.region index.now) }
        ensures is { result ≡ get_or self.now.items (box_offset self.now.region index.now) (fill self.now.item_type) }
        ensures typed { type_of result ≡ self.now.item_type }
    {
        // The contract of `count` implies that the offset fits into 32 bits.
        let _count = self.items.count();
        self.items.item(self.region.offset(index) as u32)
    }

    /// Writes the new items into an array that the patch fits.
    pub fn write_into(&self, array: &mut Array)
        requires { FitsPatch array.old self.now }
        ensures { array.new ≡ patched array.old self.now }
    {
        if let Some(item) = self.items.only() {
            self.write_only(item, array);
            return;
        }
        self.write_many(array);
    }

    /// Does the work of `write_into`. Not inlined: a single item needs less stack.
    #[inline(never)]
    fn write_many(&self, array: &mut Array)
        requires { FitsPatch array.old self.now }
        ensures { array.new ≡ patched array.old self.now }
    {
        let items = self.items.count();
        // The contract of `shape` states that the array has one item for each place.
        let _one_item_a_place = array.shape();
        let mut index = self.region.index_at(0);
        for before in 0..items {
            let place = position(array.shape(), index.as_slice());
            array.write_at(place, self.items.item(before));
            if before + 1 < items {
                self.region.advance(&mut index);
            }
        }
    }

    /// Writes the only new item into an array.
    fn write_only(&self, item: Item, array: &mut Array)
        requires fits { FitsPatch array.old self.now }
        requires only { self.now.items ≡ item ∷ [] }
        requires typed { type_of item ≡ self.now.item_type }
        ensures { array.new ≡ patched array.old self.now }
    {
        // The contract of `count` implies that the box has one place; that of `shape`, that the array has one item for each place.
        let _count = self.items.count();
        let _one_item_a_place = array.shape();
        let first = self.region.index_at(0);
        let place = position(array.shape(), first.as_slice());
        array.write_at(place, item);
    }
}
