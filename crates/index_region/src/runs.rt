//! Runs of items of a view. A patched or grown view is copied whole for each run: copy it first if you need many.

ghost use Rattle.std.specs.Prelude.{◌≡◌, ◌≤◌, ◌<◌, ◌+◌, ◌-◌, ◌*◌, ◌++◌, ℕ, pos, unsigned_abs, OnOk, length, get_or};
ghost use Rattle.arrays_core.specs.Building.{listed};
ghost use Rattle.arrays_core.specs.Items.{fill};

use crate::seen::Seen;
use arrays_core::ArrayBuilder;
use std::alloc::AllocError;

impl<'a> Seen<'a> {
    /// Appends `count` items from the place `first` on to items of the same type. Places are counted from 0.
    pub fn extend_run(
        &self,
        items: &mut ArrayBuilder,
        first: u32,
        count: u32,
    ) -> Result<(), AllocError>
        requires typed { self.now.item_type ≡ items.old.item_type }
        requires inside { first + count ≤ length self.now.items }
        ensures items { OnOk result (items.new.items ≡ items.old.items ++ listed count (λ k. get_or self.now.items (first + k) (fill self.now.item_type))) }
        ensures typed { items.new.item_type ≡ items.old.item_type }
    {
        match self.array() {
            Some(array) => items.extend_run(array, first, count),
            None => items.extend_run(&self.copy()?, first, count),
        }
    }

    /// Appends `count` items from the place `last` backwards to items of the same type. Places are counted from 0.
    pub fn extend_back(
        &self,
        items: &mut ArrayBuilder,
        last: u32,
        count: u32,
    ) -> Result<(), AllocError>
        requires typed { self.now.item_type ≡ items.old.item_type }
        requires low { count ≤ last + 1 }
        requires high { 0 < count → last < length self.now.items }
        ensures items { OnOk result (items.new.items ≡ items.old.items ++ listed count (λ k. get_or self.now.items (last - k) (fill self.now.item_type))) }
        ensures typed { items.new.item_type ≡ items.old.item_type }
    {
        match self.array() {
            Some(array) => items.extend_back(array, last, count),
            None => items.extend_back(&self.copy()?, last, count),
        }
    }

    /// Appends the items that are `step` places apart, from the place `first` on, to items of the same type. Places are counted from 0.
    pub fn extend_steps(
        &self,
        items: &mut ArrayBuilder,
        first: u32,
        step: u32,
        count: u32,
    ) -> Result<(), AllocError>
        requires typed { self.now.item_type ≡ items.old.item_type }
        requires inside { (k : ℕ) → k < count → first + k * step < length self.now.items }
        ensures items { OnOk result (items.new.items ≡ items.old.items ++ listed count (λ k. get_or self.now.items (first + k * step) (fill self.now.item_type))) }
        ensures typed { items.new.item_type ≡ items.old.item_type }
    {
        match self.array() {
            Some(array) => items.extend_steps(array, first, step, count),
            None => items.extend_steps(&self.copy()?, first, step, count),
        }
    }

    /// Appends the items at `indices`, counted from 1 after the first `before` places, to items of the same type. Ignores the sign of an
    /// index.
    pub fn extend_at(
        &self,
        items: &mut ArrayBuilder,
        before: u32,
        indices: &[i64],
    ) -> Result<(), AllocError>
        requires typed { self.now.item_type ≡ items.old.item_type }
        requires low { (k : ℕ) → k < length indices.now → 1 ≤ unsigned_abs (get_or indices.now k (pos 0)) }
        requires high { (k : ℕ) → k < length indices.now → before + unsigned_abs (get_or indices.now k (pos 0)) ≤ length self.now.items }
        ensures items { OnOk result (items.new.items ≡ items.old.items ++ listed (length indices.now) (λ k. get_or self.now.items (before + unsigned_abs (get_or indices.now k (pos 0)) - 1) (fill self.now.item_type))) }
        ensures typed { items.new.item_type ≡ items.old.item_type }
    {
        match self.array() {
            Some(array) => items.extend_at(array, before, indices),
            None => items.extend_at(&self.copy()?, before, indices),
        }
    }

    /// Appends the items at `places`, counted from 0 after the first `first` places, to items of the same type.
    pub fn extend_places(
        &self,
        items: &mut ArrayBuilder,
        first: u32,
        places: &[u32],
    ) -> Result<(), AllocError>
        requires typed { self.now.item_type ≡ items.old.item_type }
        requires inside { (k : ℕ) → k < length places.now → first + get_or places.now k 0 < length self.now.items }
        ensures items { OnOk result (items.new.items ≡ items.old.items ++ listed (length places.now) (λ k. get_or self.now.items (first + get_or places.now k 0) (fill self.now.item_type))) }
        ensures typed { items.new.item_type ≡ items.old.item_type }
    {
        match self.array() {
            Some(array) => items.extend_places(array, first, places),
            None => items.extend_places(&self.copy()?, first, places),
        }
    }
}
