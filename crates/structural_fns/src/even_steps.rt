//! Rows of items that are evenly spaced in an array.

ghost use Rattle.std.specs.Prelude.{◌≡◌, ◌<◌, ◌+◌, ◌*◌, ◌++◌, ℕ, OnOk, length, get_or};
ghost use Rattle.arrays_core.specs.Building.{listed};
ghost use Rattle.arrays_core.specs.Items.{fill};

use arrays_core::ArrayBuilder;
use index_region::Seen;
use std::alloc::AllocError;

/// Appends `count` items, `step` places apart, from the place `first` on. Step 0 repeats one item; step 1 copies a run. Places are counted
/// from 0.
pub fn extend_evenly(
    array: &Seen,
    first: u32,
    step: u32,
    count: u32,
    items: &mut ArrayBuilder,
) -> Result<(), AllocError>
    requires some { 0 < count }
    requires typed { array.now.item_type ≡ items.old.item_type }
    requires inside { (k : ℕ) → k < count → first + k * step < length array.now.items }
    ensures items { OnOk result (items.new.items ≡ items.old.items ++ listed count (λ k. get_or array.now.items (first + k * step) (fill array.now.item_type))) }
    ensures typed { items.new.item_type ≡ items.old.item_type }
{
    let _sound = array.shape();
    if step == 0 {
        return items.extend_with(array.item(first + 1), count);
    }
    if step == 1 {
        return array.extend_run(items, first, count);
    }
    array.extend_steps(items, first, step, count)
}
