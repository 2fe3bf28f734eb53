//! Arrays of given numbers, with patches for them. Each call ends the test if it fails.

ghost use Rattle.std.specs.Prelude.{◌≡◌, length};
ghost use Rattle.arrays_core.specs.Shapes.{size as size_of};
ghost use Rattle.arrays_core.specs.declared.item.ItemType.TheVariants.{Nums};
ghost use Rattle.index_region.specs.Patches.{FitsPatch};

use arrays_core::{Array, Item, ItemType, is_within_limits, shape_of, size};
use index_region::{Delta, IndexBox, Patch};
use std::alloc::Global;
use std::process::Abort;

/// Returns the array of these numbers in row-major order.
pub(crate) fn array_of(rt: &impl Abort, alloc: Global, axes: &[u32], numbers: &[i64]) -> Array
    ensures typed { result.item_type ≡ Nums }
    ensures places { length result.items ≡ size_of axes.now }
{
    assert!(rt; is_within_limits(axes) && size(axes) as usize == numbers.len());
    let numbers = numbers.to_vec(alloc).expect(rt, "numbers");
    Array::from_numbers(&shape_of(alloc, axes), numbers).expect(rt, "an array")
}

/// Returns the patch of one item of an array.
#[tactic(auto, using(index_region::proofs::Patched::box_within_size))]
pub(crate) fn patch_of(
    rt: &impl Abort,
    alloc: Global,
    array: &Array,
    place: &[(u32, u32)],
    number: i64,
) -> Patch
    ensures { FitsPatch array.now result }
{
    let region = IndexBox::of(place).expect(rt, "a box");
    assert!(rt; array.item_type() == ItemType::Nums && region.lies_in(array.shape().as_slice()));
    assert!(rt; region.size() == 1);
    Patch::of(region, Array::scalar(alloc, number).expect(rt, "a number"))
}

/// Returns the item of a patch at an index list; none where the change is not a patch, or the list lies outside its box.
pub(crate) fn item_in(change: &Delta, index: &[u32]) -> Option<Item> {
    match change {
        Delta::Patch(patch) if patch.region().contains(index) => Some(patch.item(index)),
        _ => None,
    }
}
