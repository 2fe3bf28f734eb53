//! The digits in a box of the result of encode, in one pass over the radices.

ghost use Rattle.std.specs.Prelude.{◌≡◌, ◌<◌, ◌≤◌, ◌++◌, length, drop, IfSome, IsTrue, Ok};
ghost use Rattle.arrays_core.specs.Limits.{most_places};
ghost use Rattle.arrays_core.specs.declared.item.ItemType.TheVariants.{Nums};
ghost use Rattle.arrays_core.specs.Arrays.{IsAnswerTo, IsArray};
ghost use Rattle.arrays_core.specs.Shapes.{IsWithinLimits};
ghost use Rattle.change_core.specs.Parts.{HoldsItems, items_in};
ghost use Rattle.index_region.specs.Boxes.{box_size, fits};
ghost use Rattle.search_fns.specs.Encode.{encode_item, encode_whole};
ghost use Rattle.search_fns.specs.Digits.{AreColumns};

use crate::encode::Encode;
use arrays_core::{ApplyFault, Array, ItemType, shape_of};
use index_region::{IndexBox, Seen};
use std::alloc::Global;

/// Returns the numbers of an array in a box, as a vector. The box is `region` without its first interval. None where
/// the array is of characters, or an allocation fails.
fn column_numbers(alloc: Global, array: &Seen, region: &IndexBox, columns: u32) -> Option<Array>
    requires axes { 0 < length region.now }
    requires row { columns ≡ box_size (drop 1 region.now) }
    requires some { 0 < columns }
    requires within { columns ≤ box_size region.now }
    requires few { box_size region.now ≤ most_places }
    ensures { IfSome result (AreColumns array.now (drop 1 region.now)) }
{
    if array.item_type() != ItemType::Nums {
        return None;
    }
    let shape = shape_of(alloc, &[columns]);
    let Ok(mut numbers) = Array::filled(alloc, ItemType::Nums, &shape) else {
        return None;
    };
    let mut index = region.index_at(0);
    for column in 0..columns {
        let item = array.at(&index.as_slice()[1..])?;
        numbers.write_at(column + 1, item);
        region.advance(&mut index);
    }
    Some(numbers)
}

/// Returns the digits of numbers.
fn encoded(alloc: Global, radices: &Array, numbers: &Array) -> Result<Array, ApplyFault>
    ensures { IsAnswerTo (encode_whole radices.now numbers.now) result }
{
    let args = [Seen::plain(radices), Seen::plain(numbers)];
    Encode.apply(alloc, &args)
}

/// Returns the digits in a box of the result, by a vector of radices. None where the array is of characters, a quotient
/// is beyond 64 bits, or an allocation fails.
pub(crate) fn digits_at_once(
    alloc: Global,
    radices: &Seen,
    array: &Seen,
    region: &IndexBox,
) -> Option<Array>
    requires vector { length radices.now.shape ≡ 1 }
    requires sound { IsArray radices.now }
    requires within { IsWithinLimits (radices.now.shape ++ array.now.shape) }
    requires fit { IsTrue (fits region.now (radices.now.shape ++ array.now.shape)) }
    ensures { IfSome result (λ a. HoldsItems Nums (items_in (encode_item radices.now array.now) region.now) (Ok a)) }
{
    let (first, last) = region.as_slice()[0];
    let places = region.size() as u32;
    let columns = places / (last + 1 - first);
    let numbers = column_numbers(alloc, array, region, columns)?;
    let left = shape_of(alloc, &[radices.places() + 1 - first]);
    let Ok(after) = radices.part(first - 1, &left) else {
        return None;
    };
    let Ok(digits) = encoded(alloc, &after, &numbers) else {
        return None;
    };
    let shape = shape_of(alloc, &[places]);
    let Ok(digits) = digits.part(0, &shape) else {
        return None;
    };
    Some(digits)
}
