//! Right folds along lines.

ghost use Rattle.std.specs.Prelude.{◌≡◌, ◌<◌, ◌≤◌, ◌+◌, ◌-◌, ◌*◌, pos, length, map, IfOk, IsTrue, drop, take, remove, get_or};
ghost use Rattle.arrays_core.specs.Limits.{most_places};
ghost use Rattle.arrays_core.specs.Items.{fill, type_of};
ghost use Rattle.arrays_core.specs.declared.item.Item.TheVariants.{Num};
ghost use Rattle.arrays_core.specs.declared.item.ItemType.TheVariants.{Nums};
ghost use Rattle.arrays_core.specs.Shapes.{is_index_of, size, IsWithinLimits};
ghost use Rattle.item_fns.specs.Identities.{identity_of};
ghost use Rattle.item_fns.specs.Folds.{strided};
ghost use Rattle.index_region.specs.Arguments.{numbers};
ghost use Rattle.item_fns.specs.RightFold.{identity_item, fold_right};
ghost use Rattle.reduce_fns.specs.Lines.{line};

use arrays_core::{Item, Kind, position, size, with_axis};
use index_region::Seen;
use item_fns::{Scalar2, identity, two};
use std::alloc::{AllocError, Global};

/// Returns the fold of no items: the identity of the function, or DOMAIN if it has none.
pub fn identity_item(function: Scalar2) -> Result<Item, Kind>
    ensures is { result ≡ identity_item (identity_of function) }
    ensures typed { IfOk result (λ x. type_of x ≡ Nums) }
{
    match identity(function) {
        Some(number) => Ok(Item::Num(number)),
        None => Err(Kind::Domain),
    }
}

/// Folds `count` items of an array from the right. They are `stride` places apart; the first is at place `first`, counted from 1.
pub(crate) fn fold_items(
    function: Scalar2,
    array: &Seen,
    first: u32,
    stride: u32,
    count: u32,
) -> Result<Item, Kind>
    requires some { 1 ≤ count }
    requires low { 1 ≤ first }
    requires few { length array.now.items ≤ most_places }
    requires high { first + (count - 1) * stride ≤ length array.now.items }
    ensures is { result ≡ fold_right function (strided (fill array.now.item_type) array.now.items (first - 1) stride count) }
    ensures one { count ≡ 1 → IfOk result (λ x. type_of x ≡ array.now.item_type) }
    ensures several { 1 < count → IfOk result (λ x. type_of x ≡ Nums) }
{
    let mut result = array.item(first + (count - 1) * stride);
    for before in (0..count - 1).rev() {
        result = two(function, array.item(first + before * stride), result)?;
    }
    Ok(result)
}

/// Returns the distance between neighbours along an axis: the product of the lengths of the later axes.
pub fn stride(axes: &[u32], axis: usize) -> u32
    requires within { IsWithinLimits axes.now }
    requires there { axis < length axes.now }
    requires some { 0 < size axes.now }
    ensures is { result ≡ size (drop (axis + 1) axes.now) }
    ensures apart { 0 < result }
{
    let (_, later) = axes.split_at(axis + 1);
    size(later)
}

/// Copies `count` numbers of an array. They are `stride` places apart; the first is at place `first`, counted from 1.
fn numbers_apart(
    alloc: Global,
    array: &Seen,
    first: u32,
    stride: u32,
    count: u32,
) -> Result<Vec<i64>, AllocError>
    requires some { 1 ≤ count }
    requires low { 1 ≤ first }
    requires few { length array.now.items ≤ most_places }
    requires high { first + (count - 1) * stride ≤ length array.now.items }
    ensures { IfOk result (λ v. v.items ≡ strided (pos 0) (numbers array.now) (first - 1) stride count) }
{
    let mut numbers = Vec::with_capacity(alloc, count as usize)?;
    for before in 0..count {
        numbers.push_reserved(array.number(first + before * stride));
    }
    Ok(numbers)
}

/// Copies the first `count` numbers of the line along `axis` at the indices `index` of the other axes.
pub fn line_numbers(
    alloc: Global,
    array: &Seen,
    axis: usize,
    index: &[u32],
    count: u32,
) -> Result<Vec<i64>, AllocError>
    requires typed { array.now.item_type ≡ Nums }
    requires there { axis < length array.now.shape }
    requires inside { IsTrue (is_index_of (remove array.now.shape axis) index.now) }
    requires some { 1 ≤ count }
    requires few { count ≤ get_or array.now.shape axis 0 }
    ensures { IfOk result (λ v. map (λ z. Num z) v.items ≡ take count (line array.now axis index.now)) }
{
    let shape = array.shape();
    let first = with_axis(*shape.allocator(), index, axis, 1);
    let first_place = position(shape, first.as_slice());
    let apart = stride(shape.as_slice(), axis);
    numbers_apart(alloc, array, first_place, apart, count)
}

/// Folds the first `count` items of the line along `axis` at the indices `index` of the other axes, from the right.
pub fn fold_line(
    function: Scalar2,
    array: &Seen,
    axis: usize,
    index: &[u32],
    count: u32,
) -> Result<Item, Kind>
    requires there { axis < length array.now.shape }
    requires inside { IsTrue (is_index_of (remove array.now.shape axis) index.now) }
    requires some { 1 ≤ count }
    requires few { count ≤ get_or array.now.shape axis 0 }
    ensures is { result ≡ fold_right function (take count (line array.now axis index.now)) }
    ensures one { count ≡ 1 → IfOk result (λ x. type_of x ≡ array.now.item_type) }
    ensures several { 1 < count → IfOk result (λ x. type_of x ≡ Nums) }
{
    let shape = array.shape();
    let first = with_axis(*shape.allocator(), index, axis, 1);
    let first_place = position(shape, first.as_slice());
    fold_items(
        function,
        array,
        first_place,
        stride(shape.as_slice(), axis),
        count,
    )
}
