//! Scalar functions of arrays.

ghost use Rattle.std.specs.Prelude.{◌≡◌, ◌≢◌, IsTrue, Ok, false, length, replicate};
ghost use Rattle.arrays_core.specs.Shapes.{size, is_index_of, IsWithinLimits, IsShapeAnswerTo};
ghost use Rattle.arrays_core.specs.Arrays.{IsAnswerTo, IsArray, item_of, scalar_of, with_items};
ghost use Rattle.arrays_core.specs.declared.item.ItemType.TheVariants.{Nums};
ghost use Rattle.scalar_fns.specs.ScalarExtension.{common, extended, monadic_on_array, dyadic_on_arrays};
ghost use Rattle.item_fns.specs.Items.{monadic_on_item, dyadic_on_items};
ghost use Rattle.scalar_fns.specs.Characters.{equality, told, answers_of};
ghost use Rattle.item_fns.specs.NumberLists.{monadic_results, dyadic_results, paired_length, number_items};
ghost use Rattle.arrays_core.specs.Items.{all_or_first_error};

use crate::characters::{equalities, tell};
use arrays_core::{
    ApplyFault, Array, Item, ItemFunction, ItemType, Kind, Shape, collect, position, repeated,
    shape_of, size,
};
use function_names::{Scalar1, Scalar2};
use index_region::Seen;
use item_fns::{on_number_lists, on_numbers, one, two};
use std::alloc::Global;

/// Returns the shape of a result of two arrays. Equal shapes are kept. An array of one item extends to the shape of the other; if both have
/// one item, the shape of greater rank counts. Fails with RANK if ranks differ, then with LENGTH if shapes differ. Allocates nothing.
pub fn common_shape(left: &Shape, right: &Shape) -> Result<Shape, Kind>
    requires left_within { IsWithinLimits left.now.items }
    requires right_within { IsWithinLimits right.now.items }
    ensures { IsShapeAnswerTo (common left.now.items right.now.items) result }
{
    let one_left = size(left.as_slice()) == 1;
    let one_right = size(right.as_slice()) == 1;
    let chosen = if one_left && one_right {
        if left.len() < right.len() {
            right
        } else {
            left
        }
    } else if one_left {
        right
    } else if one_right {
        left
    } else if left.len() != right.len() {
        return Err(Kind::Rank);
    } else if left.as_slice() != right.as_slice() {
        return Err(Kind::Length);
    } else {
        left
    };
    Ok(shape_of(*left.allocator(), chosen.as_slice()))
}

/// Returns the item of an array at an index list of the common shape.
pub(crate) fn extended_item(array: &Seen, index: &[u32]) -> Item
    requires { size array.now.shape ≢ 1 → IsTrue (is_index_of array.now.shape index.now) }
    ensures { result ≡ extended array.now index.now }
{
    // The contract of `shape` states that there is one item for each place.
    let shape = array.shape();
    if shape.len() != index.len() {
        return array.item(1);
    }
    match array.at(index) {
        Some(item) => item,
        None => array.item(1),
    }
}

/// A function with its two arguments and the shape of the result.
#[derive(Drop)]
struct Pairs<'a> {
    function: Scalar2,
    left: &'a Array,
    right: &'a Array,
    shape: &'a Shape,
    ghost left_fits: { size left.now.shape ≢ 1 → left.now.shape ≡ shape.now.items },
    ghost right_fits: { size right.now.shape ≢ 1 → right.now.shape ≡ shape.now.items },
}

impl<'a> ItemFunction for Pairs<'a> {
    ghost result_shape = { λ p. p.shape.now.items };

    ghost result_type = { λ p. Nums };

    ghost item = { λ p index. dyadic_on_items p.function (extended p.left.now index) (extended p.right.now index) };

    fn item_at(&self, index: &[u32]) -> Result<Item, Kind> {
        two(
            self.function,
            extended_item(&Seen::plain(self.left), index),
            extended_item(&Seen::plain(self.right), index),
        )
    }
}

/// A function with its argument.
#[derive(Drop)]
struct Items<'a> {
    function: Scalar1,
    array: &'a Array,
}

impl<'a> ItemFunction for Items<'a> {
    ghost result_shape = { λ p. p.array.now.shape };

    ghost result_type = { λ p. Nums };

    ghost item = { λ p index. monadic_on_item p.function (item_of p.array.now index) };

    fn item_at(&self, index: &[u32]) -> Result<Item, Kind> {
        let position = position(self.array.shape(), index);
        one(self.function, self.array.item(position))
    }
}

/// Applies a scalar function to an array of numbers, in one loop over its ravel.
fn apply_to_numbers(
    alloc: Global,
    function: Scalar1,
    shape: &Shape,
    numbers: &[i64],
) -> Result<Array, ApplyFault>
    requires within { IsWithinLimits shape.now.items }
    requires long { length numbers.now ≡ size shape.now.items }
    ensures { IsAnswerTo
        (with_items Nums shape.now.items (number_items (all_or_first_error (monadic_results function numbers.now)))) result }
{
    let results = on_numbers(alloc, function, numbers)?;
    Ok(Array::from_numbers(shape, results)?)
}

/// Applies a scalar function to two arrays of numbers, in one loop over their ravels.
fn apply_to_number_lists(
    alloc: Global,
    function: Scalar2,
    shape: &Shape,
    left: &[i64],
    right: &[i64],
) -> Result<Array, ApplyFault>
    requires within { IsWithinLimits shape.now.items }
    requires fit { length left.now ≢ 1 → length right.now ≢ 1 → length left.now ≡ length right.now }
    requires long { paired_length left.now right.now ≡ size shape.now.items }
    ensures { IsAnswerTo
        (with_items Nums shape.now.items (number_items (all_or_first_error (dyadic_results function left.now right.now)))) result }
{
    let results = on_number_lists(alloc, function, left, right)?;
    Ok(Array::from_numbers(shape, results)?)
}

/// Returns the result of `=` or `≠` for items that all differ: a character never equals a number.
fn unequal_items(alloc: Global, equal: bool, shape: &Shape) -> Result<Array, ApplyFault>
    requires { IsWithinLimits shape.now.items }
    ensures { IsAnswerTo (answers_of shape.now.items (replicate (size shape.now.items) (told equal false))) result }
{
    let places = size(shape.as_slice()) as usize;
    let answers = repeated(alloc, tell(equal, false), places)?;
    Ok(Array::from_numbers(shape, answers)?)
}

/// Compares two arrays that are not both of numbers, place by place, for `=` or `≠`.
fn equal_items(
    alloc: Global,
    equal: bool,
    left: &Array,
    right: &Array,
    shape: &Shape,
) -> Result<Array, ApplyFault>
    requires within { IsWithinLimits shape.now.items }
    requires shaped { common left.now.shape right.now.shape ≡ Ok shape.now.items }
    requires left_sound { IsArray left.now }
    requires right_sound { IsArray right.now }
    requires others { left.now.item_type ≡ Nums → right.now.item_type ≡ Nums → ⊥ }
    ensures { IsAnswerTo (dyadic_on_arrays (equality equal) left.now right.now) result }
{
    let places = size(shape.as_slice()) as usize;
    let Some(characters) = left.characters() else {
        return unequal_items(alloc, equal, shape);
    };
    let Some(others) = right.characters() else {
        return unequal_items(alloc, equal, shape);
    };
    let answers = equalities(alloc, equal, characters, others, places)?;
    Ok(Array::from_numbers(shape, answers)?)
}

/// Applies a scalar function to each item of an array (ISO/IEC 13751, "Monadic scalar functions"). The result has numbers in the shape of
/// the array. Fails with the first error of an item in row-major order.
pub fn apply_one(alloc: Global, function: Scalar1, array: &Array) -> Result<Array, ApplyFault>
    ensures { IsAnswerTo (monadic_on_array function array.now) result }
{
    let shape = array.shape();
    if let Some(numbers) = array.numbers() {
        return apply_to_numbers(alloc, function, shape, numbers);
    }
    let items = Items { function, array };
    collect(alloc, &items, ItemType::Nums, shape)
}

/// Applies a scalar function to an array and a number at its right, as `apply_two` does with a scalar. Builds no scalar if the array has
/// numbers.
pub fn apply_to_right(
    alloc: Global,
    function: Scalar2,
    left: &Array,
    right: i64,
) -> Result<Array, ApplyFault>
    ensures { IsAnswerTo (dyadic_on_arrays function left.now (scalar_of right)) result }
{
    match left.numbers() {
        Some(numbers) => apply_to_number_lists(alloc, function, left.shape(), numbers, &[right]),
        None => apply_two(alloc, function, left, &Array::scalar(alloc, right)?),
    }
}

/// Applies a scalar function to a number and an array at its right, as `apply_to_right` does with sides exchanged.
pub fn apply_to_left(
    alloc: Global,
    function: Scalar2,
    left: i64,
    right: &Array,
) -> Result<Array, ApplyFault>
    ensures { IsAnswerTo (dyadic_on_arrays function (scalar_of left) right.now) result }
{
    match right.numbers() {
        Some(numbers) => apply_to_number_lists(alloc, function, right.shape(), &[left], numbers),
        None => apply_two(alloc, function, &Array::scalar(alloc, left)?, right),
    }
}

/// Applies a scalar function to each pair of items of two arrays (ISO/IEC 13751, "Dyadic scalar functions"). The result has numbers in the
/// shape of `common_shape`. Fails with its RANK or LENGTH, then with the first error of an item in row-major order.
pub fn apply_two(
    alloc: Global,
    function: Scalar2,
    left: &Array,
    right: &Array,
) -> Result<Array, ApplyFault>
    ensures { IsAnswerTo (dyadic_on_arrays function left.now right.now) result }
{
    let shape = common_shape(left.shape(), right.shape())?;
    if let Some(numbers) = left.numbers() {
        if let Some(others) = right.numbers() {
            return apply_to_number_lists(alloc, function, &shape, numbers, others);
        }
    }
    match function {
        Scalar2::Equal => equal_items(alloc, true, left, right, &shape),
        Scalar2::NotEqual => equal_items(alloc, false, left, right, &shape),
        _ => {
            let pairs = Pairs {
                function,
                left,
                right,
                shape: &shape,
            };
            collect(alloc, &pairs, ItemType::Nums, &shape)
        }
    }
}
