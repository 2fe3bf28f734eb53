//! Arrays of numbers from a function of the place, without index lists.

ghost use Rattle.std.specs.Prelude.{◌≡◌, ◌<◌, ℕ, ℤ, Result, map, IfOk, vec_len};
ghost use Rattle.std.specs.List.{range_with_len};
ghost use Rattle.arrays_core.specs.declared.item.ItemType.TheVariants.{Nums};
ghost use Rattle.arrays_core.specs.declared.item.Kind.{Kind as AKind};
ghost use Rattle.arrays_core.specs.Items.{all_or_first_error};
ghost use Rattle.arrays_core.specs.Shapes.{size, places_before, IsWithinLimits};
ghost use Rattle.arrays_core.specs.Arrays.{collect, with_items, IsAnswerTo};
ghost use Rattle.item_fns.specs.Items.{number_item};
ghost use Rattle.item_fns.specs.NumberLists.{number_items, IsListAnswerTo};

use arrays_core::{ApplyFault, Array, Kind, Shape, room_of, size};
use std::alloc::Global;

/// A function that computes the number at each place of a result. A place counts from 0 in row-major order.
pub trait NumberFunction {
    ghost places: { Self → ℕ };

    ghost number: { Self → ℕ → Result ℤ AKind };

    /// Returns the number at a place, or its error.
    fn number_at(&self, place: usize) -> Result<i64, Kind>
        requires { place < places self.now }
        ensures { result ≡ number self.now place };
}

/// Collects the numbers at places 0 to `places - 1`, or returns the error of the first place that fails.
fn numbers_of<F: NumberFunction>(
    alloc: Global,
    function: &F,
    places: usize,
) -> Result<Vec<i64>, ApplyFault>
    requires { places ≡ F.places function.now }
    ensures is { IsListAnswerTo (all_or_first_error (map (F.number function.now) (range_with_len 0 places))) result }
    ensures long { IfOk result (λ v. vec_len v ≡ places) }
{
    let mut numbers = Vec::with_capacity(alloc, room_of(places))?;
    for place in 0..places {
        let number = function.number_at(place)?;
        numbers.push(number)?;
    }
    Ok(numbers)
}

/// Collects the numbers into an array of this shape.
fn array_of<F: NumberFunction>(
    alloc: Global,
    function: &F,
    shape: &Shape,
) -> Result<Array, ApplyFault>
    requires within { IsWithinLimits shape.now.items }
    requires shaped { size shape.now.items ≡ F.places function.now }
    ensures { IsAnswerTo (with_items Nums shape.now.items (number_items (all_or_first_error (map (F.number function.now) (range_with_len 0 (size shape.now.items)))))) result }
{
    let numbers = numbers_of(alloc, function, size(shape.as_slice()) as usize)?;
    Ok(Array::from_numbers(shape, numbers)?)
}

/// Collects the numbers into an array, or returns the error of the first place in row-major order that fails.
pub fn collect_numbers<F: NumberFunction>(
    alloc: Global,
    function: &F,
    shape: &Shape,
) -> Result<Array, ApplyFault>
    requires within { IsWithinLimits shape.now.items }
    requires shaped { size shape.now.items ≡ F.places function.now }
    ensures { IsAnswerTo (collect Nums shape.now.items (λ index. number_item (F.number function.now (places_before shape.now.items index)))) result }
{
    array_of(alloc, function, shape)
}
