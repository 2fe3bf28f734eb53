//! Outer product: a function of each item of one array with each item of another.

ghost use Rattle.std.specs.Prelude.{◌≡◌, ◌<◌, ◌≤◌, ◌*◌, length, map, vec_len, IfOk, ◌∷◌, [], false};
ghost use Rattle.std.proofs.Common.{rules};
ghost use Rattle.arrays_core.specs.Limits.{most_places};
ghost use Rattle.arrays_core.specs.declared.item.Item.TheVariants.{Num};
ghost use Rattle.arrays_core.specs.declared.item.ItemType.TheVariants.{Nums};
ghost use Rattle.arrays_core.specs.Items.{all_or_first_error};
ghost use Rattle.arrays_core.specs.Arrays.{with_items, IsAnswerTo, IsArray};
ghost use Rattle.arrays_core.specs.Shapes.{size, IsWithinLimits};
ghost use Rattle.index_region.specs.ArgumentLists.{of_two_arguments};
ghost use Rattle.index_region.specs.Answers.{IsFormAnswerTo, IsPlaceOf, HasTypeOf};
ghost use Rattle.change_core.specs.Sourced.{uses_of_two};
ghost use Rattle.item_fns.specs.NumberLists.{number_items, IsListAnswerTo};
ghost use Rattle.operator_fns.specs.OuterResults.{outer_results, with_results, LeavesOrFails};
ghost use Rattle.operator_fns.specs.OuterProduct.{outer_form, outer_item, outer_whole, front_use, back_use};
ghost use Rattle.operator_fns.specs.Laws.OuterProduct.{outer_tight};
ghost use Rattle.operator_fns.specs.Laws.OuterProductGrowth.{outer_growing};
ghost use Rattle.operator_fns.specs.OuterProduct.{outer_grows};

use arrays_core::{
    ApplyFault, Array, Item, ItemType, Kind, MOST_AXES, Shape, append_axes, position, room_of,
    shape_of,
};
use change_core::Announced;
use index_region::{IndexBox, Intervals, Primitive, Seen, apply, limited};
use item_fns::kernels::TwoNumbers;
use item_fns::{Scalar2, WithFunction, two, with_function, with_left};
use std::alloc::Global;

/// The least length of a row that one call makes. A shorter one takes less time number by number.
pub(crate) const LONG: usize = 128;

/// Appends the results of a function for `left` with each number of `right`, number by number. Stops at the first error.
fn push_each<S: TwoNumbers>(
    row: &mut Vec<i64>,
    step: &S,
    left: i64,
    right: &[i64],
) -> Result<(), ApplyFault>
    ensures { LeavesOrFails (with_results row.old.items (map (S.gives step.now left) right.now)) row.new.items result }
{
    row.reserve(right.len())?;
    for number in right {
        let result = step.at(left, *number)?;
        row.push_reserved(result);
    }
    Ok(())
}

/// Appends the results of a function for `left` with each number of `right`, or returns the first error. A long row is one call, unless the function
/// has no step that is quicker than a check at each number.
fn push_row<S: TwoNumbers + Copy>(
    alloc: Global,
    row: &mut Vec<i64>,
    step: &S,
    left: i64,
    right: &[i64],
) -> Result<(), ApplyFault>
    ensures { LeavesOrFails (with_results row.old.items (map (S.gives step.now left) right.now)) row.new.items result }
{
    if right.len() < LONG || !step.has_step() {
        return push_each(row, step, left, right);
    }
    let results = with_left(alloc, *step, left, right)?;
    row.extend_from_slice(results.as_slice())?;
    Ok(())
}

/// Applies a function to each number of one list with each number of another.
fn outer_numbers<S: TwoNumbers + Copy>(
    alloc: Global,
    step: &S,
    left: &[i64],
    right: &[i64],
) -> Result<Vec<i64>, ApplyFault>
    requires few { length left.now * length right.now ≤ most_places }
    ensures is { IsListAnswerTo (all_or_first_error (outer_results (S.gives step.now) left.now right.now)) result }
    ensures long { IfOk result (λ v. vec_len v ≡ length left.now * length right.now) }
{
    let mut numbers = Vec::with_capacity(alloc, room_of(left.len() * right.len()))?;
    for number in left {
        push_row(alloc, &mut numbers, step, *number, right)?;
    }
    Ok(numbers)
}

/// Two lists of numbers and the shape of the result, for a function chosen at run time.
#[derive(Drop)]
struct OuterNumbers<'a> {
    alloc: Global,
    left: &'a [i64],
    right: &'a [i64],
    shape: &'a Shape,
    ghost within: { IsWithinLimits shape.now.items },
    ghost whole: { size shape.now.items ≡ length left.now * length right.now },
}

impl<'a> WithFunction for OuterNumbers<'a> {
    type Output = Result<Array, ApplyFault>;

    ghost makes = { λ o gives result. IsAnswerTo (with_items Nums o.shape.now.items (number_items (all_or_first_error (outer_results gives o.left.now o.right.now)))) result };

    fn with<S: TwoNumbers + Copy>(self, step: S) -> Result<Array, ApplyFault> {
        let numbers = outer_numbers(self.alloc, &step, self.left, self.right)?;
        Ok(Array::from_numbers(self.shape, numbers)?)
    }
}

/// Outer product, `A∘.fB` (ISO/IEC 13751, "Outer Product"): the result has A's axes, then B's. Each item is f of an item of A and one of B. The
/// result is of numbers. Fails with LIMIT beyond the limits of arrays, or with the error of the first place in row-major order where f fails.
#[derive(Clone, Copy, PartialEq, Eq, Debug)]
pub struct Outer {
    /// The function that is applied to each pair of items.
    pub function: Scalar2,
}

impl Outer {
    /// Checks the limits; returns the shape and the item type of the result.
    fn form(self, left: &Seen, right: &Seen) -> Result<(Shape, ItemType), Kind>
        ensures is { IsFormAnswerTo (outer_form left.now right.now) result }
        ensures left_sound { IsArray left.now }
        ensures right_sound { IsArray right.now }
    {
        let (front, back) = (left.shape(), right.shape());
        if front.len() + back.len() > MOST_AXES {
            return Err(Kind::Limit);
        }
        let mut shape = shape_of(*front.allocator(), front.as_slice());
        append_axes(&mut shape, back.as_slice());
        limited(shape, ItemType::Nums)
    }

    /// Returns the item at an index list of the result.
    fn paired_at(self, left: &Seen, right: &Seen, index: &[u32]) -> Result<Item, Kind>
        requires { IsPlaceOf (outer_form left.now right.now) index.now }
        ensures is { result ≡ outer_item self.function left.now right.now index.now }
        ensures typed { IfOk result (HasTypeOf (outer_form left.now right.now)) }
    {
        let (front, back) = index.split_at(left.shape().len());
        let left_item = left.item(position(left.shape(), front));
        let right_item = right.item(position(right.shape(), back));
        two(self.function, left_item, right_item)
    }

    /// Applies the function to each item of A with each item of B. Reads numbers straight from the slices of the arguments if both have one.
    pub fn apply(&self, alloc: Global, args: &[Seen]) -> Result<Array, ApplyFault>
        requires { length args.now ≡ 2 }
        ensures { IsAnswerTo (of_two_arguments (outer_whole self.now.function) args.now) result }
    {
        match (args[0].numbers(), args[1].numbers()) {
            (Some(numbers), Some(others)) => {
                self.of_numbers(alloc, &args[0], &args[1], numbers, others)
            }
            _ => apply(alloc, self, args),
        }
    }

    /// Applies the function to each number of A with each number of B.
    fn of_numbers(
        self,
        alloc: Global,
        left: &Seen,
        right: &Seen,
        numbers: &[i64],
        others: &[i64],
    ) -> Result<Array, ApplyFault>
        requires numbers { left.now.items ≡ map (λ z. Num z) numbers.now }
        requires others { right.now.items ≡ map (λ z. Num z) others.now }
        ensures { IsAnswerTo (outer_whole self.function left.now right.now) result }
    {
        let (shape, _) = self.form(left, right)?;
        let outer = OuterNumbers {
            alloc,
            left: numbers,
            right: others,
            shape: &shape,
        };
        with_function(self.function, outer)
    }
}

impl Primitive for Outer {
    ghost arity = { λ _. 2 };

    ghost form = { λ _ args. of_two_arguments outer_form args };

    ghost item = { λ o args index. of_two_arguments (λ a b. outer_item o.function a b index) args };

    fn shape_of(&self, args: &[Seen]) -> Result<(Shape, ItemType), Kind> {
        self.form(&args[0], &args[1])
    }

    fn item_at(&self, args: &[Seen], index: &[u32]) -> Result<Item, Kind> {
        self.paired_at(&args[0], &args[1], index)
    }
}

impl Announced for Outer {
    ghost selectors = { λ _. false ∷ false ∷ [] };

    ghost uses = { λ _ shape args. uses_of_two front_use back_use shape args };

    ghost growth = { λ _. outer_grows };

    fn grows(&self, _args: &[Seen], grown: &[bool]) -> bool {
        grown[0] && !grown[1]
    }

    fn selects(&self, _which: usize) -> bool {
        false
    }

    fn box_of(
        &self,
        args: &[Seen],
        _shape: &[u32],
        which: usize,
        region: &IndexBox,
    ) -> Option<Intervals> {
        let intervals = if which == 0 {
            Intervals::of(region.as_slice()).and_whole(args[1].shape().as_slice())
        } else {
            Intervals::whole(args[0].shape().as_slice()).and_all(region.as_slice())
        };
        Some(intervals)
    }

    fn whole(&self, alloc: Global, args: &[Seen]) -> Result<Array, ApplyFault> {
        self.apply(alloc, args)
    }

    ghost counted = { λ _. Prim.search rules };

    ghost tight = { λ o. outer_tight o.function };

    ghost growing = { λ o. outer_growing o.function };
}
