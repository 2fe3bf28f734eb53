//! Reduction: the right fold of each line of an array.

ghost use Rattle.std.specs.Prelude.{◌≡◌, ◌<◌, length, map, IfOk, ◌∷◌, [], false};
ghost use Rattle.std.proofs.Common.{rules};
ghost use Rattle.arrays_core.specs.declared.item.Item.TheVariants.{Num};
ghost use Rattle.arrays_core.specs.declared.item.ItemType.TheVariants.{Nums};
ghost use Rattle.arrays_core.specs.Arrays.{IsAnswerTo};
ghost use Rattle.arrays_core.specs.Shapes.{size, IsWithinLimits};
ghost use Rattle.index_region.specs.ArgumentLists.{of_one_argument};
ghost use Rattle.index_region.specs.Answers.{IsFormAnswerTo, IsPlaceOf, HasTypeOf};
ghost use Rattle.change_core.specs.Sourced.{uses_of_one};
ghost use Rattle.item_fns.specs.Numbers.{dyadic_on_numbers};
ghost use Rattle.reduce_fns.specs.AxisLines.{fold_at, line_folds};
ghost use Rattle.reduce_fns.specs.Reduce.{reduce_form, reduce_item, reduce_whole, reduce_use};
ghost use Rattle.reduce_fns.specs.Laws.Reduce.{reduce_tight};
ghost use Rattle.reduce_fns.specs.Laws.LinesGrowth.{reduce_growing};
ghost use Rattle.reduce_fns.specs.Growth.{lines_grow};

use crate::axis_lines::AxisLines;
use crate::columns::column_folds;
use crate::later_axis::is_along_a_later_axis;
use crate::number_function::{NumberFunction, collect_numbers};
use crate::right_fold::{fold_line, identity_item};
use arrays_core::{ApplyFault, Array, Item, ItemType, Kind, Shape, shape_of, without_axis};
use change_core::Announced;
use index_region::{Along, IndexBox, Intervals, Primitive, Seen, apply, limited};
use item_fns::folds::fold_numbers;
use item_fns::kernels::TwoNumbers;
use item_fns::{Scalar2, WithFunction, with_function};
use std::alloc::Global;

/// Computes the fold of each line.
#[derive(Drop)]
struct LineFolds<'a, S> {
    step: &'a S,
    lines: AxisLines<'a>,
}

impl<'a, S: TwoNumbers> NumberFunction for LineFolds<'a, S> {
    ghost places = { λ f. f.lines.places };

    ghost number = { λ f. fold_at (S.gives f.step.now) f.lines };

    fn number_at(&self, place: usize) -> Result<i64, Kind> {
        let lines = &self.lines;
        let first = place / lines.stride * (lines.count * lines.stride) + place % lines.stride;
        fold_numbers(self.step, lines.numbers, first, lines.stride, lines.count)
    }
}

/// Folds each line. If the numbers of a line are not contiguous, it folds a row at a time. If a step may fail, it folds line by line to return
/// the error of the first line that fails.
fn folds_by<S: TwoNumbers>(
    alloc: Global,
    step: &S,
    lines: &AxisLines,
    shape: &Shape,
) -> Result<Array, ApplyFault>
    requires within { IsWithinLimits shape.now.items }
    requires shaped { size shape.now.items ≡ lines.now.places }
    ensures { IsAnswerTo (line_folds (S.gives step.now) lines.now shape.now.items) result }
{
    let each = LineFolds {
        step,
        lines: *lines,
    };
    if lines.stride == 1 {
        return collect_numbers(alloc, &each, shape);
    }
    match column_folds(alloc, step, lines)? {
        Some(folds) => Ok(Array::from_numbers(shape, folds)?),
        None => collect_numbers(alloc, &each, shape),
    }
}

/// The lines to fold, and the shape of the result.
#[derive(Drop)]
struct Foldable<'a> {
    alloc: Global,
    lines: AxisLines<'a>,
    shape: &'a Shape,
    ghost within: { IsWithinLimits shape.now.items },
    ghost shaped: { size shape.now.items ≡ lines.places },
}

impl<'a> WithFunction for Foldable<'a> {
    type Output = Result<Array, ApplyFault>;

    ghost makes = { λ f gives result. IsAnswerTo (line_folds gives f.lines f.shape.now.items) result };

    fn with<S: TwoNumbers + Copy>(self, step: S) -> Result<Array, ApplyFault> {
        folds_by(self.alloc, &step, &self.lines, self.shape)
    }
}

/// Folds each line by the scalar function. Each function has its own compiled loop.
fn folds(
    alloc: Global,
    function: Scalar2,
    lines: &AxisLines,
    shape: &Shape,
) -> Result<Array, ApplyFault>
    requires within { IsWithinLimits shape.now.items }
    requires shaped { size shape.now.items ≡ lines.now.places }
    ensures { IsAnswerTo (line_folds (dyadic_on_numbers function) lines.now shape.now.items) result }
{
    let foldable = Foldable {
        alloc,
        lines: *lines,
        shape,
    };
    with_function(function, foldable)
}

/// Reduction, `f/B` and `f⌿B` (ISO/IEC 13751, "Reduction"): folds each line along an axis. The fold goes from the last item to the first, `x1 f (x2 f
/// (..))`, and stops at the first error. A line of one item yields that item. An empty line yields the identity of the function, or DOMAIN if it has
/// none. A scalar yields itself. The result is of numbers, but of B's type if each line is one item. Fails with AXIS if the array has no such axis,
/// with LIMIT beyond the limits of arrays.
#[derive(Clone, Copy, PartialEq, Eq, Debug)]
pub struct Reduce {
    /// The function that combines the items of a line.
    pub function: Scalar2,
    /// The axis along which the lines lie.
    pub along: Along,
}

impl Reduce {
    /// Checks the argument; returns the shape and the item type of the result.
    fn form(self, array: &Seen) -> Result<(Shape, ItemType), Kind>
        ensures { IsFormAnswerTo (reduce_form self.along array.now) result }
    {
        let shape = array.shape();
        let axes = shape.as_slice();
        let alloc = *shape.allocator();
        let rank = axes.len() as u32;
        if !self.along.is_axis(rank) {
            return Err(Kind::Axis);
        }
        if rank == 0 {
            return limited(shape_of(alloc, &[]), array.item_type());
        }
        let axis = self.along.axis_at(rank);
        let item_type = if axes[axis] == 1 {
            array.item_type()
        } else {
            ItemType::Nums
        };
        limited(without_axis(alloc, axes, axis), item_type)
    }

    /// Returns the item at an index list of the result.
    fn folded_at(self, array: &Seen, index: &[u32]) -> Result<Item, Kind>
        requires { IsPlaceOf (reduce_form self.along array.now) index.now }
        ensures is { result ≡ reduce_item self.function self.along array.now index.now }
        ensures typed { IfOk result (HasTypeOf (reduce_form self.along array.now)) }
    {
        let axes = array.shape();
        if axes.is_empty() {
            return Ok(array.item(1));
        }
        let axis = self.along.axis_at(axes.len() as u32);
        let count = axes[axis];
        if count == 0 {
            return identity_item(self.function);
        }
        fold_line(self.function, array, axis, index, count)
    }

    /// Folds the lines. Reads numbers straight from the slice of the argument if it has one.
    pub fn apply(&self, alloc: Global, args: &[Seen]) -> Result<Array, ApplyFault>
        requires { length args.now ≡ 1 }
        ensures { IsAnswerTo (of_one_argument (reduce_whole self.now.function self.now.along) args.now) result }
    {
        let array = &args[0];
        match array.numbers() {
            Some(numbers) if !numbers.is_empty() && !array.shape().is_empty() => {
                self.of_numbers(alloc, array, numbers)
            }
            _ => apply(alloc, self, args),
        }
    }

    /// Folds the lines of a non-empty array of numbers that has axes.
    fn of_numbers(self, alloc: Global, array: &Seen, numbers: &[i64]) -> Result<Array, ApplyFault>
        requires numbers { array.now.items ≡ map (λ z. Num z) numbers.now }
        requires typed { array.now.item_type ≡ Nums }
        requires some { 0 < length numbers.now }
        requires axes { 0 < length array.now.shape }
        ensures { IsAnswerTo (reduce_whole self.function self.along array.now) result }
    {
        let (shape, _) = self.form(array)?;
        let axis = self.along.axis_at(array.shape().len() as u32);
        let lines = AxisLines::along(array, axis, numbers);
        folds(alloc, self.function, &lines, &shape)
    }
}

impl Primitive for Reduce {
    ghost arity = { λ _. 1 };

    ghost form = { λ r args. of_one_argument (reduce_form r.along) args };

    ghost item = { λ r args index. of_one_argument (λ b. reduce_item r.function r.along b index) args };

    fn shape_of(&self, args: &[Seen]) -> Result<(Shape, ItemType), Kind> {
        self.form(&args[0])
    }

    fn item_at(&self, args: &[Seen], index: &[u32]) -> Result<Item, Kind> {
        self.folded_at(&args[0], index)
    }
}

impl Announced for Reduce {
    ghost selectors = { λ _. false ∷ [] };

    ghost uses = { λ r shape args. uses_of_one (reduce_use r.along) shape args };

    ghost growth = { λ r. lines_grow r.along };

    fn grows(&self, args: &[Seen], grown: &[bool]) -> bool {
        grown[0] && is_along_a_later_axis(&args[0], self.along)
    }

    fn selects(&self, _which: usize) -> bool {
        false
    }

    fn box_of(
        &self,
        args: &[Seen],
        _shape: &[u32],
        _which: usize,
        region: &IndexBox,
    ) -> Option<Intervals> {
        let axis = self.along.axis_at(args[0].shape().len() as u32);
        Some(region.intervals().copy().without_axis(axis))
    }

    fn whole(&self, alloc: Global, args: &[Seen]) -> Result<Array, ApplyFault> {
        self.apply(alloc, args)
    }

    ghost counted = { λ _. Prim.search rules };

    ghost tight = { λ r. reduce_tight r.function r.along };

    ghost growing = { λ r. reduce_growing r.function r.along };
}
