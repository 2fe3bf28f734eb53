//! The numbers by which an array grows, for the trees of its lines.

ghost use Rattle.std.specs.Prelude.{◌≡◌, ◌<◌, true, length, drop, IfOk};
ghost use Rattle.arrays_core.specs.declared.item.ItemType.TheVariants.{Nums};
ghost use Rattle.arrays_core.specs.Shapes.{size, IsWithinLimits};
ghost use Rattle.fold_trees.specs.FoldTrees.{has_trees};
ghost use Rattle.sum_rules.specs.NewLines.{function_of, new_numbers, AreNew};

use crate::line_sums::{line_length, line_step};
use arrays_core::{Shape, shape_of, size};
use fold_trees::{NewFolds, NextFolds};
use index_region::Tail;
use item_fns::Scalar2;
use std::alloc::{AllocError, Global};
use std::marker::Model;

/// The new numbers of lines when their array grows.
#[derive(Drop)]
pub(crate) enum Growth {
    /// New lines after the others.
    Lines(NewFolds),
    /// One more place of each line, if the lines lie along the first axis.
    Places(NextFolds),
}

/// The new numbers of an array that grows, as trees or for the trees of its lines, and the new shape of the array. It carries all the room that the
/// trees may need, so that `LineSums::grow` does not allocate.
#[derive(Drop)]
pub struct NewLines {
    axis: usize,
    pub(crate) shape: Shape,
    pub(crate) growth: Growth,
}

impl Model for NewLines {
    ghost use Rattle.sum_rules.specs.NewLines.{NewLinesValue, lines_behind, AreNewLinesOf};

    ghost Value = { NewLinesValue };

    ghost view = { λ l. lines_behind l.axis l.shape.items l.growth };

    ghost invariant = { λ l. AreNewLinesOf l.axis l.shape.items l.growth };
}

impl NewLines {
    /// Builds the new lines, or the new places of lines, from a tail of a non-empty array of numbers. Axes count from 0. Fails with AllocError if
    /// memory is short, for the room too.
    pub fn of(
        alloc: Global,
        function: Scalar2,
        axis: usize,
        tail: &Tail,
    ) -> Result<NewLines, AllocError>
        requires function { has_trees function ≡ true }
        requires numbers { tail.now.item_type ≡ Nums }
        requires some { 0 < size tail.now.shape }
        requires there { axis < length tail.now.shape }
        requires one_place { length tail.now.items ≡ size (drop 1 tail.now.shape) }
        ensures { IfOk result (λ l. l ≡ record { function = function; axis = axis; tail = tail.now }) }
    {
        let shape = shape_of(alloc, tail.shape().as_slice());
        let numbers = match tail.numbers() {
            Some(numbers) => numbers,
            None => unreachable!(),
        };
        let growth = growth_of(alloc, function, axis, shape.as_slice(), numbers)?;
        Ok(NewLines {
            axis,
            shape,
            growth,
        })
    }
}

/// Builds the growth of the lines along an axis by these numbers; `shape` is the new shape.
fn growth_of(
    alloc: Global,
    function: Scalar2,
    axis: usize,
    shape: &[u32],
    numbers: &[i64],
) -> Result<Growth, AllocError>
    requires function { has_trees function ≡ true }
    requires within { IsWithinLimits shape.now }
    requires some { 0 < size shape.now }
    requires there { axis < length shape.now }
    requires one_place { length numbers.now ≡ size (drop 1 shape.now) }
    ensures function { IfOk result (λ g. function_of g ≡ function) }
    ensures numbers { IfOk result (λ g. new_numbers g ≡ numbers.now) }
    ensures new { IfOk result (AreNew axis shape.now) }
{
    let count = line_length(axis, shape) as usize;
    if axis == 0 {
        let old = count.saturating_sub(1).max(1);
        let places = NextFolds::build(alloc, function, numbers, old)?;
        return Ok(Growth::Places(places));
    }
    let step = line_step(axis, shape) as usize;
    let lines = size(shape) as usize / count;
    let old_lines = lines.saturating_sub(numbers.len() / count);
    let lines = NewFolds::build(alloc, function, numbers, count, step, old_lines)?;
    Ok(Growth::Lines(lines))
}
