//! Reverse: the places of an axis in reverse order.

ghost use Rattle.std.specs.Prelude.{◌≡◌, ◌≤◌, ◌-◌, suc, IsTrue, length, All, set, get_or, ◌∷◌, [], Ok};
ghost use Rattle.std.proofs.Common.{rules};
ghost use Rattle.arrays_core.specs.Limits.{most_axes, longest_axis};
ghost use Rattle.arrays_core.specs.Arrays.{ArrayValue, IsAnswerTo, IsArray};
ghost use Rattle.arrays_core.specs.Shapes.{is_index_of};
ghost use Rattle.function_names.specs.Axes.{is_axis, axis_at};
ghost use Rattle.index_region.specs.Axes.{places_along};
ghost use Rattle.index_region.specs.Checks.{form_of};
ghost use Rattle.index_region.specs.ArgumentLists.{of_one_argument};
ghost use Rattle.index_region.specs.Answers.{IsPlaceOf, IsSourceIn, source_value};
ghost use Rattle.index_region.specs.Boxes.{fits};
ghost use Rattle.change_core.proofs.Growing.{never_grows};
ghost use Rattle.structural_fns.specs.Reverse.{reverse_form, reverse_source, reverse_item, reverse_whole, reversed, reverse_rule};
ghost use Rattle.structural_fns.specs.Laws.Reverse.{reverse_tight};

use crate::index_source::{RowWith, place_of, row_place};
use arrays_core::{
    ApplyFault, Array, ArrayBuilder, Item, ItemFunction, ItemType, Kind, RowFunction, Shape,
    collect_rows, shape_of,
};
use change_core::Announced;
use index_region::{Along, IndexBox, Intervals, Primitive, Seen, Source, item_from, limited};
use std::alloc::{AllocError, Global};

/// Reverses an index list along an axis.
fn reversed(alloc: Global, along: Along, axes: &[u32], index: &[u32]) -> Shape
    requires rank { length axes.now ≤ most_axes }
    requires axes_in { All (λ n. n ≤ longest_axis) axes.now }
    requires axis { IsTrue (is_axis (length axes.now) along) }
    requires in_range { IsTrue (is_index_of axes.now index.now) }
    ensures is { let axis = axis_at (length axes.now) along in
        result.items ≡ set index.now axis (suc (places_along axes.now axis) - get_or index.now axis 1) }
    ensures inline { result.capacity ≡ 4 }
{
    let mut at = shape_of(alloc, index);
    if !axes.is_empty() {
        let axis = along.axis_at(axes.len() as u32);
        at[axis] = axes[axis] + 1 - index[axis];
    }
    at
}

/// Reverse, `⌽B` and `⊖B` (ISO/IEC 13751, "Reverse"): the places along the axis in reverse order. A scalar is unchanged. AXIS if the array
/// has no such axis.
#[derive(Clone, Copy, PartialEq, Eq, Debug)]
pub struct Reverse {
    /// The axis to reverse.
    pub along: Along,
}

impl Reverse {
    /// Returns the index list of the array for an index list of the result. Allocates nothing.
    fn place_of(self, array: &Seen, index: &[u32]) -> Shape
        requires { IsPlaceOf (reverse_form self.along array.now) index.now }
        ensures is { let axis = axis_at (length array.now.shape) self.along in
            result.items ≡ set index.now axis (suc (places_along array.now.shape axis) - get_or index.now axis 1) }
        ensures inside { IsTrue (is_index_of array.now.shape result.items) }
        ensures inline { result.capacity ≡ 4 }
    {
        let shape = array.shape();
        reversed(*shape.allocator(), self.along, shape.as_slice(), index)
    }

    /// Returns the source of the item at an index list of the result, after the checks have passed. The argument is the only source.
    /// Allocates nothing.
    pub fn source_of(&self, args: &[Seen], index: &[u32]) -> Source
        requires count { length args.now ≡ 1 }
        requires place { IsPlaceOf (of_one_argument (reverse_form self.now.along) args.now) index.now }
        ensures is { (b : ArrayValue) → args.now ≡ b ∷ [] → source_value result ≡ reverse_source self.now.along b index.now }
        ensures inside { (b : ArrayValue) → args.now ≡ b ∷ [] → IsSourceIn b b result }
    {
        self.source(&args[0], index)
    }

    /// Returns the source of the item at an index list of the result.
    fn source(self, array: &Seen, index: &[u32]) -> Source
        requires { IsPlaceOf (reverse_form self.along array.now) index.now }
        ensures is { source_value result ≡ reverse_source self.along array.now index.now }
        ensures inside { IsSourceIn array.now array.now result }
    {
        let at = self.place_of(array, index);
        Source::Place { arg: 0, at }
    }

    /// Computes the whole result by rows.
    pub fn apply(&self, alloc: Global, args: &[Seen]) -> Result<Array, ApplyFault>
        requires { length args.now ≡ 1 }
        ensures { IsAnswerTo (of_one_argument (reverse_whole self.now.along) args.now) result }
    {
        let array = &args[0];
        let (shape, item_type) = self.shape_of(args)?;
        let axes = array.shape().as_slice();
        let reversed = ReversedArray {
            reverse: *self,
            array,
            axes,
            axis: self.along.axis_at(axes.len() as u32),
        };
        collect_rows(alloc, &reversed, item_type, &shape)
    }
}

impl Primitive for Reverse {
    ghost arity = { λ _. 1 };

    ghost form = { λ r args. of_one_argument (reverse_form r.along) args };

    ghost item = { λ r args index. of_one_argument (λ b. reverse_item r.along b index) args };

    fn shape_of(&self, args: &[Seen]) -> Result<(Shape, ItemType), Kind> {
        let array = &args[0];
        let shape = array.shape();
        let axes = shape.as_slice();
        if !self.along.is_axis(axes.len() as u32) {
            return Err(Kind::Axis);
        }
        limited(shape_of(*shape.allocator(), axes), array.item_type())
    }

    fn item_at(&self, args: &[Seen], index: &[u32]) -> Result<Item, Kind> {
        let array = &args[0];
        let source = self.source(array, index);
        Ok(item_from(array, array, array.item_type(), source))
    }
}

/// The reverse of an array along an axis that it has.
#[derive(Drop)]
struct ReversedArray<'a, 'b> {
    reverse: Reverse,
    array: &'a Seen<'b>,
    axes: &'a [u32],
    /// The axis to reverse, counted from 0.
    axis: usize,
    ghost sound: { IsArray array.now },
    ghost axes_are: { axes.now ≡ array.now.shape },
    ghost axis_is: { axis ≡ axis_at (length array.now.shape) reverse.along },
    ghost passed: { reverse_form reverse.along array.now ≡ Ok (form_of array.now.shape array.now.item_type) },
}

impl<'a, 'b> ItemFunction for ReversedArray<'a, 'b> {
    ghost result_shape = { λ r. r.array.now.shape };

    ghost result_type = { λ r. r.array.now.item_type };

    ghost item = { λ r. reverse_item r.reverse.along r.array.now };

    fn item_at(&self, index: &[u32]) -> Result<Item, Kind> {
        let array = self.array;
        let source = self.reverse.source(array, index);
        Ok(item_from(array, array, array.item_type(), source))
    }
}

impl<'a, 'b> RowFunction for ReversedArray<'a, 'b> {
    #[inline]
    fn extend_row(
        &self,
        row: &[u32],
        count: u32,
        items: &mut ArrayBuilder,
    ) -> Result<(), AllocError> {
        let (axes, axis) = (self.axes, self.axis);
        if axis == row.len() {
            let first = row_place(axes, row);
            return self.array.extend_back(items, first + (count - 1), count);
        }
        let index = axes[axis] - (row[axis] - 1);
        let first = place_of(axes, &RowWith { row, axis, index });
        self.array.extend_run(items, first, count)
    }
}

/// Reverses the interval of a box on one axis.
fn reversed_on(axes: &[u32], axis: usize, region: &IndexBox) -> Intervals
    requires { IsTrue (fits region.now axes.now) }
    ensures { result ≡ set region.now axis (reversed (places_along axes.now axis) (get_or region.now axis (0, 0))) }
{
    let intervals = region.intervals().copy();
    if axis >= axes.len() {
        return intervals;
    }
    let (first, last) = region.as_slice()[axis];
    let places = axes[axis];
    intervals.with(axis, places - (last - 1), places - (first - 1))
}

impl Announced for Reverse {
    ghost selectors = { λ r. (reverse_rule r.along).selectors };

    ghost uses = { λ r. (reverse_rule r.along).uses };

    fn grows(&self, _args: &[Seen], _grown: &[bool]) -> bool {
        false
    }

    fn selects(&self, _which: usize) -> bool {
        false
    }

    fn box_of(
        &self,
        args: &[Seen],
        _shape: &[u32],
        _which: usize,
        region: &IndexBox,
    ) -> Option<Intervals> {
        let axes = args[0].shape().as_slice();
        let axis = self.along.axis_at(axes.len() as u32);
        Some(reversed_on(axes, axis, region))
    }

    fn whole(&self, alloc: Global, args: &[Seen]) -> Result<Array, ApplyFault> {
        self.apply(alloc, args)
    }

    ghost counted = { λ _. Prim.search rules };

    ghost tight = { λ r. reverse_tight r.along };

    ghost growing = { λ _. never_grows _ };
}
