//! Transpose: the axes in reverse order.

ghost use Rattle.std.specs.Prelude.{◌≡◌, ◌≤◌, ◌<◌, length, reverse, drop, ◌∷◌, [], Ok};
ghost use Rattle.std.proofs.Common.{rules};
ghost use Rattle.arrays_core.specs.Limits.{most_axes};
ghost use Rattle.arrays_core.specs.Arrays.{ArrayValue, IsAnswerTo, IsArray};
ghost use Rattle.arrays_core.specs.Shapes.{size};
ghost use Rattle.index_region.specs.Checks.{form_of};
ghost use Rattle.index_region.specs.ArgumentLists.{of_one_argument};
ghost use Rattle.index_region.specs.Answers.{IsPlaceOf, IsSourceIn, source_value};
ghost use Rattle.change_core.proofs.Growing.{never_grows};
ghost use Rattle.structural_fns.specs.Transpose.{transpose_form, transpose_source, transpose_item, transpose_whole, transpose_rule};
ghost use Rattle.structural_fns.specs.Laws.Transpose.{transpose_tight};

use crate::even_steps::extend_evenly;
use crate::index_source::{IndexSource, place_of};
use arrays_core::{
    ApplyFault, Array, ArrayBuilder, Item, ItemFunction, ItemType, Kind, RowFunction, Shape,
    collect_rows,
};
use change_core::Announced;
use index_region::{IndexBox, Intervals, Primitive, Seen, Source, item_from, limited};
use smallvec::SmallVec;
use std::alloc::{AllocError, Global};

/// Reverses a list of at most four. Allocates nothing.
fn from_last(alloc: Global, list: &[u32]) -> Shape
    requires { length list.now ≤ most_axes }
    ensures is { result.items ≡ reverse list.now }
    ensures inline { result.capacity ≡ 4 }
{
    let mut reversed = SmallVec::new(alloc);
    for k in (0..list.len()).rev() {
        reversed.push_reserved(list[k]);
    }
    reversed
}

/// Transpose, `⍉B` (ISO/IEC 13751, "Monadic transpose"): the axes in reverse order. Scalars and vectors are unchanged.
#[derive(Clone, Copy, PartialEq, Eq, Debug)]
pub struct Transpose;

impl Transpose {
    /// Returns the source of the item at an index list of the result, after the checks have passed. The argument is the only source.
    /// Allocates nothing.
    pub fn source_of(&self, args: &[Seen], index: &[u32]) -> Source
        requires count { length args.now ≡ 1 }
        requires place { IsPlaceOf (of_one_argument transpose_form args.now) index.now }
        ensures is { (b : ArrayValue) → args.now ≡ b ∷ [] → source_value result ≡ transpose_source b index.now }
        ensures inside { (b : ArrayValue) → args.now ≡ b ∷ [] → IsSourceIn b b result }
    {
        self.source(&args[0], index)
    }

    /// Returns the source of the item at an index list of the result.
    fn source(self, array: &Seen, index: &[u32]) -> Source
        requires { IsPlaceOf (transpose_form array.now) index.now }
        ensures is { source_value result ≡ transpose_source array.now index.now }
        ensures inside { IsSourceIn array.now array.now result }
    {
        let at = from_last(*array.shape().allocator(), index);
        Source::Place { arg: 0, at }
    }

    /// Computes the whole result by rows.
    pub fn apply(&self, alloc: Global, args: &[Seen]) -> Result<Array, ApplyFault>
        requires { length args.now ≡ 1 }
        ensures { IsAnswerTo (of_one_argument transpose_whole args.now) result }
    {
        let array = &args[0];
        let (shape, item_type) = self.shape_of(args)?;
        let transposed = TransposedArray {
            array,
            axes: array.shape().as_slice(),
            step: items_an_index(array),
        };
        collect_rows(alloc, &transposed, item_type, &shape)
    }
}

impl Primitive for Transpose {
    ghost arity = { λ _. 1 };

    ghost form = { λ _ args. of_one_argument transpose_form args };

    ghost item = { λ _ args index. of_one_argument (λ b. transpose_item b index) args };

    fn shape_of(&self, args: &[Seen]) -> Result<(Shape, ItemType), Kind> {
        let array = &args[0];
        let shape = array.shape();
        limited(
            from_last(*shape.allocator(), shape.as_slice()),
            array.item_type(),
        )
    }

    fn item_at(&self, args: &[Seen], index: &[u32]) -> Result<Item, Kind> {
        let array = &args[0];
        let source = self.source(array, index);
        Ok(item_from(array, array, array.item_type(), source))
    }
}

/// The index list in the array of the first place of a row of the result.
#[derive(Clone, Copy)]
struct TransposedRow<'a> {
    row: &'a [u32],
}

impl<'a> IndexSource for TransposedRow<'a> {
    ghost list = { λ s. 1 ∷ reverse s.row.now };

    #[inline]
    fn index(&self, axis: usize) -> u32 {
        if axis == 0 {
            1
        } else {
            self.row[self.row.len() - axis]
        }
    }
}

/// Returns the number of items of an array for each index on its first axis.
fn items_an_index(array: &Seen) -> u32
    ensures { 0 < size array.now.shape → result ≡ size (drop 1 array.now.shape) }
{
    let axes = array.shape().as_slice();
    if axes.is_empty() {
        return 1;
    }
    array.places() / axes[0].max(1)
}

/// The transpose of an array.
#[derive(Drop)]
struct TransposedArray<'a, 'b> {
    array: &'a Seen<'b>,
    axes: &'a [u32],
    /// The distance in the array of the items of a row.
    step: u32,
    ghost sound: { IsArray array.now },
    ghost axes_are: { axes.now ≡ array.now.shape },
    ghost step_is: { 0 < size array.now.shape → step ≡ size (drop 1 array.now.shape) },
    ghost passed: { transpose_form array.now ≡ Ok (form_of (reverse array.now.shape) array.now.item_type) },
}

impl<'a, 'b> ItemFunction for TransposedArray<'a, 'b> {
    ghost result_shape = { λ r. reverse r.array.now.shape };

    ghost result_type = { λ r. r.array.now.item_type };

    ghost item = { λ r. transpose_item r.array.now };

    fn item_at(&self, index: &[u32]) -> Result<Item, Kind> {
        let array = self.array;
        let source = Transpose.source(array, index);
        Ok(item_from(array, array, array.item_type(), source))
    }
}

impl<'a, 'b> RowFunction for TransposedArray<'a, 'b> {
    #[inline]
    fn extend_row(
        &self,
        row: &[u32],
        count: u32,
        items: &mut ArrayBuilder,
    ) -> Result<(), AllocError> {
        let first = place_of(self.axes, &TransposedRow { row });
        extend_evenly(self.array, first, self.step, count, items)
    }
}

/// Reverses the intervals of a box.
fn intervals_from_last(region: &IndexBox) -> Intervals
    ensures { result ≡ reverse region.now }
{
    let list = region.as_slice();
    let mut intervals = Intervals::none();
    for axis in (0..list.len()).rev() {
        let (first, last) = list[axis];
        intervals.push(first, last);
    }
    intervals
}

impl Announced for Transpose {
    ghost selectors = { λ _. transpose_rule.selectors };

    ghost uses = { λ _. transpose_rule.uses };

    fn grows(&self, _args: &[Seen], _grown: &[bool]) -> bool {
        false
    }

    fn selects(&self, _which: usize) -> bool {
        false
    }

    fn box_of(
        &self,
        _args: &[Seen],
        _shape: &[u32],
        _which: usize,
        region: &IndexBox,
    ) -> Option<Intervals> {
        Some(intervals_from_last(region))
    }

    fn whole(&self, alloc: Global, args: &[Seen]) -> Result<Array, ApplyFault> {
        self.apply(alloc, args)
    }

    ghost counted = { λ _. Prim.search rules };

    ghost tight = { λ _. transpose_tight };

    ghost growing = { λ _. never_grows _ };
}
