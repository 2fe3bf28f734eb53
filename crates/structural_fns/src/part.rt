//! The part of an array behind some places of each axis.

ghost use Rattle.std.specs.Prelude.{◌≡◌, ◌≤◌, ◌<◌, ◌+◌, ◌^◌, ◌++◌, ◌∷◌, [], IsTrue, All, length};
ghost use Rattle.arrays_core.specs.Limits.{most_axes};
ghost use Rattle.arrays_core.specs.Arrays.{collect, IsAnswerTo, IsArray};
ghost use Rattle.arrays_core.specs.Shapes.{IsWithinLimits, is_index_of, places_before};
ghost use Rattle.structural_fns.specs.Part.{behind, part_item, IsPart};

use crate::index_source::{IndexSource, index_on_axis, place_of};
use arrays_core::{
    ApplyFault, Array, ArrayBuilder, Item, ItemFunction, Kind, RowFunction, Shape, collect_rows,
};
use index_region::Seen;
use std::alloc::{AllocError, Global};

/// The index list in the array of an index list of a part: of `row`, which 1 follows if an axis is left.
#[derive(Clone, Copy)]
struct Behind<'a> {
    before: &'a [u32],
    row: &'a [u32],
    ghost rank: { length before.now ≤ most_axes },
    ghost few: { All (λ n. n < 2 ^ 32) (behind before.now (row.now ++ 1 ∷ [])) },
}

impl<'a> IndexSource for Behind<'a> {
    ghost list = { λ s. behind s.before.now (s.row.now ++ 1 ∷ []) };

    #[inline]
    fn index(&self, axis: usize) -> u32 {
        self.before[axis] + index_on_axis(self.row, 1, axis)
    }
}

/// A part of an array, of this shape.
#[derive(Drop)]
struct Part<'a, 'b> {
    array: &'a Seen<'b>,
    /// The number of places before the part on each axis.
    before: &'a [u32],
    shape: &'a Shape,
    ghost is: { IsPart array.now.shape before.now shape.now.items },
}

impl<'a, 'b> Part<'a, 'b> {
    /// Returns the number of items of the array before an index list of the part: `row`, which 1 follows if an axis is left.
    fn place(&self, row: &[u32]) -> u32
        requires { IsTrue (is_index_of self.now.array.now.shape (behind self.now.before.now (row.now ++ 1 ∷ []))) }
        ensures is { result ≡ places_before self.now.array.now.shape (behind self.now.before.now (row.now ++ 1 ∷ [])) }
        ensures sound { IsArray self.now.array.now }
    {
        let axes = self.array.shape().as_slice();
        let source = Behind {
            before: self.before,
            row,
        };
        place_of(axes, &source)
    }
}

impl<'a, 'b> ItemFunction for Part<'a, 'b> {
    ghost result_shape = { λ p. p.shape.now.items };

    ghost result_type = { λ p. p.array.now.item_type };

    ghost item = { λ p. part_item p.array.now p.before.now };

    fn item_at(&self, index: &[u32]) -> Result<Item, Kind> {
        Ok(self.array.item(self.place(index) + 1))
    }
}

impl<'a, 'b> RowFunction for Part<'a, 'b> {
    fn extend_row(
        &self,
        row: &[u32],
        count: u32,
        items: &mut ArrayBuilder,
    ) -> Result<(), AllocError> {
        self.array.extend_run(items, self.place(row), count)
    }
}

/// Copies the part of an array behind `before` places of each axis.
pub(crate) fn part_of(
    alloc: Global,
    array: &Seen,
    before: &[u32],
    shape: &Shape,
) -> Result<Array, ApplyFault>
    requires within { IsWithinLimits shape.now.items }
    requires part { IsPart array.now.shape before.now shape.now.items }
    ensures { IsAnswerTo (collect array.now.item_type shape.now.items (part_item array.now before.now)) result }
{
    let part = Part {
        array,
        before,
        shape,
    };
    collect_rows(alloc, &part, array.item_type(), shape)
}
