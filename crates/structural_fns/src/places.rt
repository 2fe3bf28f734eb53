//! The places of a box in the ravel of its array.

ghost use Rattle.std.specs.Prelude.{◌≡◌, ◌≤◌, ◌+◌, IsTrue, length};
ghost use Rattle.arrays_core.specs.Limits.{most_axes};
ghost use Rattle.arrays_core.specs.Shapes.{places_before};
ghost use Rattle.index_region.specs.Boxes.{fits};
ghost use Rattle.change_core.specs.Places.{first_of_box, last_of_box};

use arrays_core::position;
use index_region::{IndexBox, IndexList, Seen};

/// Returns the first index list of a box.
fn first_index(region: &[(u32, u32)]) -> IndexList
    requires { length region.now ≤ most_axes }
    ensures { result ≡ first_of_box region.now }
{
    let mut index = IndexList::none();
    for (first, _) in region {
        index.push(*first);
    }
    index
}

/// Returns the last index list of a box.
fn last_index(region: &[(u32, u32)]) -> IndexList
    requires { length region.now ≤ most_axes }
    ensures { result ≡ last_of_box region.now }
{
    let mut index = IndexList::none();
    for (_, last) in region {
        index.push(*last);
    }
    index
}

/// Returns the first and the last place of a box in the ravel of its array, counted from 1.
pub(crate) fn places_of(array: &Seen, region: &IndexBox) -> (u32, u32)
    requires { IsTrue (fits region.now array.now.shape) }
    ensures first { result.0 ≡ places_before array.now.shape (first_of_box region.now) + 1 }
    ensures last { result.1 ≡ places_before array.now.shape (last_of_box region.now) + 1 }
    ensures order { result.0 ≤ result.1 }
{
    let (shape, intervals) = (array.shape(), region.as_slice());
    let first = position(shape, first_index(intervals).as_slice());
    let last = position(shape, last_index(intervals).as_slice());
    (first, last)
}
