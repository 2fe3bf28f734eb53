//! A test of the axis along which lines lie.

ghost use Rattle.std.specs.Prelude.{◌≡◌};
ghost use Rattle.reduce_fns.specs.Growth.{is_along_a_later_axis};

use index_region::{Along, Seen};

/// Tells if `along` names an axis of the array other than the first.
pub fn is_along_a_later_axis(array: &Seen, along: Along) -> bool
    ensures { result ≡ is_along_a_later_axis along array.now }
{
    let rank = array.shape().len() as u32;
    along.is_axis(rank) && along.axis_at(rank) != 0
}
