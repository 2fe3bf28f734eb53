//! The check of the shape of a result.

ghost use Rattle.std.specs.Prelude.{◌≡◌};
ghost use Rattle.index_region.specs.Checks.{limited};
ghost use Rattle.index_region.specs.Answers.{IsFormAnswerTo};

use arrays_core::{ItemType, Kind, Shape, is_within_limits};

/// Checks the shape of a result against the limits of arrays: the last check of each function. Fails with LIMIT.
pub fn limited(shape: Shape, item_type: ItemType) -> Result<(Shape, ItemType), Kind>
    requires { shape.capacity ≡ 4 }
    ensures { IsFormAnswerTo (limited shape.items item_type) result }
{
    if is_within_limits(shape.as_slice()) {
        Ok((shape, item_type))
    } else {
        Err(Kind::Limit)
    }
}
