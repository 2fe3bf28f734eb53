//! Axis lengths given by an argument.

ghost use Rattle.std.specs.Prelude.{◌≡◌, IfOk, IfErr, false};
ghost use Rattle.arrays_core.specs.declared.item.Kind.TheVariants.{Limit};
ghost use Rattle.index_region.specs.Checks.{is_within_limits};
ghost use Rattle.structural_fns.specs.Reshape.{magnitudes};

use crate::limits::{LONGEST_AXIS, MOST_AXES};
use arrays_core::{Kind, Shape};
use index_region::Seen;
use smallvec::SmallVec;

/// Returns the magnitudes of the numbers as axis lengths. Fails with LIMIT for too many axes, or one too long. Allocates nothing.
pub(crate) fn magnitudes(counts: &Seen) -> Result<Shape, Kind>
    ensures is { IfOk result (λ axes. axes.items ≡ magnitudes counts.now) }
    ensures inline { IfOk result (λ axes. axes.capacity ≡ 4) }
    ensures kind { IfErr result (λ kind. kind ≡ Limit) }
    ensures beyond { IfErr result (λ _. is_within_limits (magnitudes counts.now) ≡ false) }
{
    if counts.places() > MOST_AXES {
        return Err(Kind::Limit);
    }
    let mut axes = SmallVec::new(*counts.shape().allocator());
    for place in 0..counts.places() {
        let length = counts.number(place + 1).unsigned_abs();
        if length > LONGEST_AXIS {
            return Err(Kind::Limit);
        }
        axes.push_reserved(length as u32);
    }
    Ok(axes)
}
