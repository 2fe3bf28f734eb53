//! The numbers that a mask keeps.

ghost use Rattle.std.specs.Prelude.{◌≡◌, IfOk, IfSome, length};
ghost use Rattle.selection_fns.specs.Kept.{AreMasked};

use crate::replicate::is_bit;
use arrays_core::room_of;
use std::alloc::{AllocError, Global};

/// Returns the numbers whose count is 1. None where a count is neither 0 nor 1. Pushes each number, and pops it again
/// where its count is 0, so the push has no branch to predict. Has room for all numbers, or for four times those kept.
pub(crate) fn kept_numbers(
    alloc: Global,
    counts: &[i64],
    numbers: &[i64],
) -> Result<Option<Vec<i64>>, AllocError>
    requires even { length counts.now ≡ length numbers.now }
    ensures { IfOk result (λ o. IfSome o (λ v. AreMasked counts.now numbers.now v.items)) }
{
    let mut kept = Vec::with_capacity(alloc, room_of(counts.len()))?;
    for place in 0..counts.len() {
        if !is_bit(counts[place]) {
            return Ok(None);
        }
        kept.push_reserved(numbers[place]);
        if counts[place] == 0 {
            kept.take_last();
        }
    }
    kept.shrink_to(room_of(kept.len() * 2));
    Ok(Some(kept))
}
