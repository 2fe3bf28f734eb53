//! The numbers of an array as a list.

ghost use Rattle.std.specs.Prelude.{◌≡◌, IfOk};
ghost use Rattle.arrays_core.specs.Arrays.{IsArray};
ghost use Rattle.index_region.specs.Arguments.{numbers};

use index_region::Seen;
use std::alloc::{AllocError, Global};

/// Returns the numbers of an array in row-major order.
pub fn numbers_of(alloc: Global, array: &Seen) -> Result<Vec<i64>, AllocError>
    ensures is { IfOk result (λ v. v.items ≡ numbers array.now) }
    ensures sound { IsArray array.now }
{
    let places = array.places();
    if let Some(numbers) = array.numbers() {
        return numbers.to_vec(alloc);
    }
    let mut found = Vec::with_capacity(alloc, places as usize)?;
    for before in 0..places {
        found.push(array.number(before + 1))?;
    }
    Ok(found)
}
