//! The positions of an index.

ghost use Rattle.std.specs.Prelude.{◌≡◌, IfOk, is_some, map};

use crate::input::Input;
use smallvec::SmallVec;
use std::alloc::{AllocError, Global};

/// The number of positions that need no allocation. An index with more has no value: no array has more axes.
pub(crate) const FEW_POSITIONS: usize = 4;

/// The inputs of the positions of an index; `None` for an empty position.
pub(crate) type Positions<'a> = SmallVec<Option<Input<'a>>, FEW_POSITIONS>;

/// For each position of an index, whether it is written.
type Written = SmallVec<bool, FEW_POSITIONS>;

/// Returns for each position whether it is written.
pub(crate) fn written_of<T>(alloc: Global, positions: &[Option<T>]) -> Result<Written, AllocError>
    ensures { IfOk result (λ written. written.items ≡ map is_some positions.now) }
{
    let mut written = SmallVec::new(alloc);
    for position in positions {
        written.push(position.is_some())?;
    }
    Ok(written)
}
