//! The change of a value: an array or a fault.

use crate::patch::Patch;
use crate::tail::Tail;
use arrays_core::{Array, Fault};

/// The change of a value: an array or a fault.
#[derive(Drop)]
pub enum Delta {
    /// Nothing changed.
    Same,
    /// The items of a box are replaced. Type and shape stay the same.
    Patch(Patch),
    /// The first axis has one more place, with these items. Type and older items stay the same.
    Grown(Tail),
    /// The value is replaced by another array or a fault.
    Whole(Result<Array, Fault>),
}
