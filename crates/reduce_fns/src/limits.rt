//! Limits of arrays, in the types of the counts that are compared with them.

/// The most items of an array.
pub const MOST_ITEMS: usize = arrays_core::MOST_PLACES as usize;
