//! The limits of arrays, in the integer types they are compared with.

/// The most axes that an array may have.
pub(crate) const MOST_AXES: u32 = arrays_core::MOST_AXES as u32;

/// The most places that an axis may have.
pub(crate) const LONGEST_AXIS: u64 = arrays_core::LONGEST_AXIS as u64;
