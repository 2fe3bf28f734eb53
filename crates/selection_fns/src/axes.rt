//! Axis lengths.

ghost use Rattle.std.specs.Prelude.{◌≡◌, ◌≤◌, All};
ghost use Rattle.arrays_core.specs.Limits.{longest_axis};
ghost use Rattle.index_region.specs.Axes.{places_along};

/// The greatest length of an axis.
pub(crate) const LONGEST_AXIS: u64 = arrays_core::LONGEST_AXIS as u64;

/// Returns the length of an axis, counted from 0; 1 where the array has no such axis, as a scalar.
pub fn places_along(axes: &[u32], axis: usize) -> u32
    requires { All (λ n. n ≤ longest_axis) axes.now }
    ensures is { result ≡ places_along axes.now axis }
    ensures within { result ≤ longest_axis }
{
    if axis < axes.len() { axes[axis] } else { 1 }
}
