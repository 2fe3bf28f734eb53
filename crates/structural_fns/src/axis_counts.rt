//! Shared parts of take and drop: one count for each axis.

ghost use Rattle.std.specs.Prelude.{◌≡◌, ◌≤◌, All, IfOk, IfErr, List, ℕ, length};
ghost use Rattle.arrays_core.specs.Limits.{most_axes, longest_axis};
ghost use Rattle.index_region.specs.Checks.{limited};
ghost use Rattle.structural_fns.specs.AxisCounts.{counted_shape, counted_form, uncounted, counted_box};

use arrays_core::{Kind, Shape, shape_of};
use index_region::{IndexBox, Intervals, Seen};

/// Checks the counts. Fails with RANK unless they are a scalar or a vector. Fails with LENGTH unless there is one for each axis; a scalar
/// takes any number. Fails with DOMAIN unless they are numbers.
pub(crate) fn check_axis_counts(counts: &Seen, array: &Seen) -> Result<(), Kind>
    ensures passed { IfOk result (λ _. (shape : List ℕ) → counted_form shape counts.now array.now ≡ limited shape array.now.item_type) }
    ensures failed { IfErr result (λ kind. (shape : List ℕ) → counted_form shape counts.now array.now ≡ Err kind) }
    ensures long { IfOk result (λ _. length counts.now.items ≡ length (counted_shape counts.now array.now)) }
{
    if counts.shape().len() > 1 {
        return Err(Kind::Rank);
    }
    let rank = array.shape().len();
    if rank > 0 && counts.places() as usize != rank {
        return Err(Kind::Length);
    }
    if !counts.counts_as_numbers() {
        return Err(Kind::Domain);
    }
    Ok(())
}

/// Returns the shape that the counts apply to: the array's own, or for a scalar an axis of length 1 for each count.
pub(crate) fn counted_shape(counts: &Seen, array: &Seen) -> Shape
    requires { length counts.now.items ≤ most_axes }
    ensures is { result.items ≡ counted_shape counts.now array.now }
    ensures within { All (λ n. n ≤ longest_axis) result.items }
    ensures inline { result.capacity ≡ 4 }
{
    let shape = array.shape();
    let alloc = *shape.allocator();
    if shape.is_empty() {
        let ones = [1; 4];
        shape_of(alloc, &ones[..counts.places() as usize])
    } else {
        shape_of(alloc, shape.as_slice())
    }
}

/// Converts an index list of that shape to one of the array.
pub(crate) fn uncounted(array: &Seen, index: Shape) -> Shape
    requires { index.capacity ≡ 4 }
    ensures is { result.items ≡ uncounted array.now index.items }
    ensures inline { result.capacity ≡ 4 }
{
    let shape = array.shape();
    if shape.is_empty() {
        shape_of(*shape.allocator(), &[])
    } else {
        index
    }
}

/// Returns the intervals of a box on the axes of that shape; of a scalar, its one place on each.
pub(crate) fn counted_box(counts: &Seen, array: &Seen, region: &IndexBox) -> Intervals
    requires { length counts.now.items ≤ most_axes }
    ensures { result ≡ counted_box counts.now array.now region.now }
{
    if array.shape().is_empty() {
        Intervals::whole(counted_shape(counts, array).as_slice())
    } else {
        region.intervals().copy()
    }
}
