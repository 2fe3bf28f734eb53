//! Boxes of index lists.

ghost use Rattle.std.specs.Prelude.{◌≡◌, ◌+◌, ◌-◌, ◌≤◌, ◌<◌, ◌^◌, ℕ, List, length, IsTrue, Some, None, if◌then◌else◌, true, map, ◌&&◌, nat_le};
ghost use Rattle.std.specs.List.{list_all};
ghost use Rattle.arrays_core.specs.Limits.{most_axes};
ghost use Rattle.arrays_core.specs.Shapes.{IsWithinLimits, is_index_of, size};
ghost use Rattle.index_region.specs.Boxes.{fits, is_box, box_size, box_offset, is_within, hull_of as hull, meet_of as meet, met, unless_empty, walk_at, cover, cover_between};
ghost use Rattle.index_region.specs.BoxLaws.{AllWalksAreInOrder, HullsAreLeast, CoversAreLeast};

use crate::index_list::IndexList;
use crate::intervals::{Intervals, hull_of, meet_of};
use arrays_core::{MOST_AXES, Shape, index_of_position};
use std::marker::Model;

/// A box: an interval on each axis, given by its first and last place, counted from 1. It is never empty. A scalar has the box without
/// intervals. Stored inline.
#[derive(Drop)]
pub struct IndexBox {
    intervals: Intervals,
}

impl Model for IndexBox {
    ghost Value = { List (ℕ × ℕ) };

    ghost view = { λ b. b.intervals };

    ghost invariant = { λ b. IsTrue (is_box b.intervals) };
}

/// Returns the first index list of a box.
fn first_of(intervals: &[(u32, u32)]) -> IndexList
    requires { length intervals.now ≤ most_axes }
    ensures { result ≡ walk_at intervals.now 0 }
{
    let mut index = IndexList::none();
    for (first, _) in intervals {
        index.push(*first);
    }
    index
}

impl IndexBox {
    /// Makes a box. Returns None for more than four intervals, or an interval that is empty or begins below 1. No interval is the box of a
    /// scalar.
    pub fn of(list: &[(u32, u32)]) -> Option<IndexBox>
        ensures { result ≡ (if is_box list.now then Some list.now else None) }
    {
        if is_box_of(list) {
            Some(IndexBox {
                intervals: Intervals::of(list),
            })
        } else {
            None
        }
    }

    /// Returns the part of the intervals that lies in a shape; None if it is empty.
    pub fn inside(axes: &[u32], intervals: &Intervals) -> Option<IndexBox>
        requires { length axes.now ≤ most_axes }
        ensures { result ≡ unless_empty (met axes.now intervals.now) }
    {
        let intervals = intervals.met(axes);
        if intervals.is_empty() {
            return None;
        }
        Some(IndexBox { intervals })
    }

    /// Returns the least box with the places `first` to `last` of a shape, counted from 1 in row-major order. Axes in front of the first on
    /// which the two index lists differ have their common index. That axis runs from one index to the other; later axes are whole.
    pub fn cover(shape: &Shape, first: u32, last: u32) -> IndexBox
        requires within { IsWithinLimits shape.now.items }
        requires low { 1 ≤ first }
        requires order { first ≤ last }
        requires high { last ≤ size shape.now.items }
        ensures { result ≡ cover shape.now.items (first - 1) (last - 1) }
    {
        let from = index_of_position(shape, first);
        let to = index_of_position(shape, last);
        IndexBox {
            intervals: covered(shape.as_slice(), from.as_slice(), to.as_slice()),
        }
    }

    /// Returns the box with one index list of a shape.
    pub fn at(shape: &[u32], index: &[u32]) -> IndexBox
        requires rank { length shape.now ≤ most_axes }
        requires inside { is_index_of shape.now index.now ≡ true }
        ensures { result ≡ map (λ i. (i, i)) index.now }
    {
        let mut intervals = Intervals::none();
        for place in index {
            intervals.push(*place, *place);
        }
        IndexBox { intervals }
    }

    /// Copies the box.
    pub fn copy(&self) -> IndexBox
        ensures { result ≡ self.now }
    {
        IndexBox {
            intervals: self.intervals.copy(),
        }
    }

    /// Borrows the intervals.
    pub fn intervals(&self) -> &Intervals
        ensures is { result.now ≡ self.now }
        ensures few { length self.now ≤ most_axes }
        ensures never_empty { IsTrue (is_box self.now) }
    {
        &self.intervals
    }

    /// Borrows the intervals as a slice.
    pub fn as_slice(&self) -> &[(u32, u32)]
        ensures is { result.now ≡ self.now }
        ensures few { length self.now ≤ most_axes }
        ensures never_empty { IsTrue (is_box self.now) }
    {
        self.intervals.as_slice()
    }

    /// Returns the least box that contains both.
    pub fn hull(&self, other: &IndexBox) -> IndexBox
        requires { length self.now ≡ length other.now }
        ensures { result ≡ hull self.now other.now }
    {
        IndexBox {
            intervals: hull_of(self.as_slice(), other.as_slice()),
        }
    }

    /// Returns the intersection; None if it is empty.
    pub fn meet(&self, other: &IndexBox) -> Option<IndexBox>
        requires { length self.now ≡ length other.now }
        ensures { result ≡ unless_empty (meet self.now other.now) }
    {
        let intervals = meet_of(self.as_slice(), other.as_slice());
        if intervals.is_empty() {
            return None;
        }
        Some(IndexBox { intervals })
    }

    /// Returns the number of places.
    pub fn size(&self) -> usize
        requires { box_size self.now < 2 ^ 64 }
        ensures { result ≡ box_size self.now }
    {
        size_of_intervals(self.as_slice())
    }

    /// Returns the index list of the box at the offset `before` in row-major order.
    pub fn index_at(&self, before: usize) -> IndexList
        requires size { box_size self.now < 2 ^ 64 }
        requires below { before < box_size self.now }
        ensures { result ≡ walk_at self.now before }
    {
        let intervals = self.as_slice();
        if before == 0 {
            return first_of(intervals);
        }
        let mut index = IndexList::none();
        let mut left = before;
        for axis in 0..intervals.len() {
            let (first, last) = intervals[axis];
            let size = size_of_intervals(&intervals[axis + 1..]);
            let steps = left / size;
            prove!(first as usize + steps <= last as usize);
            index.push(first + steps as u32);
            left %= size;
        }
        index
    }

    /// Moves to the next index list of the box in row-major order, and from the last to the first.
    pub fn advance(&self, index: &mut IndexList)
        ensures next { (before : ℕ) → before + 1 < box_size self.now → index.old ≡ walk_at self.now before → index.new ≡ walk_at self.now (before + 1) }
        ensures around { (before : ℕ) → before + 1 ≡ box_size self.now → index.old ≡ walk_at self.now before → index.new ≡ walk_at self.now 0 }
    {
        index.advance(self.as_slice());
    }

    /// Tests whether the box lies in a shape.
    pub fn lies_in(&self, axes: &[u32]) -> bool
        ensures { result ≡ fits self.now axes.now }
    {
        are_on(self.as_slice(), axes)
    }

    /// Tests whether the box contains an index list.
    pub fn contains(&self, index: &[u32]) -> bool
        ensures { result ≡ is_within self.now index.now }
    {
        is_inside(self.as_slice(), index)
    }

    /// Returns the offset of an index list in the box, in row-major order.
    pub fn offset(&self, index: &[u32]) -> usize
        requires within { IsTrue (is_within self.now index.now) }
        requires size { box_size self.now < 2 ^ 64 }
        ensures is { result ≡ box_offset self.now index.now }
        ensures below { result < box_size self.now }
    {
        offset_and_size(self.as_slice(), index).0
    }
}

/// States that the walk by `index_at` and `advance` visits each index list of a box once, in the ravel order of any shape around it.
pub fn law_of_walks()
    ensures { AllWalksAreInOrder }
{}

/// States that the hull of two boxes of one rank is the least box that contains both.
pub fn law_of_hulls()
    ensures { HullsAreLeast }
{}

/// States that the cover of some places of a shape is the least box that contains them.
pub fn law_of_covers()
    ensures { CoversAreLeast }
{}

/// Tests whether there are at most four intervals, none of them empty.
fn is_box_of(list: &[(u32, u32)]) -> bool
    ensures { result ≡ is_box list.now }
{
    list.len() <= MOST_AXES && are_filled(list)
}

/// Tests whether no interval is empty.
fn are_filled(list: &[(u32, u32)]) -> bool
    ensures { result ≡ list_all (λ s. nat_le 1 s.0 && nat_le s.0 s.1) list.now }
{
    for (first, last) in list {
        if *first < 1 || *last < *first {
            return false;
        }
    }
    true
}

/// Returns the intervals that cover the places between two index lists of a shape.
fn covered(axes: &[u32], from: &[u32], to: &[u32]) -> Intervals
    requires few { length axes.now ≤ most_axes }
    requires from { length from.now ≡ length axes.now }
    requires to { length to.now ≡ length axes.now }
    ensures { result ≡ cover_between axes.now from.now to.now }
{
    let mut intervals = Intervals::none();
    for axis in 0..axes.len() {
        intervals.push(from[axis], to[axis]);
        if from[axis] != to[axis] {
            return intervals.and_whole(&axes[axis + 1..]);
        }
    }
    intervals
}

/// Tests whether each interval lies on its axis and is not empty.
fn are_on(intervals: &[(u32, u32)], axes: &[u32]) -> bool
    ensures { result ≡ fits intervals.now axes.now }
{
    match (intervals, axes) {
        ([(first, last), intervals @ ..], [length, axes @ ..]) => {
            1 <= *first && *first <= *last && *last <= *length && are_on(intervals, axes)
        }
        ([], []) => true,
        _ => false,
    }
}

/// Tests whether each index of a list lies in the interval of its axis.
fn is_inside(intervals: &[(u32, u32)], index: &[u32]) -> bool
    ensures { result ≡ is_within intervals.now index.now }
{
    match (intervals, index) {
        ([(first, last), intervals @ ..], [i, index @ ..]) => {
            *first <= *i && *i <= *last && is_inside(intervals, index)
        }
        ([], []) => true,
        _ => false,
    }
}

/// Returns the offset of an index list in a box, and the size of the box.
fn offset_and_size(intervals: &[(u32, u32)], index: &[u32]) -> (usize, usize)
    requires within { IsTrue (is_within intervals.now index.now) }
    requires size { box_size intervals.now < 2 ^ 64 }
    ensures offset { result.0 ≡ box_offset intervals.now index.now }
    ensures size { result.1 ≡ box_size intervals.now }
    ensures below { result.0 < result.1 }
{
    let Some(((first, last), intervals)) = intervals.split_first() else {
        return (0, 1);
    };
    let Some((i, index)) = index.split_first() else {
        return (0, 1);
    };
    let (offset, size) = offset_and_size(intervals, index);
    (
        ((*i - *first) as usize) * size + offset,
        (*last as usize + 1 - *first as usize) * size,
    )
}

/// Returns the number of places in these intervals.
fn size_of_intervals(intervals: &[(u32, u32)]) -> usize
    requires { box_size intervals.now < 2 ^ 64 }
    ensures { result ≡ box_size intervals.now }
{
    let Some(((first, last), intervals)) = intervals.split_first() else {
        return 1;
    };
    if *last < *first {
        return 0;
    }
    (*last as usize + 1 - *first as usize) * size_of_intervals(intervals)
}
