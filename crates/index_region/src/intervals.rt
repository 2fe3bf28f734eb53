//! Intervals on the axes of an array.

ghost use Rattle.std.specs.Prelude.{◌≡◌, ◌≤◌, ◌<◌, ◌+◌, ◌++◌, ◌∷◌, [], ℕ, List, length, take, set, insert, remove, get_or};
ghost use Rattle.arrays_core.specs.Limits.{most_axes};
ghost use Rattle.index_region.specs.Boxes.{whole_of, is_empty, met, hull_of, meet_of};

use arrays_core::MOST_AXES;
use std::marker::Model;

/// An interval of places, counted from 1, on each of at most four axes, given by its first and last place. An interval may be empty or go
/// beyond its axis; those of an `IndexBox` are never empty. Stored inline.
#[derive(Drop)]
pub struct Intervals {
    intervals: [(u32, u32); MOST_AXES],
    rank: usize,
}

impl Model for Intervals {
    ghost Value = { List (ℕ × ℕ) };

    ghost view = { λ b. take b.rank b.intervals };

    ghost invariant = { λ b. b.rank ≤ most_axes };
}

impl Intervals {
    /// Returns no intervals, as for a scalar.
    pub fn none() -> Intervals
        ensures { result ≡ [] }
    {
        Intervals {
            intervals: [(1, 1); MOST_AXES],
            rank: 0,
        }
    }

    /// Returns one interval.
    pub fn one(first: u32, last: u32) -> Intervals
        ensures { result ≡ (first, last) ∷ [] }
    {
        Intervals {
            intervals: [(first, last); MOST_AXES],
            rank: 1,
        }
    }

    /// Copies the intervals of a slice.
    pub fn of(list: &[(u32, u32)]) -> Intervals
        requires { length list.now ≤ most_axes }
        ensures { result ≡ list.now }
    {
        Intervals::none().and_all(list)
    }

    /// Returns the interval of each whole axis.
    pub fn whole(axes: &[u32]) -> Intervals
        requires { length axes.now ≤ most_axes }
        ensures { result ≡ whole_of axes.now }
    {
        Intervals::none().and_whole(axes)
    }

    /// Copies the intervals.
    pub fn copy(&self) -> Intervals
        ensures { result ≡ self.now }
    {
        Intervals {
            intervals: self.intervals,
            rank: self.rank,
        }
    }

    /// Borrows the intervals as a slice.
    pub fn as_slice(&self) -> &[(u32, u32)]
        ensures is { result.now ≡ self.now }
        ensures few { length self.now ≤ most_axes }
    {
        &self.intervals[..self.rank]
    }

    /// Appends an interval.
    pub fn push(&mut self, first: u32, last: u32)
        requires { length self.old < most_axes }
        ensures is { self.new ≡ self.old ++ (first, last) ∷ [] }
        ensures long { length self.new ≡ length self.old + 1 }
    {
        self.intervals[self.rank] = (first, last);
        self.rank += 1;
    }

    /// Appends the intervals of a slice.
    pub fn and_all(self, list: &[(u32, u32)]) -> Intervals
        requires { length self + length list.now ≤ most_axes }
        ensures { result ≡ self ++ list.now }
    {
        let mut all = self;
        for (first, last) in list {
            all.push(*first, *last);
        }
        all
    }

    /// Appends the intervals of more whole axes.
    pub fn and_whole(self, axes: &[u32]) -> Intervals
        requires { length self + length axes.now ≤ most_axes }
        ensures { result ≡ self ++ whole_of axes.now }
    {
        let mut all = self;
        for axis in axes {
            all.push(1, *axis);
        }
        all
    }

    /// Replaces the interval on an axis, if there is such an axis.
    pub fn with(self, axis: usize, first: u32, last: u32) -> Intervals
        ensures { result ≡ set self axis (first, last) }
    {
        if self.as_slice().len() <= axis {
            return self;
        }
        let mut intervals = self.intervals;
        intervals[axis] = (first, last);
        Intervals {
            intervals,
            rank: self.rank,
        }
    }

    /// Inserts an interval in front of the one with index `axis`.
    pub fn with_axis(self, axis: usize, first: u32, last: u32) -> Intervals
        requires few { length self < most_axes }
        requires there { axis ≤ length self }
        ensures { result ≡ insert self axis (first, last) }
    {
        let (before, after) = self.as_slice().split_at(axis);
        let mut more = Intervals::of(before);
        more.push(first, last);
        more.and_all(after)
    }

    /// Removes the interval on an axis, if there is such an axis.
    pub fn without_axis(self, axis: usize) -> Intervals
        ensures { result ≡ remove self axis }
    {
        let list = self.as_slice();
        if list.len() <= axis {
            return self;
        }
        Intervals::of(&list[..axis]).and_all(&list[axis + 1..])
    }

    /// Tests whether one of the intervals is empty.
    pub fn is_empty(&self) -> bool
        ensures { result ≡ is_empty self.now }
    {
        self.as_slice().iter().any(|(first, last)| *last < *first)
    }

    /// Cuts the intervals to a shape. An axis without an interval is whole.
    pub fn met(&self, axes: &[u32]) -> Intervals
        requires { length axes.now ≤ most_axes }
        ensures { result ≡ met axes.now self.now }
    {
        let intervals = self.as_slice();
        let mut inside = Intervals::none();
        for (axis, length) in axes.iter().enumerate() {
            let (first, last) = interval_on(intervals, axis, *length);
            inside.push(first.max(1), last.min(*length));
        }
        inside
    }
}

/// Returns the interval on an axis; the whole axis if there is none.
fn interval_on(intervals: &[(u32, u32)], axis: usize, length: u32) -> (u32, u32)
    ensures { result ≡ get_or intervals.now axis (1, length) }
{
    if axis < intervals.len() {
        intervals[axis]
    } else {
        (1, length)
    }
}

/// Returns the least intervals that contain both.
pub(crate) fn hull_of(ours: &[(u32, u32)], theirs: &[(u32, u32)]) -> Intervals
    requires few { length ours.now ≤ most_axes }
    requires as_many { length ours.now ≡ length theirs.now }
    ensures { result ≡ hull_of ours.now theirs.now }
{
    let mut intervals = Intervals::none();
    for axis in 0..ours.len() {
        let ((first, last), (other_first, other_last)) = (ours[axis], theirs[axis]);
        intervals.push(first.min(other_first), last.max(other_last));
    }
    intervals
}

/// Returns the intersection.
pub(crate) fn meet_of(ours: &[(u32, u32)], theirs: &[(u32, u32)]) -> Intervals
    requires few { length ours.now ≤ most_axes }
    requires as_many { length ours.now ≡ length theirs.now }
    ensures { result ≡ meet_of ours.now theirs.now }
{
    let mut intervals = Intervals::none();
    for axis in 0..ours.len() {
        let ((first, last), (other_first, other_last)) = (ours[axis], theirs[axis]);
        intervals.push(first.max(other_first), last.min(other_last));
    }
    intervals
}
