//! Index lists, stored inline.

ghost use Rattle.std.specs.Prelude.{◌≡◌, ◌≤◌, ◌<◌, ◌+◌, ◌++◌, ◌∷◌, [], ℕ, List, length, take};
ghost use Rattle.arrays_core.specs.Limits.{most_axes};
ghost use Rattle.index_region.specs.Advancing.{next_in};

use arrays_core::MOST_AXES;
use std::marker::Model;

/// An index list of at most four indices, stored inline.
#[derive(Drop)]
pub struct IndexList {
    indices: [u32; MOST_AXES],
    rank: usize,
}

impl Model for IndexList {
    ghost Value = { List ℕ };

    ghost view = { λ i. take i.rank i.indices };

    ghost invariant = { λ i. i.rank ≤ most_axes };
}

impl IndexList {
    /// Returns the index list of a scalar.
    pub fn none() -> IndexList
        ensures { result ≡ [] }
    {
        IndexList {
            indices: [1; MOST_AXES],
            rank: 0,
        }
    }

    /// Appends an index.
    pub fn push(&mut self, index: u32)
        requires { length self.old < most_axes }
        ensures is { self.new ≡ self.old ++ index ∷ [] }
        ensures long { length self.new ≡ length self.old + 1 }
    {
        self.indices[self.rank] = index;
        self.rank += 1;
    }

    /// Borrows the indices.
    pub fn as_slice(&self) -> &[u32]
        ensures is { result.now ≡ self.now }
        ensures few { length self.now ≤ most_axes }
    {
        &self.indices[..self.rank]
    }

    /// Moves to the next index list of a box in row-major order, and from the last to the first.
    pub(crate) fn advance(&mut self, intervals: &[(u32, u32)])
        ensures { self.new ≡ (next_in intervals.now self.old).0 }
    {
        advance_in(intervals, &mut self.indices[..self.rank]);
    }
}

/// Moves to the next index list in place, and returns whether it wrapped around to the first.
fn advance_in(intervals: &[(u32, u32)], index: &mut [u32]) -> bool
    ensures is { index.new ≡ (next_in intervals.now index.old).0 }
    ensures around { result ≡ (next_in intervals.now index.old).1 }
{
    let Some(((first, last), intervals)) = intervals.split_first() else {
        return true;
    };
    let Some((i, index)) = index.split_first_mut() else {
        return true;
    };
    if !advance_in(intervals, index) {
        return false;
    }
    if *i < *last {
        *i += 1;
        return false;
    }
    *i = *first;
    true
}
