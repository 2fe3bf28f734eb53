//! Places of index lists that are computed and not stored.

ghost use Rattle.std.specs.Prelude.{◌≡◌, ◌≤◌, ◌<◌, ◌++◌, ◌∷◌, [], ℕ, List, IsTrue, length, get_or, set};
ghost use Rattle.arrays_core.specs.Shapes.{IsWithinLimits, is_index_of, places_before};

/// An index list that is computed one index at a time.
pub(crate) trait IndexSource {
    ghost list: { Self → List ℕ };

    /// Returns the index on an axis, which is counted from 0.
    fn index(&self, axis: usize) -> u32
        requires { axis < length (list self.now) }
        ensures { result ≡ get_or (list self.now) axis 0 };
}

/// Returns the number of index lists of a shape before this one in row-major order.
pub(crate) fn place_of<S: IndexSource>(axes: &[u32], source: &S) -> u32
    requires within { IsWithinLimits axes.now }
    requires in_range { IsTrue (is_index_of axes.now (S.list source.now)) }
    ensures { result ≡ places_before axes.now (S.list source.now) }
{
    let mut before = 0;
    for k in 0..axes.len() {
        before = before * axes[k] + (source.index(k) - 1);
    }
    before
}

/// Returns the number of items of an array before a row, which lies along the last axis.
pub(crate) fn row_place(axes: &[u32], row: &[u32]) -> u32
    requires within { IsWithinLimits axes.now }
    requires in_range { IsTrue (is_index_of axes.now (row.now ++ 1 ∷ [])) }
    ensures { result ≡ places_before axes.now (row.now ++ 1 ∷ []) }
{
    let mut before = 0;
    for k in 0..row.len() {
        before = before * axes[k] + (row[k] - 1);
    }
    before * axes[row.len()]
}

/// The index list of the first place of a row, with another index on one axis.
#[derive(Clone, Copy)]
pub(crate) struct RowWith<'a> {
    /// The indices of the row on all axes but the last.
    pub row: &'a [u32],
    /// The axis with the other index.
    pub axis: usize,
    /// The other index.
    pub index: u32,
}

impl<'a> IndexSource for RowWith<'a> {
    ghost list = { λ s. set (s.row.now ++ 1 ∷ []) s.axis s.index };

    #[inline]
    fn index(&self, axis: usize) -> u32 {
        if axis == self.axis {
            self.index
        } else if axis < self.row.len() {
            self.row[axis]
        } else {
            1
        }
    }
}

/// Returns the index on an axis, counted from 0, of the index list with the indices of a row and `last` on the last axis.
pub(crate) fn index_on_axis(row: &[u32], last: u32, axis: usize) -> u32
    requires { axis ≤ length row.now }
    ensures { result ≡ get_or (row.now ++ last ∷ []) axis 0 }
{
    if axis < row.len() { row[axis] } else { last }
}
