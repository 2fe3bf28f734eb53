//! A row and a column paired entry by entry, and the fold of a function of the pairs: of numbers, and of items.

ghost use Rattle.std.specs.Prelude.{◌≡◌, ◌<◌, ◌≤◌, ℕ, Result, pos, map, length, IfOk};
ghost use Rattle.std.specs.List.{range_with_len};
ghost use Rattle.arrays_core.specs.Limits.{most_places};
ghost use Rattle.arrays_core.specs.Items.{fill, type_of};
ghost use Rattle.arrays_core.specs.declared.item.ItemType.TheVariants.{Nums};
ghost use Rattle.arrays_core.specs.declared.item.Kind.{Kind as AKind};
ghost use Rattle.item_fns.specs.Items.{dyadic_on_items};
ghost use Rattle.item_fns.specs.Numbers.{dyadic_on_numbers};
ghost use Rattle.operator_fns.specs.RowByColumn.{entry, IsInside, last_error_or, folded_all};

use arrays_core::{Item, Kind};
use index_region::Seen;
use item_fns::{Scalar2, two, two_numbers};

/// Entries of a list at a fixed distance.
#[derive(Clone, Copy)]
pub(crate) struct StridedLine {
    /// The position of the first entry, counted from 0.
    pub(crate) first: usize,
    /// The distance between neighbours; 0 if one entry stands for all.
    pub(crate) stride: usize,
}

/// A row paired with a column: the result of each pair, and the fold of the results.
pub(crate) trait Meeting {
    /// The result of a pair, and of the fold.
    type Output: Copy;

    ghost places: { Self → ℕ };

    ghost met: { Self → ℕ → Result Self.Output AKind };

    ghost fold: { Self → Self.Output → Self.Output → Result Self.Output AKind };

    ghost is_output: { Self → Self.Output → Type 0 };

    /// Returns the number of pairs.
    fn count(&self) -> usize
        ensures { result ≡ places self.now };

    /// Returns the result of the pair at a place, or its error.
    fn met_at(&self, place: usize) -> Result<Self::Output, Kind>
        requires { place < places self.now }
        ensures is { result ≡ met self.now place }
        ensures typed { IfOk result (is_output self.now) };

    /// Combines the result of a pair with the fold of the later ones.
    fn folded(&self, here: Self::Output, later: Self::Output) -> Result<Self::Output, Kind>
        ensures is { result ≡ fold self.now here later }
        ensures typed { IfOk result (is_output self.now) };
}

/// Returns the error of the last pair that fails among the first `count`, or `error` if none fails.
fn last_error<M: Meeting>(lines: &M, count: usize, error: Kind) -> Kind
    requires { count ≤ M.places lines.now }
    ensures { result ≡ last_error_or error (map (M.met lines.now) (range_with_len 0 count)) }
{
    for place in (0..count).rev() {
        if let Err(kind) = lines.met_at(place) {
            return kind;
        }
    }
    error
}

/// Folds the results of all pairs from the last to the first. If the fold fails, it still evaluates the earlier pairs: their errors come first.
pub(crate) fn fold_row<M: Meeting>(lines: &M) -> Result<M::Output, Kind>
    requires { 1 ≤ M.places lines.now }
    ensures is { result ≡ folded_all (M.fold lines.now) (map (M.met lines.now) (range_with_len 0 (M.places lines.now))) }
    ensures typed { IfOk result (M.is_output lines.now) }
{
    let last = lines.count() - 1;
    let mut result = lines.met_at(last)?;
    for place in (0..last).rev() {
        let here = lines.met_at(place)?;
        result = match lines.folded(here, result) {
            Ok(folded) => folded,
            Err(kind) => return Err(last_error(lines, place, kind)),
        };
    }
    Ok(result)
}

/// A row of one list of numbers and a column of another, each of `count` entries.
#[derive(Drop)]
pub(crate) struct NumberLines<'a> {
    pub(crate) fold: Scalar2,
    pub(crate) each: Scalar2,
    pub(crate) left: &'a [i64],
    pub(crate) row: StridedLine,
    pub(crate) right: &'a [i64],
    pub(crate) column: StridedLine,
    pub(crate) count: usize,
    ghost in_left: { IsInside row count (length left.now) },
    ghost in_right: { IsInside column count (length right.now) },
}

impl<'a> Meeting for NumberLines<'a> {
    type Output = i64;

    ghost places = { λ r. r.count };

    ghost met = { λ r place. dyadic_on_numbers r.each (entry (pos 0) r.left.now r.row place) (entry (pos 0) r.right.now r.column place) };

    ghost fold = { λ r. dyadic_on_numbers r.fold };

    ghost is_output = { λ _ _. Unit {0} };

    fn count(&self) -> usize {
        self.count
    }

    fn met_at(&self, place: usize) -> Result<i64, Kind> {
        let number = self.left[self.row.first + place * self.row.stride];
        let other = self.right[self.column.first + place * self.column.stride];
        two_numbers(self.each, number, other)
    }

    fn folded(&self, here: i64, later: i64) -> Result<i64, Kind> {
        two_numbers(self.fold, here, later)
    }
}

/// A row of one array and a column of another, each of `count` entries.
#[derive(Drop)]
pub(crate) struct ItemLines<'a, 'b, 'c> {
    pub(crate) fold: Scalar2,
    pub(crate) each: Scalar2,
    pub(crate) left: &'a Seen<'b>,
    pub(crate) row: StridedLine,
    pub(crate) right: &'a Seen<'c>,
    pub(crate) column: StridedLine,
    pub(crate) count: usize,
    ghost in_left: { IsInside row count (length left.now.items) },
    ghost in_right: { IsInside column count (length right.now.items) },
    ghost left_few: { length left.now.items ≤ most_places },
    ghost right_few: { length right.now.items ≤ most_places },
}

impl<'a, 'b, 'c> Meeting for ItemLines<'a, 'b, 'c> {
    type Output = Item;

    ghost places = { λ r. r.count };

    ghost met = { λ r place. dyadic_on_items r.each (entry (fill r.left.now.item_type) r.left.now.items r.row place) (entry (fill r.right.now.item_type) r.right.now.items r.column place) };

    ghost fold = { λ r. dyadic_on_items r.fold };

    ghost is_output = { λ _ item. type_of item ≡ Nums };

    fn count(&self) -> usize {
        self.count
    }

    fn met_at(&self, place: usize) -> Result<Item, Kind> {
        let before = self.row.first + place * self.row.stride;
        let item = self.left.item(before as u32 + 1);
        let before = self.column.first + place * self.column.stride;
        let other = self.right.item(before as u32 + 1);
        two(self.each, item, other)
    }

    fn folded(&self, here: Item, later: Item) -> Result<Item, Kind> {
        two(self.fold, here, later)
    }
}
