//! The change of sums of rows by a tree for each row, and the joins that it takes.

ghost use Rattle.std.specs.Prelude.{◌≡◌, ◌∷◌, []};
ghost use Rattle.std.specs.List.{flat_map};
ghost use Rattle.index_region.specs.Patches.{FitsPatch};
ghost use Rattle.sum_rules.specs.LineSums.{array_of_shape};
ghost use Rattle.sum_rules.specs.Totals.{AreAllAsLong};

use crate::fixtures::{array_of, item_in, patch_of};
use arrays_core::{Array, Fault, Item, Kind, shape_of};
use change_core::Meter;
use fold_trees::SumTree;
use index_region::{Delta, Patch, Seen};
use std::alloc::Global;
use std::process::Abort;
use sum_rules::refresh_sums;

/// Returns the change of the sums of two rows of five numbers under a patch, by a tree for each row.
fn sums_with(
    rt: &impl Abort,
    alloc: Global,
    rows: &Array,
    patch: &Patch,
    trees: &[SumTree],
    meter: &mut Meter,
) -> Delta
    requires rows { rows.now ≡ array_of_shape (2 ∷ 5 ∷ []) (flat_map (λ row. row) trees.now) }
    requires fits { FitsPatch rows.now patch.now }
    requires long { AreAllAsLong 5 trees.now }
{
    // `shape` shows that the array is sound.
    let _sound = rows.shape();
    let moved = Delta::Patch(patch.copy().expect(rt, "a patch"));
    let old = Ok(Array::scalar(alloc, 0).expect(rt, "a number"));
    let arg = (Seen::patched(rows, patch), &moved);
    refresh_sums(alloc, arg, &old, trees, meter).expect(rt, "a change")
}

/// Returns the error of a name without a value.
fn no_value() -> Fault {
    Fault {
        kind: Kind::Value,
        origin: None,
    }
}

/// Returns the number of joins for the totals of a new array, and the number of totals computed.
fn joins_anew(rt: &impl Abort, alloc: Global, array: &Array) -> (u64, u64) {
    assert!(rt; !array.shape().as_slice().is_empty());
    let anew = Delta::Whole(Err(no_value()));
    let old = Err(no_value());
    let arg = (Seen::plain(array), &anew);
    let mut meter = Meter::new();
    let _change = refresh_sums(alloc, arg, &old, &[], &mut meter).expect(rt, "a change");
    (meter.joins(), meter.ticks())
}

#[test]
fn a_new_array_joins_all_numbers_of_its_lines(rt: HostRuntime) {
    let rows = array_of(&rt, rt.alloc(), &[2, 3], &[1; 6]);
    assert!(rt; joins_anew(&rt, rt.alloc(), &rows) == (4, 2));
}

/// Returns the array of two rows of five numbers.
fn two_rows(rt: &impl Abort, alloc: Global, numbers: &[i64]) -> Array
    ensures { result ≡ array_of_shape (2 ∷ 5 ∷ []) numbers.now }
{
    assert!(rt; numbers.len() == 10);
    let numbers = numbers.to_vec(alloc).expect(rt, "numbers");
    Array::from_numbers(&shape_of(alloc, &[2, 5]), numbers).expect(rt, "an array")
}

/// Returns the tree of a row of five numbers.
fn tree_of(rt: &impl Abort, alloc: Global, row: &[i64; 5]) -> SumTree
    ensures { result ≡ row.now }
{
    SumTree::build(alloc, row).expect(rt, "a tree")
}

/// Ends the test unless one place of the second row, changed to 90, changes the second sum alone to this number, by one to three joins.
fn assert_change(
    rt: &impl Abort,
    alloc: Global,
    rows: &Array,
    trees: &[SumTree],
    place: u32,
    sum: i64,
)
    requires rows { rows.now ≡ array_of_shape (2 ∷ 5 ∷ []) (flat_map (λ row. row) trees.now) }
    requires long { AreAllAsLong 5 trees.now }
{
    let patch = patch_of(rt, alloc, rows, &[(2, 2), (place, place)], 90);
    let mut meter = Meter::new();
    let change = sums_with(rt, alloc, rows, &patch, trees, &mut meter);
    assert!(rt; item_in(&change, &[1]).is_none() && item_in(&change, &[2]) == Some(Item::Num(sum)));
    assert!(rt; meter.ticks() == 1 && matches!(meter.joins(), 1..=3));
}

/// Changes a place at each end of the second row, and the one between.
fn change_places(rt: &impl Abort, alloc: Global, rows: &Array, trees: &[SumTree])
    requires rows { rows.now ≡ array_of_shape (2 ∷ 5 ∷ []) (flat_map (λ row. row) trees.now) }
    requires long { AreAllAsLong 5 trees.now }
{
    assert_change(rt, alloc, rows, trees, 1, 104);
    assert_change(rt, alloc, rows, trees, 3, 102);
    assert_change(rt, alloc, rows, trees, 5, 100);
}

#[test]
fn one_number_of_two_rows_changes_one_sum(rt: HostRuntime) {
    let (first, second) = ([1, 1, 1, 1, 1], [1, 2, 3, 4, 5]);
    let rows = two_rows(&rt, rt.alloc(), &[1, 1, 1, 1, 1, 1, 2, 3, 4, 5]);
    let trees = [
        tree_of(&rt, rt.alloc(), &first),
        tree_of(&rt, rt.alloc(), &second),
    ];
    change_places(&rt, rt.alloc(), &rows, &trees);
}
