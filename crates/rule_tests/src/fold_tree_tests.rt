//! Trees of folds by each function that has them: the folds of given numbers, and the number of joins, for which
//! contracts give only bounds.

ghost use Rattle.std.specs.Prelude.{◌≡◌, length};

use fold_trees::{FoldTrees, has_trees};
use item_fns::Scalar2;
use std::alloc::Global;
use std::process::Abort;

/// Returns the tree of one row.
fn tree_of(rt: &impl Abort, alloc: Global, function: Scalar2, row: &[i64]) -> FoldTrees
    ensures { result ≡ record { function = function; lines = record { count = length row.now; step = 1; numbers = row.now } } }
{
    assert!(rt; has_trees(function) && !row.is_empty());
    assert!(rt; row.len() % row.len() == 0);
    FoldTrees::build(alloc, function, row, row.len(), 1).expect(rt, "a tree")
}

/// Returns the fold of three ones, with the second one replaced by 0.
fn fold_with_zero(rt: &impl Abort, alloc: Global, function: Scalar2) -> Option<i64> {
    let mut tree = tree_of(rt, alloc, function, &[1, 1, 1]);
    tree.set(1, 0);
    assert!(rt; !tree.is_empty());
    tree.result(0).ok()
}

#[test]
fn each_function_has_trees(rt: HostRuntime) {
    let alloc = rt.alloc();
    assert!(rt; fold_with_zero(&rt, alloc, Scalar2::Plus) == Some(2));
    assert!(rt; fold_with_zero(&rt, alloc, Scalar2::Times) == Some(0));
    assert!(rt; fold_with_zero(&rt, alloc, Scalar2::Maximum) == Some(1));
    assert!(rt; fold_with_zero(&rt, alloc, Scalar2::Minimum) == Some(0));
    assert!(rt; fold_with_zero(&rt, alloc, Scalar2::And) == Some(0));
    assert!(rt; fold_with_zero(&rt, alloc, Scalar2::Or) == Some(1));
}

/// Returns the greatest number of joins where one number of a row of this length is replaced.
fn greatest_count(rt: &impl Abort, alloc: Global, function: Scalar2, length: usize) -> u32 {
    let row = [1].repeat(alloc, length).expect(rt, "a row");
    let tree = tree_of(rt, alloc, function, &row);
    let mut greatest = 0;
    for place in 0..row.len() {
        let (_, joins) = tree.result_with(place, 1);
        greatest = greatest.max(joins);
    }
    greatest
}

/// Ends the test unless the greatest numbers of joins are the binary digits of the lengths less one.
fn assert_counts(rt: &impl Abort, alloc: Global, function: Scalar2) {
    for (length, joins) in &[(1, 0), (2, 1), (5, 3), (1024, 10), (1025, 11)] {
        assert!(rt; greatest_count(rt, alloc, function, *length) == *joins);
    }
}

#[test]
fn one_number_takes_as_many_joins_as_a_tree_has_levels(rt: HostRuntime) {
    for function in &[
        Scalar2::Plus,
        Scalar2::Times,
        Scalar2::Maximum,
        Scalar2::Minimum,
        Scalar2::And,
        Scalar2::Or,
    ] {
        assert_counts(&rt, rt.alloc(), *function);
    }
}
