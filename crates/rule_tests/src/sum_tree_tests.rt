//! Trees of sums: totals of given numbers, and the number of joins, for which contracts give only bounds.

ghost use Rattle.std.specs.Prelude.{◌≡◌};

use arrays_core::Kind;
use fold_trees::SumTree;
use std::alloc::Global;
use std::process::Abort;

/// Returns the tree of these numbers.
fn tree_of(rt: &impl Abort, alloc: Global, numbers: &[i64]) -> SumTree
    ensures { result ≡ numbers.now }
{
    SumTree::build(alloc, numbers).expect(rt, "a tree")
}

/// Ends the test unless the total of these numbers is this one.
fn assert_total(rt: &impl Abort, alloc: Global, numbers: &[i64], total: i64) {
    let tree = tree_of(rt, alloc, numbers);
    assert!(rt; tree.is_empty() == numbers.is_empty());
    assert!(rt; matches!(tree.result(), Ok(found) if found == total));
}

#[test]
fn numbers_are_added_from_the_last(rt: HostRuntime) {
    let alloc = rt.alloc();
    assert_total(&rt, alloc, &[-5, i64::MAX, 0], 9_223_372_036_854_775_802);
    assert_total(&rt, alloc, &[1, i64::MAX, -1], i64::MAX);
    assert_total(&rt, alloc, &[], 0);
    let beyond = tree_of(&rt, alloc, &[-1, 1, i64::MAX]);
    assert!(rt; matches!(beyond.result(), Err(Kind::Limit)));
}

#[test]
fn another_number_changes_the_sum(rt: HostRuntime) {
    let mut tree = tree_of(&rt, rt.alloc(), &[-5, i64::MAX, 0]);
    assert!(rt; matches!(tree.result_with(2, 1).0, Err(Kind::Limit)));
    tree.set(2, -1);
    assert!(rt; matches!(tree.result(), Ok(9_223_372_036_854_775_801)));
}

/// Returns the greatest number of joins after one of this many numbers is replaced.
fn greatest_count(rt: &impl Abort, alloc: Global, length: usize) -> u32 {
    let numbers = [1].repeat(alloc, length).expect(rt, "numbers");
    let tree = tree_of(rt, alloc, &numbers);
    let mut greatest = 0;
    for place in 0..tree.len() {
        let (_, joins) = tree.result_with(place, 7);
        greatest = greatest.max(joins);
    }
    greatest
}

#[test]
fn one_number_takes_as_many_joins_as_the_length_less_one_has_digits(rt: HostRuntime) {
    for (length, joins) in &[
        (1, 0),
        (2, 1),
        (3, 2),
        (4, 2),
        (5, 3),
        (8, 3),
        (9, 4),
        (17, 5),
        (1024, 10),
        (1025, 11),
    ] {
        assert!(rt; greatest_count(&rt, rt.alloc(), *length) == *joins);
    }
}
