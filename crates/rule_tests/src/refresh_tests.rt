//! The change of a node after one place of an argument changed: a patch of one place, and one tick.

ghost use Rattle.std.specs.Prelude.{◌≡◌, length};
ghost use Rattle.index_region.specs.Patches.{FitsPatch};

use crate::fixtures::{array_of, item_in, patch_of};
use arrays_core::{Array, Item};
use change_core::Rule;
use change_rules::{Delta, Meter, Patch, Seen, refresh};
use item_fns::Scalar2;
use scalar_fns::EachDyadic;
use std::alloc::Global;
use std::process::Abort;

/// Returns whether a change is a patch of the second place of a vector alone, by this number.
fn is_second_alone(change: &Delta, number: i64) -> bool {
    item_in(change, &[1]).is_none()
        && item_in(change, &[2]) == Some(Item::Num(number))
        && item_in(change, &[3]).is_none()
}

/// Returns the change of a node that held an array, under a patch of its left argument.
fn change_of_left<'a, R: Rule>(
    rt: &impl Abort,
    alloc: Global,
    rule: &R,
    left: (&'a Array, &'a Patch),
    right: &'a Array,
    meter: &mut Meter,
) -> Delta
    requires count { length (R.model rule.now).selectors ≡ 2 }
    requires fits { FitsPatch left.0.now left.1.now }
{
    let moved = Delta::Patch(left.1.copy().expect(rt, "a patch"));
    let old = Ok(Array::scalar(alloc, 0).expect(rt, "a number"));
    let args = [
        (Seen::patched(left.0, left.1), &moved),
        (Seen::plain(right), &Delta::Same),
    ];
    refresh(alloc, rule, &args, &old, meter).expect(rt, "a change")
}

#[test]
fn doubles_one_place(rt: HostRuntime) {
    let numbers = array_of(&rt, rt.alloc(), &[3], &[1, 2, 3]);
    let seven = patch_of(&rt, rt.alloc(), &numbers, &[(2, 2)], 7);
    let two = Array::scalar(rt.alloc(), 2).expect(&rt, "a number");
    let rule = EachDyadic {
        function: Scalar2::Times,
    };
    let mut meter = Meter::new();
    let left = (&numbers, &seven);
    let change = change_of_left(&rt, rt.alloc(), &rule, left, &two, &mut meter);
    assert!(rt; is_second_alone(&change, 14) && meter.ticks() == 1);
}
