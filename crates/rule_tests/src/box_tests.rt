//! The part that two boxes share, and the places that a rule reaches from the changed box of an argument. The boxes of
//! each function are worked cases in the proofs of its rule.

use crate::fixtures::array_of;
use change_rules::{Reach, Rule, Seen};
use index_region::IndexBox;
use item_fns::Scalar2;
use scalar_fns::EachDyadic;

#[test]
fn boxes_meet(rt: HostRuntime) {
    let one = IndexBox::of(&[(1, 2), (2, 3)]).expect(&rt, "a box");
    let other = IndexBox::of(&[(2, 4), (1, 2)]).expect(&rt, "a box");
    assert!(rt; one.as_slice().len() == other.as_slice().len());
    let meet = one.meet(&other);
    assert!(rt; matches!(meet, Some(meet) if meet.as_slice() == [(2, 2), (2, 2)].as_slice()));
}

#[test]
fn a_sum_reaches_the_changed_box(rt: HostRuntime) {
    let numbers = array_of(&rt, rt.alloc(), &[5], &[1, 2, 3, 4, 5]);
    let region = IndexBox::of(&[(2, 3)]).expect(&rt, "a box");
    assert!(rt; region.lies_in(numbers.shape().as_slice()));
    let sum = EachDyadic {
        function: Scalar2::Plus,
    };
    let args = [Seen::plain(&numbers), Seen::plain(&numbers)];
    let reach = sum.reach(&args, &[Some(region), None]);
    assert!(rt; matches!(reach, Reach::Inside(region) if region.as_slice() == [(2, 3)].as_slice()));
}
