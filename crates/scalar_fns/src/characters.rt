//! Equality of two lists of characters, place by place.

ghost use Rattle.std.specs.Prelude.{◌≡◌, ◌≢◌, ◌==◌, length, get_or, IfOk};
ghost use Rattle.arrays_core.specs.Building.{listed};
ghost use Rattle.scalar_fns.specs.Characters.{told, AreTold};

use arrays_core::room_of;
use item_fns::truth;
use std::alloc::{AllocError, Global};

/// Returns 1 or 0 for `=` or, if `equal` is false, for `≠`, given whether two items are the same.
pub(crate) fn tell(equal: bool, same: bool) -> i64
    ensures { result ≡ told equal same }
{
    truth(same == equal)
}

/// Compares each character of a list with a given one, for `=` or `≠`.
fn told_each(
    alloc: Global,
    equal: bool,
    character: char,
    characters: &[char],
) -> Result<Vec<i64>, AllocError>
    ensures { IfOk result (λ v. v.items ≡ listed (length characters.now) (λ k. told equal (get_or characters.now k 0 == character))) }
{
    let mut answers = Vec::with_capacity(alloc, room_of(characters.len()))?;
    for place in 0..characters.len() {
        answers.push_reserved(tell(equal, characters[place] == character));
    }
    Ok(answers)
}

/// Compares two lists of one length, place by place, for `=` or `≠`.
fn told_pairs(
    alloc: Global,
    equal: bool,
    left: &[char],
    right: &[char],
) -> Result<Vec<i64>, AllocError>
    requires { length left.now ≡ length right.now }
    ensures { IfOk result (λ v. v.items ≡ listed (length left.now) (λ k. told equal (get_or left.now k 0 == get_or right.now k 0))) }
{
    let mut answers = Vec::with_capacity(alloc, room_of(left.len()))?;
    for place in 0..left.len() {
        answers.push_reserved(tell(equal, left[place] == right[place]));
    }
    Ok(answers)
}

/// Compares two lists, place by place, for `=` or `≠`. A list of one character is extended to the length of the other.
pub(crate) fn equalities(
    alloc: Global,
    equal: bool,
    left: &[char],
    right: &[char],
    places: usize,
) -> Result<Vec<i64>, AllocError>
    requires left_long { length left.now ≢ 1 → length left.now ≡ places }
    requires right_long { length right.now ≢ 1 → length right.now ≡ places }
    requires one { length left.now ≡ 1 → length right.now ≡ places }
    ensures { IfOk result (λ v. AreTold equal left.now right.now places v.items) }
{
    if left.len() == 1 {
        told_each(alloc, equal, left[0], right)
    } else if right.len() == 1 {
        told_each(alloc, equal, right[0], left)
    } else {
        told_pairs(alloc, equal, left, right)
    }
}
