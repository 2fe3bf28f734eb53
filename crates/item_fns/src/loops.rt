//! Loops over slices of numbers, compiled for each function.

ghost use Rattle.std.specs.Prelude.{◌≡◌, ◌≢◌, ◌<◌, ◌≤◌, ℕ, ℤ, Result, Ok, length, map, get_or, pos, IfOk, IfSome, vec_len};
ghost use Rattle.std.specs.List.{range_with_len};
ghost use Rattle.arrays_core.specs.Items.{all_or_first_error};
ghost use Rattle.arrays_core.specs.declared.item.Kind.{Kind as AKind};
ghost use Rattle.item_fns.specs.NumberLists.{results_by, paired_length, IsListAnswerTo};

use crate::kernels::{OneNumber, TwoNumbers, WithLeft, WithRight};
use arrays_core::{ApplyFault, Kind, room_of};
use std::alloc::{AllocError, Global};

/// A function of the places of a list, which count from 0.
trait AtPlaces {
    ghost places: { Self → ℕ };

    ghost number: { Self → ℕ → Result ℤ AKind };

    /// Returns the number at a place, or its error.
    fn at(&self, place: usize) -> Result<i64, Kind>
        requires { place < places self.now }
        ensures { result ≡ number self.now place };

    /// Returns true if `step` is quicker than `at`.
    fn has_step(&self) -> bool;

    /// Returns the number at a place, and 0 unless an error is possible there.
    fn step(&self, place: usize) -> (i64, u64)
        requires { place < places self.now }
        ensures { result.1 ≡ 0 → number self.now place ≡ Ok result.0 };
}

/// A function of each number of a list.
#[derive(Drop)]
struct Each<'a, S> {
    step: &'a S,
    numbers: &'a [i64],
}

impl<'a, S: OneNumber> AtPlaces for Each<'a, S> {
    ghost places = { λ e. length e.numbers.now };

    ghost number = { λ e place. S.gives e.step.now (get_or e.numbers.now place (pos 0)) };

    fn at(&self, place: usize) -> Result<i64, Kind> {
        self.step.at(self.numbers[place])
    }

    fn has_step(&self) -> bool {
        self.step.has_step()
    }

    fn step(&self, place: usize) -> (i64, u64) {
        self.step.step(self.numbers[place])
    }
}

/// A function of the numbers at each place of two lists of one length.
#[derive(Drop)]
struct Pairs<'a, S> {
    step: &'a S,
    left: &'a [i64],
    right: &'a [i64],
    ghost paired: { length left.now ≡ length right.now },
}

impl<'a, S: TwoNumbers> AtPlaces for Pairs<'a, S> {
    ghost places = { λ p. length p.left.now };

    ghost number = { λ p place. S.gives p.step.now (get_or p.left.now place (pos 0)) (get_or p.right.now place (pos 0)) };

    fn at(&self, place: usize) -> Result<i64, Kind> {
        self.step.at(self.left[place], self.right[place])
    }

    fn has_step(&self) -> bool {
        self.step.has_step()
    }

    fn step(&self, place: usize) -> (i64, u64) {
        self.step.step(self.left[place], self.right[place])
    }
}

/// Makes the numbers at the first `count` places in one pass, without a check at each step. None if an error is possible.
fn made_at_once<P: AtPlaces>(
    alloc: Global,
    function: &P,
    count: usize,
) -> Result<Option<Vec<i64>>, AllocError>
    requires { count ≤ P.places function.now }
    ensures is { IfOk result (λ made. IfSome made (λ v. all_or_first_error (map (P.number function.now) (range_with_len 0 count)) ≡ Ok v.items)) }
    ensures long { IfOk result (λ made. IfSome made (λ v. vec_len v ≡ count)) }
{
    let mut results = Vec::with_capacity(alloc, room_of(count))?;
    let mut doubt = 0;
    for place in 0..count {
        let (result, more) = function.step(place);
        results.push_reserved(result);
        doubt |= more;
    }
    if doubt == 0 {
        Ok(Some(results))
    } else {
        Ok(None)
    }
}

/// Makes the numbers at the first `count` places. Checks each step only if the function has no step, or an error is possible.
fn made<P: AtPlaces>(alloc: Global, function: &P, count: usize) -> Result<Vec<i64>, ApplyFault>
    requires { count ≤ P.places function.now }
    ensures is { IsListAnswerTo (all_or_first_error (map (P.number function.now) (range_with_len 0 count))) result }
    ensures long { IfOk result (λ v. vec_len v ≡ count) }
{
    if function.has_step() {
        if let Some(results) = made_at_once(alloc, function, count)? {
            return Ok(results);
        }
    }
    let mut results = Vec::with_capacity(alloc, room_of(count))?;
    for place in 0..count {
        let result = function.at(place)?;
        results.push_reserved(result);
    }
    Ok(results)
}

/// Applies a function to each number of a list.
pub(crate) fn on_each<S: OneNumber>(
    alloc: Global,
    step: &S,
    numbers: &[i64],
) -> Result<Vec<i64>, ApplyFault>
    ensures is { IsListAnswerTo (all_or_first_error (map (S.gives step.now) numbers.now)) result }
    ensures long { IfOk result (λ v. vec_len v ≡ length numbers.now) }
{
    made(alloc, &Each { step, numbers }, numbers.len())
}

/// Applies a function to one number and each number of a list.
pub fn with_left<S: TwoNumbers + Copy>(
    alloc: Global,
    step: S,
    left: i64,
    right: &[i64],
) -> Result<Vec<i64>, ApplyFault>
    ensures is { IsListAnswerTo (all_or_first_error (map (S.gives step left) right.now)) result }
    ensures long { IfOk result (λ v. vec_len v ≡ length right.now) }
{
    on_each(alloc, &WithLeft { step, left }, right)
}

/// Applies a function to two lists, place by place. A list of one number is extended to the length of the other.
pub(crate) fn on_lists<S: TwoNumbers + Copy>(
    alloc: Global,
    step: S,
    left: &[i64],
    right: &[i64],
) -> Result<Vec<i64>, ApplyFault>
    requires { length left.now ≢ 1 → length right.now ≢ 1 → length left.now ≡ length right.now }
    ensures is { IsListAnswerTo (all_or_first_error (results_by (S.gives step) left.now right.now)) result }
    ensures long { IfOk result (λ v. vec_len v ≡ paired_length left.now right.now) }
{
    if left.len() == 1 {
        with_left(alloc, step, left[0], right)
    } else if right.len() == 1 {
        let with_right = WithRight {
            step,
            right: right[0],
        };
        on_each(alloc, &with_right, left)
    } else {
        let pairs = Pairs {
            step: &step,
            left,
            right,
        };
        made(alloc, &pairs, left.len())
    }
}
