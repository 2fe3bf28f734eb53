//! Scans by functions without a usable law: the value that reached a place is kept, and its result reused.

ghost use Rattle.std.specs.Prelude.{◌≡◌, ℕ, ◌<◌, ◌≤◌, pos, length, get_or, Ok, IfOk, vec_len};
ghost use Rattle.item_fns.specs.NumberLists.{IsListAnswerTo};
ghost use Rattle.scan_fns.specs.LinearScan.{scans_of};
ghost use Rattle.scan_fns.specs.Prefixes.{fold_to};
ghost use Rattle.scan_fns.specs.RecalledScan.{AreRecalled};

use arrays_core::{ApplyFault, Kind, room_of};
use item_fns::kernels::TwoNumbers;
use reduce_fns::AxisLines;
use std::alloc::Global;

/// The value that last reached a place during the fold of a later place of its line.
#[derive(Clone, Copy)]
pub(crate) struct Recalled {
    /// The fold of the items from this place to the later one.
    pub(crate) number: i64,
    /// The later place.
    pub(crate) later: usize,
}

/// Folds the numbers up to the place after `results`. Goes back along the line, and stops at a place that the same value reached before.
fn recalled_fold<S: TwoNumbers>(
    step: &S,
    numbers: &[i64],
    results: &[i64],
    recalled: &mut [Recalled],
    stride: usize,
    count: usize,
) -> Result<i64, Kind>
    requires some { 1 ≤ count }
    requires apart { 0 < stride }
    requires more { length results.now < length numbers.now }
    requires long { length recalled.old ≡ length results.now }
    requires results { (place : ℕ) → place < length results.now → fold_to (S.gives step.now) numbers.now stride count place ≡ Ok (get_or results.now place (pos 0)) }
    requires recalled { AreRecalled (S.gives step.now) numbers.now stride count recalled.old }
    ensures is { result ≡ fold_to (S.gives step.now) numbers.now stride count (length results.now) }
    ensures long { length recalled.new ≡ length recalled.old }
    ensures recalled { AreRecalled (S.gives step.now) numbers.now stride count recalled.new }
{
    let place = results.len();
    let mut number = numbers[place];
    let mut here = place;
    for _ in 0..place / stride % count {
        here -= stride;
        number = step.at(numbers[here], number)?;
        let before = recalled[here];
        if before.number == number && before.later < place {
            return Ok(results[before.later]);
        }
        if number == numbers[here] {
            return Ok(results[here]);
        }
        recalled[here] = Recalled {
            number,
            later: place,
        };
    }
    Ok(number)
}

/// Returns the right folds up to each place of its line.
pub(crate) fn recalled_folds<S: TwoNumbers>(
    alloc: Global,
    step: &S,
    lines: &AxisLines,
) -> Result<Vec<i64>, ApplyFault>
    ensures is { IsListAnswerTo (scans_of (S.gives step.now) lines.now) result }
    ensures long { IfOk result (λ v. vec_len v ≡ length lines.now.numbers.now) }
{
    let numbers = lines.numbers;
    let mut results = Vec::with_capacity(alloc, room_of(numbers.len()))?;
    let mut recalled = Vec::with_capacity(alloc, numbers.len())?;
    for place in 0..numbers.len() {
        let number = numbers[place];
        let result = recalled_fold(
            step,
            numbers,
            &results,
            &mut recalled,
            lines.stride,
            lines.count,
        )?;
        results.push_reserved(result);
        recalled.push_reserved(Recalled {
            number,
            later: place,
        });
    }
    Ok(results)
}
