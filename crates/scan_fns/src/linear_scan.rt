//! Scans of numbers in linear time: each result follows from the one before it on its line.

ghost use Rattle.std.specs.Prelude.{◌≡◌, ◌<◌, ◌≤◌, ◌+◌, ◌-◌, ◌*◌, ◌%◌, true, false, pos, length, min, get_or, Ok, Err, IfOk, IfErr, vec_len};
ghost use Rattle.std.specs.Int.{int_max, int_min};
ghost use Rattle.function_names.specs.declared.scalar.Scalar2.TheVariants.{Plus as Sum};
ghost use Rattle.item_fns.specs.Numbers.{dyadic_on_numbers};
ghost use Rattle.item_fns.specs.NumberLists.{IsListAnswerTo};
ghost use Rattle.scan_fns.specs.LinearScan.{scans_of};
ghost use Rattle.scan_fns.specs.LinearScan.{left_rule, scanned, AreResultsTo, FailsAt, HasRead};
ghost use Rattle.reduce_fns.specs.LeftFolds.{folded_left};
ghost use Rattle.item_fns.specs.Folds.{IsAssociative};

use crate::near_totals::near_totals;
use arrays_core::{ApplyFault, Kind, room_of};
use item_fns::kernels::{Plus, TwoNumbers};
use reduce_fns::AxisLines;
use std::alloc::Global;

/// Computes the greatest suffix sum from the previous one: the last number, plus the previous sum if it is above 0.
struct GreatestEnding;

impl TwoNumbers for GreatestEnding {
    ghost gives = { λ s a b. dyadic_on_numbers Sum (int_max a (pos 0)) b };

    fn at(&self, a: i64, b: i64) -> Result<i64, Kind> {
        Plus.at(a.max(0), b)
    }
}

/// Computes the least suffix sum from the previous one.
struct LeastEnding;

impl TwoNumbers for LeastEnding {
    ghost gives = { λ s a b. dyadic_on_numbers Sum (int_min a (pos 0)) b };

    fn at(&self, a: i64, b: i64) -> Result<i64, Kind> {
        Plus.at(a.min(0), b)
    }
}

/// Returns the next result: the number itself at the first place of a line, else its combination with the result a stride before.
fn next_result<S: TwoNumbers>(
    step: &S,
    results: &[i64],
    number: i64,
    stride: usize,
    is_first: bool,
) -> Result<i64, Kind>
    requires apart { 0 < stride }
    requires enough { is_first ≡ false → stride ≤ length results.now }
    ensures first { is_first ≡ true → result ≡ Ok number }
    ensures later { is_first ≡ false → result ≡ S.gives step.now (get_or results.now (length results.now - stride) (pos 0)) number }
{
    if is_first {
        Ok(number)
    } else {
        step.at(results[results.len() - stride], number)
    }
}

/// Returns the next place of a block, or 0 at its end.
pub(crate) fn place_after(block_place: usize, block: usize) -> usize
    requires { block_place < block }
    ensures { result ≡ (block_place + 1) % block }
{
    if block_place + 1 == block {
        0
    } else {
        block_place + 1
    }
}

/// Returns the next result of a contiguous line: the number itself at the first place, else its combination with the result before.
fn next_in_line<S: TwoNumbers>(
    step: &S,
    before: i64,
    number: i64,
    is_first: bool,
) -> Result<i64, Kind>
    ensures first { is_first ≡ true → result ≡ Ok number }
    ensures later { is_first ≡ false → result ≡ S.gives step.now before number }
{
    if is_first {
        Ok(number)
    } else {
        step.at(before, number)
    }
}

/// Appends the results of the next line, of `count` contiguous numbers. The last line may be shorter.
fn push_line<S: TwoNumbers>(
    results: &mut Vec<i64>,
    step: &S,
    numbers: &[i64],
    count: usize,
) -> Result<(), Kind>
    requires some { 1 ≤ count }
    requires more { vec_len results.old < length numbers.now }
    requires begins { vec_len results.old % count ≡ 0 }
    requires before { AreResultsTo (vec_len results.old) (left_rule (S.gives step.now) numbers.now 1 count) numbers.now results.old }
    ensures is { IfOk result (λ u. AreResultsTo (min (vec_len results.old + count) (length numbers.now)) (left_rule (S.gives step.now) numbers.now 1 count) numbers.now results.new) }
    ensures first { IfErr result (λ kind. scanned (folded_left (S.gives step.now)) numbers.now 1 count ≡ Err kind) }
    ensures read { IfErr result (λ kind. FailsAt (left_rule (S.gives step.now) numbers.now 1 count) numbers.now kind) }
{
    let first = results.len();
    let end = first + count.min(numbers.len() - first);
    let mut before = 0;
    for place in first..end {
        before = next_in_line(step, before, numbers[place], place == first)?;
        results.push_reserved(before);
    }
    Ok(())
}

/// Returns the left folds up to each place of its line; a line is `count` contiguous numbers.
fn running_beside<S: TwoNumbers>(
    alloc: Global,
    step: &S,
    numbers: &[i64],
    count: usize,
) -> Result<Vec<i64>, ApplyFault>
    requires { 1 ≤ count }
    ensures is { IsListAnswerTo (scanned (folded_left (S.gives step.now)) numbers.now 1 count) result }
    ensures long { IfOk result (λ v. vec_len v ≡ length numbers.now) }
    ensures read { HasRead (folded_left (S.gives step.now)) numbers.now 1 count result }
{
    let mut results = Vec::with_capacity(alloc, room_of(numbers.len()))?;
    while results.len() < numbers.len() {
        push_line(&mut results, step, numbers, count)?;
    }
    Ok(results)
}

/// Returns the left folds up to each place of its line; neighbours are `stride` apart.
fn running_apart<S: TwoNumbers>(
    alloc: Global,
    step: &S,
    lines: &AxisLines,
) -> Result<Vec<i64>, ApplyFault>
    ensures is { IsListAnswerTo (scanned (folded_left (S.gives step.now)) lines.now.numbers.now lines.now.stride lines.now.count) result }
    ensures long { IfOk result (λ v. vec_len v ≡ length lines.now.numbers.now) }
    ensures read { HasRead (folded_left (S.gives step.now)) lines.now.numbers.now lines.now.stride lines.now.count result }
{
    let numbers = lines.numbers;
    let stride = lines.stride;
    let mut results = Vec::with_capacity(alloc, room_of(numbers.len()))?;
    let block = lines.count * stride;
    let mut block_place = 0;
    for place in 0..numbers.len() {
        let is_first = block_place < stride;
        let result = next_result(step, &results, numbers[place], stride, is_first)?;
        results.push_reserved(result);
        block_place = place_after(block_place, block);
    }
    Ok(results)
}

/// Returns the left folds up to each place of its line.
pub(crate) fn running<S: TwoNumbers>(
    alloc: Global,
    step: &S,
    lines: &AxisLines,
) -> Result<Vec<i64>, ApplyFault>
    ensures is { IsListAnswerTo (scanned (folded_left (S.gives step.now)) lines.now.numbers.now lines.now.stride lines.now.count) result }
    ensures long { IfOk result (λ v. vec_len v ≡ length lines.now.numbers.now) }
    ensures read { HasRead (folded_left (S.gives step.now)) lines.now.numbers.now lines.now.stride lines.now.count result }
{
    if lines.stride == 1 {
        running_beside(alloc, step, lines.numbers, lines.count)
    } else {
        running_apart(alloc, step, lines)
    }
}

/// Scans each line by an associative function, for which left and right folds agree.
pub(crate) fn running_folds<S: TwoNumbers>(
    alloc: Global,
    step: &S,
    lines: &AxisLines,
) -> Result<Vec<i64>, ApplyFault>
    requires { IsAssociative (S.gives step.now) }
    ensures is { IsListAnswerTo (scans_of (S.gives step.now) lines.now) result }
    ensures long { IfOk result (λ v. vec_len v ≡ length lines.now.numbers.now) }
{
    running(alloc, step, lines)
}

/// Scans each line by `+`. Right folds stay within 64 bits if the greatest and the least suffix sums do. Near numbers take one pass without that
/// check, others take three more.
pub(crate) fn running_sums(alloc: Global, lines: &AxisLines) -> Result<Vec<i64>, ApplyFault>
    ensures is { IsListAnswerTo (scans_of (dyadic_on_numbers Sum) lines.now) result }
    ensures long { IfOk result (λ v. vec_len v ≡ length lines.now.numbers.now) }
{
    if let Some(totals) = near_totals(alloc, lines, false)? {
        return Ok(totals);
    }
    running(alloc, &GreatestEnding, lines)?;
    running(alloc, &LeastEnding, lines)?;
    running(alloc, &Plus, lines)
}
