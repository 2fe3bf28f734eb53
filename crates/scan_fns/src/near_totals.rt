//! Scans by `+` and `-` of near numbers: a running total without checks, and a word of doubt.

ghost use Rattle.std.specs.Prelude.{◌≡◌, ◌<◌, ◌≤◌, ◌+◌, ◌-◌, ◌%◌, ◌+ℤ◌, ◌-ℤ◌, ℤ, if◌then◌else◌, pos, All, length, min, get_or, Ok, IfOk, IfSome, vec_len};
ghost use Rattle.std.specs.Int.{int_wrap, w64};
ghost use Rattle.item_fns.specs.Numbers.{dyadic_on_numbers};
ghost use Rattle.item_fns.specs.AtOnce.{IsSum};
ghost use Rattle.scan_fns.specs.LinearScan.{run_to, scanned, scans_of, AreResultsTo};
ghost use Rattle.scan_fns.specs.NearTotals.{AreNear, total_function, wrapped_total, wrapped_to};

use arrays_core::room_of;
use item_fns::{NEAR, beyond};
use reduce_fns::{AxisLines, MOST_ITEMS};
use std::alloc::{AllocError, Global};

/// Adds the number to the total without a check, or subtracts it.
#[inline]
fn with_number(total: i64, number: i64, is_added: bool) -> i64
    ensures { (t : ℤ) → total ≡ int_wrap w64 t → result ≡ int_wrap w64 (if is_added then t +ℤ number else t -ℤ number) }
{
    if is_added {
        total.wrapping_add(number)
    } else {
        total.wrapping_sub(number)
    }
}

/// Returns the result one row above on the line, or 0 in row 0 of a block.
#[inline]
fn total_before(results: &[i64], place: usize, stride: usize, row: usize) -> i64
    requires apart { 0 < stride }
    requires made { place ≤ length results.now }
    requires enough { 0 < row → stride ≤ place }
    ensures first { row ≡ 0 → result ≡ pos 0 }
    ensures later { 0 < row → result ≡ get_or results.now (place - stride) (pos 0) }
{
    if row == 0 { 0 } else { results[place - stride] }
}

/// Appends the totals of the next line, of `count` contiguous numbers. The last line may be shorter. Returns 0 only if its numbers are near.
fn push_line(results: &mut Vec<i64>, numbers: &[i64], count: usize, turned: bool) -> u64
    requires some { 1 ≤ count }
    requires more { vec_len results.old < length numbers.now }
    requires begins { vec_len results.old % count ≡ 0 }
    requires before { AreResultsTo (vec_len results.old) (wrapped_to turned numbers.now 1 count) numbers.now results.old }
    ensures is { AreResultsTo (min (vec_len results.old + count) (length numbers.now)) (wrapped_to turned numbers.now 1 count) numbers.now results.new }
    ensures near { result ≡ 0 → AreNear numbers.now (vec_len results.old) (min (vec_len results.old + count) (length numbers.now)) }
{
    let first = results.len();
    let end = first + count.min(numbers.len() - first);
    let mut total = 0;
    let mut doubt = 0;
    for place in first..end {
        let number = numbers[place];
        total = with_number(total, number, !turned | ((place - first) % 2 == 0));
        results.push_reserved(total);
        doubt |= beyond(number, NEAR);
    }
    doubt
}

/// Returns the totals up to each place of its line, and 0 only if all numbers are near; a line is `count` contiguous numbers.
fn totals_beside(
    alloc: Global,
    numbers: &[i64],
    count: usize,
    turned: bool,
) -> Result<(Vec<i64>, u64), AllocError>
    requires { 1 ≤ count }
    ensures is { IfOk result (λ made. scanned (wrapped_total turned) numbers.now 1 count ≡ Ok made.0.items) }
    ensures long { IfOk result (λ made. vec_len made.0 ≡ length numbers.now) }
    ensures near { IfOk result (λ made. made.1 ≡ 0 → AreNear numbers.now 0 (length numbers.now)) }
{
    let mut results = Vec::with_capacity(alloc, room_of(numbers.len()))?;
    let mut doubt = 0;
    while results.len() < numbers.len() {
        doubt |= push_line(&mut results, numbers, count, turned);
    }
    Ok((results, doubt))
}

/// Appends the totals of the next row of a block, one number of each line of the block. Returns 0 only if its numbers are near.
fn push_row(
    results: &mut Vec<i64>,
    numbers: &[i64],
    stride: usize,
    count: usize,
    turned: bool,
) -> u64
    requires some { 1 ≤ count }
    requires apart { 0 < stride }
    requires more { vec_len results.old < length numbers.now }
    requires begins { vec_len results.old % stride ≡ 0 }
    requires before { AreResultsTo (vec_len results.old) (wrapped_to turned numbers.now stride count) numbers.now results.old }
    ensures is { AreResultsTo (min (vec_len results.old + stride) (length numbers.now)) (wrapped_to turned numbers.now stride count) numbers.now results.new }
    ensures near { result ≡ 0 → AreNear numbers.now (vec_len results.old) (min (vec_len results.old + stride) (length numbers.now)) }
{
    let first = results.len();
    let end = first + stride.min(numbers.len() - first);
    let row = first / stride % count;
    let is_added = !turned | (row % 2 == 0);
    let mut doubt = 0;
    for place in first..end {
        let number = numbers[place];
        let before = total_before(results, place, stride, row);
        results.push_reserved(with_number(before, number, is_added));
        doubt |= beyond(number, NEAR);
    }
    doubt
}

/// Returns the totals up to each place of its line, and 0 only if all numbers are near, a row at a time; neighbours are `stride` apart.
fn totals_apart(
    alloc: Global,
    lines: &AxisLines,
    turned: bool,
) -> Result<(Vec<i64>, u64), AllocError>
    ensures is { IfOk result (λ made. scanned (wrapped_total turned) lines.now.numbers.now lines.now.stride lines.now.count ≡ Ok made.0.items) }
    ensures long { IfOk result (λ made. vec_len made.0 ≡ length lines.now.numbers.now) }
    ensures near { IfOk result (λ made. made.1 ≡ 0 → AreNear lines.now.numbers.now 0 (length lines.now.numbers.now)) }
{
    let mut results = Vec::with_capacity(alloc, room_of(lines.numbers.len()))?;
    let mut doubt = 0;
    while results.len() < lines.numbers.len() {
        doubt |= push_row(
            &mut results,
            lines.numbers,
            lines.stride,
            lines.count,
            turned,
        );
    }
    Ok((results, doubt))
}

/// Returns the totals up to each place of its line, and 0 only if all numbers are near.
fn totals(alloc: Global, lines: &AxisLines, turned: bool) -> Result<(Vec<i64>, u64), AllocError>
    ensures is { IfOk result (λ made. scanned (wrapped_total turned) lines.now.numbers.now lines.now.stride lines.now.count ≡ Ok made.0.items) }
    ensures long { IfOk result (λ made. vec_len made.0 ≡ length lines.now.numbers.now) }
    ensures near { IfOk result (λ made. made.1 ≡ 0 → AreNear lines.now.numbers.now 0 (length lines.now.numbers.now)) }
{
    if lines.stride == 1 {
        totals_beside(alloc, lines.numbers, lines.count, turned)
    } else {
        totals_apart(alloc, lines, turned)
    }
}

/// Scans each line by `+`, or by `-` if `turned`, in one pass without checks. None if a number is not near.
pub(crate) fn near_totals(
    alloc: Global,
    lines: &AxisLines,
    turned: bool,
) -> Result<Option<Vec<i64>>, AllocError>
    ensures is { IfOk result (λ made. IfSome made (λ v. scans_of (dyadic_on_numbers (total_function turned)) lines.now ≡ Ok v.items)) }
    ensures long { IfOk result (λ made. IfSome made (λ v. vec_len v ≡ length lines.now.numbers.now)) }
{
    if lines.numbers.len() > MOST_ITEMS {
        return Ok(None);
    }
    let (results, doubt) = totals(alloc, lines, turned)?;
    if doubt == 0 {
        Ok(Some(results))
    } else {
        Ok(None)
    }
}
