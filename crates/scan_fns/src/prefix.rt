//! Scans of numbers in one step per number: a prefix of a line is kept as a function of the next number.

ghost use Rattle.std.specs.Prelude.{◌≡◌, ◌<◌, ◌≤◌, ◌+◌, ◌*◌, ◌%◌, true, false, ℤ, length, min, get_or, Result, Err, IfOk, IfErr, vec_len};
ghost use Rattle.arrays_core.specs.declared.item.Kind.{Kind};
ghost use Rattle.item_fns.specs.NumberLists.{IsListAnswerTo};
ghost use Rattle.item_fns.specs.Folds.{folded};
ghost use Rattle.scan_fns.specs.LinearScan.{scans_of};
ghost use Rattle.scan_fns.specs.LinearScan.{scanned, AreResultsTo};
ghost use Rattle.scan_fns.specs.Prefixes.{fold_to, Continues, IsClosed, IsFresh};

use crate::linear_scan::place_after;
use arrays_core::{ApplyFault, Kind, room_of};
use reduce_fns::AxisLines;
use std::alloc::Global;

/// A prefix of a line, as a function of the next number: `x1 f (x2 f (.. (xk f v)))` of v. The empty prefix yields v itself.
pub(crate) trait Prefix {
    ghost step: { Self → ℤ → ℤ → Result ℤ Kind };

    ghost gives: { Self → ℤ → Result ℤ Kind };

    /// Returns the fold of the prefix and `number`, and appends `number` to the prefix. After an error the state of the prefix is not specified.
    fn push(&mut self, number: i64) -> Result<i64, Kind>
        ensures is { result ≡ gives self.old number }
        ensures same { step self.new ≡ step self.old }
        ensures next { IfOk result (λ fold. Continues (step self.old number) (gives self.old) (gives self.new)) };
}

/// Appends the folds of the next line, of `count` contiguous numbers. The last line may be shorter.
fn push_folds<P: Prefix + Copy>(
    results: &mut Vec<i64>,
    none: &P,
    numbers: &[i64],
    count: usize,
) -> Result<(), Kind>
    requires fresh { IsFresh (P.gives none.now) }
    requires closed { IsClosed (P.step none.now) }
    requires some { 1 ≤ count }
    requires more { vec_len results.old < length numbers.now }
    requires begins { vec_len results.old % count ≡ 0 }
    requires before { AreResultsTo (vec_len results.old) (fold_to (P.step none.now) numbers.now 1 count) numbers.now results.old }
    ensures is { IfOk result (λ u. AreResultsTo (min (vec_len results.old + count) (length numbers.now)) (fold_to (P.step none.now) numbers.now 1 count) numbers.now results.new) }
    ensures first { IfErr result (λ kind. scanned (folded (P.step none.now)) numbers.now 1 count ≡ Err kind) }
{
    let first = results.len();
    let end = first + count.min(numbers.len() - first);
    let mut line = *none;
    for place in first..end {
        let result = line.push(numbers[place])?;
        results.push_reserved(result);
    }
    Ok(())
}

/// Returns the folds up to each place of its line; a line is `count` contiguous numbers.
fn folds_beside<P: Prefix + Copy>(
    alloc: Global,
    none: &P,
    numbers: &[i64],
    count: usize,
) -> Result<Vec<i64>, ApplyFault>
    requires fresh { IsFresh (P.gives none.now) }
    requires closed { IsClosed (P.step none.now) }
    requires some { 1 ≤ count }
    ensures is { IsListAnswerTo (scanned (folded (P.step none.now)) numbers.now 1 count) result }
    ensures long { IfOk result (λ v. vec_len v ≡ length numbers.now) }
{
    let mut results = Vec::with_capacity(alloc, room_of(numbers.len()))?;
    while results.len() < numbers.len() {
        push_folds(&mut results, none, numbers, count)?;
    }
    Ok(results)
}

/// Returns the prefix of the line in a column, or the empty prefix if its line begins here.
fn line_so_far<P: Copy>(none: &P, lines: &[P], column: usize, is_first: bool) -> P
    requires { column < length lines.now }
    ensures first { is_first ≡ true → result ≡ none.now }
    ensures later { is_first ≡ false → result ≡ get_or lines.now column none.now }
{
    if is_first { *none } else { lines[column] }
}

/// Returns the folds up to each place of its line; neighbours are `stride` apart. Keeps one prefix for each column of a block.
fn folds_apart<P: Prefix + Copy>(
    alloc: Global,
    none: &P,
    lines: &AxisLines,
) -> Result<Vec<i64>, ApplyFault>
    requires fresh { IsFresh (P.gives none.now) }
    requires closed { IsClosed (P.step none.now) }
    ensures is { IsListAnswerTo (scans_of (P.step none.now) lines.now) result }
    ensures long { IfOk result (λ v. vec_len v ≡ length lines.now.numbers.now) }
{
    let numbers = lines.numbers;
    let stride = lines.stride;
    let mut results = Vec::with_capacity(alloc, room_of(numbers.len()))?;
    let mut kept = vec![in alloc; *none; stride]?;
    let block = lines.count * stride;
    let mut block_place = 0;
    let mut column = 0;
    for place in 0..numbers.len() {
        let mut line = line_so_far(none, &kept, column, block_place < stride);
        let result = line.push(numbers[place])?;
        results.push_reserved(result);
        kept[column] = line;
        block_place = place_after(block_place, block);
        column = place_after(column, stride);
    }
    Ok(results)
}

/// Returns the folds up to each place of its line, in one step per number. `none` is the empty prefix.
pub(crate) fn prefix_folds<P: Prefix + Copy>(
    alloc: Global,
    none: &P,
    lines: &AxisLines,
) -> Result<Vec<i64>, ApplyFault>
    requires fresh { IsFresh (P.gives none.now) }
    requires closed { IsClosed (P.step none.now) }
    ensures is { IsListAnswerTo (scans_of (P.step none.now) lines.now) result }
    ensures long { IfOk result (λ v. vec_len v ≡ length lines.now.numbers.now) }
{
    if lines.stride == 1 {
        folds_beside(alloc, none, lines.numbers, lines.count)
    } else {
        folds_apart(alloc, none, lines)
    }
}
