//! Folds of columns, made by rows.

ghost use Rattle.std.specs.Prelude.{◌≡◌, ◌≤◌, ◌-◌, ◌*◌, length, drop, map, Ok, IfOk, IfSome, true, vec_len};
ghost use Rattle.std.specs.List.{range_with_len};
ghost use Rattle.arrays_core.specs.Items.{all_or_first_error};
ghost use Rattle.reduce_fns.specs.AxisLines.{fold_at};
ghost use Rattle.reduce_fns.specs.Columns.{ArePutOver, AreFourPutOver, AreColumnFolds, EndsInFolds};

use crate::axis_lines::AxisLines;
use arrays_core::room_of;
use item_fns::kernels::TwoNumbers;
use std::alloc::{AllocError, Global};

/// The least length of a row whose loop is called. A shorter one takes less time inlined.
const WIDE: usize = 16;

/// Combines each number of a row with the fold of the numbers below it, in place. Returns 0 only if no step fails.
#[inline]
fn put_each<S: TwoNumbers>(step: &S, row: &[i64], folds: &mut [i64]) -> u64
    requires { length row.now ≡ length folds.old }
    ensures long { length folds.new ≡ length folds.old }
    ensures is { result ≡ 0 → ArePutOver (S.gives step.now) row.now folds.old folds.new }
{
    let mut doubt = 0;
    for column in 0..row.len() {
        let (fold, more) = step.step(row[column], folds[column]);
        folds[column] = fold;
        doubt |= more;
    }
    doubt
}

/// Does the same, not inlined. The compiler does not vectorize the loop within a loop over rows from the last to the first.
#[inline(never)]
fn put_apart<S: TwoNumbers>(step: &S, row: &[i64], folds: &mut [i64]) -> u64
    requires { length row.now ≡ length folds.old }
    ensures long { length folds.new ≡ length folds.old }
    ensures is { result ≡ 0 → ArePutOver (S.gives step.now) row.now folds.old folds.new }
{
    put_each(step, row, folds)
}

/// Combines each number of a row with the fold of the numbers below it, in place. Returns 0 only if no step fails.
pub fn put_over<S: TwoNumbers>(step: &S, row: &[i64], folds: &mut [i64]) -> u64
    requires { length row.now ≡ length folds.old }
    ensures long { length folds.new ≡ length folds.old }
    ensures is { result ≡ 0 → ArePutOver (S.gives step.now) row.now folds.old folds.new }
{
    if row.len() < WIDE {
        put_each(step, row, folds)
    } else {
        put_apart(step, row, folds)
    }
}

/// Combines four rows with the folds of the numbers below them in one pass, in place, not inlined. Returns 0 only if no step fails.
#[inline(never)]
fn put_four<S: TwoNumbers>(step: &S, rows: &[i64], folds: &mut [i64]) -> u64
    requires { length rows.now ≡ 4 * length folds.old }
    ensures long { length folds.new ≡ length folds.old }
    ensures is { result ≡ 0 → AreFourPutOver (S.gives step.now) rows.now folds.old folds.new }
{
    let columns = folds.len();
    let mut doubt = 0;
    for column in 0..columns {
        let (fold, more) = step.four_steps(
            rows[column],
            rows[columns + column],
            rows[2 * columns + column],
            rows[3 * columns + column],
            folds[column],
        );
        folds[column] = fold;
        doubt |= more;
    }
    doubt
}

/// Folds the columns of `count` rows in place; `folds` holds the last row at the start. Returns 0 only if no step fails.
fn fold_rows<S: TwoNumbers>(step: &S, rows: &[i64], count: usize, folds: &mut [i64]) -> u64
    requires some { 1 ≤ count }
    requires whole { length rows.now ≡ count * length folds.old }
    requires last { folds.old ≡ drop ((count - 1) * length folds.old) rows.now }
    ensures long { length folds.new ≡ length folds.old }
    ensures is { result ≡ 0 → AreColumnFolds (S.gives step.now) rows.now count folds.new }
{
    let columns = folds.len();
    let left = (count - 1) % 4;
    let mut doubt = 0;
    for block in (0..(count - 1) / 4).rev() {
        let first = (left + 4 * block) * columns;
        doubt |= put_four(step, &rows[first..first + 4 * columns], folds);
    }
    for before in (0..left).rev() {
        let first = before * columns;
        doubt |= put_over(step, &rows[first..first + columns], folds);
    }
    doubt
}

/// Appends the column folds of `count` rows to a list. Returns true only if no step fails.
fn push_folds<S: TwoNumbers>(
    folds: &mut Vec<i64>,
    step: &S,
    rows: &[i64],
    columns: usize,
    count: usize,
) -> Result<bool, AllocError>
    requires some { 1 ≤ count }
    requires whole { length rows.now ≡ count * columns }
    ensures { IfOk result (λ sure. sure ≡ true → EndsInFolds (S.gives step.now) rows.now columns count folds.old.items folds.new.items) }
{
    let before = folds.len();
    folds.extend_from_slice(&rows[(count - 1) * columns..])?;
    let doubt = fold_rows(step, rows, count, &mut folds[before..]);
    Ok(doubt == 0)
}

/// Folds all lines along an axis, by rows. None if a step fails or may fail.
pub(crate) fn column_folds<S: TwoNumbers>(
    alloc: Global,
    step: &S,
    lines: &AxisLines,
) -> Result<Option<Vec<i64>>, AllocError>
    ensures long { IfOk result (λ made. IfSome made (λ v. vec_len v ≡ lines.now.places)) }
    ensures is { IfOk result (λ made. IfSome made (λ v. all_or_first_error (map (fold_at (S.gives step.now) lines.now) (range_with_len 0 lines.now.places)) ≡ Ok v.items)) }
{
    let mut folds = Vec::with_capacity(alloc, room_of(lines.places))?;
    for block in 0..lines.places / lines.stride {
        let size = lines.count * lines.stride;
        let first = block * size;
        let rows = &lines.numbers[first..first + size];
        if !push_folds(&mut folds, step, rows, lines.stride, lines.count)? {
            return Ok(None);
        }
    }
    Ok(Some(folds))
}
