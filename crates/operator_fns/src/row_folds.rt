//! Inner products of two matrices of numbers, a row of the result at a time.

ghost use Rattle.std.specs.Prelude.{◌≡◌, ◌<◌, ◌≤◌, ℕ, ◌+◌, ◌*◌, ◌/◌, ◌^◌, Ok, pos, length, get_or, OnOk, IfOk, IfSome, vec_len};
ghost use Rattle.item_fns.specs.Numbers.{dyadic_on_numbers};
ghost use Rattle.item_fns.specs.Folds.{folded};
ghost use Rattle.operator_fns.specs.RowByColumn.{cell, IsGridOf, IsPlain};
ghost use Rattle.function_names.specs.declared.scalar.Scalar2.TheVariants.{Plus, Times};
ghost use Rattle.operator_fns.specs.SmallProducts.{BoundsFactors};
ghost use Rattle.operator_fns.specs.RowFolds.{AreMet, AreFolds, EndsInFolds, column_fold};

use crate::grid::Grid;
use crate::outer_product::LONG;
use crate::small_products::FactorBound;
use crate::unions::rows_to_join;
use arrays_core::{ApplyFault, Kind, room_of};
use item_fns::folds::fold_list;
use item_fns::kernels::TwoNumbers;
use item_fns::{Scalar2, WithFunction, on_number_lists, with_function};
use reduce_fns::put_row_over;
use std::alloc::Global;

/// Memory that each row of a result uses again.
#[derive(Drop)]
struct Buffers {
    /// One number, as often as a row is long.
    numbers: Vec<i64>,
    /// The results of g for a row.
    met: Vec<i64>,
}

/// Applies a function to a number and each number of a row in one call.
fn met_at_once(
    alloc: Global,
    each: Scalar2,
    number: i64,
    row: &[i64],
) -> Result<Vec<i64>, ApplyFault>
    ensures { IfOk result (λ v. AreMet (dyadic_on_numbers each) number row.now v.items) }
{
    let met = on_number_lists(alloc, each, &[number], row)?;
    Ok(met)
}

/// Applies a function to a number and each number of a row, into `met`.
fn meet(each: Scalar2, number: i64, row: &[i64], buffers: &mut Buffers) -> Result<(), ApplyFault>
    ensures { OnOk result (AreMet (dyadic_on_numbers each) number row.now buffers.new.met.items) }
{
    if row.len() >= LONG {
        buffers.met = met_at_once(*buffers.met.allocator(), each, number, row)?;
        return Ok(());
    }
    let numbers = &mut buffers.numbers;
    numbers.clear();
    numbers.resize(row.len(), number)?;
    let met = &mut buffers.met;
    met.clear();
    met.extend_from_slice(row)?;
    put_row_over(each, numbers.as_slice(), met.as_mut_slice())?;
    Ok(())
}

/// Folds a row with all columns of consecutive rows, from the last row to the first.
#[tactic(auto, using(crate::proofs::ProductSums::row_high))]
fn fold_columns(
    fold: Scalar2,
    each: Scalar2,
    row: &[i64],
    rows: &[i64],
    folds: &mut [i64],
    buffers: &mut Buffers,
) -> Result<(), ApplyFault>
    requires some { 1 ≤ length row.now }
    requires whole { length rows.now ≡ length row.now * length folds.old }
    ensures long { length folds.new ≡ length folds.old }
    ensures is { OnOk result (AreFolds (dyadic_on_numbers fold) (dyadic_on_numbers each) row.now rows.now (length folds.old) folds.new) }
{
    let columns = folds.len();
    let last = row.len() - 1;
    meet(each, row[last], &rows[last * columns..], buffers)?;
    folds.copy_from_slice(buffers.met.as_slice());
    for place in (0..last).rev() {
        let first = place * columns;
        meet(each, row[place], &rows[first..first + columns], buffers)?;
        put_row_over(fold, buffers.met.as_slice(), folds)?;
    }
    Ok(())
}

/// A list of numbers to fold, for a function chosen at run time.
#[derive(Drop)]
struct Line<'a> {
    numbers: &'a [i64],
    ghost some: { 0 < length numbers.now },
}

impl<'a> WithFunction for Line<'a> {
    type Output = Result<i64, Kind>;

    ghost makes = { λ l gives result. result ≡ folded gives l.numbers.now };

    fn with<S: TwoNumbers + Copy>(self, step: S) -> Result<i64, Kind> {
        fold_list(&step, self.numbers)
    }
}

/// Folds a row with the only column.
fn fold_column(
    fold: Scalar2,
    each: Scalar2,
    row: &[i64],
    column: &[i64],
    met: &mut Vec<i64>,
) -> Result<i64, ApplyFault>
    requires some { 1 ≤ length row.now }
    requires long { length column.now ≡ length row.now }
    ensures { IfOk result (λ z. column_fold (dyadic_on_numbers fold) (dyadic_on_numbers each) row.now column.now 1 0 ≡ Ok z) }
{
    met.clear();
    met.extend_from_slice(column)?;
    put_row_over(each, row, met.as_mut_slice())?;
    let line = Line {
        numbers: met.as_slice(),
    };
    Ok(with_function(fold, line)?)
}

/// Appends the folds of a row with all columns of consecutive rows. A bound is for sums of products.
fn push_folds(
    made: &mut Vec<i64>,
    fold: Scalar2,
    each: Scalar2,
    row: &[i64],
    rows: &[i64],
    columns: usize,
    bound: Option<FactorBound>,
    buffers: &mut Buffers,
) -> Result<(), ApplyFault>
    requires room { vec_len made.old + columns < 2 ^ 64 }
    requires some { 1 ≤ length row.now }
    requires whole { length rows.now ≡ length row.now * columns }
    requires fold { IfSome bound (λ b. fold ≡ Plus) }
    requires each { IfSome bound (λ b. each ≡ Times) }
    requires bound { IfSome bound (λ b. BoundsFactors (length row.now) rows.now b.most b.are_short) }
    ensures { OnOk result (EndsInFolds (dyadic_on_numbers fold) (dyadic_on_numbers each) row.now rows.now columns made.old.items made.new.items) }
{
    if let Some(bound) = bound {
        if bound.push_sums(made, row, rows, columns)? {
            return Ok(());
        }
    }
    if columns == 1 {
        let number = fold_column(fold, each, row, rows, &mut buffers.met)?;
        made.push(number)?;
        return Ok(());
    }
    let before = made.len();
    made.resize(before + columns, 0)?;
    fold_columns(fold, each, row, rows, &mut made[before..], buffers)?;
    Ok(())
}

/// Folds each row of one matrix with each column of another. If some place fails, returns the error of one of them, not always the first. Small
/// sums of products and `∨.∧` of truth values have loops of their own.
pub(crate) fn fold_matrices(
    alloc: Global,
    fold: Scalar2,
    each: Scalar2,
    left: &[i64],
    right: &[i64],
    grid: Grid,
    places: usize,
) -> Result<Vec<i64>, ApplyFault>
    requires fits { IsGridOf grid places (length left.now) (length right.now) }
    requires plain { IsPlain grid places }
    requires rows { places / grid.columns * grid.count ≤ length left.now }
    requires columns { grid.count * grid.columns ≤ length right.now }
    ensures long { IfOk result (λ v. vec_len v ≡ places) }
    ensures is { IfOk result (λ v. (place : ℕ) → place < places → cell (dyadic_on_numbers fold) (dyadic_on_numbers each) left.now right.now grid place ≡ Ok (get_or v.items place (pos 0))) }
{
    let rows = &right[..grid.count * grid.columns];
    if let Some(bits) = rows_to_join(alloc, fold, each, left, rows, grid.count, grid.columns)? {
        return Ok(bits.join_matrices(alloc, left, grid, places)?);
    }
    let bound = FactorBound::of(fold, each, rows, grid.count);
    let mut made = Vec::with_capacity(alloc, room_of(places))?;
    let mut buffers = Buffers {
        numbers: Vec::new(alloc),
        met: Vec::new(alloc),
    };
    for place in 0..places / grid.columns {
        let first = place * grid.count;
        let row = &left[first..first + grid.count];
        push_folds(
            &mut made,
            fold,
            each,
            row,
            rows,
            grid.columns,
            bound,
            &mut buffers,
        )?;
    }
    Ok(made)
}
