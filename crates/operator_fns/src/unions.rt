//! Inner products `∨.∧` of truth values.

ghost use Rattle.std.specs.Prelude.{◌≡◌, ◌*◌, true, length, All, IfOk, IfSome};
ghost use Rattle.operator_fns.specs.Unions.{IsTruth, AreUnions};

use crate::bit_rows::BitRows;
use item_fns::Scalar2;
use std::alloc::{AllocError, Global};

/// Returns true only if all numbers are 0 or 1.
fn are_truths(numbers: &[i64]) -> bool
    ensures { result ≡ true → All IsTruth numbers.now }
{
    let mut least: i64 = 0;
    let mut greatest: i64 = 0;
    for number in numbers {
        least = least.min(*number);
        greatest = greatest.max(*number);
    }
    least == 0 && greatest <= 1
}

/// Returns the rows as bits if f.g is `∨.∧`, all numbers are 0 or 1, and there is more than one column.
pub(crate) fn rows_to_join<'a>(
    alloc: Global,
    fold: Scalar2,
    each: Scalar2,
    left: &[i64],
    rows: &'a [i64],
    count: usize,
    columns: usize,
) -> Result<Option<BitRows<'a>>, AllocError>
    requires { length rows.now ≡ count * columns }
    ensures unions { IfOk result (λ made. IfSome made (λ b. AreUnions fold each left.now)) }
    ensures rows { IfOk result (λ made. IfSome made (λ b. b.rows.now ≡ rows.now)) }
    ensures columns { IfOk result (λ made. IfSome made (λ b. b.columns ≡ columns)) }
    ensures count { IfOk result (λ made. IfSome made (λ b. b.count ≡ count)) }
{
    if fold != Scalar2::Or || each != Scalar2::And || columns < 2 {
        return Ok(None);
    }
    if !are_truths(left) || !are_truths(rows) {
        return Ok(None);
    }
    Ok(Some(BitRows::of(alloc, rows, count, columns)?))
}
