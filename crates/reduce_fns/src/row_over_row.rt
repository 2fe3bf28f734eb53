//! A scalar function of two rows, number by number.

ghost use Rattle.std.specs.Prelude.{◌≡◌, length, IfOk, OnOk};
ghost use Rattle.item_fns.specs.Numbers.{dyadic_on_numbers};
ghost use Rattle.reduce_fns.specs.Columns.{ArePutOver};

use crate::columns::put_over;
use arrays_core::Kind;
use item_fns::Scalar2;
use item_fns::kernels::*;

/// Fails if there is doubt. The error stands for the one of the right fold, which the caller finds.
fn sure(doubt: u64) -> Result<(), Kind>
    ensures { IfOk result (λ u. doubt ≡ 0) }
{
    if doubt == 0 { Ok(()) } else { Err(Kind::Limit) }
}

/// Applies a function to each number of a row and the number of `below` at its place, in place. Fails if a step fails or is in doubt. Each
/// function has its own compiled loop.
pub fn put_row_over(function: Scalar2, row: &[i64], below: &mut [i64]) -> Result<(), Kind>
    requires { length row.now ≡ length below.old }
    ensures long { length below.new ≡ length below.old }
    ensures is { OnOk result (ArePutOver (dyadic_on_numbers function) row.now below.old below.new) }
{
    match function {
        Scalar2::Plus => sure(put_over(&Plus, row, below)),
        Scalar2::Minus => sure(put_over(&Minus, row, below)),
        Scalar2::Times => sure(put_over(&Times, row, below)),
        Scalar2::Divide => sure(put_over(&Divide, row, below)),
        Scalar2::Power => sure(put_over(&Power, row, below)),
        Scalar2::Residue => sure(put_over(&Residue, row, below)),
        Scalar2::Maximum => sure(put_over(&Maximum, row, below)),
        Scalar2::Minimum => sure(put_over(&Minimum, row, below)),
        Scalar2::Less => sure(put_over(&Less, row, below)),
        Scalar2::LessOrEqual => sure(put_over(&LessOrEqual, row, below)),
        Scalar2::Equal => sure(put_over(&Equal, row, below)),
        Scalar2::GreaterOrEqual => sure(put_over(&GreaterOrEqual, row, below)),
        Scalar2::Greater => sure(put_over(&Greater, row, below)),
        Scalar2::NotEqual => sure(put_over(&NotEqual, row, below)),
        Scalar2::And => sure(put_over(&And, row, below)),
        Scalar2::Or => sure(put_over(&Or, row, below)),
        Scalar2::Nand => sure(put_over(&Nand, row, below)),
        Scalar2::Nor => sure(put_over(&Nor, row, below)),
    }
}
