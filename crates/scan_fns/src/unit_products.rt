//! Scans by `×` of numbers that are 0, 1 or ¯1: no product of them leaves 64 bits.

ghost use Rattle.std.specs.Prelude.{◌≡◌, true, All, length, IfOk, vec_len};
ghost use Rattle.function_names.specs.declared.scalar.Scalar2.TheVariants.{Times as Product};
ghost use Rattle.item_fns.specs.Numbers.{dyadic_on_numbers};
ghost use Rattle.item_fns.specs.NumberLists.{IsListAnswerTo};
ghost use Rattle.scan_fns.specs.LinearScan.{scans_of};
ghost use Rattle.scan_fns.specs.Prefixes.{IsUnit};

use crate::linear_scan::running;
use crate::prefix::prefix_folds;
use crate::products::Products;
use arrays_core::ApplyFault;
use item_fns::kernels::Times;
use reduce_fns::AxisLines;
use std::alloc::Global;

/// Tells if all numbers are 0, 1 or ¯1: the OR of their magnitudes is at most 1.
fn are_units(numbers: &[i64]) -> bool
    ensures { result ≡ true → All IsUnit numbers.now }
{
    let mut bits = 0;
    for number in numbers {
        bits |= number.unsigned_abs();
    }
    bits < 2
}

/// Scans each line by `×`. Products of 0, 1 and ¯1 are the same from the left as from the right.
pub(crate) fn running_products(alloc: Global, lines: &AxisLines) -> Result<Vec<i64>, ApplyFault>
    ensures is { IsListAnswerTo (scans_of (dyadic_on_numbers Product) lines.now) result }
    ensures long { IfOk result (λ v. vec_len v ≡ length lines.now.numbers.now) }
{
    if are_units(lines.numbers) {
        running(alloc, &Times, lines)
    } else {
        prefix_folds(alloc, &Products::none(), lines)
    }
}
