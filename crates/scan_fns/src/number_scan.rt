//! Scans of lists of numbers, by the scalar function.

ghost use Rattle.std.specs.Prelude.{◌≡◌, ◌≤◌, ℤ, List, false, length, drop, take, Ok, IfOk, IfSome, vec_len};
ghost use Rattle.function_names.specs.declared.scalar.Scalar2.TheVariants.{Residue as ByResidue};
ghost use Rattle.item_fns.specs.Numbers.{dyadic_on_numbers};
ghost use Rattle.item_fns.specs.NumberLists.{IsListAnswerTo};
ghost use Rattle.item_fns.specs.Folds.{folded};
ghost use Rattle.scan_fns.specs.LinearScan.{scans_of};
ghost use Rattle.scan_fns.specs.LinearScan.{scanned, folds_from};
ghost use Rattle.scan_fns.specs.Prefixes.{GivesTruths};

use crate::differences::running_differences;
use crate::linear_scan::{running_folds, running_sums};
use crate::outcomes::Outcomes;
use crate::prefix::prefix_folds;
use crate::recalled_scan::recalled_folds;
use crate::residue_scan::{are_one_sided, running_residues};
use crate::unit_products::running_products;
use arrays_core::ApplyFault;
use item_fns::Scalar2;
use item_fns::kernels::{
    And, Divide, Equal, Greater, GreaterOrEqual, Less, LessOrEqual, Maximum, Minimum, Nand, Nor,
    NotEqual, Or, Power, Residue, TwoNumbers,
};
use reduce_fns::AxisLines;
use std::alloc::Global;

/// Scans each line by a function with results 0 and 1, in one step per number.
fn truth_folds<S: TwoNumbers + Copy>(
    alloc: Global,
    step: S,
    lines: &AxisLines,
) -> Result<Vec<i64>, ApplyFault>
    requires { GivesTruths (S.gives step) }
    ensures is { IsListAnswerTo (scans_of (S.gives step) lines.now) result }
    ensures long { IfOk result (λ v. vec_len v ≡ length lines.now.numbers.now) }
{
    let none = Outcomes::none(step);
    prefix_folds(alloc, &none, lines)
}

/// Scans each line by residue. If no number is below 0, or none above, it tries few divisors for each number.
fn residue_folds(alloc: Global, lines: &AxisLines) -> Result<Vec<i64>, ApplyFault>
    ensures is { IsListAnswerTo (scans_of (dyadic_on_numbers ByResidue) lines.now) result }
    ensures long { IfOk result (λ v. vec_len v ≡ length lines.now.numbers.now) }
{
    if are_one_sided(lines.numbers) {
        Ok(running_residues(alloc, lines)?)
    } else {
        recalled_folds(alloc, &Residue, lines)
    }
}

/// Scans each line by the scalar function. Returns the error of the first place that fails.
pub(crate) fn number_folds(
    alloc: Global,
    function: Scalar2,
    lines: &AxisLines,
) -> Result<Vec<i64>, ApplyFault>
    ensures is { IsListAnswerTo (scans_of (dyadic_on_numbers function) lines.now) result }
    ensures long { IfOk result (λ v. vec_len v ≡ length lines.now.numbers.now) }
{
    match function {
        Scalar2::Plus => running_sums(alloc, lines),
        Scalar2::Minus => running_differences(alloc, lines),
        Scalar2::Times => running_products(alloc, lines),
        Scalar2::Maximum => running_folds(alloc, &Maximum, lines),
        Scalar2::Minimum => running_folds(alloc, &Minimum, lines),
        Scalar2::And => running_folds(alloc, &And, lines),
        Scalar2::Or => running_folds(alloc, &Or, lines),
        Scalar2::Less => truth_folds(alloc, Less, lines),
        Scalar2::LessOrEqual => truth_folds(alloc, LessOrEqual, lines),
        Scalar2::Equal => truth_folds(alloc, Equal, lines),
        Scalar2::GreaterOrEqual => truth_folds(alloc, GreaterOrEqual, lines),
        Scalar2::Greater => truth_folds(alloc, Greater, lines),
        Scalar2::NotEqual => truth_folds(alloc, NotEqual, lines),
        Scalar2::Nand => truth_folds(alloc, Nand, lines),
        Scalar2::Nor => truth_folds(alloc, Nor, lines),
        Scalar2::Divide => recalled_folds(alloc, &Divide, lines),
        Scalar2::Power => recalled_folds(alloc, &Power, lines),
        Scalar2::Residue => residue_folds(alloc, lines),
    }
}

/// Copies the numbers after the first `first` ones.
fn behind(alloc: Global, numbers: &[i64], first: usize) -> Result<Vec<i64>, ApplyFault>
    requires { first ≤ length numbers.now }
    ensures { IsListAnswerTo (Ok (drop first numbers.now)) result }
{
    let (_, later) = numbers.split_at(first);
    Ok(later.to_vec(alloc)?)
}

/// Tells if one of the first `count` folds may be an error. Without memory for the test it returns true.
fn may_fail(alloc: Global, function: Scalar2, numbers: &[i64], count: usize) -> bool
    requires { count ≤ length numbers.now }
    ensures { result ≡ false → (folds : List ℤ) × (scanned (folded (dyadic_on_numbers function)) (take count numbers.now) 1 count ≡ Ok folds) }
{
    count > 0 && number_folds(alloc, function, &AxisLines::one(&numbers[..count])).is_err()
}

/// Returns the folds of a list up to each place from `first` on, counted from 1. None if an earlier place may fail. Costs one pass over the list;
/// after an error, one more over the earlier places.
pub(crate) fn later_folds(
    alloc: Global,
    function: Scalar2,
    numbers: &[i64],
    first: usize,
) -> Option<Result<Vec<i64>, ApplyFault>>
    requires low { 1 ≤ first }
    requires high { first ≤ length numbers.now }
    ensures { IfSome result (IsListAnswerTo (folds_from (dyadic_on_numbers function) numbers.now first)) }
{
    match number_folds(alloc, function, &AxisLines::one(numbers)) {
        Ok(folds) => Some(behind(alloc, &folds, first - 1)),
        Err(_) if may_fail(alloc, function, numbers, first - 1) => None,
        Err(fault) => Some(Err(fault)),
    }
}
