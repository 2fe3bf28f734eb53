//! Right folds of numbers.

ghost use Rattle.std.specs.Prelude.{◌≡◌, ◌<◌, ◌≤◌, ◌+◌, ◌-◌, ◌*◌, pos, length};
ghost use Rattle.item_fns.specs.Folds.{strided, folded};

use crate::kernels::TwoNumbers;
use arrays_core::Kind;

/// Folds a list of numbers from the right. Each step waits for the one before it.
fn fold_by_steps<S: TwoNumbers>(step: &S, numbers: &[i64]) -> Result<i64, Kind>
    requires { 0 < length numbers.now }
    ensures { result ≡ folded (S.gives step.now) numbers.now }
{
    let last = numbers.len() - 1;
    let mut result = numbers[last];
    for before in (0..last).rev() {
        result = step.at(numbers[before], result)?;
    }
    Ok(result)
}

/// Folds a list of numbers from the right. Goes step by step only if an error is possible, or the function has no other way.
pub fn fold_list<S: TwoNumbers>(step: &S, numbers: &[i64]) -> Result<i64, Kind>
    requires { 0 < length numbers.now }
    ensures { result ≡ folded (S.gives step.now) numbers.now }
{
    match step.fold_at_once(numbers) {
        Some(fold) => Ok(fold),
        None => fold_by_steps(step, numbers),
    }
}

/// Folds `count` numbers from the right, `stride` places apart, beginning at index `first`.
pub fn fold_numbers<S: TwoNumbers>(
    step: &S,
    numbers: &[i64],
    first: usize,
    stride: usize,
    count: usize,
) -> Result<i64, Kind>
    requires some { 1 ≤ count }
    requires high { first + (count - 1) * stride < length numbers.now }
    ensures { result ≡ folded (S.gives step.now) (strided (pos 0) numbers.now first stride count) }
{
    if stride == 1 {
        return fold_list(step, &numbers[first..first + count]);
    }
    let mut result = numbers[first + (count - 1) * stride];
    for before in (0..count - 1).rev() {
        result = step.at(numbers[first + before * stride], result)?;
    }
    Ok(result)
}
