//! Dispatch on the name of a scalar function, for numbers and lists of numbers.

ghost use Rattle.std.specs.Prelude.{◌≡◌, ◌≢◌, ℤ, Result, length, IfOk, vec_len};
ghost use Rattle.arrays_core.specs.declared.item.Kind.{Kind};
ghost use Rattle.arrays_core.specs.Items.{all_or_first_error};
ghost use Rattle.item_fns.specs.Numbers.{monadic_on_number, dyadic_on_numbers};
ghost use Rattle.item_fns.specs.NumberLists.{monadic_results, dyadic_results, results_by, paired_length, IsListAnswerTo};

use crate::kernels::*;
use crate::loops::{on_each, on_lists};
use crate::power_loops::on_powers;
use crate::quotient_loops::on_quotients;
use arrays_core::{ApplyFault, Kind};
use function_names::{Scalar1, Scalar2};
use std::alloc::Global;

/// Applies a function to a number.
pub(crate) fn one_number(function: Scalar1, b: i64) -> Result<i64, Kind>
    ensures { result ≡ monadic_on_number function b }
{
    match function {
        Scalar1::Conjugate | Scalar1::Ceiling | Scalar1::Floor => Same.at(b),
        Scalar1::Negative => Negative.at(b),
        Scalar1::Direction => Direction.at(b),
        Scalar1::Reciprocal => Divide.at(1, b),
        Scalar1::Magnitude => Magnitude.at(b),
        Scalar1::Not => Not.at(b),
    }
}

/// Applies a function to two numbers. Fails with the error that `Scalar2` documents. Allocates nothing.
pub fn two_numbers(function: Scalar2, a: i64, b: i64) -> Result<i64, Kind>
    ensures { result ≡ dyadic_on_numbers function a b }
{
    match function {
        Scalar2::Plus => Plus.at(a, b),
        Scalar2::Minus => Minus.at(a, b),
        Scalar2::Times => Times.at(a, b),
        Scalar2::Divide => Divide.at(a, b),
        Scalar2::Power => Power.at(a, b),
        Scalar2::Residue => Residue.at(a, b),
        Scalar2::Maximum => Maximum.at(a, b),
        Scalar2::Minimum => Minimum.at(a, b),
        Scalar2::Less => Less.at(a, b),
        Scalar2::LessOrEqual => LessOrEqual.at(a, b),
        Scalar2::Equal => Equal.at(a, b),
        Scalar2::GreaterOrEqual => GreaterOrEqual.at(a, b),
        Scalar2::Greater => Greater.at(a, b),
        Scalar2::NotEqual => NotEqual.at(a, b),
        Scalar2::And => And.at(a, b),
        Scalar2::Or => Or.at(a, b),
        Scalar2::Nand => Nand.at(a, b),
        Scalar2::Nor => Nor.at(a, b),
    }
}

impl TwoNumbers for Scalar2 {
    ghost gives = { λ f. dyadic_on_numbers f };

    fn at(&self, a: i64, b: i64) -> Result<i64, Kind> {
        two_numbers(*self, a, b)
    }
}

/// Applies a scalar function to each number of a list.
pub fn on_numbers(alloc: Global, function: Scalar1, numbers: &[i64]) -> Result<Vec<i64>, ApplyFault>
    ensures is { IsListAnswerTo (all_or_first_error (monadic_results function numbers.now)) result }
    ensures long { IfOk result (λ v. vec_len v ≡ length numbers.now) }
{
    match function {
        Scalar1::Conjugate | Scalar1::Ceiling | Scalar1::Floor => on_each(alloc, &Same, numbers),
        Scalar1::Negative => on_each(alloc, &Negative, numbers),
        Scalar1::Direction => on_each(alloc, &Direction, numbers),
        Scalar1::Reciprocal => on_each(
            alloc,
            &WithLeft {
                step: Divide,
                left: 1,
            },
            numbers,
        ),
        Scalar1::Magnitude => on_each(alloc, &Magnitude, numbers),
        Scalar1::Not => on_each(alloc, &Not, numbers),
    }
}

/// A computation that is compiled separately for each function of two numbers, so that each gets its own loop.
pub trait WithFunction {
    /// The type of its result.
    type Output;

    ghost makes: { Self → (ℤ → ℤ → Result ℤ Kind) → Self.Output → Type 0 };

    /// Runs it with one function.
    fn with<S: TwoNumbers + Copy>(self, step: S) -> Self::Output
        ensures { makes self (S.gives step) result };
}

/// Runs a computation with the function of this name.
pub fn with_function<W: WithFunction>(function: Scalar2, made: W) -> W::Output
    ensures { W.makes made (dyadic_on_numbers function) result }
{
    match function {
        Scalar2::Plus => made.with(Plus),
        Scalar2::Minus => made.with(Minus),
        Scalar2::Times => made.with(Times),
        Scalar2::Divide => made.with(Divide),
        Scalar2::Power => made.with(Power),
        Scalar2::Residue => made.with(Residue),
        Scalar2::Maximum => made.with(Maximum),
        Scalar2::Minimum => made.with(Minimum),
        Scalar2::Less => made.with(Less),
        Scalar2::LessOrEqual => made.with(LessOrEqual),
        Scalar2::Equal => made.with(Equal),
        Scalar2::GreaterOrEqual => made.with(GreaterOrEqual),
        Scalar2::Greater => made.with(Greater),
        Scalar2::NotEqual => made.with(NotEqual),
        Scalar2::And => made.with(And),
        Scalar2::Or => made.with(Or),
        Scalar2::Nand => made.with(Nand),
        Scalar2::Nor => made.with(Nor),
    }
}

/// The application of a function to two lists, place by place.
#[derive(Drop)]
struct Results<'a> {
    alloc: Global,
    left: &'a [i64],
    right: &'a [i64],
    ghost fit: { length left.now ≢ 1 → length right.now ≢ 1 → length left.now ≡ length right.now },
}

impl<'a> WithFunction for Results<'a> {
    type Output = Result<Vec<i64>, ApplyFault>;

    ghost makes = { λ r gives result. IsListAnswerTo (all_or_first_error (results_by gives r.left.now r.right.now)) result × IfOk result (λ v. vec_len v ≡ paired_length r.left.now r.right.now) };

    fn with<S: TwoNumbers + Copy>(self, step: S) -> Result<Vec<i64>, ApplyFault> {
        on_lists(self.alloc, step, self.left, self.right)
    }
}

/// Applies a scalar function to two lists, place by place. A list of one number is extended to the length of the other.
pub fn on_number_lists(
    alloc: Global,
    function: Scalar2,
    left: &[i64],
    right: &[i64],
) -> Result<Vec<i64>, ApplyFault>
    requires { length left.now ≢ 1 → length right.now ≢ 1 → length left.now ≡ length right.now }
    ensures is { IsListAnswerTo (all_or_first_error (dyadic_results function left.now right.now)) result }
    ensures long { IfOk result (λ v. vec_len v ≡ paired_length left.now right.now) }
{
    match function {
        Scalar2::Power => on_powers(alloc, left, right),
        Scalar2::Divide => on_quotients(alloc, left, right),
        _ => with_function(function, Results { alloc, left, right }),
    }
}
