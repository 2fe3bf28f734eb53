//! A type for each function of numbers, so that each gets its own compiled loop.

ghost use Rattle.std.specs.Prelude.{◌≡◌, ◌<◌, ◌*ℤ◌, ℤ, pos, unsigned_abs, Result, Ok, IfSome, length, [], ◌∷◌};
ghost use Rattle.arrays_core.specs.declared.item.Kind.{Kind};
ghost use Rattle.function_names.specs.declared.scalar.Scalar1.TheVariants as one;
ghost use Rattle.function_names.specs.declared.scalar.Scalar2.TheVariants as two;
ghost use Rattle.item_fns.specs.Numbers.{monadic_on_number, dyadic_on_numbers};
ghost use Rattle.item_fns.specs.Folds.{folded};
ghost use Rattle.item_fns.specs.AtOnce.{IsNear};

use crate::at_once::{beyond, fold_by_pairs, fold_forwards, untrue};
use crate::numbers::{as_truth, in_range, power, quotient, residue, truth};
use arrays_core::Kind;

/// A bound on two numbers: their sum and their difference are within 64 bits.
const HALF: u64 = 2_305_843_009_213_693_952;

/// A bound on five numbers: the sums of two to five of them are within 64 bits.
const FIFTH: u64 = 1_152_921_504_606_846_976;

/// A bound on two numbers of 31 bits and a sign: their product is within 64 bits.
const SHORT: u64 = 1_073_741_824;

/// Returns the lower half of a number with its sign: a short number itself. So the compiler sees that two factors are short.
#[inline]
fn lower_half(number: i64) -> i64
    ensures { IsNear 1073741824 number → result ≡ number }
{
    number.wrapping_shl(32) >> 32
}

/// Returns the number, or its opposite if the factor is negative.
#[inline]
fn with_sign_of(number: i64, factor: i64) -> i64
    ensures near { IsNear 1073741824 number → IsNear 1073741824 result }
    ensures is { IsNear 1073741824 number → result *ℤ pos (unsigned_abs factor) ≡ number *ℤ factor }
{
    if factor < 0 {
        number.wrapping_neg()
    } else {
        number
    }
}

/// Multiplies a number by a factor that many products share. Returns 0 beside it unless a product beyond 64 bits is possible. By the remainder the
/// compiler sees outside the loop that the factor is short.
#[inline]
fn scaled(number: i64, factor: i64) -> (i64, u64)
    ensures { result.1 ≡ 0 → dyadic_on_numbers two.Times number factor ≡ Ok result.0 }
{
    let magnitude = factor.unsigned_abs() % (2 * SHORT);
    let signed = lower_half(with_sign_of(number, factor));
    (
        signed.wrapping_mul(magnitude.cast_signed()),
        beyond(number, SHORT) | beyond(factor, SHORT),
    )
}

/// A function of one number.
pub(crate) trait OneNumber {
    ghost gives: { Self → ℤ → Result ℤ Kind };

    /// Applies the function.
    fn at(&self, b: i64) -> Result<i64, Kind>
        ensures { result ≡ gives self.now b };

    /// Returns true if `step` is quicker than `at`.
    fn has_step(&self) -> bool {
        false
    }

    /// Applies the function without an early exit. Returns its result, and 0 unless an error is possible.
    fn step(&self, b: i64) -> (i64, u64)
        ensures { result.1 ≡ 0 → gives self.now b ≡ Ok result.0 }
    {
        match self.at(b) {
            Ok(number) => (number, 0),
            Err(_) => (0, 1),
        }
    }
}

/// A function of two numbers that returns a number or an error. It allocates nothing.
pub trait TwoNumbers {
    ghost gives: { Self → ℤ → ℤ → Result ℤ Kind };

    /// Applies the function.
    fn at(&self, a: i64, b: i64) -> Result<i64, Kind>
        ensures { result ≡ gives self.now a b };

    /// Folds a list from the right in one pass, without a check at each step. None if an error is possible, or there is no such way.
    fn fold_at_once(&self, _numbers: &[i64]) -> Option<i64>
        requires { 0 < length _numbers.now }
        ensures { IfSome result (λ z. folded (gives self.now) _numbers.now ≡ Ok z) }
    {
        None
    }

    /// Returns true if `step` is quicker than `at`.
    fn has_step(&self) -> bool {
        false
    }

    /// Applies the function without an early exit. Returns its result, and 0 unless an error is possible.
    fn step(&self, a: i64, b: i64) -> (i64, u64)
        ensures { result.1 ≡ 0 → gives self.now a b ≡ Ok result.0 }
    {
        match self.at(a, b) {
            Ok(number) => (number, 0),
            Err(_) => (0, 1),
        }
    }

    /// Does the same with a left argument that many steps share.
    fn step_from(&self, left: i64, b: i64) -> (i64, u64)
        ensures { result.1 ≡ 0 → gives self.now left b ≡ Ok result.0 }
    {
        self.step(left, b)
    }

    /// Does the same with a right argument that many steps share.
    fn step_to(&self, a: i64, right: i64) -> (i64, u64)
        ensures { result.1 ≡ 0 → gives self.now a right ≡ Ok result.0 }
    {
        self.step(a, right)
    }

    /// Applies the function to four numbers before a fold, from the fourth on, without an early exit. Returns the new fold, and 0 unless an
    /// error is possible.
    fn four_steps(&self, first: i64, second: i64, third: i64, fourth: i64, fold: i64) -> (i64, u64)
        ensures { result.1 ≡ 0 → folded (gives self.now) (first ∷ second ∷ third ∷ fourth ∷ fold ∷ []) ≡ Ok result.0 }
    {
        let (fold, of_fourth) = self.step(fourth, fold);
        let (fold, of_third) = self.step(third, fold);
        let (fold, of_second) = self.step(second, fold);
        let (fold, of_first) = self.step(first, fold);
        (fold, of_first | of_second | of_third | of_fourth)
    }
}

/// A function of two numbers with a fixed left argument.
#[derive(Clone, Copy)]
pub(crate) struct WithLeft<S> {
    pub(crate) step: S,
    pub(crate) left: i64,
}

impl<S: TwoNumbers> OneNumber for WithLeft<S> {
    ghost gives = { λ s b. S.gives s.step s.left b };

    fn at(&self, b: i64) -> Result<i64, Kind> {
        self.step.at(self.left, b)
    }

    fn has_step(&self) -> bool {
        self.step.has_step()
    }

    fn step(&self, b: i64) -> (i64, u64) {
        self.step.step_from(self.left, b)
    }
}

/// A function of two numbers with a fixed right argument.
#[derive(Clone, Copy)]
pub(crate) struct WithRight<S> {
    pub(crate) step: S,
    pub(crate) right: i64,
}

impl<S: TwoNumbers> OneNumber for WithRight<S> {
    ghost gives = { λ s a. S.gives s.step a s.right };

    fn at(&self, a: i64) -> Result<i64, Kind> {
        self.step.at(a, self.right)
    }

    fn has_step(&self) -> bool {
        self.step.has_step()
    }

    fn step(&self, a: i64) -> (i64, u64) {
        self.step.step_to(a, self.right)
    }
}

/// Identity.
#[derive(Clone, Copy)]
pub(crate) struct Same;

impl OneNumber for Same {
    ghost gives = { λ s b. monadic_on_number one.Conjugate b };

    fn at(&self, b: i64) -> Result<i64, Kind> {
        Ok(b)
    }
}

/// Negation.
#[derive(Clone, Copy)]
pub(crate) struct Negative;

impl OneNumber for Negative {
    ghost gives = { λ s b. monadic_on_number one.Negative b };

    fn at(&self, b: i64) -> Result<i64, Kind> {
        in_range(b.checked_neg())
    }

    fn has_step(&self) -> bool {
        true
    }

    fn step(&self, b: i64) -> (i64, u64) {
        Minus.step(0, b)
    }
}

/// Sign: ¯1, 0 or 1.
#[derive(Clone, Copy)]
pub(crate) struct Direction;

impl OneNumber for Direction {
    ghost gives = { λ s b. monadic_on_number one.Direction b };

    fn at(&self, b: i64) -> Result<i64, Kind> {
        Ok(b.signum())
    }
}

/// Absolute value.
#[derive(Clone, Copy)]
pub(crate) struct Magnitude;

impl OneNumber for Magnitude {
    ghost gives = { λ s b. monadic_on_number one.Magnitude b };

    fn at(&self, b: i64) -> Result<i64, Kind> {
        in_range(b.checked_abs())
    }

    fn has_step(&self) -> bool {
        true
    }

    fn step(&self, b: i64) -> (i64, u64) {
        let (opposite, doubt) = Minus.step(0, b);
        (b.max(opposite), doubt)
    }
}

/// Logical not, of 0 and 1.
#[derive(Clone, Copy)]
pub(crate) struct Not;

impl OneNumber for Not {
    ghost gives = { λ s b. monadic_on_number one.Not b };

    fn at(&self, b: i64) -> Result<i64, Kind> {
        Ok(truth(!as_truth(b)?))
    }

    fn has_step(&self) -> bool {
        true
    }

    fn step(&self, b: i64) -> (i64, u64) {
        (b ^ 1, untrue(b))
    }
}

/// Sum.
#[derive(Clone, Copy)]
pub struct Plus;

impl TwoNumbers for Plus {
    ghost gives = { λ s. dyadic_on_numbers two.Plus };

    fn at(&self, a: i64, b: i64) -> Result<i64, Kind> {
        in_range(a.checked_add(b))
    }

    fn fold_at_once(&self, numbers: &[i64]) -> Option<i64> {
        fold_forwards(self, numbers)
    }

    fn has_step(&self) -> bool {
        true
    }

    fn step(&self, a: i64, b: i64) -> (i64, u64) {
        (a.wrapping_add(b), beyond(a, HALF) | beyond(b, HALF))
    }

    fn four_steps(
        &self,
        first: i64,
        second: i64,
        third: i64,
        fourth: i64,
        fold: i64,
    ) -> (i64, u64) {
        let of_two = third.wrapping_add(fourth.wrapping_add(fold));
        let of_rows = beyond(first, FIFTH)
            | beyond(second, FIFTH)
            | beyond(third, FIFTH)
            | beyond(fourth, FIFTH);
        (
            first.wrapping_add(second.wrapping_add(of_two)),
            of_rows | beyond(fold, FIFTH),
        )
    }
}

/// Difference.
#[derive(Clone, Copy)]
pub struct Minus;

impl TwoNumbers for Minus {
    ghost gives = { λ s. dyadic_on_numbers two.Minus };

    fn at(&self, a: i64, b: i64) -> Result<i64, Kind> {
        in_range(a.checked_sub(b))
    }

    fn fold_at_once(&self, numbers: &[i64]) -> Option<i64> {
        fold_by_pairs(numbers)
    }

    fn has_step(&self) -> bool {
        true
    }

    fn step(&self, a: i64, b: i64) -> (i64, u64) {
        (a.wrapping_sub(b), beyond(a, HALF) | beyond(b, HALF))
    }
}

/// Product.
#[derive(Clone, Copy)]
pub struct Times;

impl TwoNumbers for Times {
    ghost gives = { λ s. dyadic_on_numbers two.Times };

    fn at(&self, a: i64, b: i64) -> Result<i64, Kind> {
        in_range(a.checked_mul(b))
    }

    fn has_step(&self) -> bool {
        true
    }

    fn step(&self, a: i64, b: i64) -> (i64, u64) {
        (
            lower_half(a).wrapping_mul(lower_half(b)),
            beyond(a, SHORT) | beyond(b, SHORT),
        )
    }

    fn step_from(&self, left: i64, b: i64) -> (i64, u64) {
        scaled(b, left)
    }

    fn step_to(&self, a: i64, right: i64) -> (i64, u64) {
        scaled(a, right)
    }
}

/// Quotient.
#[derive(Clone, Copy)]
pub struct Divide;

impl TwoNumbers for Divide {
    ghost gives = { λ s. dyadic_on_numbers two.Divide };

    fn at(&self, a: i64, b: i64) -> Result<i64, Kind> {
        quotient(a, b)
    }
}

/// Power.
#[derive(Clone, Copy)]
pub struct Power;

impl TwoNumbers for Power {
    ghost gives = { λ s. dyadic_on_numbers two.Power };

    fn at(&self, a: i64, b: i64) -> Result<i64, Kind> {
        power(a, b)
    }
}

/// Residue.
#[derive(Clone, Copy)]
pub struct Residue;

impl TwoNumbers for Residue {
    ghost gives = { λ s. dyadic_on_numbers two.Residue };

    fn at(&self, a: i64, b: i64) -> Result<i64, Kind> {
        Ok(residue(a, b))
    }
}

/// Maximum.
#[derive(Clone, Copy)]
pub struct Maximum;

impl TwoNumbers for Maximum {
    ghost gives = { λ s. dyadic_on_numbers two.Maximum };

    fn at(&self, a: i64, b: i64) -> Result<i64, Kind> {
        Ok(a.max(b))
    }

    fn fold_at_once(&self, numbers: &[i64]) -> Option<i64> {
        fold_forwards(self, numbers)
    }
}

/// Minimum.
#[derive(Clone, Copy)]
pub struct Minimum;

impl TwoNumbers for Minimum {
    ghost gives = { λ s. dyadic_on_numbers two.Minimum };

    fn at(&self, a: i64, b: i64) -> Result<i64, Kind> {
        Ok(a.min(b))
    }

    fn fold_at_once(&self, numbers: &[i64]) -> Option<i64> {
        fold_forwards(self, numbers)
    }
}

/// Tests a < b.
#[derive(Clone, Copy)]
pub struct Less;

impl TwoNumbers for Less {
    ghost gives = { λ s. dyadic_on_numbers two.Less };

    fn at(&self, a: i64, b: i64) -> Result<i64, Kind> {
        Ok(truth(a < b))
    }
}

/// Tests a ≤ b.
#[derive(Clone, Copy)]
pub struct LessOrEqual;

impl TwoNumbers for LessOrEqual {
    ghost gives = { λ s. dyadic_on_numbers two.LessOrEqual };

    fn at(&self, a: i64, b: i64) -> Result<i64, Kind> {
        Ok(truth(a <= b))
    }
}

/// Tests a = b.
#[derive(Clone, Copy)]
pub struct Equal;

impl TwoNumbers for Equal {
    ghost gives = { λ s. dyadic_on_numbers two.Equal };

    fn at(&self, a: i64, b: i64) -> Result<i64, Kind> {
        Ok(truth(a == b))
    }

    fn fold_at_once(&self, numbers: &[i64]) -> Option<i64> {
        fold_forwards(self, numbers)
    }
}

/// Tests a ≥ b.
#[derive(Clone, Copy)]
pub struct GreaterOrEqual;

impl TwoNumbers for GreaterOrEqual {
    ghost gives = { λ s. dyadic_on_numbers two.GreaterOrEqual };

    fn at(&self, a: i64, b: i64) -> Result<i64, Kind> {
        Ok(truth(a >= b))
    }
}

/// Tests a > b.
#[derive(Clone, Copy)]
pub struct Greater;

impl TwoNumbers for Greater {
    ghost gives = { λ s. dyadic_on_numbers two.Greater };

    fn at(&self, a: i64, b: i64) -> Result<i64, Kind> {
        Ok(truth(a > b))
    }
}

/// Tests a ≠ b.
#[derive(Clone, Copy)]
pub struct NotEqual;

impl TwoNumbers for NotEqual {
    ghost gives = { λ s. dyadic_on_numbers two.NotEqual };

    fn at(&self, a: i64, b: i64) -> Result<i64, Kind> {
        Ok(truth(a != b))
    }

    fn fold_at_once(&self, numbers: &[i64]) -> Option<i64> {
        fold_forwards(self, numbers)
    }
}

/// Logical and. Checks both arguments: `0∧2` is DOMAIN.
#[derive(Clone, Copy)]
pub struct And;

impl TwoNumbers for And {
    ghost gives = { λ s. dyadic_on_numbers two.And };

    fn at(&self, a: i64, b: i64) -> Result<i64, Kind> {
        Ok(truth(as_truth(a)? & as_truth(b)?))
    }

    fn fold_at_once(&self, numbers: &[i64]) -> Option<i64> {
        fold_forwards(self, numbers)
    }

    fn has_step(&self) -> bool {
        true
    }

    fn step(&self, a: i64, b: i64) -> (i64, u64) {
        (a & b, untrue(a) | untrue(b))
    }
}

/// Logical or. Checks both arguments.
#[derive(Clone, Copy)]
pub struct Or;

impl TwoNumbers for Or {
    ghost gives = { λ s. dyadic_on_numbers two.Or };

    fn at(&self, a: i64, b: i64) -> Result<i64, Kind> {
        Ok(truth(as_truth(a)? | as_truth(b)?))
    }

    fn fold_at_once(&self, numbers: &[i64]) -> Option<i64> {
        fold_forwards(self, numbers)
    }

    fn has_step(&self) -> bool {
        true
    }

    fn step(&self, a: i64, b: i64) -> (i64, u64) {
        (a | b, untrue(a) | untrue(b))
    }
}

/// Logical nand. Checks both arguments.
#[derive(Clone, Copy)]
pub struct Nand;

impl TwoNumbers for Nand {
    ghost gives = { λ s. dyadic_on_numbers two.Nand };

    fn at(&self, a: i64, b: i64) -> Result<i64, Kind> {
        Ok(truth(!(as_truth(a)? & as_truth(b)?)))
    }
}

/// Logical nor. Checks both arguments.
#[derive(Clone, Copy)]
pub struct Nor;

impl TwoNumbers for Nor {
    ghost gives = { λ s. dyadic_on_numbers two.Nor };

    fn at(&self, a: i64, b: i64) -> Result<i64, Kind> {
        Ok(truth(!(as_truth(a)? | as_truth(b)?)))
    }
}
