//! Quotients of a list by one number, by products.

ghost use Rattle.std.specs.Prelude.{◌≡◌, ◌≢◌, ◌<◌, ◌≤◌, ◌≤ℤ◌, ◌+◌, ◌*◌, ◌/◌, ◌^◌, pos, length, IfOk, IfSome, vec_len};
ghost use Rattle.arrays_core.specs.Items.{all_or_first_error};
ghost use Rattle.function_names.specs.declared.scalar.Scalar2.TheVariants as two;
ghost use Rattle.item_fns.specs.Numbers.{dyadic_on_numbers};
ghost use Rattle.item_fns.specs.NumberLists.{dyadic_results, paired_length, IsListAnswerTo};

use crate::kernels::{Divide, OneNumber};
use crate::loops::{on_each, on_lists};
use crate::numbers::quotient;
use arrays_core::{ApplyFault, Kind};
use std::alloc::Global;

/// A divisor from 2 on, with its reciprocal: 2 to the power 64 divided by it, rounded up.
#[derive(Clone, Copy)]
pub struct Reciprocal {
    divisor: u64,
    scaled: u64,
    ghost two: { 2 ≤ divisor },
    ghost signed: { divisor < 2 ^ 63 },
    ghost enough: { 2 ^ 64 ≤ scaled * divisor },
    ghost near: { scaled * divisor < 2 ^ 64 + divisor },
}

impl Reciprocal {
    /// Makes the reciprocal of a divisor. None below 2.
    pub fn of(divisor: i64) -> Option<Reciprocal>
        ensures { IfSome result (λ r. divisor ≡ pos r.divisor) }
    {
        match u64::try_from(divisor) {
            Ok(divisor) if divisor >= 2 => Some(Reciprocal {
                divisor,
                scaled: u64::MAX / divisor + 1,
            }),
            _ => None,
        }
    }

    /// Divides a number, and rounds down: the upper half of its product with the reciprocal. None for a number too
    /// large for that, from about 2 to the power 64 divided by the divisor on.
    #[inline]
    #[tactic(auto, using(crate::proofs::Reciprocals::by_reciprocal))]
    pub fn divide(&self, number: u64) -> Option<u64>
        ensures { IfSome result (λ q. q ≡ number / self.now.divisor) }
    {
        if number >= self.scaled {
            return None;
        }
        Some(((number as u128 * self.scaled as u128) >> 64) as u64)
    }
}

/// The greatest divisor: its product with a number below `WORD` has 63 bits.
const GREATEST_DIVISOR: i64 = 2_147_483_647;

/// The least number with more than 32 bits.
const WORD: u64 = 4_294_967_296;

/// Half of it.
const HALF_WORD: u64 = 2_147_483_648;

/// A divisor whose exact quotients are products: with the inverse of its odd part modulo 2 to the power 64, shifted by its factors of 2. Only the
/// quotient of a multiple, multiplied by the divisor, is the number again.
#[derive(Clone, Copy)]
struct ExactDivisor {
    divisor: i64,
    inverse: i64,
    twos: u32,
    ghost two: { pos 2 ≤ℤ divisor },
    ghost greatest: { divisor ≤ℤ pos 2147483647 },
}

impl ExactDivisor {
    /// Makes the inverse of the odd part. Each step doubles the number of its correct bits, which are three at the start. None below 2, and above the
    /// greatest divisor.
    fn of(divisor: i64) -> Option<ExactDivisor>
        ensures { IfSome result (λ d. d.divisor ≡ divisor) }
    {
        if divisor < 2 || divisor > GREATEST_DIVISOR {
            return None;
        }
        let twos = divisor.trailing_zeros();
        let odd = divisor.wrapping_shr(twos);
        let mut inverse = odd;
        for _ in 0..5 {
            let step = 2_i64.wrapping_sub(odd.wrapping_mul(inverse));
            inverse = inverse.wrapping_mul(step);
        }
        Some(ExactDivisor {
            divisor,
            inverse,
            twos,
        })
    }
}

impl OneNumber for ExactDivisor {
    ghost gives = { λ s a. dyadic_on_numbers two.Divide a s.divisor };

    fn at(&self, a: i64) -> Result<i64, Kind> {
        let guess = a.wrapping_mul(self.inverse).wrapping_shr(self.twos);
        match guess.checked_mul(self.divisor) {
            Some(product) if product == a => Ok(guess),
            _ => quotient(a, self.divisor),
        }
    }

    fn has_step(&self) -> bool {
        true
    }

    // The same modulo 2 to the power 32, so that the compiler multiplies short numbers. The guess is moved above 0 before its shift.
    fn step(&self, a: i64) -> (i64, u64) {
        let bits = (a.cast_unsigned() % WORD).wrapping_mul(self.inverse.cast_unsigned() % WORD);
        let moved = (bits.wrapping_add(HALF_WORD) % WORD).wrapping_shr(self.twos);
        let by = HALF_WORD.wrapping_shr(self.twos);
        let divisor = self.divisor.cast_unsigned() % WORD;
        let product = moved
            .wrapping_mul(divisor)
            .wrapping_sub(by.wrapping_mul(divisor));
        let guess = moved.wrapping_sub(by).cast_signed();
        (guess, product ^ a.cast_unsigned())
    }
}

/// Divides a list by a list, place by place. A list of one number is extended to the length of the other.
pub(crate) fn on_quotients(
    alloc: Global,
    left: &[i64],
    right: &[i64],
) -> Result<Vec<i64>, ApplyFault>
    requires { length left.now ≢ 1 → length right.now ≢ 1 → length left.now ≡ length right.now }
    ensures is { IsListAnswerTo (all_or_first_error (dyadic_results two.Divide left.now right.now)) result }
    ensures long { IfOk result (λ v. vec_len v ≡ paired_length left.now right.now) }
{
    if left.len() != 1 && right.len() == 1 {
        if let Some(divisor) = ExactDivisor::of(right[0]) {
            return on_each(alloc, &divisor, left);
        }
    }
    on_lists(alloc, Divide, left, right)
}
