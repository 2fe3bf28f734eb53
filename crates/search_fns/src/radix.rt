//! A radix, prepared for many numbers.

ghost use Rattle.std.specs.Prelude.{◌≡◌, ◌≢◌, ◌≤◌, ◌<◌, ◌^◌, ℕ, pos, Ok, IfSome, IfNone};
ghost use Rattle.std.specs.Option.{ForSome};
ghost use Rattle.item_fns.specs.Numbers.{residue};
ghost use Rattle.search_fns.specs.Encode.{carried};

use crate::encode::carried;
use arrays_core::Kind;
use item_fns::{Reciprocal, residue};

/// A radix with its reciprocal. It has none below 2.
#[derive(Clone, Copy)]
pub(crate) struct Radix {
    number: i64,
    reciprocal: Option<Reciprocal>,
    ghost is: { ForSome reciprocal (λ r. number ≡ pos r.divisor) },
}

/// Returns the digit of a number by a radix, from the rest `left` that the radix leaves.
#[inline]
pub(crate) fn digit_beside(radix: i64, number: i64, left: i64) -> i64
    requires { carried radix number ≡ Ok left }
    ensures { result ≡ residue radix number }
{
    number.wrapping_sub(radix.wrapping_mul(left))
}

/// Returns the exponent of a radix that is a power of two from 2 on: the number of bits of its digits. None for another
/// radix.
pub(crate) fn bits_of(radix: i64) -> Option<u32>
    ensures is { IfSome result (λ bits. radix ≡ pos (2 ^ bits)) }
    ensures some { IfSome result (λ bits. 1 ≤ bits) }
    ensures few { IfSome result (λ bits. bits < 63) }
    ensures none { IfNone result ((bits : ℕ) → 1 ≤ bits → bits < 63 → radix ≢ pos (2 ^ bits)) }
{
    let power = u64::try_from(radix).ok()?;
    let bits = power.trailing_zeros();
    if 0 < bits && bits < 63 && 1 << bits == power {
        Some(bits)
    } else {
        None
    }
}

impl Radix {
    /// Prepares a radix.
    pub(crate) fn new(number: i64) -> Radix
        ensures { result.number ≡ number }
    {
        Radix {
            number,
            reciprocal: Reciprocal::of(number),
        }
    }

    /// Returns the rest that the radix leaves of a number, by the reciprocal. None where that does not serve.
    #[inline]
    fn left_at_once(&self, number: i64) -> Option<i64>
        ensures { IfSome result (λ left. carried self.now.number number ≡ Ok left) }
    {
        let positive = u64::try_from(number).ok()?;
        let left = self.reciprocal?.divide(positive)?;
        Some(left as i64)
    }

    /// Returns the rest that the radix leaves to the radices before it.
    #[inline]
    pub(crate) fn left(&self, number: i64) -> Result<i64, Kind>
        ensures { result ≡ carried self.now.number number }
    {
        match self.left_at_once(number) {
            Some(left) => Ok(left),
            None => carried(self.number, number),
        }
    }

    /// Returns the digit of a number.
    #[inline]
    pub(crate) fn digit(&self, number: i64) -> i64
        ensures { result ≡ residue self.now.number number }
    {
        match self.left_at_once(number) {
            Some(left) => digit_beside(self.number, number, left),
            None => residue(self.number, number),
        }
    }
}
