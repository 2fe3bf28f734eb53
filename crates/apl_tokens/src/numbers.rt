//! Numbers in decimal digits.

ghost use Rattle.std.specs.Prelude.{◌≡◌, true, false, MatchOption};
ghost use Rattle.apl_tokens.specs.Characters.{decimal_from, signed, fits_number};

/// Returns the number with this sign and magnitude, or `None` if it does not fit in 64 bits.
#[inline(always)]
pub(crate) fn with_sign(is_negative: bool, magnitude: u64) -> Option<i64>
    ensures { MatchOption result (fits_number is_negative magnitude ≡ false) (λ n. (fits_number is_negative magnitude ≡ true) × (n ≡ signed is_negative magnitude)) }
{
    if is_negative {
        0_i64.checked_sub_unsigned(magnitude)
    } else {
        i64::try_from(magnitude).ok()
    }
}

/// Returns the number that these ASCII digits spell, negative if `is_negative`, or `None` if it does not fit in 64 bits. The least and the
/// greatest number fit. No digits spell 0.
#[tactic(auto, using(crate::proofs::Decimals::decimal_grows))]
pub fn number_of_digits(is_negative: bool, digits: &[u8]) -> Option<i64>
    ensures { MatchOption result (fits_number is_negative (decimal_from 0 digits.now) ≡ false) (λ n. (fits_number is_negative (decimal_from 0 digits.now) ≡ true) × (n ≡ signed is_negative (decimal_from 0 digits.now))) }
{
    let mut magnitude: u64 = 0;
    for digit in digits {
        let value = u64::from(digit.saturating_sub(48));
        magnitude = magnitude.checked_mul(10)?.checked_add(value)?;
    }
    with_sign(is_negative, magnitude)
}
