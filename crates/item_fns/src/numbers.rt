//! The scalar functions on numbers of 64 bits.

ghost use Rattle.std.specs.Prelude.{◌≡◌, ◌≢◌, SomeIff, ℤ, pos, FitsSigned};
ghost use Rattle.std.specs.Int.{w64};
ghost use Rattle.item_fns.specs.Residue.{IsRest};
ghost use Rattle.item_fns.specs.Numbers.{number_or_limit, floor_div, truth, quotient, power, residue, as_truth};

use arrays_core::Kind;

/// Returns 1 for true and 0 for false.
pub fn truth(yes: bool) -> i64
    ensures { result ≡ truth yes }
{
    if yes { 1 } else { 0 }
}

/// Converts 0 and 1 to truth values. Fails with DOMAIN for any other number.
pub(crate) fn as_truth(a: i64) -> Result<bool, Kind>
    ensures { result ≡ as_truth a }
{
    match a {
        0 => Ok(false),
        1 => Ok(true),
        _ => Err(Kind::Domain),
    }
}

/// Unwraps a checked result. Fails with LIMIT on overflow.
pub(crate) fn in_range(number: Option<i64>) -> Result<i64, Kind>
    ensures { (z : ℤ) → SomeIff number (FitsSigned w64 z) z → result ≡ number_or_limit z }
{
    match number {
        Some(number) => Ok(number),
        None => Err(Kind::Limit),
    }
}

/// Returns the residue b - a×⌊b÷a; b for a = 0. The machine's remainder has the sign of b: if the signs differ, adds a.
pub fn residue(a: i64, b: i64) -> i64
    ensures is { result ≡ residue a b }
    ensures rest { a ≢ pos 0 → IsRest a b result }
{
    if a == 0 {
        return b;
    }
    let rest = b.wrapping_rem(a);
    if rest != 0 && (rest < 0) != (a < 0) {
        rest + a
    } else {
        rest
    }
}

/// Divides a by b. Fails with DOMAIN if the quotient is no integer, with LIMIT on overflow. Except for b = ¯1, one machine division yields
/// quotient and remainder.
pub(crate) fn quotient(a: i64, b: i64) -> Result<i64, Kind>
    ensures { result ≡ quotient a b }
{
    if b == 0 {
        return if a == 0 { Ok(1) } else { Err(Kind::Domain) };
    }
    if b == -1 {
        return in_range(a.checked_neg());
    }
    if a % b != 0 {
        return Err(Kind::Domain);
    }
    Ok(a / b)
}

/// Returns ⌊a÷b. Fails with LIMIT on overflow. The machine's quotient rounds toward zero.
pub fn floor_quotient(a: i64, b: i64) -> Result<i64, Kind>
    requires { b ≢ pos 0 }
    ensures { result ≡ number_or_limit (floor_div a b) }
{
    let quotient = in_range(a.checked_div(b));
    if (a < 0) == (b < 0) {
        return quotient;
    }
    if residue(b, a) == 0 {
        return quotient;
    }
    in_range(quotient?.checked_sub(1))
}

/// Returns a to the power b. Fails with DOMAIN if it is no integer, with LIMIT on overflow. For a ≥ 2 or a ≤ ¯2, `checked_pow` overflows
/// within 64 multiplications.
pub(crate) fn power(a: i64, b: i64) -> Result<i64, Kind>
    ensures { result ≡ power a b }
{
    if a == 1 {
        Ok(1)
    } else if a == -1 {
        Ok(if b % 2 == 0 { 1 } else { -1 })
    } else if b < 0 {
        Err(Kind::Domain)
    } else if a == 0 {
        Ok(truth(b == 0))
    } else {
        match u32::try_from(b) {
            Ok(b) => in_range(a.checked_pow(b)),
            Err(_) => Err(Kind::Limit),
        }
    }
}
