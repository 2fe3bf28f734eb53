//! Numbers with one more digit.

ghost use Rattle.std.specs.Prelude.{◌≡◌, ◌<◌, ◌^◌, pos, IfErr, OnOk, length};
ghost use Rattle.arrays_core.specs.declared.item.Kind.TheVariants.{Limit};
ghost use Rattle.search_fns.specs.DecodedRows.{with_one_more, HaveOneMore, LeavesNumbers};

use arrays_core::Kind;
use item_fns::kernels::{Plus, Times, TwoNumbers};

/// The bound of numbers and digits for which no product with a radix of 32 bits leaves 64 bits: 2 to the power 31.
const NEAR: u64 = 2_147_483_648;

/// Returns a number times its radix, plus the digit. LIMIT where the product or the sum leaves 64 bits.
#[inline]
pub(crate) fn one_more(number: i64, radix: i64, digit: i64) -> Result<i64, Kind>
    ensures { result ≡ with_one_more number radix digit }
{
    let product = Times.at(number, radix)?;
    Plus.at(product, digit)
}

/// Writes each number with the digit at its place, and checks nothing. Returns the bits of all numbers and digits: if
/// they are below 2 to the power 31, every result is right.
fn put_unchecked(sums: &mut [i64], numbers: &[i64], radix: u32, digits: &[i64]) -> u64
    requires digits { length digits.now ≡ length numbers.now }
    requires sums { length sums.old ≡ length numbers.now }
    ensures long { length sums.new ≡ length sums.old }
    ensures near { result < 2 ^ 31 → HaveOneMore (pos radix) digits.now numbers.now sums.new }
{
    let mut bits = 0;
    for place in 0..digits.len() {
        let number = numbers[place].cast_unsigned();
        let digit = digits[place].cast_unsigned();
        bits |= number | digit;
        let product = number % NEAR * u64::from(radix);
        sums[place] = product.wrapping_add(digit).cast_signed();
    }
    bits
}

/// Writes each number with the digit at its place. LIMIT where a number leaves 64 bits.
fn put_checked(sums: &mut [i64], numbers: &[i64], radix: i64, digits: &[i64]) -> Result<(), Kind>
    requires digits { length digits.now ≡ length numbers.now }
    requires sums { length sums.old ≡ length numbers.now }
    ensures long { length sums.new ≡ length sums.old }
    ensures is { OnOk result (HaveOneMore radix digits.now numbers.now sums.new) }
    ensures beyond { IfErr result (λ kind. (kind ≡ Limit) × LeavesNumbers radix digits.now numbers.now) }
{
    for place in 0..digits.len() {
        sums[place] = one_more(numbers[place], radix, digits[place])?;
    }
    Ok(())
}

/// Writes each number with the digit at its place. LIMIT where a number leaves 64 bits. Checks each number only if one
/// of them or of the digits is not from 0 to 2 to the power 31, or the radix has not 32 bits.
pub(crate) fn put_more(
    sums: &mut [i64],
    numbers: &[i64],
    radix: i64,
    digits: &[i64],
) -> Result<(), Kind>
    requires digits { length digits.now ≡ length numbers.now }
    requires sums { length sums.old ≡ length numbers.now }
    ensures long { length sums.new ≡ length sums.old }
    ensures is { OnOk result (HaveOneMore radix digits.now numbers.now sums.new) }
    ensures beyond { IfErr result (λ kind. (kind ≡ Limit) × LeavesNumbers radix digits.now numbers.now) }
{
    if let Ok(radix) = u32::try_from(radix) {
        if put_unchecked(sums, numbers, radix, digits) < NEAR {
            return Ok(());
        }
    }
    put_checked(sums, numbers, radix, digits)
}
