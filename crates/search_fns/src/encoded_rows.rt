//! The digits of numbers, a row at a time: a row has the digits of all numbers by one radix.

ghost use Rattle.std.specs.Prelude.{◌≡◌, ◌≤◌, ◌+◌, ◌*◌, OnOk, IfOk, length};
ghost use Rattle.arrays_core.specs.Arrays.{IsArray};
ghost use Rattle.index_region.specs.Arguments.{numbers};
ghost use Rattle.search_fns.specs.EncodedRows.{AreCarried, AreDigits, HasRow};

use crate::bit_rows::rows_by_bits;
use crate::radix::{Radix, digit_beside};
use arrays_core::{ApplyFault, Kind, repeated};
use index_region::Seen;
use selection_fns::numbers_of;
use std::alloc::Global;

/// Writes the digits of numbers by a radix into the row that begins at `before`.
fn put_row(digits: &mut [i64], before: usize, radix: i64, rests: &[i64])
    requires { before + length rests.now ≤ length digits.old }
    ensures { HasRow radix rests.now before digits.old digits.new }
{
    let by = Radix::new(radix);
    for place in 0..rests.len() {
        digits[before + place] = by.digit(rests[place]);
    }
}

/// Writes the digits of numbers by a radix into the row that begins at `before`. Replaces each number with the rest
/// that the radix leaves.
fn put_row_and_carry(
    digits: &mut [i64],
    before: usize,
    radix: i64,
    rests: &mut [i64],
) -> Result<(), Kind>
    requires { before + length rests.old ≤ length digits.old }
    ensures row { OnOk result (HasRow radix rests.old before digits.old digits.new) }
    ensures carried { OnOk result (AreCarried radix rests.old rests.new) }
{
    let by = Radix::new(radix);
    for place in 0..rests.len() {
        let rest = rests[place];
        let left = by.left(rest)?;
        digits[before + place] = digit_beside(radix, rest, left);
        rests[place] = left;
    }
    Ok(())
}

/// Writes the digits of numbers row by row, from the last radix to the first. Replaces each number with the rest that
/// all radices but the first leave.
fn put_rows(radices: &[i64], rests: &mut [i64], digits: &mut [i64]) -> Result<(), Kind>
    requires { length digits.old ≡ length radices.now * length rests.old }
    ensures { OnOk result (AreDigits radices.now rests.old digits.new) }
{
    let places = rests.len();
    for place in (1..radices.len()).rev() {
        put_row_and_carry(digits, place * places, radices[place], rests)?;
    }
    if radices.is_empty() {
        return Ok(());
    }
    put_row(digits, 0, radices[0], rests);
    Ok(())
}

/// Returns the digits of the numbers of an array, a row for each radix. Fails with the error of one of the numbers, not
/// always the first. Takes time linear in the number of digits.
pub(crate) fn encoded_rows(
    alloc: Global,
    radices: &Seen,
    array: &Seen,
) -> Result<Vec<i64>, ApplyFault>
    ensures is { IfOk result (λ v. AreDigits (numbers radices.now) (numbers array.now) v.items) }
    ensures sound_radices { IfOk result (λ _. IsArray radices.now) }
    ensures sound_array { IfOk result (λ _. IsArray array.now) }
{
    let radices = numbers_of(alloc, radices)?;
    let mut rests = numbers_of(alloc, array)?;
    if let Some(digits) = rows_by_bits(alloc, &radices, &rests)? {
        return Ok(digits);
    }
    let mut digits = repeated(alloc, 0, radices.len() * rests.len())?;
    put_rows(&radices, &mut rests, &mut digits)?;
    Ok(digits)
}
