//! The digits of numbers by powers of two, in order: each digit is a run of the bits of its number.

ghost use Rattle.std.specs.Prelude.{◌≡◌, ◌≤◌, ◌<◌, ◌+◌, ◌*◌, ◌^◌, ◌++◌, ℕ, pos, IsTrue, IfOk, IfSome, length, get_or, drop, map, vec_len, vec_capacity};
ghost use Rattle.item_fns.specs.Numbers.{floor_div, is_number, residue};
ghost use Rattle.search_fns.specs.EncodedRows.{AreDigits, ArePowers, AreRows};

use crate::radix::bits_of;
use arrays_core::room_of;
use std::alloc::{AllocError, Global};

/// Returns the number of bits of all digits of a number. None where a radix is not a power of two from 2 on, and for more
/// bits than `most`.
fn bits_together(radices: &[i64], most: u32) -> Option<u32>
    requires { most ≤ 64 }
    ensures is { IfSome result (λ bits. ArePowers radices.now bits) }
    ensures few { IfSome result (λ bits. bits ≤ most) }
{
    let mut together = 0;
    for place in (0..radices.len()).rev() {
        together += bits_of(radices[place])?;
        if together > most {
            return None;
        }
    }
    Some(together)
}

/// Appends the digits of numbers by 2 to the power `bits`, within the capacity of the list. The `dropped` lowest bits of
/// a number belong to later digits. The list is passed by value, so that its length stays in a register while the loop
/// writes.
fn with_row(list: Vec<i64>, numbers: &[i64], dropped: u32, bits: u32) -> Vec<i64>
    requires some { 1 ≤ bits }
    requires few { bits < 63 }
    requires inside { dropped + bits ≤ 64 }
    requires room { vec_len list + length numbers.now ≤ vec_capacity list }
    ensures items { result.items ≡ list.items ++ map (λ z. residue (pos (2 ^ bits)) (floor_div z (pos (2 ^ dropped)))) numbers.now }
    ensures room { vec_capacity result ≡ vec_capacity list }
    ensures fit { (k : ℕ) → k < length numbers.now → IsTrue (is_number (get_or numbers.now k (pos 0))) }
{
    let mut list = list;
    let mask = (1_u64 << bits) - 1;
    for place in 0..numbers.len() {
        let run = (numbers[place].cast_unsigned() >> dropped) & mask;
        list.push_reserved(run.cast_signed());
    }
    list
}

/// Appends the rest of each number without its `dropped` lowest bits, within the capacity of the list.
fn with_rests(list: Vec<i64>, numbers: &[i64], dropped: u32) -> Vec<i64>
    requires few { dropped ≤ 63 }
    requires room { vec_len list + length numbers.now ≤ vec_capacity list }
    ensures items { result.items ≡ list.items ++ map (λ z. floor_div z (pos (2 ^ dropped))) numbers.now }
    ensures room { vec_capacity result ≡ vec_capacity list }
    ensures fit { (k : ℕ) → k < length numbers.now → IsTrue (is_number (get_or numbers.now k (pos 0))) }
{
    let mut list = list;
    for place in 0..numbers.len() {
        list.push_reserved(numbers[place] >> dropped);
    }
    list
}

/// Appends the rows of digits from the radix at `done` on, within the capacity of the list. The radices from there on are
/// powers of two, whose digits have `bits` bits together.
fn with_rows(list: Vec<i64>, numbers: &[i64], radices: &[i64], done: usize, bits: u32) -> Vec<i64>
    requires powers { ArePowers (drop done radices.now) bits }
    requires few { bits ≤ 64 }
    requires begun { AreRows radices.now numbers.now done list.items }
    requires inside { done ≤ length radices.now }
    requires room { length radices.now * length numbers.now ≤ vec_capacity list }
    ensures { AreDigits radices.now numbers.now result.items }
{
    let mut list = list;
    let mut dropped = bits;
    for place in done..radices.len() {
        let Some(own) = bits_of(radices[place]) else {
            unreachable!();
        };
        dropped -= own;
        list = with_row(list, numbers, dropped, own);
    }
    list
}

/// Returns the digits of numbers by powers of two from 2 on. None for other radices, and where the digits of a number
/// have more than 64 bits.
fn rows_of_powers(
    alloc: Global,
    radices: &[i64],
    numbers: &[i64],
) -> Result<Option<Vec<i64>>, AllocError>
    requires few { length radices.now * length numbers.now < 2 ^ 63 }
    ensures { IfOk result (λ rows. IfSome rows (λ v. AreDigits radices.now numbers.now v.items)) }
{
    let Some(bits) = bits_together(radices, 64) else {
        return Ok(None);
    };
    let list = Vec::with_capacity(alloc, room_of(radices.len() * numbers.len()))?;
    Ok(Some(with_rows(list, numbers, radices, 0, bits)))
}

/// Returns the digits of numbers by a first radix of 0, which takes the whole rest, and by powers of two from 2 on. None
/// for other later radices, and where their digits of a number have more than 63 bits.
fn rows_after_rests(
    alloc: Global,
    radices: &[i64],
    numbers: &[i64],
) -> Result<Option<Vec<i64>>, AllocError>
    requires some { 0 < length radices.now }
    requires zero { get_or radices.now 0 (pos 0) ≡ pos 0 }
    requires few { length radices.now * length numbers.now < 2 ^ 63 }
    ensures { IfOk result (λ rows. IfSome rows (λ v. AreDigits radices.now numbers.now v.items)) }
{
    let Some(bits) = bits_together(&radices[1..], 63) else {
        return Ok(None);
    };
    let list = Vec::with_capacity(alloc, room_of(radices.len() * numbers.len()))?;
    let list = with_rests(list, numbers, bits);
    Ok(Some(with_rows(list, numbers, radices, 1, bits)))
}

/// Returns the digits of numbers by powers of two from 2 on; the first radix may also be 0. None for other radices, and
/// where the digits of a number have too many bits. Takes time linear in the number of digits.
pub(crate) fn rows_by_bits(
    alloc: Global,
    radices: &[i64],
    numbers: &[i64],
) -> Result<Option<Vec<i64>>, AllocError>
    requires few { length radices.now * length numbers.now < 2 ^ 63 }
    ensures { IfOk result (λ rows. IfSome rows (λ v. AreDigits radices.now numbers.now v.items)) }
{
    if !radices.is_empty() && radices[0] == 0 {
        return rows_after_rests(alloc, radices, numbers);
    }
    rows_of_powers(alloc, radices, numbers)
}
