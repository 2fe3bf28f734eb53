//! Decode: numbers from their digits.

ghost use Rattle.std.specs.Prelude.{◌≡◌, ◌≢◌, ◌≤◌, ◌+ℤ◌, ◌*ℤ◌, pos, IsTrue, nat_eq, ◌||◌, if◌then◌else◌, drop, length, map, replicate, Ok, Err, IfErr, OnOk};
ghost use Rattle.std.proofs.Common.{rules};
ghost use Rattle.arrays_core.specs.declared.item.Item.TheVariants.{Num};
ghost use Rattle.arrays_core.specs.declared.item.ItemType.TheVariants.{Nums};
ghost use Rattle.arrays_core.specs.declared.item.Kind.TheVariants.{Length, Limit};
ghost use Rattle.arrays_core.specs.Items.{and_then};
ghost use Rattle.arrays_core.specs.Shapes.{is_index_of, size, IsWithinLimits};
ghost use Rattle.arrays_core.specs.Arrays.{collect, IsAnswerTo};
ghost use Rattle.index_region.specs.ArgumentLists.{of_two_arguments};
ghost use Rattle.index_region.specs.Axes.{places_along};
ghost use Rattle.index_region.specs.Arguments.{has_one_item};
ghost use Rattle.index_region.specs.Answers.{IsPlaceOf};
ghost use Rattle.change_core.proofs.Growing.{never_grows};
ghost use Rattle.item_fns.specs.Numbers.{number_or_limit};
ghost use Rattle.item_fns.specs.Items.{number_item};
ghost use Rattle.search_fns.specs.Decode.{decode_form, decode_item, decode_whole, digit_count, radix_at, digit_at, decode_rule};
ghost use Rattle.search_fns.specs.DecodedRows.{HaveRadices, AreDecoded, HasLimit};
ghost use Rattle.search_fns.specs.Laws.Decode.{decode_tight};

use crate::more_digits::{one_more, put_more};
use crate::number_at::number_at;
use arrays_core::{
    ApplyFault, Array, Item, ItemType, Kind, Shape, append_axes, repeated, shape_of, size,
};
use change_core::Announced;
use index_region::{IndexBox, Intervals, Primitive, Seen, apply, limited};
use selection_fns::places_along;
use std::alloc::{AllocError, Global};
use std::mem::swap;

/// Decode, `A⊥B` (ISO/IEC 13751, "Base value"): the numbers whose digits stand along the first axis of B, the most
/// significant first. The result has the other axes of B. A number starts at 0; for each digit it is multiplied by the
/// radix, and the digit is added. Without digits it is 0. A single item of A is the radix of every digit. A scalar B,
/// or a first axis of length 1, is the digit at every radix. RANK where A is neither a scalar nor a vector; LENGTH
/// where the numbers of radices and digits differ and neither is 1; DOMAIN where A or B is not of numbers; LIMIT beyond
/// the limits of arrays, and where a product or a sum is beyond 64 bits.
#[derive(Clone, Copy, PartialEq, Eq, Debug)]
pub struct Decode;

/// Returns the number of digits of each number.
fn digit_count(radices: &Seen, array: &Seen) -> u32
    ensures { result ≡ digit_count radices.now array.now }
{
    if radices.places() == 1 {
        places_along(array.shape().as_slice(), 0)
    } else {
        radices.places()
    }
}

/// Returns the radix of a digit, counted from 1.
fn radix_at(radices: &Seen, k: u32) -> i64
    requires list { length radices.now.shape ≤ 1 }
    requires low { 1 ≤ k }
    requires high { length radices.now.items ≢ 1 → k ≤ length radices.now.items }
    ensures { result ≡ radix_at radices.now k }
{
    if radices.places() == 1 {
        radices.number(1)
    } else {
        radices.number(k)
    }
}

/// Returns the index of a digit on an axis; 1 where the axis has length 1.
fn index_along(axis: u32, k: u32) -> u32
    requires low { 1 ≤ k }
    requires high { axis ≢ 1 → k ≤ axis }
    ensures is { result ≡ if nat_eq axis 1 then 1 else k }
    ensures above { 1 ≤ result }
    ensures within { result ≤ axis }
{
    if axis == 1 { 1 } else { k }
}

/// Returns a digit, counted from 1, of the number at an index list.
fn digit_at(array: &Seen, index: &[u32], k: u32) -> i64
    requires inside { IsTrue (is_index_of (drop 1 array.now.shape) index.now) }
    requires low { 1 ≤ k }
    requires high { places_along array.now.shape 0 ≢ 1 → k ≤ places_along array.now.shape 0 }
    ensures { result ≡ digit_at array.now index.now k }
{
    let shape = array.shape();
    if shape.len() == 0 {
        return number_at(array, &[]);
    }
    let along = index_along(shape[0], k);
    let mut at = shape_of(*shape.allocator(), &[along]);
    append_axes(&mut at, index);
    number_at(array, at.as_slice())
}

/// Checks the lengths: LENGTH where the numbers of radices and digits differ, and neither is 1.
fn check_length(radices: &Seen, array: &Seen) -> Result<(), Kind>
    ensures { result ≡ if has_one_item radices.now || (nat_eq (places_along array.now.shape 0) 1 || nat_eq (length radices.now.items) (places_along array.now.shape 0)) then Ok tt else Err Length }
{
    let places = places_along(array.shape().as_slice(), 0);
    if radices.places() != 1 && places != 1 && radices.places() != places {
        return Err(Kind::Length);
    }
    Ok(())
}

/// Appends a digit, counted from 1, to a value: times its radix, plus the digit.
fn with_digit(radices: &Seen, array: &Seen, index: &[u32], value: i64, k: u32) -> Result<i64, Kind>
    requires place { IsPlaceOf (decode_form radices.now array.now) index.now }
    requires low { 1 ≤ k }
    requires high { k ≤ digit_count radices.now array.now }
    ensures { result ≡ and_then (number_or_limit (value *ℤ radix_at radices.now k)) (λ product. number_or_limit (product +ℤ digit_at array.now index.now k)) }
{
    one_more(value, radix_at(radices, k), digit_at(array, index, k))
}

/// Returns the number at an index list of the result.
fn decoded_at(radices: &Seen, array: &Seen, index: &[u32]) -> Result<i64, Kind>
    requires { IsPlaceOf (decode_form radices.now array.now) index.now }
    ensures { number_item result ≡ decode_item radices.now array.now index.now }
{
    let count = digit_count(radices, array);
    let mut value = 0;
    for before in 0..count {
        value = with_digit(radices, array, index, value, before + 1)?;
    }
    Ok(value)
}

/// Adds all digits to numbers that are 0, one row of B after another. LIMIT where a number leaves 64 bits. Each row of
/// digits makes new numbers in `spare`, which takes the place of the old ones.
fn add_rows(
    numbers: &mut Vec<i64>,
    spare: &mut Vec<i64>,
    radices: &Seen,
    array: &Seen,
    digits: &[i64],
) -> Result<(), Kind>
    requires radices { HaveRadices radices.now array.now }
    requires digits { array.now.items ≡ map (λ z. Num z) digits.now }
    requires none { numbers.old.items ≡ replicate (size (drop 1 array.now.shape)) (pos 0) }
    requires spare { length spare.old.items ≡ length numbers.old.items }
    ensures long { length numbers.new.items ≡ length numbers.old.items }
    ensures is { OnOk result (AreDecoded radices.now array.now numbers.new.items) }
    ensures beyond { IfErr result (λ kind. (kind ≡ Limit) × HasLimit radices.now array.now) }
{
    let width = numbers.len();
    let rows = places_along(array.shape().as_slice(), 0);
    let count = digit_count(radices, array);
    for before in 0..count {
        let row = index_along(rows, before + 1) - 1;
        let first = row as usize * width;
        let radix = radix_at(radices, before + 1);
        put_more(spare, numbers, radix, &digits[first..first + width])?;
        swap(numbers, spare);
    }
    Ok(())
}

/// Returns the numbers of the digits of B as an array, computed one row of B after another.
fn decoded_rows(
    alloc: Global,
    radices: &Seen,
    array: &Seen,
    digits: &[i64],
    shape: &Shape,
) -> Result<Array, ApplyFault>
    requires radices { HaveRadices radices.now array.now }
    requires digits { array.now.items ≡ map (λ z. Num z) digits.now }
    requires shape { shape.now.items ≡ drop 1 array.now.shape }
    requires within { IsWithinLimits shape.now.items }
    ensures { IsAnswerTo (collect Nums shape.now.items (decode_item radices.now array.now)) result }
{
    let places = size(shape.as_slice()) as usize;
    let mut numbers = repeated(alloc, 0, places)?;
    let mut spare = repeated(alloc, 0, places)?;
    add_rows(&mut numbers, &mut spare, radices, array, digits)?;
    Ok(Array::from_numbers(shape, numbers)?)
}

impl Decode {
    /// Returns the number of each list of digits of B. Works row by row where the numbers of B are contiguous, else
    /// item by item.
    pub fn apply(&self, alloc: Global, args: &[Seen]) -> Result<Array, ApplyFault>
        requires { length args.now ≡ 2 }
        ensures { IsAnswerTo (of_two_arguments decode_whole args.now) result }
    {
        let (shape, _) = self.shape_of(args)?;
        let (radices, array) = (&args[0], &args[1]);
        match array.numbers() {
            Some(digits) => decoded_rows(alloc, radices, array, digits, &shape),
            None => apply(alloc, self, args),
        }
    }
}

impl Primitive for Decode {
    ghost arity = { λ _. 2 };

    ghost form = { λ _ args. of_two_arguments decode_form args };

    ghost item = { λ _ args index. of_two_arguments (λ a b. decode_item a b index) args };

    fn shape_of(&self, args: &[Seen]) -> Result<(Shape, ItemType), Kind> {
        let (radices, array) = (&args[0], &args[1]);
        let shape = array.shape();
        if radices.shape().len() > 1 {
            return Err(Kind::Rank);
        }
        check_length(radices, array)?;
        if !radices.counts_as_numbers() || !array.counts_as_numbers() {
            return Err(Kind::Domain);
        }
        let axes = match shape.as_slice() {
            [_, rest @ ..] => rest,
            [] => &[],
        };
        limited(shape_of(*shape.allocator(), axes), ItemType::Nums)
    }

    fn item_at(&self, args: &[Seen], index: &[u32]) -> Result<Item, Kind> {
        Ok(Item::Num(decoded_at(&args[0], &args[1], index)?))
    }
}

impl Announced for Decode {
    ghost selectors = { λ _. decode_rule.selectors };

    ghost uses = { λ _ shape args. decode_rule.uses shape args };

    fn grows(&self, _args: &[Seen], _grown: &[bool]) -> bool {
        false
    }

    fn selects(&self, _which: usize) -> bool {
        false
    }

    fn box_of(
        &self,
        _args: &[Seen],
        shape: &[u32],
        which: usize,
        region: &IndexBox,
    ) -> Option<Intervals> {
        if which == 0 {
            return Some(Intervals::whole(shape));
        }
        match region.as_slice() {
            [] => Some(Intervals::none()),
            [_, others @ ..] => Some(Intervals::of(others)),
        }
    }

    fn whole(&self, alloc: Global, args: &[Seen]) -> Result<Array, ApplyFault> {
        self.apply(alloc, args)
    }

    ghost counted = { λ _. Prim.search rules };

    ghost tight = { λ _. decode_tight };

    ghost growing = { λ _. never_grows _ };
}
