//! Encode: the digits of numbers.

ghost use Rattle.std.specs.Prelude.{◌≡◌, ◌≤◌, length};
ghost use Rattle.std.proofs.Common.{rules};
ghost use Rattle.arrays_core.specs.Arrays.{IsAnswerTo};
ghost use Rattle.index_region.specs.ArgumentLists.{of_two_arguments};
ghost use Rattle.index_region.specs.Arguments.{numbers};
ghost use Rattle.index_region.specs.Answers.{IsPlaceOf};
ghost use Rattle.change_core.proofs.Growing.{never_grows};
ghost use Rattle.item_fns.specs.Items.{number_item};
ghost use Rattle.search_fns.specs.Encode.{carried, digit, encode_form, encode_item, encode_whole, encode_rule};
ghost use Rattle.search_fns.specs.Laws.Encode.{encode_tight};

use crate::digits::digits_at_once;
use crate::encoded_rows::encoded_rows;
use crate::number_at::number_at;
use arrays_core::{
    ApplyFault, Array, Item, ItemType, Kind, MOST_AXES, Shape, append_axes, shape_of,
};
use change_core::Announced;
use index_region::{IndexBox, Intervals, Primitive, Seen, apply, limited};
use item_fns::{Scalar2, floor_quotient, two_numbers};
use std::alloc::Global;

/// Encode, `A⊤B` (ISO/IEC 13751, "Representation"): the digits of the numbers of B by the radices A. The result has the
/// axes of A and then those of B, with the digits along the axis of A. A number is divided by each radix from the last
/// one on, and rounded down; a radix 0 leaves 0. Each digit is the residue by its radix of the rest that the later
/// radices leave. A scalar A is the only radix. RANK where A is neither a scalar nor a vector; DOMAIN where A or B is
/// not of numbers; LIMIT beyond the limits of arrays, and where a quotient is beyond 64 bits.
#[derive(Clone, Copy, PartialEq, Eq, Debug)]
pub struct Encode;

/// Returns the rest that a radix leaves to the radices before it.
pub(crate) fn carried(radix: i64, number: i64) -> Result<i64, Kind>
    ensures { result ≡ carried radix number }
{
    if radix == 0 {
        return Ok(0);
    }
    floor_quotient(number, radix)
}

/// Returns the digit of a number by a radix, counted from 1. Stops dividing at 0, as every earlier digit is then 0. A
/// positive number takes at most 63 divisions by radices of 2 or more.
fn digit(radices: &Seen, place: u32, number: i64) -> Result<i64, Kind>
    requires low { 1 ≤ place }
    requires high { place ≤ length radices.now.items }
    ensures { result ≡ digit (numbers radices.now) place number }
{
    let mut rest = number;
    for before in (place..radices.places()).rev() {
        if rest == 0 {
            return Ok(0);
        }
        rest = carried(radices.number(before + 1), rest)?;
    }
    two_numbers(Scalar2::Residue, radices.number(place), rest)
}

/// Returns the digit at an index list of the result.
fn digit_at(radices: &Seen, array: &Seen, index: &[u32]) -> Result<i64, Kind>
    requires { IsPlaceOf (encode_form radices.now array.now) index.now }
    ensures { number_item result ≡ encode_item radices.now array.now index.now }
{
    let rank = radices.shape().len();
    if rank == 0 {
        return digit(radices, 1, number_at(array, index));
    }
    digit(radices, index[0], number_at(array, &index[1..]))
}

impl Encode {
    /// Returns the digits of each number of B, in one pass over the radices. On an error it computes the digits again
    /// one by one, to find the first error.
    pub fn apply(&self, alloc: Global, args: &[Seen]) -> Result<Array, ApplyFault>
        requires { length args.now ≡ 2 }
        ensures { IsAnswerTo (of_two_arguments encode_whole args.now) result }
    {
        let (shape, _) = self.shape_of(args)?;
        match encoded_rows(alloc, &args[0], &args[1]) {
            Ok(digits) => Ok(Array::from_numbers(&shape, digits)?),
            Err(ApplyFault::NoMemory) => Err(ApplyFault::NoMemory),
            Err(ApplyFault::Kind(_)) => apply(alloc, self, args),
        }
    }
}

impl Primitive for Encode {
    ghost arity = { λ _. 2 };

    ghost form = { λ _ args. of_two_arguments encode_form args };

    ghost item = { λ _ args index. of_two_arguments (λ a b. encode_item a b index) args };

    fn shape_of(&self, args: &[Seen]) -> Result<(Shape, ItemType), Kind> {
        let (radices, array) = (&args[0], &args[1]);
        let rank = radices.shape().len();
        if rank > 1 {
            return Err(Kind::Rank);
        }
        if !radices.counts_as_numbers() || !array.counts_as_numbers() {
            return Err(Kind::Domain);
        }
        if rank + array.shape().len() > MOST_AXES {
            return Err(Kind::Limit);
        }
        let mut shape = shape_of(*array.shape().allocator(), radices.shape().as_slice());
        append_axes(&mut shape, array.shape().as_slice());
        limited(shape, ItemType::Nums)
    }

    fn item_at(&self, args: &[Seen], index: &[u32]) -> Result<Item, Kind> {
        Ok(Item::Num(digit_at(&args[0], &args[1], index)?))
    }
}

impl Announced for Encode {
    ghost selectors = { λ _. encode_rule.selectors };

    ghost uses = { λ _ shape args. encode_rule.uses shape args };

    fn grows(&self, _args: &[Seen], _grown: &[bool]) -> bool {
        false
    }

    fn selects(&self, _which: usize) -> bool {
        false
    }

    fn box_of(
        &self,
        args: &[Seen],
        shape: &[u32],
        which: usize,
        region: &IndexBox,
    ) -> Option<Intervals> {
        let radices = args[0].shape().as_slice();
        if which == 1 {
            return Some(Intervals::whole(radices).and_all(region.as_slice()));
        }
        if radices.is_empty() {
            return Some(Intervals::whole(shape));
        }
        let (_, last) = region.as_slice()[0];
        Some(Intervals::one(1, last).and_whole(args[1].shape().as_slice()))
    }

    fn whole(&self, alloc: Global, args: &[Seen]) -> Result<Array, ApplyFault> {
        self.apply(alloc, args)
    }

    fn items_at_once(
        &self,
        alloc: Global,
        args: &[Seen],
        _shape: &[u32],
        _item_type: ItemType,
        region: &IndexBox,
    ) -> Option<Result<Array, ApplyFault>> {
        let (radices, array) = (&args[0], &args[1]);
        if radices.shape().len() != 1 {
            return None;
        }
        let digits = digits_at_once(alloc, radices, array, region)?;
        Some(Ok(digits))
    }

    ghost counted = { λ _. Prim.search rules };

    ghost tight = { λ _. encode_tight };

    ghost growing = { λ _. never_grows _ };
}
