//! The scalar functions on items.

ghost use Rattle.std.specs.Prelude.{◌≡◌, IfOk};
ghost use Rattle.arrays_core.specs.Items.{type_of};
ghost use Rattle.arrays_core.specs.declared.item.ItemType.TheVariants.{Nums};
ghost use Rattle.item_fns.specs.Items.{monadic_on_item, dyadic_on_items, dyadic_on_others};

use crate::dispatch::{one_number, two_numbers};
use crate::numbers::truth;
use arrays_core::{Item, Kind};
use function_names::{Scalar1, Scalar2};

/// Applies a scalar function to an item. Fails with DOMAIN for a character, or with the error that `Scalar1` documents. Allocates nothing.
pub fn one(function: Scalar1, item: Item) -> Result<Item, Kind>
    ensures is { result ≡ monadic_on_item function item }
    ensures typed { IfOk result (λ x. type_of x ≡ Nums) }
{
    match item {
        Item::Num(number) => Ok(Item::Num(one_number(function, number)?)),
        Item::Char(_) => Err(Kind::Domain),
    }
}

/// Applies a function to items that are not both numbers. Fails with DOMAIN except for `Equal` and `NotEqual`.
fn others(function: Scalar2, same: bool) -> Result<Item, Kind>
    ensures is { result ≡ dyadic_on_others function same }
    ensures typed { IfOk result (λ x. type_of x ≡ Nums) }
{
    match function {
        Scalar2::Equal => Ok(Item::Num(truth(same))),
        Scalar2::NotEqual => Ok(Item::Num(truth(!same))),
        _ => Err(Kind::Domain),
    }
}

/// Applies a scalar function to two items. Fails with DOMAIN for a character, except in `Equal` and `NotEqual`: a character never equals a
/// number. Otherwise fails as `Scalar2` documents. Allocates nothing.
pub fn two(function: Scalar2, left: Item, right: Item) -> Result<Item, Kind>
    ensures is { result ≡ dyadic_on_items function left right }
    ensures typed { IfOk result (λ x. type_of x ≡ Nums) }
{
    match (left, right) {
        (Item::Num(a), Item::Num(b)) => Ok(Item::Num(two_numbers(function, a, b)?)),
        (Item::Char(a), Item::Char(b)) => others(function, a == b),
        _ => others(function, false),
    }
}
