//! Rows at the end of data.

ghost use Rattle.std.specs.Prelude.{◌≡◌, ◌<◌, ◌≤◌, IfOk, IfErr, Ok, Err, Some, true, length};
ghost use Rattle.apl_expr.specs.Trees.{literal_of};
ghost use Rattle.arrays_core.specs.Growth.{one_longer, grown_by};
ghost use Rattle.arrays_core.specs.Limits.{most_places};
ghost use Rattle.arrays_core.specs.Shapes.{IsWithinLimits};
ghost use Rattle.index_region.specs.Tails.{FitsTail};
ghost use Rattle.sheet_recalc.specs.Names.{Data};
ghost use Rattle.sheet_recalc.specs.Cells.{literal_items, IsDataAnswer};
ghost use Rattle.sheet_recalc.specs.Rows.{row_put, items_in_row, are_of_type};

use crate::refusal::Refusal;
use apl_expr::Literal;
use arrays_core::{ApplyFault, Array, Item, ItemType, Shape, is_within_limits, shape_of};
use formula_core::array_of;
use index_region::Tail;
use std::alloc::{AllocError, Global};

/// Returns the tail that appends a literal to an array as its last row, or the first reason to refuse it.
#[inline(always)]
pub(crate) fn row_behind(alloc: Global, array: &Array, literal: &Literal) -> Result<Tail, Refusal>
    ensures put { IfOk result (λ tail. row_put (Some (Data array.now)) (literal_of literal.now) ≡ Ok (grown_by array.now tail.items)) }
    ensures fits { IfOk result (FitsTail array.now) }
    ensures items { IfOk result (λ tail. tail.items ≡ literal_items (literal_of literal.now)) }
    ensures refused { IfErr result (λ cause. IsDataAnswer (row_put (Some (Data array.now)) (literal_of literal.now)) (Err cause)) }
{
    let Some(count) = items_in_row(array.shape().as_slice()) else {
        return Err(Refusal::Rank);
    };
    if items_in(literal) != count {
        return Err(Refusal::Length);
    }
    if !is_of_type(literal, array.item_type()) {
        return Err(Refusal::Domain);
    }
    let shape = one_longer(array.shape());
    if !is_within_limits(shape.as_slice()) {
        return Err(Refusal::Limit);
    }
    Ok(tail_to(alloc, shape, literal, array.item_type())?)
}

/// Returns the tail that makes an array this shape: the items of a literal, all of this type. One item takes memory only where the array has to move
/// its items.
fn tail_to(
    alloc: Global,
    shape: Shape,
    literal: &Literal,
    item_type: ItemType,
) -> Result<Tail, AllocError>
    requires inline { shape.capacity ≡ 4 }
    requires within { IsWithinLimits shape.items }
    requires few { length (literal_items (literal_of literal.now)) ≤ most_places }
    requires typed { are_of_type item_type (literal_items (literal_of literal.now)) ≡ true }
    ensures { IfOk result (λ t. t ≡ record { item_type = item_type; shape = shape.items; items = literal_items (literal_of literal.now) }) }
{
    match literal {
        Literal::Num(number) => Tail::one(shape, Item::Num(*number)),
        Literal::Char(character) => Tail::one(shape, Item::Char(*character)),
        Literal::Nums(_) | Literal::Text(_) => {
            Tail::of(shape, row_of(alloc, literal, item_type)?)
        }
    }
}

/// Returns the number of items in a row of an array of this shape, if it has rows.
fn items_in_row(shape: &[u32]) -> Option<usize>
    ensures { result ≡ items_in_row shape.now }
{
    match shape {
        [_] => Some(1),
        [_, columns] => Some(*columns as usize),
        _ => None,
    }
}

/// Counts the items of a literal.
fn items_in(literal: &Literal) -> usize
    ensures { result ≡ length (literal_items (literal_of literal.now)) }
{
    match literal {
        Literal::Num(_) | Literal::Char(_) => 1,
        Literal::Nums(numbers) => numbers.len(),
        Literal::Text(characters) => characters.len(),
    }
}

/// Returns true if each item of a literal has this type.
#[tactic(auto, using(crate::proofs::Rows::are_numbers, crate::proofs::Rows::are_characters))]
fn is_of_type(literal: &Literal, item_type: ItemType) -> bool
    ensures { result ≡ are_of_type item_type (literal_items (literal_of literal.now)) }
{
    match literal {
        Literal::Num(_) => item_type == ItemType::Nums,
        Literal::Nums(numbers) => numbers.is_empty() || item_type == ItemType::Nums,
        Literal::Char(_) => item_type == ItemType::Chars,
        Literal::Text(characters) => characters.is_empty() || item_type == ItemType::Chars,
    }
}

/// Returns the shape with one more place along its first axis.
fn one_longer(shape: &Shape) -> Shape
    requires rank { 0 < length shape.now.items }
    requires within { IsWithinLimits shape.now.items }
    ensures is { result.items ≡ one_longer shape.now.items }
    ensures inline { result.capacity ≡ 4 }
{
    let mut longer = shape_of(*shape.allocator(), shape.as_slice());
    longer[0] += 1;
    longer
}

/// Returns the items of a literal as an array of this type. The literal has at most as many as an array may have, all of the type.
fn row_of(alloc: Global, literal: &Literal, item_type: ItemType) -> Result<Array, AllocError>
    requires few { length (literal_items (literal_of literal.now)) ≤ most_places }
    requires typed { are_of_type item_type (literal_items (literal_of literal.now)) ≡ true }
    ensures items { IfOk result (λ row. row.items ≡ literal_items (literal_of literal.now)) }
    ensures typed { IfOk result (λ row. row.item_type ≡ item_type) }
{
    if items_in(literal) == 0 {
        return Array::filled(alloc, item_type, &shape_of(alloc, &[0]));
    }
    match array_of(alloc, literal) {
        Ok(row) => Ok(row),
        Err(ApplyFault::NoMemory) => Err(AllocError),
        Err(ApplyFault::Kind(_)) => unreachable!(),
    }
}
