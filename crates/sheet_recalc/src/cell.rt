//! Edits of one cell of data.

ghost use Rattle.std.specs.Prelude.{◌≡◌, IfOk, IfErr, MatchOption, Some, Ok, Err, true, false, ◌≤◌, length};
ghost use Rattle.apl_expr.specs.Trees.{literal_of};
ghost use Rattle.arrays_core.specs.Limits.{most_axes};
ghost use Rattle.arrays_core.specs.Shapes.{is_index_of};
ghost use Rattle.index_region.specs.Patches.{FitsPatch, patched};
ghost use Rattle.index_region.specs.declared.delta.Delta.TheVariants.{Patch as IsPatched};
ghost use Rattle.sheet_recalc.specs.Names.{Data};
ghost use Rattle.sheet_recalc.specs.Cells.{cell_put, index_of_number, index_of_numbers, lies_on_axis, literal_items, IsDataAnswer, IsOnlyItem};
ghost use Rattle.sheet_recalc.specs.Costs.{cell_delta};

use crate::refusal::Refusal;
use apl_expr::Literal;
use arrays_core::{Array, Item, Shape};
use index_region::{IndexBox, Patch};
use smallvec::SmallVec;

/// Returns the patch that puts a literal into one cell of an array, or the first reason to refuse it: a wrong number of positions, a position off its
/// axis, a literal of several items, an item of the other type. It takes no memory.
pub(crate) fn cell_patch(
    array: &Array,
    positions: &[i64],
    literal: &Literal,
) -> Result<Patch, Refusal>
    ensures put { IfOk result (λ patch. cell_put (Some (Data array.now)) positions.now (literal_of literal.now) ≡ Ok (patched array.now patch)) }
    ensures fits { IfOk result (λ patch. FitsPatch array.now patch) }
    ensures delta { IfOk result (λ patch. IsPatched patch ≡ cell_delta (index_of_numbers positions.now) (literal_items (literal_of literal.now))) }
    ensures refused { IfErr result (λ cause. IsDataAnswer (cell_put (Some (Data array.now)) positions.now (literal_of literal.now)) (Err cause)) }
{
    if positions.len() != array.shape().len() {
        return Err(Refusal::Rank);
    }
    let Some(index) = index_of(array.shape(), positions) else {
        return Err(Refusal::Index);
    };
    let Some(item) = only_item(literal) else {
        return Err(Refusal::Length);
    };
    if item.item_type() != array.item_type() {
        return Err(Refusal::Domain);
    }
    let region = IndexBox::at(array.shape().as_slice(), index.as_slice());
    Ok(Patch::one(region, item))
}

/// Returns the item of a literal that has one item.
fn only_item(literal: &Literal) -> Option<Item>
    ensures { IsOnlyItem (literal_items (literal_of literal.now)) result }
{
    match literal {
        Literal::Num(number) => Some(Item::Num(*number)),
        Literal::Nums(numbers) => {
            if numbers.len() == 1 {
                Some(Item::Num(numbers[0]))
            } else {
                None
            }
        }
        Literal::Char(character) => Some(Item::Char(*character)),
        Literal::Text(characters) => {
            if characters.len() == 1 {
                Some(Item::Char(characters[0]))
            } else {
                None
            }
        }
    }
}

/// Returns positions as an index list, if each lies on its axis.
fn index_of(shape: &Shape, positions: &[i64]) -> Option<Shape>
    requires rank { length positions.now ≡ length shape.now.items }
    requires inline { length shape.now.items ≤ most_axes }
    ensures { MatchOption result (is_index_of shape.now.items (index_of_numbers positions.now) ≡ false)
        (λ index. (index.items ≡ index_of_numbers positions.now) × (is_index_of shape.now.items (index_of_numbers positions.now) ≡ true)) }
{
    let mut index: Shape = SmallVec::new(*shape.allocator());
    for (axis, number) in positions.iter().enumerate() {
        let Some(on_axis) = index_on_axis(*number, shape[axis]) else {
            return None;
        };
        index.push_reserved(on_axis);
    }
    Some(index)
}

/// Returns a position as an index, if it lies on an axis of this length.
fn index_on_axis(number: i64, axis: u32) -> Option<u32>
    ensures { MatchOption result (lies_on_axis axis (index_of_number number) ≡ false)
        (λ index. (index ≡ index_of_number number) × (lies_on_axis axis (index_of_number number) ≡ true)) }
{
    if number < 1 || number > i64::from(axis) {
        return None;
    }
    Some(number as u32)
}
