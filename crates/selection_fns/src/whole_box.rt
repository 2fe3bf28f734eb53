//! The items of a box, taken from the whole result where that costs less than item by item.

ghost use Rattle.std.specs.Prelude.{◌≡◌, ◌<◌, ◌≤◌, IfSome, IsTrue, Ok};
ghost use Rattle.arrays_core.specs.Arrays.{IsAnswerTo};
ghost use Rattle.arrays_core.specs.Limits.{most_places};
ghost use Rattle.arrays_core.specs.Shapes.{IsWithinLimits};
ghost use Rattle.change_core.specs.Parts.{HoldsItems, items_in};
ghost use Rattle.index_region.specs.Boxes.{box_size, fits};
ghost use Rattle.index_region.specs.Checks.{form_of, whole};
ghost use Rattle.selection_fns.specs.WholeBox.{IsPicked};

use arrays_core::{ApplyFault, Array, ItemType, shape_of};
use index_region::{IndexBox, Primitive, Seen};
use std::alloc::Global;

/// The greatest size of a box whose items are computed one by one.
const FEW_ITEMS: usize = 8;

/// Returns the items of an array in a box, as a vector. None where the box does not lie in the array, or an allocation fails.
fn picked(alloc: Global, whole: &Array, region: &IndexBox) -> Option<Array>
    requires some { 0 < box_size region.now }
    requires few { box_size region.now ≤ most_places }
    ensures { IfSome result (IsPicked whole.now region.now) }
{
    let places = region.size() as u32;
    let shape = shape_of(alloc, &[places]);
    let Ok(mut items) = Array::filled(alloc, whole.item_type(), &shape) else {
        return None;
    };
    let mut index = region.index_at(0);
    for place in 0..places {
        let item = whole.at(index.as_slice())?;
        items.write_at(place + 1, item);
        region.advance(&mut index);
    }
    Some(items)
}

/// Returns whether a box is so small that its items are better computed one by one.
pub fn is_small(region: &IndexBox) -> bool
    requires { box_size region.now ≤ most_places }
{
    region.size() <= FEW_ITEMS
}

/// Returns the items in a box of a result, from the whole result. None where the whole is an error, or an allocation fails.
pub fn items_of_whole<P: Primitive>(
    _primitive: &P,
    alloc: Global,
    _args: &[Seen],
    answer: Result<Array, ApplyFault>,
    _shape: &[u32],
    _item_type: ItemType,
    region: &IndexBox,
) -> Option<Result<Array, ApplyFault>>
    requires answer { IsAnswerTo (whole (P.form _primitive.now _args.now) (P.item _primitive.now _args.now)) answer }
    requires checked { P.form _primitive.now _args.now ≡ Ok (form_of _shape.now _item_type) }
    requires within { IsWithinLimits _shape.now }
    requires fit { IsTrue (fits region.now _shape.now) }
    ensures { IfSome result (HoldsItems _item_type (items_in (P.item _primitive.now _args.now) region.now)) }
{
    let Ok(whole) = answer else {
        return None;
    };
    let items = picked(alloc, &whole, region)?;
    Some(Ok(items))
}
