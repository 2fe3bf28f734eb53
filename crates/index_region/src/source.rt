//! Sources of the items of a result.

ghost use Rattle.std.specs.Prelude.{◌≡◌, Ok, true};
ghost use Rattle.arrays_core.specs.Items.{type_of};
ghost use Rattle.index_region.specs.Arguments.{has_items};
ghost use Rattle.index_region.specs.Sources.{item_from};
ghost use Rattle.index_region.specs.Answers.{IsSourceIn, source_value};

use crate::seen::Seen;
use arrays_core::{Item, ItemType, Shape, position};

/// The source of an item of a result: an index list of an argument (0 for the left or only one, 1 for the right), or fill.
#[derive(Drop)]
pub enum Source {
    Place { arg: usize, at: Shape },
    Fill,
}

/// Returns the item of a source. A function with one source argument passes it as `left` and `right`. An argument without items may have
/// another type, as no index list lies in it.
pub fn item_from<'a>(left: &Seen<'a>, right: &Seen<'a>, item_type: ItemType, source: Source) -> Item
    requires inside { IsSourceIn left.now right.now source }
    requires left_typed { has_items left.now ≡ true → left.now.item_type ≡ item_type }
    requires right_typed { has_items right.now ≡ true → right.now.item_type ≡ item_type }
    ensures is { Ok result ≡ item_from left.now right.now item_type (source_value source) }
    ensures typed { type_of result ≡ item_type }
{
    match source {
        Source::Place { arg, at } => {
            let array = if arg == 0 { left } else { right };
            array.item(position(array.shape(), at.as_slice()))
        }
        Source::Fill => item_type.fill(),
    }
}
