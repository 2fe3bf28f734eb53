//! Numbers at index lists.

ghost use Rattle.std.specs.Prelude.{◌≡◌, IsTrue};
ghost use Rattle.arrays_core.specs.Shapes.{is_index_of};
ghost use Rattle.arrays_core.specs.Arrays.{item_of};
ghost use Rattle.index_region.specs.Arguments.{number_of};

use arrays_core::{Item, position};
use index_region::Seen;

/// Returns the number at an index list; 0 for a character.
pub(crate) fn number_at(array: &Seen, index: &[u32]) -> i64
    requires { IsTrue (is_index_of array.now.shape index.now) }
    ensures { result ≡ number_of (item_of array.now index.now) }
{
    match array.item(position(array.shape(), index)) {
        Item::Num(number) => number,
        Item::Char(_) => 0,
    }
}
