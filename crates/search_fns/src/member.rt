//! Membership: which items are items of another array.

ghost use Rattle.std.specs.Prelude.{◌≡◌, length, nat_lt};
ghost use Rattle.std.specs.List.{list_any};
ghost use Rattle.std.proofs.Common.{rules};
ghost use Rattle.arrays_core.specs.Arrays.{IsAnswerTo};
ghost use Rattle.index_region.specs.ArgumentLists.{of_two_arguments};
ghost use Rattle.change_core.proofs.Growing.{never_grows};
ghost use Rattle.item_fns.specs.Numbers.{truth};
ghost use Rattle.search_fns.specs.SameItem.{same_item};
ghost use Rattle.search_fns.specs.Member.{member_form, member_item, member_whole, member_rule};
ghost use Rattle.search_fns.specs.Laws.Member.{member_tight};

use crate::index_of::{answers_in, first_place};
use crate::lookup::Answer;
use arrays_core::{ApplyFault, Array, Item, ItemType, Kind, Shape, position, shape_of};
use change_core::Announced;
use index_region::{IndexBox, Intervals, Primitive, Seen, limited};
use item_fns::truth;
use selection_fns::{is_small, items_of_whole};
use std::alloc::Global;

/// Membership, `A∊B` (ISO/IEC 13751, "Member of"): 1 for each item of A that is an item of B, else 0. The result has
/// the shape of A. A number never equals a character. It has no error.
#[derive(Clone, Copy, PartialEq, Eq, Debug)]
pub struct Member;

/// Returns whether an item is an item of an array. Scans the array.
fn is_member(array: &Seen, item: Item) -> bool
    ensures { result ≡ list_any (same_item item) array.now.items }
{
    first_place(array, item) <= array.places()
}

impl Answer for Member {
    ghost gives = { λ before places. truth (nat_lt before places) };

    fn answer(before: u32, places: u32) -> i64 {
        truth(before < places)
    }
}

impl Member {
    /// Returns 1 for each item of A that is an item of B, else 0.
    pub fn apply(&self, alloc: Global, args: &[Seen]) -> Result<Array, ApplyFault>
        requires { length args.now ≡ 2 }
        ensures { IsAnswerTo (of_two_arguments member_whole args.now) result }
    {
        let (shape, _) = self.shape_of(args)?;
        let (sought, array) = (&args[0], &args[1]);
        let members = answers_in::<Member>(alloc, array, sought)?;
        Ok(Array::from_numbers(&shape, members)?)
    }
}

impl Primitive for Member {
    ghost arity = { λ _. 2 };

    ghost form = { λ _ args. of_two_arguments member_form args };

    ghost item = { λ _ args index. of_two_arguments (λ a b. member_item a b index) args };

    fn shape_of(&self, args: &[Seen]) -> Result<(Shape, ItemType), Kind> {
        let shape = args[0].shape();
        limited(
            shape_of(*shape.allocator(), shape.as_slice()),
            ItemType::Nums,
        )
    }

    fn item_at(&self, args: &[Seen], index: &[u32]) -> Result<Item, Kind> {
        let (sought, array) = (&args[0], &args[1]);
        let item = sought.item(position(sought.shape(), index));
        Ok(Item::Num(truth(is_member(array, item))))
    }
}

impl Announced for Member {
    ghost selectors = { λ _. member_rule.selectors };

    ghost uses = { λ _ shape args. member_rule.uses shape args };

    fn grows(&self, _args: &[Seen], _grown: &[bool]) -> bool {
        false
    }

    fn selects(&self, _which: usize) -> bool {
        false
    }

    fn box_of(
        &self,
        _args: &[Seen],
        shape: &[u32],
        which: usize,
        region: &IndexBox,
    ) -> Option<Intervals> {
        if which == 0 {
            return Some(region.intervals().copy());
        }
        Some(Intervals::whole(shape))
    }

    fn whole(&self, alloc: Global, args: &[Seen]) -> Result<Array, ApplyFault> {
        self.apply(alloc, args)
    }

    fn items_at_once(
        &self,
        alloc: Global,
        args: &[Seen],
        shape: &[u32],
        item_type: ItemType,
        region: &IndexBox,
    ) -> Option<Result<Array, ApplyFault>> {
        if is_small(region) {
            return None;
        }
        let answer = self.whole(alloc, args);
        items_of_whole(self, alloc, args, answer, shape, item_type, region)
    }

    ghost counted = { λ _. Prim.search rules };

    ghost tight = { λ _. member_tight };

    ghost growing = { λ _. never_grows _ };
}
