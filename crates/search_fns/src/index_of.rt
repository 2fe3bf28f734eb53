//! Index of: the first places of items.

ghost use Rattle.std.specs.Prelude.{◌≡◌, ◌≢◌, IfOk, suc, pos, length, map};
ghost use Rattle.std.specs.List.{position_or_len};
ghost use Rattle.std.proofs.Common.{rules};
ghost use Rattle.arrays_core.specs.Arrays.{IsAnswerTo};
ghost use Rattle.arrays_core.specs.Shapes.{size};
ghost use Rattle.index_region.specs.ArgumentLists.{of_two_arguments};
ghost use Rattle.change_core.proofs.Growing.{never_grows};
ghost use Rattle.search_fns.specs.SameItem.{same_item};
ghost use Rattle.search_fns.specs.IndexOf.{index_of_form, index_of_item, index_of_whole, index_of_rule};
ghost use Rattle.search_fns.specs.Laws.IndexOf.{index_of_tight};

use crate::lookup::{Answer, all_of, answers};
use arrays_core::{ApplyFault, Array, Item, ItemType, Kind, Shape, position, shape_of};
use change_core::Announced;
use index_region::{IndexBox, Intervals, Primitive, Seen, limited};
use selection_fns::{is_small, items_of_whole};
use std::alloc::{AllocError, Global};

/// Index of, `A⍳B` (ISO/IEC 13751, "Index of"): the first place in A of each item of B, or one more than the length of
/// A. The result has the shape of B. A number never equals a character. RANK where A is not a vector.
#[derive(Clone, Copy, PartialEq, Eq, Debug)]
pub struct IndexOf;

/// Returns whether two items have the same type and value.
fn is_same(left: Item, right: Item) -> bool
    ensures { result ≡ same_item left right }
{
    match (left, right) {
        (Item::Num(left), Item::Num(right)) => left == right,
        (Item::Char(left), Item::Char(right)) => left == right,
        (Item::Num(_), Item::Char(_)) => false,
        (Item::Char(_), Item::Num(_)) => false,
    }
}

/// Returns the first place of an item in an array, counted from 1, or one more than the number of places. Scans the array.
pub(crate) fn first_place(array: &Seen, item: Item) -> u32
    ensures { result ≡ suc (position_or_len (same_item item) array.now.items) }
{
    let places = array.places();
    for before in 0..places {
        if is_same(item, array.item(before + 1)) {
            return before + 1;
        }
    }
    places + 1
}

/// Returns the answers for an array of the other type, of which no item is found.
fn no_answers<A: Answer>(alloc: Global, array: &Seen, sought: &Seen) -> Result<Vec<i64>, AllocError>
    requires { array.now.item_type ≢ sought.now.item_type }
    ensures { IfOk result (λ v. v.items ≡ map (λ x. A.gives (position_or_len (same_item x) array.now.items) (length array.now.items)) sought.now.items) }
{
    let places = array.places();
    all_of(alloc, A::answer(places, places), sought.places())
}

/// Returns the answer for each item that is sought in an array. Reads each of the two once.
fn answers_in_array<A: Answer>(
    alloc: Global,
    array: &Array,
    sought: &Array,
) -> Result<Vec<i64>, AllocError>
    ensures { IfOk result (λ v. v.items ≡ map (λ x. A.gives (position_or_len (same_item x) array.now.items) (length array.now.items)) sought.now.items) }
{
    // `shape` shows that the array has at most `most_places` places.
    let _within_limits = array.shape();
    if let (Some(items), Some(numbers)) = (array.numbers(), sought.numbers()) {
        return answers::<A, i64>(alloc, items, numbers);
    }
    if let (Some(items), Some(characters)) = (array.characters(), sought.characters()) {
        return answers::<A, char>(alloc, items, characters);
    }
    no_answers::<A>(alloc, &Seen::plain(array), &Seen::plain(sought))
}

/// Does the same for arrays with changes: if one of the two has a patch or a tail, both are copied first.
pub(crate) fn answers_in<A: Answer>(
    alloc: Global,
    array: &Seen,
    sought: &Seen,
) -> Result<Vec<i64>, AllocError>
    ensures is { IfOk result (λ v. v.items ≡ map (λ x. A.gives (position_or_len (same_item x) array.now.items) (length array.now.items)) sought.now.items) }
    ensures long { length sought.now.items ≡ size sought.now.shape }
{
    // `places` shows that there is one item for each place of the shape.
    let _one_item_a_place = sought.places();
    if let (Some(array), Some(sought)) = (array.array(), sought.array()) {
        return answers_in_array::<A>(alloc, array, sought);
    }
    let array = array.copy()?;
    let sought = sought.copy()?;
    answers_in_array::<A>(alloc, &array, &sought)
}

impl Answer for IndexOf {
    ghost gives = { λ before _. pos (suc before) };

    fn answer(before: u32, _places: u32) -> i64 {
        i64::from(before + 1)
    }
}

impl IndexOf {
    /// Returns the first place in A of each item of B.
    pub fn apply(&self, alloc: Global, args: &[Seen]) -> Result<Array, ApplyFault>
        requires { length args.now ≡ 2 }
        ensures { IsAnswerTo (of_two_arguments index_of_whole args.now) result }
    {
        let (shape, _) = self.shape_of(args)?;
        let (array, sought) = (&args[0], &args[1]);
        let places = answers_in::<IndexOf>(alloc, array, sought)?;
        Ok(Array::from_numbers(&shape, places)?)
    }
}

impl Primitive for IndexOf {
    ghost arity = { λ _. 2 };

    ghost form = { λ _ args. of_two_arguments index_of_form args };

    ghost item = { λ _ args index. of_two_arguments (λ a b. index_of_item a b index) args };

    fn shape_of(&self, args: &[Seen]) -> Result<(Shape, ItemType), Kind> {
        if args[0].shape().len() != 1 {
            return Err(Kind::Rank);
        }
        let shape = args[1].shape();
        limited(
            shape_of(*shape.allocator(), shape.as_slice()),
            ItemType::Nums,
        )
    }

    fn item_at(&self, args: &[Seen], index: &[u32]) -> Result<Item, Kind> {
        let sought = &args[1];
        let item = sought.item(position(sought.shape(), index));
        Ok(Item::Num(i64::from(first_place(&args[0], item))))
    }
}

impl Announced for IndexOf {
    ghost selectors = { λ _. index_of_rule.selectors };

    ghost uses = { λ _ shape args. index_of_rule.uses shape args };

    fn grows(&self, _args: &[Seen], _grown: &[bool]) -> bool {
        false
    }

    fn selects(&self, _which: usize) -> bool {
        false
    }

    fn box_of(
        &self,
        _args: &[Seen],
        shape: &[u32],
        which: usize,
        region: &IndexBox,
    ) -> Option<Intervals> {
        if which == 0 {
            return Some(Intervals::whole(shape));
        }
        Some(region.intervals().copy())
    }

    fn whole(&self, alloc: Global, args: &[Seen]) -> Result<Array, ApplyFault> {
        self.apply(alloc, args)
    }

    fn items_at_once(
        &self,
        alloc: Global,
        args: &[Seen],
        shape: &[u32],
        item_type: ItemType,
        region: &IndexBox,
    ) -> Option<Result<Array, ApplyFault>> {
        if is_small(region) {
            return None;
        }
        let answer = self.whole(alloc, args);
        items_of_whole(self, alloc, args, answer, shape, item_type, region)
    }

    ghost counted = { λ _. Prim.search rules };

    ghost tight = { λ _. index_of_tight };

    ghost growing = { λ _. never_grows _ };
}
