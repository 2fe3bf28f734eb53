//! Change rules.

ghost use Rattle.std.specs.Prelude.{◌≡◌, ◌+◌, ◌≤◌, length, map, IfOk, IfErr, OnOk, IsTrue, Ok, Err};
ghost use Rattle.arrays_core.specs.Arrays.{IsAnswerTo};
ghost use Rattle.arrays_core.specs.Shapes.{IsWithinLimits};
ghost use Rattle.index_region.specs.Boxes.{box_size, fits};
ghost use Rattle.index_region.specs.Checks.{whole, form_of};
ghost use Rattle.index_region.specs.Answers.{IsFormAnswerTo, IsPlaceOf, HasTypeOf};

use crate::meter::Meter;
use crate::reach::{Reach, Reached};
use arrays_core::{ApplyFault, Array, Item, ItemType, Kind, Shape, shape_of, size};
use index_region::{ChangedBox, IndexBox, Seen};
use std::alloc::Global;

/// An array function with its change rule. Its laws: the boxes contain everything that changes, and the result grows when `grows` holds.
/// Every computed item ticks the meter. None of `shape`, `item`, `grows` and `reach` allocates.
pub trait Rule {
    ghost use Rattle.change_core.specs.RuleModels.{RuleModel, Passes, form_size};
    ghost use Rattle.change_core.specs.Reaches.{AllFit, reach_of};
    ghost use Rattle.change_core.specs.Meters.{ticked};
    ghost use Rattle.change_core.specs.Parts.{HoldsItems, items_in};
    ghost use Rattle.change_core.specs.Tightness.{IsTight};
    ghost use Rattle.change_core.specs.Growth.{IsGrowing};

    /// The model: the checks, the items, and the uses of the arguments.
    ghost model: { Self → RuleModel };

    /// Checks the arguments in order, and returns the shape and type of the result.
    fn shape(&self, args: &[Seen]) -> Result<(Shape, ItemType), Kind>
        requires { length args.now ≡ length (model self.now).selectors }
        ensures { IsFormAnswerTo ((model self.now).form args.now) result };

    /// Returns the number of places of the result; 0 if a check fails.
    fn places(&self, args: &[Seen]) -> u32
        requires { length args.now ≡ length (model self.now).selectors }
        ensures { result ≡ form_size ((model self.now).form args.now) }
    {
        match self.shape(args) {
            Ok(form) => size(form.0.as_slice()),
            Err(_) => 0,
        }
    }

    /// Returns the item at an index list of the result. Ticks once.
    fn item(&self, args: &[Seen], index: &[u32], meter: &mut Meter) -> Result<Item, Kind>
        requires count { length args.now ≡ length (model self.now).selectors }
        requires place { IsPlaceOf ((model self.now).form args.now) index.now }
        ensures is { result ≡ (model self.now).item args.now index.now }
        ensures typed { IfOk result (HasTypeOf ((model self.now).form args.now)) }
        ensures ticks { meter.new.ticks ≡ ticked meter.old.ticks 1 }
        ensures rises { meter.old.ticks ≤ meter.new.ticks }
        ensures joins { meter.new.joins ≡ meter.old.joins };

    /// Computes the whole result. Ticks once for each place of the result.
    fn all(&self, alloc: Global, args: &[Seen], meter: &mut Meter) -> Result<Array, ApplyFault>
        requires { length args.now ≡ length (model self.now).selectors }
        ensures is { IsAnswerTo (whole ((model self.now).form args.now) ((model self.now).item args.now)) result }
        ensures ticks { meter.new.ticks ≡ ticked meter.old.ticks (form_size ((model self.now).form args.now)) }
        ensures rises { meter.old.ticks ≤ meter.new.ticks }
        ensures joins { meter.new.joins ≡ meter.old.joins };

    /// Computes the items of a box one by one, as `part` specifies. An override of `part` calls it as a fallback, as `Announced` does.
    fn item_by_item(
        &self,
        alloc: Global,
        args: &[Seen],
        shape: &[u32],
        item_type: ItemType,
        region: &IndexBox,
        meter: &mut Meter,
    ) -> Result<Array, ApplyFault>
        requires count { length args.now ≡ length (model self.now).selectors }
        requires checked { (model self.now).form args.now ≡ Ok (form_of shape.now item_type) }
        requires within { IsWithinLimits shape.now }
        requires fit { IsTrue (fits region.now shape.now) }
        ensures items { HoldsItems item_type (items_in ((model self.now).item args.now) region.now) result }
        ensures ticks { meter.new.ticks ≤ meter.old.ticks + box_size region.now }
        ensures exact { IfOk result (λ _. meter.new.ticks ≡ ticked meter.old.ticks (box_size region.now)) }
        ensures rises { meter.old.ticks ≤ meter.new.ticks }
        ensures joins { meter.new.joins ≡ meter.old.joins }
    {
        let places = region.size();
        let mut values = Array::filled(alloc, item_type, &shape_of(alloc, &[places as u32]))?;
        let mut index = region.index_at(0);
        for place in 0..places {
            match self.item(args, index.as_slice(), meter) {
                Ok(item) => values.write_at(place as u32 + 1, item),
                Err(kind) => return Err(ApplyFault::Kind(kind)),
            }
            region.advance(&mut index);
        }
        Ok(values)
    }

    /// Returns the items of a box of the result in row-major order, in any shape, or the first error among them. Ticks at most once for
    /// each place of the box, and exactly so on success.
    fn part(
        &self,
        alloc: Global,
        args: &[Seen],
        shape: &[u32],
        item_type: ItemType,
        region: &IndexBox,
        meter: &mut Meter,
    ) -> Result<Array, ApplyFault>
        requires count { length args.now ≡ length (model self.now).selectors }
        requires checked { (model self.now).form args.now ≡ Ok (form_of shape.now item_type) }
        requires within { IsWithinLimits shape.now }
        requires fit { IsTrue (fits region.now shape.now) }
        ensures items { HoldsItems item_type (items_in ((model self.now).item args.now) region.now) result }
        ensures ticks { meter.new.ticks ≤ meter.old.ticks + box_size region.now }
        ensures exact { IfOk result (λ _. meter.new.ticks ≡ ticked meter.old.ticks (box_size region.now)) }
        ensures rises { meter.old.ticks ≤ meter.new.ticks }
        ensures joins { meter.new.joins ≡ meter.old.joins }
    {
        self.item_by_item(alloc, args, shape, item_type, region, meter)
    }

    /// Tests whether the result grows by one place of its first axis. Each marked argument grew so; the others are unchanged.
    fn grows(&self, args: &[Seen], grown: &[bool]) -> bool
        requires count { length args.now ≡ length (model self.now).selectors }
        requires marks { length grown.now ≡ length args.now }
        ensures { result ≡ (model self.now).grows args.now grown.now };

    /// Tests whether an item of the result may read many items of the arguments. If not, changed items are computed from views, without
    /// copying a patched argument. Only the cost depends on it.
    fn reads_many_items(&self) -> bool {
        true
    }

    /// Checks the new arguments, and returns the places of the result that may change, given the changed box of each argument. Returns the
    /// error of the first check that fails.
    fn reached<M: ChangedBox>(&self, args: &[Seen], moved: &[M]) -> Result<Reached, Kind>
        requires count { length args.now ≡ length (model self.now).selectors }
        requires moves { length moved.now ≡ length args.now }
        requires fit { AllFit args.now (map M.changed moved.now) }
        ensures err { IfErr result (λ kind. (model self.now).form args.now ≡ Err kind) }
        ensures passes { OnOk result (Passes ((model self.now).form args.now)) }
        ensures reach { IfOk result (λ r. r.reach ≡ reach_of (model self.now) args.now (map M.changed moved.now)) };

    /// Returns the part of the result that may change, given the new arguments and the changed box of each.
    fn reach(&self, args: &[Seen], moved: &[Option<IndexBox>]) -> Reach
        requires count { length args.now ≡ length (model self.now).selectors }
        requires moves { length moved.now ≡ length args.now }
        requires fit { AllFit args.now moved.now }
        ensures { result ≡ reach_of (model self.now) args.now moved.now }
    {
        match self.reached(args, moved) {
            Ok(reached) => reached.reach,
            Err(_) => Reach::Anew,
        }
    }

    /// The boxes contain everything that changes.
    ghost tight: { (rule : Self) → IsTight (model rule) };

    /// The result grows when `grows` holds.
    ghost growing: { (rule : Self) → IsGrowing (model rule) (model rule).grows };
}
