//! Array functions that state which items of their result a change may change.

ghost use Rattle.std.specs.Prelude.{◌≡◌, ◌≤◌, ◌<◌, ℕ, List, Bool, length, map, get_or, false, IfSome, IfOk, IfErr, OnOk, IsTrue, Ok, Err};
ghost use Rattle.arrays_core.specs.Arrays.{ArrayValue, IsAnswerTo};
ghost use Rattle.arrays_core.specs.Limits.{most_axes};
ghost use Rattle.arrays_core.specs.Shapes.{IsWithinLimits};
ghost use Rattle.index_region.specs.Boxes.{fits};
ghost use Rattle.index_region.specs.Checks.{whole, form_of};
ghost use Rattle.change_core.specs.RuleModels.{Use, FitsAt, HasShape, Passes, box_at};
ghost use Rattle.change_core.specs.Reaches.{AllFit, reach_of};
ghost use Rattle.change_core.specs.Tightness.{IsTight};
ghost use Rattle.change_core.specs.Growth.{IsGrowing, never};
ghost use Rattle.change_core.specs.Parts.{HoldsItems, items_in};

use crate::meter::Meter;
use crate::reach::{Reach, Reached, as_reach, bounded, join_boxes};
use crate::rule::Rule;
use arrays_core::{ApplyFault, Array, Item, ItemType, Kind, Shape, size};
use index_region::{ChangedBox, IndexBox, Intervals, Primitive, Seen, apply};
use std::alloc::Global;

/// An array function that states which items of its result a change of its arguments may change. Every such function is a `Rule`. The calls
/// here that compute items do not tick a meter; a recalculation reaches them only through `Rule`, which does.
pub trait Announced: Primitive {
    /// Marks the arguments whose items decide which items of the others are read. A change of one recomputes the whole result.
    ghost selectors: { Self → List Bool };

    /// The uses of the arguments, given the shape of the result.
    ghost uses: { Self → List ℕ → List ArrayValue → List Use };

    /// True if the result grows, given the new arguments and marks for those that grew.
    ghost growth: { Self → List ArrayValue → List Bool → Bool } = { λ _. never };

    /// Tests whether the result grows by one place of its first axis. Each marked argument grew so; the others are unchanged.
    fn grows(&self, args: &[Seen], grown: &[bool]) -> bool
        requires count { length args.now ≡ Self.arity self.now }
        requires marks { length grown.now ≡ length args.now }
        ensures { result ≡ growth self.now args.now grown.now };

    /// Tests whether an item of the result may read many items of the arguments. If not, changed items are computed from views, without
    /// copying a patched argument. Only the cost depends on it.
    fn reads_many_items(&self) -> bool {
        true
    }

    /// Tests whether a change of the argument recomputes the whole result.
    fn selects(&self, which: usize) -> bool
        ensures { result ≡ get_or (selectors self.now) which false };

    /// Returns the intervals of the result that a changed box of one argument may change, given the shape of the result.
    fn box_of(
        &self,
        args: &[Seen],
        shape: &[u32],
        which: usize,
        region: &IndexBox,
    ) -> Option<Intervals>
        requires count { length args.now ≡ Self.arity self.now }
        requires below { which < length args.now }
        requires fit { FitsAt args.now which region.now }
        requires checked { HasShape (Self.form self.now args.now) shape.now }
        ensures { result ≡ box_at (uses self.now shape.now args.now) which region.now };

    /// Checks the arguments, and returns the places of the result that may change, as in `Rule`. Override it if they are known without the
    /// shape of the result.
    fn reached<M: ChangedBox>(&self, args: &[Seen], moved: &[M]) -> Result<Reached, Kind>
        requires count { length args.now ≡ Self.arity self.now }
        requires moves { length moved.now ≡ length args.now }
        requires fit { AllFit args.now (map M.changed moved.now) }
        ensures err { IfErr result (λ kind. Self.form self.now args.now ≡ Err kind) }
        ensures passes { OnOk result (Passes (Self.form self.now args.now)) }
        ensures reach { IfOk result (λ r. r.reach ≡ reach_of (record { selectors = selectors self.now; form = Self.form self.now; item = Self.item self.now; uses = uses self.now; grows = growth self.now }) args.now (map M.changed moved.now)) }
    {
        self.reached_by_boxes(args, moved)
    }

    /// Does the same from the shape of the result: returns the hull of the boxes that the arguments may change. An override of `reached`
    /// calls it as a fallback.
    fn reached_by_boxes<M: ChangedBox>(&self, args: &[Seen], moved: &[M]) -> Result<Reached, Kind>
        requires count { length args.now ≡ Self.arity self.now }
        requires moves { length moved.now ≡ length args.now }
        requires fit { AllFit args.now (map M.changed moved.now) }
        ensures err { IfErr result (λ kind. Self.form self.now args.now ≡ Err kind) }
        ensures passes { OnOk result (Passes (Self.form self.now args.now)) }
        ensures reach { IfOk result (λ r. r.reach ≡ reach_of (record { selectors = selectors self.now; form = Self.form self.now; item = Self.item self.now; uses = uses self.now; grows = growth self.now }) args.now (map M.changed moved.now)) }
    {
        match self.shape_of(args) {
            Ok((shape, _)) => Ok(Reached {
                reach: self.reach_in(args, shape.as_slice(), moved),
                reads_few: !self.reads_many_items(),
            }),
            Err(kind) => Err(kind),
        }
    }

    /// Returns the places that may change in a result of this shape.
    fn reach_in<M: ChangedBox>(&self, args: &[Seen], shape: &[u32], moved: &[M]) -> Reach
        requires count { length args.now ≡ Self.arity self.now }
        requires moves { length moved.now ≡ length args.now }
        requires fit { AllFit args.now (map M.changed moved.now) }
        requires checked { HasShape (Self.form self.now args.now) shape.now }
        requires rank { length shape.now ≤ most_axes }
        ensures { result ≡ reach_of (record { selectors = selectors self.now; form = Self.form self.now; item = Self.item self.now; uses = uses self.now; grows = growth self.now }) args.now (map M.changed moved.now) }
    {
        let mut reached = None;
        for later in 0..moved.len() {
            let which = moved.len() - 1 - later;
            if let Some(region) = moved[which].changed_box() {
                if self.selects(which) {
                    return Reach::Anew;
                }
                let changed = bounded(shape, self.box_of(args, shape, which, region));
                reached = join_boxes(changed, reached);
            }
        }
        as_reach(reached)
    }

    /// Computes the whole result. Override with `self.apply(..)`: a trait method cannot call an inherent one.
    fn whole(&self, alloc: Global, args: &[Seen]) -> Result<Array, ApplyFault>
        requires { length args.now ≡ Self.arity self.now }
        ensures { IsAnswerTo (whole (Self.form self.now args.now) (Self.item self.now args.now)) result }
    {
        apply(alloc, self, args)
    }

    /// Returns the items of a box of the result in row-major order, in any shape, or the first error among them. Returns None if no way is
    /// faster than item by item.
    fn items_at_once(
        &self,
        _alloc: Global,
        _args: &[Seen],
        _shape: &[u32],
        _item_type: ItemType,
        _region: &IndexBox,
    ) -> Option<Result<Array, ApplyFault>>
        requires count { length _args.now ≡ Self.arity self.now }
        requires checked { Self.form self.now _args.now ≡ Ok (form_of _shape.now _item_type) }
        requires within { IsWithinLimits _shape.now }
        requires fit { IsTrue (fits _region.now _shape.now) }
        ensures { IfSome result (HoldsItems _item_type (items_in (Self.item self.now _args.now) _region.now)) }
    {
        None
    }

    ghost counted: { (rule : Self) → length (selectors rule) ≡ Self.arity rule };

    /// The boxes contain everything that changes.
    ghost tight: { (rule : Self) → IsTight (record { selectors = selectors rule; form = Self.form rule; item = Self.item rule; uses = uses rule; grows = growth rule }) };

    /// The result grows when `grows` holds.
    ghost growing: { (rule : Self) → IsGrowing (record { selectors = selectors rule; form = Self.form rule; item = Self.item rule; uses = uses rule; grows = growth rule }) (growth rule) };
}

impl<P: Announced> Rule for P {
    ghost model = { λ rule. record { selectors = P.selectors rule; form = P.form rule; item = P.item rule; uses = P.uses rule; grows = P.growth rule } };

    fn shape(&self, args: &[Seen]) -> Result<(Shape, ItemType), Kind> {
        self.shape_of(args)
    }

    fn item(&self, args: &[Seen], index: &[u32], meter: &mut Meter) -> Result<Item, Kind> {
        meter.tick();
        self.item_at(args, index)
    }

    fn all(&self, alloc: Global, args: &[Seen], meter: &mut Meter) -> Result<Array, ApplyFault> {
        let whole = self.whole(alloc, args);
        // Takes the count from the result: the checks of an index would read all its positions again.
        meter.add(match &whole {
            Ok(array) => size(array.shape().as_slice()),
            Err(_) => self.places(args),
        });
        whole
    }

    fn part(
        &self,
        alloc: Global,
        args: &[Seen],
        shape: &[u32],
        item_type: ItemType,
        region: &IndexBox,
        meter: &mut Meter,
    ) -> Result<Array, ApplyFault> {
        let Some(items) = self.items_at_once(alloc, args, shape, item_type, region) else {
            return self.item_by_item(alloc, args, shape, item_type, region, meter);
        };
        meter.add(match &items {
            Ok(_) => region.size() as u32,
            Err(_) => 0,
        });
        items
    }

    fn grows(&self, args: &[Seen], grown: &[bool]) -> bool {
        Announced::grows(self, args, grown)
    }

    fn reads_many_items(&self) -> bool {
        Announced::reads_many_items(self)
    }

    fn reached<M: ChangedBox>(&self, args: &[Seen], moved: &[M]) -> Result<Reached, Kind> {
        Announced::reached(self, args, moved)
    }

    ghost tight = { P.tight };

    ghost growing = { P.growing };
}
