//! Ravel: the items as a vector.

ghost use Rattle.std.specs.Prelude.{◌≡◌, length, ◌∷◌, []};
ghost use Rattle.std.proofs.Common.{rules};
ghost use Rattle.arrays_core.specs.Arrays.{ArrayValue, IsAnswerTo};
ghost use Rattle.index_region.specs.ArgumentLists.{of_one_argument};
ghost use Rattle.index_region.specs.Answers.{IsPlaceOf, IsSourceIn, source_value};
ghost use Rattle.change_core.proofs.Growing.{never_grows};
ghost use Rattle.structural_fns.specs.Ravel.{ravel_form, ravel_source, ravel_item, ravel_whole, ravel_rule};
ghost use Rattle.structural_fns.specs.Laws.Ravel.{ravel_tight};

use crate::places::places_of;
use arrays_core::{ApplyFault, Array, Item, ItemType, Kind, Shape, index_of_position, shape_of};
use change_core::Announced;
use index_region::{IndexBox, Intervals, Primitive, Seen, Source, item_from, limited};
use std::alloc::Global;

/// Ravel, `,B` (ISO/IEC 13751, "Ravel"): the items in row-major order as a vector. A scalar becomes a
/// vector of one item.
#[derive(Clone, Copy, PartialEq, Eq, Debug)]
pub struct Ravel;

impl Ravel {
    /// Returns the source of the item at an index list of the result, after the checks have passed. The argument is the only source.
    /// Allocates nothing.
    pub fn source_of(&self, args: &[Seen], index: &[u32]) -> Source
        requires count { length args.now ≡ 1 }
        requires place { IsPlaceOf (of_one_argument ravel_form args.now) index.now }
        ensures is { (b : ArrayValue) → args.now ≡ b ∷ [] → source_value result ≡ ravel_source b index.now }
        ensures inside { (b : ArrayValue) → args.now ≡ b ∷ [] → IsSourceIn b b result }
    {
        self.source(&args[0], index)
    }

    /// Returns the source of the item at an index list of the result.
    fn source(self, array: &Seen, index: &[u32]) -> Source
        requires { IsPlaceOf (ravel_form array.now) index.now }
        ensures is { source_value result ≡ ravel_source array.now index.now }
        ensures inside { IsSourceIn array.now array.now result }
    {
        let at = index_of_position(array.shape(), index[0]);
        Source::Place { arg: 0, at }
    }

    /// Computes the whole result, in one run.
    pub fn apply(&self, alloc: Global, args: &[Seen]) -> Result<Array, ApplyFault>
        requires { length args.now ≡ 1 }
        ensures { IsAnswerTo (of_one_argument ravel_whole args.now) result }
    {
        let array = &args[0];
        let (shape, _) = limited(shape_of(alloc, &[array.places()]), array.item_type())?;
        let vector = array.part(0, &shape)?;
        Ok(vector)
    }
}

impl Primitive for Ravel {
    ghost arity = { λ _. 1 };

    ghost form = { λ _ args. of_one_argument ravel_form args };

    ghost item = { λ _ args index. of_one_argument (λ b. ravel_item b index) args };

    fn shape_of(&self, args: &[Seen]) -> Result<(Shape, ItemType), Kind> {
        let array = &args[0];
        let alloc = *array.shape().allocator();
        limited(shape_of(alloc, &[array.places()]), array.item_type())
    }

    fn item_at(&self, args: &[Seen], index: &[u32]) -> Result<Item, Kind> {
        let array = &args[0];
        let source = self.source(array, index);
        Ok(item_from(array, array, array.item_type(), source))
    }
}

impl Announced for Ravel {
    ghost selectors = { λ _. ravel_rule.selectors };

    ghost uses = { λ _. ravel_rule.uses };

    fn grows(&self, _args: &[Seen], _grown: &[bool]) -> bool {
        false
    }

    fn selects(&self, _which: usize) -> bool {
        false
    }

    fn box_of(
        &self,
        args: &[Seen],
        _shape: &[u32],
        _which: usize,
        region: &IndexBox,
    ) -> Option<Intervals> {
        let (first, last) = places_of(&args[0], region);
        Some(Intervals::one(first, last))
    }

    fn whole(&self, alloc: Global, args: &[Seen]) -> Result<Array, ApplyFault> {
        self.apply(alloc, args)
    }

    ghost counted = { λ _. Prim.search rules };

    ghost tight = { λ _. ravel_tight };

    ghost growing = { λ _. never_grows _ };
}
