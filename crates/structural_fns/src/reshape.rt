//! Reshape: the items of an array in another shape, repeated as needed.

ghost use Rattle.std.specs.Prelude.{◌≡◌, ◌≤◌, IsTrue, IfOk, length, get_or, ◌∷◌, [], ◌-◌};
ghost use Rattle.std.proofs.Common.{rules};
ghost use Rattle.arrays_core.specs.Items.{fill, type_of};
ghost use Rattle.arrays_core.specs.Arrays.{ArrayValue, IsAnswerTo};
ghost use Rattle.arrays_core.specs.Shapes.{IsWithinLimits, is_index_of, size};
ghost use Rattle.index_region.specs.ArgumentLists.{of_two_arguments};
ghost use Rattle.index_region.specs.Answers.{IsPlaceOf, IsSourceIn, source_value};
ghost use Rattle.change_core.specs.Places.{cover_in};
ghost use Rattle.change_core.proofs.Growing.{never_grows};
ghost use Rattle.structural_fns.specs.Reshape.{magnitudes, again_under, reshape_form, reshape_source, reshape_item, reshape_whole, reshape_rule};
ghost use Rattle.structural_fns.specs.Laws.Reshape.{reshape_tight};

use crate::magnitudes::magnitudes;
use crate::places::places_of;
use arrays_core::{
    ApplyFault, Array, ArrayBuilder, Item, ItemType, Kind, Shape, index_of_position, places_before,
    shape_of, size,
};
use change_core::Announced;
use index_region::{IndexBox, Intervals, Primitive, Seen, Source, item_from, limited};
use std::alloc::{AllocError, Global};

/// Returns the source of the item at an index list of a shape.
fn source_in(shape: &Shape, array: &Seen, index: &[u32]) -> Source
    requires within { IsWithinLimits shape.now.items }
    requires inside { IsTrue (is_index_of shape.now.items index.now) }
    ensures is { source_value result ≡ reshape_source shape.now.items array.now index.now }
    ensures inside { IsSourceIn array.now array.now result }
{
    let places = array.places();
    if places == 0 {
        return Source::Fill;
    }
    let before = places_before(shape, index);
    let at = index_of_position(array.shape(), before % places + 1);
    Source::Place { arg: 1, at }
}

/// Returns the item of an array with one place. Returns fill if there are no items.
fn only_item(array: &Seen) -> Item
    requires { length array.now.items ≤ 1 }
    ensures is { result ≡ get_or array.now.items 0 (fill array.now.item_type) }
    ensures typed { type_of result ≡ array.now.item_type }
{
    if array.places() == 0 {
        return array.item_type().fill();
    }
    array.item(1)
}

/// Repeats the items of an array over a shape with at least as many places. Uses fill if there are no items.
fn recycled(alloc: Global, array: &Seen, shape: &Shape) -> Result<Array, AllocError>
    requires within { IsWithinLimits shape.now.items }
    requires more { length array.now.items ≤ size shape.now.items }
    ensures { IfOk result (λ a. a ≡ again_under array.now shape.now.items) }
{
    let (places, round) = (size(shape.as_slice()), array.places());
    let mut items = ArrayBuilder::with_capacity(alloc, array.item_type(), places as usize)?;
    if round <= 1 {
        items.extend_with(only_item(array), places)?;
        return items.into_array(shape);
    }
    array.extend_run(&mut items, 0, round)?;
    items.repeat_to(places)?;
    items.into_array(shape)
}

/// Reshape, `A⍴B` (ISO/IEC 13751, "Reshape"): the items of B in row-major order, repeated as needed, in the shape A. Uses fill if B has no
/// items. RANK if A is neither a scalar nor a vector, DOMAIN unless it has numbers from 0 on, LIMIT beyond the limits of arrays.
#[derive(Clone, Copy, PartialEq, Eq, Debug)]
pub struct Reshape;

impl Reshape {
    /// Returns the source of the item at an index list of the result, after the checks have passed. Allocates nothing.
    pub fn source_of(&self, args: &[Seen], index: &[u32]) -> Source
        requires count { length args.now ≡ 2 }
        requires place { IsPlaceOf (of_two_arguments reshape_form args.now) index.now }
        ensures is { (a b : ArrayValue) → args.now ≡ a ∷ b ∷ [] → source_value result ≡ reshape_source (magnitudes a) b index.now }
        ensures inside { (a b : ArrayValue) → args.now ≡ a ∷ b ∷ [] → IsSourceIn a b result }
    {
        self.source(&args[0], &args[1], index)
    }

    /// Returns the source of the item at an index list of the result.
    fn source(self, counts: &Seen, array: &Seen, index: &[u32]) -> Source
        requires { IsPlaceOf (reshape_form counts.now array.now) index.now }
        ensures is { source_value result ≡ reshape_source (magnitudes counts.now) array.now index.now }
        ensures inside { IsSourceIn counts.now array.now result }
    {
        match magnitudes(counts) {
            Ok(shape) => source_in(&shape, array, index),
            Err(_) => Source::Fill,
        }
    }

    /// Computes the whole result. Copies one run if no item is repeated.
    pub fn apply(&self, alloc: Global, args: &[Seen]) -> Result<Array, ApplyFault>
        requires { length args.now ≡ 2 }
        ensures { IsAnswerTo (of_two_arguments reshape_whole args.now) result }
    {
        let (shape, _) = self.shape_of(args)?;
        let array = &args[1];
        if size(shape.as_slice()) <= array.places() {
            let begin = array.part(0, &shape)?;
            return Ok(begin);
        }
        let again = recycled(alloc, array, &shape)?;
        Ok(again)
    }
}

impl Primitive for Reshape {
    ghost arity = { λ _. 2 };

    ghost form = { λ _ args. of_two_arguments reshape_form args };

    ghost item = { λ _ args index. of_two_arguments (λ a b. reshape_item a b index) args };

    fn shape_of(&self, args: &[Seen]) -> Result<(Shape, ItemType), Kind> {
        let counts = &args[0];
        let array = &args[1];
        if counts.shape().len() > 1 {
            return Err(Kind::Rank);
        }
        if !counts.counts_as_numbers() {
            return Err(Kind::Domain);
        }
        if counts.has_negative() {
            return Err(Kind::Domain);
        }
        limited(magnitudes(counts)?, array.item_type())
    }

    fn item_at(&self, args: &[Seen], index: &[u32]) -> Result<Item, Kind> {
        let counts = &args[0];
        let array = &args[1];
        let source = self.source(counts, array, index);
        Ok(item_from(array, array, array.item_type(), source))
    }
}

/// Returns the intervals of the least box with the places `first` to `last` of a shape, counted from 1 in row-major order. Ignores places
/// beyond the end; returns None if all are. Allocates nothing.
fn covered(alloc: Global, shape: &[u32], first: u32, last: u32) -> Option<Intervals>
    requires within { IsWithinLimits shape.now }
    requires low { 1 ≤ first }
    requires order { first ≤ last }
    ensures { result ≡ cover_in shape.now (first - 1) (last - 1) }
{
    let places = size(shape);
    if places < first {
        return None;
    }
    let covering = IndexBox::cover(&shape_of(alloc, shape), first, last.min(places));
    Some(covering.intervals().copy())
}

impl Announced for Reshape {
    ghost selectors = { λ _. reshape_rule.selectors };

    ghost uses = { λ _. reshape_rule.uses };

    fn grows(&self, _args: &[Seen], _grown: &[bool]) -> bool {
        false
    }

    fn reads_many_items(&self) -> bool {
        false
    }

    fn selects(&self, which: usize) -> bool {
        which == 0
    }

    fn box_of(
        &self,
        args: &[Seen],
        shape: &[u32],
        which: usize,
        region: &IndexBox,
    ) -> Option<Intervals> {
        if which == 0 {
            return None;
        }
        let array = &args[1];
        if array.places() < size(shape) {
            return Some(Intervals::whole(shape));
        }
        let alloc = *array.shape().allocator();
        let (first, last) = places_of(array, region);
        covered(alloc, shape, first, last)
    }

    fn whole(&self, alloc: Global, args: &[Seen]) -> Result<Array, ApplyFault> {
        self.apply(alloc, args)
    }

    ghost counted = { λ _. Prim.search rules };

    ghost tight = { λ _. reshape_tight };

    ghost growing = { λ _. never_grows _ };
}
