//! Dyadic transpose: moves each axis to the axis that is named for it.

ghost use Rattle.std.specs.Prelude.{◌≡◌, ◌≤◌, ◌<◌, ◌-◌, ◌++◌, [], get_or, List, ℕ, Option, Some, None, Ok, IfOk, IfErr, Err, if◌then◌else◌, ◌∷◌, length};
ghost use Rattle.std.proofs.Common.{rules};
ghost use Rattle.arrays_core.specs.Limits.{most_axes, most_places};
ghost use Rattle.arrays_core.specs.declared.item.ItemType.{ItemType as AType};
ghost use Rattle.arrays_core.specs.Arrays.{ArrayValue, IsAnswerTo, IsArray};
ghost use Rattle.arrays_core.specs.Shapes.{IsWithinLimits, size};
ghost use Rattle.index_region.specs.ArgumentLists.{of_two_arguments};
ghost use Rattle.index_region.specs.Arguments.{numbers};
ghost use Rattle.index_region.specs.Answers.{IsPlaceOf, IsSourceIn, source_value};
ghost use Rattle.index_region.specs.Checks.{form_of, limited};
ghost use Rattle.change_core.specs.Ways.{meet_at, meets};
ghost use Rattle.change_core.proofs.Growing.{never_grows};
ghost use Rattle.structural_fns.specs.DyadicTranspose.{axes_to, greatest_of, least_of, all_positive, occurs, are_axes, lengths_at, transposed_shape, gathered, stride_to, transpose_by_form, transpose_by_source, transpose_by_item, transpose_by_whole, axes_from_zero, transpose_by_rule};
ghost use Rattle.structural_fns.specs.LeastLength.{least_with};
ghost use Rattle.structural_fns.specs.Laws.DyadicTranspose.{transpose_by_tight};

use crate::even_steps::extend_evenly;
use crate::index_source::{IndexSource, place_of};
use crate::limits::MOST_AXES;
use arrays_core::{
    ApplyFault, Array, ArrayBuilder, Item, ItemFunction, ItemType, Kind, RowFunction, Shape,
    collect_rows, size,
};
use change_core::Announced;
use index_region::{IndexBox, Intervals, Primitive, Seen, Source, item_from, limited};
use smallvec::SmallVec;
use std::alloc::{AllocError, Global};

/// Tests whether no entry is below 1.
fn all_positive(axes: &Seen) -> bool
    ensures { result ≡ all_positive (numbers axes.now) }
{
    for place in 0..axes.places() {
        if axes.number(place + 1) < 1 {
            return false;
        }
    }
    true
}

/// Returns the magnitude of an entry.
fn entry(axes: &Seen, place: u32) -> u64
    requires there { place < length axes.now.items }
    requires within { length axes.now.items ≤ most_places }
    ensures is { result ≡ get_or (axes_to axes.now) place 0 }
    ensures there { place < length (axes_to axes.now) }
{
    axes.number(place + 1).unsigned_abs()
}

/// Returns the greatest entry.
fn greatest(axes: &Seen) -> u64
    ensures { result ≡ greatest_of (axes_to axes.now) }
{
    let mut greatest = 0;
    for place in 0..axes.places() {
        greatest = entry(axes, place).max(greatest);
    }
    greatest
}

/// Tests whether an entry names the axis.
fn occurs(axes: &Seen, axis: u64) -> bool
    ensures { result ≡ occurs (axes_to axes.now) axis }
{
    for place in 0..axes.places() {
        if entry(axes, place) == axis {
            return true;
        }
    }
    false
}

/// Tests whether no entry is below 1 and every axis up to the greatest entry is named. Stops at the first axis that is not named, so it
/// makes at most one step more than there are entries.
fn are_axes(axes: &Seen) -> bool
    ensures { result ≡ are_axes (numbers axes.now) }
{
    if !all_positive(axes) {
        return false;
    }
    for axis in 0..greatest(axes) {
        if !occurs(axes, axis + 1) {
            return false;
        }
    }
    true
}

/// Updates a minimum: returns the lesser of `least` and `length`, if this axis counts.
fn lesser(least: Option<u32>, goes: bool, length: u32) -> Option<u32>
    ensures { (rest : List ℕ) → least_with result rest ≡ least_with least (if goes then length ∷ rest else rest) }
{
    if !goes {
        return least;
    }
    match least {
        None => Some(length),
        Some(least) => Some(least.min(length)),
    }
}

/// Returns the least length of the axes that go to an axis.
fn least_length(axes: &Seen, lengths: &[u32], axis: u64) -> u32
    requires { length lengths.now ≡ length axes.now.items }
    ensures { result ≡ least_of (lengths_at (axes_to axes.now) lengths.now axis) }
{
    let mut least = None;
    for place in 0..axes.places() {
        let goes = entry(axes, place) == axis;
        least = lesser(least, goes, lengths[place as usize]);
    }
    least.unwrap_or(0)
}

/// Returns the shape of the result. Fails with LIMIT if it has too many axes.
fn transposed_shape(axes: &Seen, lengths: &[u32]) -> Result<Shape, Kind>
    requires { length lengths.now ≡ length axes.now.items }
    ensures is { IfOk result (λ shape. shape.items ≡ transposed_shape (axes_to axes.now) lengths.now) }
    ensures inline { IfOk result (λ shape. shape.capacity ≡ 4) }
    ensures beyond { IfErr result (λ kind. (t : AType) → limited (transposed_shape (axes_to axes.now) lengths.now) t ≡ Err kind) }
{
    let rank = greatest(axes);
    if rank > u64::from(MOST_AXES) {
        return Err(Kind::Limit);
    }
    let mut shape = SmallVec::new(*axes.shape().allocator());
    for axis in 0..rank {
        shape.push_reserved(least_length(axes, lengths, axis + 1));
    }
    Ok(shape)
}

/// Gathers the index of each axis from the axis it goes to.
fn gathered(alloc: Global, axes: &Seen, index: &[u32]) -> Shape
    requires { length axes.now.items ≤ most_axes }
    ensures is { result.items ≡ gathered (axes_to axes.now) index.now }
    ensures inline { result.capacity ≡ 4 }
{
    let mut at = SmallVec::new(alloc);
    for place in 0..axes.places() {
        let axis = entry(axes, place).saturating_sub(1);
        at.push_reserved(index.get(axis as usize).copied().unwrap_or(0));
    }
    at
}

/// Returns the distance in an array of items with adjacent indices on an axis of the result, counted from 0.
fn stride_to(axes: &Seen, lengths: &[u32], axis: u64) -> u32
    requires as_many { length lengths.now ≡ length axes.now.items }
    requires within { IsWithinLimits lengths.now }
    ensures { 0 < size lengths.now → result ≡ stride_to lengths.now (axes_to axes.now) axis }
{
    let mut places = size(lengths);
    let mut stride = 0;
    for k in 0..lengths.len() {
        places = places / lengths[k].max(1);
        if entry(axes, k as u32).saturating_sub(1) == axis {
            stride = stride + places;
        }
    }
    stride
}

/// The index list in the array of the first place of a row of the result.
#[derive(Clone, Copy)]
struct GatheredRow<'a, 'b> {
    axes: &'a Seen<'b>,
    row: &'a [u32],
}

impl<'a, 'b> IndexSource for GatheredRow<'a, 'b> {
    ghost list = { λ s. gathered (axes_to s.axes.now) (s.row.now ++ 1 ∷ []) };

    #[inline]
    fn index(&self, axis: usize) -> u32 {
        let _sound = self.axes.shape();
        let to = entry(self.axes, axis as u32).saturating_sub(1);
        if to == self.row.len() as u64 {
            return 1;
        }
        self.row.get(to as usize).copied().unwrap_or(0)
    }
}

/// Dyadic transpose, `A⍉B` (ISO/IEC 13751, "Dyadic transpose"): axis i of B becomes axis A[i]. If several become one axis, it has their
/// least length and all take its index. RANK if A is neither a scalar nor a vector, LENGTH unless it has an entry for each axis. DOMAIN
/// unless it has numbers from 1 on, and names each axis up to the greatest.
#[derive(Clone, Copy, PartialEq, Eq, Debug)]
pub struct DyadicTranspose;

impl DyadicTranspose {
    /// Returns the source of the item at an index list of the result, after the checks have passed. Allocates nothing.
    pub fn source_of(&self, args: &[Seen], index: &[u32]) -> Source
        requires count { length args.now ≡ 2 }
        requires place { IsPlaceOf (of_two_arguments transpose_by_form args.now) index.now }
        ensures is { (a b : ArrayValue) → args.now ≡ a ∷ b ∷ [] → source_value result ≡ transpose_by_source a b index.now }
        ensures inside { (a b : ArrayValue) → args.now ≡ a ∷ b ∷ [] → IsSourceIn a b result }
    {
        self.source(&args[0], &args[1], index)
    }

    /// Returns the source of the item at an index list of the result.
    fn source(self, axes: &Seen, array: &Seen, index: &[u32]) -> Source
        requires { IsPlaceOf (transpose_by_form axes.now array.now) index.now }
        ensures is { source_value result ≡ transpose_by_source axes.now array.now index.now }
        ensures inside { IsSourceIn axes.now array.now result }
    {
        let at = gathered(*array.shape().allocator(), axes, index);
        Source::Place { arg: 1, at }
    }

    /// Computes the whole result by rows.
    pub fn apply(&self, alloc: Global, args: &[Seen]) -> Result<Array, ApplyFault>
        requires { length args.now ≡ 2 }
        ensures { IsAnswerTo (of_two_arguments transpose_by_whole args.now) result }
    {
        let (axes, array) = (&args[0], &args[1]);
        let (shape, item_type) = self.shape_of(args)?;
        let lengths = array.shape().as_slice();
        let last = (shape.len() as u64).saturating_sub(1);
        let gathered = GatheredArray {
            axes,
            array,
            lengths,
            step: stride_to(axes, lengths, last),
        };
        collect_rows(alloc, &gathered, item_type, &shape)
    }
}

impl Primitive for DyadicTranspose {
    ghost arity = { λ _. 2 };

    ghost form = { λ _ args. of_two_arguments transpose_by_form args };

    ghost item = { λ _ args index. of_two_arguments (λ a b. transpose_by_item a b index) args };

    fn shape_of(&self, args: &[Seen]) -> Result<(Shape, ItemType), Kind> {
        let axes = &args[0];
        let array = &args[1];
        if axes.shape().len() > 1 {
            return Err(Kind::Rank);
        }
        let lengths = array.shape().as_slice();
        if axes.places() as usize != lengths.len() {
            return Err(Kind::Length);
        }
        if !axes.counts_as_numbers() {
            return Err(Kind::Domain);
        }
        if !are_axes(axes) {
            return Err(Kind::Domain);
        }
        limited(transposed_shape(axes, lengths)?, array.item_type())
    }

    fn item_at(&self, args: &[Seen], index: &[u32]) -> Result<Item, Kind> {
        let axes = &args[0];
        let array = &args[1];
        let source = self.source(axes, array, index);
        Ok(item_from(array, array, array.item_type(), source))
    }
}

/// The dyadic transpose of an array, by axes that have passed the checks.
#[derive(Drop)]
struct GatheredArray<'a, 'b> {
    axes: &'a Seen<'b>,
    array: &'a Seen<'b>,
    lengths: &'a [u32],
    /// The distance in the array of the items of a row.
    step: u32,
    ghost sound: { IsArray array.now },
    ghost lengths_are: { lengths.now ≡ array.now.shape },
    ghost step_is: { 0 < size array.now.shape → step ≡ stride_to array.now.shape (axes_to axes.now) (length (transposed_shape (axes_to axes.now) array.now.shape) - 1) },
    ghost passed: { transpose_by_form axes.now array.now ≡ Ok (form_of (transposed_shape (axes_to axes.now) array.now.shape) array.now.item_type) },
}

impl<'a, 'b> ItemFunction for GatheredArray<'a, 'b> {
    ghost result_shape = { λ r. transposed_shape (axes_to r.axes.now) r.array.now.shape };

    ghost result_type = { λ r. r.array.now.item_type };

    ghost item = { λ r. transpose_by_item r.axes.now r.array.now };

    fn item_at(&self, index: &[u32]) -> Result<Item, Kind> {
        let array = self.array;
        let source = DyadicTranspose.source(self.axes, array, index);
        Ok(item_from(array, array, array.item_type(), source))
    }
}

impl<'a, 'b> RowFunction for GatheredArray<'a, 'b> {
    #[inline]
    fn extend_row(
        &self,
        row: &[u32],
        count: u32,
        items: &mut ArrayBuilder,
    ) -> Result<(), AllocError> {
        let axes = self.axes;
        let first = place_of(self.lengths, &GatheredRow { axes, row });
        extend_evenly(self.array, first, self.step, count, items)
    }
}

/// Returns the axis that an axis goes to, counted from 0.
fn axis_to(axes: &Seen, axis: usize) -> u64
    requires few { axis < most_axes }
    requires there { axis < length axes.now.items }
    ensures { result ≡ get_or (axes_from_zero axes.now) axis 0 }
{
    axes.number(axis as u32 + 1)
        .unsigned_abs()
        .saturating_sub(1)
}

/// Returns the part of an axis of the result that lies in every interval which goes to it.
fn meet_at(axes: &Seen, intervals: &[(u32, u32)], axis: usize, places: u32) -> (u32, u32)
    requires few { length intervals.now ≤ most_axes }
    requires as_many { length intervals.now ≡ length axes.now.items }
    ensures { result ≡ meet_at axis places (axes_from_zero axes.now) intervals.now }
{
    let mut first = 1;
    let mut last = places;
    for from in (0..intervals.len()).rev() {
        if axis_to(axes, from) == axis as u64 {
            first = intervals[from].0.max(first);
            last = intervals[from].1.min(last);
        }
    }
    (first, last)
}

/// Returns that part for each axis of a shape.
fn meets(axes: &Seen, intervals: &[(u32, u32)], shape: &[u32]) -> Intervals
    requires few { length intervals.now ≤ most_axes }
    requires as_many { length intervals.now ≡ length axes.now.items }
    requires rank { length shape.now ≤ most_axes }
    ensures { result ≡ meets (axes_from_zero axes.now) intervals.now 0 shape.now }
{
    let mut met = Intervals::none();
    for (axis, places) in shape.iter().enumerate() {
        let (first, last) = meet_at(axes, intervals, axis, *places);
        met.push(first, last);
    }
    met
}

impl Announced for DyadicTranspose {
    ghost selectors = { λ _. transpose_by_rule.selectors };

    ghost uses = { λ _. transpose_by_rule.uses };

    fn grows(&self, _args: &[Seen], _grown: &[bool]) -> bool {
        false
    }

    fn selects(&self, which: usize) -> bool {
        which == 0
    }

    fn box_of(
        &self,
        args: &[Seen],
        shape: &[u32],
        which: usize,
        region: &IndexBox,
    ) -> Option<Intervals> {
        if which == 0 {
            return None;
        }
        let (axes, array) = (&args[0], &args[1]);
        let _sound = array.shape();
        Some(meets(axes, region.as_slice(), shape))
    }

    fn whole(&self, alloc: Global, args: &[Seen]) -> Result<Array, ApplyFault> {
        self.apply(alloc, args)
    }

    ghost counted = { λ _. Prim.search rules };

    ghost tight = { λ _. transpose_by_tight };

    ghost growing = { λ _. never_grows _ };
}
