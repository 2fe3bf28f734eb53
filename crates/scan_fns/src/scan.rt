//! Scan: the right folds of the first items of each line of an array.

ghost use Rattle.std.specs.Prelude.{◌≡◌, ◌<◌, ◌≤◌, ◌+◌, ◌-◌, ◌∷◌, [], length, map, get_or, IfOk, IfSome, false, set};
ghost use Rattle.std.proofs.Common.{rules};
ghost use Rattle.arrays_core.specs.declared.item.Item.TheVariants.{Num};
ghost use Rattle.arrays_core.specs.declared.item.ItemType.TheVariants.{Nums};
ghost use Rattle.arrays_core.specs.Arrays.{with_items, IsAnswerTo};
ghost use Rattle.arrays_core.specs.Limits.{longest_axis};
ghost use Rattle.arrays_core.specs.Shapes.{size, IsWithinLimits};
ghost use Rattle.index_region.specs.ArgumentLists.{of_one_argument};
ghost use Rattle.index_region.specs.Answers.{IsFormAnswerTo, IsPlaceOf, HasTypeOf};
ghost use Rattle.function_names.specs.Axes.{axis_at};
ghost use Rattle.index_region.specs.Axes.{places_along};
ghost use Rattle.change_core.specs.Sourced.{uses_of_one};
ghost use Rattle.item_fns.specs.Numbers.{dyadic_on_numbers};
ghost use Rattle.item_fns.specs.NumberLists.{number_items};
ghost use Rattle.scan_fns.specs.LinearScan.{scans_of};
ghost use Rattle.scan_fns.specs.LinearScan.{folds_from};
ghost use Rattle.scan_fns.specs.Scan.{scan_form, scan_item, scan_along, scan_whole, scan_use};
ghost use Rattle.scan_fns.specs.Laws.Scan.{scan_tight};
ghost use Rattle.scan_fns.specs.Laws.ScanGrowth.{scan_growing};
ghost use Rattle.reduce_fns.specs.Growth.{lines_grow};

use crate::box_lines::items_by_lines;
use crate::number_scan::{later_folds, number_folds};
use arrays_core::{ApplyFault, Array, Item, ItemType, Kind, Shape, shape_of, without_axis};
use change_core::Announced;
use index_region::{Along, IndexBox, Intervals, Primitive, Seen, apply, limited};
use item_fns::Scalar2;
use reduce_fns::{AxisLines, fold_line, is_along_a_later_axis, line_numbers};
use std::alloc::Global;

/// Scans each line by the scalar function, into an array.
fn scans(
    alloc: Global,
    function: Scalar2,
    lines: &AxisLines,
    shape: &Shape,
) -> Result<Array, ApplyFault>
    requires within { IsWithinLimits shape.now.items }
    requires long { size shape.now.items ≡ length lines.now.numbers.now }
    ensures { IsAnswerTo (with_items Nums shape.now.items (number_items (scans_of (dyadic_on_numbers function) lines.now))) result }
{
    let folds = number_folds(alloc, function, lines)?;
    Ok(Array::from_numbers(shape, folds)?)
}

/// Returns the folds of a list up to each place from `first` on, counted from 1, as a vector. None if an earlier place may fail.
fn later_vector(
    alloc: Global,
    function: Scalar2,
    numbers: &[i64],
    first: usize,
) -> Option<Result<Array, ApplyFault>>
    requires low { 1 ≤ first }
    requires high { first ≤ length numbers.now }
    requires few { length numbers.now ≤ longest_axis }
    ensures { IfSome result (IsAnswerTo (with_items Nums ((length numbers.now + 1 - first) ∷ []) (number_items (folds_from (dyadic_on_numbers function) numbers.now first)))) }
{
    let later = later_folds(alloc, function, numbers, first)?;
    match later {
        Ok(folds) => Some(Array::vector(alloc, folds)),
        Err(fault) => Some(Err(fault)),
    }
}

/// Scan, `f\B` and `f⍀B` (ISO/IEC 13751, "Scan"): folds each line along an axis up to each of its places. The fold goes from that item to the first,
/// `x1 f (x2 f (.. xk))`, and stops at the first error. A scalar yields itself. The result has B's shape and is of numbers; it is B itself if the
/// axis is shorter than 2. Fails with AXIS if the array has no such axis. Fails with DOMAIN if the axis has 2 or more places and B has items that are
/// characters. Fails with LIMIT beyond the limits of arrays.
///
/// By any function but `÷ * |` the time is proportional to the length of a line. By `|` it is too, up to a logarithm, if no number is below 0 or none
/// above. By `÷ *` and other `|`, a fold ends at a place that the same value reached before. That is usually proportional, at worst quadratic.
#[derive(Clone, Copy, PartialEq, Eq, Debug)]
pub struct Scan {
    /// The function that combines the items of a line.
    pub function: Scalar2,
    /// The axis along which the lines lie.
    pub along: Along,
}

impl Scan {
    /// Checks the argument; returns the shape and the item type of the result.
    fn form(self, array: &Seen) -> Result<(Shape, ItemType), Kind>
        ensures { IsFormAnswerTo (scan_form self.along array.now) result }
    {
        let axes = array.shape();
        let rank = axes.len() as u32;
        if !self.along.is_axis(rank) {
            return Err(Kind::Axis);
        }
        let shape = shape_of(*axes.allocator(), axes.as_slice());
        if rank == 0 || axes[self.along.axis_at(rank)] < 2 {
            return limited(shape, array.item_type());
        }
        if !array.counts_as_numbers() {
            return Err(Kind::Domain);
        }
        limited(shape, ItemType::Nums)
    }

    /// Returns the item at an index list of the result.
    fn scanned_at(self, array: &Seen, index: &[u32]) -> Result<Item, Kind>
        requires { IsPlaceOf (scan_form self.along array.now) index.now }
        ensures is { result ≡ scan_item self.function self.along array.now index.now }
        ensures typed { IfOk result (HasTypeOf (scan_form self.along array.now)) }
    {
        let axes = array.shape();
        if axes.is_empty() {
            return Ok(array.item(1));
        }
        let axis = self.along.axis_at(axes.len() as u32);
        let others = without_axis(*axes.allocator(), index, axis);
        fold_line(self.function, array, axis, others.as_slice(), index[axis])
    }

    /// Scans the lines. Reads numbers straight from the slice of the argument if it has one.
    pub fn apply(&self, alloc: Global, args: &[Seen]) -> Result<Array, ApplyFault>
        requires { length args.now ≡ 1 }
        ensures { IsAnswerTo (of_one_argument (scan_whole self.now.function self.now.along) args.now) result }
    {
        match args[0].numbers() {
            Some(numbers) if !numbers.is_empty() => self.of_numbers(alloc, &args[0], numbers),
            _ => apply(alloc, self, args),
        }
    }

    /// Returns the items of the result on one line, from the place at `index` up to `last`, counted from 1, as a vector. Reads the line once from its
    /// start, which is faster than item by item. None if the array is of characters, or if an earlier item of the line may be an error.
    pub fn along_line(
        &self,
        alloc: Global,
        array: &Seen,
        index: &[u32],
        last: u32,
    ) -> Option<Result<Array, ApplyFault>>
        requires place { IsPlaceOf (scan_form self.now.along array.now) index.now }
        requires there { axis_at (length array.now.shape) self.now.along < length array.now.shape }
        requires order { get_or index.now (axis_at (length array.now.shape) self.now.along) 1 ≤ last }
        requires high { last ≤ get_or array.now.shape (axis_at (length array.now.shape) self.now.along) 0 }
        ensures { IfSome result (IsAnswerTo (scan_along self.now.function self.now.along array.now index.now last)) }
    {
        if array.item_type() != ItemType::Nums {
            return None;
        }
        let axes = array.shape();
        let axis = self.along.axis_at(axes.len() as u32);
        let others = without_axis(*axes.allocator(), index, axis);
        match line_numbers(alloc, array, axis, others.as_slice(), last) {
            Ok(numbers) => later_vector(alloc, self.function, &numbers, index[axis] as usize),
            Err(_) => Some(Err(ApplyFault::NoMemory)),
        }
    }

    /// Scans the lines of a non-empty array of numbers.
    fn of_numbers(self, alloc: Global, array: &Seen, numbers: &[i64]) -> Result<Array, ApplyFault>
        requires numbers { array.now.items ≡ map (λ z. Num z) numbers.now }
        requires typed { array.now.item_type ≡ Nums }
        requires some { 0 < length numbers.now }
        ensures { IsAnswerTo (scan_whole self.function self.along array.now) result }
    {
        let (shape, _) = self.form(array)?;
        let axes = array.shape();
        if axes.is_empty() {
            return scans(alloc, self.function, &AxisLines::one(numbers), &shape);
        }
        let axis = self.along.axis_at(axes.len() as u32);
        let lines = AxisLines::along(array, axis, numbers);
        scans(alloc, self.function, &lines, &shape)
    }
}

impl Primitive for Scan {
    ghost arity = { λ _. 1 };

    ghost form = { λ s args. of_one_argument (scan_form s.along) args };

    ghost item = { λ s args index. of_one_argument (λ b. scan_item s.function s.along b index) args };

    fn shape_of(&self, args: &[Seen]) -> Result<(Shape, ItemType), Kind> {
        self.form(&args[0])
    }

    fn item_at(&self, args: &[Seen], index: &[u32]) -> Result<Item, Kind> {
        self.scanned_at(&args[0], index)
    }
}

/// Extends the interval of a box on an axis to the end of that axis. The box of a scalar has no intervals.
fn to_the_end(axes: &[u32], axis: usize, region: &IndexBox) -> Intervals
    requires { length region.now ≡ length axes.now }
    ensures { result ≡ set region.now axis ((get_or region.now axis (0, 0)).0, places_along axes.now axis) }
{
    let intervals = region.intervals().copy();
    if axis >= axes.len() {
        return intervals;
    }
    let (first, _) = region.as_slice()[axis];
    intervals.with(axis, first, axes[axis])
}

impl Announced for Scan {
    ghost selectors = { λ _. false ∷ [] };

    ghost uses = { λ r shape args. uses_of_one (scan_use r.along) shape args };

    ghost growth = { λ r. lines_grow r.along };

    fn grows(&self, args: &[Seen], grown: &[bool]) -> bool {
        grown[0] && is_along_a_later_axis(&args[0], self.along)
    }

    fn selects(&self, _which: usize) -> bool {
        false
    }

    fn box_of(
        &self,
        args: &[Seen],
        _shape: &[u32],
        _which: usize,
        region: &IndexBox,
    ) -> Option<Intervals> {
        let axes = args[0].shape().as_slice();
        let axis = self.along.axis_at(axes.len() as u32);
        Some(to_the_end(axes, axis, region))
    }

    fn whole(&self, alloc: Global, args: &[Seen]) -> Result<Array, ApplyFault> {
        self.apply(alloc, args)
    }

    fn items_at_once(
        &self,
        alloc: Global,
        args: &[Seen],
        _shape: &[u32],
        item_type: ItemType,
        region: &IndexBox,
    ) -> Option<Result<Array, ApplyFault>> {
        let array = &args[0];
        let rank = array.shape().len();
        let axis = self.along.axis_at(rank as u32);
        if item_type != ItemType::Nums || axis >= rank {
            return None;
        }
        let (first, last) = region.as_slice()[axis];
        if region.size() as u32 != last - first + 1 {
            return items_by_lines(self, alloc, array, axis, region);
        }
        let index = region.index_at(0);
        self.along_line(alloc, array, index.as_slice(), last)
    }

    ghost counted = { λ _. Prim.search rules };

    ghost tight = { λ s. scan_tight s.function s.along };

    ghost growing = { λ s. scan_growing s.function s.along };
}
