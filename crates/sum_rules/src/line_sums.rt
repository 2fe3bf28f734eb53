//! Folds of the lines of an array, kept as trees.

ghost use Rattle.std.specs.Prelude.{◌≡◌, ◌+◌, ◌*◌, ◌<◌, length, map, set, true, IfOk};
ghost use Rattle.arrays_core.specs.declared.item.Item.TheVariants.{Num};
ghost use Rattle.arrays_core.specs.declared.item.ItemType.TheVariants.{Nums};
ghost use Rattle.arrays_core.specs.Arrays.{IsArray};
ghost use Rattle.arrays_core.specs.Items.{type_of};
ghost use Rattle.arrays_core.specs.Shapes.{size, IsWithinLimits};
ghost use Rattle.function_names.specs.Axes.{is_axis, axis_at};
ghost use Rattle.index_region.specs.Patches.{FitsPatch, patched};
ghost use Rattle.sum_rules.specs.LineSums.{length_along, line_length, line_step, keeps_sums, summed, array_of_shape, patched_sums, grown_sums, StandFor};
ghost use Rattle.sum_rules.specs.JoinedPatches.{IsJoinedIn, IsJoinedWith};
ghost use Rattle.sum_rules.specs.NewLines.{FitsSums, FitsTrees, trees_grown};

use crate::joined_patch::JoinedPatch;
use crate::line_totals::JoinedTrees;
use crate::new_lines::{Growth, NewLines};
use arrays_core::{Array, Item, ItemType, Shape, places_before, shape_of, size};
use fold_trees::{FoldTrees, Joined, has_trees};
use index_region::{Along, Patch, Seen};
use reduce_fns::Reduce;
use std::alloc::{AllocError, Global};
use std::cell::Cell;
use std::marker::Model;

/// The longest line without a tree.
const MOST_WITHOUT_TREE: u32 = 3;

/// Returns the length of the lines along an axis, or 0 if there is no such axis. Axes count from 0.
pub(crate) fn line_length(axis: usize, shape: &[u32]) -> u32
    ensures { result ≡ line_length axis shape.now }
{
    match shape.get(axis) {
        Some(count) => *count,
        None => 0,
    }
}

/// Returns the distance between neighbours on a line.
pub(crate) fn line_step(axis: usize, shape: &[u32]) -> u32
    requires within { IsWithinLimits shape.now }
    requires some { 0 < size shape.now }
    requires there { axis < length shape.now }
    ensures { result ≡ line_step axis shape.now }
{
    size(&shape[axis + 1..])
}

/// Returns the length of the lines along the axis of the formula, or 0 if there is no such axis.
pub(crate) fn length_along(along: Along, shape: &[u32]) -> u32
    requires { IsWithinLimits shape.now }
    ensures { result ≡ length_along along shape.now }
{
    let rank = shape.len() as u32;
    if !along.is_axis(rank) {
        return 0;
    }
    line_length(along.axis_at(rank), shape)
}

/// Tells if a fold of an array keeps trees. The function must be one of `+ × ⌈ ⌊ ∧ ∨`, the array non-empty and of numbers, and the lines longer than
/// three. Shorter lines fold as fast without a tree.
pub fn keeps_sums(fold: Reduce, array: &Seen) -> bool
    ensures { result ≡ keeps_sums fold array.now }
{
    has_trees(fold.function)
        && array.item_type() == ItemType::Nums
        && array.places() > 0
        && length_along(fold.along, array.shape().as_slice()) > MOST_WITHOUT_TREE
}

/// Builds the trees of the lines of an array for which `keeps_sums` holds.
fn sums_of(alloc: Global, fold: Reduce, array: &Array) -> Result<Option<LineSums>, AllocError>
    requires { keeps_sums fold array.now ≡ true }
    ensures { IfOk result (λ s. s ≡ summed fold array.now) }
{
    let shape = array.shape();
    let axes = shape.as_slice();
    let axis = fold.along.axis_at(axes.len() as u32);
    let count = line_length(axis, axes) as usize;
    let step = line_step(axis, axes) as usize;
    match array.numbers() {
        Some(numbers) => {
            let trees = FoldTrees::build(alloc, fold.function, numbers, count, step)?;
            let shape = shape_of(alloc, axes);
            let lines = Lines {
                axis,
                shape,
                trees,
                room: Cell::new(None),
            };
            let lines = Box::new(alloc, lines)?;
            Ok(Some(LineSums { lines }))
        }
        None => unreachable!(),
    }
}

/// Sets the number at a place of the lines; places count from 0.
fn set_item(trees: &mut FoldTrees, place: usize, item: Item)
    requires place { place < length trees.old.lines.numbers }
    requires number { type_of item ≡ Nums }
    ensures items { map (λ z. Num z) trees.new.lines.numbers ≡ set (map (λ z. Num z) trees.old.lines.numbers) place item }
    ensures function { trees.new.function ≡ trees.old.function }
    ensures count { trees.new.lines.count ≡ trees.old.lines.count }
    ensures step { trees.new.lines.step ≡ trees.old.lines.step }
{
    if let Item::Num(number) = item {
        trees.set(place, number);
    }
}

/// Writes the items of a patch into the lines of an array of this shape.
fn write_into(shape: &Shape, trees: &mut FoldTrees, patch: &Patch)
    requires lines { IsArray (array_of_shape shape.now.items trees.old.lines.numbers) }
    requires fit { FitsPatch (array_of_shape shape.now.items trees.old.lines.numbers) patch.now }
    ensures numbers { array_of_shape shape.now.items trees.new.lines.numbers ≡ patched (array_of_shape shape.now.items trees.old.lines.numbers) patch.now }
    ensures sound { IsArray (array_of_shape shape.now.items trees.new.lines.numbers) }
    ensures function { trees.new.function ≡ trees.old.function }
    ensures count { trees.new.lines.count ≡ trees.old.lines.count }
    ensures step { trees.new.lines.step ≡ trees.old.lines.step }
{
    // Reading the item type brings in the fact that the patch has one item for each place.
    let _one_item_a_place = patch.item_type();
    let region = patch.region();
    let mut index = region.index_at(0);
    for before in 0..region.size() {
        let place = places_before(shape, index.as_slice());
        set_item(trees, place as usize, patch.item(index.as_slice()));
        region.advance(&mut index);
    }
}

/// Joins the new fold of the line of a patch with one place. Returns false without a join if the patch has more places, lies outside the array or
/// holds no number. Fails with AllocError if memory for the parts is short.
fn join_one(
    shape: &Shape,
    trees: &FoldTrees,
    patch: &Patch,
    joined: &mut Joined,
) -> Result<bool, AllocError>
    requires { IsArray (array_of_shape shape.now.items trees.now.lines.numbers) }
    ensures { IfOk result (λ done. done ≡ true → IsJoinedIn shape.now.items trees.now patch.now joined.new) }
{
    let region = patch.region();
    if !region.lies_in(shape.as_slice()) {
        return Ok(false);
    }
    if region.size() != 1 {
        return Ok(false);
    }
    let index = region.index_at(0);
    let Item::Num(number) = patch.item(index.as_slice()) else {
        return Ok(false);
    };
    let place = places_before(shape, index.as_slice()) as usize;
    trees.join(place, number, joined)?;
    Ok(true)
}

/// Writes the items of a patch into the lines, and reuses the parts joined for it.
fn write_joined(shape: &Shape, trees: &mut FoldTrees, patch: &JoinedPatch)
    requires lines { IsArray (array_of_shape shape.now.items trees.old.lines.numbers) }
    requires fit { FitsPatch (array_of_shape shape.now.items trees.old.lines.numbers) patch.now.patch }
    requires joined { patch.now.is_joined ≡ true → IsJoinedIn shape.now.items trees.old patch.now.patch patch.now.joined }
    ensures numbers { array_of_shape shape.now.items trees.new.lines.numbers ≡ patched (array_of_shape shape.now.items trees.old.lines.numbers) patch.now.patch }
    ensures sound { IsArray (array_of_shape shape.now.items trees.new.lines.numbers) }
    ensures function { trees.new.function ≡ trees.old.function }
    ensures count { trees.new.lines.count ≡ trees.old.lines.count }
    ensures step { trees.new.lines.step ≡ trees.old.lines.step }
{
    if !patch.is_joined {
        write_into(shape, trees, &patch.patch);
        return;
    }
    let _one_item = patch.patch.item_type();
    trees.set_joined(&patch.joined);
}

/// Appends new lines, or one more place of each line, to the trees. Does not allocate.
fn take_growth(trees: &mut FoldTrees, growth: Growth)
    requires { FitsTrees trees.old growth }
    ensures { trees.new ≡ trees_grown trees.old growth }
{
    match growth {
        Growth::Lines(more) => trees.grow(more),
        Growth::Places(more) => trees.lengthen(more),
    }
}

/// The trees of the lines of an array along an axis.
#[derive(Drop)]
struct Lines {
    axis: usize,
    shape: Shape,
    trees: FoldTrees,
    /// The box of the last patch, reused for the next one.
    room: Cell<Option<Box<JoinedPatch>>>,
}

/// The folds of the lines of an array of numbers, as trees. They are boxed, since most nodes of formulas have none.
#[derive(Drop)]
pub struct LineSums {
    lines: Box<Lines>,
}

impl Model for LineSums {
    ghost use Rattle.sum_rules.specs.LineSums.{SummedValue, array_of_shape, StandFor};

    ghost Value = { SummedValue };

    ghost view = { λ s. record { function = s.lines.value.trees.function; axis = s.lines.value.axis; array = array_of_shape s.lines.value.shape.items s.lines.value.trees.lines.numbers } };

    ghost invariant = { λ s. StandFor s.lines.value.trees.lines s.lines.value.axis (array_of_shape s.lines.value.shape.items s.lines.value.trees.lines.numbers) };
}

impl LineSums {
    /// Builds the trees of the lines, or returns None unless `keeps_sums` holds. Copies an array that carries a patch. AllocError if memory is short.
    pub fn of(alloc: Global, fold: Reduce, array: &Seen) -> Result<Option<LineSums>, AllocError>
        ensures { IfOk result (λ s. s ≡ summed fold array.now) }
    {
        if !keeps_sums(fold, array) {
            return Ok(None);
        }
        match array.array() {
            Some(array) => sums_of(alloc, fold, array),
            None => sums_of(alloc, fold, &array.copy()?),
        }
    }

    /// Borrows the trees of the lines.
    pub fn trees(&self) -> &FoldTrees
        ensures function { result.now.function ≡ self.now.function }
        ensures lines { StandFor result.now.lines self.now.axis self.now.array }
    {
        &self.lines.trees
    }

    /// Borrows the trees of the lines, with the parts joined for a patch.
    pub fn trees_with<'a>(&'a self, patch: &'a JoinedPatch) -> JoinedTrees<'a>
        requires { IsJoinedWith self.now patch.now }
        ensures function { result.function ≡ self.now.function }
        ensures lines { StandFor result.lines self.now.axis self.now.array }
    {
        let trees = &self.lines.trees;
        if patch.is_joined {
            JoinedTrees::of(trees, &patch.joined)
        } else {
            JoinedTrees::alone(trees)
        }
    }

    /// Joins the parts for a patch, in the memory of the last patch. Allocates only for the first patch and for longer lines. Fails with AllocError
    /// if memory is short.
    pub fn joined(&self, alloc: Global, patch: Patch) -> Result<Box<JoinedPatch>, AllocError>
        ensures patch { IfOk result (λ b. b.value.patch ≡ patch) }
        ensures joined { IfOk result (λ b. IsJoinedWith self.now b.value) }
    {
        let mut boxed = self.boxed(alloc, patch)?;
        let made = &mut *boxed;
        made.is_joined = join_one(
            &self.lines.shape,
            &self.lines.trees,
            &made.patch,
            &mut made.joined,
        )?;
        Ok(boxed)
    }

    /// Puts a patch in the kept box, or in a new one.
    fn boxed(&self, alloc: Global, patch: Patch) -> Result<Box<JoinedPatch>, AllocError>
        ensures { IfOk result (λ b. b.value.patch ≡ patch) }
    {
        match self.lines.room.take() {
            Some(mut room) => {
                room.patch = patch;
                Ok(room)
            }
            None => {
                let joined = Joined::new(alloc);
                let patch = JoinedPatch {
                    patch,
                    is_joined: false,
                    joined,
                };
                Ok(Box::new(alloc, patch)?)
            }
        }
    }

    /// Writes a patch into the lines, reuses its joined parts, and keeps its box for the next patch. Does not allocate.
    pub fn take(&mut self, patch: Box<JoinedPatch>)
        requires fit { FitsPatch self.old.array patch.value.patch }
        requires joined { IsJoinedWith self.old patch.value }
        ensures { self.new ≡ patched_sums self.old patch.value.patch }
    {
        let kept = &mut *self.lines;
        write_joined(&kept.shape, &mut kept.trees, &patch);
        kept.room.set(Some(patch));
    }

    /// Writes the items of a patch into the lines. Does not allocate.
    pub fn write(&mut self, patch: &Patch)
        requires { FitsPatch self.old.array patch.now }
        ensures { self.new ≡ patched_sums self.old patch.now }
    {
        let kept = &mut *self.lines;
        write_into(&kept.shape, &mut kept.trees, patch);
    }

    /// Appends new lines, or one more number to each line. Does not allocate.
    pub fn grow(&mut self, lines: NewLines)
        requires { FitsSums self.old lines }
        ensures { self.new ≡ grown_sums self.old lines.tail.items }
    {
        let kept = &mut *self.lines;
        take_growth(&mut kept.trees, lines.growth);
        kept.shape = lines.shape;
    }
}
