//! The trees of all lines of an array along one axis, in a list of numbers and a list of nodes.

ghost use Rattle.std.specs.Prelude.{◌≡◌, ℕ, ◌+◌, ◌-◌, ◌*◌, ◌/◌, ◌%◌, ◌^◌, ◌<◌, ◌==◌, ◌++◌, ◌∷◌, [], length, vec_capacity, IfOk, IfSome};
ghost use Rattle.arrays_core.specs.Growth.{IsRoomy};
ghost use Rattle.fold_trees.specs.FoldTrees.{IsWithinDigitsOf, IsReductionBy};
ghost use Rattle.fold_trees.specs.ArrayLines.{FitBehind, FitNext, with_lines, with_places, line_count, numbers_of_line, numbers_through, with_number};
ghost use Rattle.fold_trees.specs.PartTrees.{AreLines, AreLineTrees, AreJoinedFor};
ghost use Rattle.fold_trees.specs.LineBlocks.{block_at, line_at, AreAllKept};
ghost use Rattle.fold_trees.specs.LineTrees.{slot_of, shorter, IsIn, node_of, ArePartsKept, nodes_in_line};

use crate::line::{Line, line_through};
use crate::line_block::fill_block;
use crate::line_tree::{LineTree, take_last, write};
use crate::neighbours::push_line;
use crate::part::Part;
use arrays_core::{Kind, copied, put_behind, repeated, room_between, room_of, roomy};
use std::alloc::{AllocError, Global};
use std::marker::Model;

/// The greatest number of parts joined for one replaced number: the base-2 logarithm of the greatest size of an array.
const MOST_PARTS: usize = 20;

/// Returns the places of a line, by its index from 0.
fn nth_line(count: usize, step: usize, line: usize) -> Line
    requires some { 0 < count }
    requires apart { 0 < step }
    requires fit { line / step * (count * step) + count * step < 2 ^ 64 }
    ensures { result ≡ line_at count step line }
{
    let block = line / step;
    let first = line % step;
    Line {
        count,
        step,
        slot: block * (count * step) + first,
        node: block * ((count - 1) * step) + first,
    }
}

/// Returns the tree of a line, by its index from 0.
fn nth_tree<'a, P: Part>(
    numbers: &'a [i64],
    nodes: &'a [P],
    count: usize,
    step: usize,
    line: usize,
) -> LineTree<'a, P>
    requires trees { AreLineTrees P.blank P.tells count step numbers.now nodes.now }
    requires line { line < length numbers.now / count }
    ensures line { result.line ≡ line_at count step line }
    ensures numbers { result.numbers.now ≡ numbers.now }
    ensures nodes { result.nodes.now ≡ nodes.now }
    ensures inside { IsIn result.line (length result.numbers.now) (length result.nodes.now) }
    ensures kept { ArePartsKept P.tells result.line.count (slot_of result.line result.numbers.now) (node_of P.blank result.line result.nodes.now) }
{
    let line = nth_line(count, step, line);
    LineTree {
        line,
        numbers,
        nodes,
    }
}

/// Returns the places of the first line of a block, by the index of the block from 0. A block has `step` lines.
fn nth_block(count: usize, step: usize, block: usize) -> Line
    requires some { 0 < count }
    requires fit { block * (count * step) + count * step < 2 ^ 64 }
    ensures { result ≡ block_at count step block }
{
    Line {
        count,
        step,
        slot: block * (count * step),
        node: block * ((count - 1) * step),
    }
}

/// Writes the nodes of all lines.
fn fill_all<P: Part>(numbers: &[i64], nodes: &mut [P], count: usize, step: usize)
    requires lines { AreLines count step (length numbers.now) }
    requires sized { length nodes.old ≡ length numbers.now / count * nodes_in_line count }
    ensures kept { AreAllKept P.blank P.tells count step numbers.now nodes.new }
    ensures length { length nodes.new ≡ length nodes.old }
{
    for block in 0..numbers.len() / count / step {
        fill_block(numbers, nodes, nth_block(count, step, block));
    }
}

/// Builds the nodes of contiguous lines. AllocError if an allocation fails.
fn nodes_of_lines<P: Part>(
    alloc: Global,
    numbers: &[i64],
    count: usize,
) -> Result<Vec<P>, AllocError>
    requires lines { AreLines count 1 (length numbers.now) }
    ensures kept { IfOk result (λ v. AreAllKept P.blank P.tells count 1 numbers.now v.items) }
    ensures sized { IfOk result (λ v. length v.items ≡ length numbers.now / count * nodes_in_line count) }
    ensures roomy { IfOk result (λ v. IsRoomy (length v.items) (vec_capacity v)) }
{
    let lines = numbers.len() / count;
    let mut nodes = Vec::with_capacity(alloc, room_of(lines * (count - 1)))?;
    for line in 0..lines {
        push_line(numbers, &mut nodes, nth_line(count, 1, line));
    }
    Ok(nodes)
}

/// Builds the nodes of interleaved lines. AllocError if an allocation fails.
fn nodes_of_blocks<P: Part>(
    alloc: Global,
    numbers: &[i64],
    count: usize,
    step: usize,
) -> Result<Vec<P>, AllocError>
    requires lines { AreLines count step (length numbers.now) }
    ensures kept { IfOk result (λ v. AreAllKept P.blank P.tells count step numbers.now v.items) }
    ensures sized { IfOk result (λ v. length v.items ≡ length numbers.now / count * nodes_in_line count) }
    ensures roomy { IfOk result (λ v. IsRoomy (length v.items) (vec_capacity v)) }
{
    let node_count = numbers.len() / count * (count - 1);
    let mut nodes = roomy(repeated(alloc, P::of(0), node_count)?)?;
    fill_all(numbers, &mut nodes, count, step);
    Ok(nodes)
}

/// Adds the last number of each interleaved line to its tree. `count` includes these numbers; the nodes are those of
/// the lines without them.
fn take_places<P: Part>(numbers: &[i64], nodes: &mut [P], count: usize, step: usize)
    requires more { 1 < count }
    requires apart { 0 < step }
    requires slot_count { length numbers.now ≡ count * step }
    requires node_count { length nodes.old ≡ nodes_in_line count * step }
    requires kept { (line : ℕ) → line < step → ArePartsKept P.tells (count - 1) (slot_of (shorter (line_at count step line)) numbers.now) (node_of P.blank (shorter (line_at count step line)) nodes.old) }
    ensures kept { (line : ℕ) → line < step → ArePartsKept P.tells count (slot_of (line_at count step line) numbers.now) (node_of P.blank (line_at count step line) nodes.new) }
    ensures node_length { length nodes.new ≡ length nodes.old }
{
    for line in 0..step {
        take_last(numbers, nodes, nth_line(count, step, line));
    }
}

/// All lines of an array along one axis, with a tree of parts for each. Replacing a number of a line of n numbers takes
/// at most ⌈log2 n⌉ joins. The numbers and the nodes are two lists; each has room for the next power of two of its
/// length.
#[derive(Drop)]
pub(crate) struct PartTrees<P: Part> {
    count: usize,
    step: usize,
    numbers: Vec<i64>,
    nodes: Vec<P>,
}

impl<P: Part> Model for PartTrees<P> {
    ghost use Rattle.std.specs.Prelude.{vec_capacity};
    ghost use Rattle.fold_trees.specs.ArrayLines.{TreesValue};
    ghost use Rattle.fold_trees.specs.PartTrees.{ArePartTrees};

    ghost Value = { TreesValue };

    ghost view = { λ t. record { count = t.count; step = t.step; numbers = t.numbers.items } };

    ghost invariant = { λ t. ArePartTrees P.blank P.tells t.count t.step t.numbers.items t.nodes.items (vec_capacity t.numbers) (vec_capacity t.nodes) };
}

impl<P: Part> PartTrees<P> {
    /// Builds the trees of lines of `count` numbers; neighbours on a line are `step` places apart. AllocError if an allocation fails.
    pub(crate) fn build(
        alloc: Global,
        numbers: &[i64],
        count: usize,
        step: usize,
    ) -> Result<PartTrees<P>, AllocError>
        requires some { 0 < count }
        requires apart { 0 < step }
        requires whole { length numbers.now % (count * step) ≡ 0 }
        ensures { IfOk result (λ t. t ≡ record { count = count; step = step; numbers = numbers.now }) }
    {
        let nodes = if step == 1 {
            nodes_of_lines(alloc, numbers, count)?
        } else {
            nodes_of_blocks(alloc, numbers, count, step)?
        };
        let numbers = roomy(copied(alloc, numbers)?)?;
        Ok(PartTrees {
            count,
            step,
            numbers,
            nodes,
        })
    }

    /// Returns the number of places of all lines.
    pub(crate) fn places(&self) -> usize
        ensures { result ≡ length self.now.numbers }
    {
        self.numbers.len()
    }

    /// Returns the number of lines.
    pub(crate) fn len(&self) -> usize
        ensures { result ≡ line_count self.now }
    {
        self.numbers.len() / self.count
    }

    /// Returns the fold of a line from the last number to the first, or its error. Lines are counted from 0.
    pub(crate) fn result(&self, line: usize) -> Result<i64, Kind>
        requires { line < line_count self.now }
        ensures { IsReductionBy P.function (numbers_of_line self.now line) result }
    {
        let tree = nth_tree(&self.numbers, &self.nodes, self.count, self.step, line);
        if self.count == 1 {
            return Ok(self.numbers[line]);
        }
        tree.whole().fold()
    }

    /// Returns the fold of a line with one more number at its end, from the last number to the first, or its error.
    /// Takes one join.
    pub(crate) fn result_behind(&self, line: usize, number: i64) -> Result<i64, Kind>
        requires { line < line_count self.now }
        ensures { IsReductionBy P.function (numbers_of_line self.now line ++ number ∷ []) result }
    {
        let tree = nth_tree(&self.numbers, &self.nodes, self.count, self.step, line);
        tree.whole().join(&P::of(number)).fold()
    }

    /// Returns the fold of the line of a place with another number there, or its error, and the number of joins. A line
    /// of n numbers takes at most ⌈log2 n⌉ joins. Places are counted from 0.
    pub(crate) fn result_with(&self, place: usize, number: i64) -> (Result<i64, Kind>, u32)
        requires { place < length self.now.numbers }
        ensures result { IsReductionBy P.function (numbers_through (with_number self.now place number) place) result.0 }
        ensures most { IsWithinDigitsOf (self.now.count - 1) result.1 }
        ensures least { 1 < self.now.count → 0 < result.1 }
    {
        if self.count == 1 {
            return (Ok(number), 0);
        }
        let line = line_through(self.count, self.step, place);
        let tree = nth_tree(&self.numbers, &self.nodes, self.count, self.step, line);
        let (all, joins) = tree.with(place / self.step % self.count, number);
        (all.fold(), joins)
    }

    /// Computes the same as `result_with`, and replaces the list with the joined parts. Allocates only beyond its
    /// capacity. AllocError if that fails.
    pub(crate) fn join(
        &self,
        place: usize,
        number: i64,
        parts: &mut Vec<P>,
    ) -> Result<(Result<i64, Kind>, u32), AllocError>
        requires { place < length self.now.numbers }
        ensures parts { IfOk result (λ r. AreJoinedFor P.tells self.now place number parts.new.items) }
        ensures result { IfOk result (λ r. IsReductionBy P.function (numbers_through (with_number self.now place number) place) r.0) }
        ensures most { IfOk result (λ r. IsWithinDigitsOf (self.now.count - 1) r.1) }
        ensures least { IfOk result (λ r. 1 < self.now.count → 0 < r.1) }
    {
        parts.clear();
        parts.reserve(MOST_PARTS)?;
        let line = line_through(self.count, self.step, place);
        let tree = nth_tree(&self.numbers, &self.nodes, self.count, self.step, line);
        let (all, joins) = tree.join_up(place / self.step % self.count, number, parts)?;
        if self.count == 1 {
            return Ok((Ok(number), joins));
        }
        Ok((all.fold(), joins))
    }

    /// Replaces the number at a place, counted from 0. Writes the parts that `join` joined for it, or else joins them
    /// here. Allocates nothing.
    pub(crate) fn set(&mut self, place: usize, number: i64, joined: Option<&[P]>)
        requires place { place < length self.old.numbers }
        requires joined { IfSome joined (λ parts. AreJoinedFor P.tells self.old place number parts.now) }
        ensures { self.new ≡ with_number self.old place number }
    {
        let line = line_through(self.count, self.step, place);
        let line = nth_line(self.count, self.step, line);
        let place = place / self.step % self.count;
        write(
            &mut self.numbers,
            &mut self.nodes,
            line,
            place,
            number,
            joined,
        );
    }

    /// Appends one number to each line. Allocates nothing.
    pub(crate) fn lengthen(&mut self, more: NextParts<P>)
        requires { FitNext self.old more }
        ensures { self.new ≡ with_places self.old more.numbers }
    {
        put_behind(&mut self.numbers, more.numbers, more.slots);
        put_behind(&mut self.nodes, more.more_nodes, more.nodes);
        self.count += 1;
        take_places(&self.numbers, &mut self.nodes, self.count, self.step);
    }

    /// Appends further lines. Allocates nothing.
    pub(crate) fn grow(&mut self, more: NewParts<P>)
        requires { FitBehind self.old more }
        ensures { self.new ≡ with_lines self.old more.numbers }
    {
        let trees = more.trees;
        put_behind(&mut self.numbers, trees.numbers, more.slots);
        put_behind(&mut self.nodes, trees.nodes, more.nodes);
    }
}

/// The trees of the lines that an array grows by, with the memory that all lines may need. `PartTrees::grow` then
/// allocates nothing.
#[derive(Drop)]
pub(crate) struct NewParts<P: Part> {
    trees: PartTrees<P>,
    old_lines: usize,
    slots: Vec<i64>,
    nodes: Vec<P>,
}

impl<P: Part> Model for NewParts<P> {
    ghost use Rattle.std.specs.Prelude.{vec_capacity};
    ghost use Rattle.fold_trees.specs.ArrayLines.{NewTreesValue};
    ghost use Rattle.fold_trees.specs.PartTrees.{AreRooms};

    ghost Value = { NewTreesValue };

    ghost view = { λ n. record { count = n.trees.count; step = n.trees.step; old_lines = n.old_lines; numbers = n.trees.numbers } };

    ghost invariant = { λ n. AreRooms n.old_lines n.trees n.slots.items n.nodes.items (vec_capacity n.slots) (vec_capacity n.nodes) };
}

impl<P: Part> NewParts<P> {
    /// Builds the trees of lines of `count` numbers, `step` places apart, to follow `old_lines` lines. AllocError if an
    /// allocation fails.
    pub(crate) fn build(
        alloc: Global,
        numbers: &[i64],
        count: usize,
        step: usize,
        old_lines: usize,
    ) -> Result<NewParts<P>, AllocError>
        requires some { 0 < count }
        requires apart { 0 < step }
        requires whole { length numbers.now % (count * step) ≡ 0 }
        requires few { old_lines * count + length numbers.now < 2 ^ 63 }
        ensures { IfOk result (λ t. t ≡ record { count = count; step = step; old_lines = old_lines; numbers = numbers.now }) }
    {
        let trees: PartTrees<P> = PartTrees::build(alloc, numbers, count, step)?;
        let lines = old_lines + numbers.len() / count;
        let slots = room_between(alloc, old_lines * count, lines * count)?;
        let most = count - 1;
        let nodes = room_between(alloc, old_lines * most, lines * most)?;
        Ok(NewParts {
            trees,
            old_lines,
            slots,
            nodes,
        })
    }
}

/// One more number for each of several interleaved lines, with the memory that the longer lines may need.
/// `PartTrees::lengthen` then allocates nothing.
#[derive(Drop)]
pub(crate) struct NextParts<P: Part> {
    count: usize,
    numbers: Vec<i64>,
    more_nodes: Vec<P>,
    slots: Vec<i64>,
    nodes: Vec<P>,
}

impl<P: Part> Model for NextParts<P> {
    ghost use Rattle.std.specs.Prelude.{vec_capacity};
    ghost use Rattle.fold_trees.specs.ArrayLines.{NewPlacesValue};
    ghost use Rattle.fold_trees.specs.PartTrees.{AreNextPartRooms};

    ghost Value = { NewPlacesValue };

    ghost view = { λ n. record { count = n.count; numbers = n.numbers.items } };

    ghost invariant = { λ n. AreNextPartRooms n.count n.numbers.items n.slots.items n.more_nodes.items n.nodes.items (vec_capacity n.slots) (vec_capacity n.nodes) };
}

impl<P: Part> NextParts<P> {
    /// Builds one more place of interleaved lines of `count` numbers, with one number for each line. AllocError if an
    /// allocation fails.
    pub(crate) fn build(
        alloc: Global,
        numbers: &[i64],
        count: usize,
    ) -> Result<NextParts<P>, AllocError>
        requires some { 0 < count }
        requires few { (count + 1) * length numbers.now < 2 ^ 63 }
        ensures { IfOk result (λ n. n ≡ record { count = count; numbers = numbers.now }) }
    {
        let step = numbers.len();
        let slots = room_between(alloc, count * step, count * step + step)?;
        let nodes = room_between(alloc, (count - 1) * step, count * step)?;
        let more_nodes = repeated(alloc, P::of(0), step)?;
        let numbers = copied(alloc, numbers)?;
        Ok(NextParts {
            count,
            numbers,
            more_nodes,
            slots,
            nodes,
        })
    }
}
