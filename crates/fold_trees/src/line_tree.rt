//! The tree of one line, in the lists that hold the numbers and nodes of all lines.

ghost use Rattle.std.specs.Prelude.{◌≡◌, ◌≢◌, pos, get_or, ℕ, ◌+◌, ◌-◌, ◌*◌, ◌/◌, ◌%◌, ◌^◌, ◌<◌, ◌≤◌, min, ℤ, List, [], length, IfOk, IfSome};
ghost use Rattle.fold_trees.specs.FoldTrees.{IsWithinDigitsOf};
ghost use Rattle.fold_trees.specs.LineTrees.{slot_at, nth_node, slot_of, IsPart, AreSameIn, other_half, replaced, shorter, segment, numbers_of_block, HasNodes, IsIn, node_of, ArePartsKept, ArePartsKeptIn, ArePartsKeptBeside, AreJoined};

use crate::line::Line;
use crate::part::Part;
use std::alloc::AllocError;

/// A line and the lists that hold its numbers and nodes.
#[derive(Clone, Copy)]
pub(crate) struct LineTree<'a, P> {
    pub(crate) line: Line,
    pub(crate) numbers: &'a [i64],
    pub(crate) nodes: &'a [P],
}

impl<'a, P: Part> LineTree<'a, P> {
    /// Returns the part that begins at a place and has this width, or ends with the line.
    pub(crate) fn part(&self, from: usize, width: usize) -> P
        requires inside { IsIn self.now.line (length self.now.numbers.now) (length self.now.nodes.now) }
        requires from { from < self.now.line.count }
        requires part { IsPart from width }
        requires kept { ArePartsKeptIn P.tells from width self.now.line.count (slot_of self.now.line self.now.numbers.now) (node_of P.blank self.now.line self.now.nodes.now) }
        ensures { P.tells result (segment (slot_of self.now.line self.now.numbers.now) from (min width (self.now.line.count - from))) }
    {
        let long = width.min(self.line.count - from);
        if long == 1 {
            return P::of(self.numbers[self.line.slot_at(from)]);
        }
        let half = long.next_power_of_two() / 2;
        self.nodes[self.line.nth_node(from + half)]
    }

    /// Returns the part of the whole line.
    pub(crate) fn whole(&self) -> P
        requires inside { IsIn self.now.line (length self.now.numbers.now) (length self.now.nodes.now) }
        requires some { 0 < self.now.line.count }
        requires kept { ArePartsKept P.tells self.now.line.count (slot_of self.now.line self.now.numbers.now) (node_of P.blank self.now.line self.now.nodes.now) }
        ensures { P.tells result (segment (slot_of self.now.line self.now.numbers.now) 0 self.now.line.count) }
    {
        self.part(0, self.line.count.next_power_of_two())
    }

    /// Returns the part twice as wide as a block, from the part of the block, and the number of joins. That is 0 if the
    /// line ends with the block, else 1.
    fn widened(&self, block: usize, width: usize, kept: &P) -> (P, u32)
        requires inside { IsIn self.now.line (length self.now.numbers.now) (length self.now.nodes.now) }
        requires from { block * width < self.now.line.count }
        requires short { width < self.now.line.count }
        requires level { (level : ℕ) × (width ≡ 2 ^ level) }
        requires kept { ArePartsKeptIn P.tells (other_half block * width) width self.now.line.count (slot_of self.now.line self.now.numbers.now) (node_of P.blank self.now.line self.now.nodes.now) }
        requires told { (xs : List ℤ) × P.tells kept.now xs }
        ensures is { (x : ℕ → ℤ) → AreSameIn (other_half block * width) width (slot_of self.now.line self.now.numbers.now) x
            → P.tells kept.now (numbers_of_block self.now.line.count x block width) → P.tells result.0 (numbers_of_block self.now.line.count x (block / 2) (2 * width)) }
        ensures joins { result.1 ≤ 1 }
        ensures none { result.1 ≡ 0 → (block % 2 ≡ 0) × (self.now.line.count ≤ block * width + width) }
        ensures one { result.1 ≡ 1 → (block / 2 * 2 + 1) * width < self.now.line.count }
    {
        let from = block * width;
        if block % 2 == 1 {
            return (self.part(from - width, width).join(kept), 1);
        }
        if self.line.count <= from + width {
            return (*kept, 0);
        }
        (kept.join(&self.part(from + width, width)), 1)
    }

    /// Returns the part of the whole line with another number at a place, and the number of joins: at most ⌈log2 n⌉ for
    /// n numbers.
    pub(crate) fn with(&self, place: usize, number: i64) -> (P, u32)
        requires inside { IsIn self.now.line (length self.now.numbers.now) (length self.now.nodes.now) }
        requires place { place < self.now.line.count }
        requires kept { ArePartsKept P.tells self.now.line.count (slot_of self.now.line self.now.numbers.now) (node_of P.blank self.now.line self.now.nodes.now) }
        ensures is { P.tells result.0 (segment (replaced (slot_of self.now.line self.now.numbers.now) place number) 0 self.now.line.count) }
        ensures most { IsWithinDigitsOf (self.now.line.count - 1) result.1 }
        ensures least { 1 < self.now.line.count → 0 < result.1 }
    {
        let mut kept = P::of(number);
        let mut block = place;
        let mut width = 1;
        let mut joins = 0;
        while width < self.line.count {
            let (wider, joined) = self.widened(block, width, &kept);
            kept = wider;
            joins += joined;
            block /= 2;
            width = 2 * width;
        }
        (kept, joins)
    }

    /// Joins as `with` does, and appends the part of each width, from two numbers to all. Allocates only beyond the
    /// capacity of the list. AllocError if that fails.
    pub(crate) fn join_up(
        &self,
        place: usize,
        number: i64,
        parts: &mut Vec<P>,
    ) -> Result<(P, u32), AllocError>
        requires inside { IsIn self.now.line (length self.now.numbers.now) (length self.now.nodes.now) }
        requires place { place < self.now.line.count }
        requires kept { ArePartsKept P.tells self.now.line.count (slot_of self.now.line self.now.numbers.now) (node_of P.blank self.now.line self.now.nodes.now) }
        requires none { parts.old.items ≡ [] }
        ensures parts { IfOk result (λ r. AreJoined P.tells self.now.line.count (replaced (slot_of self.now.line self.now.numbers.now) place number) place parts.new.items) }
        ensures is { IfOk result (λ r. P.tells r.0 (segment (replaced (slot_of self.now.line self.now.numbers.now) place number) 0 self.now.line.count)) }
        ensures most { IfOk result (λ r. IsWithinDigitsOf (self.now.line.count - 1) r.1) }
        ensures least { IfOk result (λ r. 1 < self.now.line.count → 0 < r.1) }
    {
        let mut kept = P::of(number);
        let mut block = place;
        let mut width = 1;
        let mut joins = 0;
        let count = self.line.count;
        while width < count {
            let (wider, more) = self.widened(block, width, &kept);
            kept = wider;
            joins += more;
            block /= 2;
            width = 2 * width;
            parts.push(wider)?;
        }
        Ok((kept, joins))
    }
}

/// Rewrites the nodes of all parts that contain a place.
pub(crate) fn renew<P: Part>(numbers: &[i64], nodes: &mut [P], line: Line, place: usize)
    requires inside { IsIn line (length numbers.now) (length nodes.old) }
    requires place { place < line.count }
    requires kept { ArePartsKeptBeside P.tells place line.count (slot_of line numbers.now) (node_of P.blank line nodes.old) }
    ensures kept { ArePartsKept P.tells line.count (slot_of line numbers.now) (node_of P.blank line nodes.new) }
    ensures others { (p : ℕ) → ((meeting : ℕ) → 1 ≤ meeting → meeting < line.count → p ≢ nth_node line meeting) → get_or nodes.new p P.blank ≡ get_or nodes.old p P.blank }
    ensures length { length nodes.new ≡ length nodes.old }
{
    let mut block = place;
    let mut width = 1;
    let mut kept = P::of(numbers[line.slot_at(place)]);
    while width < line.count {
        let (wider, joined) = LineTree {
            line,
            numbers: &*numbers,
            nodes: &*nodes,
        }
        .widened(block, width, &kept);
        kept = wider;
        if joined == 1 {
            nodes[line.nth_node((block / 2 * 2 + 1) * width)] = kept;
        }
        block /= 2;
        width = 2 * width;
    }
}

/// Writes the parts that `join_up` appended for a place as nodes. Joins nothing.
fn put_parts<P: Part>(nodes: &mut [P], line: Line, place: usize, parts: &[P])
    requires few { line.count < 2 ^ 62 }
    requires apart { 0 < line.step }
    requires nodes { HasNodes line (length nodes.old) }
    requires place { place < line.count }
    requires joined { line.count ≤ 2 ^ length parts.now }
    ensures kept { (x : ℕ → ℤ) → ArePartsKeptBeside P.tells place line.count x (node_of P.blank line nodes.old) → AreJoined P.tells line.count x place parts.now
        → ArePartsKept P.tells line.count x (node_of P.blank line nodes.new) }
    ensures others { (p : ℕ) → ((meeting : ℕ) → 1 ≤ meeting → meeting < line.count → p ≢ nth_node line meeting) → get_or nodes.new p P.blank ≡ get_or nodes.old p P.blank }
    ensures length { length nodes.new ≡ length nodes.old }
{
    let mut block = place;
    let mut width = 1;
    let mut level = 0;
    while width < line.count {
        let meeting = (block / 2 * 2 + 1) * width;
        if meeting < line.count {
            nodes[line.nth_node(meeting)] = parts[level];
        }
        block /= 2;
        width = 2 * width;
        level += 1;
    }
}

/// Replaces the number at a place, and writes the nodes of all parts that contain it. Uses the parts that `join_up`
/// appended for this number, or else joins them here.
pub(crate) fn write<P: Part>(
    numbers: &mut [i64],
    nodes: &mut [P],
    line: Line,
    place: usize,
    number: i64,
    joined: Option<&[P]>,
)
    requires inside { IsIn line (length numbers.old) (length nodes.old) }
    requires place { place < line.count }
    requires kept { ArePartsKept P.tells line.count (slot_of line numbers.old) (node_of P.blank line nodes.old) }
    requires joined { IfSome joined (λ parts. AreJoined P.tells line.count (replaced (slot_of line numbers.old) place number) place parts.now) }
    ensures numbers { (i : ℕ) → i < line.count → slot_of line numbers.new i ≡ replaced (slot_of line numbers.old) place number i }
    ensures kept { ArePartsKept P.tells line.count (slot_of line numbers.new) (node_of P.blank line nodes.new) }
    ensures other_slots { (p : ℕ) → p ≢ slot_at line place → get_or numbers.new p (pos 0) ≡ get_or numbers.old p (pos 0) }
    ensures other_nodes { (p : ℕ) → ((meeting : ℕ) → 1 ≤ meeting → meeting < line.count → p ≢ nth_node line meeting) → get_or nodes.new p P.blank ≡ get_or nodes.old p P.blank }
    ensures slot_count { length numbers.new ≡ length numbers.old }
    ensures node_count { length nodes.new ≡ length nodes.old }
{
    numbers[line.slot_at(place)] = number;
    match joined {
        Some(parts) => put_parts(nodes, line, place, parts),
        None => renew(numbers, nodes, line, place),
    }
}

/// Adds the last number of a line to its tree, and writes the nodes of all parts that contain it. The nodes given are
/// those of the line without it.
pub(crate) fn take_last<P: Part>(numbers: &[i64], nodes: &mut [P], line: Line)
    requires inside { IsIn line (length numbers.now) (length nodes.old) }
    requires more { 1 < line.count }
    requires kept { ArePartsKept P.tells (line.count - 1) (slot_of (shorter line) numbers.now) (node_of P.blank (shorter line) nodes.old) }
    ensures kept { ArePartsKept P.tells line.count (slot_of line numbers.now) (node_of P.blank line nodes.new) }
    ensures other_nodes { (p : ℕ) → ((meeting : ℕ) → 1 ≤ meeting → meeting < line.count → p ≢ nth_node line meeting) → get_or nodes.new p P.blank ≡ get_or nodes.old p P.blank }
    ensures node_count { length nodes.new ≡ length nodes.old }
{
    renew(numbers, nodes, line, line.count - 1);
}
