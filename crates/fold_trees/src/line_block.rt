//! Writes the nodes of all lines of a block, from the last part to the first.

ghost use Rattle.std.specs.Prelude.{◌≡◌, get_or, ℕ, ◌+◌, ◌-◌, ◌*◌, ◌/◌, ◌%◌, ◌^◌, ◌<◌, ◌≤◌, ◌++◌, min, ℤ, List, length, ◌⊎◌};
ghost use Rattle.fold_trees.specs.LineTrees.{nth_node, slot_of, segment, node_of, ArePartsKept, AreFourKept};
ghost use Rattle.fold_trees.specs.LineBlocks.{line_of, HaveSlots, nodes_end, HaveNodes, ArePartsKeptBehind, ArePartsKeptFrom};

use crate::line::Line;
use crate::line_tree::LineTree;
use crate::part::Part;

/// Writes the nodes of four numbers from a place on (first two, all, last two), for each line of a block.
fn fours_row<P: Part>(numbers: &[i64], nodes: &mut [P], first: Line, from: usize)
    requires slots { HaveSlots first (length numbers.now) }
    requires nodes { HaveNodes first (length nodes.old) }
    requires full { from + 4 ≤ first.count }
    ensures told { (column : ℕ) → column < first.step → AreFourKept P.tells (slot_of (line_of first column) numbers.now) (node_of P.blank (line_of first column) nodes.new) from }
    ensures others { (p : ℕ) → (p < nth_node first (from + 1) ⊎ nth_node first (from + 3) + first.step ≤ p) → get_or nodes.new p P.blank ≡ get_or nodes.old p P.blank }
    ensures length { length nodes.new ≡ length nodes.old }
{
    let step = first.step;
    let row = first.slot_at(from);
    let node = first.nth_node(from + 1);
    for column in 0..step {
        let at = row + column;
        let here = node + column;
        let earlier = P::two(numbers[at], numbers[at + step]);
        let later = P::two(numbers[at + 2 * step], numbers[at + 3 * step]);
        nodes[here] = earlier;
        nodes[here + step] = earlier.join(&later);
        nodes[here + 2 * step] = later;
    }
}

/// Writes the node of the part that begins at a place, from the nodes of its halves, for each line of a block. Each half has at least two numbers.
fn halves_row<P: Part>(nodes: &mut [P], first: Line, from: usize, half: usize)
    requires nodes { HaveNodes first (length nodes.old) }
    requires wide { 2 ≤ half }
    requires full { from + 2 * half ≤ first.count }
    requires told { (column : ℕ) → column < first.step → (xs : List ℤ) × P.tells (node_of P.blank (line_of first column) nodes.old (from + half / 2)) xs }
    requires later { (column : ℕ) → column < first.step → (xs : List ℤ) × P.tells (node_of P.blank (line_of first column) nodes.old (from + half + half / 2)) xs }
    ensures told { (column : ℕ) → column < first.step → (earlier rest : List ℤ) → P.tells (node_of P.blank (line_of first column) nodes.old (from + half / 2)) earlier
        → P.tells (node_of P.blank (line_of first column) nodes.old (from + half + half / 2)) rest → P.tells (node_of P.blank (line_of first column) nodes.new (from + half)) (earlier ++ rest) }
    ensures others { (p : ℕ) → (p < nth_node first (from + half) ⊎ nth_node first (from + half) + first.step ≤ p) → get_or nodes.new p P.blank ≡ get_or nodes.old p P.blank }
    ensures length { length nodes.new ≡ length nodes.old }
{
    let earlier = first.nth_node(from + half / 2);
    let later = first.nth_node(from + half + half / 2);
    let node = first.nth_node(from + half);
    for column in 0..first.step {
        nodes[node + column] = nodes[earlier + column].join(&nodes[later + column]);
    }
}

/// Writes the node of the part that begins at a place and whose first half has this width, for each line of a block.
/// The part may end with the line.
#[inline(never)]
fn last_row<P: Part>(numbers: &[i64], nodes: &mut [P], first: Line, from: usize, half: usize)
    requires slots { HaveSlots first (length numbers.now) }
    requires nodes { HaveNodes first (length nodes.old) }
    requires half { (level : ℕ) × (half ≡ 2 ^ level) }
    requires from { (place : ℕ) × (from ≡ place * (2 * half)) }
    requires short { from + half < first.count }
    requires kept { ArePartsKeptBehind P.blank P.tells from half first numbers.now nodes.old }
    ensures told { (column : ℕ) → column < first.step
        → P.tells (node_of P.blank (line_of first column) nodes.new (from + half)) (segment (slot_of (line_of first column) numbers.now) from (min (2 * half) (first.count - from))) }
    ensures others { (p : ℕ) → (p < nth_node first (from + half) ⊎ nth_node first (from + half) + first.step ≤ p) → get_or nodes.new p P.blank ≡ get_or nodes.old p P.blank }
    ensures length { length nodes.new ≡ length nodes.old }
{
    for column in 0..first.step {
        let line = first.nth(column);
        let tree = LineTree {
            line,
            numbers,
            nodes: &*nodes,
        };
        let both = tree.part(from, half).join(&tree.part(from + half, half));
        nodes[line.nth_node(from + half)] = both;
    }
}

/// Writes the node of the part that begins at a place and whose halves have this width, for each line of a block. The nodes of later parts, and of
/// narrower parts at this place, exist.
fn join_row<P: Part>(numbers: &[i64], nodes: &mut [P], first: Line, from: usize, half: usize)
    requires slots { HaveSlots first (length numbers.now) }
    requires nodes { HaveNodes first (length nodes.old) }
    requires half { (level : ℕ) × (half ≡ 2 ^ level) }
    requires wide { 2 ≤ half }
    requires from { (place : ℕ) × (from ≡ place * (2 * half)) }
    requires short { from + half < first.count }
    requires kept { ArePartsKeptBehind P.blank P.tells from half first numbers.now nodes.old }
    ensures kept { ArePartsKeptBehind P.blank P.tells from (2 * half) first numbers.now nodes.new }
    ensures others { (p : ℕ) → (p < first.node ⊎ nodes_end first ≤ p) → get_or nodes.new p P.blank ≡ get_or nodes.old p P.blank }
    ensures length { length nodes.new ≡ length nodes.old }
{
    if first.count - from < 2 * half {
        last_row(numbers, nodes, first, from, half);
    } else {
        halves_row(nodes, first, from, half);
    }
}

/// Writes the nodes of the four numbers that begin at a place, for each line of a block. The nodes of later parts
/// exist. Returns the width of the widest part written: 4, or 2 if fewer than four numbers are left.
fn begin_from<P: Part>(numbers: &[i64], nodes: &mut [P], first: Line, from: usize) -> usize
    requires slots { HaveSlots first (length numbers.now) }
    requires nodes { HaveNodes first (length nodes.old) }
    requires four { from % 4 ≡ 0 }
    requires below { from < first.count }
    requires kept { ArePartsKeptFrom P.blank P.tells (from + 4) first numbers.now nodes.old }
    ensures width { result ≡ 2 ⊎ result ≡ 4 }
    ensures kept { ArePartsKeptBehind P.blank P.tells from result first numbers.now nodes.new }
    ensures others { (p : ℕ) → (p < first.node ⊎ nodes_end first ≤ p) → get_or nodes.new p P.blank ≡ get_or nodes.old p P.blank }
    ensures length { length nodes.new ≡ length nodes.old }
{
    let left = first.count - from;
    if left < 2 {
        return 2;
    }
    if left < 4 {
        last_row(numbers, nodes, first, from, 1);
        return 2;
    }
    fours_row(numbers, nodes, first, from);
    4
}

/// Writes the nodes of all parts that begin at a place, for each line of a block. The nodes of later parts exist.
fn fill_from<P: Part>(numbers: &[i64], nodes: &mut [P], first: Line, from: usize)
    requires slots { HaveSlots first (length numbers.now) }
    requires nodes { HaveNodes first (length nodes.old) }
    requires four { from % 4 ≡ 0 }
    requires below { from < first.count }
    requires kept { ArePartsKeptFrom P.blank P.tells (from + 4) first numbers.now nodes.old }
    ensures kept { ArePartsKeptFrom P.blank P.tells from first numbers.now nodes.new }
    ensures others { (p : ℕ) → (p < first.node ⊎ nodes_end first ≤ p) → get_or nodes.new p P.blank ≡ get_or nodes.old p P.blank }
    ensures length { length nodes.new ≡ length nodes.old }
{
    let mut half = begin_from(numbers, nodes, first, from);
    while half < first.count - from && from % (2 * half) == 0 {
        join_row(numbers, nodes, first, from, half);
        half = 2 * half;
    }
}

/// Writes all nodes of each line of a block, from the last part to the first.
pub(crate) fn fill_block<P: Part>(numbers: &[i64], nodes: &mut [P], first: Line)
    requires slots { HaveSlots first (length numbers.now) }
    requires nodes { HaveNodes first (length nodes.old) }
    ensures kept { (column : ℕ) → column < first.step → ArePartsKept P.tells first.count (slot_of (line_of first column) numbers.now) (node_of P.blank (line_of first column) nodes.new) }
    ensures others { (p : ℕ) → (p < first.node ⊎ nodes_end first ≤ p) → get_or nodes.new p P.blank ≡ get_or nodes.old p P.blank }
    ensures length { length nodes.new ≡ length nodes.old }
{
    let mut fours = first.count.div_ceil(4);
    while fours > 0 {
        fours -= 1;
        fill_from(numbers, nodes, first, 4 * fours);
    }
}
