//! Appends the nodes of a contiguous line, from the first part to the last.

ghost use Rattle.std.specs.Prelude.{◌≡◌, get_or, ℕ, ◌+◌, ◌-◌, ◌*◌, ◌/◌, ◌%◌, ◌^◌, ◌<◌, ◌≤◌, ◌++◌, ◌∷◌, [], ℤ, length, vec_len, vec_capacity};
ghost use Rattle.fold_trees.specs.LineTrees.{nth_node, slot_of, HasSlots, segment, node_of, ArePartsKept, ArePartsKeptIn, ArePartsKeptUpTo};
ghost use Rattle.fold_trees.specs.LineBlocks.{nodes_end};

use crate::line::Line;
use crate::line_tree::renew;
use crate::part::Part;

/// Writes the nodes of all parts that end at a place of a contiguous line, from narrow to wide. The nodes up to
/// `width`, and of parts that end earlier, exist.
fn close_parts<P: Part>(nodes: &mut [P], line: Line, end: usize, width: usize)
    requires few { line.count < 2 ^ 62 }
    requires near { line.step ≡ 1 }
    requires some { 0 < end }
    requires below { end < line.count }
    requires width { (level : ℕ) × (width ≡ 2 * 2 ^ level) }
    requires within { width ≤ end }
    requires nodes { nth_node line end < length nodes.old }
    requires kept { (x : ℕ → ℤ) × ArePartsKeptUpTo P.tells end width line.count x (node_of P.blank line nodes.old) }
    ensures kept { (x : ℕ → ℤ) → ArePartsKeptUpTo P.tells end width line.count x (node_of P.blank line nodes.old) → ArePartsKeptIn P.tells 0 end line.count x (node_of P.blank line nodes.new) }
    ensures others { (p : ℕ) → p < line.node → get_or nodes.new p P.blank ≡ get_or nodes.old p P.blank }
    ensures length { length nodes.new ≡ length nodes.old }
{
    let mut half = width;
    while end % (2 * half) == 0 {
        let node = line.node + (end - half) - 1;
        nodes[node] = nodes[node - half / 2].join(&nodes[node + half / 2]);
        half = 2 * half;
    }
}

/// Returns the part of two consecutive numbers of a contiguous line.
fn two_from<P: Part>(numbers: &[i64], line: Line, from: usize) -> P
    requires slots { HasSlots line (length numbers.now) }
    requires near { line.step ≡ 1 }
    requires full { from + 2 ≤ line.count }
    ensures { P.tells result (segment (slot_of line numbers.now) from 2) }
{
    let at = line.slot + from;
    P::two(numbers[at], numbers[at + 1])
}

/// Appends the node of the next two numbers of a contiguous line, and a placeholder for a wider part. Writes the nodes
/// of all wider parts that end here. Allocates nothing.
fn push_pair<P: Part>(numbers: &[i64], nodes: &mut Vec<P>, line: Line, from: usize)
    requires slots { HasSlots line (length numbers.now) }
    requires near { line.step ≡ 1 }
    requires two { from % 2 ≡ 0 }
    requires full { from + 2 < line.count }
    requires here { vec_len nodes.old ≡ line.node + from }
    requires room { line.node + from + 2 ≤ vec_capacity nodes.old }
    requires kept { ArePartsKeptIn P.tells 0 from line.count (slot_of line numbers.now) (node_of P.blank line nodes.old.items) }
    ensures kept { ArePartsKeptIn P.tells 0 (from + 2) line.count (slot_of line numbers.now) (node_of P.blank line nodes.new.items) }
    ensures others { (p : ℕ) → p < line.node → get_or nodes.new.items p P.blank ≡ get_or nodes.old.items p P.blank }
    ensures length { vec_len nodes.new ≡ line.node + from + 2 }
    ensures room { vec_capacity nodes.old ≤ vec_capacity nodes.new }
{
    let pair: P = two_from(numbers, line, from);
    nodes.push_reserved(pair);
    nodes.push_reserved(pair);
    close_parts(nodes, line, from + 2, 2);
}

/// Appends the nodes of the next four numbers of a contiguous line (first two, all, last two), and a placeholder for a
/// wider part. Writes the nodes of all wider parts that end here. Allocates nothing.
fn push_four<P: Part>(numbers: &[i64], nodes: &mut Vec<P>, line: Line, from: usize)
    requires slots { HasSlots line (length numbers.now) }
    requires near { line.step ≡ 1 }
    requires four { from % 4 ≡ 0 }
    requires full { from + 4 < line.count }
    requires here { vec_len nodes.old ≡ line.node + from }
    requires room { line.node + from + 4 ≤ vec_capacity nodes.old }
    requires kept { ArePartsKeptIn P.tells 0 from line.count (slot_of line numbers.now) (node_of P.blank line nodes.old.items) }
    ensures kept { ArePartsKeptIn P.tells 0 (from + 4) line.count (slot_of line numbers.now) (node_of P.blank line nodes.new.items) }
    ensures others { (p : ℕ) → p < line.node → get_or nodes.new.items p P.blank ≡ get_or nodes.old.items p P.blank }
    ensures length { vec_len nodes.new ≡ line.node + from + 4 }
    ensures room { vec_capacity nodes.old ≤ vec_capacity nodes.new }
{
    let first: P = two_from(numbers, line, from);
    let second: P = two_from(numbers, line, from + 2);
    nodes.push_reserved(first);
    nodes.push_reserved(first.join(&second));
    nodes.push_reserved(second);
    nodes.push_reserved(second);
    close_parts(nodes, line, from + 4, 4);
}

/// Appends the nodes of a contiguous line up to the last pair before its last number. Allocates nothing.
fn push_fours<P: Part>(numbers: &[i64], nodes: &mut Vec<P>, line: Line)
    requires slots { HasSlots line (length numbers.now) }
    requires near { line.step ≡ 1 }
    requires some { 0 < line.count }
    requires here { vec_len nodes.old ≡ line.node }
    requires room { nodes_end line ≤ vec_capacity nodes.old }
    ensures kept { ArePartsKeptIn P.tells 0 (2 * ((line.count - 1) / 2)) line.count (slot_of line numbers.now) (node_of P.blank line nodes.new.items) }
    ensures others { (p : ℕ) → p < line.node → get_or nodes.new.items p P.blank ≡ get_or nodes.old.items p P.blank }
    ensures length { vec_len nodes.new ≡ line.node + 2 * ((line.count - 1) / 2) }
    ensures room { vec_capacity nodes.old ≤ vec_capacity nodes.new }
{
    let last = line.count - 1;
    for four in 0..last / 4 {
        push_four(numbers, nodes, line, 4 * four);
    }
    if last % 4 > 1 {
        push_pair(numbers, nodes, line, 4 * (last / 4));
    }
}

/// Appends all nodes of a contiguous line, from the first part to the last. Allocates nothing.
pub(crate) fn push_line<P: Part>(numbers: &[i64], nodes: &mut Vec<P>, line: Line)
    requires slots { HasSlots line (length numbers.now) }
    requires near { line.step ≡ 1 }
    requires some { 0 < line.count }
    requires here { vec_len nodes.old ≡ line.node }
    requires room { nodes_end line ≤ vec_capacity nodes.old }
    ensures kept { ArePartsKept P.tells line.count (slot_of line numbers.now) (node_of P.blank line nodes.new.items) }
    ensures others { (p : ℕ) → p < line.node → get_or nodes.new.items p P.blank ≡ get_or nodes.old.items p P.blank }
    ensures length { vec_len nodes.new ≡ nodes_end line }
    ensures room { vec_capacity nodes.old ≤ vec_capacity nodes.new }
{
    push_fours(numbers, nodes, line);
    let last = line.count - 1;
    if last % 2 == 1 {
        nodes.push_reserved(P::of(numbers[line.slot + last]));
    }
    renew(numbers, nodes, line, last);
}
