//! Dependents of a node.
ghost use Rattle.std.specs.Prelude.{◌≡◌, ℕ, ◌<◌, length, IfOk, IfSome, IfNone, nat_eq};
ghost use Rattle.std.specs.List.{Contains, IsDistinct};
ghost use Rattle.dep_order.specs.TopologicalOrder.{Points, IsPlaced, IsUnplaced, IsHit};
ghost use Rattle.dep_order.specs.Reachability.{Reaches};

use crate::graph::Graph;
use std::alloc::{AllocError, Global};

/// Returns the nodes that reach `node` by a chain of one or more references, each once, in any order.
///
/// Includes the node itself only if it is on a cycle. For a number that is no node, the list is empty. Fails if the allocator refuses
/// memory.
pub fn dependents(alloc: Global, graph: &Graph, node: usize) -> Result<Vec<usize>, AllocError>
    ensures once { IfOk result (λ found. IsDistinct nat_eq found.items) }
    ensures reach { IfOk result (λ found. (a : ℕ) → Contains found.items a → Reaches (Points graph.now) a node) }
    ensures all { IfOk result (λ found. (a : ℕ) → Reaches (Points graph.now) a node → Contains found.items a) }
{
    let mut marks = vec![in alloc; false; graph.len()]?;
    let mut found = Vec::new(alloc);
    while let Some(next) = next_dependent(graph, &marks, node) {
        marks[next] = true;
        found.push(next)?;
    }
    Ok(found)
}

// Finds an unmarked node that refers to `node` or to a marked node.
fn next_dependent(graph: &Graph, marks: &[bool], node: usize) -> Option<usize>
    requires { length marks.now ≡ length graph.now }
    ensures left { IfSome result (IsUnplaced marks.now) }
    ensures hit { IfSome result (λ a. (b : ℕ) × Points graph.now a b × IsHit marks.now node b) }
    ensures none { IfNone result ((a b : ℕ) → a < length graph.now → Points graph.now a b → IsHit marks.now node b → IsPlaced marks.now a) }
{
    for next in 0..graph.len() {
        if marks[next] {
            continue;
        }
        if hit(graph, marks, next, node).is_some() {
            return Some(next);
        }
    }
    None
}

// Returns the first reference of `from` that is `node` or is marked.
fn hit(graph: &Graph, marks: &[bool], from: usize, node: usize) -> Option<usize>
    requires size { length marks.now ≡ length graph.now }
    requires within { from < length graph.now }
    ensures some { IfSome result (λ b. Points graph.now from b × IsHit marks.now node b) }
    ensures none { IfNone result ((b : ℕ) → Points graph.now from b → IsHit marks.now node b → ⊥) }
{
    // The contract of `len` states that every reference is to a node.
    let _in_range = graph.len();
    for next in graph.references(from) {
        if *next == node || marks[*next] {
            return Some(*next);
        }
    }
    None
}
