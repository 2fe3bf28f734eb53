//! Topological orders and cycles.
ghost use Rattle.std.specs.Prelude.{◌≡◌, ℕ, ◌<◌, length, slice_index, Some, IfOk, IfErr, IfSome, IfNone, false, true, MatchOption};
ghost use Rattle.std.specs.List.{Contains};
ghost use Rattle.dep_order.specs.TopologicalOrder.{IsOrder, Points, IsPlaced, IsUnplaced, IsStuck, IsCycleOf};
ghost use Rattle.dep_order.specs.Reachability.{IsCycle};
ghost use Rattle.dep_order.specs.declared.topological_order.OrderFault.TheVariants.{NoMemory};

use crate::graph::Graph;
use std::alloc::{AllocError, AllocFailed, Global};

/// The reason why there is no order.
#[derive(Debug, Drop)]
pub enum OrderFault {
    /// A cycle of at least one node: each refers to the next, and the last to the first.
    Cycle(Vec<usize>),
    /// The allocator refused memory.
    NoMemory,
}

impl From<AllocError> for OrderFault {
    ghost from_gives = { λ _ e. e ≡ NoMemory };

    fn from(_e: AllocError) -> OrderFault {
        OrderFault::NoMemory
    }
}

impl<T: Drop> From<AllocFailed<T>> for OrderFault {
    ghost from_gives = { λ _ e. e ≡ NoMemory };

    fn from(_e: AllocFailed<T>) -> OrderFault {
        OrderFault::NoMemory
    }
}

/// Returns all nodes in topological order: each once, after all nodes that it refers to.
///
/// Returns `Cycle` with one of the cycles if there is no order. Returns `NoMemory` if the allocator refuses memory. Takes time proportional
/// to nodes × (nodes + references).
pub fn order(alloc: Global, graph: &Graph) -> Result<Vec<usize>, OrderFault>
    ensures order { IfOk result (λ order. IsOrder graph.now order.items) }
    ensures cycle { IfErr result (IsCycleOf graph.now) }
{
    let count = graph.len();
    let mut placed = vec![in alloc; false; count]?;
    let mut order = Vec::new(alloc);
    while let Some(first) = first_left(&placed) {
        match next_ready(graph, &placed) {
            Some(node) => {
                placed[node] = true;
                order.push(node)?;
            }
            None => return Err(OrderFault::Cycle(cycle(alloc, graph, &placed, first)?)),
        }
    }
    Ok(order)
}

// Returns the first node that is not placed.
fn first_left(placed: &[bool]) -> Option<usize>
    ensures { MatchOption result ((a : ℕ) → a < length placed.now → IsPlaced placed.now a) (IsUnplaced placed.now) }
{
    for (node, is_placed) in placed.iter().enumerate() {
        if !*is_placed {
            return Some(node);
        }
    }
    None
}

// Returns an unplaced node whose references are all placed.
fn next_ready(graph: &Graph, placed: &[bool]) -> Option<usize>
    requires { length placed.now ≡ length graph.now }
    ensures none { IfNone result (IsStuck graph.now placed.now) }
    ensures left { IfSome result (IsUnplaced placed.now) }
    ensures ready { IfSome result (λ node. (b : ℕ) → Points graph.now node b → IsPlaced placed.now b) }
{
    for node in 0..graph.len() {
        if !placed[node] && missing(graph, placed, node).is_none() {
            return Some(node);
        }
    }
    None
}

// Returns the first reference of a node that is not placed.
fn missing(graph: &Graph, placed: &[bool], node: usize) -> Option<usize>
    requires size { length placed.now ≡ length graph.now }
    requires within { node < length graph.now }
    ensures none { IfNone result ((b : ℕ) → Points graph.now node b → IsPlaced placed.now b) }
    ensures left { IfSome result (IsUnplaced placed.now) }
    ensures points { IfSome result (Points graph.now node) }
{
    // The contract of `len` states that every reference is to a node.
    let _in_range = graph.len();
    for next in graph.references(node) {
        if !placed[*next] {
            return Some(*next);
        }
    }
    None
}

// Finds a cycle among the unplaced nodes. Each of them refers to an unplaced node.
fn cycle(
    alloc: Global,
    graph: &Graph,
    placed: &[bool],
    first: usize,
) -> Result<Vec<usize>, AllocError>
    requires size { length placed.now ≡ length graph.now }
    requires left { IsUnplaced placed.now first }
    requires stuck { IsStuck graph.now placed.now }
    ensures { IfOk result (λ cycle. IsCycle (Points graph.now) cycle.items) }
{
    let mut seen = vec![in alloc; false; placed.len()]?;
    let mut path = Vec::new(alloc);
    let mut node = first;
    while !seen[node] {
        seen[node] = true;
        path.push(node)?;
        node = missing(graph, placed, node).unwrap();
    }
    let start = first_at(&path, node);
    path[start..].to_vec(alloc)
}

// Returns the index of a node in a path.
fn first_at(path: &[usize], node: usize) -> usize
    requires { Contains path.now node }
    ensures within { result < length path.now }
    ensures found { slice_index path.now result ≡ node }
{
    path.iter().position(|other| *other == node).unwrap()
}
