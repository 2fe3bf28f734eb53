//! The limits of a line and of its tree.

ghost use Rattle.std.specs.Prelude.{MatchOption, ◌≡◌, ◌+◌, ◌<◌, ◌≤◌, ◌↔◌, IsTrue, map, max};
ghost use Rattle.apl_expr.specs.Trees.{tree_of, position_of, positions_of, height, height_in, nodes, nodes_in};

use crate::expr::{Expr, Sides};

/// The most tokens of a line.
pub const MOST_TOKENS: usize = 4096;

/// The greatest height of a tree.
pub const MOST_HEIGHT: u32 = 256;

/// The most nodes of a tree.
pub const MOST_NODES: u32 = 512;

impl Expr {
    /// Returns true if the height of the tree is at most `limit`. Visits no node below that height.
    #[cycle(height)]
    #[tactic(auto, using(crate::proofs::Sizes::height_positive, crate::proofs::Rows::tree_index))]
    pub(crate) fn is_within_height(&self, limit: u32) -> bool
        ensures { IsTrue result ↔ (height (tree_of self.now) ≤ limit) }
    {
        if limit == 0 {
            return false;
        }
        match self {
            Expr::Const(_) => true,
            Expr::Name(_) => true,
            Expr::Monad(_, right) | Expr::Reduce(_, _, right) | Expr::Scan(_, _, right) => {
                right.is_within_height(limit - 1)
            }
            Expr::Dyad(_, sides) | Expr::Outer(_, sides) | Expr::Inner(_, _, sides) => {
                sides.are_within_height(limit - 1)
            }
            Expr::Index(operand, positions) => {
                operand.is_within_height(limit - 1) && are_within_height(positions, limit - 1)
            }
        }
    }

    /// Returns `limit` minus the number of nodes, or `None` if the tree has more.
    #[cycle(nodes)]
    #[tactic(auto, using(crate::proofs::Sizes::nodes_positive, crate::proofs::Rows::tree_index))]
    fn nodes_left(&self, limit: u32) -> Option<u32>
        ensures { MatchOption result (limit < nodes (tree_of self.now)) (λ left. left + nodes (tree_of self.now) ≡ limit) }
    {
        let below = limit.checked_sub(1)?;
        match self {
            Expr::Const(_) => Some(below),
            Expr::Name(_) => Some(below),
            Expr::Monad(_, right) | Expr::Reduce(_, _, right) | Expr::Scan(_, _, right) => {
                right.nodes_left(below)
            }
            Expr::Dyad(_, sides) | Expr::Outer(_, sides) | Expr::Inner(_, _, sides) => {
                sides.nodes_left(below)
            }
            Expr::Index(operand, positions) => {
                let rest = operand.nodes_left(below)?;
                nodes_left_in(positions, rest)
            }
        }
    }

    /// Returns true if the tree has at most `limit` nodes.
    pub(crate) fn is_within_nodes(&self, limit: u32) -> bool
        ensures { IsTrue result ↔ (nodes (tree_of self.now) ≤ limit) }
    {
        self.nodes_left(limit).is_some()
    }
}

impl Sides {
    /// Returns true if the height of both trees is at most `limit`.
    #[cycle(height)]
    fn are_within_height(&self, limit: u32) -> bool
        ensures { IsTrue result ↔ (max (height (tree_of self.now.left)) (height (tree_of self.now.right)) ≤ limit) }
    {
        self.left.is_within_height(limit) && self.right.is_within_height(limit)
    }

    /// Returns `limit` minus the number of nodes of both trees, or `None` if they have more.
    #[cycle(nodes)]
    fn nodes_left(&self, limit: u32) -> Option<u32>
        ensures { MatchOption result (limit < nodes (tree_of self.now.left) + nodes (tree_of self.now.right)) (λ left. left + (nodes (tree_of self.now.left) + nodes (tree_of self.now.right)) ≡ limit) }
    {
        let rest = self.left.nodes_left(limit)?;
        self.right.nodes_left(rest)
    }
}

/// Returns true if the height of each tree at these positions is at most `limit`.
#[cycle(height)]
fn are_within_height(positions: &[Option<Expr>], limit: u32) -> bool
    ensures { IsTrue result ↔ (height_in (positions_of (map position_of positions.now)) ≤ limit) }
{
    for position in positions {
        if let Some(expr) = position {
            if !expr.is_within_height(limit) {
                return false;
            }
        }
    }
    true
}

/// Returns `limit` minus the number of nodes at these positions, or `None` if they have more.
#[cycle(nodes)]
fn nodes_left_in(positions: &[Option<Expr>], limit: u32) -> Option<u32>
    ensures { MatchOption result (limit < nodes_in (positions_of (map position_of positions.now))) (λ left. left + nodes_in (positions_of (map position_of positions.now)) ≡ limit) }
{
    let mut rest = limit;
    for position in positions {
        if let Some(expr) = position {
            rest = expr.nodes_left(rest)?;
        }
    }
    Some(rest)
}
