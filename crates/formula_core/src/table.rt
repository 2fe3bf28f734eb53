//! The nodes of an expression; each follows the nodes whose results it takes.

ghost use Rattle.std.specs.Prelude.{◌≡◌, ◌++◌, [], ◌∷◌, ℕ, List, length, map, option_map, IfOk, OnOk};
ghost use Rattle.apl_expr.specs.Trees.{Const as ConstTree, Name as NameTree, tree_of, literal_of, position_of, before_argument, between_arguments};
ghost use Rattle.formula_core.specs.declared.table.Node.{Node as NodeOf};
ghost use Rattle.formula_core.specs.declared.table.Operand.TheVariants.{Node as NodeAt};
ghost use Rattle.formula_core.specs.Holdings.{nodes_of, AreNotWorkedOut};
ghost use Rattle.formula_core.specs.Sums.{totalled};
ghost use Rattle.formula_core.specs.Tables.{IsLowered, ArePositionsLowered, applies};

use crate::constant::Constant;
use crate::kept::Kept;
use crate::sums::total_of;
use apl_expr::{Expr, Function1, Function2, Literal, Sides};
use names::Name;
use operator_fns::Reduce;
use std::alloc::{AllocError, Global};

/// An argument of a node: a literal, a name by its index among the references, or the result of an earlier node.
#[derive(Drop)]
pub(crate) enum Operand {
    /// A literal.
    Literal(Box<Constant>),
    /// The index of a name among the references.
    Name(usize),
    /// The index of a node of the table.
    Node(usize),
}

/// A node: an operation, or the literal or name that is the whole expression. Inside an expression literals and names have no node.
#[derive(Drop)]
pub(crate) enum Node {
    /// A literal.
    Constant(Box<Constant>),
    /// The index of a name among the references.
    Name(usize),
    /// A function and its argument.
    Monad(Function1, Operand),
    /// A function, its left argument and its right argument.
    Dyad(Function2, Operand, Operand),
    /// An array and the positions of its index; a position may be empty.
    Index(Operand, Vec<Option<Operand>>),
}

impl Node {
    /// Returns whether the node applies a function.
    pub(crate) fn applies(&self) -> bool
        ensures { result ≡ applies self.now }
    {
        !matches!(self, Node::Constant(_) | Node::Name(_))
    }

    /// Returns the fold and its argument if the node is a fold whose lines keep trees.
    pub(crate) fn totalled(&self) -> Option<(Reduce, &Operand)>
        ensures { option_map (λ p. (p.0, p.1.now)) result ≡ totalled self.now }
    {
        match self {
            Node::Monad(function, right) => Some((total_of(*function)?, right)),
            _ => None,
        }
    }
}

/// Appends the names and the nodes of an expression. Returns the operand that stands for it.
#[cycle(lower)]
pub(crate) fn lower(
    alloc: Global,
    names: &mut Vec<Name>,
    nodes: &mut Vec<Kept>,
    tree: &Expr,
) -> Result<Operand, AllocError>
    ensures lowered { IfOk result (λ operand. IsLowered names.old.items names.new.items (nodes_of nodes.old.items) (nodes_of nodes.new.items) (tree_of tree.now) operand) }
    ensures anew { OnOk result (AreNotWorkedOut nodes.old.items → AreNotWorkedOut nodes.new.items) }
{
    match tree {
        Expr::Const(literal) => lower_literal(alloc, literal),
        Expr::Name(name) => push_name(names, *name),
        Expr::Monad(function, right) => {
            lower_before(alloc, names, nodes, Function1::Monad(*function), right)
        }
        Expr::Dyad(function, sides) => {
            lower_between(alloc, names, nodes, Function2::Dyad(*function), sides)
        }
        Expr::Index(array, positions) => {
            let array = lower(alloc, names, nodes, array)?;
            let positions = lower_positions(alloc, names, nodes, positions)?;
            push(nodes, Node::Index(array, positions))
        }
        Expr::Reduce(function, along, right) => {
            let function = Function1::Reduce(*function, *along);
            lower_before(alloc, names, nodes, function, right)
        }
        Expr::Scan(function, along, right) => {
            let function = Function1::Scan(*function, *along);
            lower_before(alloc, names, nodes, function, right)
        }
        Expr::Outer(function, sides) => {
            lower_between(alloc, names, nodes, Function2::Outer(*function), sides)
        }
        Expr::Inner(fold, each, sides) => {
            lower_between(alloc, names, nodes, Function2::Inner(*fold, *each), sides)
        }
    }
}

/// Returns the operand of a literal; it has no node and no name.
#[inline(always)]
fn lower_literal(alloc: Global, literal: &Literal) -> Result<Operand, AllocError>
    ensures { (names : List (List ℕ)) → (nodes : List NodeOf) → IfOk result (λ operand. IsLowered names names nodes nodes (ConstTree (literal_of literal.now)) operand) }
{
    let constant = Constant::of(alloc, literal)?;
    Ok(Operand::Literal(Box::new(alloc, constant)?))
}

/// Appends the names and the nodes of a function of one argument. Returns the operand that stands for it.
#[cycle(lower)]
#[inline(always)]
fn lower_before(
    alloc: Global,
    names: &mut Vec<Name>,
    nodes: &mut Vec<Kept>,
    function: Function1,
    right: &Expr,
) -> Result<Operand, AllocError>
    ensures anew { OnOk result (AreNotWorkedOut nodes.old.items → AreNotWorkedOut nodes.new.items) }
    ensures lowered { IfOk result (λ operand. IsLowered names.old.items names.new.items (nodes_of nodes.old.items) (nodes_of nodes.new.items) (before_argument function (tree_of right.now)) operand) }
{
    let right = lower(alloc, names, nodes, right)?;
    push(nodes, Node::Monad(function, right))
}

/// Appends the names and the nodes of a function of two arguments. Returns the operand that stands for it.
#[cycle(lower)]
fn lower_between(
    alloc: Global,
    names: &mut Vec<Name>,
    nodes: &mut Vec<Kept>,
    function: Function2,
    sides: &Sides,
) -> Result<Operand, AllocError>
    ensures anew { OnOk result (AreNotWorkedOut nodes.old.items → AreNotWorkedOut nodes.new.items) }
    ensures lowered { IfOk result (λ operand. IsLowered names.old.items names.new.items (nodes_of nodes.old.items) (nodes_of nodes.new.items) (between_arguments function (tree_of sides.now.left) (tree_of sides.now.right)) operand) }
{
    let left = lower(alloc, names, nodes, &sides.left)?;
    let right = lower(alloc, names, nodes, &sides.right)?;
    push(nodes, Node::Dyad(function, left, right))
}

/// Appends the names and the nodes of the positions of an index, from the left. Returns an operand for each position that is not empty.
#[cycle(lower)]
fn lower_positions(
    alloc: Global,
    names: &mut Vec<Name>,
    nodes: &mut Vec<Kept>,
    positions: &[Option<Expr>],
) -> Result<Vec<Option<Operand>>, AllocError>
    ensures anew { OnOk result (AreNotWorkedOut nodes.old.items → AreNotWorkedOut nodes.new.items) }
    ensures lowered { IfOk result (λ operands. ArePositionsLowered names.old.items names.new.items (nodes_of nodes.old.items) (nodes_of nodes.new.items) (map position_of positions.now) operands.items) }
{
    let mut operands = Vec::new(alloc);
    for position in positions {
        let operand = match position {
            Some(tree) => Some(lower(alloc, names, nodes, tree)?),
            None => None,
        };
        operands.push(operand)?;
    }
    Ok(operands)
}

/// The number of names and of nodes of an expression; `Formula::of` allocates exactly this capacity.
#[derive(Clone, Copy)]
pub(crate) struct Room {
    /// The occurrences of names.
    pub(crate) names: usize,
    /// The functions.
    pub(crate) nodes: usize,
}

impl Room {
    /// Adds two rooms; saturates.
    fn and(self, other: Room) -> Room {
        Room {
            names: self.names.saturating_add(other.names),
            nodes: self.nodes.saturating_add(other.nodes),
        }
    }
}

/// The room of a name.
const ONE_NAME: Room = Room { names: 1, nodes: 0 };

/// The room of a function without its arguments.
const ONE_NODE: Room = Room { names: 0, nodes: 1 };

/// Returns the room of an expression.
#[cycle(room)]
pub(crate) fn room_for(tree: &Expr) -> Room {
    match tree {
        Expr::Const(_) => Room { names: 0, nodes: 0 },
        Expr::Name(_) => ONE_NAME,
        Expr::Monad(_, right) | Expr::Reduce(_, _, right) | Expr::Scan(_, _, right) => {
            room_for(right).and(ONE_NODE)
        }
        Expr::Dyad(_, sides) | Expr::Outer(_, sides) | Expr::Inner(_, _, sides) => {
            room_beside(sides).and(ONE_NODE)
        }
        Expr::Index(operand, positions) => {
            room_for(operand).and(room_within(positions)).and(ONE_NODE)
        }
    }
}

/// Returns the room of the two arguments of a function.
#[cycle(room)]
fn room_beside(sides: &Sides) -> Room {
    room_for(&sides.left).and(room_for(&sides.right))
}

/// Returns the room of the positions of an index.
#[cycle(room)]
fn room_within(positions: &[Option<Expr>]) -> Room {
    let mut room = Room { names: 0, nodes: 0 };
    for position in positions {
        if let Some(tree) = position {
            room = room.and(room_for(tree));
        }
    }
    room
}

/// Appends a name. Returns its operand.
#[inline(always)]
fn push_name(names: &mut Vec<Name>, name: Name) -> Result<Operand, AllocError>
    ensures { (nodes : List NodeOf) → IfOk result (λ operand. IsLowered names.old.items names.new.items nodes nodes (NameTree name) operand) }
{
    let place = names.len();
    names.push(name)?;
    Ok(Operand::Name(place))
}

/// Appends a node. Returns its operand.
fn push(nodes: &mut Vec<Kept>, node: Node) -> Result<Operand, AllocError>
    ensures nodes { OnOk result (nodes_of nodes.new.items ≡ nodes_of nodes.old.items ++ node ∷ []) }
    ensures place { IfOk result (λ operand. operand ≡ NodeAt (length (nodes_of nodes.old.items))) }
    ensures anew { OnOk result (AreNotWorkedOut nodes.old.items → AreNotWorkedOut nodes.new.items) }
{
    let place = nodes.len();
    nodes.push(Kept::new(node))?;
    Ok(Operand::Node(place))
}
