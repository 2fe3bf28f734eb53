//! Literals as the parser makes them: one number is a scalar, never a vector, and so is one character.

ghost use Rattle.std.specs.Prelude.{◌≡◌, [], ◌∷◌, ◌++◌, IfOk, true};
ghost use Rattle.apl_expr.specs.Trees.{Numbers, Text, Const, Name as Named, before_argument, between_arguments, literal_of, tree_of, is_plain, is_plain_expr, is_plain_position, are_plain};

use crate::expr::{Expr, Literal, Sides};
use crate::functions::{Function1, Function2};
use names::Name;
use std::alloc::{AllocError, Global};

/// Returns the literal of these numbers: one number is a scalar.
pub(crate) fn literal(numbers: Vec<i64>) -> Literal
    ensures numbers { literal_of result ≡ Numbers numbers.items }
    ensures plain { is_plain result ≡ true }
{
    match numbers.as_slice() {
        [number] => Literal::Num(*number),
        _ => Literal::Nums(numbers),
    }
}

/// Returns the literal of a text: one character is a scalar.
pub(crate) fn text_literal(characters: Vec<char>) -> Literal
    ensures characters { literal_of result ≡ Text characters.items }
    ensures plain { is_plain result ≡ true }
{
    match characters.as_slice() {
        [character] => Literal::Char(*character),
        _ => Literal::Text(characters),
    }
}

/// An expression in which each literal of one number or one character is a scalar.
#[derive(Drop)]
pub(crate) struct Plain {
    pub(crate) expr: Expr,
    ghost plain: { is_plain_expr expr ≡ true },
}

impl Plain {
    /// Makes a literal.
    pub(crate) fn constant(literal: Literal) -> Plain
        requires { is_plain literal ≡ true }
        ensures { tree_of result.expr ≡ Const (literal_of literal) }
    {
        let expr = Expr::Const(literal);
        Plain { expr }
    }

    /// Makes a name.
    pub(crate) fn name(name: Name) -> Plain
        ensures { tree_of result.expr ≡ Named name }
    {
        let expr = Expr::Name(name);
        Plain { expr }
    }

    /// Applies a function to its right argument.
    #[inline(always)]
    pub(crate) fn monad(
        alloc: Global,
        function: Function1,
        right: Plain,
    ) -> Result<Plain, AllocError>
        ensures { IfOk result (λ e. tree_of e.expr ≡ before_argument function (tree_of right.expr)) }
    {
        let Plain { expr } = right;
        let right = Box::new(alloc, expr)?;
        let expr = match function {
            Function1::Monad(function) => Expr::Monad(function, right),
            Function1::Reduce(function, along) => Expr::Reduce(function, along, right),
            Function1::Scan(function, along) => Expr::Scan(function, along, right),
        };
        Ok(Plain { expr })
    }

    /// Applies a function to its left and its right argument.
    #[inline(always)]
    pub(crate) fn dyad(
        alloc: Global,
        function: Function2,
        left: Plain,
        right: Plain,
    ) -> Result<Plain, AllocError>
        ensures { IfOk result (λ e. tree_of e.expr ≡ between_arguments function (tree_of left.expr) (tree_of right.expr)) }
    {
        let (Plain { expr: left }, Plain { expr: right }) = (left, right);
        let sides = Box::new(alloc, Sides { left, right })?;
        let expr = match function {
            Function2::Dyad(function) => Expr::Dyad(function, sides),
            Function2::Outer(function) => Expr::Outer(function, sides),
            Function2::Inner(fold, each) => Expr::Inner(fold, each, sides),
        };
        Ok(Plain { expr })
    }
}

/// An index whose bracket is open: its operand, and the positions read so far.
#[derive(Drop)]
pub(crate) struct OpenIndex {
    pub(crate) operand: Expr,
    pub(crate) positions: Vec<Option<Expr>>,
    ghost plain_operand: { is_plain_expr operand ≡ true },
    ghost plain_positions: { are_plain positions.items ≡ true },
}

impl OpenIndex {
    /// Appends a position.
    #[tactic(auto, using(crate::proofs::Rows::plain_more))]
    pub(crate) fn with(self, position: Option<Expr>) -> Result<OpenIndex, AllocError>
        requires { is_plain_position position ≡ true }
        ensures operand { IfOk result (λ index. index.operand ≡ self.operand) }
        ensures positions { IfOk result (λ index. index.positions.items ≡ self.positions.items ++ position ∷ []) }
    {
        let OpenIndex {
            operand,
            mut positions,
        } = self;
        positions.push(position)?;
        Ok(OpenIndex { operand, positions })
    }
}
