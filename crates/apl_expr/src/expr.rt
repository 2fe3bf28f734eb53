//! Expressions as trees.

use function_names::{Along, Scalar1, Scalar2};
use names::Name;

/// The functions of one argument, by their names in ISO/IEC 13751.
#[derive(Clone, Copy, Debug, PartialEq, Eq)]
pub enum Monadic {
    /// A scalar function.
    Scalar(Scalar1),
    /// `,B`: the items of B as a vector.
    Ravel,
    /// `⌽B` and `⊖B`: an axis in reverse order.
    Reverse(Along),
    /// `⍉B`: the axes in reverse order.
    Transpose,
    /// `⍴B`: the lengths of the axes of B.
    Shape,
    /// `⍳B`: the whole numbers from 1 to B.
    Iota,
}

/// The functions of two arguments, by their names in ISO/IEC 13751.
#[derive(Clone, Copy, Debug, PartialEq, Eq)]
pub enum Dyadic {
    /// A scalar function.
    Scalar(Scalar2),
    /// `A⍴B`: an array of shape A with the items of B.
    Reshape,
    /// `A,B` and `A⍪B`: A and B joined along an axis.
    Catenate(Along),
    /// `A↑B`: the first or last A places of each axis of B, with fill.
    Take,
    /// `A↓B`: B without its first or last A places of each axis.
    Drop,
    /// `A⌽B` and `A⊖B`: each line of an axis rotated by A places.
    Rotate(Along),
    /// `A⍉B`: the axes of B permuted by A.
    Transpose,
    /// `A/B` and `A⌿B`: each place of an axis of B repeated as often as A says.
    Replicate(Along),
    /// `A⍳B`: the index in A of the first item equal to each item of B.
    IndexOf,
    /// `A∊B`: 1 for each item of A that is an item of B, and 0 for each other.
    Member,
    /// `A⊤B`: the digits of B to the radices A.
    Encode,
    /// `A⊥B`: the value of the digits B to the radices A.
    Decode,
}

/// A literal of ISO 8485: adjacent numbers, or a text.
#[derive(Debug, Drop)]
pub enum Literal {
    /// One number: a scalar.
    Num(i64),
    /// Several numbers: a vector.
    Nums(Vec<i64>),
    /// A text of one character: a scalar.
    Char(char),
    /// A text of no or several characters: a vector.
    Text(Vec<char>),
}

/// The arguments of a function of two arguments.
#[cycle(expr)]
#[derive(Debug, Drop)]
pub struct Sides {
    /// The left argument, an operand.
    pub left: Expr,
    /// The right argument.
    pub right: Expr,
}

/// An expression as a tree. The right argument of a function is everything to its right; parentheses leave no node.
#[cycle(expr)]
#[derive(Debug, Drop)]
pub enum Expr {
    /// A literal.
    Const(Literal),
    /// A name.
    Name(Name),
    /// A function with its right argument.
    Monad(Monadic, Box<Expr>),
    /// A function with its left argument, an operand, and its right argument, both in one box.
    Dyad(Dyadic, Box<Sides>),
    /// `A[I;..]`: an operand and the positions of its index, of which some may be empty.
    Index(Box<Expr>, Vec<Option<Expr>>),
    /// Reduction, `f/B` and `f⌿B`: the scalar function between the items of each line of an axis, from the right.
    Reduce(Scalar2, Along, Box<Expr>),
    /// Scan, `f\B` and `f⍀B`: for each place of an axis the reduction of its line up to that place.
    Scan(Scalar2, Along, Box<Expr>),
    /// Outer product, `A∘.fB`: the scalar function of each item of A with each item of B.
    Outer(Scalar2, Box<Sides>),
    /// Inner product, `A f.g B`: the reduction by `f` of `g` between each line of the last axis of A and each line of the first axis of B.
    Inner(Scalar2, Scalar2, Box<Sides>),
}
