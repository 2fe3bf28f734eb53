//! The written forms of functions: a sign, a sign with an axis, a fold, a product. The longest match is the function, since no expression begins
//! with a sign that continues a function.

ghost use Rattle.std.specs.Prelude.{◌≡◌, ◌≤◌, length};
ghost use Rattle.apl_tokens.specs.Lexemes.{lexeme, lexemes};
ghost use Rattle.apl_expr.specs.Functions.{axis_in, product_in, fold_in, fold_along_in, monadic_along_in, dyadic_along_in, along_or_plain, function_at, function_from};

use crate::expr::{Dyadic, Monadic};
use crate::symbols::{
    dyadic_along_of, dyadic_of, folded_along_of, folded_of, inner_of, monadic_along_of, monadic_of,
    outer_of, stands_alone,
};
use apl_tokens::{Spanned, Token};
use function_names::{Along, Scalar2};

/// A function before its argument.
#[derive(Clone, Copy, Debug, PartialEq, Eq)]
pub enum Function1 {
    /// A function of one argument.
    Monad(Monadic),
    /// The reduction by a scalar function along an axis.
    Reduce(Scalar2, Along),
    /// The scan by a scalar function along an axis.
    Scan(Scalar2, Along),
}

/// A function between its arguments.
#[derive(Clone, Copy, Debug, PartialEq, Eq)]
pub enum Function2 {
    /// A function of two arguments.
    Dyad(Dyadic),
    /// The outer product by a scalar function.
    Outer(Scalar2),
    /// The inner product by two scalar functions.
    Inner(Scalar2, Scalar2),
}

/// A written function: its meaning with one argument and with two, and its length.
#[derive(Clone, Copy)]
pub(crate) struct Function {
    /// The function of one argument, if it is one.
    pub(crate) alone: Option<Function1>,
    /// The function of two arguments, if it is one.
    pub(crate) between: Option<Function2>,
    /// The number of its tokens after the first.
    pub(crate) more: usize,
}

/// Returns the axis at the front, `[ num ]`.
fn axis_in(tokens: &[Spanned]) -> Option<i64>
    ensures { result ≡ axis_in (lexemes tokens.now) }
{
    let [open, number, close, ..] = tokens else {
        return None;
    };
    match (&open.token, &number.token, &close.token) {
        (Token::Mark('['), Token::Num(axis), Token::Mark(']')) => Some(*axis),
        _ => None,
    }
}

/// Returns the product that begins with the sign, `∘ . f` or `f . g`.
fn product_in(sign: char, tokens: &[Spanned]) -> Option<Function2>
    ensures { result ≡ product_in sign (lexemes tokens.now) }
{
    let [dot, function, ..] = tokens else {
        return None;
    };
    match (&dot.token, &function.token) {
        (Token::Mark('.'), Token::Mark(second)) => {
            if sign == '∘' {
                outer_of(*second)
            } else {
                inner_of(sign, *second)
            }
        }
        _ => None,
    }
}

/// Returns the fold that begins with the sign.
fn fold_in(sign: char, tokens: &[Spanned]) -> Option<Function1>
    ensures { result ≡ fold_in sign (lexemes tokens.now) }
{
    let (folding, _) = tokens.split_first()?;
    match &folding.token {
        Token::Mark(mark) => folded_of(sign, *mark),
        _ => None,
    }
}

/// Returns the fold with an axis that begins with the sign.
fn fold_along_in(sign: char, tokens: &[Spanned]) -> Option<Function1>
    ensures { result ≡ fold_along_in sign (lexemes tokens.now) }
{
    let (folding, rest) = tokens.split_first()?;
    match &folding.token {
        Token::Mark(mark) => {
            let axis = axis_in(rest)?;
            folded_along_of(sign, *mark, axis)
        }
        _ => None,
    }
}

/// Returns the function of one argument with this sign and an axis after it.
fn monadic_along_in(sign: char, tokens: &[Spanned]) -> Option<Function1>
    ensures { result ≡ monadic_along_in sign (lexemes tokens.now) }
{
    let axis = axis_in(tokens)?;
    monadic_along_of(sign, axis)
}

/// Returns the function of two arguments with this sign and an axis after it.
fn dyadic_along_in(sign: char, tokens: &[Spanned]) -> Option<Function2>
    ensures { result ≡ dyadic_along_in sign (lexemes tokens.now) }
{
    let axis = axis_in(tokens)?;
    dyadic_along_of(sign, axis)
}

/// Returns the function that begins with the sign.
fn function_at(sign: char, tokens: &[Spanned]) -> Function
    ensures { result ≡ function_at sign (lexemes tokens.now) }
{
    if stands_alone(sign) {
        return Function {
            alone: None,
            between: None,
            more: 0,
        };
    }
    if let Some(product) = product_in(sign, tokens) {
        return Function {
            alone: None,
            between: Some(product),
            more: 2,
        };
    }
    if let Some(fold) = fold_along_in(sign, tokens) {
        return Function {
            alone: Some(fold),
            between: None,
            more: 4,
        };
    }
    if let Some(fold) = fold_in(sign, tokens) {
        return Function {
            alone: Some(fold),
            between: None,
            more: 1,
        };
    }
    along_or_plain(sign, tokens)
}

/// Returns the function of the sign with the axis after it if there is one, otherwise of the sign alone.
fn along_or_plain(sign: char, tokens: &[Spanned]) -> Function
    ensures { result ≡ along_or_plain sign (monadic_along_in sign (lexemes tokens.now)) (dyadic_along_in sign (lexemes tokens.now)) }
{
    let alone = monadic_along_in(sign, tokens);
    let between = dyadic_along_in(sign, tokens);
    if alone.is_some() || between.is_some() {
        Function {
            alone,
            between,
            more: 3,
        }
    } else {
        Function {
            alone: monadic_of(sign),
            between: dyadic_of(sign),
            more: 0,
        }
    }
}

/// Returns the function at the front. A token that is not a sign has none.
pub(crate) fn function_from(token: &Token, tokens: &[Spanned]) -> Function
    ensures is { result ≡ function_from (lexeme token.now) (lexemes tokens.now) }
    ensures short { result.more ≤ length tokens.now }
{
    match token {
        Token::Mark(sign) => function_at(*sign, tokens),
        _ => Function {
            alone: None,
            between: None,
            more: 0,
        },
    }
}
