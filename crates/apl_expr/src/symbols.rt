//! The function of each sign, alone and with other signs.

ghost use Rattle.std.specs.Prelude.{◌≡◌};
ghost use Rattle.apl_expr.specs.Symbols.{scalar_monad_of, scalar_dyad_of, array_monad, array_dyad, monadic_of, monadic_along_of, folding_of, folding_along_of, folded_of, folded_along_of, dyadic_of, dyadic_along_of, outer_of, inner_of, stands_alone};

use crate::expr::{Dyadic, Monadic};
use crate::functions::{Function1, Function2};
use function_names::{Along, Scalar1, Scalar2};

/// Returns the scalar function of one argument with this sign.
#[tactic(auto, unfolding(crate::specs::Symbols::scalar_monad_of))]
fn scalar_monad_of(sign: char) -> Option<Scalar1>
    ensures { result ≡ scalar_monad_of sign }
{
    match sign {
        '+' => Some(Scalar1::Conjugate),
        '-' => Some(Scalar1::Negative),
        '×' => Some(Scalar1::Direction),
        '÷' => Some(Scalar1::Reciprocal),
        '|' => Some(Scalar1::Magnitude),
        '⌈' => Some(Scalar1::Ceiling),
        '⌊' => Some(Scalar1::Floor),
        '~' => Some(Scalar1::Not),
        _ => None,
    }
}

/// Returns the scalar function of two arguments with this sign.
#[tactic(auto, unfolding(crate::specs::Symbols::scalar_dyad_of))]
fn scalar_dyad_of(sign: char) -> Option<Scalar2>
    ensures { result ≡ scalar_dyad_of sign }
{
    match sign {
        '+' => Some(Scalar2::Plus),
        '-' => Some(Scalar2::Minus),
        '×' => Some(Scalar2::Times),
        '÷' => Some(Scalar2::Divide),
        '*' => Some(Scalar2::Power),
        '|' => Some(Scalar2::Residue),
        '⌈' => Some(Scalar2::Maximum),
        '⌊' => Some(Scalar2::Minimum),
        '<' => Some(Scalar2::Less),
        '≤' => Some(Scalar2::LessOrEqual),
        '=' => Some(Scalar2::Equal),
        '≥' => Some(Scalar2::GreaterOrEqual),
        '>' => Some(Scalar2::Greater),
        '≠' => Some(Scalar2::NotEqual),
        '∧' => Some(Scalar2::And),
        '∨' => Some(Scalar2::Or),
        '⍲' => Some(Scalar2::Nand),
        '⍱' => Some(Scalar2::Nor),
        _ => None,
    }
}

/// Returns the function of one argument with this sign that is not a scalar function.
#[tactic(auto, unfolding(crate::specs::Symbols::array_monad))]
fn array_monad(sign: char) -> Option<Monadic>
    ensures { result ≡ array_monad sign }
{
    match sign {
        ',' => Some(Monadic::Ravel),
        '⌽' => Some(Monadic::Reverse(Along::Last)),
        '⊖' => Some(Monadic::Reverse(Along::First)),
        '⍉' => Some(Monadic::Transpose),
        '⍴' => Some(Monadic::Shape),
        '⍳' => Some(Monadic::Iota),
        _ => None,
    }
}

/// Returns the function of two arguments with this sign that is not a scalar function.
#[tactic(auto, unfolding(crate::specs::Symbols::array_dyad))]
fn array_dyad(sign: char) -> Option<Dyadic>
    ensures { result ≡ array_dyad sign }
{
    match sign {
        '⍴' => Some(Dyadic::Reshape),
        ',' => Some(Dyadic::Catenate(Along::Last)),
        '⍪' => Some(Dyadic::Catenate(Along::First)),
        '↑' => Some(Dyadic::Take),
        '↓' => Some(Dyadic::Drop),
        '⌽' => Some(Dyadic::Rotate(Along::Last)),
        '⊖' => Some(Dyadic::Rotate(Along::First)),
        '⍉' => Some(Dyadic::Transpose),
        '/' => Some(Dyadic::Replicate(Along::Last)),
        '⌿' => Some(Dyadic::Replicate(Along::First)),
        '⍳' => Some(Dyadic::IndexOf),
        '∊' => Some(Dyadic::Member),
        '⊤' => Some(Dyadic::Encode),
        '⊥' => Some(Dyadic::Decode),
        _ => None,
    }
}

/// Returns the function of one argument with this sign.
pub(crate) fn monadic_of(sign: char) -> Option<Function1>
    ensures { result ≡ monadic_of sign }
{
    match scalar_monad_of(sign) {
        Some(function) => Some(Function1::Monad(Monadic::Scalar(function))),
        None => Some(Function1::Monad(array_monad(sign)?)),
    }
}

/// Returns the function of two arguments with this sign.
pub(crate) fn dyadic_of(sign: char) -> Option<Function2>
    ensures { result ≡ dyadic_of sign }
{
    match scalar_dyad_of(sign) {
        Some(function) => Some(Function2::Dyad(Dyadic::Scalar(function))),
        None => Some(Function2::Dyad(array_dyad(sign)?)),
    }
}

/// Returns the function of one argument with this sign and an axis after it.
#[tactic(auto, unfolding(crate::specs::Symbols::monadic_along_of))]
pub(crate) fn monadic_along_of(sign: char, axis: i64) -> Option<Function1>
    ensures { result ≡ monadic_along_of sign axis }
{
    match sign {
        '⌽' | '⊖' => Some(Function1::Monad(Monadic::Reverse(Along::Axis(axis)))),
        _ => None,
    }
}

/// Returns the function of two arguments with this sign and an axis after it.
#[tactic(auto, unfolding(crate::specs::Symbols::dyadic_along_of))]
pub(crate) fn dyadic_along_of(sign: char, axis: i64) -> Option<Function2>
    ensures { result ≡ dyadic_along_of sign axis }
{
    match sign {
        ',' | '⍪' => Some(Function2::Dyad(Dyadic::Catenate(Along::Axis(axis)))),
        '⌽' | '⊖' => Some(Function2::Dyad(Dyadic::Rotate(Along::Axis(axis)))),
        '/' | '⌿' => Some(Function2::Dyad(Dyadic::Replicate(Along::Axis(axis)))),
        _ => None,
    }
}

/// Returns the reduction or the scan by a scalar function.
#[tactic(auto, unfolding(crate::specs::Symbols::folding_of))]
fn folding_of(function: Scalar2, folding: char) -> Option<Function1>
    ensures { result ≡ folding_of function folding }
{
    match folding {
        '/' => Some(Function1::Reduce(function, Along::Last)),
        '⌿' => Some(Function1::Reduce(function, Along::First)),
        '\\' => Some(Function1::Scan(function, Along::Last)),
        '⍀' => Some(Function1::Scan(function, Along::First)),
        _ => None,
    }
}

/// Returns the reduction or the scan by a scalar function along a written axis.
#[tactic(auto, unfolding(crate::specs::Symbols::folding_along_of))]
fn folding_along_of(function: Scalar2, folding: char, axis: i64) -> Option<Function1>
    ensures { result ≡ folding_along_of function folding axis }
{
    match folding {
        '/' | '⌿' => Some(Function1::Reduce(function, Along::Axis(axis))),
        '\\' | '⍀' => Some(Function1::Scan(function, Along::Axis(axis))),
        _ => None,
    }
}

/// Returns the reduction or the scan with these two signs.
pub(crate) fn folded_of(function: char, folding: char) -> Option<Function1>
    ensures { result ≡ folded_of function folding }
{
    folding_of(scalar_dyad_of(function)?, folding)
}

/// Returns the reduction or the scan with these two signs, along a written axis.
pub(crate) fn folded_along_of(function: char, folding: char, axis: i64) -> Option<Function1>
    ensures { result ≡ folded_along_of function folding axis }
{
    folding_along_of(scalar_dyad_of(function)?, folding, axis)
}

/// Returns the outer product by the scalar function after `∘.`.
pub(crate) fn outer_of(function: char) -> Option<Function2>
    ensures { result ≡ outer_of function }
{
    Some(Function2::Outer(scalar_dyad_of(function)?))
}

/// Returns the inner product by the scalar functions before and after a dot.
pub(crate) fn inner_of(first: char, second: char) -> Option<Function2>
    ensures { result ≡ inner_of first second }
{
    let first = scalar_dyad_of(first)?;
    Some(Function2::Inner(first, scalar_dyad_of(second)?))
}

/// Returns true if the sign is part of no function.
pub(crate) fn stands_alone(sign: char) -> bool
    ensures { result ≡ stands_alone sign }
{
    sign == '(' || sign == ')' || sign == '[' || sign == ']' || sign == ';' || sign == '←'
}
