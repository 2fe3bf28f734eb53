//! The parser, which reads the tokens from left to right, once, one function at a time. A stack holds the functions and the brackets that wait
//! for a value.

ghost use Rattle.std.specs.Prelude.{◌≡◌, ◌≤◌, Some, List, [], ◌∷◌, ◌++◌, length, IfOk, IfSome, map, true};
ghost use Rattle.apl_tokens.specs.Lexemes.{Lexeme, Number, lexeme, lexemes};
ghost use Rattle.apl_expr.specs.Grammar.{IsWrittenOperand, IsTreeOf};
ghost use Rattle.apl_expr.specs.Limits.{most_height};
ghost use Rattle.apl_expr.specs.Machine.{first, settle, position_ended, closed, skipped, ends_position, first_of_position, after_operand, after_reference, read_token, finish, run, state, Index, Inside, Nothing, Position, Strand};
ghost use Rattle.apl_expr.specs.Parsing.{stack, reading_of, Settles, Steps, Gives, IsParsed};
ghost use Rattle.apl_expr.specs.Symbols.{indexed_of};
ghost use Rattle.apl_expr.specs.Trees.{is_plain_position, tree_of, position_of};

use crate::expr::{Expr, Literal};
use crate::fault::ParseFault;
use crate::functions::{Function, Function1, Function2, function_from};
use crate::limits::{MOST_HEIGHT, MOST_NODES, MOST_TOKENS};
use crate::plain::{OpenIndex, Plain, literal, text_literal};
use crate::symbols::dyadic_of;
use apl_tokens::{Spanned, Token};
use smallvec::SmallVec;
use std::alloc::{AllocError, Global};

/// An open bracket: a parenthesis, or the bracket of an index.
#[derive(Drop)]
enum Bracket {
    Parenthesis,
    Index(OpenIndex),
}

/// An entry of the stack, which waits for a value on its right: a function, or an open bracket.
#[derive(Drop)]
enum Waiting {
    Argument1(Function1),
    Argument2(Function2, Plain),
    Inside(Bracket),
}

/// A value after the functions that waited for it, and the bracket around it, if there is one.
#[derive(Drop)]
struct Settled {
    value: Plain,
    bracket: Option<Bracket>,
}

/// The part read last: a function, `(` or nothing; `[` or `;` of an index; a number, or several; an operand that no index may follow; or an
/// operand that an index may follow.
#[derive(Drop)]
enum Reading {
    Nothing,
    Position,
    Number(i64),
    Strand(Vec<i64>),
    Whole(Plain),
    Reference(Plain),
}

/// The inline capacity of the stack, which is enough for most expressions.
const FEW_WAITING: usize = 2;

/// The stack: its last entry takes the next value.
type Waitings = SmallVec<Waiting, FEW_WAITING>;

impl Default for Waiting {
    /// Returns an open parenthesis, for unused entries of the stack.
    fn default() -> Waiting {
        Waiting::Inside(Bracket::Parenthesis)
    }
}

/// Reads a token, or the function that it begins, at the start of an expression.
#[inline(always)]
fn first(
    alloc: Global,
    token: &Token,
    function: Function,
    waiting: &mut Waitings,
) -> Result<Reading, ParseFault>
    ensures { Steps result waiting.new.items (first (lexeme token.now) function (stack waiting.old.items)) }
{
    match token {
        Token::Num(n) => Ok(Reading::Number(*n)),
        Token::Text(characters) => {
            let characters = characters.to_vec(alloc)?;
            let literal = text_literal(characters);
            Ok(Reading::Whole(Plain::constant(literal)))
        }
        Token::Word(name) => Ok(Reading::Reference(Plain::name(*name))),
        Token::Mark(sign) => match function.alone {
            Some(function) => {
                waiting.push(Waiting::Argument1(function))?;
                Ok(Reading::Nothing)
            }
            None if *sign == '(' => {
                waiting.push(Waiting::Inside(Bracket::Parenthesis))?;
                Ok(Reading::Nothing)
            }
            None => Err(ParseFault::Syntax),
        },
    }
}

/// Pops the functions that wait for the value and the innermost open bracket, and applies the functions.
#[inline(always)]
fn settle(alloc: Global, value: Plain, waiting: &mut Waitings) -> Result<Settled, AllocError>
    ensures { IfOk result (λ s. Settles s waiting.new.items (settle (stack waiting.old.items) (tree_of value.expr))) }
{
    let mut value = value;
    while let Some(frame) = waiting.pop() {
        match frame {
            Waiting::Argument1(function) => value = Plain::monad(alloc, function, value)?,
            Waiting::Argument2(function, left) => {
                value = Plain::dyad(alloc, function, left, value)?;
            }
            Waiting::Inside(bracket) => {
                return Ok(Settled {
                    value,
                    bracket: Some(bracket),
                });
            }
        }
    }
    Ok(Settled {
        value,
        bracket: None,
    })
}

/// Ends a position by `;`, so that the index waits for its next position.
fn next_position(
    index: OpenIndex,
    position: Option<Expr>,
    waiting: &mut Waitings,
) -> Result<Reading, ParseFault>
    requires { is_plain_position position ≡ true }
    ensures { Steps result waiting.new.items (Some (state (Inside (Index (tree_of index.operand) (map position_of index.positions.items ++ position_of position ∷ [])) ∷ stack waiting.old.items) Position)) }
{
    let index = index.with(position)?;
    waiting.push(Waiting::Inside(Bracket::Index(index)))?;
    Ok(Reading::Position)
}

/// Returns the finished index, after `]`.
#[tactic(auto, using(crate::proofs::Rows::plain_index))]
fn index_closed(
    alloc: Global,
    index: OpenIndex,
    position: Option<Expr>,
) -> Result<Plain, AllocError>
    requires { is_plain_position position ≡ true }
    ensures { IfOk result (λ e. indexed_of (tree_of index.operand) (map position_of index.positions.items ++ position_of position ∷ []) ≡ Some (tree_of e.expr)) }
{
    let whole = index.with(position)?;
    let operand = Box::new(alloc, whole.operand)?;
    let expr = Expr::Index(operand, whole.positions);
    Ok(Plain { expr })
}

/// Ends a position of an index, by `;` or by `]`.
fn position_ended(
    alloc: Global,
    sign: char,
    index: OpenIndex,
    position: Option<Expr>,
    waiting: &mut Waitings,
) -> Result<Reading, ParseFault>
    requires { is_plain_position position ≡ true }
    ensures { Steps result waiting.new.items (position_ended sign (tree_of index.operand) (map position_of index.positions.items) (position_of position) (stack waiting.old.items)) }
{
    match sign {
        ';' => next_position(index, position, waiting),
        ']' => {
            let index = index_closed(alloc, index, position)?;
            Ok(Reading::Reference(index))
        }
        _ => Err(ParseFault::Syntax),
    }
}

/// Reads a closing sign after an operand: it closes a bracket, or ends a position in it.
fn closed(
    alloc: Global,
    sign: char,
    operand: Plain,
    waiting: &mut Waitings,
) -> Result<Reading, ParseFault>
    ensures { Steps result waiting.new.items (closed sign (settle (stack waiting.old.items) (tree_of operand.expr))) }
{
    let Settled { value, bracket } = settle(alloc, operand, waiting)?;
    match bracket {
        Some(Bracket::Parenthesis) if sign == ')' => Ok(Reading::Reference(value)),
        Some(Bracket::Index(index)) => {
            position_ended(alloc, sign, index, Some(value.expr), waiting)
        }
        _ => Err(ParseFault::Syntax),
    }
}

/// Ends an empty position.
fn skipped(alloc: Global, sign: char, waiting: &mut Waitings) -> Result<Reading, ParseFault>
    ensures { Steps result waiting.new.items (skipped sign (stack waiting.old.items)) }
{
    match waiting.pop() {
        Some(Waiting::Inside(Bracket::Index(index))) => {
            position_ended(alloc, sign, index, None, waiting)
        }
        _ => Err(ParseFault::Syntax),
    }
}

/// Returns true if the sign ends a position of an index.
fn ends_position(sign: char) -> bool
    ensures { result ≡ ends_position sign }
{
    sign == ';' || sign == ']'
}

/// Reads a token, or the function that it begins, at the start of a position of an index.
#[inline(always)]
fn first_of_position(
    alloc: Global,
    token: &Token,
    function: Function,
    waiting: &mut Waitings,
) -> Result<Reading, ParseFault>
    ensures { Steps result waiting.new.items (first_of_position (lexeme token.now) function (stack waiting.old.items)) }
{
    match token {
        Token::Mark(sign) if ends_position(*sign) => skipped(alloc, *sign, waiting),
        _ => first(alloc, token, function, waiting),
    }
}

/// Reads a token, or the function that it begins, after an operand.
#[inline(always)]
fn after_operand(
    alloc: Global,
    token: &Token,
    function: Function,
    operand: Plain,
    waiting: &mut Waitings,
) -> Result<Reading, ParseFault>
    ensures { Steps result waiting.new.items (after_operand (lexeme token.now) function (stack waiting.old.items) (tree_of operand.expr)) }
{
    let Token::Mark(sign) = token else {
        return Err(ParseFault::Syntax);
    };
    match function.between {
        Some(function) => {
            waiting.push(Waiting::Argument2(function, operand))?;
            Ok(Reading::Nothing)
        }
        None => closed(alloc, *sign, operand, waiting),
    }
}

/// Reads a token, or the function that it begins, after an operand that an index may follow.
#[inline(always)]
fn after_reference(
    alloc: Global,
    token: &Token,
    function: Function,
    operand: Plain,
    waiting: &mut Waitings,
) -> Result<Reading, ParseFault>
    ensures { Steps result waiting.new.items (after_reference (lexeme token.now) function (stack waiting.old.items) (tree_of operand.expr)) }
{
    match token {
        Token::Mark('[') => {
            let index = OpenIndex {
                operand: operand.expr,
                positions: Vec::new(alloc),
            };
            waiting.push(Waiting::Inside(Bracket::Index(index)))?;
            Ok(Reading::Position)
        }
        _ => after_operand(alloc, token, function, operand, waiting),
    }
}

/// Begins a vector literal, of which two numbers are read.
fn strand(alloc: Global, first: i64, second: i64) -> Result<Reading, ParseFault>
    ensures { (ws : List Waiting) → Steps result ws (Some (state (stack ws) (Strand (first ∷ second ∷ [])))) }
{
    let mut numbers = Vec::new(alloc);
    numbers.push(first)?;
    numbers.push(second)?;
    Ok(Reading::Strand(numbers))
}

/// Reads a token, or the function that it begins.
#[inline(always)]
fn read_token(
    alloc: Global,
    token: &Token,
    function: Function,
    reading: Reading,
    waiting: &mut Waitings,
) -> Result<Reading, ParseFault>
    ensures { Steps result waiting.new.items (read_token (lexeme token.now) function (stack waiting.old.items) (reading_of reading)) }
{
    match reading {
        Reading::Nothing => first(alloc, token, function, waiting),
        Reading::Position => first_of_position(alloc, token, function, waiting),
        Reading::Number(number) => match token {
            Token::Num(n) => strand(alloc, number, *n),
            _ => {
                let literal = Plain::constant(Literal::Num(number));
                after_operand(alloc, token, function, literal, waiting)
            }
        },
        Reading::Strand(mut numbers) => match token {
            Token::Num(n) => {
                numbers.push(*n)?;
                Ok(Reading::Strand(numbers))
            }
            _ => {
                let literal = Plain::constant(literal(numbers));
                after_operand(alloc, token, function, literal, waiting)
            }
        },
        Reading::Whole(operand) => after_operand(alloc, token, function, operand, waiting),
        Reading::Reference(operand) => after_reference(alloc, token, function, operand, waiting),
    }
}

/// Returns the tree at the end of the tokens.
fn finish(alloc: Global, reading: Reading, waiting: &mut Waitings) -> Result<Plain, ParseFault>
    ensures { Gives result (finish (stack waiting.old.items) (reading_of reading)) }
{
    let operand = match reading {
        Reading::Nothing | Reading::Position => return Err(ParseFault::Syntax),
        Reading::Number(number) => Plain::constant(Literal::Num(number)),
        Reading::Strand(numbers) => Plain::constant(literal(numbers)),
        Reading::Whole(operand) | Reading::Reference(operand) => operand,
    };
    let whole = settle(alloc, operand, waiting)?;
    match whole.bracket {
        None => Ok(whole.value),
        Some(_) => Err(ParseFault::Syntax),
    }
}

/// Returns the tree of the tokens, of any size.
fn tree(alloc: Global, tokens: &[Spanned]) -> Result<Plain, ParseFault>
    ensures { Gives result (run 0 (lexemes tokens.now) (Some (state [] Nothing))) }
{
    let mut waiting: Waitings = SmallVec::new(alloc);
    let mut reading = Reading::Nothing;
    let mut rest = tokens;
    while let Some((first, after)) = rest.split_first() {
        let function = function_from(&first.token, after);
        reading = read_token(alloc, &first.token, function, reading, &mut waiting)?;
        rest = &after[function.more..];
    }
    finish(alloc, reading, &mut waiting)
}

/// Returns an operand of one token, a number or a name.
#[inline(always)]
fn leaf(token: &Token) -> Option<Plain>
    ensures { IfSome result (λ e. (ts : List Lexeme) → IsWrittenOperand (lexeme token.now ∷ ts) (tree_of e.expr) ts) }
{
    match token {
        Token::Num(number) => Some(Plain::constant(Literal::Num(*number))),
        Token::Word(name) => Some(Plain::name(*name)),
        _ => None,
    }
}

/// Returns the numbers if each token is one.
fn numbers(alloc: Global, tokens: &[Spanned]) -> Result<Option<Vec<i64>>, AllocError>
    ensures { IfOk result (λ found. IfSome found (λ v. lexemes tokens.now ≡ map (λ z. Number z) v.items)) }
{
    let mut numbers = Vec::with_capacity(alloc, tokens.len())?;
    for spanned in tokens {
        match &spanned.token {
            Token::Num(number) => numbers.push(*number)?,
            _ => return Ok(None),
        }
    }
    Ok(Some(numbers))
}

/// Returns the operand that all the tokens are: a number, a name, or adjacent numbers. Leaves any other operand to the general parser.
#[inline(always)]
fn operand(alloc: Global, tokens: &[Spanned]) -> Result<Option<Plain>, AllocError>
    ensures { IfOk result (λ found. IfSome found (λ e. IsWrittenOperand (lexemes tokens.now) (tree_of e.expr) [])) }
{
    let Some((first, after)) = tokens.split_first() else {
        return Ok(None);
    };
    let Some((second, _)) = after.split_first() else {
        return Ok(leaf(&first.token));
    };
    let (Token::Num(_), Token::Num(_)) = (&first.token, &second.token) else {
        return Ok(None);
    };
    match numbers(alloc, tokens)? {
        Some(numbers) => Ok(Some(Plain::constant(literal(numbers)))),
        None => Ok(None),
    }
}

/// Parses the most common expression: a function between a number or a name and an operand. Returns `None` for any other, and for more tokens
/// than a tree may be high.
#[inline(always)]
fn pair(alloc: Global, tokens: &[Spanned]) -> Result<Option<Plain>, AllocError>
    ensures short { IfOk result (λ found. IfSome found (λ e. length tokens.now ≤ most_height)) }
    ensures tree { IfOk result (λ found. IfSome found (λ e. IsTreeOf (lexemes tokens.now) (tree_of e.expr))) }
{
    if tokens.len() > MOST_HEIGHT as usize {
        return Ok(None);
    }
    let Some((first, after)) = tokens.split_first() else {
        return Ok(None);
    };
    let Some((second, rest)) = after.split_first() else {
        return Ok(None);
    };
    let Token::Mark(sign) = &second.token else {
        return Ok(None);
    };
    let Some(function) = dyadic_of(*sign) else {
        return Ok(None);
    };
    let Some(left) = leaf(&first.token) else {
        return Ok(None);
    };
    let Some(right) = operand(alloc, rest)? else {
        return Ok(None);
    };
    Ok(Some(Plain::dyad(alloc, function, left, right)?))
}

/// Parses any expression, with the result that `parse` has.
fn parse_any(alloc: Global, tokens: &[Spanned]) -> Result<Expr, ParseFault>
    ensures { IsParsed (lexemes tokens.now) result }
{
    if tokens.len() > MOST_TOKENS {
        return Err(ParseFault::Limit);
    }
    let plain = tree(alloc, tokens)?;
    // No tree has more nodes than tokens.
    if tokens.len() <= MOST_HEIGHT as usize {
        return Ok(plain.expr);
    }
    if !plain.expr.is_within_height(MOST_HEIGHT) {
        drop_in_turn(plain.expr);
        return Err(ParseFault::Limit);
    }
    if !plain.expr.is_within_nodes(MOST_NODES) {
        return Err(ParseFault::Limit);
    }
    Ok(plain.expr)
}

/// Drops a tree of any height. A loop follows the right arguments, so that a long chain of functions takes no stack. Left arguments and indexes
/// are dropped by recursion.
fn drop_in_turn(tree: Expr) {
    let mut rest = tree;
    for _ in 0..MOST_TOKENS {
        rest = match rest {
            Expr::Monad(_, right) | Expr::Reduce(_, _, right) | Expr::Scan(_, _, right) => {
                Box::into_inner(right)
            }
            Expr::Dyad(_, sides) | Expr::Outer(_, sides) | Expr::Inner(_, _, sides) => {
                let sides = Box::into_inner(sides);
                sides.right
            }
            last => last,
        };
    }
}

/// Returns the tree of the tokens, an expression of ISO 8485.
///
/// Returns `Limit` for more than 4,096 tokens; then `Syntax` for tokens that are not an expression; then `Limit` for a tree more than 256 high
/// or of more than 512 nodes. A leaf is 1 high; a list of numbers and an index are one node each; parentheses and an empty position are none.
/// One number is `Literal::Num`, never `Literal::Nums`, and one character is `Literal::Char`, never `Literal::Text`.
pub fn parse(alloc: Global, tokens: &[Spanned]) -> Result<Expr, ParseFault>
    ensures { IsParsed (lexemes tokens.now) result }
{
    match pair(alloc, tokens) {
        Ok(Some(plain)) => Ok(plain.expr),
        Ok(None) => parse_any(alloc, tokens),
        Err(AllocError) => Err(ParseFault::NoMemory),
    }
}
