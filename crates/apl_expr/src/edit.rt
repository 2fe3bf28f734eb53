//! Reads the edit of a cell, its positions and its literal after `NAME [`, and a literal without positions.

ghost use Rattle.std.specs.Prelude.{Some, []};
ghost use Rattle.apl_tokens.specs.Lexemes.{lexeme, lexemes};
ghost use Rattle.apl_expr.specs.Edits.{Open, Items, edit_of, edit_text, edit_sign, edit_step, edit_end, edits, EditSteps, EditGives, LiteralGives};

use crate::expr::Literal;
use crate::fault::ParseFault;
use crate::plain::{literal, text_literal};
use apl_tokens::{CellPositions, Spanned, Token};
use smallvec::SmallVec;
use std::alloc::Global;

/// The part read last, with the positions so far: `[` or `;`, a position, `]`, `←` and the numbers so far, or a text.
#[derive(Drop)]
enum Edit {
    Open(CellPositions),
    Position(CellPositions),
    Closed(CellPositions),
    Items(CellPositions, Vec<i64>),
    Quoted(CellPositions, Vec<char>),
}

/// Reads a text, which is legal right after `←`.
fn edit_text(alloc: Global, text: &[char], edit: Edit) -> Result<Edit, ParseFault>
    ensures { EditSteps result (edit_text text.now (edit_of edit)) }
{
    let Edit::Items(positions, numbers) = edit else {
        return Err(ParseFault::Syntax);
    };
    if numbers.is_empty() {
        Ok(Edit::Quoted(positions, text.to_vec(alloc)?))
    } else {
        Err(ParseFault::Syntax)
    }
}

/// Reads a sign.
fn edit_sign(alloc: Global, sign: char, edit: Edit) -> Result<Edit, ParseFault>
    ensures { EditSteps result (edit_sign sign (edit_of edit)) }
{
    match (edit, sign) {
        (Edit::Position(positions), ';') => Ok(Edit::Open(positions)),
        (Edit::Position(positions), ']') => Ok(Edit::Closed(positions)),
        (Edit::Closed(positions), '←') => Ok(Edit::Items(positions, Vec::new(alloc))),
        _ => Err(ParseFault::Syntax),
    }
}

/// Reads a token.
fn edit_step(alloc: Global, token: &Token, edit: Edit) -> Result<Edit, ParseFault>
    ensures { EditSteps result (edit_step (lexeme token.now) (edit_of edit)) }
{
    match (token, edit) {
        (Token::Num(n), Edit::Open(mut positions)) => {
            positions.push(*n)?;
            Ok(Edit::Position(positions))
        }
        (Token::Num(n), Edit::Items(positions, mut items)) => {
            items.push(*n)?;
            Ok(Edit::Items(positions, items))
        }
        (Token::Text(text), edit) => edit_text(alloc, text, edit),
        (Token::Mark(sign), edit) => edit_sign(alloc, *sign, edit),
        _ => Err(ParseFault::Syntax),
    }
}

/// Returns the positions and the literal at the end of the tokens.
fn edit_end(edit: Edit) -> Result<(CellPositions, Literal), ParseFault>
    ensures { EditGives result (edit_end (edit_of edit)) }
{
    match edit {
        Edit::Items(positions, items) => {
            if items.is_empty() {
                return Err(ParseFault::Syntax);
            }
            Ok((positions, literal(items)))
        }
        Edit::Quoted(positions, text) => Ok((positions, text_literal(text))),
        _ => Err(ParseFault::Syntax),
    }
}

/// Reads the remaining tokens, and returns the positions and the literal.
fn read_on(
    alloc: Global,
    before: Edit,
    tokens: &[Spanned],
) -> Result<(CellPositions, Literal), ParseFault>
    ensures { EditGives result (edits (lexemes tokens.now) (Some (edit_of before))) }
{
    let mut edit = before;
    for spanned in tokens {
        edit = edit_step(alloc, &spanned.token, edit)?;
    }
    edit_end(edit)
}

/// Reads the tokens after `NAME [`, and returns the positions and the literal.
pub(crate) fn edited(
    alloc: Global,
    tokens: &[Spanned],
) -> Result<(CellPositions, Literal), ParseFault>
    ensures { EditGives result (edits (lexemes tokens.now) (Some (Open []))) }
{
    read_on(alloc, Edit::Open(SmallVec::new(alloc)), tokens)
}

/// Returns the literal that the tokens are.
pub(crate) fn whole_literal(alloc: Global, tokens: &[Spanned]) -> Result<Literal, ParseFault>
    ensures { LiteralGives result (edits (lexemes tokens.now) (Some (Items [] []))) }
{
    let nothing_yet = Edit::Items(SmallVec::new(alloc), Vec::new(alloc));
    let (_, found) = read_on(alloc, nothing_yet, tokens)?;
    Ok(found)
}
