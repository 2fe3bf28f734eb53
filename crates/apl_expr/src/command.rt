//! The command of each line.

ghost use Rattle.std.specs.Prelude.{◌≡◌, true, ◌+◌, ◌<◌, ◌≤◌, ◌∷◌, ℕ, List, length, None, Some, Ok, MatchOption};
ghost use Rattle.std.specs.Str.{chars};
ghost use Rattle.apl_tokens.specs.Lexemes.{lexemes, Named, Sign};
ghost use Rattle.apl_tokens.specs.NumberEdits.{IsNumberEdit, IsNumberRow, AreSeveral, row_numbers_of};
ghost use Rattle.apl_tokens.specs.Signs.{left_arrow, right_parenthesis, left_bracket};
ghost use Rattle.apl_expr.specs.Limits.{most_tokens};
ghost use Rattle.apl_expr.specs.Trees.{Numbers, literal_of, is_plain};
ghost use Rattle.apl_expr.specs.Lines.{data_word, row_word, erase_word, names_word, cost_word, csv_word, open_word, step_word, commit_word, drop_word, IsCommand};
ghost use Rattle.apl_expr.specs.Fronts.{name_before, name_first, only_name, number_first, only_number, command_word};
ghost use Rattle.apl_expr.specs.Changes.{IsNoChange, IsChangeOf, IsChangeIn};
ghost use Rattle.apl_expr.specs.Answers.{IsAnswered, put_in};

use crate::edit::{edited, whole_literal};
use crate::expr::{Expr, Literal};
use crate::fault::{LineFault, ParseFault};
use crate::limits::MOST_TOKENS;
use crate::parser::parse;
use apl_tokens::{
    CellPositions, NumberEdit, NumberRow, RowNumbers, Spanned, Token, TokenFault, number_edit,
    number_row, tokens_into,
};
use names::Name;
use std::alloc::Global;

/// The number of tokens before the numbers of a row: `)`, `ROW` and the name.
const TOKENS_BEFORE_A_ROW: usize = 3;

/// A change of the sheet.
#[derive(Debug, Drop)]
pub enum Change {
    /// `NAME ← expr`: defines the name by the formula.
    Define(Name, Expr),
    /// `) DATA NAME ← expr`: sets the name to the current value of the expression.
    Data(Name, Expr),
    /// `NAME [ positions ] ← literal`: replaces the item at the positions by the literal's item.
    Cell(Name, CellPositions, Literal),
    /// `) ROW NAME literal`: appends the literal's items to the name's array, as one more place of its first axis.
    Row(Name, Literal),
    /// `) ERASE NAME`: removes the name.
    Erase(Name),
}

/// The command of a line.
#[derive(Debug, Drop)]
pub enum Command {
    /// A line without tokens.
    Nothing,
    /// A change of the sheet.
    Change(Change),
    /// `expr`: shows the value of the expression.
    Show(Expr),
    /// `) NAMES`: lists the names.
    Names,
    /// `) COST`: shows the cost of the last accepted change.
    Cost,
    /// `) CSV NAME`: writes the name's value as a table.
    Csv(Name),
    /// `) OPEN num change`: opens the change in the slot with this number, to be committed later.
    Open(i64, Box<Change>),
    /// `) STEP num`: advances the open change in the slot by one step.
    Step(i64),
    /// `) COMMIT num`: commits the open change in the slot.
    Commit(i64),
    /// `) DROP num`: drops the open change in the slot.
    Drop(i64),
}

/// The name or the word at the front of a line, and the tokens after that part.
#[derive(Clone, Copy)]
struct Front<'a> {
    name: Name,
    rest: &'a [Spanned],
}

/// Returns the name at the front, if the sign follows it, and the tokens after the sign.
fn name_before(tokens: &[Spanned], sign: char) -> Option<Front<'_>>
    ensures { MatchOption result (name_before sign (lexemes tokens.now) ≡ None) (λ front. name_before sign (lexemes tokens.now) ≡ Some (front.name, lexemes front.rest.now)) }
{
    let [first, second, rest @ ..] = tokens else {
        return None;
    };
    match (&first.token, &second.token) {
        (Token::Word(name), Token::Mark(mark)) if *mark == sign => Some(Front {
            name: *name,
            rest,
        }),
        _ => None,
    }
}

/// Returns the name at the front, and the tokens after it.
fn name_first(tokens: &[Spanned]) -> Option<Front<'_>>
    ensures { MatchOption result (name_first (lexemes tokens.now) ≡ None) (λ front. name_first (lexemes tokens.now) ≡ Some (front.name, lexemes front.rest.now)) }
{
    let (first, rest) = tokens.split_first()?;
    match &first.token {
        Token::Word(name) => Some(Front { name: *name, rest }),
        _ => None,
    }
}

/// Returns the name, if it is the only token.
fn only_name(tokens: &[Spanned]) -> Option<Name>
    ensures { MatchOption result (only_name (lexemes tokens.now) ≡ None) (λ x. only_name (lexemes tokens.now) ≡ Some x) }
{
    let [only] = tokens else {
        return None;
    };
    match &only.token {
        Token::Word(name) => Some(*name),
        _ => None,
    }
}

/// Returns the number at the front, and the tokens after it.
fn number_first(tokens: &[Spanned]) -> Option<(i64, &[Spanned])>
    ensures { MatchOption result (number_first (lexemes tokens.now) ≡ None) (λ front. number_first (lexemes tokens.now) ≡ Some (front.0, lexemes front.1.now)) }
{
    let (first, rest) = tokens.split_first()?;
    match &first.token {
        Token::Num(number) => Some((*number, rest)),
        _ => None,
    }
}

/// Returns the number, if it is the only token.
fn only_number(tokens: &[Spanned]) -> Option<i64>
    ensures { MatchOption result (only_number (lexemes tokens.now) ≡ None) (λ k. only_number (lexemes tokens.now) ≡ Some k) }
{
    let [spanned] = tokens else {
        return None;
    };
    match &spanned.token {
        Token::Num(number) => Some(*number),
        _ => None,
    }
}

/// Returns the word at the front, after `)`, and the tokens after it.
fn command_word(tokens: &[Spanned]) -> Option<Front<'_>>
    ensures { MatchOption result (command_word (lexemes tokens.now) ≡ None) (λ front. command_word (lexemes tokens.now) ≡ Some (front.name, lexemes front.rest.now)) }
{
    let (first, rest) = tokens.split_first()?;
    match &first.token {
        Token::Mark(')') => name_first(rest),
        _ => None,
    }
}

/// Reads a definition after `NAME ←`.
fn define(alloc: Global, name: Name, rest: &[Spanned]) -> Result<Change, ParseFault>
    requires { length rest.now ≤ most_tokens }
    ensures { IsChangeOf (Named name ∷ Sign left_arrow ∷ lexemes rest.now) result }
{
    let formula = parse(alloc, rest)?;
    Ok(Change::Define(name, formula))
}

/// Reads the edit of a cell after `NAME [`.
fn cell(alloc: Global, name: Name, rest: &[Spanned]) -> Result<Change, ParseFault>
    ensures { IsChangeOf (Named name ∷ Sign left_bracket ∷ lexemes rest.now) result }
{
    let (positions, literal) = edited(alloc, rest)?;
    Ok(Change::Cell(name, positions, literal))
}

/// Reads data after `) DATA`.
fn data(alloc: Global, rest: &[Spanned]) -> Result<Change, ParseFault>
    requires { length rest.now ≤ most_tokens }
    ensures { IsChangeOf (Sign right_parenthesis ∷ Named data_word ∷ lexemes rest.now) result }
{
    let Some(front) = name_before(rest, '←') else {
        return Err(ParseFault::Syntax);
    };
    let value = parse(alloc, front.rest)?;
    Ok(Change::Data(front.name, value))
}

/// Reads a row after `) ROW`.
fn row(alloc: Global, rest: &[Spanned]) -> Result<Change, ParseFault>
    ensures { IsChangeOf (Sign right_parenthesis ∷ Named row_word ∷ lexemes rest.now) result }
{
    let Some(front) = name_first(rest) else {
        return Err(ParseFault::Syntax);
    };
    let items = whole_literal(alloc, front.rest)?;
    Ok(Change::Row(front.name, items))
}

/// Reads an erasure after `) ERASE`.
fn erase(rest: &[Spanned]) -> Result<Change, ParseFault>
    ensures { IsChangeOf (Sign right_parenthesis ∷ Named erase_word ∷ lexemes rest.now) result }
{
    match only_name(rest) {
        Some(name) => Ok(Change::Erase(name)),
        None => Err(ParseFault::Syntax),
    }
}

/// Reads the change after `)` and this word.
fn worded_change(alloc: Global, word: Name, rest: &[Spanned]) -> Result<Change, ParseFault>
    requires { length rest.now ≤ most_tokens }
    ensures { IsChangeOf (Sign right_parenthesis ∷ Named word ∷ lexemes rest.now) result }
{
    match word.text() {
        "DATA" => data(alloc, rest),
        "ROW" => row(alloc, rest),
        "ERASE" => erase(rest),
        _ => Err(ParseFault::Syntax),
    }
}

/// Returns the change that the tokens are.
#[inline(always)]
fn change_of(alloc: Global, tokens: &[Spanned]) -> Result<Change, ParseFault>
    requires { length tokens.now ≤ most_tokens }
    ensures { IsChangeOf (lexemes tokens.now) result }
{
    if let Some(front) = name_before(tokens, '←') {
        return define(alloc, front.name, front.rest);
    }
    if let Some(front) = name_before(tokens, '[') {
        return cell(alloc, front.name, front.rest);
    }
    if let Some(front) = command_word(tokens) {
        return worded_change(alloc, front.name, front.rest);
    }
    Err(ParseFault::Syntax)
}

/// Reads the end of a line after `) NAMES`.
fn names(rest: &[Spanned]) -> Result<Command, ParseFault>
    requires { 2 + length rest.now ≤ most_tokens }
    ensures { IsCommand (Sign right_parenthesis ∷ Named names_word ∷ lexemes rest.now) result }
{
    if rest.is_empty() {
        Ok(Command::Names)
    } else {
        Err(ParseFault::Syntax)
    }
}

/// Reads the end of a line after `) COST`.
fn cost(rest: &[Spanned]) -> Result<Command, ParseFault>
    requires { 2 + length rest.now ≤ most_tokens }
    ensures { IsCommand (Sign right_parenthesis ∷ Named cost_word ∷ lexemes rest.now) result }
{
    if rest.is_empty() {
        Ok(Command::Cost)
    } else {
        Err(ParseFault::Syntax)
    }
}

/// Reads the name after `) CSV`.
fn csv(rest: &[Spanned]) -> Result<Command, ParseFault>
    requires { 2 + length rest.now ≤ most_tokens }
    ensures { IsCommand (Sign right_parenthesis ∷ Named csv_word ∷ lexemes rest.now) result }
{
    match only_name(rest) {
        Some(name) => Ok(Command::Csv(name)),
        None => Err(ParseFault::Syntax),
    }
}

/// Reads the slot and the change after `) OPEN`.
fn open(alloc: Global, rest: &[Spanned]) -> Result<Command, ParseFault>
    requires { 2 + length rest.now ≤ most_tokens }
    ensures { IsCommand (Sign right_parenthesis ∷ Named open_word ∷ lexemes rest.now) result }
{
    let Some((slot, tokens)) = number_first(rest) else {
        return Err(ParseFault::Syntax);
    };
    let change = change_of(alloc, tokens)?;
    let change = Box::new(alloc, change)?;
    Ok(Command::Open(slot, change))
}

/// Reads the slot after `) STEP`.
fn step(rest: &[Spanned]) -> Result<Command, ParseFault>
    requires { 2 + length rest.now ≤ most_tokens }
    ensures { IsCommand (Sign right_parenthesis ∷ Named step_word ∷ lexemes rest.now) result }
{
    match only_number(rest) {
        Some(slot) => Ok(Command::Step(slot)),
        None => Err(ParseFault::Syntax),
    }
}

/// Reads the slot after `) COMMIT`.
fn commit(rest: &[Spanned]) -> Result<Command, ParseFault>
    requires { 2 + length rest.now ≤ most_tokens }
    ensures { IsCommand (Sign right_parenthesis ∷ Named commit_word ∷ lexemes rest.now) result }
{
    match only_number(rest) {
        Some(slot) => Ok(Command::Commit(slot)),
        None => Err(ParseFault::Syntax),
    }
}

/// Reads the slot after `) DROP`.
fn give_up(rest: &[Spanned]) -> Result<Command, ParseFault>
    requires { 2 + length rest.now ≤ most_tokens }
    ensures { IsCommand (Sign right_parenthesis ∷ Named drop_word ∷ lexemes rest.now) result }
{
    match only_number(rest) {
        Some(slot) => Ok(Command::Drop(slot)),
        None => Err(ParseFault::Syntax),
    }
}

/// Reads the command after `)` and this word.
fn worded(alloc: Global, word: Name, rest: &[Spanned]) -> Result<Command, ParseFault>
    requires { 2 + length rest.now ≤ most_tokens }
    ensures { IsCommand (Sign right_parenthesis ∷ Named word ∷ lexemes rest.now) result }
{
    match word.text() {
        "NAMES" => names(rest),
        "COST" => cost(rest),
        "CSV" => csv(rest),
        "OPEN" => open(alloc, rest),
        "STEP" => step(rest),
        "COMMIT" => commit(rest),
        "DROP" => give_up(rest),
        _ => Ok(Command::Change(worded_change(alloc, word, rest)?)),
    }
}

/// Stores the command to show the expression.
fn show(alloc: Global, tokens: &[Spanned], command: &mut Command) -> Result<(), ParseFault>
    requires some { 0 < length tokens.now }
    requires short { length tokens.now ≤ most_tokens }
    requires no_change { IsNoChange (lexemes tokens.now) }
    requires no_word { command_word (lexemes tokens.now) ≡ None }
    ensures { IsCommand (lexemes tokens.now) (put_in result command.new) }
{
    match parse(alloc, tokens) {
        Ok(shown) => {
            *command = Command::Show(shown);
            Ok(())
        }
        Err(fault) => Err(fault),
    }
}

/// Stores the command of the word at the front.
fn worded_into(alloc: Global, front: Front<'_>, command: &mut Command) -> Result<(), ParseFault>
    requires { 2 + length front.rest.now ≤ most_tokens }
    ensures { IsCommand (Sign right_parenthesis ∷ Named front.entry.name ∷ lexemes front.entry.rest.now) (put_in result command.new) }
{
    match worded(alloc, front.name, front.rest) {
        Ok(found) => {
            *command = found;
            Ok(())
        }
        Err(fault) => Err(fault),
    }
}

/// Stores the definition after `NAME ←`.
fn define_into(alloc: Global, front: Front<'_>, command: &mut Command) -> Result<(), ParseFault>
    requires { length front.rest.now ≤ most_tokens }
    ensures { IsChangeIn (Named front.entry.name ∷ Sign left_arrow ∷ lexemes front.entry.rest.now) result command.new }
{
    match parse(alloc, front.rest) {
        Ok(formula) => {
            *command = Command::Change(Change::Define(front.name, formula));
            Ok(())
        }
        Err(fault) => Err(fault),
    }
}

/// Stores a change that is not a definition.
fn other_into(alloc: Global, tokens: &[Spanned], command: &mut Command) -> Result<(), ParseFault>
    requires { length tokens.now ≤ most_tokens }
    ensures { IsChangeIn (lexemes tokens.now) result command.new }
{
    match change_of(alloc, tokens) {
        Ok(change) => {
            *command = Command::Change(change);
            Ok(())
        }
        Err(fault) => Err(fault),
    }
}

/// Stores the change that the tokens are.
fn change_into(alloc: Global, tokens: &[Spanned], command: &mut Command) -> Result<(), ParseFault>
    requires { length tokens.now ≤ most_tokens }
    ensures { IsChangeIn (lexemes tokens.now) result command.new }
{
    match name_before(tokens, '←') {
        Some(front) => define_into(alloc, front, command),
        None => other_into(alloc, tokens, command),
    }
}

/// Stores the command of a line of tokens.
fn command_of(alloc: Global, tokens: &[Spanned], command: &mut Command) -> Result<(), ParseFault>
    ensures { IsCommand (lexemes tokens.now) (put_in result command.new) }
{
    if tokens.len() > MOST_TOKENS {
        return Err(ParseFault::Limit);
    }
    if tokens.is_empty() {
        *command = Command::Nothing;
        return Ok(());
    }
    if let Some(front) = command_word(tokens) {
        return worded_into(alloc, front, command);
    }
    match change_into(alloc, tokens, command) {
        Ok(()) => Ok(()),
        Err(ParseFault::Syntax) => show(alloc, tokens, command),
        Err(ParseFault::Limit) => Err(ParseFault::Limit),
        Err(ParseFault::NoMemory) => Err(ParseFault::NoMemory),
    }
}

/// Stores the command of a text, whose tokens go into `room`.
fn line_of_tokens(
    alloc: Global,
    text: &str,
    room: &mut Vec<Spanned>,
    command: &mut Command,
) -> Result<(), LineFault>
    ensures { IsAnswered (chars text.now) (put_in result command.new) }
{
    match tokens_into(alloc, text, room) {
        Ok(()) => match command_of(alloc, room, command) {
            Ok(()) => Ok(()),
            Err(ParseFault::Syntax) => Err(LineFault::Syntax),
            Err(ParseFault::Limit) => Err(LineFault::Limit),
            Err(ParseFault::NoMemory) => Err(LineFault::NoMemory),
        },
        Err(TokenFault::Syntax(_)) => Err(LineFault::Syntax),
        Err(TokenFault::Limit(_)) => Err(LineFault::Limit),
        Err(TokenFault::NoMemory) => Err(LineFault::NoMemory),
    }
}

/// Returns the command of an edit that was read from bytes.
#[inline(always)]
fn cell_of(edit: NumberEdit) -> Command
    ensures { (cs : List ℕ) → IsNumberEdit cs edit → IsAnswered cs (Ok result) }
{
    Command::Change(Change::Cell(edit.name, edit.positions, Literal::Num(edit.number)))
}

/// Returns the literal of the numbers of a row.
#[inline(always)]
fn literal_of_row(numbers: RowNumbers) -> Literal
    ensures numbers { literal_of result ≡ Numbers (row_numbers_of numbers) }
    ensures plain { AreSeveral numbers → is_plain result ≡ true }
{
    match numbers {
        RowNumbers::One(number) => Literal::Num(number),
        RowNumbers::Several(numbers) => Literal::Nums(numbers),
    }
}

/// Returns the command of a row that was read from bytes.
#[inline(always)]
fn row_of(row: NumberRow) -> Command
    requires { 3 + length (row_numbers_of row.numbers) ≤ most_tokens }
    ensures { (cs : List ℕ) → IsNumberRow cs row → IsAnswered cs (Ok result) }
{
    Command::Change(Change::Row(row.name, literal_of_row(row.numbers)))
}

/// Stores the command of a line, after `number_edit` has returned `None`.
fn row_or_tokens(
    alloc: Global,
    text: &str,
    room: &mut Vec<Spanned>,
    command: &mut Command,
) -> Result<(), LineFault>
    ensures { IsAnswered (chars text.now) (put_in result command.new) }
{
    match number_row(alloc, text, MOST_TOKENS - TOKENS_BEFORE_A_ROW) {
        Some(row) => {
            *command = row_of(row);
            Ok(())
        }
        None => line_of_tokens(alloc, text, room, command),
    }
}

/// Returns the command of a line of text.
///
/// Returns the first token fault from the left; then `Limit` for more than 4,096 tokens; then `Syntax` for tokens that are not a line of the
/// grammar; then `Limit` for a tree more than 256 high or of more than 512 nodes. `DATA`, `ROW`, `ERASE`, `NAMES`, `COST`, `CSV`, `OPEN`,
/// `STEP`, `COMMIT` and `DROP` are words only after `)`, and ordinary names elsewhere.
///
/// Reads the edit of an item by a number, without blanks, from the bytes of the text, and allocates nothing for it. Reads a row of numbers, with
/// one blank between parts, from the bytes too, and allocates only the list of several numbers.
pub fn line(alloc: Global, text: &str) -> Result<Command, LineFault>
    ensures { IsAnswered (chars text.now) result }
{
    let mut command = Command::Nothing;
    match line_into(alloc, text, &mut Vec::new(alloc), &mut command) {
        Ok(()) => Ok(command),
        Err(fault) => Err(fault),
    }
}

/// Stores the command of a line of text, as `line` returns it. After a fault the contents of `command` are unspecified. The tokens go into
/// `room`, whose contents are unspecified before and after. A caller that keeps `room` for many lines saves the allocation of tokens.
pub fn line_into(
    alloc: Global,
    text: &str,
    room: &mut Vec<Spanned>,
    command: &mut Command,
) -> Result<(), LineFault>
    ensures { IsAnswered (chars text.now) (put_in result command.new) }
{
    match number_edit(alloc, text) {
        Some(edit) => {
            *command = cell_of(edit);
            Ok(())
        }
        None => row_or_tokens(alloc, text, room, command),
    }
}
