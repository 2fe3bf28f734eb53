//! The answer to one line.
ghost use Rattle.std.specs.Prelude.{◌≡◌, IfOk, OnErr, IsOk};
ghost use Rattle.apl_expr.specs.Lines.{meaning};
ghost use Rattle.apl_expr.specs.Trees.{tree_of};
ghost use Rattle.apl_expr.specs.declared.command.Change.{Change as AnyChange};
ghost use Rattle.apl_expr.specs.declared.command.Command.TheVariants.{Change, Show};
ghost use Rattle.apl_expr.specs.declared.expr.Expr.{Expr as AnyExpr};
ghost use Rattle.formula_core.specs.Meaning.{eval};
ghost use Rattle.sheet_recalc.specs.Meaning.{val};
ghost use Rattle.sheet_cli.specs.Answer.{state_of, shown_text, IsCarriedOut, IsAnswer};
ghost use Rattle.sheet_cli.specs.Lines.{strip_cr};
ghost use Rattle.sheet_cli.specs.Printed.{printed_bytes};
ghost use Rattle.sheet_cli.specs.Refusals.{TakesNoMemory};

use crate::count_line::CountLine;
use crate::printed::Printed;
use crate::queries::{list_names, show, shown_table};
use crate::refusals::{count_text, outcome_text};
use apl_expr::{Command, Expr, LineFault, line_into};
use apl_tokens::Spanned;
use sheet_desk::Desk;
use sheet_recalc::Sheet;
use std::alloc::{AllocError, Global};
use std::mem;

/// The greatest length of a line in bytes, without its LF or CR LF.
pub const LONGEST_LINE: usize = 4096;

/// Answers a line of bytes; its CR may be there. Builds the whole text first. If memory is refused, nothing changes. `room` is reused for the
/// line's tokens; its contents do not matter.
pub(crate) fn answer(
    alloc: Global,
    desk: &mut Desk,
    room: &mut Vec<Spanned>,
    line: &[u8],
) -> Result<Printed, AllocError>
    ensures ok { IfOk result (λ text. IsAnswer (state_of desk.old) line.now (printed_bytes text) (state_of desk.new)) }
    ensures err { OnErr result (desk.new ≡ desk.old) }
{
    let line = strip_cr(line);
    if line.len() > LONGEST_LINE {
        return Ok(Printed::Fixed("LINE TOO LONG\n"));
    }
    let Ok(text) = str::from_utf8(line) else {
        return Ok(Printed::Fixed("NOT TEXT\n"));
    };
    let mut command = Command::Nothing;
    match line_into(alloc, text, room, &mut command) {
        Ok(()) => carry_out(alloc, desk, &mut command),
        Err(LineFault::Syntax) => Ok(Printed::Fixed("SYNTAX ERROR\n")),
        Err(LineFault::Limit) => Ok(Printed::Fixed("LIMIT ERROR\n")),
        Err(LineFault::NoMemory) => Err(AllocError),
    }
}

/// Executes a command. Borrows a change or an expression from it; moves any other command out. `TakesNoMemory` lists the commands that are never
/// refused memory.
#[inline(always)]
fn carry_out(alloc: Global, desk: &mut Desk, command: &mut Command) -> Result<Printed, AllocError>
    ensures ok { IfOk result (λ text. IsCarriedOut (state_of desk.old) (meaning command.old) (printed_bytes text) (state_of desk.new)) }
    ensures no_memory { TakesNoMemory desk.old (meaning command.old) → IsOk result }
    ensures err { OnErr result (desk.new ≡ desk.old) }
{
    match command {
        Command::Change(change) => outcome_text(alloc, desk.plain_lent(change)),
        Command::Show(expr) => shown(alloc, desk.sheet(), expr),
        _ => carry_out_other(alloc, desk, command),
    }
}

/// Executes any command but a change and an expression, and moves it out.
fn carry_out_other(
    alloc: Global,
    desk: &mut Desk,
    command: &mut Command,
) -> Result<Printed, AllocError>
    requires change { (change : AnyChange) → command.old ≡ Change change → ⊥ }
    requires show { (tree : AnyExpr) → command.old ≡ Show tree → ⊥ }
    ensures ok { IfOk result (λ text. IsCarriedOut (state_of desk.old) (meaning command.old) (printed_bytes text) (state_of desk.new)) }
    ensures no_memory { TakesNoMemory desk.old (meaning command.old) → IsOk result }
    ensures err { OnErr result (desk.new ≡ desk.old) }
{
    match mem::replace(command, Command::Nothing) {
        Command::Nothing => Ok(Printed::Fixed("")),
        Command::Names => Ok(Printed::Made(list_names(alloc, desk.sheet())?)),
        Command::Cost => Ok(Printed::Count(CountLine::new(desk.sheet().last_cost()))),
        Command::Csv(name) => shown_table(alloc, desk.sheet(), name),
        Command::Open(number, change) => count_text(
            alloc,
            desk.open(number, Box::into_inner(change)),
        ),
        Command::Step(number) => count_text(alloc, desk.step(number)),
        Command::Commit(number) => outcome_text(alloc, desk.commit(number)),
        Command::Drop(number) => outcome_text(alloc, desk.drop_slot(number)),
        Command::Show(_) | Command::Change(_) => unreachable!(),
    }
}

/// Returns the text of an expression's value or error.
fn shown(alloc: Global, sheet: &Sheet, expr: &Expr) -> Result<Printed, AllocError>
    ensures { IfOk result (λ text. printed_bytes text ≡ shown_text (eval (tree_of expr.now) (val sheet.now.names))) }
{
    match show(alloc, sheet, expr) {
        Ok(text) => Ok(Printed::Made(text)),
        Err(AllocError) => Err(AllocError),
    }
}

/// Returns the line without one CR at its end.
#[tactic(auto, unfolding(crate::specs::Lines::strip_cr))]
fn strip_cr(line: &[u8]) -> &[u8]
    ensures { result.now ≡ strip_cr line.now }
{
    if let [front @ .., b'\r'] = line {
        return front;
    }
    line
}
