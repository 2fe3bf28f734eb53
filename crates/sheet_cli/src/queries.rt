//! The queries of a sheet, and the texts that they print.

ghost use Rattle.std.specs.Prelude.{◌≡◌, IfOk, string_bytes};
ghost use Rattle.std.specs.Map.{keys_of};
ghost use Rattle.apl_expr.specs.Trees.{tree_of};
ghost use Rattle.formula_core.specs.Meaning.{eval};
ghost use Rattle.sheet_recalc.specs.Names.{binding};
ghost use Rattle.sheet_recalc.specs.Meaning.{val};
ghost use Rattle.sheet_cli.specs.Answer.{shown_text, names_text, are_characters, array_table, shown_table};
ghost use Rattle.sheet_cli.specs.Printed.{printed_bytes};

use crate::printed::Printed;
use crate::refusals::refusal_text;
use apl_expr::Expr;
use array_text::{print, print_fault, write_table};
use arrays_core::Array;
use names::Name;
use sheet_recalc::{Refusal, Sheet};
use std::alloc::{AllocError, Global};

/// The greatest number of axes of a table.
const MOST_TABLE_AXES: usize = 2;

/// Returns the text of an expression's value or error. A name's array is borrowed from the sheet, not copied.
pub(crate) fn show(alloc: Global, sheet: &Sheet, expr: &Expr) -> Result<String, AllocError>
    ensures { IfOk result (λ text. string_bytes text ≡ shown_text (eval (tree_of expr.now) (val sheet.now.names))) }
{
    if let Expr::Name(name) = expr {
        match sheet.value(*name) {
            Some(Ok(array)) => return print(alloc, array),
            Some(Err(fault)) => return print_fault(alloc, &fault),
            None => {}
        }
    }
    match sheet.show(expr)? {
        Ok(array) => print(alloc, &array),
        Err(fault) => print_fault(alloc, &fault),
    }
}

/// Returns the names in their order, one for each line.
pub(crate) fn list_names(alloc: Global, sheet: &Sheet) -> Result<String, AllocError>
    ensures { IfOk result (λ text. string_bytes text ≡ names_text (keys_of sheet.now.names)) }
{
    let mut text = String::new(alloc);
    for name in sheet.names().as_slice() {
        text.push_str(name.text())?;
        text.push('\n')?;
    }
    Ok(text)
}

/// Returns a name's array as a table, or the text of the error or of the refusal.
pub(crate) fn shown_table(alloc: Global, sheet: &Sheet, name: Name) -> Result<Printed, AllocError>
    ensures { IfOk result (λ text. printed_bytes text ≡ shown_table (binding sheet.now.names name) (val sheet.now.names name)) }
{
    match sheet.value(name) {
        None => refusal_text(alloc, &Refusal::NotFound),
        Some(Ok(array)) => array_table(alloc, array),
        Some(Err(fault)) => Ok(Printed::Made(print_fault(alloc, &fault)?)),
    }
}

/// Returns an array as a table, or the text of the refusal.
fn array_table(alloc: Global, array: &Array) -> Result<Printed, AllocError>
    ensures { IfOk result (λ text. printed_bytes text ≡ array_table array.now) }
{
    if array.shape().len() > MOST_TABLE_AXES {
        return refusal_text(alloc, &Refusal::Rank);
    }
    if are_characters(array) {
        return refusal_text(alloc, &Refusal::Domain);
    }
    Ok(Printed::Made(write_table(alloc, array)?))
}

/// Returns whether the array has items, and they are characters.
fn are_characters(array: &Array) -> bool
    ensures { result ≡ are_characters array.now.item_type array.now.items }
{
    match array.characters() {
        Some(characters) => !characters.is_empty(),
        None => false,
    }
}
