//! Changes and trees from lines, and the values that a sheet shows.

use apl_expr::{Change, Command, Expr, line};
use names::Name;
use sheet_recalc::Sheet;
use std::alloc::Global;

/// The greatest number of tries of a call: it is repeated once if an allocation fails.
pub(crate) const MOST_TRIES: usize = 2;

/// Reads the change of a line.
pub(crate) fn change_of(alloc: Global, text: &str) -> Option<Change> {
    match line(alloc, text) {
        Ok(Command::Change(change)) => Some(change),
        _ => None,
    }
}

/// Reads the tree of an expression.
pub(crate) fn tree_of(alloc: Global, text: &str) -> Option<Expr> {
    match line(alloc, text) {
        Ok(Command::Show(tree)) => Some(tree),
        _ => None,
    }
}

/// Makes the change of a line, and returns whether it is accepted.
pub(crate) fn is_made(alloc: Global, sheet: &mut Sheet, text: &str) -> bool {
    match change_of(alloc, text) {
        Some(change) => sheet.apply(change).is_ok(),
        None => false,
    }
}

/// Makes the changes of lines, up to one that is refused, and returns whether all are accepted.
pub(crate) fn are_made(alloc: Global, sheet: &mut Sheet, lines: &[&str]) -> bool {
    for text in lines {
        if !is_made(alloc, sheet, text) {
            return false;
        }
    }
    true
}

/// Returns whether a name shows these numbers.
pub(crate) fn shows(sheet: &Sheet, name: &str, numbers: &[i64]) -> bool {
    match Name::read(name) {
        Some(name) => {
            matches!(sheet.value(name), Some(Ok(array)) if array.numbers() == Some(numbers))
        }
        None => false,
    }
}
