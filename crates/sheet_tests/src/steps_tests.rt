//! A change in steps: begun, computed function by function, and made. A step is repeated if an allocation fails.

ghost use Rattle.sheet_recalc.specs.Changes.{SheetChange as Asked};
ghost use Rattle.sheet_recalc.specs.Pending.{IsPendingOn};

use crate::fixtures::{MOST_TRIES, change_of, is_made, shows};
use apl_expr::Change;
use sheet_recalc::{Pending, Sheet};
use std::alloc::Global;

/// Does a step, repeated if an allocation fails, and returns the number of steps left.
fn step(sheet: &Sheet, pending: &mut Pending) -> Option<u32>
    requires { (change : Asked) × IsPendingOn sheet.now change pending.old }
    ensures { (change : Asked) → IsPendingOn sheet.now change pending.old → IsPendingOn sheet.now change pending.new }
{
    let before = pending.left();
    if let Ok(left) = sheet.advance(pending) {
        return Some(left);
    }
    if pending.left() != before {
        return None;
    }
    sheet.advance(pending).ok()
}

/// Does three steps, and returns the number of steps left before them and after each.
fn counts(sheet: &Sheet, pending: &mut Pending) -> Option<[u32; 4]>
    requires { (change : Asked) × IsPendingOn sheet.now change pending.old }
    ensures { (change : Asked) → IsPendingOn sheet.now change pending.old → IsPendingOn sheet.now change pending.new }
{
    let before = pending.left();
    let first = step(sheet, pending)?;
    let second = step(sheet, pending)?;
    let third = step(sheet, pending)?;
    Some([before, first, second, third])
}

/// Begins a change, does three steps, makes it if no step is left, and returns the numbers of steps left.
fn in_steps(sheet: &mut Sheet, change: Change) -> Option<[u32; 4]> {
    let Ok(mut pending) = sheet.begin(change) else {
        return None;
    };
    let counts = counts(sheet, &mut pending);
    if pending.left() == 0 {
        sheet.adopt(pending);
    }
    counts
}

/// Makes the change of a line in three steps, and returns the numbers of steps left.
fn made_in_steps(alloc: Global, sheet: &mut Sheet, text: &str) -> Option<[u32; 4]> {
    for _ in 0..MOST_TRIES {
        if let Some(change) = change_of(alloc, text) {
            if let Some(counts) = in_steps(sheet, change) {
                return Some(counts);
            }
        }
    }
    None
}

/// Makes the change of a line in two steps, and returns whether these are all, at this cost.
fn costs_in_steps(alloc: Global, sheet: &mut Sheet, text: &str, cost: u64) -> bool {
    made_in_steps(alloc, sheet, text) == Some([2, 1, 0, 0])
        && sheet.last_cost() == cost
        && sheet.last_ticks() == cost
}

/// Binds `D` to data, repeated if an allocation fails, and returns whether a formula and an edit are then made in steps.
fn are_made_in_steps(alloc: Global, sheet: &mut Sheet) -> bool {
    let data = ")DATA D←1 2 3";
    (is_made(alloc, sheet, data) || is_made(alloc, sheet, data))
        && costs_in_steps(alloc, sheet, "T←+/D×2", 4)
        && costs_in_steps(alloc, sheet, "D[2]←10", 2)
        && shows(sheet, "T", &[28])
}

#[test]
fn changes_are_made_in_steps(rt: HostRuntime) {
    let mut sheet = Sheet::new(rt.alloc());
    assert!(rt; are_made_in_steps(rt.alloc(), &mut sheet));
}
