//! A long run of edits of cells, with the cost of each and the number of items that it computes.

use crate::fixtures::are_made;
use apl_expr::Literal;
use names::Name;
use sheet_recalc::Sheet;
use std::alloc::Global;

/// Returns whether the last change of a sheet has this cost, and computed as many items.
fn has_cost(sheet: &Sheet, cost: u64) -> bool {
    sheet.last_cost() == cost && sheet.last_ticks() == cost
}

const PLACES: usize = 1048576;

const EDITS: usize = 100000;

/// Sets the first places of data to 2, one after the other, and returns whether each edit is accepted at the cost of one item.
fn edit_first_places(sheet: &mut Sheet, name: Name) -> bool {
    for place in 0..EDITS {
        let is_edited = sheet
            .set_cell(name, &[place as i64 + 1], &Literal::Num(2))
            .is_ok();
        if !is_edited || !has_cost(sheet, 1) {
            return false;
        }
    }
    true
}

/// Returns whether the numbers are fours up to the last edit, and twos after it.
fn are_edited(numbers: &[i64]) -> bool {
    for (place, number) in numbers.iter().enumerate() {
        let wanted = if place < EDITS { 4 } else { 2 };
        if *number != wanted {
            return false;
        }
    }
    numbers.len() == PLACES
}

/// Returns whether a name shows the numbers after all edits.
fn shows_edits(sheet: &Sheet, name: Name) -> bool {
    match sheet.value(name) {
        Some(Ok(array)) => are_edited(array.numbers().unwrap_or(&[])),
        _ => false,
    }
}

/// Doubles a million ones, sets many of them to 2, and returns whether each edit costs one item.
fn are_edits_cheap(alloc: Global, sheet: &mut Sheet, data: Name, product: Name) -> bool {
    are_made(alloc, sheet, &[")DATA D←1048576⍴1", "T←D×2"])
        && edit_first_places(sheet, data)
        && shows_edits(sheet, product)
}

#[test]
fn each_of_many_edits_costs_one_item(rt: HostRuntime) {
    let data = Name::read("D").expect(&rt, "a name");
    let product = Name::read("T").expect(&rt, "a name");
    let mut sheet = Sheet::new(rt.alloc());
    assert!(rt; are_edits_cheap(rt.alloc(), &mut sheet, data, product));
}
