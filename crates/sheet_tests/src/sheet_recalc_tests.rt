//! The names of a cycle, changes in a list, and calls whose allocations fail.

use crate::fixtures::{MOST_TRIES, are_made, change_of, shows, tree_of};
use apl_expr::{Change, Literal};
use arrays_core::Array;
use names::Name;
use sheet_recalc::{Refusal, Sheet};
use std::alloc::Global;
use std::collections::VecDeque;
use std::process::Abort;

/// Defines a name by an expression.
fn define(alloc: Global, sheet: &mut Sheet, name: Name, text: &str) -> Result<(), Refusal> {
    match tree_of(alloc, text) {
        Some(tree) => sheet.define(name, tree),
        None => Err(Refusal::NoMemory),
    }
}

/// Returns whether a change is refused for this cycle of names.
fn is_cycle(refused: &Result<(), Refusal>, cycle: &[Name]) -> bool {
    match refused {
        Err(Refusal::Cycle(names)) => names.as_slice() == cycle,
        _ => false,
    }
}

/// Returns whether each refusal lists the cycle from the name that closes it. The second cycle passes through data,
/// which stays. The names are A, B and C.
fn are_cycles(alloc: Global, sheet: &mut Sheet, names: [Name; 3]) -> bool {
    let [a, b, c] = names;
    are_made(alloc, sheet, &["A←B", "B←C"])
        && is_cycle(&define(alloc, sheet, c, "A"), &[c, a, b])
        && are_made(
            alloc,
            sheet,
            &[")ERASE A", ")ERASE B", ")DATA A←1", "C←A", "B←C"],
        )
        && is_cycle(&define(alloc, sheet, a, "B"), &[a, b, c])
        && shows(sheet, "A", &[1])
}

#[test]
fn a_cycle_begins_with_the_name_that_closes_it(rt: HostRuntime) {
    let names = [
        Name::read("A").expect(&rt, "a name"),
        Name::read("B").expect(&rt, "a name"),
        Name::read("C").expect(&rt, "a name"),
    ];
    let mut sheet = Sheet::new(rt.alloc());
    assert!(rt; are_cycles(rt.alloc(), &mut sheet, names));
}

/// Returns the number of an answer to a change: accepted, refused for a cycle, or refused for another cause.
fn kind_of(answer: &Result<(), Refusal>) -> u8 {
    match answer {
        Ok(()) => 0,
        Err(Refusal::Cycle(_)) => 1,
        Err(_) => 2,
    }
}

/// Returns whether only the third of four changes is refused, for a cycle.
fn third_closes_a_cycle(answers: &[Result<(), Refusal>]) -> bool {
    let kinds = [0, 0, 1, 0];
    answers.len() == 4
        && answers
            .iter()
            .zip(kinds)
            .all(|(answer, kind)| kind_of(answer) == kind)
}

/// Makes a list of changes; the third one would close a cycle.
fn four_changes(rt: &impl Abort, alloc: Global) -> VecDeque<Change> {
    let mut changes = VecDeque::new(alloc);
    for text in ["D←1 2 3", "T←D×2", "D←T", "D←4 5 6"] {
        let change = change_of(alloc, text).expect(rt, "a change");
        changes.push_back(change).expect(rt, "room");
    }
    changes
}

/// Makes these changes, and returns whether only the third one is refused.
fn are_answered(rt: &impl Abort, sheet: &mut Sheet, changes: VecDeque<Change>) -> bool {
    let answers = sheet.apply_all(changes).expect(rt, "answers");
    third_closes_a_cycle(answers.as_slice())
}

#[test]
fn answers_changes_in_order(rt: HostRuntime) {
    let changes = four_changes(&rt, rt.alloc());
    let mut sheet = Sheet::new(rt.alloc());
    assert!(rt; are_answered(&rt, &mut sheet, changes) && shows(&sheet, "T", &[8, 10, 12]));
}

/// The numbers of `D` and of `T`, empty for an absent name, and the cost of the last change.
type State<'a> = (&'a [i64], &'a [i64], u64);

/// Returns whether a name shows these numbers, or is absent if there are none.
fn shows_or_is_absent(sheet: &Sheet, name: &str, numbers: &[i64]) -> bool {
    if !numbers.is_empty() {
        return shows(sheet, name, numbers);
    }
    match Name::read(name) {
        Some(name) => sheet.value(name).is_none(),
        None => false,
    }
}

/// Returns whether the sheet is in this state, and has no other names.
fn is_in_state(sheet: &Sheet, state: State) -> bool {
    let (data, product, cost) = state;
    let names = usize::from(!data.is_empty()) + usize::from(!product.is_empty());
    sheet.names().as_slice().len() == names
        && sheet.last_cost() == cost
        && shows_or_is_absent(sheet, "D", data)
        && shows_or_is_absent(sheet, "T", product)
}

/// Binds a name to the data 1 2 3.
fn store(alloc: Global, sheet: &mut Sheet, name: Name) -> Result<(), Refusal> {
    match tree_of(alloc, "1 2 3") {
        Some(tree) => sheet.data(name, tree),
        None => Err(Refusal::NoMemory),
    }
}

/// Binds a name to the vector 5 6.
fn put(alloc: Global, sheet: &mut Sheet, name: Name) -> Result<(), Refusal> {
    let numbers = [5, 6].to_vec(alloc)?;
    match Array::vector(alloc, numbers) {
        Ok(array) => sheet.put_array(name, array),
        Err(_) => Err(Refusal::NoMemory),
    }
}

/// Makes one of the calls that change a sheet, for the name of data or of its double.
fn call(alloc: Global, sheet: &mut Sheet, names: [Name; 2], which: usize) -> Result<(), Refusal> {
    let [data, product] = names;
    match which {
        0 => store(alloc, sheet, data),
        1 => define(alloc, sheet, product, "D×2"),
        2 => sheet.set_cell(data, &[2], &Literal::Num(10)),
        3 => sheet.add_row(data, &Literal::Num(4)),
        4 => put(alloc, sheet, data),
        _ => sheet.erase(product),
    }
}

/// Repeats a call while allocations fail, and returns whether it leads from one state to another. A failed call leaves the first state.
fn leads_to(
    alloc: Global,
    sheet: &mut Sheet,
    names: [Name; 2],
    which: usize,
    states: [State; 2],
) -> bool {
    for _ in 0..MOST_TRIES {
        match call(alloc, sheet, names, which) {
            Ok(()) => return is_in_state(sheet, states[1]),
            Err(Refusal::NoMemory) if is_in_state(sheet, states[0]) => {}
            Err(_) => return false,
        }
    }
    false
}

/// The states of a sheet before the first call, and after each.
const STATES: [State; 7] = [
    (&[], &[], 0),
    (&[1, 2, 3], &[], 0),
    (&[1, 2, 3], &[2, 4, 6], 3),
    (&[1, 10, 3], &[2, 20, 6], 1),
    (&[1, 10, 3, 4], &[2, 20, 6, 8], 1),
    (&[5, 6], &[10, 12], 2),
    (&[5, 6], &[], 0),
];

/// Returns whether each call leads to its state.
fn all_lead_on(alloc: Global, sheet: &mut Sheet, names: [Name; 2]) -> bool {
    for which in 0..6 {
        let states = [STATES[which], STATES[which + 1]];
        if !leads_to(alloc, sheet, names, which, states) {
            return false;
        }
    }
    true
}

#[test]
fn a_call_that_is_refused_memory_leaves_the_sheet(rt: HostRuntime) {
    let data = Name::read("D").expect(&rt, "a name");
    let product = Name::read("T").expect(&rt, "a name");
    let mut sheet = Sheet::new(rt.alloc());
    assert!(rt; all_lead_on(rt.alloc(), &mut sheet, [data, product]));
}
