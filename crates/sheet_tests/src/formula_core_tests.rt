//! A formula without a sheet, and the number of sums that its plan joins.

ghost use Rattle.std.specs.Prelude.{◌≡◌, length, Ok};
ghost use Rattle.formula_core.specs.Changes.{FitsIn};
ghost use Rattle.formula_core.specs.Formulas.{IsHeld};
ghost use Rattle.formula_core.specs.Meaning.{names_in};

use apl_expr::parse;
use apl_tokens::tokens;
use arrays_core::{Array, Fault, Item, ItemType, shape_of};
use change_core::Meter;
use formula_core::{Formula, Input, Shows};
use index_region::{Delta, IndexBox, Patch, Seen};
use names::Name;
use std::alloc::Global;
use std::process::Abort;

/// Shows one array under every name.
#[derive(Drop)]
struct Everywhere<'a> {
    array: &'a Array,
}

impl Shows for Everywhere<'_> {
    ghost use Rattle.std.specs.Prelude.{Ok};

    ghost shows = { λ s _. Ok s.array.now };

    fn result_of(&self, _name: Name) -> Result<&Array, Fault> {
        Ok(self.array)
    }
}

/// Makes the formula of a text.
fn formula_of(rt: &impl Abort, alloc: Global, text: &str) -> Formula {
    let found = tokens(alloc, text).expect(rt, "tokens");
    let tree = parse(alloc, &found).expect(rt, "a tree");
    Formula::build(alloc, tree).expect(rt, "a formula")
}

/// Returns whether a formula shows this number.
fn shows_number(formula: &Formula, number: i64) -> bool {
    match formula.result() {
        Ok(array) => array.numbers() == Some(&[number][..]),
        Err(_) => false,
    }
}

#[test]
fn a_formula_is_worked_out_without_a_sheet(rt: HostRuntime) {
    let array = Array::scalar(rt.alloc(), 6).expect(&rt, "a scalar");
    let mut formula = formula_of(&rt, rt.alloc(), "1+2×A");
    assert!(rt; formula.operations() == 2);
    assert!(rt; formula.evaluate(&Everywhere { array: &array }).is_ok());
    assert!(rt; shows_number(&formula, 13));
}

/// Returns the number of sums that a plan joins for a change of the array that each name shows.
fn joins_of<'a>(rt: &impl Abort, formula: &Formula, array: &'a Array, delta: &'a Delta) -> u64
    requires held { IsHeld formula.now (λ _. Ok array.now) }
    requires one { length (names_in formula.now.tree) ≡ 1 }
    requires fit { FitsIn delta.now (Ok array.now) }
{
    let Delta::Patch(patch) = delta else {
        return 0;
    };
    let _sound = array.shape();
    let inputs = [Input::Good(Seen::patched(array, patch), delta)];
    let _sound_now = Seen::patched(array, patch).item_type();
    let mut meter = Meter::new();
    let _plan = formula.plan(&inputs, &mut meter).expect(rt, "a plan");
    meter.joins()
}

/// Makes the change of one number in the first row of an array that has a thousand columns.
fn one_of_a_thousand(rt: &impl Abort, alloc: Global, array: &Array) -> Delta
    ensures { FitsIn result (Ok array.now) }
{
    let region = IndexBox::of(&[(1, 1), (500, 500)]).expect(rt, "a box");
    assert!(rt; region.size() == 1 && region.lies_in(array.shape().as_slice()));
    assert!(rt; array.item_type() == ItemType::Nums);
    let number = Array::scalar(alloc, 7).expect(rt, "a number");
    Delta::Patch(Patch::of(region, number))
}

/// Returns the number of sums joined for a change of one number in the first row of an array whose totals a formula shows.
fn joins_of_a_total(rt: &impl Abort, alloc: Global, array: &Array) -> u64 {
    let mut formula = formula_of(rt, alloc, "+/D");
    formula.evaluate(&Everywhere { array }).expect(rt, "totals");
    assert!(rt; formula.references().len() == 1);
    let delta = one_of_a_thousand(rt, alloc, array);
    joins_of(rt, &formula, array, &delta)
}

#[test]
fn a_total_follows_one_number_by_few_joins(rt: HostRuntime) {
    let shape = shape_of(rt.alloc(), &[1, 1000]);
    let row = Array::filled(rt.alloc(), ItemType::Nums, &shape).expect(&rt, "a row");
    let joins = joins_of_a_total(&rt, rt.alloc(), &row);
    assert!(rt; matches!(joins, 1..=10));
}

/// The total of the last row leaves 64 bits. That row is remembered, so a change of another row joins nothing.
#[test]
fn a_total_beside_an_error_follows_without_a_join(rt: HostRuntime) {
    let shape = shape_of(rt.alloc(), &[1000, 1000]);
    let mut rows = Array::filled(rt.alloc(), ItemType::Nums, &shape).expect(&rt, "rows");
    rows.write_at(999_001, Item::Num(i64::MAX));
    rows.write_at(1_000_000, Item::Num(1));
    let joins = joins_of_a_total(&rt, rt.alloc(), &rows);
    assert!(rt; joins == 0);
}
