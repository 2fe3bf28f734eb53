//! The value of an expression.

ghost use Rattle.std.specs.Prelude.{◌≡◌, ◌+◌, ◌≤◌, [], ◌∷◌, ℕ, List, IfOk, IfSome, IsOk, Result, Ok, Err, map, true};
ghost use Rattle.std.specs.List.{Contains};
ghost use Rattle.apl_expr.specs.Trees.{Const, Numbers, tree_of, position_of, positions_of, before_argument, between_arguments};
ghost use Rattle.apl_expr.specs.declared.expr.Dyadic.TheVariants.{Scalar};
ghost use Rattle.apl_expr.specs.declared.expr.Monadic.TheVariants.{Scalar as EachScalar};
ghost use Rattle.apl_expr.specs.declared.functions.Function1.TheVariants.{Monad};
ghost use Rattle.apl_expr.specs.declared.functions.Function2.TheVariants.{Dyad};
ghost use Rattle.arrays_core.specs.Arrays.{ArrayValue, IsAnswerTo, IsArray, scalar_of};
ghost use Rattle.arrays_core.specs.declared.item.Kind.{Kind as AKind};
ghost use Rattle.change_core.specs.Meters.{ticked};
ghost use Rattle.selection_fns.specs.Index.{index_whole};
ghost use Rattle.index_region.specs.declared.delta.Delta.TheVariants.{Same};
ghost use Rattle.formula_core.specs.Changes.{at_rest};
ghost use Rattle.arrays_core.specs.Outcomes.{given};
ghost use Rattle.formula_core.specs.Outcomes.{read, error_in};
ghost use Rattle.formula_core.specs.Counts.{AreItemsCounted, ArePositionsCounted, IsTreeCounted};
ghost use Rattle.formula_core.specs.Inputs.{IsInput};
ghost use Rattle.formula_core.specs.Plans.{tree_cost, AreInputs, IsNameSound};
ghost use Rattle.formula_core.specs.Evaluated.{outcome_of, array_in, position_in, positions_in, written_arrays};
ghost use Rattle.formula_core.specs.Meaning.{eval, eval_positions, applied1, applied2, indexed};

use crate::application::{of_both, of_right};
use crate::input::Input;
use crate::lent_fault::{LentFault, unknown};
use crate::literals::array_of;
use crate::positions::written_of;
use apl_expr::{Dyadic, Expr, Function1, Function2, Literal, Monadic, Sides};
use arrays_core::{ApplyFault, Array, Fault, outcome, size};
use change_core::Meter;
use function_names::{Scalar1, Scalar2};
use index_region::{Delta, Seen};
use names::Name;
use scalar_fns::{apply_to_left, apply_to_right};
use selection_fns::Index;
use std::alloc::{AllocError, Global};

/// Gives the result of each name.
pub trait Shows {
    ghost use Rattle.std.specs.Prelude.{◌≡◌, ℕ, List};
    ghost use Rattle.arrays_core.specs.Outcomes.{Outcome};
    ghost use Rattle.formula_core.specs.Outcomes.{read};

    // The result of each name.
    ghost shows: { Self → List ℕ → Outcome };

    /// Returns the array of a name, or its error.
    fn result_of(&self, name: Name) -> Result<&Array, Fault>
        ensures { read result ≡ shows self.now name };
}

/// The value of an argument: a borrowed or an owned array.
#[derive(Drop)]
pub(crate) enum Evaluated<'a> {
    /// The borrowed array of a name.
    Lent(&'a Array),
    /// The owned array of a literal or a function.
    Made(Array),
}

impl<'a> Evaluated<'a> {
    /// Borrows the array.
    fn array(&self) -> &Array
        ensures { result.now ≡ array_in self.now }
    {
        match self {
            Evaluated::Lent(array) => array,
            Evaluated::Made(array) => array,
        }
    }

    /// Returns the array; copies a borrowed one.
    fn into_array(self) -> Result<Array, AllocError>
        ensures { IfOk result (λ array. array ≡ array_in self.entry) }
    {
        match self {
            Evaluated::Lent(array) => array.copy(),
            Evaluated::Made(array) => Ok(array),
        }
    }
}

/// Evaluates an expression with these results of its names. Evaluates a right argument before the left one; the first error found is the result. An
/// error of a function has no origin.
pub fn evaluate<S: Shows>(
    alloc: Global,
    tree: &Expr,
    names: &S,
) -> Result<Result<Array, Fault>, AllocError>
    ensures { IfOk result (λ outcome. outcome ≡ eval (tree_of tree.now) (S.shows names.now)) }
{
    evaluate_counted(alloc, tree, names, &mut Meter::new())
}

/// Evaluates an expression, as `evaluate` does. The meter counts the items that each function returns; literals and names add none. The count is
/// the cost of a new formula of the expression if the value is an array, at most that if it is an error.
pub fn evaluate_counted<S: Shows>(
    alloc: Global,
    tree: &Expr,
    names: &S,
    meter: &mut Meter,
) -> Result<Result<Array, Fault>, AllocError>
    ensures value { IfOk result (λ outcome. outcome ≡ eval (tree_of tree.now) (S.shows names.now)) }
    ensures ticks { meter.new.ticks ≤ meter.old.ticks + tree_cost true (at_rest (S.shows names.now)) (tree_of tree.now) }
    ensures exact { IfOk result (λ outcome. IsOk outcome → meter.new.ticks ≡ ticked meter.old.ticks (tree_cost true (at_rest (S.shows names.now)) (tree_of tree.now))) }
{
    match argument(alloc, tree, names, meter)? {
        Ok(operand) => {
            // This call states that the count fits in 64 bits.
            let _counted = meter.ticks();
            Ok(Ok(operand.into_array()?))
        }
        Err(fault) => Ok(Err(fault)),
    }
}

/// Evaluates an expression as an argument and counts its items. Borrows the array of a name.
#[cycle(value)]
fn argument<'a, S: Shows>(
    alloc: Global,
    tree: &Expr,
    names: &'a S,
    meter: &mut Meter,
) -> Result<Result<Evaluated<'a>, Fault>, AllocError>
    ensures value { IfOk result (λ operand. outcome_of operand ≡ eval (tree_of tree.now) (S.shows names.entry.now)) }
    ensures counted { IsTreeCounted (S.shows names.entry.now) (tree_of tree.now) meter.old.ticks meter.new.ticks result }
{
    match tree {
        Expr::Const(literal) => made(array_of(alloc, literal)),
        Expr::Name(name) => match names.result_of(*name) {
            Ok(array) => Ok(Ok(Evaluated::Lent(array))),
            Err(fault) => Ok(Err(fault)),
        },
        Expr::Monad(function, right) => {
            let function = Function1::Monad(*function);
            before(alloc, function, right, names, meter)
        }
        Expr::Dyad(function, sides) => {
            between(alloc, Function2::Dyad(*function), sides, names, meter)
        }
        Expr::Index(operand, positions) => {
            let positions = position_operands(alloc, positions, names, meter)?;
            let operand = argument(alloc, operand, names, meter)?;
            let given = apply_index(alloc, operand, positions)?;
            Ok(counted(given, meter))
        }
        Expr::Reduce(function, along, right) => {
            let function = Function1::Reduce(*function, *along);
            before(alloc, function, right, names, meter)
        }
        Expr::Scan(function, along, right) => {
            let function = Function1::Scan(*function, *along);
            before(alloc, function, right, names, meter)
        }
        Expr::Outer(function, sides) => {
            between(alloc, Function2::Outer(*function), sides, names, meter)
        }
        Expr::Inner(fold, each, sides) => {
            between(alloc, Function2::Inner(*fold, *each), sides, names, meter)
        }
    }
}

/// Evaluates a function of one argument and counts its items. Not inlined, like `between`: so its locals take stack only while it runs.
#[cycle(value)]
#[inline(never)]
fn before<'a, S: Shows>(
    alloc: Global,
    function: Function1,
    right: &Expr,
    names: &'a S,
    meter: &mut Meter,
) -> Result<Result<Evaluated<'a>, Fault>, AllocError>
    ensures value { IfOk result (λ operand. outcome_of operand ≡ eval (before_argument function (tree_of right.now)) (S.shows names.entry.now)) }
    ensures counted { IsTreeCounted (S.shows names.entry.now) (before_argument function (tree_of right.now)) meter.old.ticks meter.new.ticks result }
{
    let right = argument(alloc, right, names, meter)?;
    let given = apply_monad(alloc, function, right)?;
    Ok(counted(given, meter))
}

/// Evaluates a function of two arguments and counts its items. Makes no array of a single number beside a scalar function.
#[cycle(value)]
#[inline(never)]
fn between<'a, S: Shows>(
    alloc: Global,
    function: Function2,
    sides: &Sides,
    names: &'a S,
    meter: &mut Meter,
) -> Result<Result<Evaluated<'a>, Fault>, AllocError>
    ensures value { IfOk result (λ operand. outcome_of operand ≡ eval (between_arguments function (tree_of sides.now.left) (tree_of sides.now.right)) (S.shows names.entry.now)) }
    ensures counted { IsTreeCounted (S.shows names.entry.now) (between_arguments function (tree_of sides.now.left) (tree_of sides.now.right)) meter.old.ticks meter.new.ticks result }
{
    if let Some(scalar) = scalar_between(function) {
        if let Some(number) = number_of(&sides.right) {
            let left = argument(alloc, &sides.left, names, meter)?;
            let given = apply_to_number(alloc, scalar, left, number)?;
            return Ok(counted(given, meter));
        }
        if let Some(number) = number_of(&sides.left) {
            let right = argument(alloc, &sides.right, names, meter)?;
            let given = apply_number_to(alloc, scalar, number, right)?;
            return Ok(counted(given, meter));
        }
    }
    let right = argument(alloc, &sides.right, names, meter)?;
    let left = argument(alloc, &sides.left, names, meter)?;
    let given = apply_dyad(alloc, function, left, right)?;
    Ok(counted(given, meter))
}

/// Returns the scalar function of one argument, if the function is one.
#[inline(always)]
pub(crate) fn scalar_before(function: Function1) -> Option<Scalar1>
    ensures { IfSome result (λ scalar. function ≡ Monad (EachScalar scalar)) }
{
    match function {
        Function1::Monad(Monadic::Scalar(scalar)) => Some(scalar),
        _ => None,
    }
}

/// Returns the scalar function of two arguments, if the function is one.
#[inline(always)]
pub(crate) fn scalar_between(function: Function2) -> Option<Scalar2>
    ensures { IfSome result (λ scalar. function ≡ Dyad (Scalar scalar)) }
{
    match function {
        Function2::Dyad(Dyadic::Scalar(scalar)) => Some(scalar),
        _ => None,
    }
}

/// Returns the number, if the expression is a single number.
#[inline(always)]
fn number_of(tree: &Expr) -> Option<i64>
    ensures { IfSome result (λ z. tree_of tree.now ≡ Const (Numbers (z ∷ []))) }
{
    match tree {
        Expr::Const(Literal::Num(number)) => Some(*number),
        _ => None,
    }
}

/// Evaluates the positions of an index from the last to the first and counts their items. The first error found is the result.
#[cycle(value)]
fn position_operands<'a, S: Shows>(
    alloc: Global,
    positions: &[Option<Expr>],
    names: &'a S,
    meter: &mut Meter,
) -> Result<Result<Vec<Option<Evaluated<'a>>>, Fault>, AllocError>
    ensures values { IfOk result (λ operands. positions_in operands ≡ eval_positions (positions_of (map position_of positions.now)) (S.shows names.entry.now)) }
    ensures counted { ArePositionsCounted (S.shows names.entry.now) (positions_of (map position_of positions.now)) meter.old.ticks meter.new.ticks result }
{
    let mut operands = Vec::new(alloc);
    for k in (0..positions.len()).rev() {
        let operand = match &positions[k] {
            Some(tree) => match argument(alloc, tree, names, meter)? {
                Ok(operand) => Some(operand),
                Err(fault) => return Ok(Err(fault)),
            },
            None => None,
        };
        operands.insert(0, operand)?;
    }
    Ok(Ok(operands))
}

/// Counts the items of a function's result; an error adds none.
fn counted<'a>(
    given: Result<Evaluated<'a>, Fault>,
    meter: &mut Meter,
) -> Result<Evaluated<'a>, Fault>
    ensures same { result ≡ given.entry }
    ensures items { AreItemsCounted given.entry meter.old.ticks meter.new.ticks }
{
    if let Ok(operand) = &given {
        meter.add(size(operand.array().shape()));
    }
    given
}

/// Applies a function to its argument, or returns the argument's error.
fn apply_monad<'a>(
    alloc: Global,
    function: Function1,
    right: Result<Evaluated<'a>, Fault>,
) -> Result<Result<Evaluated<'a>, Fault>, AllocError>
    ensures { IfOk result (λ operand. outcome_of operand ≡ applied1 function (outcome_of right.entry)) }
{
    match right {
        Ok(right) => {
            let outcome = of_right(alloc, function, right.array())?;
            Ok(as_evaluated(outcome))
        }
        Err(fault) => Ok(Err(fault)),
    }
}

/// Applies a function to its two arguments, or returns the right argument's error, or the left one's.
fn apply_dyad<'a>(
    alloc: Global,
    function: Function2,
    left: Result<Evaluated<'a>, Fault>,
    right: Result<Evaluated<'a>, Fault>,
) -> Result<Result<Evaluated<'a>, Fault>, AllocError>
    ensures { IfOk result (λ operand. outcome_of operand ≡ applied2 function (outcome_of right.entry) (outcome_of left.entry)) }
{
    match right {
        Ok(right) => match left {
            Ok(left) => {
                let outcome = of_both(alloc, function, left.array(), right.array())?;
                Ok(as_evaluated(outcome))
            }
            Err(fault) => Ok(Err(fault)),
        },
        Err(fault) => Ok(Err(fault)),
    }
}

/// Applies a scalar function to its left argument and a number, or returns the argument's error.
fn apply_to_number<'a>(
    alloc: Global,
    function: Scalar2,
    left: Result<Evaluated<'a>, Fault>,
    right: i64,
) -> Result<Result<Evaluated<'a>, Fault>, AllocError>
    ensures { IfOk result (λ operand. outcome_of operand ≡ applied2 (Dyad (Scalar function)) (Ok (scalar_of right)) (outcome_of left.entry)) }
{
    match left {
        Ok(left) => made(apply_to_right(alloc, function, left.array(), right)),
        Err(fault) => Ok(Err(fault)),
    }
}

/// Applies a scalar function to a number and its right argument, or returns the argument's error.
fn apply_number_to<'a>(
    alloc: Global,
    function: Scalar2,
    left: i64,
    right: Result<Evaluated<'a>, Fault>,
) -> Result<Result<Evaluated<'a>, Fault>, AllocError>
    ensures { IfOk result (λ operand. outcome_of operand ≡ applied2 (Dyad (Scalar function)) (outcome_of right.entry) (Ok (scalar_of left))) }
{
    match right {
        Ok(right) => made(apply_to_left(alloc, function, left, right.array())),
        Err(fault) => Ok(Err(fault)),
    }
}

/// Indexes the operand by the positions, or returns the positions' error, or the operand's.
fn apply_index<'a>(
    alloc: Global,
    operand: Result<Evaluated<'a>, Fault>,
    positions: Result<Vec<Option<Evaluated<'a>>>, Fault>,
) -> Result<Result<Evaluated<'a>, Fault>, AllocError>
    ensures { IfOk result (λ made. outcome_of made ≡ indexed (positions_in positions.entry) (outcome_of operand.entry)) }
{
    match positions {
        Ok(positions) => match operand {
            Ok(operand) => made(of_positions(alloc, operand.array(), positions.as_slice())),
            Err(fault) => Ok(Err(fault)),
        },
        Err(fault) => Ok(Err(fault)),
    }
}

/// Indexes an array by the positions.
#[tactic(auto, using(crate::proofs::Indexing::written_again, crate::proofs::Indexing::written_counted))]
fn of_positions(
    alloc: Global,
    array: &Array,
    positions: &[Option<Evaluated>],
) -> Result<Array, ApplyFault>
    ensures { IsAnswerTo (index_whole array.now (map position_in positions.now)) result }
{
    let written = written_of(alloc, positions)?;
    let args = arguments_of(alloc, array, positions)?;
    let index = Index {
        written: written.as_slice(),
    };
    index.apply(alloc, args.as_slice())
}

/// Collects the array and the written positions.
fn arguments_of<'a>(
    alloc: Global,
    array: &'a Array,
    positions: &'a [Option<Evaluated>],
) -> Result<Vec<Seen<'a>>, AllocError>
    ensures { IfOk result (λ args. args.items ≡ array.now ∷ written_arrays positions.now) }
{
    let mut args = Vec::new(alloc);
    args.push(Seen::plain(array))?;
    for position in positions {
        if let Some(operand) = position {
            args.push(Seen::plain(operand.array()))?;
        }
    }
    Ok(args)
}

/// Converts the result of a function to an argument. Its error has no origin.
fn made<'a>(applied: Result<Array, ApplyFault>) -> Result<Result<Evaluated<'a>, Fault>, AllocError>
    ensures { (wanted : Result ArrayValue AKind) → IsAnswerTo wanted applied → IfOk result (λ operand. outcome_of operand ≡ given wanted) }
{
    let outcome = outcome(applied)?;
    Ok(as_evaluated(outcome))
}

/// Wraps an owned array as an argument, or returns the error.
fn as_evaluated<'a>(outcome: Result<Array, Fault>) -> Result<Evaluated<'a>, Fault>
    ensures { outcome_of result ≡ outcome }
{
    match outcome {
        Ok(array) => Ok(Evaluated::Made(array)),
        Err(fault) => Err(fault),
    }
}

/// Returns the error of each of these names; VALUE ERROR for a name with an array.
pub(crate) fn errors_shown<S: Shows>(
    alloc: Global,
    names: &S,
    references: &[Name],
) -> Result<Vec<Fault>, AllocError>
    ensures { IfOk result (λ errors. errors.items ≡ map (λ x. error_in (S.shows names.now x)) references.now) }
{
    let mut errors = Vec::new(alloc);
    for reference in references {
        errors.push(error_shown(names, *reference))?;
    }
    Ok(errors)
}

/// Returns the error of a name; VALUE ERROR if it has an array.
fn error_shown<S: Shows>(names: &S, name: Name) -> Fault
    ensures { result ≡ error_in (S.shows names.now name) }
{
    match names.result_of(name) {
        Ok(_) => unknown(),
        Err(fault) => fault,
    }
}

/// Returns an unchanged input for each of these names. Borrows their errors.
pub(crate) fn inputs_at_rest<'a, S: Shows>(
    alloc: Global,
    names: &'a S,
    references: &[Name],
    errors: &'a [Fault],
    unchanged: &'a Delta,
) -> Result<Vec<Input<'a>>, AllocError>
    requires same { unchanged.now ≡ Same }
    requires errors { errors.now ≡ map (λ x. error_in (S.shows names.now x)) references.now }
    ensures inputs { IfOk result (λ inputs. AreInputs (at_rest (S.shows names.entry.now)) references.now inputs.items) }
    ensures sound { IfOk result (λ inputs. (x : List ℕ) → Contains references.now x → IsNameSound (at_rest (S.shows names.entry.now)) x) }
{
    let mut inputs = Vec::new(alloc);
    for place in 0..references.len() {
        inputs.push(input_at_rest(names, references[place], &errors[place], unchanged))?;
    }
    Ok(inputs)
}

/// Returns the unchanged input of a name.
fn input_at_rest<'a, S: Shows>(
    names: &'a S,
    name: Name,
    error: &'a Fault,
    unchanged: &'a Delta,
) -> Input<'a>
    requires same { unchanged.now ≡ Same }
    requires error { error.now ≡ error_in (S.shows names.now name) }
    ensures input { IsInput (S.shows names.entry.now name) Same result }
    ensures sound { IfOk (S.shows names.entry.now name) IsArray }
{
    match names.result_of(name) {
        Ok(array) => Input::of(Ok(array), unchanged),
        Err(_) => Input::of(Err(LentFault::of(error)), unchanged),
    }
}
