//! The trees of lines that the totals of a formula keep.

ghost use Rattle.std.specs.Prelude.{◌≡◌, Some, true, Option, Ok, IfOk};
ghost use Rattle.index_region.specs.declared.delta.Delta.TheVariants.{Patch as PatchDelta, Grown as GrownDelta};
ghost use Rattle.index_region.specs.Patches.{FitsPatch};
ghost use Rattle.sum_rules.specs.LineSums.{SummedValue, StandFor};
ghost use Rattle.formula_core.specs.Changes.{HasGrown};
ghost use Rattle.formula_core.specs.Inputs.{shown, delta_of, HasFit};
ghost use Rattle.formula_core.specs.Sums.{total_of as fold_of_total, resummed, FitsInSums, IsJoinedFrom, IsSumsDelta};

use crate::input::Input;
use apl_expr::Function1;
use fold_trees::has_trees;
use index_region::{Delta, Patch, Seen, Tail};
use operator_fns::Reduce;
use std::alloc::{AllocError, Global};
use sum_rules::{JoinedPatch, JoinedTrees, LineSums, NewLines, keeps_sums};

/// A patch of more than one place in 16 rebuilds the sums: to take its items one by one is slower.
const PLACES_TO_ONE_NEW: usize = 16;

/// The change of the sums of a node.
#[derive(Drop)]
pub(crate) enum SumsDelta {
    /// No change.
    Same,
    /// New items for a box of the array whose lines are folded, with the joins made for them.
    Patch(Box<JoinedPatch>),
    /// New numbers at the end of the lines, or new lines, of an array that grew.
    Grown(Box<NewLines>),
    /// Other sums, or none.
    Whole(Option<LineSums>),
}

/// Returns the fold of a function whose lines keep trees, such as `+/` or `⌈⌿`.
#[inline(always)]
pub(crate) fn total_of(function: Function1) -> Option<Reduce>
    ensures { result ≡ fold_of_total function }
{
    match function {
        Function1::Reduce(function, along) if has_trees(function) => {
            Some(Reduce { function, along })
        }
        _ => None,
    }
}

/// Returns the change of the sums of an argument's lines. A small patch updates the kept sums, a tail appends to them. Anything else that changes
/// the array rebuilds them; an error drops them.
#[inline(never)]
pub(crate) fn sums_delta(
    alloc: Global,
    fold: Reduce,
    input: &Input,
    kept: &Option<LineSums>,
) -> Result<SumsDelta, AllocError>
    requires { HasFit input.now }
    ensures { IfOk result (IsSumsDelta fold (shown input.now) (delta_of input.now) kept.now) }
{
    match input {
        Input::Bad { .. } => Ok(SumsDelta::Whole(None)),
        Input::Good(array, delta) => match delta {
            Delta::Same => Ok(SumsDelta::Same),
            Delta::Whole(_) => made_anew(alloc, fold, array),
            Delta::Grown(tail) => grown_delta(alloc, fold, array, tail, kept),
            Delta::Patch(patch) => patch_delta(alloc, fold, array, patch, kept),
        },
    }
}

/// Computes the sums of an array's lines; none if `LineSums::of` keeps none for it.
fn made_anew(alloc: Global, fold: Reduce, array: &Seen) -> Result<SumsDelta, AllocError>
    ensures { IfOk result (λ s. (d : Delta) → (kept : Option SummedValue) → IsSumsDelta fold (Ok array.now) d kept s) }
{
    Ok(SumsDelta::Whole(LineSums::of(alloc, fold, array)?))
}

/// Returns the change of the sums for a patch of the array. A patch of at most `places / PLACES_TO_ONE_NEW + 1` places updates the kept sums. A
/// larger patch rebuilds them, and so does a patch of an array without sums.
fn patch_delta(
    alloc: Global,
    fold: Reduce,
    array: &Seen,
    patch: &Patch,
    kept: &Option<LineSums>,
) -> Result<SumsDelta, AllocError>
    requires { FitsPatch array.now patch.now }
    ensures { IfOk result (IsSumsDelta fold (Ok array.now) (PatchDelta patch.now) kept.now) }
{
    let places = array.places() as usize;
    if let Some(sums) = kept {
        if patch.region().size() <= places / PLACES_TO_ONE_NEW + 1 {
            return Ok(SumsDelta::Patch(sums.joined(alloc, patch.copy()?)?));
        }
    }
    made_anew(alloc, fold, array)
}

/// Returns the change of the sums for an array that grew: appends the tail to the kept sums. Without any it builds them.
#[tactic(auto, using(crate::proofs::Summed::lines_taken))]
fn grown_delta(
    alloc: Global,
    fold: Reduce,
    array: &Seen,
    tail: &Tail,
    kept: &Option<LineSums>,
) -> Result<SumsDelta, AllocError>
    requires { HasGrown array.now tail.now }
    ensures { IfOk result (IsSumsDelta fold (Ok array.now) (GrownDelta tail.now) kept.now) }
{
    if kept.is_some() && keeps_sums(fold, array) {
        let axis = fold.along.axis_at(array.shape().as_slice().len() as u32);
        let lines = NewLines::of(alloc, fold.function, axis, tail)?;
        return Ok(SumsDelta::Grown(Box::new(alloc, lines)?));
    }
    made_anew(alloc, fold, array)
}

/// Returns the kept trees of sums, with the joins made for their change.
pub(crate) fn trees_with<'a>(sums: &'a LineSums, made: &'a SumsDelta) -> JoinedTrees<'a>
    requires { IsJoinedFrom (Some sums.now) made.now }
    ensures function { result.function ≡ sums.now.function }
    ensures lines { StandFor result.lines sums.now.axis sums.now.array }
{
    match made {
        SumsDelta::Patch(patch) => sums.trees_with(patch),
        _ => JoinedTrees::alone(sums.trees()),
    }
}

/// Applies a change to the sums of a node. Allocates nothing.
pub(crate) fn take_sums_delta(kept: &mut Option<LineSums>, change: SumsDelta)
    requires { FitsInSums change kept.old }
    ensures { kept.new ≡ resummed change kept.old }
{
    match change {
        SumsDelta::Same => {}
        SumsDelta::Whole(sums) => *kept = sums,
        SumsDelta::Patch(patch) => {
            if let Some(sums) = kept {
                sums.take(patch);
            }
        }
        SumsDelta::Grown(lines) => {
            if let Some(sums) = kept {
                sums.grow(Box::into_inner(lines));
            }
        }
    }
}
