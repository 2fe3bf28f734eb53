//! The parts of folds by `∧` and `∨`.

ghost use Rattle.std.specs.Prelude.{◌≡◌, pos, IfOk, IfErr};
ghost use Rattle.function_names.specs.declared.scalar.Scalar2.TheVariants.{And as Both, Or as Either};
ghost use Rattle.fold_trees.specs.Parts.{IsTruthFold, truth_value};

use crate::part::Part;
use arrays_core::Kind;
use item_fns::kernels::{And, Or, TwoNumbers};

/// A number that is not a truth value.
const NO_TRUTH: i64 = 2;

/// Returns the result of a function of two numbers, or `NO_TRUTH` where it fails.
fn joined<S: TwoNumbers>(step: &S, left: i64, right: i64) -> i64
    ensures truth { IfOk (S.gives step.now left right) (λ z. result ≡ z) }
    ensures none { IfErr (S.gives step.now left right) (λ kind. result ≡ pos 2) }
{
    step.at(left, right).unwrap_or(NO_TRUTH)
}

/// Returns the number. DOMAIN where it is not a truth value.
fn checked(number: i64) -> Result<i64, Kind>
    ensures { result ≡ truth_value number }
{
    match number {
        0 | 1 => Ok(number),
        _ => Err(Kind::Domain),
    }
}

/// The fold of a list by `∧`: a single number unchanged, else the truth value. `NO_TRUTH` where a number of several is
/// not a truth value.
#[derive(Clone, Copy)]
pub(crate) struct AllTrue {
    truth: i64,
}

impl Part for AllTrue {
    ghost function = { Both };

    ghost tells = { λ s. IsTruthFold Both s.truth };

    ghost blank = { record { truth = pos 0 } };

    fn of(number: i64) -> AllTrue {
        AllTrue { truth: number }
    }

    fn join(&self, later: &AllTrue) -> AllTrue {
        AllTrue {
            truth: joined(&And, self.truth, later.truth),
        }
    }

    fn fold(&self) -> Result<i64, Kind> {
        checked(self.truth)
    }
}

/// The fold of a list by `∨`: a single number unchanged, else the truth value. `NO_TRUTH` where a number of several is
/// not a truth value.
#[derive(Clone, Copy)]
pub(crate) struct AnyTrue {
    truth: i64,
}

impl Part for AnyTrue {
    ghost function = { Either };

    ghost tells = { λ s. IsTruthFold Either s.truth };

    ghost blank = { record { truth = pos 0 } };

    fn of(number: i64) -> AnyTrue {
        AnyTrue { truth: number }
    }

    fn join(&self, later: &AnyTrue) -> AnyTrue {
        AnyTrue {
            truth: joined(&Or, self.truth, later.truth),
        }
    }

    fn fold(&self) -> Result<i64, Kind> {
        checked(self.truth)
    }
}
