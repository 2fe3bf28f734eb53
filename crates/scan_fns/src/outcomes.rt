//! A prefix of a line under a function with results 0 and 1.

ghost use Rattle.std.specs.Prelude.{◌≡◌, Some, None};
ghost use Rattle.scan_fns.specs.Prefixes.{IsFresh, GivesTruths, outcome};

use crate::prefix::Prefix;
use arrays_core::Kind;
use item_fns::kernels::TwoNumbers;
use std::alloc::AllocError;

/// `x1 f (x2 f (.. (xk f v)))` of v, for an f with results 0 and 1. Keeps xk, and the folds of the numbers before it with 0 and with 1.
pub(crate) struct Outcomes<S: TwoNumbers> {
    step: S,
    last: Option<i64>,
    at_zero: Result<i64, Kind>,
    at_one: Result<i64, Kind>,
    ghost truths: { GivesTruths (S.gives step) },
}

impl<S: TwoNumbers + Copy> Clone for Outcomes<S> {
    fn clone(&self) -> Result<Outcomes<S>, AllocError> {
        Ok(*self)
    }
}

impl<S: TwoNumbers + Copy> Copy for Outcomes<S> {}

impl<S: TwoNumbers> Outcomes<S> {
    /// Returns the empty prefix.
    pub(crate) fn none(step: S) -> Outcomes<S>
        requires { GivesTruths (S.gives step) }
        ensures fresh { IsFresh (outcome (S.gives result.step) result.last result.at_zero result.at_one) }
        ensures same { result.step ≡ step }
    {
        Outcomes {
            step,
            last: None,
            at_zero: Ok(0),
            at_one: Ok(1),
        }
    }

    /// Returns the fold of the numbers before `last`, then `last` and `number`.
    fn after(&self, last: i64, number: i64) -> Result<i64, Kind>
        ensures { result ≡ outcome (S.gives self.now.step) (Some last) self.now.at_zero self.now.at_one number }
    {
        if self.step.at(last, number)? == 0 {
            self.at_zero
        } else {
            self.at_one
        }
    }
}

impl<S: TwoNumbers> Prefix for Outcomes<S> {
    ghost step = { λ s. S.gives s.step };

    ghost gives = { λ s. outcome (S.gives s.step) s.last s.at_zero s.at_one };

    fn push(&mut self, number: i64) -> Result<i64, Kind> {
        let Some(last) = self.last else {
            self.last = Some(number);
            self.at_zero = Ok(0);
            self.at_one = Ok(1);
            return Ok(number);
        };
        let result = self.after(last, number)?;
        let at_zero = self.after(last, 0);
        self.at_one = self.after(last, 1);
        self.at_zero = at_zero;
        self.last = Some(number);
        Ok(result)
    }
}
