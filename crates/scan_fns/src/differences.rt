//! A prefix of a line under `-`.

ghost use Rattle.std.specs.Prelude.{◌≡◌, ◌+ℤ◌, ◌-ℤ◌, if◌then◌else◌, length, IfOk, vec_len};
ghost use Rattle.function_names.specs.declared.scalar.Scalar2.TheVariants.{Minus as Difference};
ghost use Rattle.item_fns.specs.Numbers.{dyadic_on_numbers, number_or_limit};
ghost use Rattle.item_fns.specs.NumberLists.{IsListAnswerTo};
ghost use Rattle.scan_fns.specs.LinearScan.{scans_of};
ghost use Rattle.scan_fns.specs.Prefixes.{IsFresh, difference};

use crate::near_totals::near_totals;
use crate::prefix::{Prefix, prefix_folds};
use arrays_core::{ApplyFault, Kind};
use item_fns::kernels::{Minus, Plus, TwoNumbers};
use reduce_fns::AxisLines;
use std::alloc::Global;

/// `x1 - (x2 - (.. (xk - v)))` of v: `total + v` and `total - v` in turn. Intermediate differences fit 64 bits exactly if `low <= v <= high`. The
/// bounds always admit 0.
#[derive(Clone, Copy)]
pub(crate) struct Differences {
    total: i64,
    is_added: bool,
    low: i64,
    high: i64,
}

impl Differences {
    /// Returns the empty prefix.
    pub(crate) fn none() -> Differences
        ensures { IsFresh (difference result.total result.is_added result.low result.high) }
    {
        Differences {
            total: 0,
            is_added: true,
            low: i64::MIN,
            high: i64::MAX,
        }
    }

    /// Adds `number` to the total or subtracts it; LIMIT beyond 64 bits.
    fn total_with(&self, number: i64) -> Result<i64, Kind>
        ensures { result ≡ number_or_limit (if self.now.is_added then self.now.total +ℤ number else self.now.total -ℤ number) }
    {
        if self.is_added {
            Plus.at(self.total, number)
        } else {
            Minus.at(self.total, number)
        }
    }
}

impl Prefix for Differences {
    ghost step = { λ s. dyadic_on_numbers Difference };

    ghost gives = { λ s. difference s.total s.is_added s.low s.high };

    fn push(&mut self, number: i64) -> Result<i64, Kind> {
        if number < self.low || number > self.high {
            return Err(Kind::Limit);
        }
        let total = self.total_with(number)?;
        *self = Differences {
            total,
            is_added: !self.is_added,
            low: number.saturating_sub(self.high),
            high: number.saturating_sub(self.low),
        };
        Ok(total)
    }
}

/// Scans each line by `-`. Near numbers take one pass without overflow checks, others one more.
pub(crate) fn running_differences(alloc: Global, lines: &AxisLines) -> Result<Vec<i64>, ApplyFault>
    ensures is { IsListAnswerTo (scans_of (dyadic_on_numbers Difference) lines.now) result }
    ensures long { IfOk result (λ v. vec_len v ≡ length lines.now.numbers.now) }
{
    match near_totals(alloc, lines, true)? {
        Some(totals) => Ok(totals),
        None => prefix_folds(alloc, &Differences::none(), lines),
    }
}
