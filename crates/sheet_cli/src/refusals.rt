//! The texts of results of edits and of slot commands.

ghost use Rattle.std.specs.Prelude.{◌≡◌, true, IfOk, IsOk, IfErr};
ghost use Rattle.sheet_desk.specs.Asked.{count_answer, done_answer};
ghost use Rattle.sheet_cli.specs.Answer.{IsRefusalText, IsPrintedFor};
ghost use Rattle.sheet_cli.specs.Refusals.{is_always_there};
ghost use Rattle.sheet_cli.specs.Printed.{printed_bytes};

use crate::count_line::CountLine;
use crate::printed::Printed;
use array_text::print_fault;
use sheet_recalc::Refusal;
use std::alloc::{AllocError, Global};

/// Returns no text for success, otherwise the text of the refusal. Only the error of an expression needs memory.
pub(crate) fn outcome_text(
    alloc: Global,
    outcome: Result<(), Refusal>,
) -> Result<Printed, AllocError>
    ensures text { IfOk result (λ text. IsPrintedFor (done_answer outcome) (printed_bytes text)) }
    ensures done { IsOk outcome → IsOk result }
    ensures always { IfErr outcome (λ cause. is_always_there cause ≡ true → IsOk result) }
{
    match outcome {
        Ok(()) => Ok(Printed::Fixed("")),
        Err(refusal) => refusal_text(alloc, &refusal),
    }
}

/// Returns the text of a step count or of the refusal.
pub(crate) fn count_text(
    alloc: Global,
    outcome: Result<u32, Refusal>,
) -> Result<Printed, AllocError>
    ensures text { IfOk result (λ text. IsPrintedFor (count_answer outcome) (printed_bytes text)) }
    ensures done { IsOk outcome → IsOk result }
    ensures always { IfErr outcome (λ cause. is_always_there cause ≡ true → IsOk result) }
{
    match outcome {
        Ok(count) => Ok(Printed::Count(CountLine::new(u64::from(count)))),
        Err(refusal) => refusal_text(alloc, &refusal),
    }
}

/// Returns the line that a refusal prints; want of memory has none and is an error.
pub(crate) fn refusal_text(alloc: Global, refusal: &Refusal) -> Result<Printed, AllocError>
    ensures text { IfOk result (λ text. IsRefusalText refusal.now (printed_bytes text)) }
    ensures always { is_always_there refusal.now ≡ true → IsOk result }
{
    match refusal {
        Refusal::Cycle(_) => Ok(Printed::Fixed("CYCLE\n")),
        Refusal::NotFound => Ok(Printed::Fixed("NOT FOUND\n")),
        Refusal::NotData => Ok(Printed::Fixed("NOT DATA\n")),
        Refusal::Rank => Ok(Printed::Fixed("RANK ERROR\n")),
        Refusal::Length => Ok(Printed::Fixed("LENGTH ERROR\n")),
        Refusal::Index => Ok(Printed::Fixed("INDEX ERROR\n")),
        Refusal::Domain => Ok(Printed::Fixed("DOMAIN ERROR\n")),
        Refusal::Limit => Ok(Printed::Fixed("LIMIT ERROR\n")),
        Refusal::SheetFull => Ok(Printed::Fixed("SHEET FULL\n")),
        Refusal::NoMemory => Err(AllocError),
        Refusal::Stale => Ok(Printed::Fixed("STALE\n")),
        Refusal::NotReady => Ok(Printed::Fixed("NOT READY\n")),
        Refusal::NoSlot => Ok(Printed::Fixed("NO SLOT\n")),
        Refusal::SlotInUse => Ok(Printed::Fixed("SLOT IN USE\n")),
        Refusal::Fault(fault) => Ok(Printed::Made(print_fault(alloc, fault)?)),
    }
}
