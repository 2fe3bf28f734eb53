//! The reasons for refusals.

ghost use Rattle.std.specs.Prelude.{◌≡◌};
ghost use Rattle.sheet_recalc.specs.declared.refusal.Refusal.TheVariants.{NoMemory};

use arrays_core::Fault;
use names::Name;
use std::alloc::{AllocError, AllocFailed};

/// The reason why a change or a slot command is refused. The sheet or desk then stays. A sheet never returns the last four.
#[derive(Debug, Drop)]
pub enum Refusal {
    /// The name would reach itself. The cycle of names begins with the defined one: each refers to the next, the last to the first.
    Cycle(Vec<Name>),
    /// The name is absent.
    NotFound,
    /// The name is bound to a formula.
    NotData,
    /// The number of positions differs from the number of axes, or the data has no rows: it is neither a vector nor a matrix.
    Rank,
    /// The literal has not exactly one item, or not as many as a row of the data.
    Length,
    /// A position is less than 1 or greater than its axis.
    Index,
    /// The literal's items have the other type.
    Domain,
    /// The data would exceed the limits of arrays.
    Limit,
    /// The name is new, and the sheet has its greatest number of names.
    SheetFull,
    /// The value of the expression is an error.
    Fault(Fault),
    /// The allocator refused memory.
    NoMemory,
    /// Another change was made after the slot's change was opened.
    Stale,
    /// The slot's change has steps left.
    NotReady,
    /// There is no slot of this number, or it is empty.
    NoSlot,
    /// The slot holds a change.
    SlotInUse,
}

impl From<AllocError> for Refusal {
    ghost from_gives = { λ _ e. e ≡ NoMemory };

    fn from(_error: AllocError) -> Refusal {
        Refusal::NoMemory
    }
}

impl<T: Drop> From<AllocFailed<T>> for Refusal {
    ghost from_gives = { λ _ e. e ≡ NoMemory };

    fn from(_refused: AllocFailed<T>) -> Refusal {
        Refusal::NoMemory
    }
}
