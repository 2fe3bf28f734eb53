//! The errors that take the place of an array.

ghost use Rattle.std.specs.Prelude.{◌≡◌, IfOk};
ghost use Rattle.arrays_core.specs.declared.fault.ApplyFault.TheVariants.{Kind, NoMemory};
ghost use Rattle.arrays_core.specs.Outcomes.{fault, IsOutcomeOf};

use crate::array::Array;
use crate::item::Kind;
use names::Name;
use std::alloc::{AllocError, AllocFailed};

/// An error in place of an array, with its origin.
#[derive(Clone, Copy, PartialEq, Eq, Debug)]
pub struct Fault {
    /// The kind of the error.
    pub kind: Kind,
    /// The name whose formula caused the error, or `None` for the line itself.
    pub origin: Option<Name>,
}

impl From<Kind> for Fault {
    ghost from_gives = { λ kind e. e ≡ fault kind };

    /// Returns an error without an origin.
    fn from(kind: Kind) -> Fault {
        Fault { kind, origin: None }
    }
}

/// The reason why a function has no result.
#[derive(Clone, Copy, PartialEq, Eq, Debug)]
pub enum ApplyFault {
    /// A check failed, or an item has an error.
    Kind(Kind),
    /// The allocator refused memory.
    NoMemory,
}

impl From<Kind> for ApplyFault {
    ghost from_gives = { λ k e. e ≡ Kind k };

    fn from(kind: Kind) -> ApplyFault {
        ApplyFault::Kind(kind)
    }
}

impl From<AllocError> for ApplyFault {
    ghost from_gives = { λ _ e. e ≡ NoMemory };

    fn from(_error: AllocError) -> ApplyFault {
        ApplyFault::NoMemory
    }
}

impl<T: Drop> From<AllocFailed<T>> for ApplyFault {
    ghost from_gives = { λ _ e. e ≡ NoMemory };

    fn from(_refused: AllocFailed<T>) -> ApplyFault {
        ApplyFault::NoMemory
    }
}

/// Separates want of memory from the result of a function, an array or an error without an origin.
#[inline(always)]
pub fn outcome(applied: Result<Array, ApplyFault>) -> Result<Result<Array, Fault>, AllocError>
    ensures { IfOk result (IsOutcomeOf applied) }
{
    match applied {
        Ok(array) => Ok(Ok(array)),
        Err(ApplyFault::Kind(kind)) => Ok(Err(kind.into())),
        Err(ApplyFault::NoMemory) => Err(AllocError),
    }
}
