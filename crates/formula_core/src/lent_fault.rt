//! A borrowed error.

ghost use Rattle.std.specs.Prelude.{◌≡◌};
ghost use Rattle.arrays_core.specs.declared.item.Kind.TheVariants.{Value};
ghost use Rattle.arrays_core.specs.Outcomes.{fault};
ghost use Rattle.formula_core.specs.Outcomes.{arisen_in};

use arrays_core::{Fault, Kind};
use names::Name;
use std::marker::Model;

/// Returns VALUE ERROR, the error of an absent name or of a node without a result.
pub fn unknown() -> Fault
    ensures { result ≡ fault Value }
{
    Kind::Value.into()
}

/// A borrowed error with a possible origin, the name of the formula where it arose. It is smaller than an error.
#[derive(Drop)]
pub struct LentFault<'a> {
    /// The stored error; `None` means VALUE ERROR.
    held: Option<&'a Fault>,
    /// The origin, used if the stored error has none.
    arisen: Option<&'a Name>,
}

impl<'a> Model for LentFault<'a> {
    ghost use Rattle.arrays_core.specs.declared.fault.Fault.{Fault};
    ghost use Rattle.formula_core.specs.Outcomes.{lent_fault};

    ghost Value = { Fault };

    ghost view = { λ f. lent_fault f.held f.arisen };
}

impl<'a> LentFault<'a> {
    /// Returns VALUE ERROR, the error of an absent name or of a node without a result.
    pub fn unknown() -> LentFault<'a>
        ensures { result ≡ fault Value }
    {
        LentFault {
            held: None,
            arisen: None,
        }
    }

    /// Borrows a stored error.
    pub fn of(held: &'a Fault) -> LentFault<'a>
        ensures { result ≡ held.now }
    {
        LentFault {
            held: Some(held),
            arisen: None,
        }
    }

    /// Borrows the error again.
    pub(crate) fn again<'b>(&'b self) -> LentFault<'b>
        ensures { result ≡ self.now }
    {
        LentFault {
            held: self.held,
            arisen: self.arisen,
        }
    }

    /// Gives the error this name as its origin, unless it has one.
    pub fn arisen_in(self, name: &'a Name) -> LentFault<'a>
        ensures { result ≡ arisen_in name.now self.entry }
    {
        if self.arisen.is_some() {
            return self;
        }
        LentFault {
            held: self.held,
            arisen: Some(name),
        }
    }

    /// Returns an owned copy of the error.
    pub fn fault(&self) -> Fault
        ensures { result ≡ self.now }
    {
        let fault = match self.held {
            Some(held) => *held,
            None => unknown(),
        };
        match self.arisen {
            Some(name) => Fault {
                kind: fault.kind,
                origin: fault.origin.or(Some(*name)),
            },
            None => fault,
        }
    }
}
