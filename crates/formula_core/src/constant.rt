//! A literal with its array.

ghost use Rattle.std.specs.Prelude.{◌≡◌, Ok, Err, IfOk};
ghost use Rattle.apl_expr.specs.Trees.{literal_of};
ghost use Rattle.arrays_core.specs.Outcomes.{given};
ghost use Rattle.formula_core.specs.Inputs.{IsAllOrNothing, IsInput};
ghost use Rattle.formula_core.specs.Meaning.{array_of};

use crate::input::Input;
use crate::lent_fault::LentFault;
use crate::literals::array_of;
use apl_expr::Literal;
use arrays_core::{ApplyFault, Array, Fault};
use index_region::{Delta, Seen};
use std::alloc::{AllocError, Global};
use std::marker::Model;

/// A literal as its array. One that is longer than arrays may be is stored with its error in a box, so that other literals keep no room for it.
#[derive(Drop)]
pub(crate) struct Constant {
    gives: Result<Array, Box<(Literal, Fault)>>,
}

impl Model for Constant {
    ghost use Rattle.apl_expr.specs.Trees.{Literal};
    ghost use Rattle.formula_core.specs.Constants.{literal_in, IsGiven};

    ghost Value = { Literal };

    ghost use Rattle.std.specs.Coded.{codes};
    ghost use Rattle.formula_core.specs.Laws.Codes.{coded_literal};

    ghost coded = { Prim.hlevel (codes, coded_literal) };

    ghost view = { λ c. literal_in c.gives };

    ghost invariant = { λ c. IsGiven c.gives };
}

impl Constant {
    /// Makes the array of a literal, or its error.
    pub(crate) fn of(alloc: Global, literal: &Literal) -> Result<Constant, AllocError>
        ensures { IfOk result (λ constant. constant ≡ literal_of literal.now) }
    {
        match array_of(alloc, literal) {
            Ok(array) => Ok(Constant { gives: Ok(array) }),
            Err(ApplyFault::Kind(kind)) => Ok(Constant {
                gives: Err(Box::new(alloc, (copy_of(alloc, literal)?, kind.into()))?),
            }),
            Err(ApplyFault::NoMemory) => Err(AllocError),
        }
    }

    /// Returns the literal's array or error as an input with this change.
    pub(crate) fn input<'a>(&'a self, change: &'a Delta) -> Input<'a>
        requires { IsAllOrNothing change.now }
        ensures { IsInput (given (array_of self.now)) change.now result }
    {
        match &self.gives {
            Ok(array) => Input::Good(Seen::plain(array), change),
            Err(refused) => Input::Bad {
                fault: LentFault::of(&refused.1),
                changed: !matches!(change, Delta::Same),
            },
        }
    }
}

/// Copies a literal.
fn copy_of(alloc: Global, literal: &Literal) -> Result<Literal, AllocError>
    ensures { IfOk result (λ copy. literal_of copy ≡ literal_of literal.now) }
{
    let copy = match literal {
        Literal::Num(number) => Literal::Num(*number),
        Literal::Nums(numbers) => Literal::Nums(numbers.to_vec(alloc)?),
        Literal::Char(character) => Literal::Char(*character),
        Literal::Text(characters) => Literal::Text(characters.to_vec(alloc)?),
    };
    Ok(copy)
}
