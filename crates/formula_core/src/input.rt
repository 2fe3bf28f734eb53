//! Inputs: the value of a name, a literal or a node, with its change.

ghost use Rattle.std.specs.Prelude.{◌≡◌, true, IfOk};
ghost use Rattle.arrays_core.specs.Arrays.{IsArray};
ghost use Rattle.change_rules.specs.Currency.{applied};
ghost use Rattle.change_rules.specs.Nodes.{is_whole};
ghost use Rattle.formula_core.specs.Changes.{FitsIn};
ghost use Rattle.formula_core.specs.Inputs.{shown, stays, delta_of, HasFit, IsInput};
ghost use Rattle.formula_core.specs.Outcomes.{read};

use crate::lent_fault::LentFault;
use arrays_core::{Array, Fault};
use index_region::{Delta, Seen};
use std::alloc::AllocError;

/// The value of a name, a literal or a node, with its change.
#[derive(Drop)]
pub enum Input<'a> {
    /// An array and its change.
    Good(Seen<'a>, &'a Delta),
    /// An error.
    Bad {
        /// The error.
        fault: LentFault<'a>,
        /// The value changed.
        changed: bool,
    },
}

impl Default for Input<'_> {
    /// The input of an absent name that was absent already.
    fn default() -> Self {
        Input::Bad {
            fault: LentFault::unknown(),
            changed: false,
        }
    }
}

impl<'a> Input<'a> {
    /// Borrows the input again.
    pub(crate) fn again(&self) -> Input<'_>
        ensures { result ≡ self.now }
    {
        match self {
            Input::Good(array, delta) => Input::Good(array.again(), delta),
            Input::Bad { fault, changed } => Input::Bad {
                fault: fault.again(),
                changed: *changed,
            },
        }
    }

    /// Returns whether nothing changed.
    pub(crate) fn stays(&self) -> bool
        ensures { result ≡ stays self.now }
    {
        match self {
            Input::Good(_, delta) => matches!(delta, Delta::Same),
            Input::Bad { changed, .. } => !changed,
        }
    }

    /// Marks the value new: its change becomes `anew`, any change of the whole.
    pub(crate) fn made_anew(self, anew: &'a Delta) -> Input<'a>
        requires { is_whole anew.now ≡ true }
        ensures shown { shown result ≡ shown self.entry }
        ensures anew { is_whole (delta_of result) ≡ true }
        ensures fit { HasFit result }
    {
        match self {
            Input::Good(array, _) => Input::Good(array, anew),
            Input::Bad { fault, .. } => Input::Bad {
                fault,
                changed: true,
            },
        }
    }

    /// Copies the array, or returns the error.
    pub(crate) fn copy(&self) -> Result<Result<Array, Fault>, AllocError>
        ensures { IfOk result (λ copy. copy ≡ shown self.now) }
    {
        match self {
            Input::Good(array, _) => Ok(Ok(array.copy()?)),
            Input::Bad { fault, .. } => Ok(Err(fault.fault())),
        }
    }

    /// Returns the value of a node after a change of its result, with that change.
    pub(crate) fn of_node(held: &'a Result<Array, Fault>, change: &'a Delta) -> Input<'a>
        requires { FitsIn change.now held.now }
        ensures is { IsInput (applied change.now held.now) change.now result }
        ensures held { IfOk held.now IsArray }
        ensures sound { IfOk (applied change.now held.now) IsArray }
    {
        match held {
            Ok(array) => Input::of(Ok(array), change),
            Err(fault) => Input::of(Err(LentFault::of(fault)), change),
        }
    }

    /// Returns the value after a change of `held`, with that change.
    pub fn of(held: Result<&'a Array, LentFault<'a>>, change: &'a Delta) -> Input<'a>
        requires { FitsIn change.now (read held) }
        ensures is { IsInput (applied change.now (read held.entry)) change.now result }
        ensures held { IfOk (read held.entry) IsArray }
        ensures sound { IfOk (applied change.now (read held.entry)) IsArray }
    {
        if let Ok(array) = &held {
            let _sound = array.shape();
        }
        let input = match (held, change) {
            (_, Delta::Whole(Ok(array))) => Input::Good(Seen::plain(array), change),
            (_, Delta::Whole(Err(fault))) => Input::Bad {
                fault: LentFault::of(fault),
                changed: true,
            },
            (Ok(array), Delta::Patch(patch)) => Input::Good(Seen::patched(array, patch), change),
            (Ok(array), Delta::Grown(tail)) => Input::Good(Seen::grown(array, tail), change),
            (Ok(array), Delta::Same) => Input::Good(Seen::plain(array), change),
            (Err(fault), _) => Input::Bad {
                fault,
                changed: !matches!(change, Delta::Same),
            },
        };
        if let Input::Good(array, _) = &input {
            let _sound = array.shape();
        }
        input
    }
}

/// Proves that the result is an array, before and after the change, unless it is an error.
pub(crate) fn outcomes_are_arrays(held: &Result<Array, Fault>, change: &Delta)
    requires { FitsIn change.now held.now }
    ensures held { IfOk held.now IsArray }
    ensures now { IfOk (applied change.now held.now) IsArray }
{
    if let Delta::Whole(Ok(array)) = change {
        let _is_array = array.shape();
    }
    if let Ok(array) = held {
        let _is_array = array.shape();
        if let Delta::Patch(patch) = change {
            let _is_array = Seen::patched(array, patch).shape();
        }
        if let Delta::Grown(tail) = change {
            let _is_array = Seen::grown(array, tail).shape();
        }
    }
}

/// Proves that the result is an array, unless it is an error.
pub(crate) fn outcome_is_array(held: &Result<Array, Fault>)
    ensures { IfOk held.now IsArray }
{
    if let Ok(array) = held {
        let _is_array = array.shape();
    }
}
