//! The events of a desk and its answers.

ghost use Rattle.std.specs.Prelude.{◌≡◌};
ghost use Rattle.sheet_desk.specs.Asked.{answer_of, count_answer, done_answer, show_answer};

use apl_expr::{Change, Expr};
use arrays_core::{Array, Fault};
use sheet_recalc::Refusal;
use std::alloc::AllocError;

/// An event of a desk. It names a slot by its number.
#[derive(Debug, Drop)]
pub enum Event {
    /// Open a change in a slot.
    Open(i64, Change),
    /// Do one step of the change in a slot.
    Step(i64),
    /// Make the change in a slot.
    Commit(i64),
    /// Drop the change in a slot.
    Drop(i64),
    /// Make a change at once.
    Plain(Change),
    /// Evaluate an expression.
    Show(Expr),
}

/// The answer to an event.
#[derive(Drop)]
pub enum Answer {
    /// The event is done.
    Done,
    /// The number of steps left.
    Left(u32),
    /// The value of the expression.
    Shown(Result<Array, Fault>),
    /// The event is refused; the desk stays.
    Refused(Refusal),
}

impl Answer {
    /// Converts the result of a call that returns the number of steps left.
    pub(crate) fn counted(outcome: Result<u32, Refusal>) -> Answer
        ensures { answer_of result ≡ count_answer outcome }
    {
        match outcome {
            Ok(left) => Answer::Left(left),
            Err(cause) => Answer::Refused(cause),
        }
    }

    /// Converts the result of a call that returns nothing.
    pub(crate) fn done(outcome: Result<(), Refusal>) -> Answer
        ensures { answer_of result ≡ done_answer outcome }
    {
        match outcome {
            Ok(()) => Answer::Done,
            Err(cause) => Answer::Refused(cause),
        }
    }

    /// Converts the result of a call that evaluates an expression.
    pub(crate) fn shown(outcome: Result<Result<Array, Fault>, AllocError>) -> Answer
        ensures { answer_of result ≡ show_answer outcome }
    {
        match outcome {
            Ok(shown) => Answer::Shown(shown),
            Err(_) => Answer::Refused(Refusal::NoMemory),
        }
    }
}
