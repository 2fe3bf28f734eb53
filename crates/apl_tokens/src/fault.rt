//! The faults of a text that has no tokens.

ghost use Rattle.std.specs.Prelude.{◌≡◌};
ghost use Rattle.apl_tokens.specs.declared.fault.TokenFault.TheVariants.{NoMemory};

use crate::token::Span;
use std::alloc::{AllocError, AllocFailed};
use thiserror::Error;

/// The reason why a text has no tokens: the first fault from the left with its bytes, or want of memory.
#[derive(Clone, Copy, Debug, PartialEq, Eq, Error)]
pub enum TokenFault {
    /// A character that begins no token; a high minus without a digit after it; a text that is not closed; or a number that a letter, `_` or a
    /// high minus follows directly.
    #[error("no token at bytes {0}")]
    Syntax(Span),
    /// A number out of range, or a name of more than 63 bytes.
    #[error("too large a token at bytes {0}")]
    Limit(Span),
    /// The allocator refused memory.
    #[error("out of memory")]
    NoMemory,
}

impl From<AllocError> for TokenFault {
    ghost from_gives = { λ _ e. e ≡ NoMemory };

    fn from(_error: AllocError) -> TokenFault {
        TokenFault::NoMemory
    }
}

impl<T: Drop> From<AllocFailed<T>> for TokenFault {
    ghost from_gives = { λ _ e. e ≡ NoMemory };

    fn from(_error: AllocFailed<T>) -> TokenFault {
        TokenFault::NoMemory
    }
}
