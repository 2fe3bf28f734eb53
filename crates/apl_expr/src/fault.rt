//! The faults of an expression and of a line.

ghost use Rattle.std.specs.Prelude.{◌≡◌};
ghost use Rattle.apl_expr.specs.declared.fault.ParseFault.TheVariants.{NoMemory};

use std::alloc::{AllocError, AllocFailed};
use thiserror::Error;

/// The reason why tokens have no tree.
#[derive(Clone, Copy, Debug, PartialEq, Eq, Error)]
pub enum ParseFault {
    /// The tokens are not an expression.
    #[error("not an expression")]
    Syntax,
    /// There are more than 4,096 tokens, or the tree of the expression is more than 256 high or has more than 512 nodes.
    #[error("too large an expression")]
    Limit,
    /// The allocator refused memory.
    #[error("out of memory")]
    NoMemory,
}

impl From<AllocError> for ParseFault {
    ghost from_gives = { λ _ e. e ≡ NoMemory };

    fn from(_error: AllocError) -> ParseFault {
        ParseFault::NoMemory
    }
}

impl<T: Drop> From<AllocFailed<T>> for ParseFault {
    ghost from_gives = { λ _ e. e ≡ NoMemory };

    fn from(_refused: AllocFailed<T>) -> ParseFault {
        ParseFault::NoMemory
    }
}

/// The reason why a line has no command.
#[derive(Clone, Copy, Debug, PartialEq, Eq, Error)]
pub enum LineFault {
    /// The first token fault from the left is `Syntax`, or the text has tokens, but they are not a line of the grammar.
    #[error("not a line of the language")]
    Syntax,
    /// The first token fault from the left is `Limit`; or there are more than 4,096 tokens; or the tree of the line is more than 256 high or has
    /// more than 512 nodes.
    #[error("too large a line")]
    Limit,
    /// The allocator refused memory.
    #[error("out of memory")]
    NoMemory,
}
