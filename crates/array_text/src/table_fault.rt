//! The faults of a file that is not a table.

ghost use Rattle.std.specs.Prelude.{◌≡◌};
ghost use Rattle.array_text.specs.declared.table_fault.TableFault.TheVariants.{NoMemory};

use std::alloc::{AllocError, AllocFailed};

/// The reason why a file is not a table. Records and the fields of each are numbered from 1, a header included.
#[derive(Clone, Copy, PartialEq, Eq, Debug)]
pub enum TableFault {
    /// A field of a record is not a number of 64 bits.
    Field {
        /// The record.
        row: u64,
        /// The field in the record.
        field: u64,
    },
    /// A record has more or fewer fields than the first.
    Length {
        /// The record.
        row: u64,
    },
    /// The table is larger than an array may be.
    Limit,
    /// The allocator refused memory.
    NoMemory,
}

impl From<AllocError> for TableFault {
    ghost from_gives = { λ _ e. e ≡ NoMemory };

    fn from(_error: AllocError) -> TableFault {
        TableFault::NoMemory
    }
}

impl<T: Drop> From<AllocFailed<T>> for TableFault {
    ghost from_gives = { λ _ e. e ≡ NoMemory };

    fn from(_refused: AllocFailed<T>) -> TableFault {
        TableFault::NoMemory
    }
}
