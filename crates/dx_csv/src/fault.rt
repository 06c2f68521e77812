// What is wrong with a table.
ghost use Rattle.std.specs.Prelude.{◌≡◌};
ghost use Rattle.dx_csv.specs.declared.fault.RowFault.TheVariants.{Memory};

use std::alloc::{AllocError, AllocFailed};
use thiserror::Error;

/// How a table's bytes miss its columns. Records are numbered from the header, which is record 0.
#[derive(Clone, Copy, Debug, PartialEq, Eq, Error)]
pub enum RowKind {
    /// There is no record.
    #[error("the table has no header")]
    NoHeader,
    /// At this place, counted from 0, the header has another text than the columns, or one of the two has ended.
    #[error("the header differs from the columns")]
    Header(u32),
    /// The record of this number has more or fewer fields than there are columns.
    #[error("a record has another number of fields than the table has columns")]
    Width(u64),
    /// The record of this number has a field that is not UTF-8.
    #[error("a record has a field that is no text")]
    NotText(u64),
}

/// Why a table was not read.
#[derive(Debug, Drop, Error)]
pub enum RowFault {
    /// The bytes say no table of these columns.
    #[error("the table is at fault")]
    Bad(RowKind),
    /// There was no memory for it.
    #[error("out of memory")]
    Memory,
}

impl From<AllocError> for RowFault {
    ghost from_gives = { λ _ e. e ≡ Memory };

    fn from(_: AllocError) -> Self {
        RowFault::Memory
    }
}

impl<T: Drop> From<AllocFailed<T>> for RowFault {
    ghost from_gives = { λ _ e. e ≡ Memory };

    fn from(_: AllocFailed<T>) -> Self {
        RowFault::Memory
    }
}
