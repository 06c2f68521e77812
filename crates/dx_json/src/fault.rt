// What is wrong with a document.
ghost use Rattle.std.specs.Prelude.{◌≡◌};
ghost use Rattle.dx_json.specs.declared.fault.JsonFault.TheVariants.{Memory};
ghost use Rattle.dx_json.specs.Unread.{fault_of};

use crate::reading::Unread;
use dx_base::Text;
use std::alloc::{AllocError, AllocFailed};
use thiserror::Error;

/// How a document misses its set. A text is the path of the fault: `/` and a position or a member's name for each step.
#[derive(Debug, Drop, Error)]
pub enum JsonKind {
    /// The bytes are no JSON.
    #[error("the document is no JSON")]
    NotJson,
    /// A value is of another kind than the set says.
    #[error("a value is of another kind than the set says")]
    Shape(Text),
    /// A column's number is no integer of 64 bits.
    #[error("a column's number is no integer of 64 bits")]
    Number(Text),
    /// A member is neither a column nor an inner set.
    #[error("a member is neither a column nor an inner set")]
    Unknown(Text),
}

/// Why a document gave no facts.
#[derive(Debug, Drop, Error)]
pub enum JsonFault {
    /// The first fault of the document.
    #[error("the document is at fault")]
    Bad(JsonKind),
    /// There was no memory for it.
    #[error("out of memory")]
    Memory,
}

impl From<AllocError> for JsonFault {
    ghost from_gives = { λ _ e. e ≡ Memory };

    fn from(_: AllocError) -> Self {
        JsonFault::Memory
    }
}

impl<T: Drop> From<AllocFailed<T>> for JsonFault {
    ghost from_gives = { λ _ e. e ≡ Memory };

    fn from(_: AllocFailed<T>) -> Self {
        JsonFault::Memory
    }
}

impl From<Unread> for JsonFault {
    ghost from_gives = { λ u e. e ≡ fault_of u };

    fn from(e: Unread) -> Self {
        match e {
            Unread::NotJson => JsonFault::Bad(JsonKind::NotJson),
            Unread::Memory => JsonFault::Memory,
        }
    }
}
