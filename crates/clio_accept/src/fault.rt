// Why a mapping text is not accepted.
ghost use Rattle.std.specs.Prelude.{◌≡◌};
ghost use Rattle.clio_accept.specs.Mapping.{frozen_refusal, limit_refusal, text_refusal};
ghost use Rattle.clio_accept.specs.declared.fault.AcceptFault.TheVariants.{Memory};

use dx_base::limits::DEPTH;
use dx_base::{Count, Limit, Text};
use dx_candidates::CandFault;
use dx_schema::SchemaKind;
use dx_schema_text::{TextFault, TextKind};
use dx_tgd::CanonFault;
use std::alloc::{AllocError, AllocFailed};
use thiserror::Error;

/// What is wrong with the mapping text.
#[derive(Debug, Drop)]
pub enum MapFault {
    /// There is no file `mapping.clio`.
    Absent,
    /// The text has a fault after so many bytes.
    Text { place: u64, kind: TextKind },
    /// The source sets make no schema.
    Source(SchemaKind),
    /// The target sets make no schema.
    Target(SchemaKind),
    /// A target set has this name, which a file of clio's own has.
    Reserved(Text),
}

/// Why a mapping text is not accepted.
#[derive(Debug, Drop, Error)]
pub enum AcceptFault {
    #[error("the mapping text is at fault")]
    Mapping(MapFault),
    #[error("a limit is passed")]
    Limit(Limit),
    #[error("out of memory")]
    Memory,
}

impl From<AllocError> for AcceptFault {
    ghost from_gives = { λ _ e. e ≡ Memory };

    fn from(_: AllocError) -> Self {
        AcceptFault::Memory
    }
}

impl<T: Drop> From<AllocFailed<T>> for AcceptFault {
    ghost from_gives = { λ _ e. e ≡ Memory };

    fn from(_: AllocFailed<T>) -> Self {
        AcceptFault::Memory
    }
}

impl From<TextFault> for AcceptFault {
    ghost from_gives = { λ fault e. e ≡ text_refusal fault };

    fn from(fault: TextFault) -> Self {
        match fault {
            TextFault::At { place, kind } => AcceptFault::Mapping(MapFault::Text { place, kind }),
            TextFault::TooDeep { place: _ } => AcceptFault::Limit(Limit {
                what: Count::Depth,
                number: DEPTH,
            }),
            TextFault::Memory => AcceptFault::Memory,
        }
    }
}

impl From<CandFault> for AcceptFault {
    ghost from_gives = { λ fault e. e ≡ limit_refusal fault };

    fn from(fault: CandFault) -> Self {
        match fault {
            CandFault::TooMany(limit) => AcceptFault::Limit(limit),
            CandFault::Memory => AcceptFault::Memory,
        }
    }
}

impl From<CanonFault> for AcceptFault {
    ghost from_gives = { λ fault e. e ≡ frozen_refusal fault };

    fn from(fault: CanonFault) -> Self {
        match fault {
            CanonFault::Limit(limit) => AcceptFault::Limit(limit),
            CanonFault::Memory => AcceptFault::Memory,
        }
    }
}
