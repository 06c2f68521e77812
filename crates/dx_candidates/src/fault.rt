// Why candidates aren't listed.
use dx_base::limits::{OCCURRENCES, VARIANTS, WAYS};
use dx_base::{Count, Limit};
use dx_logical::ManyFault;
use dx_ways::WaysFault;
use std::alloc::AllocError;
use thiserror::Error;

/// Why candidates weren't listed.
#[derive(Debug, Drop, Error)]
pub enum CandFault {
    #[error("a limit of lines is passed")]
    TooMany(Limit),
    #[error("out of memory")]
    Memory,
}

impl From<AllocError> for CandFault {
    ghost use Rattle.std.specs.Prelude.{◌≡◌};
    ghost use Rattle.dx_candidates.specs.declared.fault.CandFault.TheVariants.{Memory};

    ghost from_gives = { λ _ e. e ≡ Memory };

    fn from(_: AllocError) -> Self {
        CandFault::Memory
    }
}

impl From<ManyFault> for CandFault {
    ghost use Rattle.std.specs.Prelude.{◌≡◌};
    ghost use Rattle.dx_candidates.specs.Faults.{unfoldings_fault};

    ghost from_gives = { λ m e. e ≡ unfoldings_fault m };

    fn from(fault: ManyFault) -> Self {
        match fault {
            ManyFault::TooMany => CandFault::TooMany(Limit {
                what: Count::Variants,
                number: VARIANTS,
            }),
            ManyFault::TooWide => CandFault::TooMany(Limit {
                what: Count::Occurrences,
                number: OCCURRENCES,
            }),
            ManyFault::Memory => CandFault::Memory,
        }
    }
}

impl From<WaysFault> for CandFault {
    ghost use Rattle.std.specs.Prelude.{◌≡◌};
    ghost use Rattle.dx_candidates.specs.Faults.{ways_fault};

    ghost from_gives = { λ w e. e ≡ ways_fault w };

    fn from(fault: WaysFault) -> Self {
        match fault {
            WaysFault::TooMany => CandFault::TooMany(Limit {
                what: Count::Ways,
                number: WAYS,
            }),
            WaysFault::Memory => CandFault::Memory,
        }
    }
}
