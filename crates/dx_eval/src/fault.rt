// Why a script makes nothing.
ghost use Rattle.std.specs.Prelude.{◌≡◌};
ghost use Rattle.dx_eval.specs.declared.fault.EvalFault.TheVariants.{Memory};

use dx_base::Limit;
use std::alloc::{AllocError, AllocFailed};
use thiserror::Error;

/// Why a script makes nothing.
#[derive(Clone, Copy, Debug, PartialEq, Eq, Error)]
pub enum EvalFault {
    /// The script inserts more cells than the limit, counted for all matches.
    #[error("there are too many cells")]
    Limit(Limit),
    /// Memory ran out.
    #[error("out of memory")]
    Memory,
}

impl From<AllocError> for EvalFault {
    ghost from_gives = { λ _ e. e ≡ Memory };

    fn from(_: AllocError) -> Self {
        EvalFault::Memory
    }
}

impl<T: Drop> From<AllocFailed<T>> for EvalFault {
    ghost from_gives = { λ _ e. e ≡ Memory };

    fn from(_: AllocFailed<T>) -> Self {
        EvalFault::Memory
    }
}
