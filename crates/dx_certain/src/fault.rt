// Why there is no list of answers.
ghost use Rattle.std.specs.Prelude.{◌≡◌};
ghost use Rattle.dx_certain.specs.declared.fault.CertainFault.TheVariants.{Memory};

use dx_base::Limit;
use std::alloc::{AllocError, AllocFailed};
use thiserror::Error;

/// Why there is no list of answers.
#[derive(Clone, Copy, Debug, PartialEq, Eq, Error)]
pub enum CertainFault {
    /// The answers have more cells than the limit.
    #[error("there are too many answer cells")]
    Limit(Limit),
    /// Memory ran out.
    #[error("out of memory")]
    Memory,
}

impl From<AllocError> for CertainFault {
    ghost from_gives = { λ _ e. e ≡ Memory };

    fn from(_: AllocError) -> Self {
        CertainFault::Memory
    }
}

impl<T: Drop> From<AllocFailed<T>> for CertainFault {
    ghost from_gives = { λ _ e. e ≡ Memory };

    fn from(_: AllocFailed<T>) -> Self {
        CertainFault::Memory
    }
}
