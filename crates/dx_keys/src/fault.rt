// Why an instance has no chase.
ghost use Rattle.std.specs.Prelude.{◌≡◌};
ghost use Rattle.dx_keys.specs.declared.fault.ChaseFault.TheVariants.{Memory};

use crate::answers::Clash;
use std::alloc::{AllocError, AllocFailed};
use thiserror::Error;

/// Why an instance has no chase.
#[derive(Debug, Drop, Error)]
pub enum ChaseFault {
    /// Two different constants would have to be one.
    #[error("two constants would have to be one")]
    Clash(Clash),
    /// Memory ran out.
    #[error("out of memory")]
    Memory,
}

impl From<AllocError> for ChaseFault {
    ghost from_gives = { λ _ e. e ≡ Memory };

    fn from(_: AllocError) -> Self {
        ChaseFault::Memory
    }
}

impl<T: Drop> From<AllocFailed<T>> for ChaseFault {
    ghost from_gives = { λ _ e. e ≡ Memory };

    fn from(_: AllocFailed<T>) -> Self {
        ChaseFault::Memory
    }
}
