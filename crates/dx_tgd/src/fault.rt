// Why there is no canonical instance.
ghost use Rattle.std.specs.Prelude.{◌≡◌};
ghost use Rattle.dx_tgd.specs.declared.fault.CanonFault.TheVariants.{Memory};

use dx_base::Limit;
use std::alloc::{AllocError, AllocFailed};
use thiserror::Error;

/// Why there is no canonical instance.
#[derive(Clone, Copy, Debug, PartialEq, Eq, Error)]
pub enum CanonFault {
    /// The canonical instance has more cells than the limit.
    #[error("there are too many canonical cells")]
    Limit(Limit),
    /// Memory ran out.
    #[error("out of memory")]
    Memory,
}

impl From<AllocError> for CanonFault {
    ghost from_gives = { λ _ e. e ≡ Memory };

    fn from(_: AllocError) -> Self {
        CanonFault::Memory
    }
}

impl<T: Drop> From<AllocFailed<T>> for CanonFault {
    ghost from_gives = { λ _ e. e ≡ Memory };

    fn from(_: AllocFailed<T>) -> Self {
        CanonFault::Memory
    }
}
