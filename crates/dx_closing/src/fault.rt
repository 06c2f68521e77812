// Why a rule has no closing.
use std::alloc::AllocError;
use thiserror::Error;

/// Why a rule wasn't closed.
#[derive(Debug, Drop, Error)]
pub enum CloseFault {
    #[error("a closed conclusion has more than 64 atoms")]
    TooWide,
    #[error("out of memory")]
    Memory,
}

impl From<AllocError> for CloseFault {
    ghost use Rattle.std.specs.Prelude.{◌≡◌};
    ghost use Rattle.dx_closing.specs.declared.fault.CloseFault.TheVariants.{Memory};

    ghost from_gives = { λ _ e. e ≡ Memory };

    fn from(_: AllocError) -> Self {
        CloseFault::Memory
    }
}
