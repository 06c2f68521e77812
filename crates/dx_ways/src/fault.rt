// Why ways aren't listed.
use std::alloc::AllocError;
use thiserror::Error;

/// Why ways weren't listed.
#[derive(Debug, Drop, Error)]
pub enum WaysFault {
    #[error("there are more than 64 ways")]
    TooMany,
    #[error("out of memory")]
    Memory,
}

impl From<AllocError> for WaysFault {
    ghost use Rattle.std.specs.Prelude.{◌≡◌};
    ghost use Rattle.dx_ways.specs.declared.fault.WaysFault.TheVariants.{Memory};

    ghost from_gives = { λ _ e. e ≡ Memory };

    fn from(_: AllocError) -> Self {
        WaysFault::Memory
    }
}
