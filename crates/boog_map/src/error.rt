// Why a machine isn't mapped.
ghost use Rattle.std.specs.Prelude.{◌≡◌};
ghost use Rattle.boog_map.specs.declared.error.MapError.TheVariants.{Memory};

use std::alloc::AllocError;
use thiserror::Error;
use vlsi_base::Kind;

/// Why a machine isn't mapped.
#[derive(Debug, Drop, Error)]
pub enum MapError {
    #[error("out of memory")]
    Memory,
    /// The first kind that the library has no usable cell of.
    #[error("{}", .0.as_str())]
    NoCover(Kind),
}

impl From<AllocError> for MapError {
    ghost from_gives = { λ _ e. e ≡ Memory };

    fn from(_: AllocError) -> Self {
        MapError::Memory
    }
}
