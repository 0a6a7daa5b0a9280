// Why a figure isn't read as a placement.
ghost use Rattle.std.specs.Prelude.{◌≡◌};
ghost use Rattle.ocp_figure.specs.declared.error.PlaceError.TheVariants.{Memory};

use std::alloc::{AllocError, AllocFailed};
use thiserror::Error;

/// Why a figure isn't read as a placement.
#[derive(Debug, Drop, Error)]
pub enum PlaceError {
    #[error("out of memory")]
    Memory,
    /// The figure isn't the drawing of a placement.
    #[error("not placed")]
    NotPlaced,
}

impl From<AllocError> for PlaceError {
    ghost from_gives = { λ _ e. e ≡ Memory };

    fn from(_: AllocError) -> Self {
        PlaceError::Memory
    }
}

impl<T: Drop> From<AllocFailed<T>> for PlaceError {
    ghost from_gives = { λ _ e. e ≡ Memory };

    fn from(_: AllocFailed<T>) -> Self {
        PlaceError::Memory
    }
}
