// Why nets get no tracks.
ghost use Rattle.std.specs.Prelude.{◌≡◌};
ghost use Rattle.nero_tracks.specs.declared.error.TrackError.TheVariants.{Memory};

use std::alloc::{AllocError, AllocFailed};
use thiserror::Error;
use vlsi_base::{Name, Text};

/// Why nets get no tracks.
#[derive(Debug, Drop, Error)]
pub enum TrackError {
    #[error("out of memory")]
    Memory,
    /// Two pins of a cell in use are reached in one column: the first such cell, and its first pin in the column of an earlier one.
    #[error("no column")]
    NoColumn { cell: Text, pin: Name },
}

impl From<AllocError> for TrackError {
    ghost from_gives = { λ _ e. e ≡ Memory };

    fn from(_: AllocError) -> Self {
        TrackError::Memory
    }
}

impl<T: Drop> From<AllocFailed<T>> for TrackError {
    ghost from_gives = { λ _ e. e ≡ Memory };

    fn from(_: AllocFailed<T>) -> Self {
        TrackError::Memory
    }
}
