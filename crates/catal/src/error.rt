// Why a CATAL isn't read.
ghost use Rattle.std.specs.Prelude.{◌≡◌};
ghost use Rattle.catal.specs.declared.error.CatalError.TheVariants.{Memory};

use std::alloc::{AllocError, AllocFailed};
use thiserror::Error;
use vlsi_base::Limit;

/// Why a CATAL isn't read.
#[derive(Debug, Drop, Error)]
pub enum CatalError {
    /// Memory ran out.
    #[error("out of memory")]
    Memory,
    /// The line of this number, counted from 1, is none of a CATAL, or gives the word `C` to a cell that has it.
    #[error("line {0}")]
    BadLine(u32),
    /// The file or a name is too long, or there are too many cells.
    #[error("limit: {} {}", .0.which.as_str(), .0.reached)]
    Limit(Limit),
}

impl From<AllocError> for CatalError {
    ghost from_gives = { λ _ e. e ≡ Memory };

    fn from(_: AllocError) -> Self {
        CatalError::Memory
    }
}

impl<T: Drop> From<AllocFailed<T>> for CatalError {
    ghost from_gives = { λ _ e. e ≡ Memory };

    fn from(_: AllocFailed<T>) -> Self {
        CatalError::Memory
    }
}
