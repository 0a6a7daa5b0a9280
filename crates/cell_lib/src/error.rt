// Why there is no library.
ghost use Rattle.std.specs.Prelude.{◌≡◌};
ghost use Rattle.cell_lib.specs.declared.error.LibError.TheVariants.{Memory};

use std::alloc::{AllocError, AllocFailed};
use thiserror::Error;
use vlsi_base::{FileName, Limit, Text};

/// Why there is no library.
#[derive(Debug, Drop, Error)]
pub enum LibError {
    /// Memory ran out.
    #[error("out of memory")]
    Memory,
    /// CATAL, or a file of a cell that it uses, isn't there.
    #[error("a file is missing")]
    Missing(FileName),
    /// CATAL, or a file of a cell that it uses, can't be read.
    #[error("a file can't be read")]
    ReadFault(FileName),
    /// A quantity of these files is over its number.
    #[error("limit: {} {}", .0.which.as_str(), .0.reached)]
    Limit(Limit),
    /// The line of CATAL, counted from 1, that is at fault.
    #[error("line {0}")]
    BadCatal(u32),
    /// A cell, and the number of the first check that it fails, counted from 1.
    #[error("a cell fails check {cause}")]
    BadCell { cell: Text, cause: u8 },
}

impl From<AllocError> for LibError {
    ghost from_gives = { λ _ e. e ≡ Memory };

    fn from(_: AllocError) -> Self {
        LibError::Memory
    }
}

impl<T: Drop> From<AllocFailed<T>> for LibError {
    ghost from_gives = { λ _ e. e ≡ Memory };

    fn from(_: AllocFailed<T>) -> Self {
        LibError::Memory
    }
}
