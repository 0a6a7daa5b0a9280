// Why a netlist isn't written.
ghost use Rattle.std.specs.Prelude.{◌≡◌};
ghost use Rattle.vst_print.specs.declared.error.WriteError.TheVariants.{Memory};

use std::alloc::{AllocError, AllocFailed};
use thiserror::Error;

/// Why a netlist isn't written.
#[derive(Debug, Drop, Error)]
pub enum WriteError {
    #[error("out of memory")]
    Memory,
    /// Its names can't be written.
    #[error("bad map")]
    BadMap,
}

impl From<AllocError> for WriteError {
    ghost from_gives = { λ _ e. e ≡ Memory };

    fn from(_: AllocError) -> Self {
        WriteError::Memory
    }
}

impl<T: Drop> From<AllocFailed<T>> for WriteError {
    ghost from_gives = { λ _ e. e ≡ Memory };

    fn from(_: AllocFailed<T>) -> Self {
        WriteError::Memory
    }
}
