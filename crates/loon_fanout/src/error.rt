// Why a netlist isn't buffered.
ghost use Rattle.std.specs.Prelude.{◌≡◌};
ghost use Rattle.loon_fanout.specs.declared.error.BufferError.TheVariants.{Memory};

use std::alloc::{AllocError, AllocFailed};
use thiserror::Error;

/// Why a netlist isn't buffered.
#[derive(Debug, Drop, Error)]
pub enum BufferError {
    #[error("out of memory")]
    Memory,
    /// A net has more sinks than it may have, and the library has neither a buffer nor an inverter.
    #[error("no buffer")]
    NoBuffer,
}

impl From<AllocError> for BufferError {
    ghost from_gives = { λ _ e. e ≡ Memory };

    fn from(_: AllocError) -> Self {
        BufferError::Memory
    }
}

impl<T: Drop> From<AllocFailed<T>> for BufferError {
    ghost from_gives = { λ _ e. e ≡ Memory };

    fn from(_: AllocFailed<T>) -> Self {
        BufferError::Memory
    }
}
