// Why a state machine isn't minimised.
ghost use Rattle.std.specs.Prelude.{◌≡◌};
ghost use Rattle.fmi_min.specs.declared.error.MinError.TheVariants.{Memory};

use std::alloc::AllocError;
use thiserror::Error;

/// Why a state machine isn't minimised.
#[derive(Debug, Drop, Error)]
pub enum MinError {
    #[error("out of memory")]
    Memory,
    /// The statements read so many input bits, more than `MOST_INPUTS`.
    #[error("inputs {0}")]
    Inputs(u32),
}

impl From<AllocError> for MinError {
    ghost from_gives = { λ _ e. e ≡ Memory };

    fn from(_: AllocError) -> Self {
        MinError::Memory
    }
}
