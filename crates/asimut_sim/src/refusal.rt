// Why patterns aren't filled in.
ghost use Rattle.std.specs.Prelude.{◌≡◌};
ghost use Rattle.asimut_sim.specs.declared.refusal.SimError.TheVariants.{Memory};

use std::alloc::{AllocError, AllocFailed};
use thiserror::Error;
use vlsi_base::Name;

/// Why patterns aren't filled in.
#[derive(Debug, Drop, Error)]
pub enum SimError {
    #[error("out of memory")]
    Memory,
    /// The first bit that isn't what a pattern expects, and the number of that pattern from 0.
    #[error("pattern {} differs", .pattern)]
    Differs { pattern: usize, name: Name },
}

impl From<AllocError> for SimError {
    ghost from_gives = { λ _ e. e ≡ Memory };

    fn from(_: AllocError) -> Self {
        SimError::Memory
    }
}

impl<T: Drop> From<AllocFailed<T>> for SimError {
    ghost from_gives = { λ _ e. e ≡ Memory };

    fn from(_: AllocFailed<T>) -> Self {
        SimError::Memory
    }
}
