// Why the breaches of a layout aren't known.
ghost use Rattle.std.specs.Prelude.{◌≡◌};
ghost use Rattle.druc_rules.specs.declared.error.DrucError.TheVariants.{Memory};

use std::alloc::{AllocError, AllocFailed};
use thiserror::Error;
use vlsi_base::{Limit, Text};

/// Why the breaches of a layout aren't known.
#[derive(Debug, Drop, Error)]
pub enum DrucError {
    #[error("out of memory")]
    Memory,
    /// The model of the first instance whose model isn't in the library.
    #[error("a model isn't in the library")]
    UnknownCell(Text),
    /// 2^32 shapes or more.
    #[error("limit: {} {}", .0.which.as_str(), .0.reached)]
    Limit(Limit),
}

impl From<AllocError> for DrucError {
    ghost from_gives = { λ _ e. e ≡ Memory };

    fn from(_: AllocError) -> Self {
        DrucError::Memory
    }
}

impl<T: Drop> From<AllocFailed<T>> for DrucError {
    ghost from_gives = { λ _ e. e ≡ Memory };

    fn from(_: AllocFailed<T>) -> Self {
        DrucError::Memory
    }
}
