// Why not all nets are routed.
ghost use Rattle.std.specs.Prelude.{◌≡◌};
ghost use Rattle.nero_rip.specs.declared.error.RipError.TheVariants.{Memory};

use crate::rip::Rips;
use grid_core::Routes;
use std::alloc::{AllocError, AllocFailed};
use thiserror::Error;
use vlsi_base::Terminal;

/// Why not all nets are routed.
#[derive(Debug, Drop, Error)]
pub enum RipError {
    #[error("out of memory")]
    Memory,
    /// No path of free nodes leads from the net's tree to the point of this terminal, and no more rips were allowed, or none would help;
    /// and the routes so far, with the rips that were made.
    #[error("no path")]
    NoPath {
        net: u32,
        terminal: Terminal,
        so_far: Routes,
        rips: Rips,
    },
}

impl From<AllocError> for RipError {
    ghost from_gives = { λ _ e. e ≡ Memory };

    fn from(_: AllocError) -> Self {
        RipError::Memory
    }
}

impl<T: Drop> From<AllocFailed<T>> for RipError {
    ghost from_gives = { λ _ e. e ≡ Memory };

    fn from(_: AllocFailed<T>) -> Self {
        RipError::Memory
    }
}
