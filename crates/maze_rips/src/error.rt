// Why not all nets get whole trees.
ghost use Rattle.std.specs.Prelude.{◌≡◌};
ghost use Rattle.maze_rips.specs.declared.error.RipError.TheVariants.{Memory};

use crate::rip::PointRip;
use grid_core::Routes;
use std::alloc::{AllocError, AllocFailed};
use thiserror::Error;

/// Why not all nets get whole trees.
#[derive(Debug, Drop, Error)]
pub enum RipError {
    #[error("out of memory")]
    Memory,
    /// No path of free nodes leads from the net's tree to its point with this number, counted from 0, and no more rips were allowed, or
    /// none would help; and the routes so far, with the rips that were made, in their order.
    #[error("no path")]
    NoPath {
        net: u32,
        point: usize,
        so_far: Routes,
        rips: Vec<PointRip>,
    },
}

impl From<AllocError> for RipError {
    ghost from_gives = { λ _ e. e ≡ Memory };

    fn from(_: AllocError) -> Self {
        RipError::Memory
    }
}

impl<T: Drop> From<AllocFailed<T>> for RipError {
    ghost from_gives = { λ _ e. e ≡ Memory };

    fn from(_: AllocFailed<T>) -> Self {
        RipError::Memory
    }
}
