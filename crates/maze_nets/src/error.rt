// Why not all nets get whole trees.
ghost use Rattle.std.specs.Prelude.{◌≡◌};
ghost use Rattle.maze_nets.specs.declared.error.RouteError.TheVariants.{Memory};

use grid_core::Routes;
use std::alloc::{AllocError, AllocFailed};
use thiserror::Error;

/// Why not all nets get whole trees.
#[derive(Debug, Drop, Error)]
pub enum RouteError {
    #[error("out of memory")]
    Memory,
    /// No path of free nodes leads from the net's tree to its point with this number, counted from 0; and the routes so far: each
    /// earlier net's whole tree, and this one's up to that point.
    #[error("no path")]
    NoPath {
        net: u32,
        point: usize,
        so_far: Routes,
    },
}

impl From<AllocError> for RouteError {
    ghost from_gives = { λ _ e. e ≡ Memory };

    fn from(_: AllocError) -> Self {
        RouteError::Memory
    }
}

impl<T: Drop> From<AllocFailed<T>> for RouteError {
    ghost from_gives = { λ _ e. e ≡ Memory };

    fn from(_: AllocFailed<T>) -> Self {
        RouteError::Memory
    }
}
