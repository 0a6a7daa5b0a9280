// Why not all nets are routed.
ghost use Rattle.std.specs.Prelude.{◌≡◌};
ghost use Rattle.nero_nets.specs.declared.error.RouteError.TheVariants.{Memory};

use grid_core::Routes;
use std::alloc::{AllocError, AllocFailed};
use thiserror::Error;
use vlsi_base::Terminal;

/// Why not all nets are routed.
#[derive(Debug, Drop, Error)]
pub enum RouteError {
    #[error("out of memory")]
    Memory,
    /// No path of free nodes leads from the net's tree to the point of this terminal; and the routes so far: each earlier net's whole
    /// tree, and this one's up to that point.
    #[error("no path")]
    NoPath {
        net: u32,
        terminal: Terminal,
        so_far: Routes,
    },
}

impl From<AllocError> for RouteError {
    ghost from_gives = { λ _ e. e ≡ Memory };

    fn from(_: AllocError) -> Self {
        RouteError::Memory
    }
}

impl<T: Drop> From<AllocFailed<T>> for RouteError {
    ghost from_gives = { λ _ e. e ≡ Memory };

    fn from(_: AllocFailed<T>) -> Self {
        RouteError::Memory
    }
}
