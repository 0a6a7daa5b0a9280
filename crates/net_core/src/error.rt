// Why a part isn't put into a netlist.
ghost use Rattle.std.specs.Prelude.{◌≡◌};
ghost use Rattle.net_core.specs.declared.error.BuildError.TheVariants.{Memory};
ghost use Rattle.net_core.specs.declared.error.CheckError.TheVariants as check;

use std::alloc::{AllocError, AllocFailed};
use thiserror::Error;
use vlsi_base::{FaultKind, Names};

/// Why a part isn't put into a netlist.
#[derive(Debug, Drop, Error)]
pub enum BuildError {
    #[error("out of memory")]
    Memory,
    /// An instance has the name.
    #[error("twice")]
    Twice,
    /// There is no such terminal.
    #[error("unknown")]
    Unknown,
}

impl From<AllocError> for BuildError {
    ghost from_gives = { λ _ e. e ≡ Memory };

    fn from(_: AllocError) -> Self {
        BuildError::Memory
    }
}

impl<T: Drop> From<AllocFailed<T>> for BuildError {
    ghost from_gives = { λ _ e. e ≡ Memory };

    fn from(_: AllocFailed<T>) -> Self {
        BuildError::Memory
    }
}

/// What is wrong with a netlist, and where: the least terminal of a class, a pin by its instance and its own name, or the
/// instances of a ring.
#[derive(Debug, Drop)]
pub struct NetFault {
    pub kind: FaultKind,
    pub names: Names,
}

/// Why a netlist doesn't pass.
#[derive(Debug, Drop, Error)]
pub enum CheckError {
    #[error("out of memory")]
    Memory,
    #[error("{}", .0.kind.as_str())]
    Fault(NetFault),
}

impl From<AllocError> for CheckError {
    ghost from_gives = { λ _ e. e ≡ check.Memory };

    fn from(_: AllocError) -> Self {
        CheckError::Memory
    }
}

impl<T: Drop> From<AllocFailed<T>> for CheckError {
    ghost from_gives = { λ _ e. e ≡ check.Memory };

    fn from(_: AllocFailed<T>) -> Self {
        CheckError::Memory
    }
}
