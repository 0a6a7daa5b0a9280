// Why a netlist gets no scan path.
ghost use Rattle.std.specs.Prelude.{◌≡◌};
ghost use Rattle.scan_checks.specs.declared.error.ScanError.TheVariants.{Memory};

use cell_model::Kind;
use std::alloc::{AllocError, AllocFailed};
use thiserror::Error;
use vlsi_base::Text;

/// Why a netlist gets no scan path, in the order in which it is asked.
#[derive(Debug, Drop, Error)]
pub enum ScanError {
    /// Memory has run out.
    #[error("out of memory")]
    Memory,
    /// The first of the names that are added which a port has as its text, or an instance as its name.
    #[error("a name that is added is taken")]
    Taken(Text),
    /// The first of an inverter and a nand of two inputs that no usable cell is.
    #[error("no cell for {}", .0.as_str())]
    NoCover(Kind),
    /// The first name of the path that is no register's.
    #[error("a name of the path is no register's")]
    Unknown(Text),
    /// The first name of the path that stood before.
    #[error("a name stands twice in the path")]
    Twice(Text),
    /// The first register that the path lacks.
    #[error("the path lacks a register")]
    Left(Text),
}

impl From<AllocError> for ScanError {
    ghost from_gives = { λ _ e. e ≡ Memory };

    fn from(_: AllocError) -> Self {
        ScanError::Memory
    }
}

impl<T: Drop> From<AllocFailed<T>> for ScanError {
    ghost from_gives = { λ _ e. e ≡ Memory };

    fn from(_: AllocFailed<T>) -> Self {
        ScanError::Memory
    }
}
