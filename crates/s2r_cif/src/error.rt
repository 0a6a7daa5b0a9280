// Why a symbolic layout has no real one.
ghost use Rattle.std.specs.Prelude.{◌≡◌};
ghost use Rattle.s2r_cif.specs.declared.error.RealError.TheVariants.{Memory};

use std::alloc::{AllocError, AllocFailed};
use std::fmt;
use sym_geom::Rect;
use thiserror::Error;
use vlsi_base::{Limit, Text};

/// Why a symbolic layout has no real one.
#[derive(Drop, Error)]
pub enum RealError {
    #[error("out of memory")]
    Memory,
    /// The model of the first instance whose model isn't in the library.
    #[error("a model isn't in the library")]
    UnknownCell(Text),
    /// The model of the first instance whose cell isn't mappable.
    #[error("a cell isn't mappable")]
    NotMappable(Text),
    /// 2^32 shapes or more.
    #[error("limit: {} {}", .0.which.as_str(), .0.reached)]
    Limit(Limit),
    /// The first two shapes of one metal that don't touch, but whose boxes would.
    #[error("shapes are too near")]
    Near { metal: u8, a: Rect, b: Rect },
}

/// Its message: a rectangle has no form of its own for a debugger.
impl fmt::Debug for RealError {
    fn fmt<W: fmt::Write>(&self, f: &mut fmt::Formatter<W>) -> fmt::Result {
        write!(f, "{self}")
    }
}

impl From<AllocError> for RealError {
    ghost from_gives = { λ _ e. e ≡ Memory };

    fn from(_: AllocError) -> Self {
        RealError::Memory
    }
}

impl<T: Drop> From<AllocFailed<T>> for RealError {
    ghost from_gives = { λ _ e. e ≡ Memory };

    fn from(_: AllocFailed<T>) -> Self {
        RealError::Memory
    }
}
