// Why a layout has no netlist.
ghost use Rattle.std.specs.Prelude.{◌≡◌};
ghost use Rattle.cougar_extract.specs.declared.error.ExtractError.TheVariants.{Memory};

use std::alloc::{AllocError, AllocFailed};
use std::fmt;
use sym_geom::Rect;
use thiserror::Error;
use vlsi_base::{Limit, Listed, Name, Text};

/// A shape of a chain: its metal, where it lies, and the instance that it belongs to, if any.
#[derive(Drop)]
pub struct Step {
    pub metal: u8,
    pub rect: Rect,
    pub owner: Option<Text>,
}

/// The shapes of a chain in their order.
pub type Steps = Listed<Step>;

/// Why a layout has no netlist.
#[derive(Drop, Error)]
pub enum ExtractError {
    #[error("out of memory")]
    Memory,
    /// The model of the first instance whose model isn't in the library.
    #[error("a model isn't in the library")]
    UnknownCell(Text),
    /// 2^32 shapes or more, or 2^32 ports and pins or more.
    #[error("limit: {} {}", .0.which.as_str(), .0.reached)]
    Limit(Limit),
    /// Two ports that are joined, and the shapes that join them.
    #[error("two ports are joined")]
    Shorted { a: Name, b: Name, chain: Steps },
}

/// Its message: a rectangle has no form of its own for a debugger.
impl fmt::Debug for ExtractError {
    fn fmt<W: fmt::Write>(&self, f: &mut fmt::Formatter<W>) -> fmt::Result {
        write!(f, "{self}")
    }
}

impl From<AllocError> for ExtractError {
    ghost from_gives = { λ _ e. e ≡ Memory };

    fn from(_: AllocError) -> Self {
        ExtractError::Memory
    }
}

impl<T: Drop> From<AllocFailed<T>> for ExtractError {
    ghost from_gives = { λ _ e. e ≡ Memory };

    fn from(_: AllocFailed<T>) -> Self {
        ExtractError::Memory
    }
}
