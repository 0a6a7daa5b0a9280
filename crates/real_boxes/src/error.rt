// Why a layout has no boxes of a process.
ghost use Rattle.std.specs.Prelude.{◌≡◌};
ghost use Rattle.real_boxes.specs.declared.error.ProcessError.TheVariants.{Memory};

use std::alloc::{AllocError, AllocFailed};
use std::fmt;
use sym_geom::Rect;
use thiserror::Error;
use vlsi_base::{Limit, Text};

/// Why a layout has no boxes of a process.
#[derive(Drop, Error)]
pub enum ProcessError {
    #[error("out of memory")]
    Memory,
    /// The model of the first instance whose model isn't in the library.
    #[error("a model isn't in the library")]
    UnknownCell(Text),
    /// The model of the first instance whose cell isn't mappable.
    #[error("a cell isn't mappable")]
    NotMappable(Text),
    /// 2^32 shapes or boxes, or more.
    #[error("limit: {} {}", .0.which.as_str(), .0.reached)]
    Limit(Limit),
    /// The layer or contact of the first metal that would be lost.
    #[error("metal would be lost")]
    Lost(Text),
    /// The first two shapes of a metal that don't touch, but whose boxes meet: their symbolic rectangles.
    #[error("shapes would be joined")]
    Joined { metal: u8, a: Rect, b: Rect },
    /// The first two shapes of a metal that touch, and whose boxes don't meet.
    #[error("shapes would be parted")]
    Parted { metal: u8, a: Rect, b: Rect },
    /// The first box that doesn't fit the grid, or has no area, and its real layer.
    #[error("a box is off the grid")]
    OffGrid { real: Text, rect: Rect },
    /// The first two boxes on a real layer that don't meet, but are nearer than the table says.
    #[error("boxes are too near")]
    Near { real: Text, a: Rect, b: Rect },
}

/// Its message: a rectangle has no form of its own for a debugger.
impl fmt::Debug for ProcessError {
    fn fmt<W: fmt::Write>(&self, f: &mut fmt::Formatter<W>) -> fmt::Result {
        write!(f, "{self}")
    }
}

impl From<AllocError> for ProcessError {
    ghost from_gives = { λ _ e. e ≡ Memory };

    fn from(_: AllocError) -> Self {
        ProcessError::Memory
    }
}

impl<T: Drop> From<AllocFailed<T>> for ProcessError {
    ghost from_gives = { λ _ e. e ≡ Memory };

    fn from(_: AllocFailed<T>) -> Self {
        ProcessError::Memory
    }
}
