// Why trees aren't covered.
ghost use Rattle.std.specs.Prelude.{◌≡◌};
ghost use Rattle.boog_area.specs.declared.error.TreeError.TheVariants.{Memory};

use std::alloc::AllocError;
use thiserror::Error;
use vlsi_base::Kind;

/// Why trees aren't covered.
#[derive(Debug, Drop, Error)]
pub enum TreeError {
    #[error("out of memory")]
    Memory,
    /// The first kind that the library has no usable cell of: `Inv`, or else `Nand2`.
    #[error("{}", .0.as_str())]
    NoCover(Kind),
}

impl From<AllocError> for TreeError {
    ghost from_gives = { λ _ e. e ≡ Memory };

    fn from(_: AllocError) -> Self {
        TreeError::Memory
    }
}
