// Why a netlist isn't made a machine of its registers' names.
ghost use Rattle.std.specs.Prelude.{◌≡◌};
ghost use Rattle.net_flat.specs.declared.error.FlatError.TheVariants.{Memory};

use std::alloc::AllocError;
use thiserror::Error;
use vlsi_base::Text;

/// Why a netlist isn't made a machine whose registers have its instances' names.
#[derive(Debug, Drop, Error)]
pub enum FlatError {
    #[error("out of memory")]
    Memory,
    /// The cell of this name, which an instance has, is neither a gate nor a plain flip-flop.
    #[error("no behaviour")]
    NoBehaviour(Text),
    /// A flip-flop and a port have this name.
    #[error("twice")]
    Twice(Text),
}

impl From<AllocError> for FlatError {
    ghost from_gives = { λ _ e. e ≡ Memory };

    fn from(_: AllocError) -> Self {
        FlatError::Memory
    }
}
