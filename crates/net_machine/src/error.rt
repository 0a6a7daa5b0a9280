// Why a netlist has no machine.
ghost use Rattle.std.specs.Prelude.{◌≡◌};
ghost use Rattle.net_machine.specs.declared.error.NetMachineError.TheVariants.{Memory};

use std::alloc::AllocError;
use thiserror::Error;
use vlsi_base::Text;

/// Why a netlist has no machine.
#[derive(Debug, Drop, Error)]
pub enum NetMachineError {
    #[error("out of memory")]
    Memory,
    /// Nothing is known of the cell of this name, which an instance has.
    #[error("no behaviour")]
    NoBehaviour(Text),
    /// The machine would have so many bits, 2^32 or more; the greatest number of 64 bits where they are more.
    #[error("too many bits")]
    TooManyBits(u64),
}

impl From<AllocError> for NetMachineError {
    ghost from_gives = { λ _ e. e ≡ Memory };

    fn from(_: AllocError) -> Self {
        NetMachineError::Memory
    }
}
