// Why a machine isn't optimised.
ghost use Rattle.std.specs.Prelude.{◌≡◌};
ghost use Rattle.boom_opt.specs.declared.error.BoomError.TheVariants.{Memory};

use std::alloc::AllocError;
use thiserror::Error;
use vlsi_base::Name;

/// Why a machine isn't optimised.
#[derive(Debug, Drop, Error)]
pub enum BoomError {
    #[error("out of memory")]
    Memory,
    /// The name of the first root whose diagram has more nodes than the budget.
    #[error("a diagram over its budget")]
    Budget(Name),
}

impl From<AllocError> for BoomError {
    ghost from_gives = { λ _ e. e ≡ Memory };

    fn from(_: AllocError) -> Self {
        BoomError::Memory
    }
}
