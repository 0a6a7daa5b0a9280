// What two machines are to each other, and why it isn't known.
ghost use Rattle.std.specs.Prelude.{◌≡◌};
ghost use Rattle.proof_cmp.specs.declared.verdict.ProveError.TheVariants.{Memory};

use std::alloc::AllocError;
use thiserror::Error;
use vlsi_base::Name;

/// What two machines are to each other.
#[derive(Drop)]
pub enum ProofVerdict {
    /// Every output, and what every register loads and when, is the same function of inputs and registers.
    Equal,
    /// The first output or register that differs, and bits on which it does: one for each input port, the clock among them, in the
    /// order of names, and then one for each register in the order of names.
    Differs { name: Name, bits: Vec<bool> },
    /// The least name that is an input port, an output port or a register of one of the machines alone, or where both have registers
    /// the clock of one alone.
    Names(Name),
}

/// Why two machines aren't compared.
#[derive(Debug, Drop, Error)]
pub enum ProveError {
    #[error("out of memory")]
    Memory,
    /// The name of the first roots whose diagram has more nodes than the budget.
    #[error("a diagram over its budget")]
    Budget(Name),
}

impl From<AllocError> for ProveError {
    ghost from_gives = { λ _ e. e ≡ Memory };

    fn from(_: AllocError) -> Self {
        ProveError::Memory
    }
}
