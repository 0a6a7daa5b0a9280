//! Two machines compared, root by root, as functions of their inputs and registers, with an exact budget.
//!
//! The diagrams of two roots are those of `proof_joint`. What the verdict says stands in `specs/Verdict.antt`, without diagrams.
#![tactic(auto)]

mod laws;
mod proving;
mod verdict;

pub use laws::equal_law;
pub use proof_joint::Role;
pub use proving::prove;
pub use verdict::{ProofVerdict, ProveError};
