//! The state machine with the fewest states that does what another does, and for each two of its states vectors that tell them apart.
//!
//! What that means stands in `specs/Fewest.antt` of `fsm_merge`, as a relation over all lists of vectors. The code goes through a table: the
//! moves of each state under each vector of the inputs that the statements read.
#![tactic(auto)]

mod digits;
mod error;
mod minimal;
mod moves;
mod table;
mod tests;
mod vectors;

pub use error::MinError;
pub use minimal::{Minimal, minimise};
pub use tests::{TestRow, Tests};
pub use vectors::MOST_INPUTS;
