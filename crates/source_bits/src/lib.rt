//! Data-flow texts as formulas over numbered bits: the numbers of declared names, the formulas of expressions and
//! choices, and the bits that a text drives.
#![tactic(auto)]

mod choices;
mod driven;
mod formulas;
mod numbers;
mod ranges;
mod vectors;

pub use choices::choice_bits;
pub use driven::{DrivenBit, StoredBit, driven_bits, stored_bits, target_places};
pub use formulas::bits;
pub use numbers::Numbers;
