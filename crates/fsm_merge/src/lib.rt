//! State machines with states made one: the machine that is left, and what it means that it has the fewest states.
//!
//! What a run is stands in `fsm_machine`; which states become one is for a crate above to decide.
#![tactic(auto)]

mod law;
mod machine;
mod merger;
mod numbering;
mod pieces;

pub use law::{merged_is_checked, none_has_fewer};
pub use machine::merged_machine;
pub use numbering::Numbering;
