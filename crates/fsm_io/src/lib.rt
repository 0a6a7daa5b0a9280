//! Texts of state machines: from bytes to a state machine that has passed all checks.
#![tactic(auto)]

mod assigned;
mod bits;
mod check;
mod clock;
mod codes;
mod drivers;
mod forms;
mod known;
mod laws;
mod linked;
mod mentions;
mod names;
mod reader;
mod states;
mod uses;
mod widths;

pub use check::check_fsm;
pub use fsm_core::StateMachine;
pub use laws::{fsm_is_checked, never_both, one_fsm, one_refusal};
pub use reader::read_fsm;
