//! State machines that have passed their checks.
#![tactic(auto)]

mod state_machine;

pub use state_machine::StateMachine;
