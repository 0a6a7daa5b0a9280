//! Machines whose outputs are left free in part: what they may do, and that a machine that is chosen among what is left free does
//! nothing else.
#![tactic(auto)]

mod law;
mod machine;

pub use law::{each_run_may, free_is_greater, nothing_free};
pub use machine::FreeMachine;
