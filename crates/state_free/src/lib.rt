//! State machines whose outputs are left free in part: what they may do, and the two machines that each of them is by codes of its
//! states.
#![tactic(auto)]

mod law;
mod machine;
mod state_machine;

pub use law::{
    both_are_checked, both_may_run, both_walk_alike, free_runs_exist, machines_are_free,
    machines_may_do_as, nothing_free_in_states, same_codes,
};
pub use machine::free_machine_of;
pub use state_machine::FreeStateMachine;
