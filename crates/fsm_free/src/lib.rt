//! Texts of state machines that may leave bits of outputs free: from bytes to one state machine, or to one whose outputs are left free
//! in part.
#![tactic(auto)]

mod filling;
mod laws;
mod machine;
mod pieces;
mod reader;
mod tokens;

pub use laws::{filled_agree, never_both, one_refusal, one_source, refused_alike};
pub use reader::{FsmSource, read_free_fsm};
pub use tokens::Place;
