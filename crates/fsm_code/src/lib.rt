//! The states of a state machine and its statements: their signals as expressions, and what the statements leave of an output bit
//! and of a bit of the next code.
#![tactic(auto)]

mod codes;
mod count;
mod emission;
mod path;
mod statements;
mod target;

pub use codes::Codes;
pub use count::signals;
pub use emission::StateSignals;
pub use path::{Place, along, any_of};
pub use statements::{Assignment, Branches, Parts, Statements};
pub use target::{Sought, Targets, place_of};
