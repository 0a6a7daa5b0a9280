//! Fewer gates for the same roots: nodes that seem to be one function become one, and then each node gets the gates that save most,
//! built anew from its function over a few nodes below it.
//!
//! What comes of it serves to propose machines, whose functions are checked elsewhere. So no clause says what a call answers.
#![tactic(auto)]

mod cuts;
mod forms;
mod nets;
mod pass;
mod rewriting;
mod sweep;
mod words;

pub use nets::Net;
pub use rewriting::rewritten;
