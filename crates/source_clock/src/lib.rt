//! Guards of blocks: what they join, the clock that they name, the conditions beside it, and the check that a text has one
//! clock, which stands nowhere else.
#![tactic(auto)]

mod clocks;
mod faults;
mod guards;
mod reads;

pub use clocks::{clock, clock_of};
pub use faults::clock_fault;
pub use guards::conditions;
pub use reads::clock_line;
