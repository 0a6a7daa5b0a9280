//! Whether another machine may stand in the place of a given one: what one proposes to say in place of its equations is put together as
//! a machine, and taken only where that does the same, isn't larger, and has inner signals within a bound.
//!
//! Where a proposal comes from doesn't matter. What is true of a machine that was taken stands in `specs/Kept.antt`.
#![tactic(auto)]

mod assembling;
mod checking;
mod proposal;
mod reading;
mod weighing;

pub use assembling::assembled;
pub use checking::may_replace;
pub use proposal::Proposal;
pub use weighing::inner_weight;
