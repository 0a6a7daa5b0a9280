//! A walk through an expression's expansion: the inputs and registers in the order in which it first meets them, and what it meets.
//!
//! The expansion replaces inner signals by their equations; it is never made, since it can be exponential in the machine.
#![tactic(auto)]

mod walking;

pub use walking::{WalkedNames, walk};
