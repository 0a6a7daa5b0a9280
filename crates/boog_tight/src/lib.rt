//! Pairs of gates put into one cell, until no pair can be.
#![tactic(auto)]

mod pass;
mod uses;

pub use pass::{Fused, tighten};
pub use uses::count_on;
