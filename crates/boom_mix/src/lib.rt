//! Proposals for a machine that needs fewer gates: each root keeps its equations, or gets those of its diagram, by which needs fewer
//! gates together with all others; and the gates that come of it, made anew.
//!
//! What is proposed is checked elsewhere, so no clause says what it is.
#![tactic(auto)]

mod choosing;
mod mixing;
mod proposing;
mod rewriting;
mod saying;

pub use mixing::{Choices, choices_of};
