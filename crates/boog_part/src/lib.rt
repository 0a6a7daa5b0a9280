//! The part of a subject graph that its outputs and registers need.
#![tactic(auto)]

mod marks;
mod part;

pub use part::NeededPart;
