//! Codes for the states of a state machine: one bit for each state, random numbers, or numbers that bring states near each other of
//! which one leads to the other.
#![tactic(auto)]

mod adjacent;
mod coding;
mod edges;
mod random;
mod style;

pub use coding::encode;
pub use style::Style;
