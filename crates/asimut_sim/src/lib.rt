//! Simulation of machines: what patterns come to.
#![tactic(auto)]

mod columns;
mod copies;
mod cycle;
mod flat;
mod layout;
mod operator;
mod places;
mod plan;
mod program;
mod refusal;
mod simulation;
mod values;

pub use refusal::SimError;
pub use simulation::{observes_once, simulate};
