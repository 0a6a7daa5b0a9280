//! Simulation of netlists of cells: what patterns come to.
#![tactic(auto)]

mod error;
mod law;
mod simulation;

pub use error::NetSimError;
pub use law::simulates_alike;
pub use simulation::simulate_net;
