//! The routes of all nets of a netlist that is placed in rows, where a net that is stuck has the paths torn out that block its way.
#![tactic(auto)]

mod error;
mod law;
mod rip;
mod route;

pub use error::RipError;
pub use law::placed_trees_stay_apart;
pub use rip::{Rerouted, Rip, Rips};
pub use route::route_with_rips;
