//! How long the paths through a netlist of cells take: static timing analysis, by the latest arrival at each class in an order of the graph.
#![tactic(auto)]

mod analysis;
mod arc;
mod arrivals;
mod exchange;
mod graph;
mod loads;
mod settle;
mod trace;

pub use analysis::delays;
pub use arrivals::{Delays, worst};
