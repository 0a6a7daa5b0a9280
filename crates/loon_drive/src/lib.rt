//! A netlist whose nets have few sinks, and whose cells are chosen so that its longest path is short.
#![tactic(auto)]

mod drive;
mod laws;

pub use drive::{Driven, drive_netlist};
pub use laws::{driven_law, exchanged_law};
