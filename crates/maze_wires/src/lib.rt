//! The wires and vias of nets' trees, and the lines that show them.
#![tactic(auto)]

mod lines;
mod links;
mod merging;
mod nodes;
mod order;
mod wires;

pub use lines::{push_marks, push_net};
pub use wires::{NetWires, Wire, net_wires};
