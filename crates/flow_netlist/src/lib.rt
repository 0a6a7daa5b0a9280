//! The netlist of a machine, with buffers and drives.
#![tactic(auto)]

mod laws;
mod netlist;

pub use laws::driven_netlist_law;
pub use netlist::driven_netlist_of;
