//! The sinks of each net of a netlist: the pins that read it.
#![tactic(auto)]

mod loads;

pub use loads::net_loads;
