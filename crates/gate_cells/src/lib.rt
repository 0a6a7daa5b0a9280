//! The gates of a library that a netlist may use, with their words, by rising area.
#![tactic(auto)]

mod entry;
mod listed;

pub use listed::{GateCells, gate_cells};
