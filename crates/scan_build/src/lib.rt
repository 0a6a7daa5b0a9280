//! The netlist of its parts: its ports, its instances, and the class of each terminal.
#![tactic(auto)]

mod sketch;

pub use sketch::{Entry, Sketch, build};
