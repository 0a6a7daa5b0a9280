//! The subject graph of a machine: inverters and gates of two inputs, each of which stands in it once.
#![tactic(auto)]

mod graph;
mod loads;
mod names;
mod outputs;
mod roots;

pub use graph::Graph;
pub use subject_table::Node;
