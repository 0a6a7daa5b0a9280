//! Structural texts as netlists.
#![tactic(auto)]

mod bits;
mod build;
mod checking;
mod components;
mod forms;
mod known;
mod laws;
mod linking;
mod maps;
mod reader;

pub use laws::{never_both, one_netlist, one_refusal};
pub use reader::read_vst;
