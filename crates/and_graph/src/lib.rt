//! And-inverter graphs: gates of two inputs and inverters on what they read, each gate once by structural hashing, and a count of the
//! gates that some roots need.
//!
//! They serve to propose machines, whose functions are checked elsewhere. So no clause says what a call answers.
#![tactic(auto)]

mod building;
mod graph;
mod readers;

pub use building::signal_of;
pub use graph::{AndGraph, Gate, Signal};
pub use readers::{Count, Readers};
