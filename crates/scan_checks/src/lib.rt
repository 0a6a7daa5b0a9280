//! What is asked of a netlist and of a path before a scan path is put in: names that are free, cells that are there, and each
//! register once.
#![tactic(auto)]

mod cells;
mod error;
mod names;
mod order;
mod plan;
mod registers;

pub use cells::{Part, Parts};
pub use error::ScanError;
pub use names::gate_name;
pub use plan::{Plan, make_plan};
pub use registers::Register;
