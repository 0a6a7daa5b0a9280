//! Data-flow sources as machines: all checks of a source in their order, and the machine that it is.
#![tactic(auto)]

mod build;
mod check;
mod cycle;
mod equations;
mod faults;
mod nodes;
mod ports;
mod refusals;
mod registers;
mod source;

pub use check::check_machine;
pub use equations::var_numbers;
pub use faults::{fault, line_fault, name_fault, text_fault};
pub use machine_core::Machine;
pub use nodes::node_order;
pub use ports::{ports_in_file_order, sorted_ports};
pub use refusals::refusal;
