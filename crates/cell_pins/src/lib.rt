//! The pins of a library's cells, as a netlist that uses these cells asks for them.
#![tactic(auto)]

mod follows;
mod laws;
mod pins;
mod table;

pub use follows::is_scalar;
pub use laws::libraries_have_tables;
pub use pins::{all_ports, with_supplies};
pub use table::pin_table;
