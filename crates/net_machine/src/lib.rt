//! Netlists of cells as machines: a netlist of a library's cells that passes its checks, with no opaque cell among them, has a
//! machine, which settles as it does.
#![tactic(auto)]

mod bits;
mod body;
mod clock;
mod count;
mod error;
mod known;
mod law;
mod machine;
mod runs_law;

pub use error::NetMachineError;
pub use law::{machine_runs_netlist, machine_settles_netlist};
pub use machine::{machine_of, signal_ports};
pub use runs_law::netlist_runs_as_its_machine;
