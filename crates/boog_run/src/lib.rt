//! `boog` as a tool: a netlist of library cells, of a data-flow source.
//!
//! What it reads and answers stands in `specs/Boog.antt`; when each status comes and what it leaves, for all tools, in
//! `specs/Table.antt` of `tool_drive`.
#![tactic(auto)]

mod boog;
mod laws;
mod netlist;
mod words;

pub use laws::{boog_law, netlist_law};
pub use netlist::{covered_netlist, netlist_of};
pub use words::{BOOG_ENTRY, BoogCommand};
