//! `scapin` as a tool: a netlist with a scan path through its registers, in the order of a path.
//!
//! What it reads and answers stands in `specs/Scapin.antt`; when each status comes and what it leaves, for all tools, in
//! `specs/Table.antt` of `tool_drive`.
#![tactic(auto)]

mod laws;
mod product;
mod refusals;
mod tool;
mod words;

pub use laws::scapin_law;
pub use words::{SCAPIN_ENTRY, ScapinCommand};
