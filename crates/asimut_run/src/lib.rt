//! `asimut` as a tool: patterns run on a data-flow source, or on a netlist of library cells.
//!
//! What it reads and answers stands in `specs/Asimut.antt` and `specs/Netlist.antt`; when each status comes and what it leaves, for
//! all tools, in `specs/Table.antt` of `tool_drive`.
#![tactic(auto)]

mod laws;
mod netlist;
mod source;
mod words;

pub use laws::asimut_law;
pub use words::{ASIMUT_ENTRY, AsimutCommand, AsimutNetlistCommand, AsimutTask};
