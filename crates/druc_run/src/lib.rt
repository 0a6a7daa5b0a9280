//! `druc` as a tool: the breaches of a layout of library cells.
//!
//! What it reads and answers stands in `specs/Druc.antt`; when each status comes and what it leaves, for all tools, in
//! `specs/Table.antt` of `tool_drive`.
#![tactic(auto)]

mod druc;
mod report;
mod words;

pub use words::{DRUC_ENTRY, DrucCommand};
