//! `rip` as a tool: the layout of a placed netlist, with routes of its nets over the rows, where stuck nets have others torn out.
//!
//! What it answers stands in `specs/Rip.antt`; what it reads is what `nero` reads (`nero_run`); when each status comes and what it leaves,
//! for all tools, in `specs/Table.antt` of `tool_drive`.
#![tactic(auto)]

mod rip;
mod words;
mod written;

pub use words::{RIP_ENTRY, RipCommand};
