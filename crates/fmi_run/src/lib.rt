//! `fmi` as a tool: a state machine's text with the fewest states.
//!
//! What it reads and answers stands in `specs/Fmi.antt`; when each status comes and what it leaves, for all tools, in
//! `specs/Table.antt` of `tool_drive`.
#![tactic(auto)]

mod fmi;
mod minimised;
mod words;

pub use words::{FMI_ENTRY, FmiCommand};
