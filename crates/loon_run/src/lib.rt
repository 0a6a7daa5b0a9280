//! `loon` as a tool: a netlist with buffers where nets have many sinks, and with cells chosen so that its longest path is short.
//!
//! What it reads and answers stands in `specs/Loon.antt`; when each status comes and what it leaves, for all tools, in
//! `specs/Table.antt` of `tool_drive`.
#![tactic(auto)]

mod laws;
mod loon;
mod product;
mod words;

pub use laws::loon_law;
pub use words::{LOON_ENTRY, LoonCommand};
