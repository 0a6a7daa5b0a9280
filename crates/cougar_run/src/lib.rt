//! `cougar` as a tool: the netlist of a layout of library cells.
//!
//! What it reads and answers stands in `specs/Cougar.antt`; when each status comes and what it leaves, for all tools, in
//! `specs/Table.antt` of `tool_drive`.
#![tactic(auto)]

mod cougar;
mod laws;
mod product;
mod words;

pub use laws::cougar_law;
pub use words::{COUGAR_ENTRY, CougarCommand};
