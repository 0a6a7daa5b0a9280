//! `lvx` as a tool: two netlists of library cells, compared by name.
//!
//! What it reads and answers stands in `specs/Lvx.antt`; when each status comes and what it leaves, for all tools, in
//! `specs/Table.antt` of `tool_drive`.
#![tactic(auto)]

mod lvx;
mod words;

pub use words::{LVX_ENTRY, LvxCommand};
