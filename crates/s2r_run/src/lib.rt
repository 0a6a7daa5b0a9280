//! `s2r` as a tool: a layout of mappable cells in real units, as a CIF file.
//!
//! What it reads and answers stands in `specs/S2r.antt`, by a table of a process in `specs/Process.antt`; the text of a plain table in
//! `specs/TableText.antt`, that of a process in `real_table`; when each status comes and what it leaves, for all tools, in
//! `specs/Table.antt` of `tool_drive`.
#![tactic(auto)]

mod near;
mod process;
mod reader;
mod s2r;
mod words;

pub use words::{S2R_ENTRY, S2rCommand};
