//! `flatbeh` as a tool: the meaning of a netlist of library cells, as a data-flow source.
//!
//! What it reads and answers stands in `specs/Flatbeh.antt`; when each status comes and what it leaves, for all tools, in
//! `specs/Table.antt` of `tool_drive`.
#![tactic(auto)]

mod flatbeh;
mod laws;
mod product;
mod words;

pub use laws::flatbeh_law;
pub use words::{FLATBEH_ENTRY, FlatbehCommand};
