//! `ocp` as a tool: the placement of a netlist in rows, without routes.
//!
//! What it reads and answers stands in `specs/Ocp.antt`; when each status comes and what it leaves, for all tools, in
//! `specs/Table.antt` of `tool_drive`.
#![tactic(auto)]

mod laws;
mod ocp;
mod product;
mod source;
mod words;

pub use laws::{placed_text_law, source_law};
pub use source::read_source;
pub use words::{OCP_ENTRY, OcpCommand};
