//! `nero` as a tool: the layout of a placed netlist, with routes of its nets over the rows.
//!
//! What it reads and answers stands in `specs/Nero.antt`; when each status comes and what it leaves, for all tools, in
//! `specs/Table.antt` of `tool_drive`. The text of a layout in rows, and that of one in which a net got stuck,
//! stand here for `flow` too, and what is read for `rip`.
#![tactic(auto)]

mod given;
mod laws;
mod nero;
mod placed;
mod words;
mod written;

pub use given::{Given, read_given};
pub use laws::row_text_law;
pub use words::{NERO_ENTRY, NeroCommand, PLACED};
pub use written::{NoRoutes, part_text, refusal, row_text, whole_text};
