//! `boom` as a tool: a data-flow source made smaller, with an exact budget.
//!
//! What it reads and answers stands in `specs/Boom.antt`; when each status comes and what it leaves, for all tools, in
//! `specs/Table.antt` of `tool_drive`.
#![tactic(auto)]

mod boom;
mod words;

pub use boom::optimise_within;
pub use words::{BOOM_ENTRY, BoomCommand};
