//! The table of tools, those beside `flow` and `gen` by the driver of `tool_drive`, and the line on words that spell no command.
//!
//! What each tool reads and answers stands in the specs of its crate (`syf_run`, `boom_run` and so on), and for all together in
//! `specs/Answers.antt`; the table of their words, in `specs/Tools.antt`; when each status comes and what it leaves, for all tools, in
//! `specs/Table.antt` of `tool_drive`.
#![tactic(auto)]

mod run;
mod usage;
mod words;

pub use run::run_tool;
pub use tool_drive::{FileCause, Kind, LibraryFault, Status, Verdict};
pub use usage::refuse_words;
pub use words::{Command, read_command, words_law};
