//! `syf` as a tool: a data-flow text of a state machine, by codes of its states.
//!
//! What it reads and answers stands in `specs/Syf.antt`; when each status comes and what it leaves, for all tools, in
//! `specs/Table.antt` of `tool_drive`.
#![tactic(auto)]

mod each_machine;
mod encoded;
mod laws;
mod lines;
mod syf;
mod words;

pub use each_machine::each_text_is_encoded;
pub use encoded::{Encoded, encoded_machine, style_of};
pub use laws::encoded_law;
pub use lines::code_lines;
pub use words::{SYF_ENTRY, SyfCommand};
