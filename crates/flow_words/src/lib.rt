//! The words of `flow` and `gen`, and what they ask of them.
#![tactic(auto)]

mod law;
mod words;

pub use law::words_are_within_bounds;
pub use tool_words::Encoding;
pub use words::{FLOW_ENTRY, FlowCommand, GEN_ENTRY, GenCommand, METALS, MOVES, ROWS};
