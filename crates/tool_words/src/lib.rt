//! The words of a command line: how a tool's SOURCE and options are spelled, what they give, and how a tool is called.
//!
//! What the words of each tool are, and what they ask of it, stands in the tool's own crate.
#![tactic(auto)]

mod arguments;
mod command;
mod table;
mod usage;
mod values;
mod words;

pub use command::{FromValues, read_asked};
pub use table::{ENCODING, Entry, FANOUT, Form, LIBRARY, NODES, OUT, SEED, Setting};
pub use usage::usage_line;
pub use values::{
    Encoding, Values, encoding_given, given, has_ending, is_set, number, number_if_given, source,
    text,
};
pub use words::{Words, WordsError, is_same};
