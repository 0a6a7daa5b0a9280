//! Tables of a process: which boxes on which real layers each symbolic layer and each contact becomes, and the reader of their text.
//!
//! The form of the text stands in `specs/Process.antt`, that of each line in `specs/Lines.antt`.
#![tactic(auto)]

mod fields;
mod head;
mod lines;
mod reader;
mod table;
mod words;

pub use fields::{field, field_count, number_in};
pub use reader::{is_process, read_process};
pub use table::{Entry, Growth, Head, MOST_LENGTH, MOST_UNIT, ProcessTable, Rule};
pub use words::is_name;
