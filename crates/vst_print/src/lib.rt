//! Netlists in memory, written as structural texts, and that such a text is a sentence that says the netlist.
#![tactic(auto)]

mod again;
mod error;
mod groups;
mod instances;
mod nets;
mod test;
mod writer;

pub use again::{written_is_a_sentence, written_says_the_netlist};
pub use error::WriteError;
pub use groups::entity;
pub use writer::write_vst;
