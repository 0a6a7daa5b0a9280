//! State machines, written as texts, and that such a text is read again as the same state machine.
#![tactic(auto)]

mod again;
mod read_again;
mod spelled;
mod statements;
mod words;
mod writer;

pub use again::written_is_a_sentence;
pub use read_again::{fsm_is_accepted, fsm_read_again};
pub use spelled::{fsm_can_be_written, one_text};
pub use words::Words;
pub use writer::write_fsm;
